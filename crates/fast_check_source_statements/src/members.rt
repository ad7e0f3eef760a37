//! Members of classes.
ghost use Rattle.fast_check_source_grammar.specs.Nests.{Nests};

use crate::modifiers::{Modifiers, member_modifiers, method_kind, param_modifiers};
use crate::statements::Statements;
use fast_check_source_grammar::{Cursor, Rule, Tokens, private_name};
use fast_check_source_lexer::{Keyword, TokenKind};
use fast_check_source_types::sees_index;
use fast_check_source_values::{Marks, enter_function};
use fast_check_tree_forms_classes::{
    AutoAccessor, ClassMethod, ClassProp, Constructor, Param, PrivateMethod, PrivateProp,
    StaticBlock, TsParamProp,
};
use fast_check_tree_forms_programs::{IdentName, Str};
use fast_check_tree_syntax::{Kind, SourcePos, SyntaxContext, Tree, Word as Form};
use std::alloc::Global;

/// What is read of a member before it is known which one it is.
#[derive(Drop)]
struct Member {
    start: SourcePos,
    decorators: Tree,
    marks: Modifiers,
    key: Tree,
    is_private: bool,
    /// Whether a `?` stands behind the key.
    optional: bool,
}

// Whether a key that was read, and the token after it, begin a constructor: the word `constructor`, or a string that means it before a `(`.
fn is_constructor(key: &Tree, at: Cursor<'_>) -> bool {
    let key = key.read();
    match key.kind() {
        Kind::IdentName => IdentName::of(key).sym == "constructor",
        Kind::Str => Str::of(key).value == "constructor" && at.is(TokenKind::LParen),
        _ => false,
    }
}

fn is_static_block(at: Cursor<'_>) -> bool {
    at.is_word(Keyword::Static) && at.second().is(TokenKind::LBrace)
}

const PLAIN: Marks = Marks {
    is_async: false,
    is_generator: false,
};

// In a static block `await` names nothing, though it may not be used there.
const STATIC: Marks = Marks {
    is_async: true,
    is_generator: false,
};

fn private_prop(
    alloc: Global,
    tokens: &mut Tokens<'_>,
    member: Member,
    type_ann: Tree,
    value: Tree,
    definite: bool,
) -> Tree {
    let Member {
        start,
        decorators,
        marks,
        key,
        optional,
        ..
    } = member;
    let made = PrivateProp {
        span: tokens.at.from(start),
        ctxt: SyntaxContext(0),
        key,
        value,
        type_ann,
        is_static: marks.is_static,
        decorators,
        accessibility: marks.accessibility(),
        is_optional: optional,
        is_override: marks.is_override,
        readonly: marks.readonly,
        definite,
    };
    tokens.made(made.into_tree(alloc))
}

fn class_prop(
    alloc: Global,
    tokens: &mut Tokens<'_>,
    member: Member,
    type_ann: Tree,
    value: Tree,
    definite: bool,
) -> Tree {
    let Member {
        start,
        decorators,
        marks,
        key,
        optional,
        ..
    } = member;
    let made = ClassProp {
        span: tokens.at.from(start),
        key,
        value,
        type_ann,
        is_static: marks.is_static,
        decorators,
        accessibility: marks.accessibility(),
        is_abstract: marks.is_abstract,
        is_optional: optional,
        is_override: marks.is_override,
        readonly: marks.readonly,
        declare: marks.declare,
        definite,
    };
    tokens.made(made.into_tree(alloc))
}

fn auto_accessor(
    alloc: Global,
    tokens: &mut Tokens<'_>,
    member: Member,
    type_ann: Tree,
    value: Tree,
    definite: bool,
) -> Tree {
    let Member {
        start,
        decorators,
        marks,
        key,
        ..
    } = member;
    let made = AutoAccessor {
        span: tokens.at.from(start),
        key,
        value,
        type_ann,
        is_static: marks.is_static,
        decorators,
        accessibility: marks.accessibility(),
        is_abstract: marks.is_abstract,
        is_override: marks.is_override,
        definite,
    };
    tokens.made(made.into_tree(alloc))
}

impl<F: Fn(Global, &mut Tokens<'_>, usize, Rule) -> Tree> Statements<F> {
    /// A member of a class.
    pub fn class_member(&self, tokens: &mut Tokens<'_>) -> Tree
        requires { Nests self.now.expressions.values.types.grammar.depth (F.pre self.now.expressions.values.types.grammar.parse) }
    {
        let start = tokens.at.start();
        if tokens.at.is(TokenKind::Semicolon) {
            return self.empty(tokens);
        }
        if is_static_block(tokens.at) {
            return self.static_block(tokens);
        }
        let saved = tokens.save();
        let is_decorated = tokens.at.is(TokenKind::At);
        let decorators = self.expressions.values.decorators(tokens);
        let marks = member_modifiers(tokens);
        if sees_index(tokens) {
            if is_decorated || !marks.fit_index() {
                return tokens.refuse_from(saved);
            }
            return self
                .expressions
                .values
                .types
                .index(tokens, start, marks.readonly, marks.is_static);
        }
        let kind = method_kind(tokens);
        let is_generator = tokens.at.eat(TokenKind::Star);
        let is_private = tokens.at.is(TokenKind::PrivateName);
        let key = if is_private {
            private_name(self.alloc(), tokens)
        } else {
            self.expressions.values.types.prop_name(tokens)
        };
        if kind == Form::Method && !is_generator && is_constructor(&key, tokens.at) {
            if is_decorated || !marks.fit_constructor() {
                return tokens.refuse_from(saved);
            }
            return self.constructor(tokens, start, marks, key);
        }
        let member = Member {
            start,
            decorators,
            marks,
            key,
            is_private,
            optional: tokens.at.eat(TokenKind::Question),
        };
        let is_method = is_generator
            || kind != Form::Method
            || tokens.at.is(TokenKind::LParen)
            || tokens.at.is(TokenKind::Less);
        let fits = if is_method {
            marks.fit_method(kind)
        } else {
            marks.fit_property(is_private) && !(marks.accessor && member.optional)
        };
        if !fits {
            tokens.refuse_from(saved)
        } else if is_method {
            self.method(tokens, member, kind, is_generator)
        } else {
            self.field(tokens, member)
        }
    }

    fn static_block(&self, tokens: &mut Tokens<'_>) -> Tree
        requires { Nests self.now.expressions.values.types.grammar.depth (F.pre self.now.expressions.values.types.grammar.parse) }
    {
        let start = tokens.at.start();
        tokens.at.advance();
        let outer = enter_function(tokens, STATIC);
        let body = self.again(tokens, Rule::Body);
        let _ = tokens.at.enter(outer);
        let span = tokens.at.from(start);
        tokens.made(StaticBlock { span, body }.into_tree(self.alloc()))
    }

    fn method(
        &self,
        tokens: &mut Tokens<'_>,
        member: Member,
        kind: Form,
        is_generator: bool,
    ) -> Tree
        requires { Nests self.now.expressions.values.types.grammar.depth (F.pre self.now.expressions.values.types.grammar.parse) }
    {
        let alloc = self.alloc();
        let Member {
            start,
            decorators,
            marks,
            key,
            is_private,
            optional,
        } = member;
        let before = Marks {
            is_async: marks.is_async,
            is_generator,
        };
        let function = self
            .expressions
            .values
            .function(tokens, start, before, decorators);
        let span = tokens.at.from(start);
        let kind = Tree::Word(kind);
        let made = if is_private {
            PrivateMethod {
                span,
                key,
                function,
                kind,
                is_static: marks.is_static,
                accessibility: marks.accessibility(),
                is_abstract: marks.is_abstract,
                is_optional: optional,
                is_override: marks.is_override,
            }
            .into_tree(alloc)
        } else {
            ClassMethod {
                span,
                key,
                function,
                kind,
                is_static: marks.is_static,
                accessibility: marks.accessibility(),
                is_abstract: marks.is_abstract,
                is_optional: optional,
                is_override: marks.is_override,
            }
            .into_tree(alloc)
        };
        tokens.made(made)
    }

    fn field(&self, tokens: &mut Tokens<'_>, member: Member) -> Tree
        requires { Nests self.now.expressions.values.types.grammar.depth (F.pre self.now.expressions.values.types.grammar.parse) }
    {
        let alloc = self.alloc();
        let definite = !member.optional && !tokens.at.newline() && tokens.at.eat(TokenKind::Not);
        let type_ann = self.expressions.values.types.annotation(tokens);
        let has_value = tokens.at.eat(TokenKind::Assign);
        let outer = enter_function(tokens, PLAIN);
        let value = self.again_if(tokens, has_value, Rule::Assigned);
        let _ = tokens.at.enter(outer);
        tokens.end_statement();
        if member.marks.accessor {
            auto_accessor(alloc, tokens, member, type_ann, value, definite)
        } else if member.is_private {
            private_prop(alloc, tokens, member, type_ann, value, definite)
        } else {
            class_prop(alloc, tokens, member, type_ann, value, definite)
        }
    }

    // A constructor after its key.
    fn constructor(
        &self,
        tokens: &mut Tokens<'_>,
        start: SourcePos,
        marks: Modifiers,
        key: Tree,
    ) -> Tree
        requires { Nests self.now.expressions.values.types.grammar.depth (F.pre self.now.expressions.values.types.grammar.parse) }
    {
        let alloc = self.alloc();
        let outer = enter_function(tokens, PLAIN);
        tokens.expect(TokenKind::LParen);
        let params = self.expressions.values.types.grammar.list(
            tokens,
            Rule::ConstructorParam,
            TokenKind::Comma,
            TokenKind::RParen,
        );
        let body = if tokens.at.is(TokenKind::LBrace) {
            self.again(tokens, Rule::Body)
        } else {
            tokens.end_statement();
            Tree::Absent
        };
        let _ = tokens.at.enter(outer);
        let made = Constructor {
            span: tokens.at.from(start),
            ctxt: SyntaxContext(0),
            key,
            params,
            body,
            accessibility: marks.accessibility(),
            is_optional: false,
        };
        tokens.made(made.into_tree(alloc))
    }

    /// A parameter of a constructor, which may be a property too.
    pub fn constructor_param(&self, tokens: &mut Tokens<'_>) -> Tree
        requires { Nests self.now.expressions.values.types.grammar.depth (F.pre self.now.expressions.values.types.grammar.parse) }
    {
        let alloc = self.alloc();
        let start = tokens.at.start();
        let decorators = self.expressions.values.decorators(tokens);
        let saved = tokens.save();
        let marks = param_modifiers(tokens);
        if !marks.fit_parameter() {
            return tokens.refuse_from(saved);
        }
        let param = self.expressions.values.types.param(tokens);
        let span = tokens.at.from(start);
        let made = if marks.declares_property() {
            TsParamProp {
                span,
                decorators,
                accessibility: marks.accessibility(),
                is_override: marks.is_override,
                readonly: marks.readonly,
                param,
            }
            .into_tree(alloc)
        } else {
            Param {
                span,
                decorators,
                pat: param,
            }
            .into_tree(alloc)
        };
        tokens.made(made)
    }
}
