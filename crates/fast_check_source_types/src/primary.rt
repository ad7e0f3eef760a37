//! Types without operators.
ghost use Rattle.fast_check_source_grammar.specs.Nests.{Nests};

use crate::look_ahead::{is_before_is, sees_assertion, sees_label, sees_mapped};
use crate::types::Types;
use fast_check_source_grammar::{
    Rule, Tokens, Trees, bool_literal, entity, quasi, signed_number, string, word,
};
use fast_check_source_lexer::{Keyword, TokenKind};
use fast_check_tree_forms_expressions::RestPat;
use fast_check_tree_forms_programs::{BindingIdent, Ident};
use fast_check_tree_forms_types::{
    TsImportType, TsKeywordType, TsLitType, TsOptionalType, TsParenthesizedType, TsRestType,
    TsThisType, TsTplLitType, TsTupleElement, TsTupleType, TsTypeLit, TsTypeQuery, TsTypeRef,
};
use fast_check_tree_syntax::{SourcePos, SourceRange, SyntaxContext, Tree, Word as Form};
use std::alloc::Global;

fn keyword(word: Keyword) -> Option<Form> {
    match word {
        Keyword::Any => Some(Form::TsAnyKeyword),
        Keyword::Unknown => Some(Form::TsUnknownKeyword),
        Keyword::Number => Some(Form::TsNumberKeyword),
        Keyword::Object => Some(Form::TsObjectKeyword),
        Keyword::Boolean => Some(Form::TsBooleanKeyword),
        Keyword::Bigint => Some(Form::TsBigIntKeyword),
        Keyword::String => Some(Form::TsStringKeyword),
        Keyword::Symbol => Some(Form::TsSymbolKeyword),
        Keyword::Undefined => Some(Form::TsUndefinedKeyword),
        Keyword::Never => Some(Form::TsNeverKeyword),
        Keyword::Void => Some(Form::TsVoidKeyword),
        Keyword::Null => Some(Form::TsNullKeyword),
        _ => None,
    }
}

fn keyword_type(alloc: Global, tokens: &mut Tokens<'_>, form: Form) -> Tree {
    let span = tokens.at.here();
    tokens.at.advance();
    let kind = Tree::Word(form);
    tokens.made(TsKeywordType { span, kind }.into_tree(alloc))
}

// The label of an element of a tuple: `a`, `a?` or `...a`.
fn label(
    alloc: Global,
    tokens: &mut Tokens<'_>,
    start: SourcePos,
    dots: Option<SourceRange>,
) -> Tree {
    let at = tokens.at.start();
    let Some(sym) = word(alloc, tokens) else {
        return Tree::Absent;
    };
    let optional = tokens.at.eat(TokenKind::Question);
    let id = Ident {
        span: tokens.at.from(at),
        ctxt: SyntaxContext(0),
        sym,
        optional,
    };
    let name = BindingIdent {
        id: tokens.made(id.into_tree(alloc)),
        type_ann: Tree::Absent,
    };
    let arg = tokens.made(name.into_tree(alloc));
    let Some(dot3_token) = dots else {
        return arg;
    };
    let made = RestPat {
        span: tokens.at.from(start),
        dot3_token,
        arg,
        type_ann: Tree::Absent,
    };
    tokens.made(made.into_tree(alloc))
}

impl<F: Fn(Global, &mut Tokens<'_>, usize, Rule) -> Tree> Types<F> {
    pub fn primary(&self, tokens: &mut Tokens<'_>) -> Tree
        requires { Nests self.now.grammar.depth (F.pre self.now.grammar.parse) }
    {
        match tokens.at.kind() {
            TokenKind::Name => self.named(tokens),
            TokenKind::String | TokenKind::Number | TokenKind::BigInt | TokenKind::Minus =>
                self.literal(tokens),
            TokenKind::LParen => self.parenthesized(tokens),
            TokenKind::LBracket => self.tuple(tokens),
            TokenKind::Template | TokenKind::TemplateHead => self.template(tokens),
            TokenKind::LBrace if sees_mapped(tokens) => self.mapped(tokens),
            TokenKind::LBrace => self.type_literal(tokens),
            _ => tokens.refuse(),
        }
    }

    fn literal(&self, tokens: &mut Tokens<'_>) -> Tree {
        let start = tokens.at.start();
        let lit = match tokens.at.kind() {
            TokenKind::String => string(self.grammar.alloc, tokens),
            TokenKind::Name => bool_literal(self.grammar.alloc, tokens),
            _ => signed_number(self.grammar.alloc, tokens),
        };
        let span = tokens.at.from(start);
        tokens.made(TsLitType { span, lit }.into_tree(self.grammar.alloc))
    }

    fn parenthesized(&self, tokens: &mut Tokens<'_>) -> Tree
        requires { Nests self.now.grammar.depth (F.pre self.now.grammar.parse) }
    {
        let start = tokens.at.start();
        tokens.at.advance();
        let type_ann = self.grammar.again(tokens, Rule::Type);
        tokens.expect(TokenKind::RParen);
        let span = tokens.at.from(start);
        tokens.made(TsParenthesizedType { span, type_ann }.into_tree(self.grammar.alloc))
    }

    fn type_literal(&self, tokens: &mut Tokens<'_>) -> Tree
        requires { Nests self.now.grammar.depth (F.pre self.now.grammar.parse) }
    {
        let start = tokens.at.start();
        let members = self.members(tokens);
        let span = tokens.at.from(start);
        tokens.made(TsTypeLit { span, members }.into_tree(self.grammar.alloc))
    }

    fn tuple(&self, tokens: &mut Tokens<'_>) -> Tree
        requires { Nests self.now.grammar.depth (F.pre self.now.grammar.parse) }
    {
        let start = tokens.at.start();
        tokens.at.advance();
        let elem_types = self.grammar.list(
            tokens,
            Rule::Element,
            TokenKind::Comma,
            TokenKind::RBracket,
        );
        let span = tokens.at.from(start);
        tokens.made(TsTupleType { span, elem_types }.into_tree(self.grammar.alloc))
    }

    /// An element of a tuple, with its label.
    pub fn element(&self, tokens: &mut Tokens<'_>) -> Tree
        requires { Nests self.now.grammar.depth (F.pre self.now.grammar.parse) }
    {
        let start = tokens.at.start();
        let is_rest = tokens.at.eat(TokenKind::Dots);
        if sees_label(tokens) {
            return self.labelled(tokens, start, is_rest);
        }
        let mut ty = self.grammar.again(tokens, Rule::Type);
        if is_rest {
            let span = tokens.at.from(start);
            ty = tokens.made(TsRestType { span, type_ann: ty }.into_tree(self.grammar.alloc));
        } else if tokens.at.eat(TokenKind::Question) {
            let span = tokens.at.from(start);
            ty = tokens.made(TsOptionalType { span, type_ann: ty }.into_tree(self.grammar.alloc));
        }
        let made = TsTupleElement {
            span: tokens.at.from(start),
            label: Tree::Absent,
            ty,
        };
        tokens.made(made.into_tree(self.grammar.alloc))
    }

    // `a: A`, `a?: A` or `...a: A`
    fn labelled(&self, tokens: &mut Tokens<'_>, start: SourcePos, is_rest: bool) -> Tree
        requires { Nests self.now.grammar.depth (F.pre self.now.grammar.parse) }
    {
        let dots = if is_rest {
            Some(tokens.at.from(start))
        } else {
            None
        };
        let label = label(self.grammar.alloc, tokens, start, dots);
        tokens.expect(TokenKind::Colon);
        let made = TsTupleElement {
            label,
            ty: self.grammar.again(tokens, Rule::Type),
            span: tokens.at.from(start),
        };
        tokens.made(made.into_tree(self.grammar.alloc))
    }

    fn template(&self, tokens: &mut Tokens<'_>) -> Tree
        requires { Nests self.now.grammar.depth (F.pre self.now.grammar.parse) }
    {
        let start = tokens.at.start();
        let (types, quasis) = self.template_parts(tokens, Rule::Type);
        let span = tokens.at.from(start);
        let lit = TsTplLitType {
            span,
            types,
            quasis,
        };
        let lit = tokens.made(lit.into_tree(self.grammar.alloc));
        tokens.made(TsLitType { span, lit }.into_tree(self.grammar.alloc))
    }

    /// The parts of a template by a rule, and the texts around them.
    pub fn template_parts(&self, tokens: &mut Tokens<'_>, rule: Rule) -> (Tree, Tree)
        requires { Nests self.now.grammar.depth (F.pre self.now.grammar.parse) }
    {
        let mut parts = Trees::new(self.grammar.alloc);
        let mut quasis = Trees::new(self.grammar.alloc);
        let mut goes_on = tokens.at.is(TokenKind::TemplateHead);
        quasis.push(quasi(self.grammar.alloc, tokens));
        for _turn in 0..tokens.at.left() {
            if !goes_on {
                break;
            }
            parts.push(self.grammar.again(tokens, rule));
            if tokens.at.is(TokenKind::RBrace) {
                tokens.at.rescan_template();
            }
            goes_on = !tokens.at.is(TokenKind::TemplateTail);
            if goes_on && !tokens.at.is(TokenKind::TemplateMiddle) {
                break;
            }
            quasis.push(quasi(self.grammar.alloc, tokens));
        }
        // What goes on with the template is missing.
        if goes_on {
            let _ = tokens.refuse();
        }
        (tokens.list(parts), tokens.list(quasis))
    }

    fn named(&self, tokens: &mut Tokens<'_>) -> Tree
        requires { Nests self.now.grammar.depth (F.pre self.now.grammar.parse) }
    {
        let word = tokens.at.word();
        if let Some(form) = keyword(word)
            && !tokens.at.second().is(TokenKind::Dot)
        {
            return keyword_type(self.grammar.alloc, tokens, form);
        }
        let start = tokens.at.start();
        match word {
            Keyword::True | Keyword::False => self.literal(tokens),
            Keyword::This if is_before_is(tokens) => self.predicate(tokens, start, false),
            Keyword::This => {
                tokens.at.advance();
                let made = TsThisType {
                    span: tokens.at.from(start),
                };
                tokens.made(made.into_tree(self.grammar.alloc))
            }
            Keyword::Typeof => self.query(tokens),
            Keyword::Import => self.import_type(tokens),
            Keyword::Asserts if sees_assertion(tokens) => {
                tokens.at.advance();
                self.predicate(tokens, start, true)
            }
            _ => self.reference(tokens),
        }
    }

    /// `intrinsic` where it is all that an alias stands for, or a type.
    pub fn aliased(&self, tokens: &mut Tokens<'_>) -> Tree
        requires { Nests self.now.grammar.depth (F.pre self.now.grammar.parse) }
    {
        if tokens.at.is_word(Keyword::Intrinsic) && !tokens.at.second().is(TokenKind::Dot) {
            return keyword_type(self.grammar.alloc, tokens, Form::TsIntrinsicKeyword);
        }
        self.grammar.again(tokens, Rule::Type)
    }

    // Type arguments in the line of what they stand behind, or nothing.
    fn args_in_line(&self, tokens: &mut Tokens<'_>) -> Tree
        requires { Nests self.now.grammar.depth (F.pre self.now.grammar.parse) }
    {
        if tokens.at.newline() {
            Tree::Absent
        } else {
            self.type_args(tokens)
        }
    }

    // `, { with: { .. } }` after the path of an import as a type, which no form holds. A comma may end it.
    fn pass_attributes(&self, tokens: &mut Tokens<'_>)
        requires { Nests self.now.grammar.depth (F.pre self.now.grammar.parse) }
    {
        if tokens.at.eat(TokenKind::Comma) {
            if !tokens.at.is(TokenKind::LBrace) {
                let _ = tokens.refuse();
            }
            let _ = self.grammar.again(tokens, Rule::Assigned);
            let _ = tokens.at.eat(TokenKind::Comma);
        }
    }

    // `import("a").b<c>`
    fn import_type(&self, tokens: &mut Tokens<'_>) -> Tree
        requires { Nests self.now.grammar.depth (F.pre self.now.grammar.parse) }
    {
        let start = tokens.at.start();
        tokens.at.advance();
        tokens.expect(TokenKind::LParen);
        let arg = string(self.grammar.alloc, tokens);
        self.pass_attributes(tokens);
        tokens.expect(TokenKind::RParen);
        let qualifier = if tokens.at.eat(TokenKind::Dot) {
            entity(self.grammar.alloc, tokens)
        } else {
            Tree::Absent
        };
        let made = TsImportType {
            arg,
            qualifier,
            type_args: self.args_in_line(tokens),
            span: tokens.at.from(start),
        };
        tokens.made(made.into_tree(self.grammar.alloc))
    }

    // `typeof a.b<c>` or `typeof import("a")`
    fn query(&self, tokens: &mut Tokens<'_>) -> Tree
        requires { Nests self.now.grammar.depth (F.pre self.now.grammar.parse) }
    {
        let start = tokens.at.start();
        tokens.at.advance();
        let is_import = tokens.at.is_word(Keyword::Import);
        let expr_name = if is_import {
            self.import_type(tokens)
        } else {
            entity(self.grammar.alloc, tokens)
        };
        // After `typeof a` a `<<` shifts.
        let type_args = if is_import || tokens.at.is(TokenKind::LeftShift) {
            Tree::Absent
        } else {
            self.args_in_line(tokens)
        };
        let made = TsTypeQuery {
            span: tokens.at.from(start),
            expr_name,
            type_args,
        };
        tokens.made(made.into_tree(self.grammar.alloc))
    }

    fn reference(&self, tokens: &mut Tokens<'_>) -> Tree
        requires { Nests self.now.grammar.depth (F.pre self.now.grammar.parse) }
    {
        let start = tokens.at.start();
        let made = TsTypeRef {
            type_name: entity(self.grammar.alloc, tokens),
            type_params: self.args_in_line(tokens),
            span: tokens.at.from(start),
        };
        tokens.made(made.into_tree(self.grammar.alloc))
    }
}
