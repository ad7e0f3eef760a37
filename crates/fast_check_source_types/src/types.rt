//! Types by their operators.
ghost use Rattle.fast_check_source_grammar.specs.Nests.{Nests};

use crate::look_ahead::sees_function;
use fast_check_source_grammar::{Grammar, Note, Rule, Tokens, Trees, Within, ident};
use fast_check_source_lexer::{Keyword, TokenKind};
use fast_check_tree_forms_types::{
    TsArrayType, TsConditionalType, TsConstructorType, TsFnType, TsIndexedAccessType, TsInferType,
    TsIntersectionType, TsTypeOperator, TsTypeParam, TsUnionType,
};
use fast_check_tree_syntax::{SourcePos, Tree, Word as Form};
use std::alloc::Global;

/// The rules of types.
#[derive(Clone, Copy)]
pub struct Types<F> {
    pub grammar: Grammar<F>,
}

fn operator(word: Keyword) -> Option<Form> {
    match word {
        Keyword::Keyof => Some(Form::KeyOf),
        Keyword::Unique => Some(Form::Unique),
        Keyword::Readonly => Some(Form::ReadOnly),
        _ => None,
    }
}

// Says whether a conditional type may stand here, and answers whether one could.
pub(crate) fn set_plain(tokens: &mut Tokens<'_>, plain: bool) -> bool {
    let within = tokens.at.within();
    let outer = within.plain_type;
    let _ = tokens.at.enter(Within {
        plain_type: plain,
        ..within
    });
    outer
}

impl<F: Fn(Global, &mut Tokens<'_>, usize, Rule) -> Tree> Types<F> {
    /// A type.
    pub fn any_type(&self, tokens: &mut Tokens<'_>) -> Tree
        requires { Nests self.now.grammar.depth (F.pre self.now.grammar.parse) }
    {
        if sees_function(tokens) {
            return self.function_type(tokens);
        }
        let start = tokens.at.start();
        let check_type = self.union(tokens);
        if tokens.at.within().plain_type
            || tokens.at.newline()
            || !tokens.at.eat_word(Keyword::Extends)
        {
            return check_type;
        }
        self.conditional(tokens, start, check_type)
    }

    // `A extends B ? C : D`, from behind `extends` on.
    fn conditional(&self, tokens: &mut Tokens<'_>, start: SourcePos, check_type: Tree) -> Tree
        requires { Nests self.now.grammar.depth (F.pre self.now.grammar.parse) }
    {
        let outer = set_plain(tokens, true);
        let extends_type = self.grammar.again(tokens, Rule::Type);
        let _ = set_plain(tokens, false);
        tokens.expect(TokenKind::Question);
        let true_type = self.grammar.again(tokens, Rule::Type);
        tokens.expect(TokenKind::Colon);
        let false_type = self.grammar.again(tokens, Rule::Type);
        let _ = set_plain(tokens, outer);
        let made = TsConditionalType {
            span: tokens.at.from(start),
            check_type,
            extends_type,
            true_type,
            false_type,
        };
        tokens.made(made.into_tree(self.grammar.alloc))
    }

    // `(a: A) => B` or `new (a: A) => B`
    fn function_type(&self, tokens: &mut Tokens<'_>) -> Tree
        requires { Nests self.now.grammar.depth (F.pre self.now.grammar.parse) }
    {
        let start = tokens.at.start();
        let is_abstract = tokens.at.eat_word(Keyword::Abstract);
        let is_new = tokens.at.eat_word(Keyword::New);
        let type_params = self.type_params(tokens);
        let params = self.signature_params(tokens);
        let at = tokens.at.start();
        tokens.expect(TokenKind::Arrow);
        let type_ann = self.result_from(tokens, at);
        let span = tokens.at.from(start);
        let made = if is_new {
            TsConstructorType {
                span,
                params,
                type_params,
                type_ann,
                is_abstract,
            }
            .into_tree(self.grammar.alloc)
        } else {
            TsFnType {
                span,
                params,
                type_params,
                type_ann,
                is_abstract,
            }
            .into_tree(self.grammar.alloc)
        };
        tokens.made(made)
    }

    fn union(&self, tokens: &mut Tokens<'_>) -> Tree
        requires { Nests self.now.grammar.depth (F.pre self.now.grammar.parse) }
    {
        let start = tokens.at.start();
        let _ = tokens.at.eat(TokenKind::Or);
        let first = self.intersection(tokens);
        if !tokens.at.is(TokenKind::Or) {
            return first;
        }
        let mut types = Trees::new(self.grammar.alloc);
        types.push(first);
        for _turn in 0..tokens.at.left() {
            if !tokens.at.eat(TokenKind::Or) {
                break;
            }
            types.push(self.intersection(tokens));
        }
        let made = TsUnionType {
            span: tokens.at.from(start),
            types: tokens.list(types),
        };
        tokens.made(made.into_tree(self.grammar.alloc))
    }

    fn intersection(&self, tokens: &mut Tokens<'_>) -> Tree
        requires { Nests self.now.grammar.depth (F.pre self.now.grammar.parse) }
    {
        let start = tokens.at.start();
        let _ = tokens.at.eat(TokenKind::And);
        let first = self.operated(tokens);
        if !tokens.at.is(TokenKind::And) {
            return first;
        }
        let mut types = Trees::new(self.grammar.alloc);
        types.push(first);
        for _turn in 0..tokens.at.left() {
            if !tokens.at.eat(TokenKind::And) {
                break;
            }
            types.push(self.operated(tokens));
        }
        let made = TsIntersectionType {
            span: tokens.at.from(start),
            types: tokens.list(types),
        };
        tokens.made(made.into_tree(self.grammar.alloc))
    }

    /// `keyof A`, `infer A`, or a type with brackets behind it.
    pub fn operated(&self, tokens: &mut Tokens<'_>) -> Tree
        requires { Nests self.now.grammar.depth (F.pre self.now.grammar.parse) }
    {
        let start = tokens.at.start();
        if let Some(form) = operator(tokens.at.word()) {
            tokens.at.advance();
            let made = TsTypeOperator {
                op: Tree::Word(form),
                type_ann: self.grammar.again(tokens, Rule::Operated),
                span: tokens.at.from(start),
            };
            return tokens.made(made.into_tree(self.grammar.alloc));
        }
        if tokens.at.is_word(Keyword::Infer) {
            return self.inferred(tokens);
        }
        let outer = set_plain(tokens, false);
        let made = self.postfix(tokens);
        let _ = set_plain(tokens, outer);
        made
    }

    // `infer A` or `infer A extends B`
    fn inferred(&self, tokens: &mut Tokens<'_>) -> Tree
        requires { Nests self.now.grammar.depth (F.pre self.now.grammar.parse) }
    {
        let start = tokens.at.start();
        tokens.at.advance();
        let at = tokens.at.start();
        let name = ident(self.grammar.alloc, tokens);
        let constraint = self.inferred_constraint(tokens);
        let param = TsTypeParam {
            span: tokens.at.from(at),
            name,
            is_in: false,
            is_out: false,
            is_const: false,
            constraint,
            default: Tree::Absent,
        };
        let made = TsInferType {
            type_param: tokens.made(param.into_tree(self.grammar.alloc)),
            span: tokens.at.from(start),
        };
        tokens.made(made.into_tree(self.grammar.alloc))
    }

    // `extends B` behind `infer A`, unless a `?` behind it makes it a part of a conditional type.
    fn inferred_constraint(&self, tokens: &mut Tokens<'_>) -> Tree
        requires { Nests self.now.grammar.depth (F.pre self.now.grammar.parse) }
    {
        let saved = tokens.save();
        if tokens.is_noted(Note::NoConstraint) || !tokens.at.eat_word(Keyword::Extends) {
            return Tree::Absent;
        }
        let outer = set_plain(tokens, true);
        let constraint = self.grammar.again(tokens, Rule::Type);
        let _ = set_plain(tokens, outer);
        if !tokens.is_stopped() && (outer || !tokens.at.is(TokenKind::Question)) {
            return constraint;
        }
        tokens.note(Note::NoConstraint, saved.at.place());
        tokens.go_back(saved);
        Tree::Absent
    }

    // `A[]`, `A[B]`
    fn postfix(&self, tokens: &mut Tokens<'_>) -> Tree
        requires { Nests self.now.grammar.depth (F.pre self.now.grammar.parse) }
    {
        let start = tokens.at.start();
        let mut found = self.primary(tokens);
        for _turn in 0..tokens.at.left() {
            if tokens.at.newline() || !tokens.at.eat(TokenKind::LBracket) {
                break;
            }
            tokens.link();
            found = self.bracketed(tokens, start, found);
        }
        found
    }

    fn bracketed(&self, tokens: &mut Tokens<'_>, start: SourcePos, found: Tree) -> Tree
        requires { Nests self.now.grammar.depth (F.pre self.now.grammar.parse) }
    {
        if tokens.at.eat(TokenKind::RBracket) {
            let made = TsArrayType {
                span: tokens.at.from(start),
                elem_type: found,
            };
            return tokens.made(made.into_tree(self.grammar.alloc));
        }
        let index_type = self.grammar.again(tokens, Rule::Type);
        tokens.expect(TokenKind::RBracket);
        let made = TsIndexedAccessType {
            span: tokens.at.from(start),
            readonly: false,
            obj_type: found,
            index_type,
        };
        tokens.made(made.into_tree(self.grammar.alloc))
    }
}
