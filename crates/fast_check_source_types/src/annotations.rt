//! Annotations, predicates, type parameters and type arguments.
ghost use Rattle.fast_check_source_grammar.specs.Nests.{Nests};

use crate::look_ahead::is_before_is;
use crate::types::{Types, set_plain};
use fast_check_source_grammar::{Note, Rule, Tokens, ident, sees_ident, word_ident};
use fast_check_source_lexer::{Keyword, TokenKind};
use fast_check_tree_forms_types::{
    TsThisType, TsTypeAnn, TsTypeParam, TsTypeParamDecl, TsTypeParamInstantiation, TsTypePredicate,
};
use fast_check_tree_syntax::{SourcePos, Tree};
use std::alloc::Global;

impl<F: Fn(Global, &mut Tokens<'_>, usize, Rule) -> Tree> Types<F> {
    /// `: A`, or nothing.
    pub fn annotation(&self, tokens: &mut Tokens<'_>) -> Tree
        requires { Nests self.now.grammar.depth (F.pre self.now.grammar.parse) }
    {
        let start = tokens.at.start();
        if !tokens.at.eat(TokenKind::Colon) {
            return Tree::Absent;
        }
        let type_ann = self.grammar.again(tokens, Rule::Type);
        let span = tokens.at.from(start);
        tokens.made(TsTypeAnn { span, type_ann }.into_tree(self.grammar.alloc))
    }

    /// `: A` or `: a is A` behind parameters, or nothing.
    pub fn result(&self, tokens: &mut Tokens<'_>) -> Tree
        requires { Nests self.now.grammar.depth (F.pre self.now.grammar.parse) }
    {
        let start = tokens.at.start();
        if !tokens.at.eat(TokenKind::Colon) {
            return Tree::Absent;
        }
        self.result_from(tokens, start)
    }

    /// A type or a predicate behind a mark that begins at a place. A conditional type may stand there, whatever is around it.
    pub fn result_from(&self, tokens: &mut Tokens<'_>, start: SourcePos) -> Tree
        requires { Nests self.now.grammar.depth (F.pre self.now.grammar.parse) }
    {
        let outer = set_plain(tokens, false);
        let type_ann = if sees_ident(tokens) && is_before_is(tokens) {
            let at = tokens.at.start();
            self.predicate(tokens, at, false)
        } else {
            self.grammar.again(tokens, Rule::Type)
        };
        let _ = set_plain(tokens, outer);
        let span = tokens.at.from(start);
        tokens.made(TsTypeAnn { span, type_ann }.into_tree(self.grammar.alloc))
    }

    /// `a is A`, or what stands behind `asserts`.
    pub fn predicate(&self, tokens: &mut Tokens<'_>, start: SourcePos, asserts: bool) -> Tree
        requires { Nests self.now.grammar.depth (F.pre self.now.grammar.parse) }
    {
        let at = tokens.at.start();
        let param_name = if tokens.at.eat_word(Keyword::This) {
            let made = TsThisType {
                span: tokens.at.from(at),
            };
            tokens.made(made.into_tree(self.grammar.alloc))
        } else {
            word_ident(self.grammar.alloc, tokens)
        };
        let type_ann = if tokens.at.eat_word(Keyword::Is) {
            let at = tokens.at.start();
            let type_ann = self.grammar.again(tokens, Rule::Type);
            let span = tokens.at.from(at);
            tokens.made(TsTypeAnn { span, type_ann }.into_tree(self.grammar.alloc))
        } else {
            Tree::Absent
        };
        let made = TsTypePredicate {
            span: tokens.at.from(start),
            asserts,
            param_name,
            type_ann,
        };
        tokens.made(made.into_tree(self.grammar.alloc))
    }

    /// `<A, B>` as arguments, or nothing.
    pub fn type_args(&self, tokens: &mut Tokens<'_>) -> Tree
        requires { Nests self.now.grammar.depth (F.pre self.now.grammar.parse) }
    {
        let start = tokens.at.start();
        let place = tokens.at.place();
        tokens.at.rescan_less();
        if !tokens.at.eat(TokenKind::Less) {
            return Tree::Absent;
        }
        let params = self
            .grammar
            .list(tokens, Rule::Type, TokenKind::Comma, TokenKind::Greater);
        if tokens.is_stopped() {
            tokens.note(Note::NoArgs, place);
        }
        let span = tokens.at.from(start);
        tokens.made(TsTypeParamInstantiation { span, params }.into_tree(self.grammar.alloc))
    }

    /// `<A extends B = C>` as it is declared, or nothing.
    pub fn type_params(&self, tokens: &mut Tokens<'_>) -> Tree
        requires { Nests self.now.grammar.depth (F.pre self.now.grammar.parse) }
    {
        let start = tokens.at.start();
        if !tokens.at.eat(TokenKind::Less) {
            return Tree::Absent;
        }
        let params = self.grammar.list(
            tokens,
            Rule::TypeParam,
            TokenKind::Comma,
            TokenKind::Greater,
        );
        let span = tokens.at.from(start);
        tokens.made(TsTypeParamDecl { span, params }.into_tree(self.grammar.alloc))
    }

    /// `const in out A extends B = C`
    pub fn type_param(&self, tokens: &mut Tokens<'_>) -> Tree
        requires { Nests self.now.grammar.depth (F.pre self.now.grammar.parse) }
    {
        let start = tokens.at.start();
        let is_const = tokens.at.eat_word(Keyword::Const);
        let is_in = tokens.at.eat_word(Keyword::In);
        let next = tokens.at.second();
        let is_out = tokens.at.is_word(Keyword::Out)
            && next.is(TokenKind::Name)
            && !next.is_word(Keyword::Extends);
        if is_out {
            tokens.at.advance();
        }
        let name = ident(self.grammar.alloc, tokens);
        let constraint = if tokens.at.eat_word(Keyword::Extends) {
            self.grammar.again(tokens, Rule::Type)
        } else {
            Tree::Absent
        };
        let default = if tokens.at.eat(TokenKind::Assign) {
            self.grammar.again(tokens, Rule::Type)
        } else {
            Tree::Absent
        };
        let made = TsTypeParam {
            span: tokens.at.from(start),
            name,
            is_in,
            is_out,
            is_const,
            constraint,
            default,
        };
        tokens.made(made.into_tree(self.grammar.alloc))
    }
}
