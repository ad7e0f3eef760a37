//! Mapped types.
ghost use Rattle.fast_check_source_grammar.specs.Nests.{Nests};

use crate::types::Types;
use fast_check_source_grammar::{Rule, Tokens, word_ident};
use fast_check_source_lexer::{Keyword, TokenKind};
use fast_check_tree_forms_types::{TsMappedType, TsTypeParam};
use fast_check_tree_syntax::{Atom, Tree};
use std::alloc::Global;

// The sign before `readonly` or `?`, as swc writes it.
fn sign(tokens: &mut Tokens<'_>) -> &'static str {
    if tokens.at.eat(TokenKind::Plus) {
        "+"
    } else if tokens.at.eat(TokenKind::Minus) {
        "-"
    } else {
        "true"
    }
}

fn mark(alloc: Global, tokens: &mut Tokens<'_>, sign: &str, holds: bool) -> Tree {
    if !holds {
        return Tree::Absent;
    }
    match tokens.text(Atom::from_str(alloc, sign)) {
        Some(sign) => Tree::Text(sign),
        None => Tree::Absent,
    }
}

impl<F: Fn(Global, &mut Tokens<'_>, usize, Rule) -> Tree> Types<F> {
    /// `{ readonly [A in B as C]?: D }`
    pub fn mapped(&self, tokens: &mut Tokens<'_>) -> Tree
        requires { Nests self.now.grammar.depth (F.pre self.now.grammar.parse) }
    {
        let start = tokens.at.start();
        tokens.at.advance();
        let written = sign(tokens);
        let is_readonly = tokens.at.eat_word(Keyword::Readonly);
        let readonly = mark(self.grammar.alloc, tokens, written, is_readonly);
        tokens.expect(TokenKind::LBracket);
        let type_param = self.mapped_param(tokens);
        let name_type = if tokens.at.eat_word(Keyword::As) {
            self.grammar.again(tokens, Rule::Type)
        } else {
            Tree::Absent
        };
        tokens.expect(TokenKind::RBracket);
        let written = sign(tokens);
        let is_optional = tokens.at.eat(TokenKind::Question);
        let optional = mark(self.grammar.alloc, tokens, written, is_optional);
        let type_ann = if tokens.at.eat(TokenKind::Colon) {
            self.grammar.again(tokens, Rule::Type)
        } else {
            Tree::Absent
        };
        let _ = tokens.at.eat(TokenKind::Semicolon) || tokens.at.eat(TokenKind::Comma);
        tokens.expect(TokenKind::RBrace);
        let made = TsMappedType {
            span: tokens.at.from(start),
            readonly,
            type_param,
            name_type,
            optional,
            type_ann,
        };
        tokens.made(made.into_tree(self.grammar.alloc))
    }

    // `A in B`
    fn mapped_param(&self, tokens: &mut Tokens<'_>) -> Tree
        requires { Nests self.now.grammar.depth (F.pre self.now.grammar.parse) }
    {
        let start = tokens.at.start();
        let name = word_ident(self.grammar.alloc, tokens);
        tokens.expect_word(Keyword::In);
        let made = TsTypeParam {
            name,
            is_in: false,
            is_out: false,
            is_const: false,
            constraint: self.grammar.again(tokens, Rule::Type),
            default: Tree::Absent,
            span: tokens.at.from(start),
        };
        tokens.made(made.into_tree(self.grammar.alloc))
    }
}
