//! Namespaces and ambient modules.
ghost use Rattle.fast_check_source_grammar.specs.Nests.{Nests};

use crate::statements::{Opening, Statements};
use fast_check_source_grammar::{ParseError, Rule, Tokens, ident, string, word_ident};
use fast_check_source_lexer::{Keyword, TokenKind};
use fast_check_tree_forms_statements::{TsModuleBlock, TsModuleDecl, TsNamespaceDecl};
use fast_check_tree_syntax::{SourcePos, Tree};
use std::alloc::Global;

// One of the names behind the first one, and where it begins.
#[derive(Drop)]
struct Inner {
    start: SourcePos,
    id: Tree,
}

impl<F: Fn(Global, &mut Tokens<'_>, usize, Rule) -> Tree> Statements<F> {
    fn module_block(&self, tokens: &mut Tokens<'_>) -> Tree
        requires { Nests self.now.expressions.values.types.grammar.depth (F.pre self.now.expressions.values.types.grammar.parse) }
    {
        let start = tokens.at.start();
        tokens.expect(TokenKind::LBrace);
        let body = self.up_to_brace(tokens, Rule::Item);
        let span = tokens.at.from(start);
        tokens.made(TsModuleBlock { span, body }.into_tree(self.alloc()))
    }

    // `.b.c { .. }`, `{ .. }`, or nothing where that may be, behind the name of a namespace.
    fn namespace_body(&self, tokens: &mut Tokens<'_>, may_end: bool) -> Tree
        requires { Nests self.now.expressions.values.types.grammar.depth (F.pre self.now.expressions.values.types.grammar.parse) }
    {
        let alloc = self.alloc();
        let mut names: Vec<Inner> = Vec::new(alloc);
        for _turn in 0..tokens.at.left() {
            if !tokens.at.eat(TokenKind::Dot) {
                break;
            }
            tokens.link();
            let start = tokens.at.start();
            let id = word_ident(alloc, tokens);
            if names.push(Inner { start, id }).is_err() {
                tokens.stop(ParseError::Memory);
            }
        }
        if may_end && names.is_empty() && !tokens.at.is(TokenKind::LBrace) {
            tokens.end_statement();
            return Tree::Absent;
        }
        let mut body = self.module_block(tokens);
        for _turn in 0..names.len() {
            if let Some(Inner { start, id }) = names.pop() {
                let made = TsNamespaceDecl {
                    span: tokens.at.from(start),
                    declare: false,
                    global: false,
                    id,
                    body,
                };
                body = tokens.made(made.into_tree(alloc));
            }
        }
        body
    }

    /// `namespace A.B {}`, `module "a" {}` or `global {}`
    pub fn namespace(&self, tokens: &mut Tokens<'_>, opening: Opening) -> Tree
        requires { Nests self.now.expressions.values.types.grammar.depth (F.pre self.now.expressions.values.types.grammar.parse) }
    {
        let alloc = self.alloc();
        let global = tokens.at.is_word(Keyword::Global);
        let namespace = tokens.at.is_word(Keyword::Namespace);
        if !global {
            tokens.at.advance();
        }
        let may_end = global || tokens.at.is(TokenKind::String);
        let id = if tokens.at.is(TokenKind::String) {
            string(alloc, tokens)
        } else {
            ident(alloc, tokens)
        };
        let made = TsModuleDecl {
            declare: opening.declare,
            global,
            namespace,
            id,
            body: self.namespace_body(tokens, may_end),
            span: tokens.at.from(opening.start),
        };
        tokens.made(made.into_tree(alloc))
    }
}
