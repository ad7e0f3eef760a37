//! Exports of names that are declared elsewhere.
use crate::imports::{attributes, export_name, is_type_only};
use fast_check_source_grammar::{Tokens, Trees, string};
use fast_check_source_lexer::{Keyword, TokenKind};
use fast_check_tree_forms_programs::{
    ExportAll, ExportNamedSpecifier, ExportNamespaceSpecifier, NamedExport,
};
use fast_check_tree_syntax::{Items, SourcePos, Tree};
use std::alloc::Global;

// `a`, `a as b` or `type a` in the braces of an export.
fn named(alloc: Global, tokens: &mut Tokens<'_>) -> Tree {
    let start = tokens.at.start();
    let is_type_only = is_type_only(tokens.at);
    if is_type_only {
        tokens.at.advance();
    }
    let orig = export_name(alloc, tokens);
    let exported = if tokens.at.eat_word(Keyword::As) {
        export_name(alloc, tokens)
    } else {
        Tree::Absent
    };
    let made = ExportNamedSpecifier {
        span: tokens.at.from(start),
        orig,
        exported,
        is_type_only,
    };
    tokens.made(made.into_tree(alloc))
}

// `from "a"`, or nothing.
fn source(alloc: Global, tokens: &mut Tokens<'_>) -> Tree {
    if tokens.at.eat_word(Keyword::From) {
        string(alloc, tokens)
    } else {
        Tree::Absent
    }
}

// What is behind the names of an export: its source, its attributes and its end.
fn named_export(
    alloc: Global,
    tokens: &mut Tokens<'_>,
    start: SourcePos,
    type_only: bool,
    specifiers: Trees,
) -> Tree {
    let src = source(alloc, tokens);
    let with = if matches!(&src, Tree::Absent) {
        Tree::Absent
    } else {
        attributes(alloc, tokens)
    };
    tokens.end_statement();
    let made = NamedExport {
        span: tokens.at.from(start),
        specifiers: tokens.list(specifiers),
        src,
        type_only,
        with,
    };
    tokens.made(made.into_tree(alloc))
}

/// `{ a, b as c }` behind `export`.
pub fn export_names(
    alloc: Global,
    tokens: &mut Tokens<'_>,
    start: SourcePos,
    type_only: bool,
) -> Tree {
    tokens.at.advance();
    let mut specifiers = Trees::new(alloc);
    for _turn in 0..tokens.at.left() {
        if tokens.at.is(TokenKind::RBrace) {
            break;
        }
        specifiers.push(named(alloc, tokens));
        if !tokens.at.eat(TokenKind::Comma) {
            break;
        }
    }
    tokens.expect(TokenKind::RBrace);
    named_export(alloc, tokens, start, type_only, specifiers)
}

/// `* from "a"` or `* as b from "a"` behind `export`.
pub fn export_star(
    alloc: Global,
    tokens: &mut Tokens<'_>,
    start: SourcePos,
    type_only: bool,
) -> Tree {
    let at = tokens.at.start();
    tokens.at.advance();
    if tokens.at.eat_word(Keyword::As) {
        let name = export_name(alloc, tokens);
        let span = tokens.at.from(at);
        let mut specifiers = Trees::new(alloc);
        specifiers.push(tokens.made(ExportNamespaceSpecifier { span, name }.into_tree(alloc)));
        if !tokens.at.is_word(Keyword::From) {
            return tokens.refuse();
        }
        return named_export(alloc, tokens, start, type_only, specifiers);
    }
    tokens.expect_word(Keyword::From);
    let src = string(alloc, tokens);
    let with = attributes(alloc, tokens);
    tokens.end_statement();
    let made = ExportAll {
        span: tokens.at.from(start),
        src,
        type_only,
        with,
    };
    tokens.made(made.into_tree(alloc))
}
