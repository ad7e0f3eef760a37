//! Imports.
use fast_check_source_grammar::{
    Cursor, Tokens, Trees, entity, ident, ident_name, string, word_ident,
};
use fast_check_source_lexer::{Keyword, TokenKind};
use fast_check_tree_forms_expressions::{KeyValueProp, ObjectLit};
use fast_check_tree_forms_programs::{
    ImportDecl, ImportDefaultSpecifier, ImportNamedSpecifier, ImportStarAsSpecifier,
    TsExternalModuleRef, TsImportEqualsDecl,
};
use fast_check_tree_syntax::{Atom, Items, SourcePos, Tree};
use std::alloc::Global;

/// A name by which a module exports: a word or a string.
pub fn export_name(alloc: Global, tokens: &mut Tokens<'_>) -> Tree {
    if tokens.at.is(TokenKind::String) {
        string(alloc, tokens)
    } else {
        word_ident(alloc, tokens)
    }
}

/// Whether a `type` that comes next in the braces of an import or an export stands before a name, and is none.
pub fn is_type_only(at: Cursor<'_>) -> bool {
    if !at.is_word(Keyword::Type) {
        return false;
    }
    let second = at.second();
    if !second.is(TokenKind::Name) {
        return second.is(TokenKind::String);
    }
    let third = second.second();
    if !second.is_word(Keyword::As) {
        true
    } else if third.is_word(Keyword::As) {
        third.second().is(TokenKind::Name)
    } else {
        !third.is(TokenKind::Name) && !third.is(TokenKind::String)
    }
}

// Whether `type` or `defer` behind `import` stands before what is imported.
fn is_before_clause(at: Cursor<'_>) -> bool {
    let next = at.second();
    match next.kind() {
        TokenKind::LBrace | TokenKind::Star => true,
        TokenKind::Name => {
            !next.is_word(Keyword::From)
                || next.second().is_word(Keyword::From)
                || next.second().is(TokenKind::Assign)
        }
        _ => false,
    }
}

fn attribute_key(alloc: Global, tokens: &mut Tokens<'_>) -> Tree {
    if tokens.at.is(TokenKind::String) {
        string(alloc, tokens)
    } else {
        ident_name(alloc, tokens)
    }
}

/// `with { a: "b" }`, or nothing.
pub fn attributes(alloc: Global, tokens: &mut Tokens<'_>) -> Tree {
    let asserts = tokens.at.is_word(Keyword::Assert) && !tokens.at.newline();
    if !asserts && !tokens.at.is_word(Keyword::With) {
        return Tree::Absent;
    }
    tokens.at.advance();
    let start = tokens.at.start();
    tokens.expect(TokenKind::LBrace);
    let mut props = Trees::new(alloc);
    for _turn in 0..tokens.at.left() {
        if tokens.at.is(TokenKind::RBrace) {
            break;
        }
        let key = attribute_key(alloc, tokens);
        tokens.expect(TokenKind::Colon);
        let value = string(alloc, tokens);
        props.push(tokens.made(KeyValueProp { key, value }.into_tree(alloc)));
        if !tokens.at.eat(TokenKind::Comma) {
            break;
        }
    }
    tokens.expect(TokenKind::RBrace);
    let span = tokens.at.from(start);
    let props = tokens.list(props);
    tokens.made(ObjectLit { span, props }.into_tree(alloc))
}

// `a`, `a as b` or `type a` in the braces of an import.
fn named(alloc: Global, tokens: &mut Tokens<'_>) -> Tree {
    let start = tokens.at.start();
    let is_type_only = is_type_only(tokens.at);
    if is_type_only {
        tokens.at.advance();
    }
    let is_renamed = tokens.at.second().is_word(Keyword::As);
    let imported = if is_renamed {
        export_name(alloc, tokens)
    } else {
        Tree::Absent
    };
    if is_renamed {
        tokens.at.advance();
    }
    let local = ident(alloc, tokens);
    let made = ImportNamedSpecifier {
        span: tokens.at.from(start),
        local,
        imported,
        is_type_only,
    };
    tokens.made(made.into_tree(alloc))
}

// `* as a`
fn star(alloc: Global, tokens: &mut Tokens<'_>) -> Tree {
    let start = tokens.at.start();
    tokens.at.advance();
    tokens.expect_word(Keyword::As);
    let local = ident(alloc, tokens);
    let span = tokens.at.from(start);
    tokens.made(ImportStarAsSpecifier { span, local }.into_tree(alloc))
}

fn named_list(alloc: Global, tokens: &mut Tokens<'_>, specifiers: &mut Trees) {
    tokens.at.advance();
    for _turn in 0..tokens.at.left() {
        if tokens.at.is(TokenKind::RBrace) {
            break;
        }
        specifiers.push(named(alloc, tokens));
        if !tokens.at.eat(TokenKind::Comma) {
            break;
        }
    }
    tokens.expect(TokenKind::RBrace)
}

// What stands between `import` and `from`.
fn clause(alloc: Global, tokens: &mut Tokens<'_>) -> Tree {
    let mut specifiers = Trees::new(alloc);
    if tokens.at.is(TokenKind::Name) {
        let span = tokens.at.here();
        let local = ident(alloc, tokens);
        specifiers.push(tokens.made(ImportDefaultSpecifier { span, local }.into_tree(alloc)));
        if !tokens.at.eat(TokenKind::Comma) {
            return tokens.list(specifiers);
        }
    }
    match tokens.at.kind() {
        TokenKind::Star => specifiers.push(star(alloc, tokens)),
        TokenKind::LBrace => named_list(alloc, tokens, &mut specifiers),
        _ => return tokens.refuse(),
    }
    tokens.list(specifiers)
}

// `require("a")` or `a.b` behind `import c =`.
fn module_ref(alloc: Global, tokens: &mut Tokens<'_>) -> Tree {
    let start = tokens.at.start();
    if !tokens.at.is_word(Keyword::Require) || !tokens.at.second().is(TokenKind::LParen) {
        return entity(alloc, tokens);
    }
    tokens.at.advance();
    tokens.at.advance();
    let expr = string(alloc, tokens);
    tokens.expect(TokenKind::RParen);
    let span = tokens.at.from(start);
    tokens.made(TsExternalModuleRef { span, expr }.into_tree(alloc))
}

/// `a = b.c` behind `import` or `import type`.
pub fn import_equals(
    alloc: Global,
    tokens: &mut Tokens<'_>,
    start: SourcePos,
    is_export: bool,
    is_type_only: bool,
) -> Tree {
    let id = ident(alloc, tokens);
    tokens.expect(TokenKind::Assign);
    let module_ref = module_ref(alloc, tokens);
    tokens.end_statement();
    let made = TsImportEqualsDecl {
        span: tokens.at.from(start),
        is_export,
        is_type_only,
        id,
        module_ref,
    };
    tokens.made(made.into_tree(alloc))
}

/// Passes `type` behind `import`, if it stands before what is imported.
pub fn eat_type(tokens: &mut Tokens<'_>) -> bool {
    let found = tokens.at.is_word(Keyword::Type) && is_before_clause(tokens.at);
    if found {
        tokens.at.advance();
    }
    found
}

/// An import.
pub fn import(alloc: Global, tokens: &mut Tokens<'_>) -> Tree {
    let start = tokens.at.start();
    tokens.at.advance();
    let type_only = eat_type(tokens);
    if tokens.at.is(TokenKind::Name) && tokens.at.second().is(TokenKind::Assign) {
        return import_equals(alloc, tokens, start, false, type_only);
    }
    let is_deferred = !type_only
        && tokens.at.inside(0, 0) == "defer"
        && is_before_clause(tokens.at);
    if is_deferred {
        tokens.at.advance();
    }
    let specifiers = if tokens.at.is(TokenKind::String) {
        Tree::list(Items::new(alloc))
    } else {
        let found = clause(alloc, tokens);
        tokens.expect_word(Keyword::From);
        found
    };
    let src = string(alloc, tokens);
    let with = attributes(alloc, tokens);
    tokens.end_statement();
    let phase = if is_deferred { "defer" } else { "evaluation" };
    let Some(phase) = tokens.text(Atom::from_str(alloc, phase)) else {
        return Tree::Absent;
    };
    let made = ImportDecl {
        span: tokens.at.from(start),
        specifiers,
        src,
        type_only,
        with,
        phase,
    };
    tokens.made(made.into_tree(alloc))
}
