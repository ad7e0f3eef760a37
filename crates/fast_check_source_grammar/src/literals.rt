//! Literals.
use crate::cooked::cooked;
use crate::cursor::Cursor;
use crate::names::word_ident;
use crate::tokens::Tokens;
use fast_check_source_lexer::{Keyword, TokenKind};
use fast_check_tree_forms_expressions::TplElement;
use fast_check_tree_forms_programs::{BigInt, Bool, Number, Regex, Str};
use fast_check_tree_syntax::{Atom, SourcePos, SourceRange, Tree};
use std::alloc::{AllocError, Global};

// A string, if its escapes are right.
fn string_at(alloc: Global, at: Cursor<'_>) -> Result<Option<Tree>, AllocError> {
    let Some(value) = cooked(alloc, at.inside(1, 1))? else {
        return Ok(None);
    };
    let span = at.here();
    let raw = Tree::Text(at.written(alloc)?);
    Ok(Some(Str { span, value, raw }.into_tree(alloc)?))
}

/// `"a"`
pub fn string(alloc: Global, tokens: &mut Tokens<'_>) -> Tree {
    if !tokens.at.is(TokenKind::String) {
        return tokens.refuse();
    }
    match string_at(alloc, tokens.at) {
        Ok(Some(made)) => {
            tokens.at.advance();
            made
        }
        Ok(None) => tokens.refuse(),
        Err(why) => tokens.made(Err(why)),
    }
}

// `1` or `1n`, which begins at a place and ends before the next token.
fn number_from(
    alloc: Global,
    kind: TokenKind,
    at: Cursor<'_>,
    start: SourcePos,
) -> Result<Tree, AllocError> {
    let span = at.from(start);
    let raw = Atom::from_str(alloc, at.text_from(start))?;
    if kind == TokenKind::BigInt {
        BigInt { span, raw }.into_tree(alloc)
    } else {
        Number { span, raw }.into_tree(alloc)
    }
}

// The same with what stands before it, from a place on.
fn digits(alloc: Global, tokens: &mut Tokens<'_>, start: SourcePos) -> Tree {
    let kind = tokens.at.kind();
    if kind != TokenKind::Number && kind != TokenKind::BigInt {
        return tokens.refuse();
    }
    tokens.at.advance();
    tokens.made(number_from(alloc, kind, tokens.at, start))
}

/// `1` or `1n`
pub fn number(alloc: Global, tokens: &mut Tokens<'_>) -> Tree {
    let start = tokens.at.start();
    digits(alloc, tokens, start)
}

/// A number with a sign or without one.
pub fn signed_number(alloc: Global, tokens: &mut Tokens<'_>) -> Tree {
    let start = tokens.at.start();
    let _ = tokens.at.eat(TokenKind::Minus);
    digits(alloc, tokens, start)
}

/// `true` or `false`, whichever comes next.
pub fn bool_literal(alloc: Global, tokens: &mut Tokens<'_>) -> Tree {
    let span = tokens.at.here();
    let value = tokens.at.is_word(Keyword::True);
    tokens.at.advance();
    tokens.made(Bool { span, value }.into_tree(alloc))
}

fn regex_at(alloc: Global, at: Cursor<'_>) -> Result<Tree, AllocError> {
    let text = at.inside(0, 0);
    let end = match text.rfind("/") {
        Some(end) => end,
        None => 0,
    };
    let exp = Atom::from_str(alloc, at.inside(1, text.len().saturating_sub(end)))?;
    let flags = Atom::from_str(alloc, at.inside(end.saturating_add(1), 0))?;
    let span = at.here();
    Regex { span, exp, flags }.into_tree(alloc)
}

/// A regular expression that a `/` begins.
pub fn regex(alloc: Global, tokens: &mut Tokens<'_>) -> Tree {
    tokens.at.rescan_regex();
    if !tokens.at.is(TokenKind::Regex) {
        return tokens.refuse();
    }
    let made = regex_at(alloc, tokens.at);
    tokens.at.advance();
    tokens.made(made)
}

/// A key that is a word, a string or a number, as an expression.
pub fn literal_key(alloc: Global, tokens: &mut Tokens<'_>) -> Tree {
    match tokens.at.kind() {
        TokenKind::Name => word_ident(alloc, tokens),
        TokenKind::String => string(alloc, tokens),
        _ => number(alloc, tokens),
    }
}

// A text whose lines end with a line feed.
fn with_line_feeds(alloc: Global, text: &str) -> Result<Atom, AllocError> {
    if text.find("\r").is_none() {
        return Atom::from_str(alloc, text);
    }
    let mut out = String::new(alloc);
    let mut after = false;
    for c in text.chars() {
        if c == '\r' || !(after && c == '\n') {
            out.push(if c == '\r' { '\n' } else { c })?;
        }
        after = c == '\r';
    }
    Atom::from_str(alloc, out.as_str())
}

// The next token as a text of a template, without its delimiters.
fn quasi_at(alloc: Global, at: Cursor<'_>) -> Result<Tree, AllocError> {
    let tail = matches!(at.kind(), TokenKind::Template | TokenKind::TemplateTail);
    let last: usize = if tail { 1 } else { 2 };
    let text = at.inside(1, last);
    let here = at.here();
    let span = SourceRange {
        start: SourcePos(here.start.0.saturating_add(1)),
        end: SourcePos(here.end.0.saturating_sub(last as u32)),
    };
    let cooked = match cooked(alloc, text)? {
        Some(text) => Tree::Text(text),
        None => Tree::Absent,
    };
    let made = TplElement {
        span,
        tail,
        cooked,
        raw: with_line_feeds(alloc, text)?,
    };
    made.into_tree(alloc)
}

/// The next token as a text of a template, without its delimiters. It is passed.
pub fn quasi(alloc: Global, tokens: &mut Tokens<'_>) -> Tree {
    let made = quasi_at(alloc, tokens.at);
    tokens.at.advance();
    tokens.made(made)
}
