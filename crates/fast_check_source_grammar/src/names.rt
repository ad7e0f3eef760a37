//! Names.
use crate::tokens::Tokens;
use fast_check_source_lexer::{Keyword, TokenKind};
use fast_check_tree_forms_programs::{BindingIdent, Ident, IdentName, PrivateName};
use fast_check_tree_forms_types::TsQualifiedName;
use fast_check_tree_syntax::{Atom, SyntaxContext, Tree};
use std::alloc::Global;

/// Words that name nothing.
pub fn is_reserved(word: Keyword) -> bool {
    matches!(
        word,
        Keyword::Break
            | Keyword::Case
            | Keyword::Catch
            | Keyword::Class
            | Keyword::Const
            | Keyword::Continue
            | Keyword::Debugger
            | Keyword::Default
            | Keyword::Delete
            | Keyword::Do
            | Keyword::Else
            | Keyword::Enum
            | Keyword::Export
            | Keyword::Extends
            | Keyword::False
            | Keyword::Finally
            | Keyword::For
            | Keyword::Function
            | Keyword::If
            | Keyword::Import
            | Keyword::In
            | Keyword::Instanceof
            | Keyword::New
            | Keyword::Null
            | Keyword::Return
            | Keyword::Super
            | Keyword::Switch
            | Keyword::This
            | Keyword::Throw
            | Keyword::True
            | Keyword::Try
            | Keyword::Typeof
            | Keyword::Var
            | Keyword::Void
            | Keyword::While
            | Keyword::With
    )
}

/// Whether a name that is no reserved word comes next. `await` is reserved where it is an operator.
pub fn sees_ident(tokens: &Tokens<'_>) -> bool {
    let word = tokens.at.word();
    let waits = word == Keyword::Await && tokens.at.within().is_async;
    tokens.at.is(TokenKind::Name) && !is_reserved(word) && !waits
}

/// A name that is no reserved word, as an identifier.
pub fn ident(alloc: Global, tokens: &mut Tokens<'_>) -> Tree {
    if sees_ident(tokens) {
        tokens.note_name();
        word_ident(alloc, tokens)
    } else {
        tokens.refuse()
    }
}

/// The name that the next token is, which is passed, if it is a word.
pub fn word(alloc: Global, tokens: &mut Tokens<'_>) -> Option<Atom> {
    if !tokens.at.is(TokenKind::Name) {
        let _ = tokens.refuse();
        return None;
    }
    let sym = tokens.name(alloc, 0)?;
    tokens.at.advance();
    Some(sym)
}

/// Any word as an identifier.
pub fn word_ident(alloc: Global, tokens: &mut Tokens<'_>) -> Tree {
    let span = tokens.at.here();
    let Some(sym) = word(alloc, tokens) else {
        return Tree::Absent;
    };
    let made = Ident {
        span,
        ctxt: SyntaxContext(0),
        sym,
        optional: false,
    };
    tokens.made(made.into_tree(alloc))
}

/// Any word as a name that is not resolved.
pub fn ident_name(alloc: Global, tokens: &mut Tokens<'_>) -> Tree {
    let span = tokens.at.here();
    let Some(sym) = word(alloc, tokens) else {
        return Tree::Absent;
    };
    tokens.made(IdentName { span, sym }.into_tree(alloc))
}

/// `#a`
pub fn private_name(alloc: Global, tokens: &mut Tokens<'_>) -> Tree {
    if !tokens.at.is(TokenKind::PrivateName) {
        return tokens.refuse();
    }
    let span = tokens.at.here();
    let Some(name) = tokens.name(alloc, 1) else {
        return Tree::Absent;
    };
    tokens.at.advance();
    tokens.made(PrivateName { span, name }.into_tree(alloc))
}

/// A name as a pattern.
pub fn binding(alloc: Global, tokens: &mut Tokens<'_>) -> Tree {
    let made = BindingIdent {
        id: ident(alloc, tokens),
        type_ann: Tree::Absent,
    };
    tokens.made(made.into_tree(alloc))
}

/// `a.b.c`
pub fn entity(alloc: Global, tokens: &mut Tokens<'_>) -> Tree {
    let start = tokens.at.start();
    let mut left = word_ident(alloc, tokens);
    for _turn in 0..tokens.at.left() {
        if !tokens.at.eat(TokenKind::Dot) {
            break;
        }
        tokens.link();
        let right = ident_name(alloc, tokens);
        let made = TsQualifiedName {
            span: tokens.at.from(start),
            left,
            right,
        };
        left = tokens.made(made.into_tree(alloc));
    }
    left
}
