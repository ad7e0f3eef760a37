//! What comes next, where one token does not say it.
use fast_check_source_grammar::{Cursor, is_reserved};
use fast_check_source_lexer::{Keyword, TokenKind};

/// Whether a token assigns to what stands before it.
pub fn assigns(kind: TokenKind) -> bool {
    matches!(
        kind,
        TokenKind::Assign
            | TokenKind::PlusAssign
            | TokenKind::MinusAssign
            | TokenKind::StarAssign
            | TokenKind::PowerAssign
            | TokenKind::SlashAssign
            | TokenKind::PercentAssign
            | TokenKind::LeftShiftAssign
            | TokenKind::RightShiftAssign
            | TokenKind::UnsignedShiftAssign
            | TokenKind::AndAssign
            | TokenKind::OrAssign
            | TokenKind::CaretAssign
            | TokenKind::AndAndAssign
            | TokenKind::OrOrAssign
            | TokenKind::NullishAssign
    )
}

/// Whether a name, a word or a literal follows in the same line.
pub fn is_operand_in_line(at: Cursor<'_>) -> bool {
    !at.newline()
        && matches!(
            at.kind(),
            TokenKind::Name | TokenKind::Number | TokenKind::BigInt | TokenKind::String
        )
}

/// Whether an arrow function begins here.
#[derive(Clone, Copy, PartialEq, Eq)]
pub enum Arrow {
    Yes,
    /// It has to be tried.
    Perhaps,
    No,
}

fn behind_name(at: Cursor<'_>) -> Arrow {
    match at.kind() {
        TokenKind::Colon => Arrow::Yes,
        TokenKind::Question => match at.second().kind() {
            TokenKind::Colon | TokenKind::Comma | TokenKind::Assign | TokenKind::RParen =>
                Arrow::Yes,
            _ => Arrow::No,
        },
        TokenKind::Comma | TokenKind::Assign | TokenKind::RParen => Arrow::Perhaps,
        _ => Arrow::No,
    }
}

fn behind_paren(at: Cursor<'_>) -> Arrow {
    match at.kind() {
        TokenKind::RParen => match at.second().kind() {
            TokenKind::Arrow | TokenKind::Colon => Arrow::Yes,
            _ => Arrow::No,
        },
        TokenKind::LBracket | TokenKind::LBrace => Arrow::Perhaps,
        TokenKind::Dots => Arrow::Yes,
        TokenKind::Name if !is_reserved(at.word()) || at.is_word(Keyword::This) => behind_name(
            at.second(),
        ),
        _ => Arrow::No,
    }
}

// Behind a `<` in a file that may hold JSX.
fn behind_less_of_jsx(at: Cursor<'_>) -> Arrow {
    let mut ahead = at;
    let _ = ahead.eat_word(Keyword::Const);
    ahead.advance();
    let holds = match ahead.kind() {
        TokenKind::Comma | TokenKind::Assign => true,
        _ => {
            ahead.is_word(Keyword::Extends)
                && !matches!(
                    ahead.second().kind(),
                    TokenKind::Assign | TokenKind::Greater | TokenKind::Slash
                )
        }
    };
    if holds { Arrow::Yes } else { Arrow::No }
}

fn behind_less(at: Cursor<'_>) -> Arrow {
    if !at.is(TokenKind::Name) {
        Arrow::No
    } else if at.within().jsx {
        behind_less_of_jsx(at)
    } else if !is_reserved(at.word()) || at.is_word(Keyword::Const) {
        Arrow::Perhaps
    } else {
        Arrow::No
    }
}

/// Whether the `(` or `<` that comes next begins an arrow function.
pub fn arrow_at(at: Cursor<'_>) -> Arrow {
    match at.kind() {
        TokenKind::LParen => behind_paren(at.second()),
        TokenKind::Less => behind_less(at.second()),
        _ => Arrow::No,
    }
}
