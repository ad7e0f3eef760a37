//! What comes next, where one token does not say it.
use fast_check_source_grammar::{Cursor, is_reserved};
use fast_check_source_lexer::{Keyword, TokenKind};

/// How tight a binary operator binds, or 0 where none comes next.
pub fn binds(at: Cursor<'_>) -> u8 {
    match at.kind() {
        TokenKind::Nullish => 1,
        TokenKind::OrOr => 2,
        TokenKind::AndAnd => 3,
        TokenKind::Or => 4,
        TokenKind::Caret => 5,
        TokenKind::And => 6,
        TokenKind::Equals | TokenKind::NotEquals | TokenKind::Same | TokenKind::NotSame => 7,
        TokenKind::Less | TokenKind::LessEquals | TokenKind::Greater | TokenKind::GreaterEquals =>
            8,
        TokenKind::Name => match at.word() {
            Keyword::Instanceof | Keyword::In => 8,
            Keyword::As | Keyword::Satisfies if !at.newline() => 8,
            _ => 0,
        },
        TokenKind::LeftShift | TokenKind::RightShift | TokenKind::UnsignedShift => 9,
        TokenKind::Plus | TokenKind::Minus => 10,
        TokenKind::Star | TokenKind::Slash | TokenKind::Percent => 11,
        TokenKind::Power => 12,
        _ => 0,
    }
}

fn word_starts(word: Keyword) -> bool {
    !is_reserved(word)
        || matches!(
            word,
            Keyword::This
                | Keyword::Super
                | Keyword::Null
                | Keyword::True
                | Keyword::False
                | Keyword::Function
                | Keyword::Class
                | Keyword::New
                | Keyword::Delete
                | Keyword::Typeof
                | Keyword::Void
                | Keyword::Import
        )
}

/// Whether an expression may begin here.
pub fn starts_value(at: Cursor<'_>) -> bool {
    match at.kind() {
        TokenKind::Name => word_starts(at.word()),
        TokenKind::PrivateName
        | TokenKind::Number
        | TokenKind::BigInt
        | TokenKind::String
        | TokenKind::Template
        | TokenKind::TemplateHead
        | TokenKind::LParen
        | TokenKind::LBracket
        | TokenKind::LBrace
        | TokenKind::Slash
        | TokenKind::SlashAssign
        | TokenKind::Plus
        | TokenKind::Minus
        | TokenKind::Tilde
        | TokenKind::Not
        | TokenKind::Increment
        | TokenKind::Decrement
        | TokenKind::Less
        | TokenKind::At => true,
        _ => false,
    }
}

/// Whether what comes next may stand behind type arguments of a value.
pub fn follows_args(at: Cursor<'_>) -> bool {
    match at.kind() {
        TokenKind::LParen | TokenKind::Template | TokenKind::TemplateHead => true,
        TokenKind::Less | TokenKind::Greater | TokenKind::Plus | TokenKind::Minus => false,
        _ => at.newline() || binds(at) > 0 || !starts_value(at),
    }
}

/// Whether a key stands behind a word, so that the word is no key itself.
pub fn leads(at: Cursor<'_>) -> bool {
    matches!(
        at.kind(),
        TokenKind::Name
            | TokenKind::PrivateName
            | TokenKind::String
            | TokenKind::Number
            | TokenKind::BigInt
            | TokenKind::LBracket
            | TokenKind::Star
    )
}
