//! What comes next, where one token does not say it.
use fast_check_source_grammar::{Cursor, Tokens, is_reserved};
use fast_check_source_lexer::{Keyword, TokenKind};

// The place past brackets that are open, for a look ahead. The last bits of `templates` say of the innermost 64 which ones are a `${`.
fn past_brackets<'a>(tokens: Cursor<'a>) -> Cursor<'a> {
    let mut ahead = tokens;
    let mut depth: usize = 0;
    let mut templates: u64 = 0;
    for _turn in 0..tokens.left() {
        if ahead.is(TokenKind::RBrace) && templates & 1 == 1 {
            ahead.rescan_template();
        }
        match ahead.kind() {
            TokenKind::LBrace | TokenKind::LBracket | TokenKind::LParen => {
                depth = depth.saturating_add(1);
                templates = templates << 1;
            }
            TokenKind::TemplateHead => {
                depth = depth.saturating_add(1);
                templates = templates << 1 | 1;
            }
            TokenKind::RBrace | TokenKind::RBracket | TokenKind::RParen | TokenKind::TemplateTail =>
                {
                    depth = depth.saturating_sub(1);
                    templates = templates >> 1;
                }
            TokenKind::End => break,
            _ => {}
        }
        ahead.advance();
        if depth == 0 {
            break;
        }
    }
    ahead
}

// Passes a key of an object pattern and its `:`, if both stand here. `[a: A]` is an index signature, and `keyof A` no value.
fn pass_key(ahead: &mut Cursor<'_>) {
    let after = match ahead.kind() {
        TokenKind::Name | TokenKind::String | TokenKind::Number | TokenKind::BigInt => {
            ahead.second()
        }
        TokenKind::LBracket => {
            let mut inner = ahead.second();
            if inner.eat(TokenKind::Name)
                && (inner.is(TokenKind::Colon)
                    || (inner.eat_word(Keyword::In) && inner.is_word(Keyword::Keyof)))
            {
                return;
            }
            past_brackets(*ahead)
        }
        _ => return,
    };
    if after.is(TokenKind::Colon) {
        *ahead = after.second();
    }
}

// The place past brackets that are open, if they hold a pattern. Behind the first default value all is taken to be one: no type has a `=` there. The last bits
// of `lists` say of the innermost 64 brackets which ones are a `[`.
fn past_pattern<'a>(tokens: Cursor<'a>) -> Option<Cursor<'a>> {
    let mut ahead = tokens.second();
    let mut lists = u64::from(tokens.is(TokenKind::LBracket));
    let mut depth: usize = 1;
    let mut is_behind = false;
    for _turn in 0..tokens.left() {
        match ahead.kind() {
            TokenKind::RBrace | TokenKind::RBracket => {
                depth = depth.saturating_sub(1);
                lists = lists >> 1;
                is_behind = true;
                ahead.advance();
                if depth == 0 {
                    return Some(ahead);
                }
            }
            TokenKind::Comma => {
                is_behind = false;
                ahead.advance();
            }
            TokenKind::Assign => return Some(past_brackets(tokens)),
            _ if is_behind => break,
            TokenKind::Dots => ahead.advance(),
            _ => {
                if lists & 1 == 0 {
                    pass_key(&mut ahead);
                }
                match ahead.kind() {
                    TokenKind::LBrace | TokenKind::LBracket => {
                        depth = depth.saturating_add(1);
                        lists = lists << 1 | u64::from(ahead.is(TokenKind::LBracket));
                    }
                    TokenKind::Name if !is_reserved(ahead.word()) => is_behind = true,
                    _ => break,
                }
                ahead.advance();
            }
        }
    }
    None
}

// Whether a `(` begins the parameters of a function type.
fn opens_function(at: Cursor<'_>) -> bool {
    let ahead = at.second();
    let after = match ahead.kind() {
        TokenKind::RParen | TokenKind::Dots => return true,
        TokenKind::Name if !is_reserved(ahead.word()) || ahead.is_word(Keyword::This) =>
            ahead.second(),
        TokenKind::LBrace | TokenKind::LBracket => match past_pattern(ahead) {
            Some(after) => after,
            None => return false,
        },
        _ => return false,
    };
    match after.kind() {
        TokenKind::Colon | TokenKind::Comma | TokenKind::Question | TokenKind::Assign => true,
        TokenKind::RParen => after.second().is(TokenKind::Arrow),
        _ => false,
    }
}

/// Whether a function type begins here.
pub fn sees_function(tokens: &Tokens<'_>) -> bool {
    match tokens.at.kind() {
        TokenKind::Less => true,
        TokenKind::LParen => opens_function(tokens.at),
        TokenKind::Name => {
            tokens.at.is_word(Keyword::New)
                || (tokens.at.is_word(Keyword::Abstract)
                    && tokens.at.second().is_word(Keyword::New))
        }
        _ => false,
    }
}

/// Whether a label of an element of a tuple stands here: `a:` or `a?:`.
pub fn sees_label(tokens: &Tokens<'_>) -> bool {
    if !tokens.at.is(TokenKind::Name) {
        return false;
    }
    let next = tokens.at.second();
    next.is(TokenKind::Colon)
        || (next.is(TokenKind::Question) && next.second().is(TokenKind::Colon))
}

/// Whether a `{` begins a mapped type.
pub fn sees_mapped(tokens: &Tokens<'_>) -> bool {
    let mut ahead = tokens.at.second();
    if ahead.is(TokenKind::Plus) || ahead.is(TokenKind::Minus) {
        return ahead.second().is_word(Keyword::Readonly);
    }
    let _ = ahead.eat_word(Keyword::Readonly);
    ahead.eat(TokenKind::LBracket) && ahead.eat(TokenKind::Name) && ahead.is_word(Keyword::In)
}

/// Whether `[a:` begins an index signature here.
pub fn sees_index(tokens: &Tokens<'_>) -> bool {
    let mut ahead = tokens.at;
    ahead.eat(TokenKind::LBracket) && ahead.eat(TokenKind::Name) && ahead.is(TokenKind::Colon)
}

/// Whether what stands behind a word makes that word a modifier, and no name itself.
pub fn can_follow_modifier(at: Cursor<'_>) -> bool {
    matches!(
        at.kind(),
        TokenKind::Name
            | TokenKind::PrivateName
            | TokenKind::String
            | TokenKind::Number
            | TokenKind::BigInt
            | TokenKind::LBracket
            | TokenKind::LBrace
            | TokenKind::Star
            | TokenKind::Dots
    )
}

/// Whether `get` or `set` stands here, and a key behind it.
pub fn sees_accessor(at: Cursor<'_>) -> bool {
    (at.is_word(Keyword::Get) || at.is_word(Keyword::Set)) && can_follow_modifier(at.second())
}

/// Whether the next word is followed by `is` in its line.
pub fn is_before_is(tokens: &Tokens<'_>) -> bool {
    let next = tokens.at.second();
    next.is_word(Keyword::Is) && !next.newline()
}

/// Whether `asserts a` or `asserts this` stands here.
pub fn sees_assertion(tokens: &Tokens<'_>) -> bool {
    if !tokens.at.is_word(Keyword::Asserts) {
        return false;
    }
    let next = tokens.at.second();
    next.is(TokenKind::Name)
        && !next.newline()
        && (!is_reserved(next.word()) || next.is_word(Keyword::This))
}
