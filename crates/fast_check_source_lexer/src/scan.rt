//! Cuts the next token of a text.
ghost use Rattle.std.specs.Prelude.{◌≡◌, ◌≢◌, ◌<◌, ◌≤◌, ◌+◌, ◌^◌, ◌↔◌, length, slice_index, IfSome, IsSome};
ghost use Rattle.fast_check_source_lexer.specs.Next.{IsNext, IsAgain};
ghost use Rattle.fast_check_source_lexer.specs.Jsx.{IsJsxText};

use crate::bytes::{byte, past_name};
use crate::gaps::past_gap;
use crate::jsx::{past_quoted, past_tag_name, past_text};
use crate::kind::TokenKind;
use crate::literals::{TemplateEnd, number, past_regex, past_string, past_template};

/// A token: the bytes from `start` to `end` of the text.
#[derive(Clone, Copy, PartialEq, Eq)]
pub struct Token {
    pub kind: TokenKind,
    /// Whether a line ends between the token before it and this one.
    pub newline: bool,
    pub start: usize,
    pub end: usize,
}

// The kind of a punctuation by its bytes, and how many of them it takes.
fn punctuation(a: u8, b: u8, c: u8) -> (TokenKind, usize)
    ensures { (1 ≤ result.1) × (result.1 ≤ 4) }
{
    let kind = match a {
        b'{' => TokenKind::LBrace,
        b'}' => TokenKind::RBrace,
        b'(' => TokenKind::LParen,
        b')' => TokenKind::RParen,
        b'[' => TokenKind::LBracket,
        b']' => TokenKind::RBracket,
        b';' => TokenKind::Semicolon,
        b',' => TokenKind::Comma,
        b':' => TokenKind::Colon,
        b'>' => TokenKind::Greater,
        b'~' => TokenKind::Tilde,
        b'@' => TokenKind::At,
        b'.' => {
            return if b == b'.' && c == b'.' {
                (TokenKind::Dots, 3)
            } else {
                (TokenKind::Dot, 1)
            };
        }
        _ => return operator(a, b, c),
    };
    (kind, 1)
}

fn operator(a: u8, b: u8, c: u8) -> (TokenKind, usize)
    ensures { (1 ≤ result.1) × (result.1 ≤ 4) }
{
    match a {
        b'=' => equals(b, c),
        b'!' => negation(b, c),
        b'<' => less(b, c),
        b'?' => question(b, c),
        b'+' => sign(
            a,
            b,
            [TokenKind::Plus, TokenKind::PlusAssign, TokenKind::Increment],
        ),
        b'-' => sign(
            a,
            b,
            [
                TokenKind::Minus,
                TokenKind::MinusAssign,
                TokenKind::Decrement,
            ],
        ),
        b'/' => assigned(b, TokenKind::Slash, TokenKind::SlashAssign),
        b'%' => assigned(b, TokenKind::Percent, TokenKind::PercentAssign),
        b'^' => assigned(b, TokenKind::Caret, TokenKind::CaretAssign),
        b'*' => doubled(
            a,
            b,
            c,
            [
                TokenKind::Star,
                TokenKind::StarAssign,
                TokenKind::Power,
                TokenKind::PowerAssign,
            ],
        ),
        b'&' => doubled(
            a,
            b,
            c,
            [
                TokenKind::And,
                TokenKind::AndAssign,
                TokenKind::AndAnd,
                TokenKind::AndAndAssign,
            ],
        ),
        b'|' => doubled(
            a,
            b,
            c,
            [
                TokenKind::Or,
                TokenKind::OrAssign,
                TokenKind::OrOr,
                TokenKind::OrOrAssign,
            ],
        ),
        _ => (TokenKind::Illegal, 1),
    }
}

fn equals(b: u8, c: u8) -> (TokenKind, usize)
    ensures { (1 ≤ result.1) × (result.1 ≤ 4) }
{
    match b {
        b'>' => (TokenKind::Arrow, 2),
        b'=' if c == b'=' => (TokenKind::Same, 3),
        b'=' => (TokenKind::Equals, 2),
        _ => (TokenKind::Assign, 1),
    }
}

fn negation(b: u8, c: u8) -> (TokenKind, usize)
    ensures { (1 ≤ result.1) × (result.1 ≤ 4) }
{
    match b {
        b'=' if c == b'=' => (TokenKind::NotSame, 3),
        b'=' => (TokenKind::NotEquals, 2),
        _ => (TokenKind::Not, 1),
    }
}

fn less(b: u8, c: u8) -> (TokenKind, usize)
    ensures { (1 ≤ result.1) × (result.1 ≤ 4) }
{
    match b {
        b'=' => (TokenKind::LessEquals, 2),
        b'<' if c == b'=' => (TokenKind::LeftShiftAssign, 3),
        b'<' => (TokenKind::LeftShift, 2),
        _ => (TokenKind::Less, 1),
    }
}

fn question(b: u8, c: u8) -> (TokenKind, usize)
    ensures { (1 ≤ result.1) × (result.1 ≤ 4) }
{
    match b {
        b'.' if !c.is_ascii_digit() => (TokenKind::OptionalChain, 2),
        b'?' if c == b'=' => (TokenKind::NullishAssign, 3),
        b'?' => (TokenKind::Nullish, 2),
        _ => (TokenKind::Question, 1),
    }
}

// What the bytes behind a `>` make of it.
fn greater(b: u8, c: u8, d: u8) -> (TokenKind, usize)
    ensures { (1 ≤ result.1) × (result.1 ≤ 4) }
{
    match (b, c, d) {
        (b'>', b'>', b'=') => (TokenKind::UnsignedShiftAssign, 4),
        (b'>', b'>', _) => (TokenKind::UnsignedShift, 3),
        (b'>', b'=', _) => (TokenKind::RightShiftAssign, 3),
        (b'>', _, _) => (TokenKind::RightShift, 2),
        (b'=', _, _) => (TokenKind::GreaterEquals, 2),
        _ => (TokenKind::Greater, 1),
    }
}

fn assigned(b: u8, alone: TokenKind, assign: TokenKind) -> (TokenKind, usize)
    ensures { (1 ≤ result.1) × (result.1 ≤ 4) }
{
    if b == b'=' { (assign, 2) } else { (alone, 1) }
}

fn sign(a: u8, b: u8, kinds: [TokenKind; 3]) -> (TokenKind, usize)
    ensures { (1 ≤ result.1) × (result.1 ≤ 4) }
{
    if b == a {
        (kinds[2], 2)
    } else {
        assigned(b, kinds[0], kinds[1])
    }
}

fn doubled(a: u8, b: u8, c: u8, kinds: [TokenKind; 4]) -> (TokenKind, usize)
    ensures { (1 ≤ result.1) × (result.1 ≤ 4) }
{
    if b != a {
        return assigned(b, kinds[0], kinds[1]);
    }
    if c == b'=' {
        (kinds[3], 3)
    } else {
        (kinds[2], 2)
    }
}

// A kind of a token that is there.
fn some(kind: TokenKind) -> TokenKind
    ensures { result ≢ TokenKind.End }
{
    match kind {
        TokenKind::End => TokenKind::Illegal,
        other => other,
    }
}

// A text that is closed, and one that is not.
fn closed(kind: TokenKind, found: (usize, bool)) -> (TokenKind, usize)
    requires { kind ≢ TokenKind.End }
    ensures end { result.1 ≡ found.0 }
    ensures kind { result.0 ≢ TokenKind.End }
{
    if found.1 {
        (kind, found.0)
    } else {
        (TokenKind::Illegal, found.0)
    }
}

fn template(head: bool, z: &[u8], at: usize) -> (TokenKind, usize)
    requires within { at ≤ length z.now }
    requires fits { length z.now < 2 ^ 32 }
    ensures within { (at ≤ result.1) × (result.1 ≤ length z.now) }
    ensures kind { result.0 ≢ TokenKind.End }
{
    let (end, how) = past_template(z, at);
    let kind = match how {
        TemplateEnd::Closed => {
            if head {
                TokenKind::Template
            } else {
                TokenKind::TemplateTail
            }
        }
        TemplateEnd::Opened => {
            if head {
                TokenKind::TemplateHead
            } else {
                TokenKind::TemplateMiddle
            }
        }
        TemplateEnd::Missing => TokenKind::Illegal,
    };
    (kind, end)
}

// A name, or a private one behind a `#`.
fn name(z: &[u8], at: usize) -> (TokenKind, usize)
    requires within { at < length z.now }
    requires fits { length z.now < 2 ^ 32 }
    ensures within { (at < result.1) × (result.1 ≤ length z.now) }
    ensures kind { result.0 ≢ TokenKind.End }
{
    if byte(z, at) == b'#' {
        let end = past_name(z, at + 1);
        return if end == at + 1 {
            (TokenKind::Hash, end)
        } else {
            (TokenKind::PrivateName, end)
        };
    }
    let end = past_name(z, at);
    if end == at {
        (TokenKind::Illegal, at + 1)
    } else {
        (TokenKind::Name, end)
    }
}

// The kind of the token that begins at a place, and the place where it ends.
fn cut(z: &[u8], at: usize) -> (TokenKind, usize)
    requires within { at < length z.now }
    requires fits { length z.now < 2 ^ 32 }
    ensures within { (at < result.1) × (result.1 ≤ length z.now) }
    ensures kind { result.0 ≢ TokenKind.End }
{
    let (a, b, c) = (z[at], byte(z, at + 1), byte(z, at + 2));
    match a {
        b'a'..=b'z' | b'A'..=b'Z' | b'_' | b'$' | b'\\' | b'#' | 128..=255 => name(z, at),
        b'"' | b'\'' => closed(TokenKind::String, past_string(a, z, at + 1)),
        b'`' => template(true, z, at + 1),
        b'0'..=b'9' => digits(z, at),
        b'.' if b.is_ascii_digit() => digits(z, at),
        // A comment that is never closed: `past_gap` passes all others.
        b'/' if b == b'*' => (TokenKind::Illegal, z.len()),
        _ => {
            let (kind, len) = punctuation(a, b, c);
            (some(kind), (at + len).min(z.len()))
        }
    }
}

fn digits(z: &[u8], at: usize) -> (TokenKind, usize)
    requires within { at < length z.now }
    requires fits { length z.now < 2 ^ 32 }
    ensures within { (at < result.1) × (result.1 ≤ length z.now) }
    ensures kind { result.0 ≢ TokenKind.End }
{
    let (kind, end) = number(z, at);
    (some(kind), end.max(at + 1))
}

// The token behind a place and the gap that begins there.
fn next(z: &[u8], at: usize) -> Token
    requires within { at ≤ length z.now }
    requires fits { length z.now < 2 ^ 32 }
    ensures { IsNext z.now at result }
{
    let gap = past_gap(z, at);
    let start = gap.end;
    let newline = gap.newline;
    if start >= z.len() {
        return Token {
            kind: TokenKind::End,
            newline,
            start,
            end: start,
        };
    }
    let (kind, end) = cut(z, start);
    Token {
        kind,
        newline,
        start,
        end,
    }
}

/// A text of less than 4 GB, for reading.
#[derive(Clone, Copy)]
pub struct Source<'a> {
    pub text: &'a str,
    pub ghost fits: { length text.now + 1 < 2 ^ 32 },
}

impl<'a> Source<'a> {
    /// The source of a text, if it is not too long.
    pub fn new(text: &'a str) -> Option<Source<'a>>
        ensures same { IfSome result (λ source. source.text.now ≡ text.now) }
        ensures short { IsSome result ↔ (length text.now + 1 < 2 ^ 32) }
    {
        if text.len() < 4294967295 {
            Some(Source { text })
        } else {
            None
        }
    }

    pub fn text(self) -> &'a str
        ensures { result.now ≡ self.entry.text.now }
    {
        self.text
    }

    /// The token behind a place and the gap that begins there.
    pub fn scan(self, at: usize) -> Token
        requires { at ≤ length self.text.now }
        ensures { IsNext self.entry.text.now at result }
    {
        next(self.text.as_bytes(), at)
    }

    /// A `}` read again, as what goes on with a template.
    pub fn rescan_template(self, token: Token) -> Token
        requires { token.start < length self.text.now }
        ensures { IsAgain self.entry.text.now token result }
    {
        let (kind, end) = template(false, self.text.as_bytes(), token.start + 1);
        Token { kind, end, ..token }
    }

    /// A `/` or `/=` read again, as a regular expression.
    pub fn rescan_regex(self, token: Token) -> Token
        requires { token.start < length self.text.now }
        ensures { IsAgain self.entry.text.now token result }
    {
        let found = past_regex(self.text.as_bytes(), token.start + 1);
        let (kind, end) = closed(TokenKind::Regex, found);
        Token { kind, end, ..token }
    }

    /// The text between JSX tags from a place on, which may be empty.
    pub fn jsx_text(self, at: usize) -> Token
        requires { at ≤ length self.text.now }
        ensures kind { result.kind ≡ TokenKind.JsxText }
        ensures start { result.start ≡ at }
        ensures text { IsJsxText self.entry.text.now at result.end }
    {
        Token {
            kind: TokenKind::JsxText,
            newline: false,
            start: at,
            end: past_text(self.text.as_bytes(), at),
        }
    }

    /// A quote read again, as what begins a string in a tag of JSX.
    pub fn rescan_jsx_string(self, token: Token) -> Token
        requires { token.start < length self.text.now }
        ensures { IsAgain self.entry.text.now token result }
    {
        let z = self.text.as_bytes();
        let found = past_quoted(byte(z, token.start), z, token.start + 1);
        let (kind, end) = closed(TokenKind::String, found);
        Token { kind, end, ..token }
    }

    /// A token read again, of which its first byte alone is taken: a `<<`, as two `<`.
    pub fn rescan_less(self, token: Token) -> Token
        requires { token.start < length self.text.now }
        ensures again { IsAgain self.entry.text.now token result }
        ensures one { result.end ≡ token.start + 1 }
        ensures kind { result.kind ≡ TokenKind.Less }
    {
        Token {
            kind: TokenKind::Less,
            end: token.start + 1,
            ..token
        }
    }

    /// A name read again, as one in a tag of JSX, where a `-` goes on with it.
    pub fn rescan_jsx_name(self, token: Token) -> Token
        requires { token.start < length self.text.now }
        ensures { IsAgain self.entry.text.now token result }
    {
        let end = past_tag_name(self.text.as_bytes(), token.start);
        let (kind, end) = if end == token.start {
            (TokenKind::Illegal, token.start + 1)
        } else {
            (TokenKind::Name, end)
        };
        Token { kind, end, ..token }
    }

    /// A `>` read again, with all that makes one operator with it.
    pub fn rescan_greater(self, token: Token) -> Token
        requires { token.start < length self.text.now }
        ensures { IsAgain self.entry.text.now token result }
    {
        let z = self.text.as_bytes();
        let at = token.start;
        let (kind, len) = greater(byte(z, at + 1), byte(z, at + 2), byte(z, at + 3));
        Token {
            kind,
            end: (at + len).min(z.len()),
            ..token
        }
    }
}
