//! Where strings, templates, regular expressions and numbers end.
ghost use Rattle.std.specs.Prelude.{◌≡◌, ◌≢◌, ◌<◌, ◌≤◌, ◌+◌, ◌^◌, length, slice_index};

use crate::bytes::{DIGIT, HEX, NAME, STRING, TEMPLATE, byte, past, past_name};
use crate::gaps::is_line_end;
use crate::kind::TokenKind;

// The place past a backslash at `at` and what it escapes.
fn past_escaped(z: &[u8], at: usize) -> usize
    requires within { at < length z.now }
    requires fits { length z.now < 2 ^ 32 }
    ensures within { (at < result) × (result ≤ length z.now) }
{
    let end = if byte(z, at + 1) == b'\r' && byte(z, at + 2) == b'\n' {
        at + 3
    } else {
        at + 2
    };
    end.min(z.len())
}

// The place past a string, from behind its quote on, and whether it is closed.
pub(crate) fn past_string(quote: u8, z: &[u8], at: usize) -> (usize, bool)
    requires within { at ≤ length z.now }
    requires fits { length z.now < 2 ^ 32 }
    ensures within { (at ≤ result.0) × (result.0 ≤ length z.now) }
{
    let mut end = past(STRING, z, at);
    while end < z.len() {
        let b = z[end];
        if b == quote {
            return (end + 1, true);
        }
        if b == b'\n' || b == b'\r' {
            return (end, false);
        }
        let next = if b == b'\\' {
            past_escaped(z, end)
        } else {
            end + 1
        };
        end = past(STRING, z, next);
    }
    (end, false)
}

/// How a part of a template ends.
#[derive(Clone, Copy, PartialEq, Eq)]
pub(crate) enum TemplateEnd {
    Closed,
    Opened,
    Missing,
}

// The place past a part of a template, from behind its first mark on.
pub(crate) fn past_template(z: &[u8], at: usize) -> (usize, TemplateEnd)
    requires within { at ≤ length z.now }
    requires fits { length z.now < 2 ^ 32 }
    ensures within { (at ≤ result.0) × (result.0 ≤ length z.now) }
{
    let mut end = past(TEMPLATE, z, at);
    while end < z.len() {
        let b = z[end];
        if b == b'`' {
            return (end + 1, TemplateEnd::Closed);
        }
        if b == b'$' && byte(z, end + 1) == b'{' {
            return (end + 2, TemplateEnd::Opened);
        }
        let next = if b == b'\\' {
            past_escaped(z, end)
        } else {
            end + 1
        };
        end = past(TEMPLATE, z, next);
    }
    (end, TemplateEnd::Missing)
}

// The place past a regular expression with its flags, from behind its first slash on, and whether it is closed.
pub(crate) fn past_regex(z: &[u8], at: usize) -> (usize, bool)
    requires within { at ≤ length z.now }
    requires fits { length z.now < 2 ^ 32 }
    ensures within { (at ≤ result.0) × (result.0 ≤ length z.now) }
{
    let mut end = at;
    let mut in_class = false;
    while end < z.len() {
        let b = z[end];
        if is_line_end(z, end) {
            return (end, false);
        }
        if b == b'/' && !in_class {
            return (past(NAME, z, end + 1), true);
        }
        if b == b'[' {
            in_class = true;
        } else if b == b']' {
            in_class = false;
        }
        end = if b == b'\\' && !is_line_end(z, end + 1) {
            past_escaped(z, end)
        } else {
            end + 1
        };
    }
    (end, false)
}

fn past_exponent(z: &[u8], at: usize) -> usize
    requires within { at ≤ length z.now }
    requires fits { length z.now < 2 ^ 32 }
    ensures within { (at ≤ result) × (result ≤ length z.now) }
{
    let (e, next) = (byte(z, at), byte(z, at + 1));
    if e != b'e' && e != b'E' {
        return at;
    }
    if next.is_ascii_digit() {
        return past(DIGIT, z, at + 1);
    }
    if (next == b'+' || next == b'-') && byte(z, at + 2).is_ascii_digit() {
        past(DIGIT, z, at + 2)
    } else {
        at
    }
}

fn past_fraction(z: &[u8], at: usize) -> usize
    requires within { at ≤ length z.now }
    requires fits { length z.now < 2 ^ 32 }
    ensures within { (at ≤ result) × (result ≤ length z.now) }
{
    if byte(z, at) == b'.' {
        past(DIGIT, z, at + 1)
    } else {
        at
    }
}

fn past_digits(z: &[u8], at: usize) -> (TokenKind, usize)
    requires within { at < length z.now }
    requires fits { length z.now < 2 ^ 32 }
    ensures within { (at ≤ result.1) × (result.1 ≤ length z.now) }
{
    let x = byte(z, at + 1) | 32;
    if z[at] == b'0' && (x == b'x' || x == b'o' || x == b'b') {
        let end = past(HEX, z, at + 1);
        let end = if end == at + 1 { at + 2 } else { end };
        let end = past(HEX, z, end.min(z.len()));
        return big(z, end);
    }
    let whole = past(DIGIT, z, at);
    if byte(z, whole) == b'n' {
        return big(z, whole);
    }
    (TokenKind::Number, past_exponent(z, past_fraction(z, whole)))
}

fn big(z: &[u8], at: usize) -> (TokenKind, usize)
    requires within { at ≤ length z.now }
    ensures within { (at ≤ result.1) × (result.1 ≤ length z.now) }
{
    if byte(z, at) == b'n' {
        (TokenKind::BigInt, at + 1)
    } else {
        (TokenKind::Number, at)
    }
}

// A number: its kind, and the place where it ends. A name right behind it makes it illegal.
pub(crate) fn number(z: &[u8], at: usize) -> (TokenKind, usize)
    requires within { at < length z.now }
    requires fits { length z.now < 2 ^ 32 }
    ensures within { (at ≤ result.1) × (result.1 ≤ length z.now) }
{
    let (kind, end) = past_digits(z, at);
    let after = past_name(z, end);
    if after == end {
        (kind, end)
    } else {
        (TokenKind::Illegal, after)
    }
}
