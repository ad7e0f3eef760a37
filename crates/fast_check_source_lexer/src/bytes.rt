//! Classes of bytes, and characters of several bytes.
ghost use Rattle.std.specs.Prelude.{◌≡◌, ◌≢◌, ◌<◌, ◌≤◌, ◌+◌, ◌^◌, length, slice_index, IfSome};

pub(crate) const NAME_START: u8 = 1;

pub(crate) const NAME: u8 = 2;

pub(crate) const DIGIT: u8 = 4;

pub(crate) const HEX: u8 = 8;

pub(crate) const BLANK: u8 = 16;

pub(crate) const LINE: u8 = 32;

pub(crate) const STRING: u8 = 64;

pub(crate) const TEMPLATE: u8 = 128;

// The classes of each byte, as a sum of the constants above.
static CLASSES: [u8; 256] = [
    224, 224, 224, 224, 224, 224, 224, 224, 224, 240, 128, 240, 240, 128, 224, 224, 224, 224, 224,
    224, 224, 224, 224, 224, 224, 224, 224, 224, 224, 224, 224, 224, 240, 224, 160, 224, 99, 224,
    224, 160, 224, 224, 224, 224, 224, 224, 224, 224, 238, 238, 238, 238, 238, 238, 238, 238, 238,
    238, 224, 224, 224, 224, 224, 224, 224, 235, 235, 235, 235, 235, 235, 227, 227, 227, 227, 227,
    227, 227, 227, 227, 227, 227, 227, 227, 227, 227, 227, 227, 227, 227, 227, 224, 32, 224, 224,
    239, 96, 235, 235, 235, 235, 235, 235, 227, 227, 227, 227, 227, 227, 227, 227, 227, 227, 227,
    227, 227, 227, 227, 227, 227, 227, 227, 227, 224, 224, 224, 224, 224, 224, 224, 224, 224, 224,
    224, 224, 224, 224, 224, 224, 224, 224, 224, 224, 224, 224, 224, 224, 224, 224, 224, 224, 224,
    224, 224, 224, 224, 224, 224, 224, 224, 224, 224, 224, 224, 224, 224, 224, 224, 224, 224, 224,
    224, 224, 224, 224, 224, 224, 224, 224, 224, 224, 224, 224, 224, 224, 224, 224, 224, 224, 224,
    224, 224, 224, 224, 224, 224, 224, 224, 224, 224, 224, 224, 224, 224, 224, 224, 224, 224, 224,
    224, 224, 224, 224, 224, 224, 224, 224, 224, 224, 224, 224, 224, 224, 224, 224, 224, 192, 224,
    224, 224, 224, 224, 224, 224, 224, 224, 224, 224, 224, 224, 224, 224, 224, 224, 224, 224, 224,
    224, 224, 224, 224, 224, 224, 224, 224, 224,
];

pub(crate) fn is_in(class: u8, b: u8) -> bool {
    CLASSES[b as usize] & class != 0
}

// The byte at a place, or 0 past the end.
pub(crate) fn byte(z: &[u8], at: usize) -> u8
    ensures value { result ≡ slice_index z.now at }
    ensures within { result ≢ 0 → at < length z.now }
{
    if at < z.len() { z[at] } else { 0 }
}

// The place where the bytes of a class end.
pub(crate) fn past(class: u8, z: &[u8], at: usize) -> usize
    requires { at ≤ length z.now }
    ensures within { (at ≤ result) × (result ≤ length z.now) }
{
    let mut end = at;
    while end < z.len() && is_in(class, z[end]) {
        end += 1;
    }
    end
}

fn low(z: &[u8], at: usize) -> u32
    ensures { result < 64 }
{
    (byte(z, at) & 63) as u32
}

fn char_of(code: u32) -> char {
    match char::from_u32(code) {
        Some(c) => c,
        None => '\u{FFFD}',
    }
}

// The character at a place, and how many bytes it takes.
pub(crate) fn decode(z: &[u8], at: usize) -> (char, usize)
    requires within { at < length z.now }
    requires fits { length z.now < 2 ^ 32 }
    ensures { (1 ≤ result.1) × (at + result.1 ≤ length z.now) }
{
    let b = z[at];
    let left = z.len() - at;
    if b < 0x80 || left < 2 {
        (b as char, 1)
    } else if b < 0xE0 || left < 3 {
        (char_of(((b & 31) as u32) * 64 + low(z, at + 1)), 2)
    } else if b < 0xF0 || left < 4 {
        (
            char_of(((b & 15) as u32) * 4096 + low(z, at + 1) * 64 + low(z, at + 2)),
            3,
        )
    } else {
        (
            char_of(
                ((b & 7) as u32) * 262144
                    + low(z, at + 1) * 4096
                    + low(z, at + 2) * 64
                    + low(z, at + 3),
            ),
            4,
        )
    }
}

// Characters of ID_Start that XID_Start lacks. All of them are in ID_Continue.
fn is_compatibility_start(c: char) -> bool {
    matches!(
        c,
        '\u{37A}' | '\u{E33}' | '\u{EB3}' | '\u{309B}' | '\u{309C}' | '\u{FC5E}'..='\u{FC63}'
            | '\u{FDFA}'
            | '\u{FDFB}'
            | '\u{FE70}'
            | '\u{FE72}'
            | '\u{FE74}'
            | '\u{FE76}'
            | '\u{FE78}'
            | '\u{FE7A}'
            | '\u{FE7C}'
            | '\u{FE7E}'
            | '\u{FF9E}'
            | '\u{FF9F}'
    )
}

// ECMAScript's IdentifierStartChar.
fn starts(c: char) -> bool {
    c == '$' || c == '_' || unicode_ident::is_xid_start(c) || is_compatibility_start(c)
}

// ECMAScript's IdentifierPartChar.
fn goes_on(c: char) -> bool {
    c == '$'
        || c == '\u{200C}'
        || c == '\u{200D}'
        || unicode_ident::is_xid_continue(c)
        || is_compatibility_start(c)
}

// The place past an escape `\uXXXX` or `\u{X..}`, or `at` where none stands there.
fn past_escape(z: &[u8], at: usize) -> usize
    requires within { at ≤ length z.now }
    requires fits { length z.now < 2 ^ 32 }
    ensures within { (at ≤ result) × (result ≤ length z.now) }
{
    if byte(z, at) != b'\\' || byte(z, at + 1) != b'u' {
        return at;
    }
    if byte(z, at + 2) == b'{' {
        let end = past(HEX, z, at + 3);
        if byte(z, end) == b'}' { end + 1 } else { at }
    } else {
        let end = past(HEX, z, at + 2);
        if end - at < 6 { at } else { at + 6 }
    }
}

// The place past one character of a name that is no ASCII letter, or `at` where none stands there.
fn past_wide(first: bool, z: &[u8], at: usize) -> usize
    requires within { at ≤ length z.now }
    requires fits { length z.now < 2 ^ 32 }
    ensures within { (at ≤ result) × (result ≤ length z.now) }
{
    let b = byte(z, at);
    if b == b'\\' {
        return past_escape(z, at);
    }
    if b < 128 {
        return at;
    }
    let (c, len) = decode(z, at);
    let holds = if first { starts(c) } else { goes_on(c) };
    if holds { at + len } else { at }
}

// The place where a name ends, from behind its first character on.
pub(crate) fn past_rest(z: &[u8], at: usize) -> usize
    requires within { at ≤ length z.now }
    requires fits { length z.now < 2 ^ 32 }
    ensures within { (at ≤ result) × (result ≤ length z.now) }
{
    let mut end = past(NAME, z, at);
    while byte(z, end) >= 128 || byte(z, end) == b'\\' {
        let next = past(NAME, z, past_wide(false, z, end));
        if next == end {
            break;
        }
        end = next;
    }
    end
}

// The place where a name ends that begins here, or `at` where none does.
pub(crate) fn past_name(z: &[u8], at: usize) -> usize
    requires within { at ≤ length z.now }
    requires fits { length z.now < 2 ^ 32 }
    ensures within { (at ≤ result) × (result ≤ length z.now) }
{
    if is_in(NAME_START, byte(z, at)) {
        return past_rest(z, at);
    }
    let next = past_wide(true, z, at);
    if next == at { at } else { past_rest(z, next) }
}
