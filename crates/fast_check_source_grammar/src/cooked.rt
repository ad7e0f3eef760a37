//! What names, strings and templates with escapes mean.
use fast_check_tree_syntax::Atom;
use std::alloc::{AllocError, Global};

// An escape that was read: the character that it means, if any, and the place behind it.
#[derive(Clone, Copy)]
struct Escape {
    meaning: Option<char>,
    end: usize,
}

fn byte(z: &[u8], at: usize) -> u8 {
    match z.get(at) {
        Some(byte) => *byte,
        None => 0,
    }
}

fn hex_digit(b: u8) -> Option<u32> {
    match b {
        b'0'..=b'9' => Some((b as u32) & 15),
        b'a'..=b'f' | b'A'..=b'F' => Some(((b as u32) & 7) + 9),
        _ => None,
    }
}

// The number of so many hexadecimal digits.
fn hex(z: &[u8], at: usize, count: usize) -> Option<u32> {
    let mut value: u32 = 0;
    for k in 0..count {
        let digit = hex_digit(byte(z, at.saturating_add(k)))?;
        value = value.saturating_mul(16).saturating_add(digit);
    }
    Some(value)
}

// The number in `{..}`, and the place behind it.
fn braced(z: &[u8], at: usize) -> Option<(u32, usize)> {
    let mut value: u32 = 0;
    let mut end = at.saturating_add(1);
    for _turn in 0..z.len() {
        let b = byte(z, end);
        if b == b'}' && end > at.saturating_add(1) {
            return Some((value, end.saturating_add(1)));
        }
        value = value.saturating_mul(16).saturating_add(hex_digit(b)?);
        end = end.saturating_add(1);
    }
    None
}

// The second half of a pair of escapes that mean one character, if it stands here.
fn low_half(z: &[u8], at: usize) -> Option<u32> {
    if byte(z, at) != b'\\' || byte(z, at.saturating_add(1)) != b'u' {
        return None;
    }
    let low = hex(z, at.saturating_add(2), 4)?;
    if 0xDC00 <= low && low < 0xE000 {
        Some(low)
    } else {
        None
    }
}

// `\uXXXX`, `\u{X..}` or a pair of the first, from behind the `u` on.
fn unicode(z: &[u8], at: usize) -> Option<Escape> {
    if byte(z, at) == b'{' {
        let (value, end) = braced(z, at)?;
        return Some(Escape {
            meaning: Some(char::from_u32(value)?),
            end,
        });
    }
    let value = hex(z, at, 4)?;
    let end = at.saturating_add(4);
    if 0xD800 <= value && value < 0xDC00 {
        let low = low_half(z, end)?;
        let whole = 0x10000 + ((value & 0x3FF) << 10) + (low & 0x3FF);
        return Some(Escape {
            meaning: Some(char::from_u32(whole)?),
            end: end.saturating_add(6),
        });
    }
    Some(Escape {
        meaning: Some(char::from_u32(value)?),
        end,
    })
}

fn plain(b: u8) -> Option<char> {
    match b {
        b'n' => Some('\n'),
        b't' => Some('\t'),
        b'r' => Some('\r'),
        b'b' => Some('\u{8}'),
        b'v' => Some('\u{B}'),
        b'f' => Some('\u{C}'),
        b'0' => Some('\u{0}'),
        _ => None,
    }
}

// What stands behind a backslash. A line's end there means nothing.
fn read_escape(z: &[u8], at: usize) -> Option<Escape> {
    let b = byte(z, at);
    let next = at.saturating_add(1);
    if let Some(meaning) = plain(b) {
        return Some(Escape {
            meaning: Some(meaning),
            end: next,
        });
    }
    match b {
        b'u' => unicode(z, next),
        b'x' => Some(Escape {
            meaning: Some(char::from_u32(hex(z, next, 2)?)?),
            end: at.saturating_add(3),
        }),
        b'\r' if byte(z, next) == b'\n' => Some(Escape {
            meaning: None,
            end: at.saturating_add(2),
        }),
        b'\r' | b'\n' => Some(Escape {
            meaning: None,
            end: next,
        }),
        _ => Some(Escape {
            meaning: None,
            end: at,
        }),
    }
}

fn is_mark(b: u8) -> bool {
    b == b'\\' || b == b'\r'
}

// The place of the next byte from a place on that does not mean itself.
fn next_mark(z: &[u8], at: usize) -> usize {
    let mut end = at;
    for _turn in 0..z.len() {
        if end >= z.len() || is_mark(byte(z, end)) {
            break;
        }
        end = end.saturating_add(1);
    }
    end
}

fn push_text(out: &mut String, text: &str, start: usize, end: usize) -> Result<(), AllocError> {
    if let Some(piece) = text.get(start..end) {
        out.push_str(piece)?;
    }
    Ok(())
}

// The length of a character that is escaped and means nothing else: U+2028 and U+2029 end a line, and all others mean themselves.
fn passed(z: &[u8], at: usize) -> usize {
    let ends_line = byte(z, at) == 226
        && byte(z, at.saturating_add(1)) == 128
        && (byte(z, at.saturating_add(2)) & 254) == 168;
    if ends_line { 3 } else { 0 }
}

/// Whether each byte of a text means itself.
pub fn means_itself(text: &str) -> bool {
    next_mark(text.as_bytes(), 0) >= text.len()
}

/// What a text between quotes or marks means, or nothing where an escape in it is wrong or means half a character. A line's end is read as a line feed.
pub fn cooked(alloc: Global, text: &str) -> Result<Option<Atom>, AllocError> {
    let z = text.as_bytes();
    let mut at = next_mark(z, 0);
    if at >= z.len() {
        return Ok(Some(Atom::from_str(alloc, text)?));
    }
    let mut out = String::new(alloc);
    push_text(&mut out, text, 0, at)?;
    for _turn in 0..z.len() {
        if at >= z.len() {
            break;
        }
        let next = at.saturating_add(1);
        let mut start = next;
        if byte(z, at) == b'\r' {
            out.push('\n')?;
            if byte(z, next) == b'\n' {
                start = next.saturating_add(1);
            }
        } else {
            let Some(found) = read_escape(z, next) else {
                return Ok(None);
            };
            if let Some(meaning) = found.meaning {
                out.push(meaning)?;
            }
            start = found.end;
            if start == next {
                start = next.saturating_add(passed(z, next));
            }
        }
        // An escaped backslash means itself.
        let search = if start == next && byte(z, at) == b'\\' {
            next.saturating_add(1)
        } else {
            start
        };
        at = next_mark(z, search);
        push_text(&mut out, text, start, at)?;
    }
    Ok(Some(Atom::from_str(alloc, out.as_str())?))
}
