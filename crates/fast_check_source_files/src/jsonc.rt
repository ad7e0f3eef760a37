//! JSON with comments and commas that end a list.
use serde_json::Value;
use std::alloc::{AllocError, Global};

fn byte(z: &[u8], at: usize) -> u8 {
    match z.get(at) {
        Some(byte) => *byte,
        None => 0,
    }
}

// The place behind a text in quotes that begins at a place.
fn past_text(z: &[u8], at: usize) -> usize {
    let mut end = at.saturating_add(1);
    for _turn in 0..z.len() {
        match byte(z, end) {
            b'"' => return end.saturating_add(1),
            b'\\' => end = end.saturating_add(2),
            _ => end = end.saturating_add(1),
        }
        if end >= z.len() {
            break;
        }
    }
    z.len()
}

// Where a line ends.
fn past_line(z: &[u8], at: usize) -> usize {
    for end in at..z.len() {
        if byte(z, end) == 10 {
            return end;
        }
    }
    z.len()
}

// The place behind the `*/` that comes next.
fn past_block(z: &[u8], at: usize) -> usize {
    for end in at..z.len() {
        if byte(z, end) == b'*' && byte(z, end.saturating_add(1)) == b'/' {
            return end.saturating_add(2).min(z.len());
        }
    }
    z.len()
}

// The place behind the bytes that go on with a character.
fn past_character(z: &[u8], at: usize) -> usize {
    for end in at.saturating_add(1)..z.len() {
        if (byte(z, end) & 192) != 128 {
            return end;
        }
    }
    z.len()
}

// The place behind white space and comments.
fn past_gap(z: &[u8], at: usize) -> usize {
    let mut end = at;
    for _turn in 0..z.len() {
        match (byte(z, end), byte(z, end.saturating_add(1))) {
            (9 | 10 | 13 | 32, _) => end = end.saturating_add(1),
            (b'/', b'/') => end = past_line(z, end),
            (b'/', b'*') => end = past_block(z, end.saturating_add(2)),
            _ => break,
        }
    }
    end
}

// The same as plain JSON.
fn plain_json(alloc: Global, text: &str) -> Result<String, AllocError> {
    let z = text.as_bytes();
    let mut made = String::new(alloc);
    let mut at = past_gap(z, 0);
    for _turn in 0..z.len() {
        if at >= z.len() {
            break;
        }
        let end = if byte(z, at) == b'"' {
            past_text(z, at)
        } else {
            past_character(z, at)
        };
        let next = past_gap(z, end);
        let ends = byte(z, at) == b',' && matches!(byte(z, next), b']' | b'}');
        if !ends && let Some(piece) = text.get(at..end) {
            made.push_str(piece)?;
            if next > end {
                made.push_str(" ")?;
            }
        }
        at = next;
    }
    Ok(made)
}

/// The value of a text of JSON with comments, if it is one.
pub fn value_of(alloc: Global, text: &str) -> Result<Option<Value>, AllocError> {
    let json = plain_json(alloc, text)?;
    match Value::from_str(alloc, json.as_str()) {
        Ok(value) => Ok(Some(value)),
        Err(error) if error.is_memory() => Err(AllocError),
        Err(_) => Ok(None),
    }
}
