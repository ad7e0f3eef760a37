//! What stands at a place of a text.
ghost use Rattle.std.specs.Prelude.{◌≡◌, ◌<◌, ◌≤◌, ◌+◌, ◌↔◌, ℕ, length, slice_index, IsTrue, IfSome};
ghost use Rattle.fast_check_syntax_table.specs.Spelled.{Reads, IsLineByte, ReadsLines, IsNamePart, IsEnded, IsApart, IsEscapedPart, IsEscaped, MayEnd};

use fast_check_source_lexer::{Source, TokenKind};

/// Whether these bytes stand at a place.
pub(crate) fn reads(z: &[u8], at: usize, s: &[u8]) -> bool
    ensures { IsTrue result → Reads z.now at s.now }
{
    if at > z.len() || s.len() > z.len() - at {
        return false;
    }
    for k in 0..s.len() {
        if z[at + k] != s[k] {
            return false;
        }
    }
    true
}

// The byte at a place, or 0 past the end.
fn byte(z: &[u8], at: usize) -> u8
    ensures { result ≡ slice_index z.now at }
{
    if at < z.len() { z[at] } else { 0 }
}

fn is_name_part(b: u8) -> bool
    ensures { IsTrue result ↔ IsNamePart b }
{
    matches!(b, b'a'..=b'z' | b'A'..=b'Z' | b'0'..=b'9' | b'_' | b'$' | b'\\' | 128..=255)
}

/// Whether no name goes on at a place.
pub(crate) fn is_ended(source: Source<'_>, at: usize) -> bool
    requires { at ≤ length source.text.now }
    ensures { IsTrue result → IsEnded source.entry.text.now at }
{
    let b = byte(source.text().as_bytes(), at);
    !is_name_part(b) || (b >= 128 && source.scan(at).start > at)
}

/// Whether a name or keyword that ends at a place does not go on there.
pub(crate) fn is_apart(source: Source<'_>, s: &[u8], at: usize) -> bool
    requires { at ≤ length source.text.now }
    ensures { IsTrue result → IsApart source.entry.text.now s.now at }
{
    match s {
        [.., last] => !is_name_part(*last) || is_ended(source, at),
        [] => true,
    }
}

/// Whether a semicolon may be left out at a place.
pub(crate) fn may_end(source: Source<'_>, at: usize) -> bool
    requires { at ≤ length source.text.now }
    ensures { IsTrue result → MayEnd source.entry.text.now at }
{
    let token = source.scan(at);
    token.newline
        || token.kind == TokenKind::End
        || byte(source.text().as_bytes(), token.start) == b'}'
}

// The place after a byte, where a line feed may be written in another way.
fn past_line_byte(z: &[u8], at: usize, c: u8) -> Option<usize>
    requires { at ≤ length z.now }
    ensures within { IfSome result (λ end. end ≤ length z.now) }
    ensures byte { IfSome result (λ end. IsLineByte z.now c at end) }
{
    if at >= z.len() {
        return None;
    }
    if z[at] == c {
        return Some(at + 1);
    }
    if c != b'\n' || z[at] != b'\r' {
        return None;
    }
    if at + 1 < z.len() && z[at + 1] == b'\n' {
        return Some(at + 2);
    }
    Some(at + 1)
}

/// The place where these bytes end, where a line feed may be written in another way.
#[tactic(auto, using(crate::proofs::Lines::left_step, crate::proofs::Lines::left_done))]
pub(crate) fn past_lines(z: &[u8], at: usize, s: &[u8]) -> Option<usize>
    requires { at ≤ length z.now }
    ensures within { IfSome result (λ end. end ≤ length z.now) }
    ensures lines { IfSome result (λ end. ReadsLines z.now s.now at end) }
{
    let mut end = at;
    for c in s {
        match past_line_byte(z, end, *c) {
            Some(next) => end = next,
            None => return None,
        }
    }
    Some(end)
}

fn is_escaped_part(b: u8) -> bool
    ensures { IsTrue result ↔ IsEscapedPart b }
{
    is_name_part(b) || b == b'{' || b == b'}'
}

// The place where the bytes of a name with escapes end.
fn past_parts(z: &[u8], at: usize) -> usize
    requires { at ≤ length z.now }
    ensures within { (at ≤ result) × (result ≤ length z.now) }
    ensures parts { (k : ℕ) → at ≤ k → k < result → IsEscapedPart (slice_index z.now k) }
{
    let mut end = at;
    while end < z.len() && is_escaped_part(z[end]) {
        end += 1;
    }
    end
}

fn has_escape(z: &[u8], at: usize, end: usize) -> bool
    requires { end ≤ length z.now }
    ensures { IsTrue result → (k : ℕ) × ((at ≤ k) × (k < end) × (slice_index z.now k ≡ 92)) }
{
    for k in at..end {
        if z[k] == b'\\' {
            return true;
        }
    }
    false
}

/// The place where a name with an escape ends.
pub(crate) fn past_escaped(z: &[u8], at: usize) -> Option<usize>
    requires { at ≤ length z.now }
    ensures within { IfSome result (λ end. end ≤ length z.now) }
    ensures name { IfSome result (λ end. IsEscaped z.now at end) }
{
    let end = past_parts(z, at);
    if has_escape(z, at, end) {
        Some(end)
    } else {
        None
    }
}
