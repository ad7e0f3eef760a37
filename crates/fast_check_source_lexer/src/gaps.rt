//! White space and comments.
ghost use Rattle.std.specs.Prelude.{◌≡◌, ◌≢◌, ◌<◌, ◌≤◌, ◌+◌, ◌^◌, ◌⊎◌, ◌↔◌, length, slice_index, IfSome, MatchOption, IsTrue, ℕ};
ghost use Rattle.fast_check_source_lexer.specs.Gaps.{IsBlank, AreBlanks, IsTwo, IsThree, IsLineEnd, HoldsLineEnd, IsRest, IsLine, IsBlock, IsHashbang, IsPiece, IsGap};

use crate::bytes::byte;

/// White space and comments: the place where they end, and whether a line ends in them.
#[derive(Clone, Copy)]
pub(crate) struct Gap {
    pub end: usize,
    pub newline: bool,
}

/// Whether a line ends at a place.
pub(crate) fn is_line_end(z: &[u8], at: usize) -> bool
    requires fits { at < 2 ^ 62 }
    ensures { IsTrue result ↔ IsLineEnd z.now at }
{
    match byte(z, at) {
        10 | 13 => true,
        226 => byte(z, at + 1) == 128 && (byte(z, at + 2) == 168 || byte(z, at + 2) == 169),
        _ => false,
    }
}

fn past_blanks(z: &[u8], at: usize) -> Gap
    requires { at ≤ length z.now }
    ensures within { (at ≤ result.end) × (result.end ≤ length z.now) }
    ensures blank { AreBlanks z.now at result.end }
    ensures whole { IsBlank (slice_index z.now result.end) → ⊥ }
    ensures lines { IsTrue result.newline ↔ HoldsLineEnd z.now at result.end }
{
    let mut end = at;
    let mut newline = false;
    while end < z.len() && ((9 <= z[end] && z[end] <= 13) || z[end] == 32) {
        if z[end] == 10 || z[end] == 13 {
            newline = true;
        }
        end += 1;
    }
    Gap { end, newline }
}

// The place past a white space of several bytes, or `at` where none stands there.
fn past_wide(z: &[u8], at: usize) -> usize
    requires within { at ≤ length z.now }
    requires fits { length z.now < 2 ^ 32 }
    ensures within { (at ≤ result) × (result ≤ length z.now) }
    ensures space { at < result → (IsTwo z.now at × (result ≡ at + 2)) ⊎ (IsThree z.now at × (result ≡ at + 3)) }
    ensures whole { result ≤ at → (IsTwo z.now at ⊎ IsThree z.now at) → ⊥ }
{
    let (a, b, c) = (byte(z, at), byte(z, at + 1), byte(z, at + 2));
    match (a, b) {
        (194, 160 | 133) => at + 2,
        (226, 128) if (128 <= c && c <= 139) || c == 168 || c == 169 || c == 175 => at + 3,
        (226, 129) if c == 159 => at + 3,
        (225, 154) if c == 128 => at + 3,
        (227, 128) if c == 128 => at + 3,
        (239, 187) if c == 191 => at + 3,
        _ => at,
    }
}

// The place where a line ends.
fn past_rest(z: &[u8], at: usize) -> usize
    requires within { at ≤ length z.now }
    requires fits { length z.now < 2 ^ 32 }
    ensures within { (at ≤ result) × (result ≤ length z.now) }
    ensures rest { IsRest z.now at result }
{
    let mut end = at;
    while end < z.len() && !is_line_end(z, end) {
        end += 1;
    }
    end
}

// The place where a comment of a line ends.
fn past_line(z: &[u8], at: usize) -> usize
    requires first { (slice_index z.now at ≡ 47) × (slice_index z.now (at + 1) ≡ 47) }
    requires within { at + 2 ≤ length z.now }
    requires fits { length z.now < 2 ^ 32 }
    ensures within { (at + 2 ≤ result) × (result ≤ length z.now) }
    ensures line { IsLine z.now at result }
{
    past_rest(z, at + 2)
}

// The end of a comment between marks, if it is closed.
fn past_block(z: &[u8], at: usize) -> Option<Gap>
    requires first { (slice_index z.now at ≡ 47) × (slice_index z.now (at + 1) ≡ 42) }
    requires within { at + 2 ≤ length z.now }
    requires fits { length z.now < 2 ^ 32 }
    ensures within { IfSome result (λ gap. (at + 4 ≤ gap.end) × (gap.end ≤ length z.now)) }
    ensures block { IfSome result (λ gap. IsBlock z.now at gap.end) }
    ensures whole { result ≡ None → (b : ℕ) → IsBlock z.now at b → ⊥ }
    ensures lines { IfSome result (λ gap. IsTrue gap.newline ↔ HoldsLineEnd z.now at gap.end) }
{
    let mut end = at + 2;
    let mut newline = false;
    while end < z.len() {
        if z[end] == 42 && byte(z, end + 1) == 47 {
            return Some(Gap {
                end: end + 2,
                newline,
            });
        }
        newline = newline || is_line_end(z, end);
        end += 1;
    }
    None
}

// The end of the piece of white space or of the comment that begins at a place, or that place where none does.
fn past_piece(z: &[u8], at: usize) -> Gap
    requires within { at ≤ length z.now }
    requires fits { length z.now < 2 ^ 32 }
    ensures within { (at ≤ result.end) × (result.end ≤ length z.now) }
    ensures piece { at < result.end → IsPiece z.now at result.end }
    ensures whole { result.end ≤ at → (b : ℕ) → at < b → IsPiece z.now at b → ⊥ }
    ensures lines { IsTrue result.newline ↔ HoldsLineEnd z.now at result.end }
{
    let none = Gap {
        end: at,
        newline: false,
    };
    match byte(z, at) {
        b'/' => match byte(z, at + 1) {
            b'/' => Gap {
                end: past_line(z, at),
                newline: false,
            },
            b'*' => match past_block(z, at) {
                Some(gap) => gap,
                None => none,
            },
            _ => none,
        },
        b'#' if at == 0 && byte(z, 1) == b'!' => Gap {
            end: past_rest(z, 2),
            newline: false,
        },
        9..=13 | 32 => past_blanks(z, at),
        128..=255 => Gap {
            end: past_wide(z, at),
            newline: is_line_end(z, at),
        },
        _ => none,
    }
}

/// The white space and the comments that begin at a place.
pub(crate) fn past_gap(z: &[u8], at: usize) -> Gap
    requires within { at ≤ length z.now }
    requires fits { length z.now < 2 ^ 32 }
    ensures within { (at ≤ result.end) × (result.end ≤ length z.now) }
    ensures gap { IsGap z.now at result.end }
    ensures whole { (b : ℕ) → result.end < b → IsPiece z.now result.end b → ⊥ }
    ensures lines { IsTrue result.newline ↔ HoldsLineEnd z.now at result.end }
{
    let mut end = at;
    let mut newline = false;
    while end < z.len() {
        let piece = past_piece(z, end);
        if piece.end <= end {
            break;
        }
        newline = newline || piece.newline;
        end = piece.end;
    }
    Gap { end, newline }
}
