//! Where the texts, strings and names of JSX end.
ghost use Rattle.std.specs.Prelude.{◌≤◌, ◌^◌, ◌<◌, length};
ghost use Rattle.fast_check_source_lexer.specs.Jsx.{IsJsxText};

use crate::bytes::{byte, past_name, past_rest};

// The place of the next `<`, `>`, `{` or `}`, or of the end.
pub(crate) fn past_text(z: &[u8], at: usize) -> usize
    requires { at ≤ length z.now }
    ensures { IsJsxText z.now at result }
{
    let mut end = at;
    while end < z.len() && z[end] != b'<' && z[end] != b'>' && z[end] != b'{' && z[end] != b'}' {
        end += 1;
    }
    end
}

// The place past a string in a tag, from behind its quote on, and whether it is closed. Nothing is escaped in it.
pub(crate) fn past_quoted(quote: u8, z: &[u8], at: usize) -> (usize, bool)
    requires { at ≤ length z.now }
    ensures { (at ≤ result.0) × (result.0 ≤ length z.now) }
{
    let mut end = at;
    while end < z.len() {
        if z[end] == quote {
            return (end + 1, true);
        }
        end += 1;
    }
    (end, false)
}

// The place past a name in a tag, which may have a `-` in it.
pub(crate) fn past_tag_name(z: &[u8], at: usize) -> usize
    requires within { at ≤ length z.now }
    requires fits { length z.now < 2 ^ 32 }
    ensures { (at ≤ result) × (result ≤ length z.now) }
{
    let mut end = past_name(z, at);
    if end == at {
        return at;
    }
    while byte(z, end) == b'-' {
        end = past_rest(z, end + 1);
    }
    end
}
