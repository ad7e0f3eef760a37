//! Comments that name the declaration file of a module.

// The path behind a `=`, which may stand in quotes.
fn value_of(text: &str) -> Option<&str> {
    let mut rest = text.trim_start().strip_prefix("=")?.trim_start();
    for quote in ["\"", "'"] {
        if let Some(inner) = rest.strip_prefix(quote) {
            rest = inner;
            break;
        }
    }
    let mut end = rest.len();
    for (at, each) in rest.char_indices() {
        if matches!(each, '"' | '\'' | '*' | '>') || each.is_whitespace() {
            end = at;
            break;
        }
    }
    if end == 0 { None } else { rest.get(..end) }
}

// The path that one of two words names in the text of a comment.
fn named_by<'a>(comment: &'a str, words: [&str; 2]) -> Option<&'a str> {
    let text = comment.trim_start();
    for word in words {
        if let Some(rest) = text.strip_prefix(word) {
            return value_of(rest);
        }
    }
    None
}

// The text of the last comment before a place of a text, if nothing else stands between.
fn comment_before(text: &str, place: usize) -> Option<&str> {
    let before = text.get(..place)?;
    let written = before.trim_end();
    if let Some(rest) = written.strip_suffix("*/") {
        let start = rest.rfind("/*")?;
        return rest.get(start.saturating_add(2)..);
    }
    // A line is looked through only where the statement stands on another one.
    if !before.get(written.len()..)?.contains("\n") {
        return None;
    }
    let line = match written.rsplit_once('\n') {
        Some((_, line)) => line,
        None => written,
    };
    line.trim_start().strip_prefix("//")
}

/// The declaration file that the comment before a statement names for what that imports: `// @deno-types="./a.d.ts"` or `// @ts-types="./a.d.ts"`.
pub fn named_types(text: &str, statement: usize) -> Option<&str> {
    named_by(
        comment_before(text, statement)?,
        ["@deno-types", "@ts-types"],
    )
}

// The path in a third slash with `<reference types=".." />` behind it.
fn referred(comment: &str) -> Option<&str> {
    let text = comment.strip_prefix("/")?.trim_start();
    let text = text.strip_prefix("<reference")?.trim_start();
    value_of(text.strip_prefix("types")?)
}

fn of_comment(comment: &str) -> Option<&str> {
    match named_by(comment, ["@ts-self-types", "@deno-types"]) {
        Some(path) => Some(path),
        None => referred(comment),
    }
}

// The text of the comment that a text begins with, and what stands behind that.
fn first_comment(text: &str) -> Option<(&str, &str)> {
    if let Some(rest) = text.strip_prefix("//") {
        return match rest.split_once('\n') {
            Some(parts) => Some(parts),
            None => Some((rest, "")),
        };
    }
    text.strip_prefix("/*")?.split_once("*/")
}

/// The declaration file that JavaScript names for itself in the comments at its start.
pub fn self_types(text: &str) -> Option<&str> {
    let mut rest = text;
    if rest.starts_with("#!") {
        rest = match rest.split_once('\n') {
            Some((_, behind)) => behind,
            None => "",
        };
    }
    for _turn in 0..text.len() {
        let Some((comment, behind)) = first_comment(rest.trim_start()) else {
            break;
        };
        if let Some(path) = of_comment(comment) {
            return Some(path);
        }
        rest = behind;
    }
    None
}
