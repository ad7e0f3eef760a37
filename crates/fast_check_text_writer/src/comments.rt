//! What the texts of comments say.

const EXPECT_ERROR: &str = "@ts-expect-error";

/// The first line of a text, and what stands after its end.
pub(crate) fn split_line(text: &str) -> (&str, Option<&str>) {
    let Some((line, rest)) = text.split_once(|each: char| each == '\n' || each == '\r') else {
        return (text, None);
    };
    let ends_in_return = text.as_bytes().get(line.len()) == Some(&b'\r');
    if ends_in_return {
        return (line, Some(rest.strip_prefix("\n").unwrap_or(rest)));
    }
    (line, Some(rest))
}

// Whether a line of a block comment begins with `*`, or is empty.
fn is_starred(line: &str) -> bool {
    let text = line.trim_start();
    text.is_empty() || text.starts_with("*")
}

/// Whether each line of a block comment but the first is one that moves with the indentation.
pub(crate) fn is_movable(text: &str) -> bool {
    let (_, mut rest) = split_line(text);
    for _turn in 0..u64::MAX {
        let Some(lines) = rest else {
            break;
        };
        let (line, more) = split_line(lines);
        if !is_starred(line) {
            return false;
        }
        rest = more;
    }
    true
}

/// A line comment, without its `//`, that has the compiler expect an error in the next line, around the directive.
pub(crate) fn expected_in_line(text: &str) -> Option<(&str, &str)> {
    let directive = text.strip_prefix("/").unwrap_or(text).trim_start();
    if directive.starts_with(EXPECT_ERROR) {
        text.split_once(EXPECT_ERROR)
    } else {
        None
    }
}

/// The same of the last line of a block comment.
pub(crate) fn expected_in_block(line: &str) -> Option<(&str, &str)> {
    let directive = line
        .trim_start()
        .trim_start_matches(|each: char| each == '*' || each == '/')
        .trim_start();
    if directive.starts_with(EXPECT_ERROR) {
        line.split_once(EXPECT_ERROR)
    } else {
        None
    }
}

/// Whether a comment has the compiler ignore the errors of the next line.
pub(crate) fn ignores_errors(text: &str) -> bool {
    text.contains("@ts-ignore") || text.contains(EXPECT_ERROR)
}
