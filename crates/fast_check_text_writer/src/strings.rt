//! Strings without a text of their own in the source.
use crate::printer::Printer;

// How a string has the characters before the space.
const CONTROLS: [&str; 32] = [
    "\\u0000", "\\u0001", "\\u0002", "\\u0003", "\\u0004", "\\u0005", "\\u0006", "\\u0007", "\\b",
    "\\t", "\\n", "\\u000b", "\\f", "\\r", "\\u000e", "\\u000f", "\\u0010", "\\u0011", "\\u0012",
    "\\u0013", "\\u0014", "\\u0015", "\\u0016", "\\u0017", "\\u0018", "\\u0019", "\\u001a",
    "\\u001b", "\\u001c", "\\u001d", "\\u001e", "\\u001f",
];

// What stands for a character that a string cannot have as it is.
fn escape(each: char) -> Option<&'static str> {
    match each {
        '"' => Some("\\\""),
        '\\' => Some("\\\\"),
        '\u{2028}' => Some("\\u2028"),
        '\u{2029}' => Some("\\u2029"),
        _ => match CONTROLS.get(each as usize) {
            Some(text) => Some(*text),
            None => None,
        },
    }
}

impl<'a> Printer<'a> {
    /// A text as a string in quotation marks.
    pub fn quoted(&mut self, text: &'a str) {
        let mut start = 0;
        self.text("\"");
        for (at, each) in text.char_indices() {
            if let Some(escaped) = escape(each) {
                self.text(text.get(start..at).unwrap_or(""));
                self.text(escaped);
                start = at.saturating_add(each.len_utf8());
            }
        }
        self.text(text.get(start..text.len()).unwrap_or(""));
        self.text("\"")
    }
}
