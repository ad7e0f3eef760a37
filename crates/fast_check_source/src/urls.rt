//! URLs of files, and of what lies outside of the folder.
use anyhow::Result;
use fast_check_source_files::files::joined;
use std::alloc::{AllocError, Global};
use url::{ParseError, Url};

const HEX: &str = "0123456789ABCDEF";

fn is_plain(each: char) -> bool {
    matches!(
        each,
        'a'..='z' | 'A'..='Z' | '0'..='9' | '-' | '_' | '.' | '!' | '~' | '*' | '\'' | '(' | ')' | '@' | '/'
    )
}

fn push_digit(out: &mut String, digit: u8) -> Result<(), AllocError> {
    let at = digit as usize;
    match HEX.get(at..at.saturating_add(1)) {
        Some(text) => out.push_str(text),
        None => Ok(()),
    }
}

/// A path as a URL writes it.
pub fn encoded(alloc: Global, path: &str) -> Result<String, AllocError> {
    let mut made = String::new(alloc);
    for (at, each) in path.char_indices() {
        let Some(text) = path.get(at..at.saturating_add(each.len_utf8())) else {
            continue;
        };
        if is_plain(each) {
            made.push_str(text)?;
            continue;
        }
        for byte in text.as_bytes() {
            made.push_str("%")?;
            push_digit(&mut made, *byte / 16)?;
            push_digit(&mut made, *byte % 16)?;
        }
    }
    Ok(made)
}

/// The URL of a file by its path from the folder.
pub fn url_of(alloc: Global, path: &str) -> Result<Url> {
    let path = encoded(alloc, path)?;
    let text = joined(alloc, "file:///", path.as_str())?;
    Ok(Url::parse(alloc, text.as_str())?)
}

/// The URL of what a text names outside of the folder: a package of npm, where it says no scheme.
pub fn external(alloc: Global, text: &str) -> Result<Url> {
    match Url::parse(alloc, text) {
        Ok(url) => Ok(url),
        Err(ParseError::OutOfMemory) => Err(AllocError.into()),
        Err(_) => {
            let text = joined(alloc, "npm:", text)?;
            Ok(Url::parse(alloc, text.as_str())?)
        }
    }
}
