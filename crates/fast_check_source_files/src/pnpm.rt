//! The list of packages in `pnpm-workspace.yaml`.
use std::alloc::{AllocError, Global};

// A text of YAML in one line, without its quotes and what stands behind it as a comment.
fn plain(item: &str) -> &str {
    let item = item.trim();
    for quote in ["\"", "'"] {
        if let Some(rest) = item.strip_prefix(quote) {
            return match rest.find(quote) {
                Some(end) => match rest.get(..end) {
                    Some(text) => text,
                    None => "",
                },
                None => rest,
            };
        }
    }
    match item.split_once(" #") {
        Some((text, _)) => text.trim(),
        None => item,
    }
}

fn push_plain(alloc: Global, item: &str, out: &mut Vec<String>) -> Result<(), AllocError> {
    let text = plain(item);
    if !text.is_empty() {
        out.push(String::from_str(alloc, text)?)?;
    }
    Ok(())
}

// A list in brackets, which may go on over lines.
fn push_inline(alloc: Global, text: &str, out: &mut Vec<String>) -> Result<(), AllocError> {
    let inner = match text.split_once(']') {
        Some((inner, _)) => inner,
        None => text,
    };
    for item in inner.split(',') {
        push_plain(alloc, item, out)?;
    }
    Ok(())
}

/// The paths that the file lists, a line for each or in brackets.
pub fn listed(alloc: Global, text: &str) -> Result<Vec<String>, AllocError> {
    let mut found = Vec::new(alloc);
    let mut is_inside = false;
    for line in text.lines() {
        if let Some(rest) = line.strip_prefix("packages:") {
            if let Some((_, list)) = text.split_once("packages:")
                && let Some(list) = list.trim_start().strip_prefix("[")
                && rest.trim_start().starts_with("[")
            {
                push_inline(alloc, list, &mut found)?;
                break;
            }
            is_inside = true;
        } else if is_inside {
            let line = line.trim();
            if let Some(item) = line.strip_prefix("-") {
                push_plain(alloc, item, &mut found)?;
            } else if !line.is_empty() && !line.starts_with("#") {
                break;
            }
        }
    }
    Ok(found)
}
