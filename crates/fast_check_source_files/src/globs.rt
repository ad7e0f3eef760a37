//! Patterns of paths: `*` and `?` within a part of a path, `**` for any number of parts, and `{a,b}` for one of several.
use std::alloc::{AllocError, Global};

fn byte(z: &[u8], at: usize) -> u8 {
    match z.get(at) {
        Some(byte) => *byte,
        None => 0,
    }
}

/// Whether a text fits a pattern of one part.
pub fn part_fits(pattern: &str, text: &str) -> bool {
    let (p, z) = (pattern.as_bytes(), text.as_bytes());
    let (mut at, mut end) = (0, 0);
    // Behind the last `*`, and what it may take next.
    let mut again: Option<(usize, usize)> = None;
    let turns = p
        .len()
        .saturating_add(1)
        .saturating_mul(z.len().saturating_add(1));
    for _turn in 0..turns.saturating_add(p.len()) {
        if end >= z.len() && at >= p.len() {
            return true;
        }
        if at < p.len() && byte(p, at) == b'*' {
            at = at.saturating_add(1);
            again = Some((at, end.saturating_add(1)));
        } else if at < p.len()
            && end < z.len()
            && (byte(p, at) == b'?' || byte(p, at) == byte(z, end))
        {
            at = at.saturating_add(1);
            end = end.saturating_add(1);
        } else {
            match again {
                Some((behind, next)) if next <= z.len() => {
                    at = behind;
                    end = next;
                    again = Some((behind, next.saturating_add(1)));
                }
                _ => return false,
            }
        }
    }
    false
}

fn parts<'a>(alloc: Global, path: &'a str) -> Result<Vec<&'a str>, AllocError> {
    let mut made = Vec::new(alloc);
    for part in path
        .split('/')
        .filter(|part| !part.is_empty() && *part != ".")
    {
        made.push(part)?;
    }
    Ok(made)
}

fn part_at<'a>(parts: &[&'a str], at: usize) -> &'a str {
    match parts.get(at) {
        Some(part) => *part,
        None => "",
    }
}

/// Whether a path fits a pattern.
pub fn fits(alloc: Global, pattern: &str, path: &str) -> Result<bool, AllocError> {
    let wanted = parts(alloc, pattern)?;
    let own = parts(alloc, path)?;
    let (mut at, mut end) = (0, 0);
    let mut again: Option<(usize, usize)> = None;
    let turns = wanted
        .len()
        .saturating_add(1)
        .saturating_mul(own.len().saturating_add(1));
    for _turn in 0..turns.saturating_add(wanted.len()) {
        if end >= own.len() && at >= wanted.len() {
            return Ok(true);
        }
        if at < wanted.len() && part_at(wanted.as_slice(), at) == "**" {
            at = at.saturating_add(1);
            again = Some((at, end.saturating_add(1)));
        } else if at < wanted.len()
            && end < own.len()
            && part_fits(part_at(wanted.as_slice(), at), part_at(own.as_slice(), end))
        {
            at = at.saturating_add(1);
            end = end.saturating_add(1);
        } else {
            match again {
                Some((behind, next)) if next <= own.len() => {
                    at = behind;
                    end = next;
                    again = Some((behind, next.saturating_add(1)));
                }
                _ => return Ok(false),
            }
        }
    }
    Ok(false)
}

/// Whether a text is a pattern.
pub fn is_pattern(text: &str) -> bool {
    text.contains("*") || text.contains("?")
}

// The choices of the innermost braces that a pattern begins with, between what stands before and behind them.
fn choices(pattern: &str) -> Option<(&str, &str, &str)> {
    let close = pattern.find("}")?;
    let before = pattern.get(..close)?;
    let open = before.rfind("{")?;
    Some((
        pattern.get(..open)?,
        pattern.get(open.saturating_add(1)..close)?,
        pattern.get(close.saturating_add(1)..)?,
    ))
}

/// A pattern for each choice of its braces, as `a/b` and `a/c` of `a/{b,c}`.
pub fn without_braces(alloc: Global, pattern: &str) -> Result<Vec<String>, AllocError> {
    let mut waiting = Vec::new(alloc);
    waiting.push(String::from_str(alloc, pattern)?)?;
    let mut made = Vec::new(alloc);
    for _turn in 0..u64::MAX {
        let Some(next) = waiting.pop() else {
            break;
        };
        match choices(next.as_str()) {
            Some((before, inner, behind)) => {
                for choice in inner.split(',').rev() {
                    let mut each = String::from_str(alloc, before)?;
                    each.push_str(choice)?;
                    each.push_str(behind)?;
                    waiting.push(each)?;
                }
            }
            None => made.push(next)?,
        }
    }
    Ok(made)
}
