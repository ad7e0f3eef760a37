//! Paths below folders, and patterns with one `*`.
ghost use Rattle.std.specs.Prelude.{◌≡◌, IfOk, IfSome, string_bytes};
ghost use Rattle.fast_check_source_configs.specs.Paths.{path_inside, with_star};

use fast_check_source_files::files::joined;
use std::alloc::{AllocError, Global};

/// What is left of a path below a folder.
pub fn behind<'a>(path: &'a str, folder: &str) -> Option<&'a str>
    ensures { IfSome result (λ rest. path.now ≡ path_inside folder.now rest.now) }
{
    if folder.is_empty() {
        return Some(path);
    }
    path.strip_prefix(folder)?.strip_prefix("/")
}

/// A path below a folder.
pub fn inside(alloc: Global, folder: &str, path: &str) -> Result<String, AllocError>
    ensures { IfOk result (λ made. string_bytes made ≡ path_inside folder.now path.now) }
{
    if folder.is_empty() {
        return String::from_str(alloc, path);
    }
    let mut made = joined(alloc, folder, "/")?;
    made.push_str(path)?;
    Ok(made)
}

/// What stands for the `*` of a key, or nothing where a text does not fit it.
pub fn rest_of<'a>(key: &str, text: &'a str) -> Option<&'a str>
    ensures { IfSome result (λ rest. text.now ≡ with_star key.now rest.now) }
{
    match key.split_once('*') {
        None => if key == text { Some("") } else { None },
        Some((before, after)) => {
            if text.len() < before.len().saturating_add(after.len()) {
                return None;
            }
            text.strip_prefix(before)?.strip_suffix(after)
        }
    }
}

/// A text in which another one stands for its `*`, if it has one.
pub fn with_rest(alloc: Global, target: &str, rest: &str) -> Result<String, AllocError>
    ensures { IfOk result (λ made. string_bytes made ≡ with_star target.now rest.now) }
{
    match target.split_once('*') {
        None => String::from_str(alloc, target),
        Some((before, after)) => {
            let mut made = joined(alloc, before, rest)?;
            made.push_str(after)?;
            Ok(made)
        }
    }
}
