//! The entry points that a configuration writes.
ghost use Rattle.std.specs.Prelude.{◌≡◌, ◌+◌, OnOk, vec_len};

use fast_check_source_configs::config::{Config, member, path_in, path_of, text_of};
use fast_check_source_configs::paths::with_rest;
use fast_check_source_files::files::{Files, Standing};
use fast_check_source_files::languages::{Language, language_of};
use serde_json::Value;
use std::alloc::{AllocError, Global};
use std::collections::BTreeMap;

/// An entry point: its key, and its path as it is written, or that of a file.
#[derive(Drop)]
pub struct Entry {
    pub key: String,
    pub path: String,
}

/// An entry point as it is written, and the path of the file that is read in its place.
#[derive(Drop)]
pub struct Taken {
    pub written: String,
    pub path: String,
}

/// Adds an entry point.
pub fn push_entry(
    alloc: Global,
    key: &str,
    path: &str,
    out: &mut Vec<Entry>,
) -> Result<(), AllocError>
    ensures { OnOk result (vec_len out.new ≡ vec_len out.old + 1) }
{
    let key = String::from_str(alloc, key)?;
    let path = String::from_str(alloc, path)?;
    out.push(Entry { key, path })?;
    Ok(())
}

fn is_keyed(exports: &Value) -> bool {
    match exports.as_object() {
        Some(map) => map.iter().any(|entry| entry.0.as_str().starts_with(".")),
        None => false,
    }
}

// `exports` as it is written: that of the settings of this tool, or else of the package.
fn exports_of(configs: &[Config]) -> Option<&Value> {
    if let Some(settings) = member(configs, "nagdrez")
        && let Some(exports) = settings.get("exports")
    {
        return Some(exports);
    }
    member(configs, "exports")
}

// Adds the entry points of a member `exports`.
fn push_exports(alloc: Global, exports: &Value, out: &mut Vec<Entry>) -> Result<(), AllocError> {
    if let Some(map) = exports.as_object()
        && is_keyed(exports)
    {
        for (key, entry) in map.iter() {
            if let Some(path) = path_of(alloc, entry)? {
                push_entry(alloc, key.as_str(), path, out)?;
            }
        }
        return Ok(());
    }
    match path_of(alloc, exports)? {
        Some(path) => push_entry(alloc, ".", path, out),
        None => Ok(()),
    }
}

/// The entry points as they are written.
pub fn written_exports(alloc: Global, configs: &[Config]) -> Result<Vec<Entry>, AllocError> {
    let mut out = Vec::new(alloc);
    if let Some(exports) = exports_of(configs) {
        push_exports(alloc, exports, &mut out)?;
    }
    for key in ["types", "typings"] {
        if out.is_empty()
            && let Some(path) = text_of(configs, key)
        {
            push_entry(alloc, ".", path, &mut out)?;
        }
    }
    Ok(out)
}

// What stands for the `*` between two texts, if that is something.
fn star_of<'a>(path: &'a str, before: &str, behind: &str) -> Option<&'a str> {
    if path.len() <= before.len().saturating_add(behind.len()) {
        return None;
    }
    path.strip_prefix(before)?.strip_suffix(behind)
}

// Adds an entry point for a file that fits the path of one with a `*`.
fn push_fitting(
    alloc: Global,
    key: &str,
    pattern: &str,
    file: &str,
    out: &mut Vec<Entry>,
) -> Result<(), AllocError> {
    if let Some((before, behind)) = pattern.split_once('*')
        && language_of(file) != Language::Other
        && let Some(star) = star_of(file, before, behind)
    {
        let key = with_rest(alloc, key, star)?;
        push_entry(alloc, key.as_str(), file, out)?;
    }
    Ok(())
}

// The entry points for the files of a folder that fit the path of one with a `*`, or else for those that the compiler would write.
fn fitting(
    files: &Files<'_>,
    folder: &str,
    key: &str,
    pattern: &str,
    built: &BTreeMap<String, String>,
) -> Result<Vec<Entry>, AllocError> {
    let alloc = files.alloc();
    let mut found = Vec::new(alloc);
    for file in files.all_below(folder, Standing::File)? {
        push_fitting(alloc, key, pattern, file.as_str(), &mut found)?;
    }
    if found.is_empty() {
        for (file, _) in built.iter() {
            push_fitting(alloc, key, pattern, file.as_str(), &mut found)?;
        }
    }
    Ok(found)
}

/// An entry by the path of its file from the folder that was named. One with a `*` in its path stands for each file that fits, and where there is none, for each that
/// the compiler would write.
pub fn expanded(
    files: &Files<'_>,
    folder: &str,
    entry: &Entry,
    built: &BTreeMap<String, String>,
) -> Result<Vec<Entry>, AllocError> {
    let alloc = files.alloc();
    let pattern = path_in(alloc, folder, entry.path.as_str())?;
    if pattern.as_str().contains("*") {
        return fitting(files, folder, entry.key.as_str(), pattern.as_str(), built);
    }
    let mut found = Vec::new(alloc);
    push_entry(alloc, entry.key.as_str(), pattern.as_str(), &mut found)?;
    Ok(found)
}
