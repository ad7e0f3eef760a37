//! The configuration files of a folder.
ghost use Rattle.std.specs.Prelude.{◌≡◌, ◌∷◌, ◌++◌, [], IfOk, string_bytes};

use crate::checks::unfit;
use crate::messages::MessageList;
use fast_check_source_files::files::{Files, below, joined};
use fast_check_source_files::jsonc::value_of;
use fast_check_source_files::messages::Message;
use serde_json::Value;
use std::alloc::{AllocError, Global};
use std::collections::BTreeMap;

/// The names of configuration files, those that go first first.
pub const NAMES: [&str; 5] = [
    "deno.json",
    "deno.jsonc",
    "jsr.json",
    "jsr.jsonc",
    "package.json",
];

const CONDITIONS: [&str; 8] = [
    "types", "deno", "import", "module", "node", "browser", "default", "require",
];

/// A configuration file.
#[derive(Drop)]
pub struct Config {
    pub path: String,
    pub text: String,
    pub value: Value,
}

/// What is written in a folder, or nothing where it leads out of the folder that was named.
pub fn path_in(alloc: Global, folder: &str, path: &str) -> Result<String, AllocError> {
    match below(alloc, folder, path)? {
        Some(path) => Ok(path),
        None => Ok(String::new(alloc)),
    }
}

/// A text in quotes.
pub fn quoted(alloc: Global, text: &str) -> Result<String, AllocError>
    ensures { IfOk result (λ made. string_bytes made ≡ 34 ∷ text.now ++ 34 ∷ []) }
{
    let mut made = joined(alloc, "\"", text)?;
    made.push_str("\"")?;
    Ok(made)
}

fn refused(
    alloc: Global,
    path: &str,
    text: &str,
    offset: usize,
    why: &str,
) -> Result<Message, AllocError> {
    Message::at(alloc, path, text, offset, "bad-configuration", why)
}

// What is wrong with a member, where it is named first.
fn refused_member(
    alloc: Global,
    path: &str,
    text: &str,
    member: &str,
    wanted: &str,
) -> Result<Message, AllocError> {
    let key = quoted(alloc, member)?;
    let offset = match text.find(key.as_str()) {
        Some(at) => at,
        None => 0,
    };
    let mut why = joined(alloc, "`", member)?;
    why.push_str("` has to be ")?;
    why.push_str(wanted)?;
    refused(alloc, path, text, offset, why.as_str())
}

// A configuration file that is there, or what is wrong with it.
fn read_config(
    files: &Files<'_>,
    path: String,
    errors: &mut MessageList,
) -> Result<Option<Config>, AllocError> {
    let alloc = files.alloc();
    if let Some(why) = files.refusal(path.as_str())? {
        errors.push(Message::of_file(alloc, path.as_str(), "refused-file", why));
        return Ok(None);
    }
    let Some(text) = files.read(path.as_str())? else {
        let why = "the file is no UTF-8";
        errors.push(Message::of_file(alloc, path.as_str(), "bad-configuration", why));
        return Ok(None);
    };
    let value = match value_of(alloc, text.as_str())? {
        Some(value) if value.as_object().is_some() => value,
        _ => {
            let why = "this is no object";
            errors.push(refused(alloc, path.as_str(), text.as_str(), 0, why));
            return Ok(None);
        }
    };
    if let Some((member, wanted)) = unfit(&value) {
        errors.push(refused_member(alloc, path.as_str(), text.as_str(), member, wanted));
        return Ok(None);
    }
    Ok(Some(Config { path, text, value }))
}

/// The configurations of a folder, those that go first first.
pub fn configs_of(
    files: &Files<'_>,
    folder: &str,
    errors: &mut MessageList,
) -> Result<Vec<Config>, AllocError> {
    let mut found = Vec::new(files.alloc());
    for name in NAMES {
        let path = path_in(files.alloc(), folder, name)?;
        if files.is_file(path.as_str())?
            && let Some(config) = read_config(files, path, errors)?
        {
            found.push(config)?;
        }
    }
    Ok(found)
}

/// A member of the configurations, as the first that has it says it.
pub fn member<'a>(configs: &'a [Config], key: &str) -> Option<&'a Value> {
    for config in configs {
        if let Some(found) = config.value.get(key) {
            return Some(found);
        }
    }
    None
}

/// The text of a member, if it is one.
pub fn text_of<'a>(configs: &'a [Config], key: &str) -> Option<&'a str> {
    member(configs, key)?.as_str()
}

// Pushes what the items of a list, or conditions, lead to, the first one last.
fn push_inner<'a>(entry: &'a Value, out: &mut Vec<&'a Value>) -> Result<(), AllocError> {
    if let Some(list) = entry.as_array() {
        for each in list.iter().rev() {
            out.push(each)?;
        }
        return Ok(());
    }
    for condition in CONDITIONS.iter().rev() {
        if let Some(inner) = entry.get(*condition) {
            out.push(inner)?;
        }
    }
    Ok(())
}

/// The path that an entry has: a text, or the first condition that leads to one.
pub fn path_of<'a>(alloc: Global, entry: &'a Value) -> Result<Option<&'a str>, AllocError> {
    let mut waiting = Vec::new(alloc);
    waiting.push(entry)?;
    for _turn in 0..u64::MAX {
        let Some(next) = waiting.pop() else {
            break;
        };
        match next.as_str() {
            Some(path) if !path.is_empty() => return Ok(Some(path)),
            Some(_) => {}
            None => push_inner(next, &mut waiting)?,
        }
    }
    Ok(None)
}

// Where a path leads that stands for a name: nowhere if it is no relative one.
fn target_of(alloc: Global, folder: &str, path: &str) -> Result<Option<String>, AllocError> {
    if !path.starts_with("./") && !path.starts_with("../") {
        return Ok(None);
    }
    let mut target = path_in(alloc, folder, path)?;
    if path.ends_with("/") {
        target.push_str("/")?;
    }
    Ok(Some(target))
}

// Adds what a name of imports stands for.
fn add_import(
    alloc: Global,
    folder: &str,
    key: &str,
    entry: &Value,
    out: &mut BTreeMap<String, Option<String>>,
) -> Result<(), AllocError> {
    if let Some(path) = path_of(alloc, entry)? {
        let target = target_of(alloc, folder, path)?;
        let _ = out.insert(String::from_str(alloc, key)?, target)?;
    }
    Ok(())
}

/// Adds what the configurations of a folder say that names of imports stand for.
pub fn add_imports(
    alloc: Global,
    folder: &str,
    configs: &[Config],
    out: &mut BTreeMap<String, Option<String>>,
) -> Result<(), AllocError> {
    for config in configs.iter().rev() {
        if let Some(map) = config.value.get("imports").and_then(Value::as_object) {
            for (key, entry) in map.iter() {
                add_import(alloc, folder, key.as_str(), entry, out)?;
            }
        }
    }
    Ok(())
}
