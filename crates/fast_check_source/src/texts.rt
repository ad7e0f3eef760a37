//! The skeletons of a folder as TypeScript.
use crate::answers::Answered;
use anyhow::Result;
use fast_check_build::answers::ModuleAnswer;
use fast_check_source_input::Json;
use fast_check_text_items::text_of;
use json::Writer;
use percent_encoding::percent_decode;
use std::alloc::{AllocError, Global};
use std::collections::BTreeMap;
use url::Url;

// The path of a module from the folder, by its URL.
fn path_of(alloc: Global, url: &Url) -> Result<String, AllocError> {
    let path = url.path();
    let encoded = path.strip_prefix("/").unwrap_or(path);
    let mut bytes = Vec::new(alloc);
    percent_decode(encoded.as_bytes()).append_to(&mut bytes)?;
    match String::from_utf8(bytes) {
        Ok(text) => Ok(text),
        Err(_) => String::from_str(alloc, encoded),
    }
}

// Notes the text of a module that has a skeleton, by its path.
fn put_text(
    alloc: Global,
    answer: &ModuleAnswer,
    texts: &mut BTreeMap<String, String>,
) -> Result<(), AllocError> {
    let (url, module) = answer;
    if let Ok(module) = module {
        let path = path_of(alloc, url)?;
        let text = text_of(alloc, &module.program, &module.comments, path.as_str())?;
        let _ = texts.insert(path, text)?;
    }
    Ok(())
}

// The line of a module: its path from the folder, and the text of its skeleton.
fn line_of(alloc: Global, path: &str, text: &str) -> Result<String, AllocError> {
    let mut out = Json::new(Writer::new(Vec::new(alloc)));
    out.begin_object();
    out.named("path", path);
    out.named("text", text);
    out.end_object();
    let out = out.finish()?;
    Ok(match String::from_utf8(out.into_inner()) {
        Ok(line) => line,
        Err(_) => String::new(alloc),
    })
}

/// The skeletons of a folder, each in a line of JSON, in the order of their paths. No line end follows the last one.
pub fn texts_of(alloc: Global, answered: &Answered) -> Result<String> {
    let mut texts = BTreeMap::new(alloc);
    for answer in answered.answers.iter() {
        put_text(alloc, answer, &mut texts)?;
    }
    let mut lines = String::new(alloc);
    for (path, text) in texts.iter() {
        if !lines.is_empty() {
            lines.push_str("\n")?;
        }
        let line = line_of(alloc, path.as_str(), text.as_str())?;
        lines.push_str(line.as_str())?;
    }
    Ok(lines)
}
