//! The text that stands for the source of an import.
ghost use Rattle.std.specs.Prelude.{◌≡◌, IfOk, option_map, string_bytes};
ghost use Rattle.std.specs.Option.{option_and_then, option_copied};
ghost use Rattle.fast_check_tables_graph.specs.Resolutions.{text_resolved};
ghost use Rattle.fast_check_transform_imports.specs.module_facts.Sources.{dotted, relative_source, relative_url};

use std::alloc::{AllocError, Global};
use std::collections::BTreeMap;
use url::Url;

/// The relative URL that leads from one URL to another, if there is one.
fn relative_url(base: &Url, url: &Url) -> Result<Option<String>, AllocError>
    ensures { IfOk result (λ text. option_map string_bytes text ≡ relative_url base.now url.now) }
{
    base.make_relative(url)
}

/// A relative URL as a source is written: it begins with a dot.
fn dotted(alloc: Global, relative: String) -> Result<String, AllocError>
    ensures { IfOk result (λ text. string_bytes text ≡ dotted (string_bytes relative)) }
{
    if relative.as_bytes().starts_with(b"../") {
        return Ok(relative);
    }
    let mut text = String::from_str(alloc, "./")?;
    text.push_str(&relative)?;
    Ok(text)
}

/// What a text resolves to, if it does.
fn resolved<'a>(resolutions: Option<&'a BTreeMap<String, Url>>, text: &str) -> Option<&'a Url>
    ensures { option_copied result ≡ option_and_then (text_resolved text.now) (option_copied resolutions.entry) }
{
    resolutions?.get(text)
}

/// The text that stands in a skeleton for a source text of the module `referrer`, whose texts resolve to these: for a relative one the
/// relative URL of the module that it resolves to, with `./` before it unless it begins with `../`. None where the text stays as it is
/// written: where it is not relative, where it resolves to nothing, or where no relative URL leads to the module.
///
/// This is `transform_module_specifier` of deno_graph's fast check. An `Err` says that memory ran out.
pub fn relative_source(
    alloc: Global,
    resolutions: Option<&BTreeMap<String, Url>>,
    referrer: &Url,
    text: &str,
) -> Result<Option<String>, AllocError>
    ensures { IfOk result (λ other. option_map string_bytes other ≡ relative_source (option_copied resolutions.entry) referrer.now text.now) }
{
    if !text.as_bytes().starts_with(b".") {
        return Ok(None);
    }
    let Some(url) = resolved(resolutions, text) else {
        return Ok(None);
    };
    match relative_url(referrer, url)? {
        Some(relative) => Ok(Some(dotted(alloc, relative)?)),
        None => Ok(None),
    }
}
