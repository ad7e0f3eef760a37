//! Modules of the graph.

ghost use Rattle.std.specs.Prelude.{option_map};
ghost use Rattle.serde_json.specs.View.{view};
ghost use Rattle.fast_check_read.specs.Pieces.{u64_of};
ghost use Rattle.fast_check_json_tables.specs.graph.Reads.{Reads};
ghost use Rattle.fast_check_json_tables.specs.graph.Modules as modules;

use crate::graph::from_json::FromJson;
use crate::graph::members::{read_flag, read_member, read_option, read_variant};
use fast_check_read::{ReadError, read_members, read_text, read_u64};
use fast_check_tables_diagnostics::parsed_source::MediaType;
use fast_check_tables_graph::Module;
use serde_json::Value;
use std::alloc::Global;

impl FromJson for u64 {
    ghost use Rattle.std.specs.Prelude.{ℕ};

    ghost Seen = { ℕ };

    ghost seen = { λ number. number };

    ghost read_of = { u64_of };

    fn from_json(_alloc: Global, value: &Value) -> Result<u64, ReadError> {
        read_u64(value)
    }
}

impl FromJson for MediaType {
    ghost use Rattle.fast_check_tables_diagnostics.specs.declared.parsed_source.tables.media_type.MediaType.{MediaType};

    ghost Seen = { MediaType };

    ghost seen = { λ media_type. media_type };

    ghost read_of = { modules.media_type_of };

    fn from_json(_alloc: Global, value: &Value) -> Result<MediaType, ReadError> {
        match read_text(value)? {
            "TypeScript" => Ok(MediaType::TypeScript),
            "Mts" => Ok(MediaType::Mts),
            "Cts" => Ok(MediaType::Cts),
            "Tsx" => Ok(MediaType::Tsx),
            "Dts" => Ok(MediaType::Dts),
            "Dmts" => Ok(MediaType::Dmts),
            "Dcts" => Ok(MediaType::Dcts),
            "JavaScript" => Ok(MediaType::JavaScript),
            "Mjs" => Ok(MediaType::Mjs),
            "Cjs" => Ok(MediaType::Cjs),
            "Jsx" => Ok(MediaType::Jsx),
            "Unknown" => Ok(MediaType::Unknown),
            _ => Err(ReadError::BadForm),
        }
    }
}

/// A text, `Npm`, `Node` or `External`, or an object of one member, `Js`, `Json` or `Wasm`.
impl FromJson for Module {
    ghost use Rattle.fast_check_tables_graph.specs.declared.module.Module.{Module};

    ghost Seen = { Module };

    ghost seen = { λ m. m };

    ghost read_of = { modules.module_of };

    fn from_json(alloc: Global, value: &Value) -> Result<Module, ReadError> {
        match read_text(value) {
            Ok(name) => module_without_source(name),
            Err(_) => module_with_source(alloc, value),
        }
    }
}

fn module_without_source(name: &str) -> Result<Module, ReadError>
    ensures { Reads (λ m. m) (modules.plain_named name.now) result }
{
    match name {
        "Npm" => Ok(Module::Npm),
        "Node" => Ok(Module::Node),
        "External" => Ok(Module::External),
        _ => Err(ReadError::BadForm),
    }
}

fn module_with_source(alloc: Global, value: &Value) -> Result<Module, ReadError>
    ensures { Reads (λ m. m) (modules.source_module_of (view value.now)) result }
{
    let (name, content) = read_variant(value)?;
    match name {
        "Js" => read_js(alloc, content),
        "Json" => Ok(Module::Json {
            source_hash: read_hash(alloc, content)?,
        }),
        "Wasm" => Ok(Module::Wasm {
            source_hash: read_hash(alloc, content)?,
        }),
        _ => Err(ReadError::BadForm),
    }
}

fn read_js(alloc: Global, value: &Value) -> Result<Module, ReadError>
    ensures { Reads (λ m. m) (modules.js_of (view value.now)) result }
{
    Ok(Module::Js {
        media_type: read_member(alloc, value, "media_type")?,
        has_types_dependency: read_flag(value, "has_types_dependency")?,
        source_hash: read_option(alloc, value, "source_hash")?,
    })
}

/// The hash of an object's source, if it is known.
fn read_hash(alloc: Global, value: &Value) -> Result<Option<u64>, ReadError>
    ensures { Reads (λ hash. hash) (modules.hash_of (view value.now)) result }
{
    read_members(value)?;
    read_option(alloc, value, "source_hash")
}
