//! Modules as they are handed in.

ghost use Rattle.std.specs.Prelude.{option_map};
ghost use Rattle.fast_check_program_requests.specs.build_requests.ModuleParts as parts;

use crate::{EsModuleParts, read_es_module};
use fast_check_json_tables::{FromJson, read_member, read_module_tables, read_variant};
use fast_check_read::ReadError;
use fast_check_tables_diagnostics::parsed_source::ModuleSpecifier;
use fast_check_tables_modules::ModuleTables;
use serde_json::Value;
use std::alloc::Global;

/// A JSON module as it is handed in. Nothing has checked its tables.
#[derive(Drop)]
pub struct JsonModuleParts {
    pub specifier: ModuleSpecifier,
    pub tables: ModuleTables,
}

/// An object of the member `specifier`, and of those of tables.
impl FromJson for JsonModuleParts {
    ghost Seen = { parts.SeenJsonModule };

    ghost seen = { parts.json_module };

    ghost read_of = { parts.json_module_of };

    fn from_json(alloc: Global, value: &Value) -> Result<JsonModuleParts, ReadError> {
        Ok(JsonModuleParts {
            specifier: read_member(alloc, value, "specifier")?,
            tables: read_module_tables(alloc, value)?,
        })
    }
}

/// A module as it is handed in.
#[derive(Drop)]
pub enum ModuleParts {
    Esm(EsModuleParts),
    Json(JsonModuleParts),
}

/// An object of one member: `Esm` or `Json`.
impl FromJson for ModuleParts {
    ghost Seen = { parts.SeenModule };

    ghost seen = { parts.module_parts };

    ghost read_of = { parts.module_parts_of };

    fn from_json(alloc: Global, value: &Value) -> Result<ModuleParts, ReadError> {
        let (name, content) = read_variant(value)?;
        match name {
            "Esm" => Ok(ModuleParts::Esm(read_es_module(alloc, content)?)),
            "Json" => Ok(ModuleParts::Json(FromJson::from_json(alloc, content)?)),
            _ => Err(ReadError::BadForm),
        }
    }
}
