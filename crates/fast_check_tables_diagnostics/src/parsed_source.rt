//! A module's source, and the skeleton that answers it.

mod tables;

pub use crate::parsed_source::tables::{
    FastCheckModule, MediaType, ModuleInfo, ModuleSpecifier, ParsedSource, StaticSource,
};
