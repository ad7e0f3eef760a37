//! The transform of a module to its skeleton.
#![tactic(auto)]

mod answer;
mod context;
mod items;
mod program;
pub mod transform_faults;

pub use answer::{TransformOptions, transform};
pub use fast_check_tables_diagnostics::parsed_source::{FastCheckModule, ModuleInfo, StaticSource};
pub use program::{KeptModule, transform_es_module};
