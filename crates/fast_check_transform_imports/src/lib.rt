//! Imports and exports: those that stay in the skeleton of a module, and the sources that a skeleton depends on.
#![tactic(auto)]

mod imports_exports;
pub mod module_facts;
mod relative;
mod sources;

pub use fast_check_meaning_skeleton as skeleton;
pub use fast_check_tables_diagnostics::parsed_source::StaticSource;
pub use fast_check_transform_nodes as nodes;
pub use imports_exports::transform_import_export;
pub use module_facts::{ModuleFacts, relative_source};
pub use relative::RelativeSources;
pub use sources::static_sources;
