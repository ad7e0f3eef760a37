//! The names that a public surface is asked for: sets of demanded names.
#![tactic(auto)]

pub mod lattice;
mod module_maps;

pub use crate::lattice::{Exports, FileDepName, ImportedExports, NamedSubset};
pub use crate::module_maps::{HandledExports, PendingTrace, PendingTraces};
