//! Imports, and exports of names: what stands in them nests in nothing of its kind.
#![tactic(auto)]

mod exports;
mod imports;

pub use exports::{export_names, export_star};
pub use imports::{eat_type, import, import_equals};
