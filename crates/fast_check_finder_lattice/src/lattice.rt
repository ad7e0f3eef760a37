//! Which names of a module are demanded: name sets, joined and compared.

mod calls;
mod covers;
mod differences;
mod equality;
mod exports;
mod extends;
mod imported_exports;
mod joins;
mod named_subset;
mod node;
mod nodes;
mod numbers;
mod order;
mod path;
mod reaches;

pub use crate::lattice::imported_exports::ImportedExports;
pub use crate::lattice::named_subset::{Exports, NamedSubset};
pub use fast_check_tables_symbols::FileDepName;
