//! What is demanded of the symbols of a module: what follows from a demand, and what it makes public.
#![tactic(auto)]

mod aliases;
pub mod asked;
pub mod facts;
mod fault;
mod follow;
pub mod name_demands;
mod names;
mod public;
pub mod re_exports;
pub mod symbol_demands;

pub use crate::symbol_demands::{Ask, Demands, Extent, Namespaces, SymbolDemand, binds};
pub use fast_check_tables_symbols::{CheckedTables, SymbolId};
pub use fast_check_tree_syntax::SourceRange;
pub use fault::{DemandFaultKind, SymbolFault, fault_of};
pub use follow::{demands_of, own_names_of};
pub use public::{push_implementations, push_ranges};
