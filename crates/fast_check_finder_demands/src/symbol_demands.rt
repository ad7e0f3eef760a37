//! Demands of the symbols of a module, lists of them, and what follows where a symbol itself is demanded in a set of namespaces.

mod bindings;
mod children;
mod decls;
mod demand;
mod dependencies;
mod list;

pub use crate::symbol_demands::bindings::{bound, push_path, push_reference};
pub use crate::symbol_demands::children::push_symbol;
pub use crate::symbol_demands::decls::{binds, is_function};
pub use crate::symbol_demands::demand::{Ask, Extent, Namespaces, SymbolDemand};
pub use crate::symbol_demands::dependencies::is_same;
pub use crate::symbol_demands::list::Demands;
