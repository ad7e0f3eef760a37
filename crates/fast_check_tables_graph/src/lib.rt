//! The modules of a program: the graph that they were loaded into, and the tables of each by its name.
#![tactic(auto)]

mod graph;
mod module;
mod root_symbol;

pub use graph::ModuleGraph;
pub use module::Module;
pub use root_symbol::{AnyModuleInfo, RootSymbol};
