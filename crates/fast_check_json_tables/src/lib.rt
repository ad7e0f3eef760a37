//! Reading the JSON of symbols and of a module's tables.
#![tactic(auto)]

pub mod graph;
mod symbols;
mod tables;

pub use crate::graph::{
    FromJson, read_flag, read_graph, read_list, read_member, read_member_or, read_option,
    read_variant,
};
pub use tables::read_module_tables;
