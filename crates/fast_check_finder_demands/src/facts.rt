//! The modules of a graph that are followed, and the package that a module belongs to.

mod graph_facts;
mod owner;

pub use crate::facts::graph_facts::{GraphFacts, info_of, is_untyped};
pub use crate::facts::owner::owner_of;
