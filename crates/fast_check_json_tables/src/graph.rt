//! Reading JSON by the type that it stands for. Packages, members of a workspace, modules and their graph, read of JSON.

mod from_json;
mod gather;
mod graph;
mod members;
mod modules;
mod names;
mod workspace;

pub use crate::graph::from_json::FromJson;
pub use crate::graph::gather::{Gather, both, gather_all};
pub use crate::graph::graph::read_graph;
pub use crate::graph::members::{
    read_flag, read_list, read_member, read_member_or, read_option, read_variant,
};
