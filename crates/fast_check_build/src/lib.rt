//! The calls over packages: their public ranges, and their skeletons or diagnostics.
#![tactic(auto)]

mod finder;
mod type_graph;

pub use fast_check_build_answers as answers;
pub use fast_check_build_answers::transform_module;
pub use finder::{PublicRangeFinder, find_public_ranges};
pub use type_graph::{build_fast_check_type_graph, build_packages};
