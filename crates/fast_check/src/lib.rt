//! Fast check: what is public in packages, and the skeletons of their modules. A user names this crate alone: it offers all calls but those of
//! JSON, sorted as the modules of deno_graph are. docs/LIBRARY.md says what to call, in which order.
#![tactic(auto)]

/// Syntax trees: the plain tree, its forms under swc's names, and the kinds of nodes.
pub use fast_check_tree as tree;

/// Comments by position.
pub use fast_check_tree::comments;

/// New nodes, and the types that values show by themselves.
pub use fast_check_tree::helpers;

/// The graph of modules, the source and the tables of a module, and packages.
pub use fast_check_tables as tables;

/// The public ranges of a module, and diagnostics.
pub use fast_check_tables::diagnostics;

/// Sets of demanded names, and the modules that were followed or wait.
pub use fast_check_tables::lattice;

/// What a caller lends, and why a build stops.
pub use fast_check_tables::provider;

/// The skeleton of a module.
pub use fast_check_transform as transform;

/// What a cache keeps.
pub use fast_check_transform::cache;

/// What is public in packages.
pub mod range_finder {
    pub use fast_check_build::{PublicRangeFinder, find_public_ranges};
    pub use fast_check_tables_cache::PackagePublicRanges;
    pub use fast_check_tables_modules::diagnostics::ModulePublicRanges;
    pub use fast_check_tables_packages::BuildFault;
}

/// The skeletons of packages, or what is wrong with them.
pub mod build {
    pub use fast_check_build::build_fast_check_type_graph;
    pub use fast_check_build_answers::ModuleAnswer;
    pub use fast_check_tables_packages::BuildFault;
}

/// What is promised beyond the contracts of the calls.
pub mod laws {
    pub use fast_check_build_answers::first_alone;
    pub use fast_check_meaning_skeleton::{hash_mark, two_worlds};
}

pub use fast_check_build::{PublicRangeFinder, build_fast_check_type_graph, find_public_ranges};
