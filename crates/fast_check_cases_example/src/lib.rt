//! Packages that are read from JSON, a package that is made by hand, and two versions of a module: each is answered, and the answers are printed.
//! `fast_check_vectors` runs all three.
#![tactic(auto)]

mod alone;
mod build;
mod folder;
mod hello;

pub use alone::run_versions;
pub use build::run_example;
pub use folder::run_json;
