//! What is found of packages, as it is answered: by package and module.
#![tactic(auto)]

pub mod entries;
pub mod findings;
mod modules;
mod packages;
mod ranges;

pub use ranges::package_ranges;
