//! The packages of a folder, and where the texts lead by which their modules name others.
#![tactic(auto)]

mod builds;
mod entries;
pub mod exports;
mod imports;
pub mod packages;
pub mod resolve;
