//! The request of `fast-check build` for what was read of a folder, and how it is printed.
#![tactic(auto)]

mod graph;
mod input;
mod modules;
mod pieces;
mod symbols;

pub use crate::input::{FALLBACK, Input, Parsed, print_input};
pub use crate::pieces::Json;
