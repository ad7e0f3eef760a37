//! A module of one line, made by hand: its source as a parser gives it, its symbols as their analysis gives them, and both as a module of a program.
//!
//! docs/LIBRARY.md goes through it, and `fast_check_cases_example` builds the package of this module.
mod modules;
mod source;
mod symbols;

pub use crate::hello::modules::{es_module, root_symbol};
pub use crate::hello::source::{Line, hello_alone, hello_world};
