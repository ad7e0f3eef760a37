//! Text from syntax trees: what the printers of types, values and items share. The text, its comments and its lines.
//!
//! A list stands on one line, or has a line for each of its parts. What is printed decides, and not how the source was laid out.
#![tactic(auto)]

mod comments;
mod layout;
mod lists;
mod printer;
mod strings;
mod tokens;

pub use lists::{after_start, before_end};
pub use printer::{Printer, range_of};
