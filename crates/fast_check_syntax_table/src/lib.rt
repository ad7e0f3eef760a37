//! The syntax of TypeScript as a table: what each form of the tree writes.
#![tactic(auto)]

mod classes;
mod expressions;
mod piece;
mod programs;
mod statements;
mod table;
mod types;

pub use piece::{Phrase, Piece, Slot, What, When};
pub use table::pieces;
