//! The tables of a module by its tree: its symbols with their exports, members and declarations, and what these refer to.
#![tactic(auto)]

mod builder;
mod classes;
mod declarations;
mod exports;
mod finish;
mod items;

pub use finish::tables_of;
