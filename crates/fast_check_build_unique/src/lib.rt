//! The law of hidden edits for whole packages.
#![tactic(auto)]

mod law;

pub use law::hidden_edit_of_packages;
