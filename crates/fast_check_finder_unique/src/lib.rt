//! The laws of a unique public API: when every account of an input yields the same, and what a hidden edit leaves unchanged.
#![tactic(auto)]

mod law;

pub use law::{carried, hidden_edit, one_answer, one_api};
