//! The comments of a text, each at a token of its tree, as swc attaches them.
#![tactic(auto)]

mod attach;
mod bytes;
mod leaves;

pub use attach::comments_of;
