//! The rules of expressions: operators, members and calls, and arrow functions.
#![tactic(auto)]

mod arrows;
mod calls;
mod expressions;
mod look_ahead;
mod operators;

pub use expressions::Expressions;
