//! The rules of statements, declarations, classes and exports.
#![tactic(auto)]

mod classes;
mod declarations;
mod exports;
mod flow;
mod loops;
mod members;
mod modifiers;
mod namespaces;
mod statements;

pub use statements::Statements;
