//! The scopes that the names of a tree are resolved in, as swc numbers them.
#![tactic(auto)]

mod binds;
mod numbers;
mod scope;
mod types;
mod visit;

pub use visit::with_scopes;
