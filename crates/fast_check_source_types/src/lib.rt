//! The rules of types, of members of interfaces, of type parameters and of patterns.
#![tactic(auto)]

mod annotations;
mod look_ahead;
mod mapped;
mod members;
mod patterns;
mod primary;
mod types;

pub use look_ahead::sees_index;
pub use types::Types;
