//! What the public face of a declaration refers to, by its tree.
#![tactic(auto)]

pub mod declared;
pub mod dependencies;
pub mod functions;
pub mod keys;
mod members;
pub mod names;
pub mod returns;
mod values;
