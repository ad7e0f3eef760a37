//! What stands of classes and their members where a type checker is to read them without inference.
#![tactic(auto)]

pub mod class_nodes;
mod classes;
mod constructors;
mod copies;
mod members;
mod properties;

pub use classes::{ambient_class, transform_class};
pub use fast_check_transform_expressions as expressions;
