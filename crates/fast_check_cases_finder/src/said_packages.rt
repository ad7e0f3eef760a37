//! What is found of packages, as text.
mod packages;

pub use crate::said_packages::packages::say_packages;
