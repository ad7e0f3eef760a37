//! Whether a text is what a tree writes.
#![tactic(auto)]

mod guards;
mod place;
mod reads;
mod walk;

pub use walk::is_written;
