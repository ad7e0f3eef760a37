//! The command `transform`: what it answers to the bytes of its file.
#![tactic(auto)]

mod answer;
mod command;
mod only;

pub use command::answer_transform;
pub use only::Transform;
