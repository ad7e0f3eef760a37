//! The command `build`: what it answers to the bytes of its file.

mod answer;
mod command;
mod request;

pub use crate::build_command::command::answer_build;
