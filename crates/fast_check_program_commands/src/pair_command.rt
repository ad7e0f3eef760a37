//! The command `pair`: what it answers to the bytes of its file.

mod answer;
mod command;
mod input;
mod request;

pub use crate::pair_command::command::answer_pair;
