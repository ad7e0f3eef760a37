//! What a program `fast-check` is asked: its words, the bytes of its input, the request in them, and why it has no answer. `run` does
//! what all commands share, and each answers by its own `Command`.
#![tactic(auto)]

pub mod build_requests;
mod command;
mod ending;
mod input;
mod lines;
mod program;
mod refusal;
mod request;
mod words;

pub use command::{Answer, Command};
pub use ending::Ending;
pub use input::{read_bytes, read_request, take_input};
pub use lines::{LineWriter, Lines};
pub use program::run_commands;
pub use refusal::Refusal;
pub use request::{
    EsModuleParts, TransformRequest, member, read_es_module, read_transform_request,
};
pub use words::read_call;
