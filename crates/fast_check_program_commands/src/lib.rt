//! The program `fast-check`: all that it does with its words and its file, but for opening the file.
#![tactic(auto)]

pub mod build_command;
mod command;
pub mod pair_command;
mod program;

pub use command::AnyCommand;
pub use fast_check_program_requests::{
    Ending, LineWriter, Lines, Refusal, read_call, run_commands,
};
pub use program::run;
