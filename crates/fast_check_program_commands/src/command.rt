//! The commands by their names, and what each answers.

ghost use Rattle.fast_check_program_commands.specs.Commands.{command_named, AnswersBytes, RefusesBytes};

use crate::build_command::answer_build;
use crate::pair_command::answer_pair;
use fast_check_program_requests::{Answer, Command, Refusal};
use fast_check_program_transform::answer_transform;
use std::alloc::Global;

/// A command of the program.
#[derive(Clone, Copy, Debug, PartialEq, Eq)]
pub enum AnyCommand {
    Transform,
    Build,
    Pair,
}

impl Command for AnyCommand {
    ghost named = { command_named };

    ghost Answers = { AnswersBytes };

    ghost Refuses = { RefusesBytes };

    fn of_name(name: &str) -> Option<AnyCommand> {
        match name {
            "transform" => Some(AnyCommand::Transform),
            "build" => Some(AnyCommand::Build),
            "pair" => Some(AnyCommand::Pair),
            _ => None,
        }
    }

    fn answer(self, alloc: Global, bytes: Vec<u8>) -> Result<Answer, Refusal> {
        match self {
            AnyCommand::Transform => answer_transform(alloc, bytes),
            AnyCommand::Build => answer_build(alloc, bytes),
            AnyCommand::Pair => answer_pair(alloc, bytes),
        }
    }
}
