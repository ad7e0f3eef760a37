//! A program of the one command.

ghost use Rattle.fast_check_program_transform.specs.Only.{transform_named};
ghost use Rattle.fast_check_program_transform.specs.Transform.{IsAnswerTo, RefusesBytes};

use crate::command::answer_transform;
use fast_check_program_requests::{Answer, Command, Refusal};
use std::alloc::Global;

/// The command `transform`, as the one command of a program.
#[derive(Clone, Copy, Debug, PartialEq, Eq)]
pub struct Transform;

impl Command for Transform {
    ghost named = { transform_named };

    ghost Answers = { λ _. IsAnswerTo };

    ghost Refuses = { λ _ bytes refusal. RefusesBytes refusal bytes };

    fn of_name(name: &str) -> Option<Transform> {
        if name == "transform" {
            Some(Transform)
        } else {
            None
        }
    }

    fn answer(self, alloc: Global, bytes: Vec<u8>) -> Result<Answer, Refusal> {
        answer_transform(alloc, bytes)
    }
}
