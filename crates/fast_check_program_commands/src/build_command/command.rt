//! The command `build`: the request in the bytes of its file, and its answer.

ghost use Rattle.std.specs.Prelude.{◌<◌, IfOk, IfErr};
ghost use Rattle.fast_check_program_requests.specs.Run.{IsOfBytes};
ghost use Rattle.fast_check_program_commands.specs.build_command.Build.{IsAnswerTo, RefusesBytes};

use crate::build_command::request::answer_request;
use fast_check_program_requests::build_requests::read_build;
use fast_check_program_requests::{Answer, Refusal};
use std::alloc::Global;

/// The answer to the bytes of a file, or why they are refused. They are dropped when the request is read.
pub fn answer_build(alloc: Global, bytes: Vec<u8>) -> Result<Answer, Refusal>
    ensures answer { IfOk result (λ answer. IsAnswerTo bytes.items answer.line.items answer.status) }
    ensures status { IfOk result (λ answer. answer.status < 2) }
    ensures refusal { IfErr result (λ refusal. RefusesBytes refusal bytes.items) }
    ensures of_bytes { IfErr result IsOfBytes }
{
    answer_request(alloc, read_build(alloc, bytes)?)
}
