//! The request in the bytes of a file.

ghost use Rattle.std.specs.Prelude.{IfOk, IfErr};
ghost use Rattle.fast_check_program_requests.specs.Input.{Lacks};
ghost use Rattle.fast_check_program_commands.specs.pair_command.Input.{HoldsPair};
ghost use Rattle.fast_check_program_commands.specs.pair_command.Request.{pair_of};

use crate::pair_command::request::{PairRequest, read_pair_request};
use fast_check_program_requests::{Refusal, take_input};
use std::alloc::Global;

/// The request of `pair` in the bytes of a file: `NotJson` where they are no JSON value, and `BadForm` where they are the JSON of no
/// request. The bytes are dropped before the request is made of the value.
pub fn read_pair_input(alloc: Global, bytes: Vec<u8>) -> Result<PairRequest, Refusal>
    ensures request { IfOk result (HoldsPair bytes.items) }
    ensures refusal { IfErr result (Lacks pair_of bytes.items) }
{
    let value = take_input(alloc, bytes)?;
    Ok(read_pair_request(alloc, &value)?)
}
