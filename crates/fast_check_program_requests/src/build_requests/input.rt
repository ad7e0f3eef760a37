//! The request in the bytes of a file.

ghost use Rattle.std.specs.Prelude.{IfOk, IfErr};
ghost use Rattle.fast_check_program_requests.specs.Input.{Lacks};
ghost use Rattle.fast_check_program_requests.specs.build_requests.Input.{HoldsBuild};
ghost use Rattle.fast_check_program_requests.specs.build_requests.Request.{build_of};

use crate::build_requests::request::{BuildRequest, read_build_value};
use crate::{Refusal, take_input};
use std::alloc::Global;

/// The request of `build` in the bytes of a file: `NotJson` where they are no JSON value, and `BadForm` where they are the JSON of
/// no request. The bytes are dropped before the request is made of the value.
pub fn read_build(alloc: Global, bytes: Vec<u8>) -> Result<BuildRequest, Refusal>
    ensures request { IfOk result (HoldsBuild bytes.items) }
    ensures refusal { IfErr result (Lacks build_of bytes.items) }
{
    let value = take_input(alloc, bytes)?;
    Ok(read_build_value(alloc, value)?)
}
