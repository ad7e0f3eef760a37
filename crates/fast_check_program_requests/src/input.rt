//! The bytes of the program's input, and the request in them.

ghost use Rattle.std.specs.Prelude.{◌≡◌, option_map, None, Some, IfOk, IfErr, IsUtf8, ◌<◌, length};
ghost use Rattle.serde_json.specs.Read.{read};
ghost use Rattle.serde_json.specs.View.{view};
ghost use Rattle.fast_check_program_requests.specs.Call.{OfFile, IsReadRefusal};
ghost use Rattle.fast_check_program_requests.specs.Input.{HoldsRequest, Lacks};
ghost use Rattle.fast_check_program_requests.specs.Request.{request_of};

use crate::refusal::Refusal;
use crate::request::{TransformRequest, read_transform_request};
use fast_check_read::{InputFault, read_input};
use serde_json::Value;
use std::alloc::Global;
use std::io::{ErrorKind, Read};

/// All bytes of an input, which is none where its file does not open. It is `Unreadable` where there is none and where reading
/// fails, also behind the first bytes, and `OutOfMemory` where the bytes find no room.
pub fn read_bytes<R: Read + Drop>(alloc: Global, input: Option<R>) -> Result<Vec<u8>, Refusal>
    ensures bytes { IfOk result (λ bytes. OfFile (λ known. bytes.items ≡ known) (option_map R.remaining input)) }
    ensures refusal { IfErr result (λ refusal. IsReadRefusal (option_map R.remaining input) refusal) }
{
    let Some(mut input) = input else {
        return Err(Refusal::Unreadable);
    };
    let mut bytes = Vec::new(alloc);
    match input.read_to_end(&mut bytes) {
        Ok(_) => Ok(bytes),
        Err(error) if error.kind() == ErrorKind::OutOfMemory => Err(Refusal::OutOfMemory),
        Err(_) => Err(Refusal::Unreadable),
    }
}

/// The JSON value of a file's bytes, which are dropped behind it.
pub fn take_input(alloc: Global, bytes: Vec<u8>) -> Result<Value, InputFault>
    ensures ok { IfOk result (λ value. IsUtf8 bytes.items × (read bytes.items ≡ Some (view value))) }
    ensures not_json { IfErr result (λ fault. fault ≡ InputFault.NotJson → IsUtf8 bytes.items → read bytes.items ≡ None) }
    ensures out_of_memory { IfErr result (λ fault. fault ≡ InputFault.OutOfMemory → 0 < length bytes.items) }
{
    read_input(alloc, bytes.as_slice())
}

/// The request of `transform` in the bytes of a file: `NotJson` where they are no JSON value, and `BadForm` where they are the JSON of
/// no request. The bytes are dropped before the request is made of the value.
pub fn read_request(alloc: Global, bytes: Vec<u8>) -> Result<TransformRequest, Refusal>
    ensures request { IfOk result (HoldsRequest bytes.items) }
    ensures refusal { IfErr result (Lacks request_of bytes.items) }
{
    let value = take_input(alloc, bytes)?;
    Ok(read_transform_request(alloc, &value)?)
}
