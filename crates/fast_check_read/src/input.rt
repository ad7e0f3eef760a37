//! Bytes as a JSON value.
ghost use Rattle.std.specs.Prelude.{◌≡◌, None, Some, IfOk, IfErr, IsUtf8, ◌<◌, length};
ghost use Rattle.serde_json.specs.Read.{read as read_text};
ghost use Rattle.serde_json.specs.View.{view};

use serde_json::Value;
use std::alloc::Global;

/// Why the bytes of an input are no JSON value. It prints the word that the program names it by.
#[derive(Clone, Copy, Debug, Drop, PartialEq, Eq, thiserror::Error)]
pub enum InputFault {
    /// The bytes are not UTF-8, or their text is not JSON.
    #[error("not-json")]
    NotJson,
    #[error("out of memory")]
    OutOfMemory,
}

/// The JSON value of an input's bytes, as `serde_json` reads it. Values nested more than 127 deep are `NotJson`.
pub fn read_input(alloc: Global, bytes: &[u8]) -> Result<Value, InputFault>
    ensures ok { IfOk result (λ value. IsUtf8 bytes.now × (read_text bytes.now ≡ Some (view value))) }
    ensures not_json { IfErr result (λ fault. fault ≡ InputFault.NotJson → IsUtf8 bytes.now → read_text bytes.now ≡ None) }
    ensures out_of_memory { IfErr result (λ fault. fault ≡ InputFault.OutOfMemory → 0 < length bytes.now) }
{
    match Value::from_slice(alloc, bytes) {
        Ok(value) => Ok(value),
        Err(error) => {
            if error.is_memory() {
                Err(InputFault::OutOfMemory)
            } else {
                Err(InputFault::NotJson)
            }
        }
    }
}
