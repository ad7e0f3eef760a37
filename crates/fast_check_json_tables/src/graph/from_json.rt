//! What is read of JSON by its type.
ghost use Rattle.std.specs.Prelude.{◌≡◌, List, Option, map, option_map, string_bytes, IfErr};
ghost use Rattle.std.specs.Result.{result_ok};
ghost use Rattle.serde_json.specs.Data.{Data};
ghost use Rattle.serde_json.specs.Find.{as_array, as_str};
ghost use Rattle.serde_json.specs.View.{view};
ghost use Rattle.fast_check_json_tables.specs.graph.Reads.{Reads, given, list_of, both_of, only_three, three_of, or_null};

use crate::graph::gather::{both, gather_all};
use fast_check_read::{ReadError, read_array, read_pair, read_text};
use serde_json::Value;
use std::alloc::Global;

/// A value that is read of JSON.
pub trait FromJson: Drop {
    // What contracts see of a value.
    ghost Seen: { Type 0 };

    ghost seen: { Self → Seen };

    // The value that JSON stands for, if it stands for one.
    ghost read_of: { Data → Option Seen };

    /// The value that the JSON stands for. `BadForm` where it stands for none.
    fn from_json(alloc: Global, value: &Value) -> Result<Self, ReadError>
        ensures { Reads seen (read_of (view value.now)) result };
}

/// The most items for which an array has room before they are read. A longer one takes more as they come, so what is refused holds little.
const FIRST_ROOM: usize = 16_384;

/// An array.
impl<T: FromJson> FromJson for Vec<T> {
    ghost Seen = { List T.Seen };

    ghost seen = { λ v. map T.seen v.items };

    ghost read_of = { list_of T.read_of };

    fn from_json(alloc: Global, value: &Value) -> Result<Vec<T>, ReadError> {
        let room = read_array(value)?.len().min(FIRST_ROOM);
        gather_all(alloc, value, Vec::with_capacity(alloc, room)?)
    }
}

/// An array of two.
impl<A: FromJson, B: FromJson> FromJson for (A, B) {
    ghost Seen = { A.Seen × B.Seen };

    ghost seen = { λ p. (A.seen p.0, B.seen p.1) };

    ghost read_of = { both_of A.read_of B.read_of };

    fn from_json(alloc: Global, value: &Value) -> Result<(A, B), ReadError> {
        let (first, second) = read_pair(value)?;
        both(A::from_json(alloc, first), B::from_json(alloc, second))
    }
}

/// An array of three.
impl<A: FromJson, B: FromJson, C: FromJson> FromJson for (A, B, C) {
    ghost Seen = { A.Seen × B.Seen × C.Seen };

    ghost seen = { λ p. (A.seen p.0, B.seen p.1, C.seen p.2) };

    ghost read_of = { three_of A.read_of B.read_of C.read_of };

    fn from_json(alloc: Global, value: &Value) -> Result<(A, B, C), ReadError> {
        let (first, second, third) = read_three(value)?;
        let first_two = both(A::from_json(alloc, first), B::from_json(alloc, second));
        let ((first, second), third) = both(first_two, C::from_json(alloc, third))?;
        Ok((first, second, third))
    }
}

/// The items of an array of three.
fn read_three(value: &Value) -> Result<(&Value, &Value, &Value), ReadError>
    ensures items { option_map (λ t. (view t.0.now, view t.1.now, view t.2.now)) (result_ok result) ≡ given (as_array (view value.now)) only_three }
    ensures err { IfErr result (λ error. error ≡ ReadError.BadForm) }
{
    match read_array(value)?.as_slice() {
        [first, second, third] => Ok((first, second, third)),
        _ => Err(ReadError::BadForm),
    }
}

/// Null, or a value.
impl<T: FromJson> FromJson for Option<T> {
    ghost Seen = { Option T.Seen };

    ghost seen = { option_map T.seen };

    ghost read_of = { or_null T.read_of };

    fn from_json(alloc: Global, value: &Value) -> Result<Option<T>, ReadError> {
        match value {
            Value::Null => Ok(None),
            _ => Ok(Some(T::from_json(alloc, value)?)),
        }
    }
}

impl FromJson for String {
    ghost use Rattle.std.specs.Prelude.{ℕ};

    ghost Seen = { List ℕ };

    ghost seen = { string_bytes };

    ghost read_of = { as_str };

    fn from_json(alloc: Global, value: &Value) -> Result<String, ReadError> {
        Ok(String::from_str(alloc, read_text(value)?)?)
    }
}
