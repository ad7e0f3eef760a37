//! Flags, numbers, texts, ranges, pairs and members, read of JSON.
ghost use Rattle.std.specs.Prelude.{◌≡◌, None, option_map, IfOk, IfErr};
ghost use Rattle.std.specs.Option.{ok_or};
ghost use Rattle.std.specs.Result.{result_ok};
ghost use Rattle.serde_json.specs.Find.{as_array, as_bool, as_object, as_str};
ghost use Rattle.serde_json.specs.declared.value.Value.{Array, Object};
ghost use Rattle.serde_json.specs.View.{view};
ghost use Rattle.fast_check_read.specs.Pieces.{u32_of, u64_of, optional_flag_of, pair_of, range_of_data};

use crate::error::ReadError;
use fast_check_tree_syntax::{SourcePos, SourceRange};
use serde_json::{Map, Value};

/// A flag.
pub fn read_bool(value: &Value) -> Result<bool, ReadError>
    ensures { result ≡ ok_or (as_bool (view value.now)) ReadError.BadForm }
{
    value.as_bool().ok_or(ReadError::BadForm)
}

/// A whole number below 2^64, that is not held as a float.
pub fn read_u64(value: &Value) -> Result<u64, ReadError>
    ensures { result ≡ ok_or (u64_of (view value.now)) ReadError.BadForm }
{
    value.as_u64().ok_or(ReadError::BadForm)
}

/// A whole number below 2^32, that is not held as a float.
pub fn read_u32(value: &Value) -> Result<u32, ReadError>
    ensures { result ≡ ok_or (u32_of (view value.now)) ReadError.BadForm }
{
    match value.as_u64() {
        Some(number) if number <= u32::MAX as u64 => Ok(number as u32),
        _ => Err(ReadError::BadForm),
    }
}

/// A text.
pub fn read_text(value: &Value) -> Result<&str, ReadError>
    ensures text { option_map (λ text. text.now) (result_ok result) ≡ as_str (view value.now) }
    ensures err { IfErr result (λ error. error ≡ ReadError.BadForm) }
{
    value.as_str().ok_or(ReadError::BadForm)
}

/// A range: an array of its start and its end.
pub fn read_range(value: &Value) -> Result<SourceRange, ReadError>
    ensures { result ≡ ok_or (range_of_data (view value.now)) ReadError.BadForm }
{
    let (start, end) = read_pair(value)?;
    Ok(SourceRange {
        start: SourcePos(read_u32(start)?),
        end: SourcePos(read_u32(end)?),
    })
}

/// The items of an array of two.
pub fn read_pair(value: &Value) -> Result<(&Value, &Value), ReadError>
    ensures pair { option_map (λ p. (view p.0.now, view p.1.now)) (result_ok result) ≡ pair_of (view value.now) }
    ensures err { IfErr result (λ error. error ≡ ReadError.BadForm) }
{
    match read_array(value)?.as_slice() {
        [first, second] => Ok((first, second)),
        _ => Err(ReadError::BadForm),
    }
}

/// A flag that may be left out, and is then false. A null is no flag.
pub fn read_optional_flag(value: Option<&Value>) -> Result<bool, ReadError>
    ensures { result ≡ ok_or (optional_flag_of (option_map (λ v. view v.now) value.entry)) ReadError.BadForm }
{
    value.map_or(Ok(false), read_bool)
}

/// The members of an object.
pub fn read_members(value: &Value) -> Result<&Map<String, Value>, ReadError>
    ensures ok { IfOk result (λ members. value.now ≡ Object members.now) }
    ensures err { IfErr result (λ error. (error ≡ ReadError.BadForm) × (as_object (view value.now) ≡ None)) }
{
    match value {
        Value::Object(members) => Ok(members),
        _ => Err(ReadError::BadForm),
    }
}

/// The items of an array.
pub fn read_array(value: &Value) -> Result<&Vec<Value>, ReadError>
    ensures ok { IfOk result (λ items. value.now ≡ Array items.now) }
    ensures err { IfErr result (λ error. (error ≡ ReadError.BadForm) × (as_array (view value.now) ≡ None)) }
{
    match value {
        Value::Array(items) => Ok(items),
        _ => Err(ReadError::BadForm),
    }
}
