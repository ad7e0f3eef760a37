//! Members of an object, and what stands for those that are left out.

ghost use Rattle.std.specs.Prelude.{◌≡◌, [], option_map, IfErr, map};
ghost use Rattle.std.specs.Option.{ok_or};
ghost use Rattle.std.specs.Result.{result_ok};
ghost use Rattle.serde_json.specs.View.{view};
ghost use Rattle.fast_check_json_tables.specs.graph.Reads.{Reads, needed, member_or, listed, optional, flagged, variant_of};

use crate::graph::from_json::FromJson;
use fast_check_read::{ReadError, read_members, read_optional_flag};
use serde_json::Value;
use std::alloc::Global;

/// A member that has to stand.
pub fn read_member<T: FromJson>(alloc: Global, value: &Value, name: &str) -> Result<T, ReadError>
    ensures { Reads T.seen (needed T.read_of name.now (view value.now)) result }
{
    match value.get(name) {
        Some(member) => T::from_json(alloc, member),
        None => Err(ReadError::BadForm),
    }
}

/// A member, or the default where it is left out.
pub fn read_member_or<T: FromJson>(
    alloc: Global,
    value: &Value,
    name: &str,
    default: T,
) -> Result<T, ReadError>
    ensures { Reads T.seen (member_or (T.seen default) T.read_of name.now (view value.now)) result }
{
    match value.get(name) {
        Some(member) => T::from_json(alloc, member),
        None => Ok(default),
    }
}

/// A list, which is empty where it is left out.
pub fn read_list<T: FromJson>(alloc: Global, value: &Value, name: &str) -> Result<Vec<T>, ReadError>
    ensures { Reads (λ v. map T.seen v.items) (listed T.read_of name.now (view value.now)) result }
{
    read_member_or(alloc, value, name, Vec::new(alloc))
}

/// An option, which is none where it is left out.
pub fn read_option<T: FromJson>(
    alloc: Global,
    value: &Value,
    name: &str,
) -> Result<Option<T>, ReadError>
    ensures { Reads (option_map T.seen) (optional T.read_of name.now (view value.now)) result }
{
    read_member_or(alloc, value, name, None)
}

/// A flag, which is false where it is left out.
pub fn read_flag(value: &Value, name: &str) -> Result<bool, ReadError>
    ensures { result ≡ ok_or (flagged name.now (view value.now)) ReadError.BadForm }
{
    read_optional_flag(value.get(name))
}

/// The one member of an object: its name and its content.
pub fn read_variant(value: &Value) -> Result<(&str, &Value), ReadError>
    ensures variant { option_map (λ v. (v.0.now, view v.1.now)) (result_ok result) ≡ variant_of (view value.now) }
    ensures err { IfErr result (λ error. error ≡ ReadError.BadForm) }
{
    let mut entries = read_members(value)?.iter();
    match (entries.next(), entries.next()) {
        (Some((name, content)), None) => Ok((name.as_str(), content)),
        _ => Err(ReadError::BadForm),
    }
}
