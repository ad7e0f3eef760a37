//! Whether a JSON value holds a number as a float.
ghost use Rattle.std.specs.Prelude.{◌≡◌};
ghost use Rattle.serde_json.specs.View.{view, items_view, members_view};
ghost use Rattle.serde_json.specs.Written.{has_float as holds_float, items_have_float, members_have_float};

use serde_json::{Map, Value};

/// Whether a number anywhere in the value is held as a float, as `1.0` and `1e3` are. No form has one, and an input with one is refused.
#[cycle(float)]
pub fn has_float(value: &Value) -> bool
    ensures { result ≡ holds_float (view value.now) }
{
    match value {
        Value::Number(number) => number.is_f64(),
        Value::Array(items) => items_with_float(items),
        Value::Object(members) => members_with_float(members),
        _ => false,
    }
}

#[cycle(float)]
fn items_with_float(items: &Vec<Value>) -> bool
    ensures { result ≡ items_have_float (items_view items.now.items) }
{
    for item in items {
        if has_float(item) {
            return true;
        }
    }
    false
}

#[cycle(float)]
fn members_with_float(members: &Map<String, Value>) -> bool
    ensures { result ≡ members_have_float (members_view members.now.entries) }
{
    for (_, member) in members.iter() {
        if has_float(member) {
            return true;
        }
    }
    false
}

/// Whether a number anywhere in the value is held as a float. The value is dropped as it is looked at, each item of an array for itself, so that it passes
/// through the cache once.
#[cycle(dropped)]
pub fn had_float(value: Value) -> bool
    ensures { result ≡ holds_float (view value) }
{
    match value {
        Value::Array(items) => items_had_float(items),
        Value::Object(members) => members_had_float(members),
        single => has_float(&single),
    }
}

fn items_had_float(items: Vec<Value>) -> bool
    ensures { result ≡ items_have_float (items_view items.items) }
{
    for item in items {
        if has_float(&item) {
            return true;
        }
    }
    false
}

#[cycle(dropped)]
fn members_had_float(members: Map<String, Value>) -> bool
    ensures { result ≡ members_have_float (members_view members.entries) }
{
    for (_, member) in members {
        if had_float(member) {
            return true;
        }
    }
    false
}
