//! What is put together of several readings.

ghost use Rattle.std.specs.Prelude.{◌≡◌, List, [], ◌∷◌, ◌++◌, Option, map, option_map};
ghost use Rattle.serde_json.specs.Data.{Data};
ghost use Rattle.serde_json.specs.View.{view};
ghost use Rattle.fast_check_json_tables.specs.graph.Reads.{Reads, list_of};
ghost use Rattle.fast_check_json_tables.specs.graph.Gathered.{all_gathered, error_beside, both_read};

use crate::graph::from_json::FromJson;
use fast_check_read::{ReadError, read_array};
use serde_json::Value;
use std::alloc::Global;

/// A collection that takes items one after another.
pub trait Gather: Drop {
    // What contracts see of a collection, and of an item.
    ghost Gathered: { Type 0 };

    ghost Item: { Type 0 };

    ghost gathered: { Self → Gathered };

    // With an item more.
    ghost with: { Gathered → Item → Gathered };

    // The item that JSON stands for, if it stands for one.
    ghost item_of: { Data → Option Item };

    /// Takes the item that the JSON stands for. `BadForm` where it stands for none.
    fn gather(&mut self, alloc: Global, value: &Value) -> Result<(), ReadError>
        ensures { Reads (λ _. gathered self.new) (option_map (with (gathered self.old)) (item_of (view value.now))) result };
}

impl<T: FromJson> Gather for Vec<T> {
    ghost Gathered = { List T.Seen };

    ghost Item = { T.Seen };

    ghost gathered = { λ v. map T.seen v.items };

    ghost with = { λ items item. items ++ item ∷ [] };

    ghost item_of = { T.read_of };

    fn gather(&mut self, alloc: Global, value: &Value) -> Result<(), ReadError> {
        self.push(T::from_json(alloc, value)?)?;
        Ok(())
    }
}

/// Gathers the items of an array.
pub fn gather_all<G: Gather>(alloc: Global, value: &Value, empty: G) -> Result<G, ReadError>
    ensures { Reads G.gathered (option_map (all_gathered G.with (G.gathered empty)) (list_of G.item_of (view value.now))) result }
{
    let mut gathered = empty;
    for item in read_array(value)? {
        gathered.gather(alloc, item)?;
    }
    Ok(gathered)
}

/// An error beside what else is read: out of memory goes before.
fn error_beside<B: Drop>(error: ReadError, second: Result<B, ReadError>) -> ReadError
    ensures { result ≡ error_beside error second }
{
    match second {
        Err(ReadError::OutOfMemory) => ReadError::OutOfMemory,
        _ => error,
    }
}

/// Both values, or the error. Values that are read this way go up at one place, so none that owns memory is left beside an error.
pub fn both<A: Drop, B: Drop>(
    first: Result<A, ReadError>,
    second: Result<B, ReadError>,
) -> Result<(A, B), ReadError>
    ensures { result ≡ both_read first second }
{
    match first {
        Ok(first) => Ok((first, second?)),
        Err(error) => Err(error_beside(error, second)),
    }
}
