//! A map of a list of entries, of which the last of a key counts.
ghost use Rattle.std.specs.Prelude.{◌≡◌, IfOk};
ghost use Rattle.std.specs.BTreeMap.{get, IsOrdered};
ghost use Rattle.std.specs.Ordering.{eq_by_cmp};
ghost use Rattle.fast_check_tables_symbols.specs.Entries.{last_value};

use std::alloc::{AllocError, Global};
use std::collections::BTreeMap;

/// The map of these entries. Of entries with one key the last counts. They are put one by one, since `collect` passes over a request for room that is refused.
pub fn map_of<K: Ord + Drop, V: Drop>(
    alloc: Global,
    entries: Vec<(K, V)>,
) -> Result<BTreeMap<K, V>, AllocError>
    ensures got { IfOk result (λ map. (key : K) → get K.cmp map key ≡ last_value (λ k. eq_by_cmp K.cmp k key) entries.items) }
    ensures ordered { IfOk result (IsOrdered K.cmp) }
{
    let mut map = BTreeMap::new(alloc);
    for (key, value) in entries {
        map.insert(key, value)?;
    }
    Ok(map)
}
