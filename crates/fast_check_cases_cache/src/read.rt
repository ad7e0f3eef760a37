//! What is read of a run of builds beside its requests.

use crate::run_cache::{RunCache, Traits};
use fast_check_cases::Said;
use fast_check_json_tables::{read_list, read_option};
use fast_check_read::{ReadError, read_array, read_optional_flag, read_text};
use fast_check_tables_cache::{FastCheckCacheItem, HASH_SEED};
use fast_check_tables_packages::PackageNv;
use serde_json::Value;
use std::alloc::{AllocError, Global};
use std::collections::BTreeSet;
use url::Url;

/// A run: builds with one cache, one after the other.
#[derive(Clone, Copy)]
pub struct Run {
    pub traits: Traits,
    /// How many times each request is built.
    pub times: u64,
}

/// The item of a package: its entry points and its dependencies.
type Row = (PackageNv, Vec<Url>, Vec<PackageNv>);

/// These items in order, none if memory runs out: then nothing is a text any more.
fn ordered<T: Ord + Drop>(alloc: Global, items: Vec<T>, said: &mut Said) -> BTreeSet<T> {
    let made: Result<BTreeSet<T>, AllocError> = items.into_iter().collect(alloc);
    match made {
        Ok(set) => set,
        Err(_) => {
            said.lack();
            BTreeSet::new(alloc)
        }
    }
}

fn read_traits(alloc: Global, value: &Value) -> Result<Traits, ReadError> {
    let has_own_seed = read_optional_flag(value.get("own_seed"))?;
    Ok(Traits {
        seed: if has_own_seed { "example 1" } else { HASH_SEED },
        has_one_key: read_optional_flag(value.get("one_key"))?,
        refused_get: read_option(alloc, value, "refused_get")?,
        refused_set: read_option(alloc, value, "refused_set")?,
    })
}

/// Fills a cache with the item of a package, which has no modules.
fn fill_row(alloc: Global, row: Row, cache: &mut RunCache, said: &mut Said) {
    let (package_nv, entrypoints, dependencies) = row;
    let entrypoints = ordered(alloc, entrypoints, said);
    let item = FastCheckCacheItem {
        dependencies: ordered(alloc, dependencies, said),
        modules: Vec::new(alloc),
    };
    said.note(cache.fill(&package_nv, &entrypoints, item));
}

fn fill_rows(alloc: Global, rows: Vec<Row>, cache: &mut RunCache, said: &mut Said) {
    for row in rows {
        fill_row(alloc, row, cache, said);
    }
}

/// Says what is wrong with a run.
pub fn say_refused(error: ReadError, said: &mut Said) {
    match error {
        ReadError::BadForm => said.say("\n  bad form"),
        ReadError::OutOfMemory => said.lack(),
    }
}

/// Fills a cache with the items of a run.
pub fn fill(alloc: Global, value: &Value, cache: &mut RunCache, said: &mut Said) {
    let rows: Result<Vec<Row>, ReadError> = read_list(alloc, value, "items");
    match rows {
        Ok(rows) => fill_rows(alloc, rows, cache, said),
        Err(error) => say_refused(error, said),
    }
}

/// Reads `{"own_seed": false, "one_key": false, "refused_get": 2, "refused_set": 2, "items": [[PACKAGE, [URL, ..], [PACKAGE, ..]], ..],
/// "times": 2, "builds": [..]}` without the items and the builds. All but `builds` may be left out.
pub fn read_run(alloc: Global, value: &Value) -> Result<Run, ReadError> {
    Ok(Run {
        traits: read_traits(alloc, value)?,
        times: read_option(alloc, value, "times")?.unwrap_or(1),
    })
}

/// The requests of a run.
pub fn read_builds(value: &Value) -> Result<&Vec<Value>, ReadError> {
    read_array(value.get("builds").ok_or(ReadError::BadForm)?)
}

/// The name of a run.
pub fn read_name(value: &Value) -> Result<&str, ReadError> {
    read_text(value.get("name").ok_or(ReadError::BadForm)?)
}
