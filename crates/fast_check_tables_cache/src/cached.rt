//! The item that a cache keeps of a package, where it may be used.
ghost use Rattle.std.specs.Prelude.{◌≡◌, ◌==◌, None, map, option_map, IfOk, MatchOption};
ghost use Rattle.url.specs.Parts.{serialize};
ghost use Rattle.fast_check_tables_packages.specs.Package.{nv_of};
ghost use Rattle.std.specs.List.{list_all};
ghost use Rattle.fast_check_tables_cache.specs.Cache.{item_of, source_hash_of};
ghost use Rattle.fast_check_tables_cache.specs.CachedPackages.{source_hash, usable, used_item};

use crate::cache::{FastCheckCache, FastCheckCacheKey};
use crate::item::{FastCheckCacheItem, FastCheckCacheModuleItem};
use fast_check_tables_graph::ModuleGraph;
use fast_check_tables_packages::PackageNv;
use std::alloc::AllocError;
use std::collections::BTreeSet;
use url::Url;

/// The hash of a module's source, 0 where the graph has none or lacks the module.
pub fn source_hash(graph: &ModuleGraph, specifier: &Url) -> u64
    ensures { result ≡ source_hash graph.now specifier.now }
{
    match graph.get(specifier) {
        Some(module) => module.source_hash().unwrap_or(0),
        None => 0,
    }
}

/// Whether each of these modules has the source that it was kept with.
fn have_sources(graph: &ModuleGraph, modules: &[(Url, FastCheckCacheModuleItem)]) -> bool
    ensures { result ≡ list_all (λ m. source_hash_of m.1 == source_hash graph.now m.0) modules.now }
{
    modules.iter().all(|(specifier, module)| module.source_hash() == source_hash(graph, specifier))
}

/// Whether each module of an item has the source that it was kept with.
fn is_usable(graph: &ModuleGraph, item: &FastCheckCacheItem) -> bool
    ensures { result ≡ usable graph.now (item_of item.now) }
{
    have_sources(graph, &item.modules)
}

/// The key that a cache keeps the item of a package under.
pub fn key_of(
    cache: &dyn FastCheckCache,
    seed: &str,
    nv: &PackageNv,
    entrypoints: &BTreeSet<Url>,
) -> FastCheckCacheKey
    ensures { result ≡ hash_of cache.now seed.now (nv_of nv.now) (map serialize entrypoints.now.keys) }
{
    FastCheckCacheKey::build(cache.key_hash(seed, nv, entrypoints))
}

/// The item of a package that is used: that which the cache has under the key of the package, if each of its modules has the source that it was
/// kept with. None without a cache. `AllocError` if memory runs out.
pub fn look_up(
    cache: Option<&dyn FastCheckCache>,
    seed: &str,
    graph: &ModuleGraph,
    nv: &PackageNv,
    entrypoints: &BTreeSet<Url>,
) -> Result<Option<FastCheckCacheItem>, AllocError>
    ensures { IfOk result (λ found. MatchOption cache.entry (option_map item_of found ≡ None) (λ c. option_map item_of found
        ≡ used_item (hash_of c.now seed.now) (stored c.now) graph.now (nv_of nv.now) entrypoints.now.keys)) }
{
    let Some(cache) = cache else {
        return Ok(None);
    };
    match cache.get(key_of(cache, seed, nv, entrypoints))? {
        Some(item) if is_usable(graph, &item) => Ok(Some(item)),
        _ => Ok(None),
    }
}
