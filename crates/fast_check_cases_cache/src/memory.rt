//! Caches in memory, as a caller lends them: one with the seed of the rules, and one with a seed of its own.

ghost use Rattle.std.specs.Prelude.{◌≡◌};
ghost use Rattle.fast_check_cases_cache.specs.Memory.{items_at, HasNothing};
ghost use Rattle.fast_check_cases_cache.specs.Hash.{hash_package};

use crate::hash::package_hash;
use crate::items::Items;
use fast_check_tables_cache::{FastCheckCache, FastCheckCacheItem, FastCheckCacheKey, HASH_SEED};
use fast_check_tables_packages::PackageNv;
use std::alloc::{AllocError, Global};
use std::collections::BTreeSet;
use url::Url;

/// A cache in memory.
#[derive(Drop)]
pub struct MemoryCache {
    items: Items,
}

impl MemoryCache {
    /// An empty cache.
    pub fn new(alloc: Global) -> MemoryCache
        ensures { HasNothing result.items }
    {
        MemoryCache {
            items: Items::new(alloc),
        }
    }
}

impl FastCheckCache for MemoryCache {
    ghost stored = { λ cache. items_at cache.items };

    ghost hash_of = { λ _. hash_package };

    fn hash_seed(&self) -> &'static str {
        HASH_SEED
    }

    fn key_hash(&self, seed: &str, package_nv: &PackageNv, entrypoints: &BTreeSet<Url>) -> u64 {
        package_hash(seed, package_nv, entrypoints)
    }

    fn get(&self, key: FastCheckCacheKey) -> Result<Option<FastCheckCacheItem>, AllocError> {
        self.items.get(key)
    }

    fn set(&mut self, key: FastCheckCacheKey, item: FastCheckCacheItem) -> Result<(), AllocError> {
        self.items.set(key, item)
    }
}

/// A cache in memory with a seed of its own.
#[derive(Drop)]
pub struct SeededCache {
    seed: &'static str,
    items: Items,
}

impl SeededCache {
    /// An empty cache.
    pub fn new(alloc: Global, seed: &'static str) -> SeededCache
        ensures items { HasNothing result.items }
        ensures seed { result.seed.now ≡ seed.now }
    {
        SeededCache {
            seed,
            items: Items::new(alloc),
        }
    }
}

impl FastCheckCache for SeededCache {
    ghost stored = { λ cache. items_at cache.items };

    ghost seed_text = { λ cache. cache.seed.now };

    ghost hash_of = { λ _. hash_package };

    fn hash_seed(&self) -> &'static str {
        self.seed
    }

    fn key_hash(&self, seed: &str, package_nv: &PackageNv, entrypoints: &BTreeSet<Url>) -> u64 {
        package_hash(seed, package_nv, entrypoints)
    }

    fn get(&self, key: FastCheckCacheKey) -> Result<Option<FastCheckCacheItem>, AllocError> {
        self.items.get(key)
    }

    fn set(&mut self, key: FastCheckCacheKey, item: FastCheckCacheItem) -> Result<(), AllocError> {
        self.items.set(key, item)
    }
}
