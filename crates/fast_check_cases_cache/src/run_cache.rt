//! A cache in memory that says what is set, for runs of builds.

ghost use Rattle.std.specs.Prelude.{◌≡◌};
ghost use Rattle.fast_check_cases_cache.specs.Memory.{items_at, HasNothing};
ghost use Rattle.fast_check_cases_cache.specs.Hash.{hash_in};

use crate::hash::package_hash;
use crate::items::Items;
use crate::said_answers::say_item;
use fast_check_cases::Said;
use fast_check_tables_cache::{FastCheckCache, FastCheckCacheItem, FastCheckCacheKey};
use fast_check_tables_packages::PackageNv;
use std::alloc::{AllocError, Global};
use std::cell::Cell;
use std::collections::BTreeSet;
use url::Url;

/// How the cache of a run differs from a cache in memory.
#[derive(Clone, Copy)]
pub struct Traits {
    pub seed: &'static str,
    /// Whether all packages have one key.
    pub has_one_key: bool,
    /// Which `get` of the run is refused, counted from 1.
    pub refused_get: Option<u64>,
    /// Which `set` of the run is refused, counted from 1.
    pub refused_set: Option<u64>,
}

/// A cache in memory that says what is set.
#[derive(Drop)]
pub struct RunCache {
    alloc: Global,
    items: Items,
    traits: Traits,
    gets: Cell<u64>,
    sets: u64,
    /// What was set since the last build.
    log: Said,
}

impl RunCache {
    /// An empty cache.
    pub fn new(alloc: Global, traits: Traits) -> RunCache
        ensures { HasNothing result.items }
    {
        RunCache {
            alloc,
            items: Items::new(alloc),
            traits,
            gets: Cell::new(0),
            sets: 0,
            log: Said::new(alloc),
        }
    }

    /// Says what was set since the last call.
    pub fn say_log(&mut self, said: &mut Said) {
        match self.log.text() {
            Some(text) => said.say(text),
            None => said.lack(),
        }
        self.log = Said::new(self.alloc);
    }

    /// Sets an item, and does not say so.
    pub fn fill(
        &mut self,
        package_nv: &PackageNv,
        entrypoints: &BTreeSet<Url>,
        item: FastCheckCacheItem,
    ) -> Result<(), AllocError> {
        let hash = self.key_hash(self.traits.seed, package_nv, entrypoints);
        self.items.set(FastCheckCacheKey::build(hash), item)
    }
}

impl FastCheckCache for RunCache {
    ghost stored = { λ cache. items_at cache.items };

    ghost seed_text = { λ cache. cache.traits.seed.now };

    ghost hash_of = { λ cache. hash_in cache.traits.has_one_key };

    fn hash_seed(&self) -> &'static str {
        self.traits.seed
    }

    fn key_hash(&self, seed: &str, package_nv: &PackageNv, entrypoints: &BTreeSet<Url>) -> u64 {
        if self.traits.has_one_key {
            return 7;
        }
        package_hash(seed, package_nv, entrypoints)
    }

    fn get(&self, key: FastCheckCacheKey) -> Result<Option<FastCheckCacheItem>, AllocError> {
        let number = self.gets.get().saturating_add(1);
        self.gets.set(number);
        if self.traits.refused_get == Some(number) {
            return Err(AllocError);
        }
        self.items.get(key)
    }

    fn set(&mut self, key: FastCheckCacheKey, item: FastCheckCacheItem) -> Result<(), AllocError> {
        self.sets = self.sets.saturating_add(1);
        if self.traits.refused_set == Some(self.sets) {
            return Err(AllocError);
        }
        say_item(self.alloc, key.as_u64(), &item, &mut self.log);
        self.items.set(key, item)
    }
}
