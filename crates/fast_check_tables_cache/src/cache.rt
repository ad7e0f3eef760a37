//! A cache as a caller lends it: its keys and the trait `FastCheckCache`.
ghost use Rattle.std.specs.Prelude.{◌≡◌, ℕ, List, map, Option, option_map, IfOk, OnOk, OnErr};
ghost use Rattle.url.specs.Parts.{serialize};
ghost use Rattle.fast_check_tables_packages.specs.Package.{Nv, nv_of};
ghost use Rattle.fast_check_tables_cache.specs.Cache.{ItemView, default_seed, item_of, with_item};

use crate::item::FastCheckCacheItem;
use fast_check_tables_packages::PackageNv;
use std::alloc::AllocError;
use std::collections::BTreeSet;
use std::marker::Model;
use url::Url;

/// What a cache keeps the item of a package under.
#[derive(Clone, Copy, Debug, PartialEq, Eq, PartialOrd, Ord, Hash)]
pub struct FastCheckCacheKey {
    hash: u64,
}

/// Contracts see a key as its hash.
impl Model for FastCheckCacheKey {
    ghost use Rattle.std.specs.Prelude.{ℕ};
    ghost use Rattle.std.specs.Coded.{coded_ℕ};

    ghost Value = { ℕ };

    ghost coded = { coded_ℕ };

    ghost view = { λ key. key.hash };

    ghost inverse = { λ hash. record { hash = hash } };
}

impl FastCheckCacheKey {
    /// The key of a hash.
    pub fn build(hash: u64) -> FastCheckCacheKey
        ensures { result ≡ hash }
    {
        FastCheckCacheKey { hash }
    }

    /// The hash of the key.
    pub fn as_u64(&self) -> u64
        ensures { result ≡ self.now }
    {
        self.hash
    }
}

/// The seed of the rules: a text that changes with them. `hash_seed` of a cache that has no seed of its own answers it.
pub const HASH_SEED: &str = "0.111.1-single-return";

/// `HASH_SEED`, by a call whose contract says its text.
pub fn default_hash_seed() -> &'static str
    ensures { result.now ≡ default_seed }
{
    HASH_SEED
}

/// A cache that a caller lends: a map from keys to items, a seed, and a function that hashes.
pub trait FastCheckCache {
    /// The items by their keys.
    ghost stored: { Self → ℕ → Option ItemView };

    /// The seed: that of the rules, unless an `impl` says another.
    ghost seed_text: { Self → List ℕ } = { λ _. default_seed };

    /// The hash of a seed, a package and the texts of its entry points, in order and each once.
    ghost hash_of: { Self → List ℕ → Nv → List (List ℕ) → ℕ };

    /// What hashes start from: `HASH_SEED`, or a seed of its own.
    fn hash_seed(&self) -> &'static str
        ensures { result.now ≡ seed_text self.now };

    /// The hash that the item of a package is kept under.
    fn key_hash(&self, seed: &str, package_nv: &PackageNv, entrypoints: &BTreeSet<Url>) -> u64
        ensures { result ≡ hash_of self.now seed.now (nv_of package_nv.now) (map serialize entrypoints.now.keys) };

    /// The item under a key, None where there is none. `AllocError` if memory runs out.
    fn get(&self, key: FastCheckCacheKey) -> Result<Option<FastCheckCacheItem>, AllocError>
        ensures { IfOk result (λ found. option_map item_of found ≡ stored self.now key) };

    /// Keeps an item under a key. If memory runs out, nothing changes and the item is dropped.
    fn set(&mut self, key: FastCheckCacheKey, item: FastCheckCacheItem) -> Result<(), AllocError>
        ensures kept { OnOk result (stored self.new ≡ with_item key (item_of item) (stored self.old)) }
        ensures err { OnErr result (stored self.new ≡ stored self.old) }
        ensures seed { seed_text self.new ≡ seed_text self.old }
        ensures hash { hash_of self.new ≡ hash_of self.old };
}
