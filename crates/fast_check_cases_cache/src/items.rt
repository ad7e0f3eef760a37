//! The items of a cache in memory, by the hashes of their keys.

ghost use Rattle.std.specs.Prelude.{◌≡◌, option_map, IfOk, OnOk, OnErr};
ghost use Rattle.fast_check_tables_cache.specs.Cache.{item_of, with_item};
ghost use Rattle.fast_check_cases_cache.specs.Memory.{items_at, HasNothing};

use fast_check_tables_cache::{FastCheckCacheItem, FastCheckCacheKey};
use std::alloc::{AllocError, Global};
use std::collections::BTreeMap;

/// Items by the hashes of their keys.
#[derive(Drop)]
pub struct Items {
    by_hash: BTreeMap<u64, FastCheckCacheItem>,
}

impl Items {
    /// No items.
    pub fn new(alloc: Global) -> Items
        ensures { HasNothing result }
    {
        Items {
            by_hash: BTreeMap::new(alloc),
        }
    }

    /// A copy of the item under a key.
    pub fn get(&self, key: FastCheckCacheKey) -> Result<Option<FastCheckCacheItem>, AllocError>
        ensures { IfOk result (λ found. option_map item_of found ≡ items_at self.now key) }
    {
        match self.by_hash.get(&key.as_u64()) {
            Some(item) => Ok(Some(item.clone()?)),
            None => Ok(None),
        }
    }

    /// Keeps an item under a key, in place of the one there.
    pub fn set(
        &mut self,
        key: FastCheckCacheKey,
        item: FastCheckCacheItem,
    ) -> Result<(), AllocError>
        ensures kept { OnOk result (items_at self.new ≡ with_item key (item_of item) (items_at self.old)) }
        ensures err { OnErr result (items_at self.new ≡ items_at self.old) }
    {
        let hash = key.as_u64();
        self.by_hash.insert(hash, item)?;
        Ok(())
    }
}
