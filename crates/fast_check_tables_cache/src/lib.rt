//! What a cache keeps of a package, and what of it is still of use: an item under its key, and whether its sources are those of the graph.
#![tactic(auto)]

mod cache;
mod cached;
mod item;
mod package_ranges;

pub use cache::{FastCheckCache, FastCheckCacheKey, HASH_SEED, default_hash_seed};
pub use cached::{key_of, look_up, source_hash};
pub use item::{
    FastCheckCacheItem, FastCheckCacheModuleItem, FastCheckCacheModuleItemDiagnostic,
    FastCheckCacheModuleItemInfo,
};
pub use package_ranges::PackagePublicRanges;
