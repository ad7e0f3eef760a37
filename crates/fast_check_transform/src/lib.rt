//! The skeleton of a module, and what a cache keeps of it. It offers the crates that hold these, and has no code.
#![tactic(auto)]

pub use fast_check_tables_diagnostics::parsed_source::{FastCheckModule, ModuleInfo, StaticSource};
pub use fast_check_transform_module::{TransformOptions, transform};
pub use fast_check_transform_pair::{FastCheckTransformer, transform_pair};

/// What a cache keeps.
pub mod cache {
    pub use fast_check_tables_cache::{
        FastCheckCache, FastCheckCacheItem, FastCheckCacheKey, FastCheckCacheModuleItem,
        FastCheckCacheModuleItemDiagnostic, FastCheckCacheModuleItemInfo, HASH_SEED,
        default_hash_seed,
    };
}
