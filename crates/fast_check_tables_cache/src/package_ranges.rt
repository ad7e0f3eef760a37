//! What is found of a package.
use crate::item::FastCheckCacheModuleItem;
use fast_check_tables_diagnostics::ModulePublicRanges;
use fast_check_tables_packages::PackageNv;
use std::alloc::Global;
use std::collections::{BTreeMap, BTreeSet};
use url::Url;

/// What is found of a package.
#[derive(Debug, Drop)]
pub struct PackagePublicRanges {
    /// The modules that its exports name.
    pub entrypoints: BTreeSet<Url>,
    /// What is public in its modules, by their specifiers.
    pub module_ranges: BTreeMap<Url, ModulePublicRanges>,
    /// What a cache keeps of its modules, where the cache answers the package.
    pub cache_items: Vec<(Url, FastCheckCacheModuleItem)>,
    /// The packages that it depends on.
    pub dependencies: BTreeSet<PackageNv>,
}

impl PackagePublicRanges {
    ghost use Rattle.std.specs.Prelude.{◌≡◌, []};

    /// Nothing is found. It takes no memory.
    pub fn new(alloc: Global) -> PackagePublicRanges
        ensures entrypoints { result.entrypoints.keys ≡ [] }
        ensures module_ranges { result.module_ranges.entries ≡ [] }
        ensures cache_items { result.cache_items.items ≡ [] }
        ensures dependencies { result.dependencies.keys ≡ [] }
    {
        PackagePublicRanges {
            entrypoints: BTreeSet::new(alloc),
            module_ranges: BTreeMap::new(alloc),
            cache_items: Vec::new(alloc),
            dependencies: BTreeSet::new(alloc),
        }
    }
}
