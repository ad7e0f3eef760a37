//! What a cache keeps of a package and of its modules.
ghost use Rattle.std.specs.Prelude.{◌≡◌};
ghost use Rattle.fast_check_tables_cache.specs.Cache.{item_of, module_of, source_hash_of};

use fast_check_tables_diagnostics::parsed_source::ModuleInfo;
use fast_check_tables_packages::PackageNv;
use fast_check_tree_comments::Comments;
use fast_check_tree_syntax::{Tree, clone_tree};
use std::alloc::AllocError;
use std::collections::BTreeSet;
use url::Url;

/// What a cache keeps of a package.
#[derive(Debug, Drop, PartialEq, Eq)]
pub struct FastCheckCacheItem {
    /// The packages that it depends on.
    pub dependencies: BTreeSet<PackageNv>,
    /// What is kept of its modules, by their specifiers.
    pub modules: Vec<(Url, FastCheckCacheModuleItem)>,
}

/// A copy has the same dependencies and modules.
impl Clone for FastCheckCacheItem {
    ghost is_clone = { λ item copy. item_of copy ≡ item_of item };

    fn clone(&self) -> Result<FastCheckCacheItem, AllocError> {
        Ok(FastCheckCacheItem {
            dependencies: self.dependencies.clone()?,
            modules: self.modules.clone()?,
        })
    }
}

/// What a cache keeps of a module.
#[derive(Debug, Drop, PartialEq, Eq)]
pub enum FastCheckCacheModuleItem {
    /// The skeleton.
    Info(FastCheckCacheModuleItemInfo),
    /// That the package has diagnostics.
    Diagnostic(FastCheckCacheModuleItemDiagnostic),
}

impl FastCheckCacheModuleItem {
    /// The hash of the source text that the module had.
    pub fn source_hash(&self) -> u64
        ensures { result ≡ source_hash_of self.now }
    {
        match self {
            FastCheckCacheModuleItem::Info(info) => info.source_hash,
            FastCheckCacheModuleItem::Diagnostic(diagnostic) => diagnostic.source_hash,
        }
    }
}

impl Clone for FastCheckCacheModuleItem {
    ghost is_clone = { λ item copy. module_of copy ≡ module_of item };

    fn clone(&self) -> Result<FastCheckCacheModuleItem, AllocError> {
        Ok(match self {
            FastCheckCacheModuleItem::Info(info) => FastCheckCacheModuleItem::Info(info.clone()?),
            FastCheckCacheModuleItem::Diagnostic(diagnostic) => {
                FastCheckCacheModuleItem::Diagnostic(diagnostic.clone()?)
            }
        })
    }
}

/// The skeleton of a module.
#[derive(Debug, Drop, PartialEq, Eq)]
pub struct FastCheckCacheModuleItemInfo {
    /// The hash of the source text.
    pub source_hash: u64,
    pub module_info: ModuleInfo,
    /// A node of the kind `Module`.
    pub program: Tree,
    /// The comments that stay.
    pub comments: Comments,
}

/// A module of a package that has diagnostics.
#[derive(Debug, Drop, PartialEq, Eq)]
pub struct FastCheckCacheModuleItemDiagnostic {
    /// The hash of the source text.
    pub source_hash: u64,
}

/// A copy has the same hash, sources, tree and comments. The texts of the tree are shared.
impl Clone for FastCheckCacheModuleItemInfo {
    ghost use Rattle.fast_check_tables_cache.specs.declared.item.FastCheckCacheModuleItem.TheVariants.{Info};

    ghost is_clone = { λ info copy. module_of (Info copy) ≡ module_of (Info info) };

    fn clone(&self) -> Result<FastCheckCacheModuleItemInfo, AllocError> {
        let alloc = *self.module_info.sources.allocator();
        Ok(FastCheckCacheModuleItemInfo {
            source_hash: self.source_hash,
            module_info: self.module_info.clone()?,
            program: clone_tree(alloc, &self.program)?,
            comments: self.comments.clone()?,
        })
    }
}

impl Clone for FastCheckCacheModuleItemDiagnostic {
    ghost is_clone = { λ diagnostic copy. copy ≡ diagnostic };

    fn clone(&self) -> Result<FastCheckCacheModuleItemDiagnostic, AllocError> {
        Ok(FastCheckCacheModuleItemDiagnostic {
            source_hash: self.source_hash,
        })
    }
}
