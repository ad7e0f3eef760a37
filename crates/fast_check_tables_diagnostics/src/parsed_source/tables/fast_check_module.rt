//! What a module without faults is answered by.

ghost use Rattle.std.specs.Prelude.{◌≡◌};

use fast_check_tree_comments::Comments;
use fast_check_tree_syntax::{Atom, SourceRange, Tree, clone_tree};
use std::alloc::AllocError;

/// An import or export of a skeleton that names another module.
#[derive(Debug, Drop, PartialEq, Eq)]
pub struct StaticSource {
    /// The text that names the other module.
    pub specifier: Atom,
    /// The range of that text.
    pub range: SourceRange,
    pub is_export: bool,
    /// Whether only types are taken from it.
    pub type_only: bool,
}

impl Clone for StaticSource {
    ghost is_clone = { λ source copy. copy ≡ source };

    fn clone(&self) -> Result<StaticSource, AllocError> {
        Ok(StaticSource {
            specifier: self.specifier.clone()?,
            range: self.range,
            is_export: self.is_export,
            type_only: self.type_only,
        })
    }
}

/// What a skeleton depends on.
#[derive(Debug, Drop, PartialEq, Eq)]
pub struct ModuleInfo {
    /// Its imports, and its exports from other modules, in order.
    pub sources: Vec<StaticSource>,
}

impl Clone for ModuleInfo {
    ghost is_clone = { λ info copy. copy.sources.items ≡ info.sources.items };

    fn clone(&self) -> Result<ModuleInfo, AllocError> {
        Ok(ModuleInfo {
            sources: self.sources.clone()?,
        })
    }
}

/// The skeleton of a module.
#[derive(Debug, Drop, PartialEq, Eq)]
pub struct FastCheckModule {
    pub module_info: ModuleInfo,
    /// A node of the kind `Module`.
    pub program: Tree,
    /// The comments that stay.
    pub comments: Comments,
}

/// A copy has the same sources, tree and comments. The texts of the tree are shared.
impl Clone for FastCheckModule {
    ghost is_clone = { λ given copy. (copy.module_info.sources.items ≡ given.module_info.sources.items) × ((copy.program ≡ given.program) × (copy.comments ≡ given.comments)) };

    fn clone(&self) -> Result<FastCheckModule, AllocError> {
        let alloc = *self.module_info.sources.allocator();
        Ok(FastCheckModule {
            module_info: self.module_info.clone()?,
            program: clone_tree(alloc, &self.program)?,
            comments: self.comments.clone()?,
        })
    }
}
