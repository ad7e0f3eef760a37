//! What the transform of a module gathers.
ghost use Rattle.std.specs.Prelude.{◌≡◌, []};
ghost use Rattle.fast_check_tree_comments.specs.Kept.{kept};
ghost use Rattle.fast_check_transform_statements.specs.skeleton.ModuleFacts.{ModuleFacts};
ghost use Rattle.fast_check_transform_imports.specs.Relative.{AreRelative};

use fast_check_meaning_signatures::Fault;
use fast_check_transform_imports::RelativeSources;
use fast_check_tree_comments::{Comments, CommentsMut};
use std::alloc::Global;

/// The comments that stay, the texts that stand for those of sources, and the faults in reading order, as the transform of a
/// module gathers them on its way through the items.
#[derive(Drop)]
pub struct TransformContext {
    pub comments: CommentsMut,
    pub sources: RelativeSources,
    pub faults: Vec<Fault>,
}

impl TransformContext {
    /// What is gathered before the first item of a module with these comments: those that a skeleton may keep, and nothing else. It
    /// takes no memory.
    pub fn new(alloc: Global, comments: Comments) -> TransformContext
        ensures comments { result.comments ≡ kept comments }
        ensures sources { (facts : ModuleFacts) → AreRelative facts result.sources }
        ensures faults { result.faults.items ≡ [] }
    {
        TransformContext {
            comments: CommentsMut::new(comments),
            sources: RelativeSources::new(alloc),
            faults: Vec::new(alloc),
        }
    }
}
