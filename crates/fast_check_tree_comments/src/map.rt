//! Lists of comments by position.
ghost use Rattle.std.specs.Prelude.{◌≡◌, ◌↔◌, [], IsTrue, OnOk, OnErr};

use crate::comment::Comment;
use fast_check_tree_syntax::SourcePos;
use std::alloc::{AllocError, Global};
use std::collections::BTreeMap;
use std::collections::btree_map::Iter;
use std::marker::Model;

/// Comments in the order of the text. Contracts see them as their list.
#[derive(Debug, Drop)]
pub struct CommentList {
    comments: Vec<Comment>,
}

impl Model for CommentList {
    ghost use Rattle.std.specs.Prelude.{List};
    ghost use Rattle.fast_check_tree_comments.specs.declared.comment.Comment.{Comment};

    ghost Value = { List Comment };

    ghost view = { λ list. list.comments.items };
}

impl CommentList {
    ghost use Rattle.std.specs.List.{filter};
    ghost use Rattle.fast_check_tree_comments.specs.Kept.{is_kept, is_empty};

    /// The list of these comments.
    pub fn from_vec(comments: Vec<Comment>) -> CommentList
        ensures { result ≡ comments.items }
    {
        CommentList { comments }
    }

    /// Takes away the comments that no skeleton keeps.
    pub(crate) fn prune(&mut self)
        ensures { self.new ≡ filter is_kept self.old }
    {
        self.comments.retain(|comment| comment.is_kept());
    }

    /// Whether there is no comment in the list.
    pub(crate) fn is_empty(&self) -> bool
        ensures { result ≡ is_empty self.now }
    {
        self.comments.is_empty()
    }

    /// The comments, in order.
    pub fn as_slice(&self) -> &[Comment]
        ensures { result.now ≡ self.now }
    {
        self.comments.as_slice()
    }
}

impl Clone for CommentList {
    ghost is_clone = { λ list copy. copy ≡ list };

    fn clone(&self) -> Result<CommentList, AllocError> {
        Ok(CommentList {
            comments: self.comments.clone()?,
        })
    }
}

/// Lists are equal where they have the same comments in the same order.
impl PartialEq for CommentList {
    ghost use Rattle.fast_check_tree_comments.specs.Equality.{same_list, list-equiv};
    ghost use Rattle.std.specs.Cmp.{partial_equiv_from_equiv};
    ghost use Rattle.std.specs.Prelude.{◌≡◌, ◌↔◌, IsTrue};

    ghost eq = { same_list };

    ghost laws = { partial_equiv_from_equiv list-equiv };

    fn eq(&self, other: &CommentList) -> bool
        ensures value { result ≡ same_list self.now other.now }
        ensures same { IsTrue result ↔ (self.now ≡ other.now) }
    {
        self.as_slice() == other.as_slice()
    }
}

impl Eq for CommentList {
    ghost use Rattle.fast_check_tree_comments.specs.Equality.{list-equiv};

    ghost laws = { list-equiv };
}

/// Comments by the position that they stand at. Contracts see the entries, in the order of their positions.
#[derive(Debug, Drop)]
pub struct CommentMap {
    entries: BTreeMap<SourcePos, CommentList>,
}

impl Model for CommentMap {
    ghost use Rattle.std.specs.Prelude.{List};
    ghost use Rattle.fast_check_tree_syntax.specs.declared.source.SourcePos.{SourcePos};
    ghost use Rattle.fast_check_tree_comments.specs.declared.comment.Comment.{Comment};

    ghost Value = { List (SourcePos × List Comment) };

    ghost view = { λ map. map.entries.entries };
}

impl CommentMap {
    ghost use Rattle.std.specs.Prelude.{List};
    ghost use Rattle.std.specs.Map.Iter.{ShowsInOrder, deref_pair};
    ghost use Rattle.fast_check_tree_syntax.specs.declared.source.SourcePos.{SourcePos};
    ghost use Rattle.fast_check_tree_comments.specs.declared.comment.Comment.{Comment};
    ghost use Rattle.std.specs.Option.{option_map};
    ghost use Rattle.fast_check_tree_comments.specs.Places.{comments_at, with_comments, without_comments};
    ghost use Rattle.fast_check_tree_comments.specs.Kept.{pruned};

    /// The map without comments. It takes no memory.
    pub fn new(alloc: Global) -> CommentMap
        ensures { result ≡ [] }
    {
        CommentMap {
            entries: BTreeMap::new(alloc),
        }
    }

    /// Whether no comment stands anywhere.
    pub fn is_empty(&self) -> bool
        ensures { IsTrue result ↔ (self.now ≡ []) }
    {
        self.entries.is_empty()
    }

    /// The comments at a position; `None` where none stands.
    pub fn get(&self, position: SourcePos) -> Option<&CommentList>
        ensures { option_map (λ list. list.now) result ≡ comments_at position self.now }
    {
        self.entries.get(&position)
    }

    /// The positions with their comments, in the order of the text.
    pub fn iter(&self) -> Iter<'_, SourcePos, CommentList>
        ensures rest { result ≡ self.now }
        ensures runs { ShowsInOrder (deref_pair {K = SourcePos} {X = List Comment}) }
    {
        self.entries.iter()
    }

    /// Lays the comments at a position, in place of those that stand there. If memory runs out, it changes nothing.
    pub fn insert(&mut self, position: SourcePos, comments: CommentList) -> Result<(), AllocError>
        ensures ok { OnOk result (self.new ≡ with_comments position comments self.old) }
        ensures err { OnErr result (self.new ≡ self.old) }
    {
        drop(self.entries.insert(position, comments)?);
        Ok(())
    }

    /// Takes away the comments at a position. It takes no memory.
    #[tactic(auto, using(crate::proofs::Removed::removed_are_gone))]
    pub fn remove(&mut self, position: SourcePos)
        ensures { self.new ≡ without_comments position self.old }
    {
        drop(self.entries.remove(&position));
    }

    /// Takes away the comments that no skeleton keeps, and each position that is left with none.
    pub(crate) fn prune(&mut self)
        ensures { self.new ≡ pruned self.old }
    {
        self.entries.retain(|_, comments| {
            comments.prune();
            !comments.is_empty()
        });
    }
}

impl Clone for CommentMap {
    ghost is_clone = { λ map copy. copy ≡ map };

    fn clone(&self) -> Result<CommentMap, AllocError> {
        Ok(CommentMap {
            entries: self.entries.clone()?,
        })
    }
}

/// Maps are equal where they have the same comments at the same positions.
impl PartialEq for CommentMap {
    ghost use Rattle.fast_check_tree_comments.specs.Equality.{same_places, places-equiv};
    ghost use Rattle.std.specs.Cmp.{partial_equiv_from_equiv};
    ghost use Rattle.std.specs.Prelude.{◌≡◌, ◌↔◌, IsTrue};

    ghost eq = { same_places };

    ghost laws = { partial_equiv_from_equiv places-equiv };

    fn eq(&self, other: &CommentMap) -> bool
        ensures value { result ≡ same_places self.now other.now }
        ensures same { IsTrue result ↔ (self.now ≡ other.now) }
    {
        self.entries == other.entries
    }
}

impl Eq for CommentMap {
    ghost use Rattle.fast_check_tree_comments.specs.Equality.{places-equiv};

    ghost laws = { places-equiv };
}
