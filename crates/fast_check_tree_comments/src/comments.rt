//! The comments of a module: those before a position and those after one.
ghost use Rattle.std.specs.Prelude.{◌≡◌, ◌↔◌, [], IsTrue};

use crate::map::CommentMap;
use std::alloc::{AllocError, Global};

/// The comments of a module, each at the token that it stands before or after.
#[derive(Debug, Drop)]
pub struct Comments {
    /// The comments before a token, by the position of its first byte.
    pub leading: CommentMap,
    /// The comments after a token, by the position past its last byte.
    pub trailing: CommentMap,
}

impl Comments {
    /// No comments. It takes no memory.
    pub fn new(alloc: Global) -> Comments
        ensures leading { result.leading ≡ [] }
        ensures trailing { result.trailing ≡ [] }
    {
        Comments {
            leading: CommentMap::new(alloc),
            trailing: CommentMap::new(alloc),
        }
    }

    /// Whether there is no comment at all.
    pub fn is_empty(&self) -> bool
        ensures { IsTrue result ↔ ((self.now.leading ≡ []) × (self.now.trailing ≡ [])) }
    {
        self.leading.is_empty() && self.trailing.is_empty()
    }
}

impl Clone for Comments {
    ghost is_clone = { λ comments copy. copy ≡ comments };

    fn clone(&self) -> Result<Comments, AllocError> {
        Ok(Comments {
            leading: self.leading.clone()?,
            trailing: self.trailing.clone()?,
        })
    }
}

/// Comments of a module are equal where the same comments stand at the same places.
impl PartialEq for Comments {
    ghost use Rattle.fast_check_tree_comments.specs.Equality.{same_comments, comments-equiv};
    ghost use Rattle.std.specs.Cmp.{partial_equiv_from_equiv};
    ghost use Rattle.std.specs.Prelude.{◌≡◌, ◌↔◌, IsTrue};

    ghost eq = { same_comments };

    ghost laws = { partial_equiv_from_equiv comments-equiv };

    fn eq(&self, other: &Comments) -> bool
        ensures value { result ≡ same_comments self.now other.now }
        ensures same { IsTrue result ↔ (self.now ≡ other.now) }
    {
        self.leading == other.leading && self.trailing == other.trailing
    }
}

impl Eq for Comments {
    ghost use Rattle.fast_check_tree_comments.specs.Equality.{comments-equiv};

    ghost laws = { comments-equiv };
}
