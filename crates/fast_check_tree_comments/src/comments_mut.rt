//! The comments that a skeleton may keep, while those before what goes are taken away.
ghost use Rattle.std.specs.Prelude.{◌≡◌};
ghost use Rattle.fast_check_tree_comments.specs.Kept.{kept, without_leading};

use crate::comments::Comments;
use fast_check_tree_syntax::SourcePos;
use std::marker::Model;

/// The comments that the skeleton of a module keeps, while the module is transformed. Contracts see them as comments.
#[derive(Debug, Drop)]
pub struct CommentsMut {
    comments: Comments,
}

impl Model for CommentsMut {
    ghost use Rattle.fast_check_tree_comments.specs.declared.comments.Comments.{Comments};

    ghost Value = { Comments };

    ghost view = { λ kept. kept.comments };
}

impl CommentsMut {
    /// Keeps the directives for the type checker and the documentation: line comments whose text begins with `@ts-`,
    /// white space aside, and block comments whose text begins with `*`. A position that is left with none goes. It
    /// takes no memory.
    pub fn new(comments: Comments) -> CommentsMut
        ensures { result ≡ kept comments }
    {
        let mut comments = comments;
        comments.leading.prune();
        comments.trailing.prune();
        CommentsMut { comments }
    }

    /// Takes away the comments before the token at `start`, which is not in the skeleton. It takes no memory.
    pub fn remove_leading(&mut self, start: SourcePos)
        ensures { self.new ≡ without_leading start self.old }
    {
        self.comments.leading.remove(start);
    }

    /// The comments that are left. It takes no memory.
    pub fn into_comments(self) -> Comments
        ensures { result ≡ self }
    {
        let CommentsMut { comments } = self;
        comments
    }
}
