//! A comment: its kind, its range and its text.
ghost use Rattle.std.specs.Prelude.{◌≡◌};

use fast_check_tree_syntax::{Atom, SourceRange};
use std::alloc::AllocError;

/// How a comment is written.
#[derive(Clone, Copy, PartialEq, Eq, Debug)]
pub enum CommentKind {
    /// From `//` to the end of the line.
    Line,
    /// From `/*` to `*/`.
    Block,
}

/// A comment (swc's `Comment`). Its text lacks the signs that open and close it.
#[derive(Debug, Drop)]
pub struct Comment {
    pub kind: CommentKind,
    pub span: SourceRange,
    pub text: Atom,
}

impl Comment {
    ghost use Rattle.fast_check_tree_comments.specs.Kept.{is_kept};

    /// Whether a skeleton keeps the comment: a line comment whose text begins with `@ts-`, white space aside, which
    /// directs the type checker, or a block comment whose text begins with `*`, which documents.
    pub(crate) fn is_kept(&self) -> bool
        ensures { result ≡ is_kept self.now }
    {
        let text = self.text.as_str();
        match self.kind {
            CommentKind::Line => text.trim_start().as_bytes().starts_with(b"@ts-"),
            CommentKind::Block => text.as_bytes().starts_with(b"*"),
        }
    }
}

impl Clone for Comment {
    ghost is_clone = { λ comment copy. copy ≡ comment };

    fn clone(&self) -> Result<Comment, AllocError> {
        Ok(Comment {
            kind: self.kind,
            span: self.span,
            text: self.text.clone()?,
        })
    }
}

/// Comments are equal where kind, place and text are.
impl PartialEq for Comment {
    ghost use Rattle.fast_check_tree_comments.specs.Equality.{same_comment, comment-equiv};
    ghost use Rattle.std.specs.Cmp.{partial_equiv_from_equiv};
    ghost use Rattle.std.specs.Prelude.{◌≡◌, ◌↔◌, IsTrue};

    ghost eq = { same_comment };

    ghost laws = { partial_equiv_from_equiv comment-equiv };

    fn eq(&self, other: &Comment) -> bool
        ensures value { result ≡ same_comment self.now other.now }
        ensures same { IsTrue result ↔ (self.now ≡ other.now) }
    {
        self.kind == other.kind
            && self.span.start == other.span.start
            && self.span.end == other.span.end
            && self.text == other.text
    }
}

impl Eq for Comment {
    ghost use Rattle.fast_check_tree_comments.specs.Equality.{comment-equiv};

    ghost laws = { comment-equiv };
}
