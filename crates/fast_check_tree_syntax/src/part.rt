//! A part of a node, which may be absent, and its readings.
ghost use Rattle.std.specs.Prelude.{◌≡◌, IfOk};
ghost use Rattle.fast_check_tree_syntax.specs.Shape.{part, parts, kind_of, text_of, flag_of, context_of, range_of, has_word, is_absent};
ghost use Rattle.fast_check_tree_syntax.specs.Part.{seen};

use crate::kind::{Kind, Word};
use crate::source::{DUMMY_SP, SourceRange, SyntaxContext};
use crate::tree::{Tree, clone_tree};
use std::alloc::{AllocError, Global};

/// A part of a tree, for reading. A part that is not there reads as an empty option, so that every reading has an answer.
#[derive(Clone, Copy)]
pub struct Part<'a> {
    tree: Option<&'a Tree>,
}

impl Tree {
    /// The tree, for reading.
    pub fn read(&self) -> Part<'_>
        ensures { seen result ≡ self.now }
    {
        Part { tree: Some(self) }
    }
}

impl<'a> Part<'a> {
    /// The kind of the node; `Kind::Leaf` where the part is no node.
    pub fn kind(self) -> Kind
        ensures { result ≡ kind_of (seen self.entry) }
    {
        match self.tree {
            Some(Tree::Node(kind, _)) => *kind,
            _ => Kind::Leaf,
        }
    }

    /// The part at `place` of a node.
    pub fn part(self, place: usize) -> Part<'a>
        ensures { seen result ≡ part place (seen self.entry) }
    {
        match self.tree {
            Some(Tree::Node(_, parts)) => Part {
                tree: parts.get(place),
            },
            _ => Part { tree: None },
        }
    }

    /// All parts of a node; none of a leaf.
    pub fn parts(self) -> &'a [Tree]
        ensures { result.now ≡ parts (seen self.entry) }
    {
        match self.tree {
            Some(Tree::Node(_, parts)) => parts.as_slice(),
            _ => &[],
        }
    }

    /// Whether the part is an empty option, or not there at all.
    pub fn is_absent(self) -> bool
        ensures { result ≡ is_absent (seen self.entry) }
    {
        match self.tree {
            None | Some(Tree::Absent) => true,
            _ => false,
        }
    }

    /// The text that the part is; the empty one where it is none.
    pub fn text(self) -> &'a str
        ensures { result.now ≡ text_of (seen self.entry) }
    {
        match self.tree {
            Some(Tree::Text(text)) => text.as_str(),
            _ => "",
        }
    }

    /// The flag that the part is; false where it is none.
    pub fn flag(self) -> bool
        ensures { result ≡ flag_of (seen self.entry) }
    {
        match self.tree {
            Some(Tree::Flag(flag)) => *flag,
            _ => false,
        }
    }

    /// The scope number that the part is; 0 where it is none.
    pub fn context(self) -> SyntaxContext
        ensures { result ≡ context_of (seen self.entry) }
    {
        match self.tree {
            Some(Tree::Context(context)) => *context,
            _ => SyntaxContext(0),
        }
    }

    /// The range that the part is; `DUMMY_SP` where it is none.
    pub fn range(self) -> SourceRange
        ensures { result ≡ range_of (seen self.entry) }
    {
        match self.tree {
            Some(Tree::Range(range)) => *range,
            _ => DUMMY_SP,
        }
    }

    /// Whether the part is this word.
    pub fn has_word(self, word: Word) -> bool
        ensures { result ≡ has_word word (seen self.entry) }
    {
        match self.tree {
            Some(Tree::Word(own)) => *own == word,
            _ => false,
        }
    }

    /// The part as a tree of its own.
    pub fn to_tree(self, alloc: Global) -> Result<Tree, AllocError>
        ensures { IfOk result (λ tree. tree ≡ seen self.entry) }
    {
        match self.tree {
            Some(tree) => clone_tree(alloc, tree),
            None => Ok(Tree::Absent),
        }
    }
}
