//! The plain syntax tree: one type for all nodes.
ghost use Rattle.std.specs.Prelude.{◌≡◌, IfOk, IsTrue, ◌↔◌};
ghost use Rattle.fast_check_tree_syntax.specs.declared.tree.Tree.{Node};

use crate::atom::Atom;
use crate::kind::{Kind, Word};
use crate::source::{SourceRange, SyntaxContext};
use sqlite_items::Items;
use std::alloc::{AllocError, Global};

/// A syntax tree. A node's parts stand in the order of its form's fields, its range first where it has one. A node of the kind `List` has its
/// items as parts.
#[derive(Debug, Drop)]
#[cycle(tree)]
pub enum Tree {
    /// An empty option.
    Absent,
    Flag(bool),
    Context(SyntaxContext),
    Text(Atom),
    Range(SourceRange),
    Word(Word),
    Node(Kind, Items<Tree>),
}

/// A copy of a tree. Its texts are shared.
#[cycle(clone)]
pub fn clone_tree(alloc: Global, tree: &Tree) -> Result<Tree, AllocError>
    ensures { IfOk result (λ copy. copy ≡ tree.now) }
{
    match tree {
        Tree::Absent => Ok(Tree::Absent),
        Tree::Flag(flag) => Ok(Tree::Flag(*flag)),
        Tree::Context(context) => Ok(Tree::Context(*context)),
        Tree::Text(text) => Ok(Tree::Text(text.clone()?)),
        Tree::Range(range) => Ok(Tree::Range(*range)),
        Tree::Word(word) => Ok(Tree::Word(*word)),
        Tree::Node(kind, parts) => Ok(Tree::Node(*kind, clone_all(alloc, parts.as_slice())?)),
    }
}

#[cycle(clone)]
fn clone_all(alloc: Global, trees: &[Tree]) -> Result<Items<Tree>, AllocError>
    ensures { IfOk result (λ copies. copies ≡ trees.now) }
{
    let mut copies = Items::new(alloc);
    for tree in trees {
        copies.push(clone_tree(alloc, tree)?)?;
    }
    Ok(copies)
}

/// Whether two trees are equal, positions and scope numbers included.
#[cycle(same)]
pub fn same_tree(a: &Tree, b: &Tree) -> bool
    ensures { IsTrue result ↔ (a.now ≡ b.now) }
{
    match (a, b) {
        (Tree::Absent, Tree::Absent) => true,
        (Tree::Flag(a), Tree::Flag(b)) => *a == *b,
        (Tree::Context(a), Tree::Context(b)) => *a == *b,
        (Tree::Text(a), Tree::Text(b)) => a.is(b.as_str()),
        (Tree::Range(a), Tree::Range(b)) => *a == *b,
        (Tree::Word(a), Tree::Word(b)) => *a == *b,
        (Tree::Node(a, parts), Tree::Node(b, others)) => {
            same_kind(*a, *b) && same_all(parts.as_slice(), others.as_slice())
        }
        _ => false,
    }
}

#[cycle(same)]
fn same_all(a: &[Tree], b: &[Tree]) -> bool
    ensures { IsTrue result ↔ (a.now ≡ b.now) }
{
    if a.len() != b.len() {
        return false;
    }
    for (x, y) in a.iter().zip(b) {
        if !same_tree(x, y) {
            return false;
        }
    }
    true
}

fn same_kind(a: Kind, b: Kind) -> bool
    ensures { IsTrue result ↔ (a ≡ b) }
{
    a == b
}

/// Trees are equal where they are the same tree, positions and scope numbers included.
impl PartialEq for Tree {
    ghost use Rattle.fast_check_tree_syntax.specs.TreeEquality.{same_trees, same_trees-per};

    ghost eq = { same_trees };

    ghost laws = { same_trees-per };

    fn eq(&self, other: &Tree) -> bool
        ensures value { result ≡ same_trees self.now other.now }
        ensures same { IsTrue result ↔ (self.now ≡ other.now) }
    {
        same_tree(self, other)
    }
}

impl Eq for Tree {
    ghost use Rattle.fast_check_tree_syntax.specs.TreeEquality.{same_trees-equiv};

    ghost laws = { same_trees-equiv };
}

impl Tree {
    /// The node of a kind with these parts.
    pub fn node<const N: usize>(
        alloc: Global,
        kind: Kind,
        parts: [Tree; N],
    ) -> Result<Tree, AllocError>
        ensures { IfOk result (λ tree. tree ≡ Node kind parts.entry) }
    {
        Ok(Tree::Node(kind, Items::from_vec(Vec::from_array(alloc, parts)?)))
    }

    /// The list of these items.
    pub fn list(items: Items<Tree>) -> Tree
        ensures { result ≡ Node Kind.List items }
    {
        Tree::Node(Kind::List, items)
    }
}
