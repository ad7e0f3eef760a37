//! What stands in place of parts of a tree.
ghost use Rattle.std.specs.Prelude.{◌≡◌, ◌↔◌, IfOk, IsTrue};
ghost use Rattle.std.specs.BTreeMap.{btree_map_len};
ghost use Rattle.fast_check_tree_syntax.specs.Shape.{kind_of};
ghost use Rattle.fast_check_tree_syntax.specs.declared.kind.Kind.TheVariants as kinds;

use fast_check_tree_forms_expressions::{CallExpr, ThisExpr};
use fast_check_tree_syntax::{Items, Kind, Part, SourceRange, SyntaxContext, Tree};
use std::alloc::{AllocError, Global};
use std::collections::BTreeMap;

/// Trees by the ranges of the nodes that they stand in place of, with the kinds of these. Where memory runs out one is left out, and they say so.
#[derive(Drop)]
pub struct Edits {
    pub alloc: Global,
    pub lacks: bool,
    found: BTreeMap<(u32, u32), (Kind, Tree)>,
}

/// The range of a node that has one.
pub fn range_of(part: Part<'_>) -> SourceRange {
    part.part(0).range()
}

/// A value of which no skeleton is made.
pub fn hidden(alloc: Global, span: SourceRange) -> Result<Tree, AllocError>
    ensures { IfOk result (λ made. kind_of made ≡ kinds.CallExpr) }
{
    CallExpr {
        span,
        ctxt: SyntaxContext(0),
        callee: ThisExpr { span }.into_tree(alloc)?,
        args: Tree::list(Items::new(alloc)),
        type_args: Tree::Absent,
    }
    .into_tree(alloc)
}

impl Edits {
    pub fn new(alloc: Global) -> Edits
        ensures { btree_map_len result.found ≡ 0 }
    {
        Edits {
            alloc,
            lacks: false,
            found: BTreeMap::new(alloc),
        }
    }

    pub fn is_empty(&self) -> bool
        ensures { IsTrue result ↔ (btree_map_len self.now.found ≡ 0) }
    {
        self.found.is_empty()
    }

    /// Has a tree stand in place of a node, if it was made.
    pub fn put(&mut self, part: Part<'_>, made: Result<Tree, AllocError>) {
        let range = range_of(part);
        let key = (range.start.0, range.end.0);
        match made {
            Ok(tree) => if self.found.insert(key, (part.kind(), tree)).is_err() {
                self.lacks = true;
            },
            Err(_) => self.lacks = true,
        }
    }

    /// Has a value stand in place of another one, of which no skeleton is made.
    pub fn hide(&mut self, value: Part<'_>) {
        self.put(value, hidden(self.alloc, range_of(value)));
    }

    fn at(&self, kind: Kind, parts: &[Tree]) -> Option<&Tree> {
        let key = match parts.first() {
            Some(Tree::Range(range)) => (range.start.0, range.end.0),
            _ => return None,
        };
        let found = self.found.get(&key)?;
        if found.0 == kind {
            Some(&found.1)
        } else {
            None
        }
    }
}

/// A copy of a tree with the edits.
#[cycle(copies)]
#[tactic(auto, using(fast_check_source_walks::proofs::Heights::node_height))]
pub fn with_edits(alloc: Global, tree: &Tree, edits: &Edits) -> Result<Tree, AllocError> {
    match tree {
        Tree::Node(kind, parts) => match edits.at(*kind, parts.as_slice()) {
            Some(edit) => edit.read().to_tree(alloc),
            None => Ok(Tree::Node(*kind, all_with_edits(alloc, parts.as_slice(), edits)?)),
        },
        _ => tree.read().to_tree(alloc),
    }
}

#[cycle(copies)]
#[tactic(auto, using(fast_check_source_walks::proofs::Heights::one_height))]
fn all_with_edits(alloc: Global, trees: &[Tree], edits: &Edits) -> Result<Items<Tree>, AllocError> {
    let mut copies = Items::new(alloc);
    for tree in trees {
        copies.push(with_edits(alloc, tree, edits)?)?;
    }
    Ok(copies)
}

/// A tree with the edits.
pub fn edited(alloc: Global, tree: Tree, edits: &Edits) -> Result<Tree, AllocError>
    ensures { IfOk result (λ made. btree_map_len edits.now.found ≡ 0 → made ≡ tree) }
{
    if edits.lacks {
        Err(AllocError)
    } else if edits.is_empty() {
        Ok(tree)
    } else {
        with_edits(alloc, &tree, edits)
    }
}
