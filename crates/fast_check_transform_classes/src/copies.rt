//! Copies of triples of trees.
ghost use Rattle.std.specs.Prelude.{◌≡◌, IfOk};
ghost use Rattle.fast_check_tree_syntax.specs.Part.{seen};

use crate::class_nodes::two_trees;
use fast_check_tree_syntax::{Part, Tree};
use std::alloc::{AllocError, Global};

/// Three parts as trees.
pub fn three_trees(
    alloc: Global,
    first: Part<'_>,
    second: Part<'_>,
    third: Part<'_>,
) -> Result<(Tree, Tree, Tree), AllocError>
    ensures { IfOk result (λ trees. trees ≡ (seen first.entry, seen second.entry, seen third.entry)) }
{
    let (first, second) = two_trees(alloc, first, second)?;
    let third = third.to_tree(alloc)?;
    Ok((first, second, third))
}
