//! Copies of pairs of trees.
ghost use Rattle.std.specs.Prelude.{◌≡◌, IfOk};
ghost use Rattle.fast_check_tree_syntax.specs.Part.{seen};

use fast_check_tree_syntax::{Part, Tree};
use std::alloc::{AllocError, Global};

/// Two parts as trees.
pub fn two_trees(
    alloc: Global,
    first: Part<'_>,
    second: Part<'_>,
) -> Result<(Tree, Tree), AllocError>
    ensures { IfOk result (λ trees. trees ≡ (seen first.entry, seen second.entry)) }
{
    let first = first.to_tree(alloc)?;
    let second = second.to_tree(alloc)?;
    Ok((first, second))
}
