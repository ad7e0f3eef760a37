//! The height of a tree, as a test.
ghost use Rattle.std.specs.Prelude.{◌≤◌, ◌↔◌, IsTrue, map};
ghost use Rattle.fast_check_tree_syntax.specs.Height.{height, highest};

use fast_check_tree_syntax::Tree;

/// Whether a tree is no higher than this.
#[cycle(height)]
#[tactic(auto, using(crate::proofs::Heights::node_height, crate::proofs::Heights::absent_zero, crate::proofs::Heights::flag_zero, crate::proofs::Heights::context_zero, crate::proofs::Heights::text_zero, crate::proofs::Heights::range_zero, crate::proofs::Heights::word_zero))]
pub fn is_at_most(tree: &Tree, most: usize) -> bool
    ensures { IsTrue result ↔ (height tree.now ≤ most) }
{
    match tree {
        Tree::Node(_, parts) => most > 0 && are_at_most(parts.as_slice(), most - 1),
        Tree::Absent => true,
        Tree::Flag(_) => true,
        Tree::Context(_) => true,
        Tree::Text(_) => true,
        Tree::Range(_) => true,
        Tree::Word(_) => true,
    }
}

/// Whether none of the trees is higher than this.
#[cycle(height)]
#[tactic(auto, using(crate::proofs::Heights::one_height, crate::proofs::Heights::more_height, crate::proofs::Heights::all_taken))]
fn are_at_most(trees: &[Tree], most: usize) -> bool
    ensures { IsTrue result ↔ (highest (map height trees.now) ≤ most) }
{
    for tree in trees {
        if !is_at_most(tree, most) {
            return false;
        }
    }
    true
}
