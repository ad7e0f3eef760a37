//! Where the last range of a tree ends.
ghost use Rattle.std.specs.Prelude.{◌≡◌, map};
ghost use Rattle.fast_check_tree_syntax.specs.Height.{highest};
ghost use Rattle.fast_check_source_walks.specs.Ranges.{own_range as own, end_of as last};

use fast_check_tree_syntax::{Kind, SourceRange, Tree};

/// The range of a node, if it has one.
pub fn own_range(kind: Kind, parts: &[Tree]) -> Option<SourceRange>
    ensures { result ≡ own kind parts.now }
{
    match kind {
        Kind::ExprOrSpread => None,
        Kind::SpreadElement => None,
        _ => match parts.first() {
            Some(Tree::Range(range)) => Some(*range),
            _ => None,
        },
    }
}

/// Where the last range of a tree ends, or 0 where it has none.
#[cycle(ends)]
#[tactic(auto, using(crate::proofs::Levels::end_node, crate::proofs::Levels::end_range, crate::proofs::Levels::end_absent, crate::proofs::Levels::end_flag, crate::proofs::Levels::end_context, crate::proofs::Levels::end_text, crate::proofs::Levels::end_word, crate::proofs::Heights::node_height))]
pub fn end_of(tree: &Tree) -> u32
    ensures { result ≡ last tree.now }
{
    match tree {
        Tree::Range(range) => range.end.0,
        Tree::Node(kind, parts) => match own_range(*kind, parts.as_slice()) {
            Some(own) => own.end.0,
            None => end_of_all(parts.as_slice()),
        },
        Tree::Absent => 0,
        Tree::Flag(_) => 0,
        Tree::Context(_) => 0,
        Tree::Text(_) => 0,
        Tree::Word(_) => 0,
    }
}

/// The last place where one of the trees ends.
#[cycle(ends)]
#[tactic(auto, using(crate::proofs::Levels::end_more, crate::proofs::Heights::one_height))]
fn end_of_all(trees: &[Tree]) -> u32
    ensures { result ≡ highest (map last trees.now) }
{
    let mut end: u32 = 0;
    for tree in trees {
        end = end.max(end_of(tree));
    }
    end
}
