//! Whether each range of a tree lies in that of the node around it.
ghost use Rattle.std.specs.Prelude.{◌≡◌, map};
ghost use Rattle.std.specs.List.{list_all};
ghost use Rattle.fast_check_source_walks.specs.Ranges.{is_between as lies_between, is_nested as lies, follow as they_follow, inside as lie_inside, in_class as lie_in_class};

use crate::ends::{end_of, own_range};
use fast_check_tree_syntax::{Kind, SourceRange, Tree};

/// Whether a range does not end before it begins, and lies between two places.
fn is_between(low: u32, range: SourceRange, high: u32) -> bool
    ensures { result ≡ lies_between low range high }
{
    low <= range.start.0 && range.start.0 <= range.end.0 && range.end.0 <= high
}

/// Whether the ranges of a tree lie between two places, each in that of the node around it, and the items of each list behind one another.
#[cycle(nested)]
#[tactic(auto, using(crate::proofs::Levels::nested_node, crate::proofs::Levels::nested_range, crate::proofs::Levels::nested_absent, crate::proofs::Levels::nested_flag, crate::proofs::Levels::nested_context, crate::proofs::Levels::nested_text, crate::proofs::Levels::nested_word, crate::proofs::Heights::node_height))]
pub fn is_nested(tree: &Tree, low: u32, high: u32) -> bool
    ensures { result ≡ lies tree.now low high }
{
    match tree {
        Tree::Range(range) => is_between(low, *range, high),
        Tree::Node(kind, parts) => match own_range(*kind, parts.as_slice()) {
            Some(own) => is_between(low, own, high) && are_inside(*kind, parts.as_slice(), own),
            None => if *kind == Kind::List {
                are_in_order(parts.as_slice(), low, high)
            } else {
                are_nested(parts.as_slice(), low, high)
            },
        },
        Tree::Absent => true,
        Tree::Flag(_) => true,
        Tree::Context(_) => true,
        Tree::Text(_) => true,
        Tree::Word(_) => true,
    }
}

/// Whether the parts of a node lie in its range, but for the decorators of a class.
#[cycle(nested)]
fn are_inside(kind: Kind, parts: &[Tree], own: SourceRange) -> bool
    ensures { result ≡ lie_inside kind (map lies parts.now) own }
{
    if kind == Kind::Class {
        are_in_class(parts, own)
    } else {
        are_nested(parts, own.start.0, own.end.0)
    }
}

/// The same of the parts of a class.
#[cycle(nested)]
#[tactic(auto, using(crate::proofs::Heights::one_height))]
fn are_in_class(parts: &[Tree], own: SourceRange) -> bool
    ensures { result ≡ lie_in_class (map lies parts.now) own }
{
    match parts {
        [_, _, decorators, rest @ ..] => {
            is_nested(decorators, 1, own.end.0) && are_nested(rest, own.start.0, own.end.0)
        }
        _ => are_nested(parts, own.start.0, own.end.0),
    }
}

/// Whether the ranges of each tree lie between two places.
#[cycle(nested)]
#[tactic(auto, using(crate::proofs::Levels::all_step, crate::proofs::Heights::one_height))]
fn are_nested(trees: &[Tree], low: u32, high: u32) -> bool
    ensures { result ≡ list_all (λ test. test low high) (map lies trees.now) }
{
    for tree in trees {
        if !is_nested(tree, low, high) {
            return false;
        }
    }
    true
}

/// Whether the ranges of each tree lie between two places and behind those of the trees before it.
#[cycle(nested)]
#[tactic(auto, using(crate::proofs::Levels::follow_step, crate::proofs::Heights::one_height))]
fn are_in_order(trees: &[Tree], low: u32, high: u32) -> bool
    ensures { result ≡ they_follow trees.now (map lies trees.now) low high }
{
    let mut from = low;
    for tree in trees {
        if !is_nested(tree, from, high) {
            return false;
        }
        from = from.max(end_of(tree));
    }
    true
}
