//! Nodes under other numbers.

ghost use Rattle.std.specs.Prelude.{◌≡◌, ◌<◌, ◌+◌, ◌^◌, IfOk, map, vec_len};
ghost use Rattle.fast_check_finder_lattice.specs.Graph.{listings, moved_below};
ghost use Rattle.fast_check_finder_lattice.specs.Numbers.{number, moved_entries, AreBehind};

use crate::lattice::node::{Below, Node, NodeNo};
use std::alloc::{AllocError, Global};

/// The numbers of so many nodes that come to stand behind others.
pub(crate) fn numbers_behind(
    alloc: Global,
    first: usize,
    count: usize,
) -> Result<Vec<Option<usize>>, AllocError>
    requires { first + count < 2 ^ 64 }
    ensures { IfOk result (λ numbers. AreBehind first count numbers.items) }
{
    let mut numbers = Vec::with_capacity(alloc, count)?;
    for place in 0..count {
        numbers.push(Some(first + place))?;
    }
    Ok(numbers)
}

/// The number of a node that stays.
fn number_of(numbers: &[Option<usize>], at: usize) -> usize
    ensures { result ≡ number numbers.now at }
{
    match numbers.get(at) {
        None => 0,
        Some(number) => number.unwrap_or(0),
    }
}

/// What stands under a name, under its new number.
fn renumbered(below: Below, numbers: &[Option<usize>]) -> Below
    ensures { result ≡ moved_below (number numbers.now) below }
{
    match below {
        Below::All => Below::All,
        Below::Subset(no) => Below::Subset(NodeNo(number_of(numbers, no.0))),
    }
}

/// Renumbers what stands under the names of one node.
fn renumber_names(names: &mut Vec<(String, Below)>, numbers: &[Option<usize>])
    ensures { names.new.items ≡ moved_entries (number numbers.now) names.old.items }
{
    for i in 0..names.len() {
        let listed = &mut names[i];
        listed.1 = renumbered(listed.1, numbers);
    }
}

/// Renumbers what one node lists.
fn renumber_node(node: &mut Node, numbers: &[Option<usize>])
    ensures { node.new.names.items ≡ moved_entries (number numbers.now) node.old.names.items }
{
    renumber_names(&mut node.names, numbers);
}

/// Renumbers what stands in all nodes.
pub(crate) fn renumber_nodes(nodes: &mut Vec<Node>, numbers: &[Option<usize>])
    ensures len { vec_len nodes.new ≡ vec_len nodes.old }
    ensures renumbered { listings nodes.new.items ≡ map (moved_entries (number numbers.now)) (listings nodes.old.items) }
{
    for i in 0..nodes.len() {
        let node = &mut nodes[i];
        renumber_node(node, numbers);
    }
}
