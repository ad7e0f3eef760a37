//! A name that comes to stand whole takes the place of a subset, whose node goes, and with it each node that it lists. The numbers of those that stay
//! are made first, and then nothing can fail.

ghost use Rattle.std.specs.Prelude.{◌≡◌, ◌<◌, ℕ, true, IsTrue, IfOk, OnOk, OnErr, Some, ◌∷◌, [], vec_len, length, is_some};
ghost use Rattle.fast_check_finder_lattice.specs.Graph.{entry, listings, IsTree, IsWritten};
ghost use Rattle.fast_check_finder_lattice.specs.Names.{whole_below, IsAdded};
ghost use Rattle.fast_check_finder_lattice.specs.Numbers.{stays, rank, is_node, lists_node, AreGone, AreRanks, AreMovedDown, IsWithout};

use crate::lattice::node::{Below, Node};
use crate::lattice::nodes::{names_of, place_of};
use crate::lattice::numbers::renumber_nodes;
use std::alloc::{AllocError, Global};

/// Whether a node stays.
fn is_staying(numbers: &[Option<usize>], at: usize) -> bool
    ensures { result ≡ stays numbers.now at }
{
    match numbers.get(at) {
        None => false,
        Some(number) => number.is_some(),
    }
}

/// The node goes whose number stands under a name.
fn drop_below(numbers: &mut Vec<Option<usize>>, below: Below)
    ensures len { vec_len numbers.new ≡ vec_len numbers.old }
    ensures gone { AreGone (is_node below) numbers.old.items numbers.new.items }
{
    let Below::Subset(no) = below else {
        return;
    };
    if no.0 < numbers.len() {
        numbers[no.0] = None;
    }
}

/// The nodes go whose numbers stand under the names of a node.
fn drop_listed(numbers: &mut Vec<Option<usize>>, names: &[(String, Below)])
    ensures len { vec_len numbers.new ≡ vec_len numbers.old }
    ensures gone { AreGone (lists_node names.now) numbers.old.items numbers.new.items }
{
    for (_, below) in names {
        drop_below(numbers, *below);
    }
}

/// In one pass, since a node lists later ones alone: a node goes, and each that a node lists that goes, and each other gets its number, which is how
/// many stay before it.
fn number_nodes(numbers: &mut Vec<Option<usize>>, nodes: &[Node], gone: usize)
    requires within { gone < length nodes.now }
    requires tree { IsTree (entry nodes.now) (length nodes.now) }
    requires len { vec_len numbers.old ≡ length nodes.now }
    requires all { (k : ℕ) → k < length nodes.now → stays numbers.old.items k ≡ true }
    ensures len { vec_len numbers.new ≡ vec_len numbers.old }
    ensures without { IsWithout (entry nodes.now) gone (stays numbers.new.items) }
    ensures ranks { AreRanks numbers.new.items }
{
    numbers[gone] = None;
    let mut next = 0;
    for at in 0..nodes.len() {
        if is_staying(numbers.as_slice(), at) {
            numbers[at] = Some(next);
            next += 1;
            continue;
        }
        drop_listed(numbers, names_of(nodes, at));
    }
}

/// The numbers of the nodes that stay where one goes, with all below it.
fn numbers_without(
    alloc: Global,
    nodes: &[Node],
    gone: usize,
) -> Result<Vec<Option<usize>>, AllocError>
    requires within { gone < length nodes.now }
    requires tree { IsTree (entry nodes.now) (length nodes.now) }
    ensures len { IfOk result (λ numbers. vec_len numbers ≡ length nodes.now) }
    ensures without { IfOk result (λ numbers. IsWithout (entry nodes.now) gone (stays numbers.items)) }
    ensures ranks { IfOk result (λ numbers. AreRanks numbers.items) }
{
    let mut numbers = Vec::new(alloc);
    numbers.resize(nodes.len(), Some(0))?;
    number_nodes(&mut numbers, nodes, gone);
    Ok(numbers)
}

/// The nodes that stay move down, in their order, and the others go.
fn move_down(nodes: &mut Vec<Node>, numbers: &[Option<usize>])
    ensures len { vec_len nodes.new ≡ rank (stays numbers.now) (vec_len nodes.old) }
    ensures moved { AreMovedDown (stays numbers.now) (vec_len nodes.old) (listings nodes.old.items) (listings nodes.new.items) }
{
    let mut next = 0;
    for i in 0..nodes.len() {
        if !is_staying(numbers, i) {
            continue;
        }
        nodes.swap(next, i);
        next += 1;
    }
    nodes.truncate(next);
}

/// Writes All under a name that is listed.
fn write_all(nodes: &mut Vec<Node>, at: usize, name: &str)
    requires within { at < vec_len nodes.old }
    requires listed { IsTrue (is_some (entry nodes.old.items at name.now)) }
    ensures len { vec_len nodes.new ≡ vec_len nodes.old }
    ensures written { IsWritten (entry nodes.old.items) at name.now (Some Below.All) (entry nodes.new.items) }
{
    let node = &mut nodes[at];
    match place_of(node, name) {
        Some(place) => node.names[place].1 = Below::All,
        None => {}
    }
}

/// Demands whole a name of node `at` under which a subset stands, whose node goes with all below it.
pub(crate) fn cover(
    nodes: &mut Vec<Node>,
    alloc: Global,
    at: usize,
    name: &str,
    no: usize,
) -> Result<(), AllocError>
    requires within { at < vec_len nodes.old }
    requires tree { IsTree (entry nodes.old.items) (vec_len nodes.old) }
    requires listed { entry nodes.old.items at name.now ≡ Some (Below.Subset (record { 0 = no })) }
    ensures tree { IsTree (entry nodes.new.items) (vec_len nodes.new) }
    ensures added { OnOk result (IsAdded (entry nodes.old.items) at (whole_below (name.now ∷ [])) (entry nodes.new.items)) }
    ensures err { OnErr result (nodes.new ≡ nodes.old) }
{
    let numbers = numbers_without(alloc, nodes.as_slice(), no)?;
    write_all(nodes, at, name);
    renumber_nodes(nodes, numbers.as_slice());
    move_down(nodes, numbers.as_slice());
    Ok(())
}
