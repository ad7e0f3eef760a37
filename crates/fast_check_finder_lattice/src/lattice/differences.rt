//! What a new set has beyond an old one is what two passes leave of the new set's nodes. A node lists later ones alone. So the first pass
//! goes forwards, and notes for each node what the old set has at its place; the second goes back from the last node, and takes out each
//! name below which nothing is new.

ghost use Rattle.std.specs.Prelude.{◌≡◌, ◌<◌, ℕ, OnOk, IfOk, cond, length, vec_len};
ghost use Rattle.fast_check_finder_lattice.specs.declared.lattice.node.NodeNo.{NodeNo};
ghost use Rattle.fast_check_finder_lattice.specs.Graph.{entry, listings, below_node, IsTree};
ghost use Rattle.fast_check_finder_lattice.specs.Names.{paths, IsDifference};
ghost use Rattle.fast_check_finder_lattice.specs.Numbers.{is_node};
ghost use Rattle.fast_check_finder_lattice.specs.Pruned.{under, place_at, has_names, lacks, kept_at, AreNoted, AreOthersSame, AreBeside, IsPruned};

use crate::lattice::joins::copy_node;
use crate::lattice::named_subset::NamedSubset;
use crate::lattice::node::{Below, Node, NodeNo};
use crate::lattice::nodes::{bare_node, find_at, names_of, node_of};
use std::alloc::{AllocError, Global};
use std::mem;

/// What the old set has under a name, below what it has at a place.
fn held_under(old: &[Node], place: Option<Below>, name: &str) -> Option<Below>
    ensures { result ≡ under (entry old.now) place name.now }
{
    let Some(place) = place else {
        return None;
    };
    match place {
        Below::All => Some(Below::All),
        Below::Subset(no) => find_at(old, no.0, name),
    }
}

/// What the old set has at the place of a node, as it is noted. What is not there stands for the root.
fn noted(places: &[Option<Below>], at: usize) -> Option<Below>
    ensures { result ≡ place_at places.now at }
{
    match places.get(at) {
        None => Some(Below::Subset(NodeNo(0))),
        Some(place) => *place,
    }
}

/// Notes for the node of a subset that stands under a name, below a place, what the old set has there.
fn note_below(
    places: &mut Vec<Option<Below>>,
    old: &[Node],
    place: Option<Below>,
    name: &str,
    below: Below,
)
    requires { (j : NodeNo) → below ≡ Below.Subset j → j.0 < vec_len places.old }
    ensures len { vec_len places.new ≡ vec_len places.old }
    ensures noted { (k : ℕ) → place_at places.new.items k
        ≡ cond (is_node below k) (under (entry old.now) place name.now) (place_at places.old.items k) }
{
    let Below::Subset(no) = below else {
        return;
    };
    places[no.0] = held_under(old, place, name);
}

/// Notes for each node that node `at` lists what the old set has at its place.
fn note_listed(places: &mut Vec<Option<Below>>, old: &[Node], nodes: &[Node], at: usize)
    requires tree { IsTree (entry nodes.now) (length nodes.now) }
    requires len { vec_len places.old ≡ length nodes.now }
    ensures len { vec_len places.new ≡ vec_len places.old }
    ensures listed { AreNoted (entry old.now) (place_at places.old.items at) (entry nodes.now at) places.new.items }
    ensures others { AreOthersSame (entry nodes.now at) places.old.items places.new.items }
{
    let place = noted(places.as_slice(), at);
    for (name, below) in names_of(nodes, at) {
        note_below(places, old, place, name.as_str(), *below);
    }
}

/// What the old set has at the place of each node of the new one.
fn places_beside(
    alloc: Global,
    old: &[Node],
    nodes: &[Node],
) -> Result<Vec<Option<Below>>, AllocError>
    requires { IsTree (entry nodes.now) (length nodes.now) }
    ensures { IfOk result (λ places. AreBeside (entry old.now) (entry nodes.now) places.items) }
{
    let mut places = Vec::new(alloc);
    places.resize(nodes.len(), Some(Below::Subset(NodeNo(0))))?;
    for at in 0..nodes.len() {
        note_listed(&mut places, old, nodes, at);
    }
    Ok(places)
}

/// Whether what the old set has under a name lacks something of what stands there in the new one. Of a subset beside a subset that is known
/// once its node is pruned: something is lacking where it still has names.
fn is_lacking(nodes: &[Node], held: Option<Below>, below: Below) -> bool
    ensures { result ≡ lacks (has_names (listings nodes.now)) held below }
{
    let Some(held) = held else {
        return true;
    };
    match (held, below) {
        (Below::All, _) => false,
        (Below::Subset(_), Below::All) => true,
        (Below::Subset(_), Below::Subset(no)) => !names_of(nodes, no.0).is_empty(),
    }
}

/// Keeps those names of node `at` of which the old set lacks something, in their order.
fn prune_node(
    nodes: &mut Vec<Node>,
    alloc: Global,
    old: &[Node],
    place: Option<Below>,
    at: usize,
) -> Result<(), AllocError>
    requires { at < vec_len nodes.old }
    ensures len { vec_len nodes.new ≡ vec_len nodes.old }
    ensures kept { OnOk result (listings nodes.new.items ≡ kept_at (under (entry old.now) place) at (listings nodes.old.items)) }
{
    let mut names = mem::replace(&mut nodes[at], bare_node(alloc)).names;
    let others = nodes.as_slice();
    names.retain(|listed| {
        is_lacking(others, held_under(old, place, listed.0.as_str()), listed.1)
    });
    nodes[at] = node_of(alloc, names)?;
    Ok(())
}

/// Takes out each name of which the old set lacks nothing. The last node comes first, so that it is known what is left of those that a node
/// lists.
fn prune(
    alloc: Global,
    nodes: &mut Vec<Node>,
    old: &[Node],
    places: &[Option<Below>],
) -> Result<(), AllocError>
    requires tree { IsTree (entry nodes.old.items) (vec_len nodes.old) }
    requires beside { AreBeside (entry old.now) (entry nodes.old.items) places.now }
    ensures len { vec_len nodes.new ≡ vec_len nodes.old }
    ensures pruned { OnOk result (IsPruned (entry old.now) places.now (entry nodes.old.items) (listings nodes.new.items)) }
{
    let mut left = nodes.len();
    'nodes: while left > 0 {
        left -= 1;
        prune_node(nodes, alloc, old, noted(places, left), left)?;
    }
    Ok(())
}

/// What a new set has beyond the nodes of an old one: a copy of those nodes that are still listed.
pub(crate) fn difference(
    alloc: Global,
    old: &[Node],
    new: NamedSubset,
) -> Result<NamedSubset, AllocError>
    ensures { IfOk result (λ rest. IsDifference (below_node (entry old.now) 0) (paths new) (paths rest)) }
{
    let mut nodes = new.nodes;
    let places = places_beside(alloc, old, nodes.as_slice())?;
    prune(alloc, &mut nodes, old, places.as_slice())?;
    copy_node(alloc, nodes.as_slice(), 0)
}
