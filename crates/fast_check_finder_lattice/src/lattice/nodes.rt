//! The nodes of a set of names.

ghost use Rattle.std.specs.Prelude.{◌≡◌, ◌<◌, ◌≤◌, ◌+◌, ℕ, cond, get_or, Some, None, IfOk, OnOk, OnErr, [], string_bytes, vec_len, vec_capacity};
ghost use Rattle.std.specs.Str.{bytes_eq};
ghost use Rattle.fast_check_finder_lattice.specs.Order.{Name, found, IsAbsent, IsOnce, IsPlace};
ghost use Rattle.fast_check_finder_lattice.specs.Graph.{entry, listings, HasRoom, IsTree, IsWritten, IsGraft};

use crate::lattice::node::{Below, Node, NodeNo};
use crate::lattice::numbers::{numbers_behind, renumber_nodes};
use crate::lattice::order::{search, slot, sort_places};
use std::alloc::{AllocError, Global};

/// Where a name stands, if a node lists it.
pub(crate) fn place_of(node: &Node, name: &str) -> Option<usize>
    ensures { IsPlace node.now.names.items name.now result }
{
    match search(node.names.as_slice(), node.sorted.as_slice(), name) {
        Ok(place) => Some(place),
        Err(_) => None,
    }
}

/// What a node lists under a name: nothing where the node is not there.
pub(crate) fn find_at(nodes: &[Node], at: usize, name: &str) -> Option<Below>
    ensures { result ≡ entry nodes.now at name.now }
{
    let Some(node) = nodes.get(at) else {
        return None;
    };
    match place_of(node, name) {
        Some(place) => Some(node.names[place].1),
        None => None,
    }
}

/// The names that a node lists: none where the node is not there.
pub(crate) fn names_of(nodes: &[Node], at: usize) -> &[(String, Below)]
    ensures names { result.now ≡ get_or (listings nodes.now) at [] }
    ensures once { IsOnce result.now }
{
    match nodes.get(at) {
        None => &[],
        Some(node) => node.names.as_slice(),
    }
}

/// A node that lists nothing.
pub(crate) fn bare_node(alloc: Global) -> Node
    ensures { result.names.items ≡ [] }
{
    Node {
        names: Vec::new(alloc),
        sorted: Vec::new(alloc),
    }
}

/// A node that lists these names.
pub(crate) fn node_of(alloc: Global, names: Vec<(String, Below)>) -> Result<Node, AllocError>
    requires { IsOnce names.items }
    ensures { IfOk result (λ node. node.names.items ≡ names.items) }
{
    let sorted = sort_places(alloc, names.as_slice())?;
    Ok(Node { names, sorted })
}

/// Makes the first node, where there is none.
pub(crate) fn put_root(nodes: &mut Vec<Node>, alloc: Global) -> Result<(), AllocError>
    requires { IsTree (entry nodes.old.items) (vec_len nodes.old) }
    ensures some { OnOk result (0 < vec_len nodes.new) }
    ensures same { (k : ℕ) (n : Name) → entry nodes.new.items k n ≡ entry nodes.old.items k n }
    ensures tree { IsTree (entry nodes.new.items) (vec_len nodes.new) }
    ensures err { OnErr result (listings nodes.new.items ≡ listings nodes.old.items) }
{
    if nodes.is_empty() {
        nodes.push(bare_node(alloc))?;
    }
    Ok(())
}

/// Room for the elements of a vector and `more`: None where they fit, else a vector without elements to which they can move.
fn room_for<T: Drop>(
    alloc: Global,
    items: &Vec<T>,
    more: usize,
) -> Result<Option<Vec<T>>, AllocError>
    ensures { IfOk result (HasRoom items.now more) }
{
    let Some(enough) = items.len().checked_add(more) else {
        return Err(AllocError);
    };
    if enough <= items.capacity() {
        return Ok(None);
    }
    let twice = items.len().saturating_mul(2);
    let room = Vec::with_capacity(alloc, enough.max(twice))?;
    Ok(Some(room))
}

/// Moves the elements of a vector into the room, where there is one.
fn move_into<T: Drop>(items: &mut Vec<T>, room: Option<Vec<T>>)
    requires { HasRoom items.old 0 room }
    ensures items { items.new.items ≡ items.old.items }
    ensures len { vec_len items.new ≡ vec_len items.old }
    ensures room { (more : ℕ) → HasRoom items.old more room → vec_len items.old + more ≤ vec_capacity items.new }
{
    let Some(mut wider) = room else {
        return;
    };
    let _ = wider.append(items);
    *items = wider;
}

/// Lists a name that is not listed, where there is room for it, at a place that is the number of the names.
fn list_name(node: &mut Node, name: String, below: Below, place: u32)
    requires absent { IsAbsent node.old.names.items (string_bytes name) }
    requires place { place ≡ vec_len node.old.names }
    requires names_room { vec_len node.old.names + 1 ≤ vec_capacity node.old.names }
    requires sorted_room { vec_len node.old.sorted + 1 ≤ vec_capacity node.old.sorted }
    ensures { (n : Name) → found node.new.names.items n ≡ cond (bytes_eq (string_bytes name) n) (Some below) (found node.old.names.items n) }
{
    let at = slot(node.names.as_slice(), node.sorted.as_slice(), name.as_str());
    let _ = node.names.push((name, below));
    let _ = node.sorted.insert(at, place);
}

/// Lists what stands under a name that a node lacks. All room is made first, so that a refusal leaves the nodes as they were.
pub(crate) fn put_name(
    nodes: &mut Vec<Node>,
    alloc: Global,
    at: usize,
    name: String,
    below: Below,
) -> Result<(), AllocError>
    requires within { at < vec_len nodes.old }
    requires free { entry nodes.old.items at (string_bytes name) ≡ None }
    ensures len { vec_len nodes.new ≡ vec_len nodes.old }
    ensures room { vec_capacity nodes.new ≡ vec_capacity nodes.old }
    ensures written { OnOk result (IsWritten (entry nodes.old.items) at (string_bytes name) (Some below) (entry nodes.new.items)) }
    ensures err { OnErr result (nodes.new ≡ nodes.old) }
{
    let Ok(place) = u32::try_from(nodes[at].names.len()) else {
        return Err(AllocError);
    };
    let names_room = room_for(alloc, &nodes[at].names, 1)?;
    let sorted_room = room_for(alloc, &nodes[at].sorted, 1)?;
    let node = &mut nodes[at];
    move_into(&mut node.names, names_room);
    move_into(&mut node.sorted, sorted_room);
    list_name(node, name, below, place);
    Ok(())
}

/// Puts a tree under a name that a node lacks. The tree is moved in. If memory runs out, it is dropped, and the nodes are as they were.
pub(crate) fn graft(
    nodes: &mut Vec<Node>,
    alloc: Global,
    at: usize,
    name: String,
    mut tree: Vec<Node>,
) -> Result<(), AllocError>
    requires within { at < vec_len nodes.old }
    requires free { entry nodes.old.items at (string_bytes name) ≡ None }
    requires tree { IsTree (entry tree.items) (vec_len tree) }
    ensures len { OnOk result (vec_len nodes.new ≡ vec_len nodes.old + vec_len tree) }
    ensures graft { OnOk result (IsGraft (entry nodes.old.items) (vec_len nodes.old) at (string_bytes name) (entry tree.items) (entry nodes.new.items)) }
    ensures err { OnErr result (nodes.new ≡ nodes.old) }
{
    let first = nodes.len();
    let numbers = numbers_behind(alloc, first, tree.len())?;
    let room = room_for(alloc, nodes, tree.len())?;
    put_name(nodes, alloc, at, name, Below::Subset(NodeNo(first)))?;
    move_into(nodes, room);
    // What was reserved is said by the capacity, and so holds that `append` asks for no memory.
    let _room = nodes.capacity();
    renumber_nodes(&mut tree, numbers.as_slice());
    let _ = nodes.append(&mut tree);
    Ok(())
}
