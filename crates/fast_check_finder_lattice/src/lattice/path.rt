//! The nodes of one path: each lists one name, and under it the next.

ghost use Rattle.std.specs.Prelude.{◌≡◌, ◌<◌, Some, None, IfOk, cond, length, string_bytes, vec_len};
ghost use Rattle.std.specs.Str.{bytes_eq};
ghost use Rattle.fast_check_finder_lattice.specs.Order.{Name, found};
ghost use Rattle.fast_check_finder_lattice.specs.Graph.{entry};
ghost use Rattle.fast_check_finder_lattice.specs.Names.{path_of};
ghost use Rattle.fast_check_finder_lattice.specs.Graph.{IsLine, link_at};

use crate::lattice::node::{Below, Node, NodeNo};
use crate::lattice::nodes::node_of;
use std::alloc::{AllocError, Global};

/// A node that lists one name.
fn node_of_name(alloc: Global, name: &String, below: Below) -> Result<Node, AllocError>
    ensures { IfOk result (λ node. (n : Name) → found node.names.items n ≡ cond (bytes_eq (string_bytes name.now) n) (Some below) None) }
{
    let mut names = Vec::with_capacity(alloc, 1)?;
    names.push((name.clone()?, below))?;
    node_of(alloc, names)
}

/// What stands under the name of a place of a path: the next node, and all under the last.
fn below_place(count: usize, place: usize) -> Below
    requires { place < count }
    ensures { result ≡ link_at count place }
{
    if place + 1 == count {
        return Below::All;
    }
    Below::Subset(NodeNo(place + 1))
}

/// The nodes of a path that is demanded whole.
pub(crate) fn nodes_of(alloc: Global, parts: &[String]) -> Result<Vec<Node>, AllocError>
    ensures len { IfOk result (λ nodes. vec_len nodes ≡ length parts.now) }
    ensures line { IfOk result (λ nodes. IsLine (path_of parts.now) (length parts.now) (entry nodes.items)) }
{
    let mut nodes = Vec::with_capacity(alloc, parts.len())?;
    for place in 0..parts.len() {
        let below = below_place(parts.len(), place);
        nodes.push(node_of_name(alloc, &parts[place], below)?)?;
    }
    Ok(nodes)
}
