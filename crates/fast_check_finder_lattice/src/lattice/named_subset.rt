//! Sets of demanded names: a vector of nodes, of which the first is the root.

ghost use Rattle.std.specs.Prelude.{vec_len};
ghost use Rattle.fast_check_finder_lattice.specs.Graph.{entry, IsTree};
ghost use Rattle.std.proofs.Props.{props};

use crate::lattice::node::Node;

/// What is demanded below a name: all of it, or a subset, which may be empty.
#[derive(Debug, Drop)]
pub enum Exports {
    All,
    Subset(NamedSubset),
}

/// A set of names, each with what is demanded below it.
#[derive(Drop)]
pub struct NamedSubset {
    pub(crate) nodes: Vec<Node>,
    ghost tree: { IsTree (entry nodes.items) (vec_len nodes) } by { Prim.hlevel props },
}
