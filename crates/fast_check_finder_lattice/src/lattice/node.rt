//! A node lists its names, and under each all, or the number of another node.

ghost use Rattle.fast_check_finder_lattice.specs.Order.{names_in, IsSorted};
ghost use Rattle.std.proofs.Props.{props};

/// The number of a node in its vector.
#[derive(Clone, Copy)]
pub struct NodeNo(pub usize);

/// What stands under a name: all of it, or a subset, by the number of its node.
#[derive(Clone, Copy)]
pub enum Below {
    All,
    Subset(NodeNo),
}

/// The names of a node in the order in which they came, each once, and their places, sorted by name.
#[derive(Drop)]
pub struct Node {
    pub names: Vec<(String, Below)>,
    pub sorted: Vec<u32>,
    ghost order: { IsSorted (names_in names.items) sorted.items } by { Prim.hlevel props },
}
