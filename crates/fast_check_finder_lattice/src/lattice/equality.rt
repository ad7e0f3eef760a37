//! Equality of what is demanded: that of sets of paths.

ghost use Rattle.std.specs.Prelude.{◌≡◌, ◌↔◌, Some, IsTrue, length};
ghost use Rattle.fast_check_finder_lattice.specs.Names.{paths, paths_below, IsSame, IsBelow};
ghost use Rattle.fast_check_finder_lattice.specs.Graph.{entry, reach, below_node, IsTree, IsAfter};
ghost use Rattle.fast_check_finder_lattice.specs.Equality.{same_exports, same_names};
ghost use Rattle.fast_check_finder_lattice.specs.EqualityProof.{exports_laws, names_laws, exports_equiv, names_equiv};

use crate::lattice::named_subset::{Exports, NamedSubset};
use crate::lattice::node::{Below, Node};
use crate::lattice::nodes::{find_at, names_of};

impl PartialEq for Exports {
    ghost eq = { same_exports };

    ghost laws = { exports_laws };

    /// Whether both demand the same.
    fn eq(&self, other: &Exports) -> bool
        ensures value { result ≡ same_exports self.now other.now }
        ensures same { IsTrue result ↔ IsSame (paths_below self.now) (paths_below other.now) }
    {
        match (self, other) {
            (Exports::All, Exports::All) => true,
            (Exports::Subset(a), Exports::Subset(b)) => a == b,
            (Exports::All, Exports::Subset(_)) => false,
            (Exports::Subset(_), Exports::All) => false,
        }
    }
}

impl Eq for Exports {
    ghost laws = { exports_equiv };
}

impl PartialEq for NamedSubset {
    ghost eq = { same_names };

    ghost laws = { names_laws };

    /// Whether both have the same names, and below each the same. The order in which they were added plays no part.
    fn eq(&self, other: &NamedSubset) -> bool
        ensures value { result ≡ same_names self.now other.now }
        ensures same { IsTrue result ↔ IsSame (paths self.now) (paths other.now) }
    {
        let nodes = self.nodes.as_slice();
        let others = other.nodes.as_slice();
        is_within(nodes, 0, others, 0) && is_within(others, 0, nodes, 0)
    }
}

impl Eq for NamedSubset {
    ghost laws = { names_equiv };
}

/// Whether what stands under a name has all that stands under it in another set.
#[cycle(within)]
fn is_within_below(nodes: &[Node], at: usize, below: Below, others: &[Node], other: Below) -> bool
    requires tree { IsTree (entry nodes.now) (length nodes.now) }
    requires later { IsAfter at (length nodes.now) (Some below) }
    ensures { IsTrue result ↔ IsBelow (reach (entry nodes.now) (Some below)) (reach (entry others.now) (Some other)) }
{
    match (below, other) {
        (_, Below::All) => true,
        (Below::All, Below::Subset(_)) => false,
        (Below::Subset(no), Below::Subset(other)) => is_within(nodes, no.0, others, other.0),
    }
}

/// Whether each name of a node is one of a node of another set, with all that stands below it.
#[cycle(within)]
fn is_within(nodes: &[Node], at: usize, others: &[Node], other: usize) -> bool
    requires { IsTree (entry nodes.now) (length nodes.now) }
    ensures { IsTrue result ↔ IsBelow (below_node (entry nodes.now) at) (below_node (entry others.now) other) }
{
    for (name, below) in names_of(nodes, at) {
        let Some(held) = find_at(others, other, name.as_str()) else {
            return false;
        };
        if !is_within_below(nodes, at, *below, others, held) {
            return false;
        }
    }
    true
}
