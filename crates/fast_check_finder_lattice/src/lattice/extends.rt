//! Where a set gains what another one has beyond it, if that is one path.

ghost use Rattle.std.specs.Prelude.{◌≡◌, ◌∷◌, [], length, get_or, IfSome};
ghost use Rattle.fast_check_finder_lattice.specs.Graph.{entry, listings, IsTree};
ghost use Rattle.fast_check_finder_lattice.specs.Names.{IsJoint};

use crate::lattice::node::{Below, Node};
use crate::lattice::nodes::{find_at, names_of};

/// The name that a node lists alone, and what stands under it: None where it lists none or more.
pub(crate) fn alone(nodes: &[Node], at: usize) -> Option<&(String, Below)>
    ensures { IfSome result (λ listed. get_or (listings nodes.now) at [] ≡ listed.now ∷ []) }
{
    let names = names_of(nodes, at);
    if names.len() != 1 {
        return None;
    }
    Some(&names[0])
}

/// The nodes that come next, where a node of another set lists one name alone and both sets have a subset there.
fn next_joint(nodes: &[Node], at: usize, others: &[Node], other: usize) -> Option<(usize, usize)>
    requires { IsTree (entry nodes.now) (length nodes.now) }
    ensures { IfSome result (IsJoint (entry nodes.now) (length nodes.now) at (entry others.now) other) }
{
    let (name, below) = alone(others, other)?;
    let Below::Subset(next) = *below else {
        return None;
    };
    let Some(Below::Subset(no)) = find_at(nodes, at, name.as_str()) else {
        return None;
    };
    Some((no.0, next.0))
}

/// The node to which all comes that another set adds, and the other set's node that lists it: None where there is no node yet.
pub(crate) fn joint(nodes: &[Node], others: &[Node]) -> Option<(usize, usize)>
    requires { IsTree (entry nodes.now) (length nodes.now) }
    ensures { IfSome result (IsJoint (entry nodes.now) (length nodes.now) 0 (entry others.now) 0) }
{
    if nodes.is_empty() {
        return None;
    }
    let mut at = 0;
    let mut other = 0;
    for _ in 0..others.len() {
        let Some((no, next)) = next_joint(nodes, at, others, other) else {
            break;
        };
        at = no;
        other = next;
    }
    Some((at, other))
}
