//! Whether a set demands a path.

ghost use Rattle.std.specs.Prelude.{◌≡◌, ◌<◌, ◌∷◌, IfSome, IfNone, length};
ghost use Rattle.fast_check_finder_lattice.specs.Graph.{Part, entry, ends, reach};
ghost use Rattle.fast_check_finder_lattice.specs.Names.{paths, path_of, part_of};

use crate::lattice::named_subset::NamedSubset;
use crate::lattice::node::{Below, Node};
use crate::lattice::nodes::find_at;

/// What stands under the names of a path that were looked up, and the names that are left.
#[derive(Clone, Copy)]
struct LeftPath<'a> {
    below: Option<Below>,
    rest: &'a [String],
}

/// One name further: None where nothing or all stands there, or no name is left.
fn past_name<'a>(nodes: &[Node], here: &LeftPath<'a>) -> Option<LeftPath<'a>>
    ensures same { IfSome result (λ next. (part : Part) → reach (entry nodes.now) next.below part (path_of next.rest.now)
        ≡ reach (entry nodes.now) here.now.below part (path_of here.now.rest.now)) }
    ensures shorter { IfSome result (λ next. length next.rest.now < length here.now.rest.now) }
    ensures last { IfNone result ((part : Part) → reach (entry nodes.now) here.now.below part (path_of here.now.rest.now)
        ≡ ends here.now.below part) }
{
    let Some(listed) = here.below else {
        return None;
    };
    let Below::Subset(no) = listed else {
        return None;
    };
    let Some((name, rest)) = here.rest.split_first() else {
        return None;
    };
    let below = find_at(nodes, no.0, name.as_str());
    Some(LeftPath { below, rest })
}

/// Whether a path that ends here is demanded.
fn is_end(below: Option<Below>, is_whole: bool) -> bool
    ensures { result ≡ ends below (part_of is_whole) }
{
    match below {
        None => false,
        Some(Below::All) => true,
        Some(Below::Subset(_)) => !is_whole,
    }
}

/// Whether a path is demanded below what stands under a name. It takes no more steps than until that is settled.
fn reaches(nodes: &[Node], below: Option<Below>, rest: &[String], is_whole: bool) -> bool
    ensures { result ≡ reach (entry nodes.now) below (part_of is_whole) (path_of rest.now) }
{
    let mut here = LeftPath { below, rest };
    'down: while let Some(next) = past_name(nodes, &here) {
        here = next;
    }
    is_end(here.below, is_whole)
}

impl NamedSubset {
    /// Whether a path is demanded: a name, and the names below it, whole or at least in part.
    pub fn demands_path(&self, first: &str, rest: &[String], is_whole: bool) -> bool
        ensures { result ≡ paths self.now (part_of is_whole) (first.now ∷ path_of rest.now) }
    {
        let nodes = self.nodes.as_slice();
        reaches(nodes, find_at(nodes, 0, first), rest, is_whole)
    }
}
