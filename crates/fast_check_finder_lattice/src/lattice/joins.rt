//! Two sets are joined in one pass over a queue of pairs of their nodes: each pair whose node is made puts those that stand below it at the end.

ghost use Rattle.std.specs.Prelude.{◌≡◌, ◌++◌, IfOk, OnOk, Some, MatchOption, length, string_bytes, vec_len};
ghost use Rattle.fast_check_finder_lattice.specs.Order.{IsOnce, found};
ghost use Rattle.fast_check_finder_lattice.specs.Graph.{entry, reach, below_node, IsForest};
ghost use Rattle.fast_check_finder_lattice.specs.Names.{paths, paths_below, IsJoin, IsSame};
ghost use Rattle.fast_check_finder_lattice.specs.Pairs.{alone, beside, both, numbered, pairs_of, IsMade, IsPushed};

use crate::lattice::named_subset::{Exports, NamedSubset};
use crate::lattice::node::{Below, Node, NodeNo};
use crate::lattice::nodes::{find_at, names_of, node_of};
use std::alloc::{AllocError, Global};

/// A node of a set: the nodes of the set, and which of them it is. A number past the nodes stands for none.
#[derive(Clone, Copy)]
pub(crate) struct NodeAt<'a> {
    pub nodes: &'a [Node],
    pub no: usize,
}

/// A node of the first set and one of the second that stand at the same place.
#[derive(Clone, Copy)]
pub(crate) struct Pair {
    pub first: usize,
    pub second: usize,
}

/// What comes of what stands under a name of either set: all, or a node of a pair.
#[derive(Clone, Copy)]
pub(crate) enum Both {
    Whole,
    Nodes(Pair),
}

/// What comes of what stands under a name of the first set, beside what the second has there. `none` is no node of the second.
fn both_beside(below: Below, more: Option<Below>, none: usize) -> Both
    ensures { result ≡ beside none below more }
{
    let Below::Subset(first) = below else {
        return Both::Whole;
    };
    let Some(more) = more else {
        return Both::Nodes(Pair {
            first: first.0,
            second: none,
        });
    };
    match more {
        Below::All => Both::Whole,
        Below::Subset(second) => Both::Nodes(Pair {
            first: first.0,
            second: second.0,
        }),
    }
}

/// What comes of what the second set alone has under a name. `none` is no node of the first.
fn both_alone(below: Below, none: usize) -> Both
    ensures { result ≡ alone none below }
{
    let Below::Subset(second) = below else {
        return Both::Whole;
    };
    Both::Nodes(Pair {
        first: none,
        second: second.0,
    })
}

/// What is listed: all, or the place of the pair, which joins the queue.
fn join_queue(queue: &mut Vec<Pair>, both: Both) -> Result<Below, AllocError>
    ensures queue { OnOk result (queue.new.items ≡ queue.old.items ++ pairs_of both) }
    ensures below { IfOk result (λ below. below ≡ numbered (vec_len queue.old) both) }
{
    match both {
        Both::Whole => Ok(Below::All),
        Both::Nodes(pair) => {
            let place = queue.len();
            queue.push(pair)?;
            Ok(Below::Subset(NodeNo(place)))
        }
    }
}

/// Lists a name, with what comes of what stands below it.
fn push_both(
    names: &mut Vec<(String, Below)>,
    queue: &mut Vec<Pair>,
    name: &String,
    both: Both,
) -> Result<(), AllocError>
    ensures { OnOk result (IsPushed names.old.items names.new.items queue.old.items queue.new.items (string_bytes name.now) both) }
{
    let below = join_queue(queue, both)?;
    names.push((name.clone()?, below))?;
    Ok(())
}

/// Lists a name of the first set, with what comes of what stands below it in either.
fn push_joined(
    names: &mut Vec<(String, Below)>,
    queue: &mut Vec<Pair>,
    listed: &(String, Below),
    new: NodeAt,
) -> Result<(), AllocError>
    ensures { OnOk result (IsPushed names.old.items names.new.items queue.old.items queue.new.items (string_bytes listed.now.0)
        (beside (length new.entry.nodes.now) listed.now.1 (entry new.entry.nodes.now new.entry.no (string_bytes listed.now.0)))) }
{
    let more = find_at(new.nodes, new.no, listed.0.as_str());
    let both = both_beside(listed.1, more, new.nodes.len());
    push_both(names, queue, &listed.0, both)
}

/// Lists a name of the second set that the first lacks, with what comes of what stands below it.
fn push_absent(
    names: &mut Vec<(String, Below)>,
    queue: &mut Vec<Pair>,
    listed: &(String, Below),
    old: NodeAt,
) -> Result<(), AllocError>
    ensures { OnOk result (MatchOption (entry old.entry.nodes.now old.entry.no (string_bytes listed.now.0))
        (IsPushed names.old.items names.new.items queue.old.items queue.new.items (string_bytes listed.now.0)
        (alone (length old.entry.nodes.now) listed.now.1))
        (λ held. (names.new.items ≡ names.old.items) × (queue.new.items ≡ queue.old.items))) }
{
    if find_at(old.nodes, old.no, listed.0.as_str()).is_some() {
        return Ok(());
    }
    let both = both_alone(listed.1, old.nodes.len());
    push_both(names, queue, &listed.0, both)
}

/// The names of a pair, each once, with what comes of what stands below it in either. Those of the first set keep their places.
fn joined_names(
    alloc: Global,
    old: NodeAt,
    new: NodeAt,
    queue: &mut Vec<Pair>,
) -> Result<Vec<(String, Below)>, AllocError>
    ensures once { IfOk result (λ names. IsOnce names.items) }
    ensures made { IfOk result (λ names. IsMade queue.old.items queue.new.items (found names.items)
        (λ n. both (length old.entry.nodes.now) (length new.entry.nodes.now) (entry old.entry.nodes.now old.entry.no n)
        (entry new.entry.nodes.now new.entry.no n))) }
{
    let first = names_of(old.nodes, old.no);
    let second = names_of(new.nodes, new.no);
    let mut names = Vec::with_capacity(alloc, first.len())?;
    let mut i = 0;
    let mut j = 0;
    'names: while i < first.len() || j < second.len() {
        if i < first.len() {
            push_joined(&mut names, queue, &first[i], new)?;
            i += 1;
        } else {
            push_absent(&mut names, queue, &second[j], old)?;
            j += 1;
        }
    }
    Ok(names)
}

/// What stands below a node of either set, in a vector of its own.
pub(crate) fn join_node(alloc: Global, old: NodeAt, new: NodeAt) -> Result<NamedSubset, AllocError>
    requires old_forest { IsForest (entry old.nodes.now) (length old.nodes.now) }
    requires new_forest { IsForest (entry new.nodes.now) (length new.nodes.now) }
    ensures { IfOk result (λ joined. IsJoin (below_node (entry old.entry.nodes.now) old.entry.no)
        (below_node (entry new.entry.nodes.now) new.entry.no) (paths joined)) }
{
    let mut queue = Vec::new(alloc);
    queue.push(Pair {
        first: old.no,
        second: new.no,
    })?;
    let mut nodes = Vec::new(alloc);
    let mut i = 0;
    'queue: while i < queue.len() {
        let pair = queue[i];
        let first = NodeAt {
            nodes: old.nodes,
            no: pair.first,
        };
        let second = NodeAt {
            nodes: new.nodes,
            no: pair.second,
        };
        let names = joined_names(alloc, first, second, &mut queue)?;
        nodes.push(node_of(alloc, names)?)?;
        i += 1;
    }
    Ok(NamedSubset { nodes })
}

/// A copy of what stands below a node, in a vector of its own: its join with nothing.
pub(crate) fn copy_node(alloc: Global, nodes: &[Node], at: usize) -> Result<NamedSubset, AllocError>
    requires { IsForest (entry nodes.now) (length nodes.now) }
    ensures { IfOk result (λ copy. IsSame (paths copy) (below_node (entry nodes.now) at)) }
{
    if at >= nodes.len() {
        return Ok(NamedSubset::default(alloc));
    }
    join_node(
        alloc,
        NodeAt { nodes, no: at },
        NodeAt { nodes: &[], no: 0 },
    )
}

/// A copy of what stands below a name, in a vector of its own.
pub(crate) fn copy_below(alloc: Global, nodes: &[Node], below: Below) -> Result<Exports, AllocError>
    requires { IsForest (entry nodes.now) (length nodes.now) }
    ensures { IfOk result (λ copy. IsSame (paths_below copy) (reach (entry nodes.now) (Some below))) }
{
    match below {
        Below::All => Ok(Exports::All),
        Below::Subset(no) => Ok(Exports::Subset(copy_node(alloc, nodes, no.0)?)),
    }
}
