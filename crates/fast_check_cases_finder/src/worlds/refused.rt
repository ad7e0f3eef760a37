//! A world again, with the calls of its provider refused from each on.
use crate::said_packages::say_packages;
use crate::worlds::world::World;
use fast_check_build::PublicRangeFinder;
use fast_check_cases::Said;
use fast_check_tables_cache::PackagePublicRanges;
use fast_check_tables_graph::RootSymbol;
use fast_check_tables_packages::{BuildFault, PackageNv};
use fast_check_tree_syntax::SourceRange;
use std::alloc::Global;
use std::collections::{BTreeMap, VecDeque};

/// More calls than a world makes.
const MOST_CALLS: u64 = 10_000;

/// What is public in packages, or why the finder stops.
type Found = Result<BTreeMap<PackageNv, PackagePublicRanges>, BuildFault>;

/// What is found from the packages that are handed in.
fn find(alloc: Global, world: &World, root_symbol: &RootSymbol) -> Found {
    let pending_nvs = VecDeque::from(world.pending.clone()?);
    let finder = PublicRangeFinder::new(
        &world.graph,
        root_symbol,
        world.workspace_members.as_slice(),
        pending_nvs,
    );
    finder.find(alloc, None, &world.provider)
}

fn say_fault(alloc: Global, fault: &BuildFault, said: &mut Said) {
    match fault {
        BuildFault::InvalidExport { package, export } => {
            said.say_made(format!(in alloc; "\n  invalid export {export} of {package}"))
        }
        BuildFault::OutOfMemory => said.lack(),
    }
}

/// Says what is found in a world.
pub fn say_found(
    alloc: Global,
    world: &World,
    root_symbol: &RootSymbol,
    ranges: &[SourceRange],
    said: &mut Said,
) {
    match find(alloc, world, root_symbol) {
        Ok(found) => say_packages(alloc, ranges, found, said),
        Err(fault) => say_fault(alloc, &fault, said),
    }
}

/// Finds again with a provider whose calls are refused from one on, and says where that is another answer than out of memory. Where none is left to be refused,
/// the answer has to be the one that was said without. Answers whether a call was refused.
fn find_refused(
    alloc: Global,
    world: &World,
    root_symbol: &RootSymbol,
    ranges: &[SourceRange],
    wanted: &Said,
    said: &mut Said,
) -> bool {
    let mut again = Said::new(alloc);
    say_found(alloc, world, root_symbol, ranges, &mut again);
    let has_refused = world.provider.has_refused();
    if has_refused {
        if again.text().is_some() {
            said.say("\n  an answer where a call was refused");
        }
    } else if again.text() != wanted.text() {
        said.say("\n  another answer after calls were refused");
    }
    has_refused
}

/// Refuses the calls of the provider from the first on, from the second on, and so forth. Answers whether a call was refused.
pub fn refuse_calls(
    alloc: Global,
    world: &World,
    root_symbol: &RootSymbol,
    ranges: &[SourceRange],
    wanted: &Said,
    said: &mut Said,
) -> bool {
    for calls in 0..MOST_CALLS {
        world.provider.answer(calls);
        if !find_refused(alloc, world, root_symbol, ranges, wanted, said) {
            return calls > 0;
        }
    }
    said.say("\n  more calls than are tried");
    true
}
