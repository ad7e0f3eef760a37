//! What is wrong with the entry points of a package.
ghost use Rattle.std.specs.Prelude.{◌≡◌, ◌++◌, IfOk, OnOk};
ghost use Rattle.fast_check_finder_ranges.specs.entries.Entries.{fault_at, faults_at, all_faults};

use crate::findings::EntryFault;
use fast_check_tables_graph::ModuleGraph;
use std::alloc::{AllocError, Global};
use std::collections::BTreeSet;
use url::Url;

/// What is wrong with an entry point, if anything is.
fn fault_at(graph: &ModuleGraph, url: &Url) -> Option<EntryFault>
    ensures { result ≡ fault_at graph.now url.now }
{
    match graph.get(url) {
        None => Some(EntryFault::NotFound),
        Some(module) => {
            if module.is_typed() {
                return None;
            }
            Some(EntryFault::Untyped)
        }
    }
}

fn push_fault(
    graph: &ModuleGraph,
    url: &Url,
    out: &mut Vec<(Url, EntryFault)>,
) -> Result<(), AllocError>
    ensures { OnOk result (out.new.items ≡ out.old.items ++ faults_at graph.now url.now) }
{
    match fault_at(graph, url) {
        None => Ok(()),
        Some(fault) => {
            let url = url.clone()?;
            out.push((url, fault))?;
            Ok(())
        }
    }
}

/// The entry points with which something is wrong, in order: those that the graph does not have, and those whose types are not known.
/// `AllocError` if memory runs out.
pub fn entry_faults(
    alloc: Global,
    graph: &ModuleGraph,
    urls: &BTreeSet<Url>,
) -> Result<Vec<(Url, EntryFault)>, AllocError>
    ensures { IfOk result (λ faults. faults.items ≡ all_faults graph.now urls.now.keys) }
{
    let mut faults = Vec::new(alloc);
    for url in urls {
        push_fault(graph, url, &mut faults)?;
    }
    Ok(faults)
}
