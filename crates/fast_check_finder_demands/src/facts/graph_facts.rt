//! The facts of a graph: what the finder may ask beside the tables of a module.
ghost use Rattle.std.specs.Prelude.{◌≡◌};
ghost use Rattle.std.specs.Option.{option_copied};
ghost use Rattle.url.specs.Parts.{serialize};
ghost use Rattle.fast_check_finder_demands.specs.facts.GraphFacts.{info_at, untyped_at};

use fast_check_tables_graph::{AnyModuleInfo, ModuleGraph, RootSymbol};
use fast_check_tables_packages::IndexedMembers;
use url::Url;

/// The facts of a graph: its modules, their tables by specifier, and the members of the workspace.
#[derive(Clone, Copy)]
pub struct GraphFacts<'a> {
    pub graph: &'a ModuleGraph,
    pub root_symbol: &'a RootSymbol,
    pub workspace_members: &'a IndexedMembers<'a>,
}

/// The module that is followed under a specifier: one of the graph that is typed and has tables.
pub fn info_of<'a>(
    graph: &ModuleGraph,
    root_symbol: &'a RootSymbol,
    specifier: &Url,
) -> Option<&'a AnyModuleInfo>
    ensures { option_copied result ≡ info_at graph.now root_symbol.now (serialize specifier.now) }
{
    let module = graph.get(specifier)?;
    if !module.is_typed() {
        return None;
    }
    root_symbol.module_from_specifier(specifier)
}

/// Whether a specifier names a module of the graph whose types are not known, and which is not external.
pub fn is_untyped(graph: &ModuleGraph, specifier: &Url) -> bool
    ensures { result ≡ untyped_at graph.now (serialize specifier.now) }
{
    match graph.get(specifier) {
        None => false,
        Some(module) => !(module.is_typed() || module.is_external()),
    }
}
