//! Where a name comes from behind the re-exports of all of a module.
ghost use Rattle.std.specs.Prelude.{◌≡◌, Some, None, cond, option_map, IfOk, IfSome, OnOk};
ghost use Rattle.std.specs.Option.{option_or};
ghost use Rattle.std.specs.Str.{bytes_eq};
ghost use Rattle.fast_check_finder_lattice.specs.Names.{Name};
ghost use Rattle.fast_check_tables_graph.specs.Graph.{resolved_to};
ghost use Rattle.fast_check_tables_graph.specs.Root.{specifier_of};
ghost use Rattle.fast_check_tables_modules.specs.symbols.Tables.{resolved_export};
ghost use Rattle.fast_check_finder_demands.specs.re_exports.Origins.{origin_of, indexed, own_origin, module_answer, origin_at, AreFound, Puts, IsIndexOf};

use crate::CheckedTables;
use crate::re_exports::modules::{GraphModule, own_tables, tables_of};
use fast_check_tables_modules::ReExportAllNode;
use std::alloc::{AllocError, Global};
use std::collections::{BTreeMap, BTreeSet};
use url::Url;

/// Where a name comes from: the re-export of all that has it, and the module that answers it.
#[derive(Clone, Copy)]
pub struct Origin<'a> {
    pub node: &'a ReExportAllNode,
    pub module: &'a Url,
}

/// The names behind the re-exports of all of a module, each with where it comes from first.
#[derive(Drop)]
pub struct ReExportIndex<'a> {
    names: BTreeMap<&'a str, Origin<'a>>,
}

/// Puts where a name comes from, unless it comes from an earlier one.
fn put_first<'a>(
    name: &'a str,
    origin: Origin<'a>,
    names: &mut BTreeMap<&'a str, Origin<'a>>,
) -> Result<(), AllocError>
    ensures { OnOk result ((asked : Name) → indexed asked names.new
        ≡ option_or (indexed asked names.old) (cond (bytes_eq asked name.now) (Some (origin_of origin.entry)) None)) }
{
    if names.contains_key(name) {
        return Ok(());
    }
    names.insert(name, origin)?;
    Ok(())
}

/// Puts where the names of a module come from, to which a re-export of all leads.
fn put_names<'a>(
    node: &'a ReExportAllNode,
    tables: &'a CheckedTables,
    names: &mut BTreeMap<&'a str, Origin<'a>>,
) -> Result<(), AllocError>
    ensures { OnOk result ((asked : Name) → indexed asked names.new
        ≡ option_or (indexed asked names.old) (option_map (λ url. (node.now, url)) (resolved_export tables.now asked))) }
{
    for (name, module) in tables.resolved_exports() {
        put_first(name.as_str(), Origin { node, module }, names)?;
    }
    Ok(())
}

/// The same of the module at a URL, unless the URL was met, of whose module each name was put.
fn put_url<'a>(
    traced: GraphModule<'a>,
    node: &'a ReExportAllNode,
    url: &'a Url,
    met: &mut BTreeSet<&'a str>,
    names: &mut BTreeMap<&'a str, Origin<'a>>,
) -> Result<(), AllocError>
    requires { AreFound traced met.old names.old }
    ensures { OnOk result (Puts traced.entry (λ asked. option_map (λ answer. (node.now, answer)) (module_answer traced.entry asked url.now))
        met.new names.old names.new) }
{
    let text = url.as_str();
    if met.contains(text) {
        return Ok(());
    }
    met.insert(text)?;
    match traced.root_symbol.module_from_specifier(url) {
        None => Ok(()),
        Some(info) => put_names(node, tables_of(info), names),
    }
}

/// Puts where the names behind a re-export of all come from.
fn put_behind<'a>(
    traced: GraphModule<'a>,
    node: &'a ReExportAllNode,
    met: &mut BTreeSet<&'a str>,
    names: &mut BTreeMap<&'a str, Origin<'a>>,
) -> Result<(), AllocError>
    requires { AreFound traced met.old names.old }
    ensures { OnOk result (Puts traced.entry (λ asked. origin_at traced.entry asked node.now) met.new names.old names.new) }
{
    let text = node.specifier.as_str();
    match traced
        .graph
        .resolve_dependency(text, traced.info.specifier())
    {
        None => Ok(()),
        Some(url) => put_url(traced, node, url, met, names),
    }
}

/// The names behind the re-exports of all of a module.
fn index_of<'a>(alloc: Global, traced: GraphModule<'a>) -> Result<ReExportIndex<'a>, AllocError>
    ensures { IfOk result (IsIndexOf traced.entry) }
{
    let mut met = BTreeSet::new(alloc);
    let mut names = BTreeMap::new(alloc);
    for node in own_tables(traced).re_export_all_nodes() {
        put_behind(traced, node, &mut met, &mut names)?;
    }
    Ok(ReExportIndex { names })
}

/// Where a name comes from, by the index, which is made at the first look.
pub fn origin_by<'a>(
    alloc: Global,
    traced: GraphModule<'a>,
    name: &str,
    index: &mut Option<ReExportIndex<'a>>,
) -> Result<Option<Origin<'a>>, AllocError>
    requires { IfSome index.old (IsIndexOf traced) }
    ensures index { OnOk result (IfSome index.new (IsIndexOf traced.entry)) }
    ensures origin { IfOk result (λ origin. option_map origin_of origin ≡ own_origin traced.entry name.now) }
{
    if let Some(index) = &*index {
        return Ok(index.names.get(name).copied());
    }
    let made = index_of(alloc, traced)?;
    let origin = made.names.get(name).copied();
    *index = Some(made);
    Ok(origin)
}
