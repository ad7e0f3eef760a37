//! Demands of what the public face of a declaration depends on.
ghost use Rattle.std.specs.Prelude.{◌≡◌, ◌++◌, OnOk};
ghost use Rattle.fast_check_finder_demands.specs.symbol_demands.Demands.{demand_of, same_symbol};
ghost use Rattle.fast_check_finder_demands.specs.symbol_demands.Rules.{parent_at, parent_names, dep_names, deps_names, kind_names};

use crate::symbol_demands::bindings::{bound, namespaces_of, push_named, push_reference};
use crate::symbol_demands::demand::{Namespaces, SymbolDemand};
use crate::symbol_demands::list::Demands;
use fast_check_tables_symbols::{
    CheckedTables, SymbolDeclKind, SymbolDep, SymbolId, SymbolNode, SymbolNodeDep,
};
use std::alloc::AllocError;

fn push_dep<'a>(
    tables: &CheckedTables,
    referrer: SymbolId,
    dep: &'a SymbolNodeDep,
    out: &mut Demands<'a>,
) -> Result<(), AllocError>
    ensures { OnOk result (out.new ≡ out.old ++ dep_names tables.now referrer dep.now.namespace dep.now.dep) }
{
    match &dep.dep {
        SymbolDep::Id(id) => {
            let Some(symbol) = bound(tables, id) else {
                return Ok(());
            };
            push_reference(symbol, namespaces_of(dep.namespace), referrer, out)
        }
        SymbolDep::QualifiedId(id, parts) => {
            let Some(symbol) = bound(tables, id) else {
                return Ok(());
            };
            push_named(symbol, parts.as_slice(), referrer, out)
        }
        SymbolDep::ImportType(_, _) => Ok(()),
    }
}

fn push_deps<'a>(
    tables: &CheckedTables,
    referrer: SymbolId,
    deps: &'a [SymbolNodeDep],
    out: &mut Demands<'a>,
) -> Result<(), AllocError>
    ensures { OnOk result (out.new ≡ out.old ++ deps_names tables.now referrer deps.now) }
{
    for dep in deps {
        push_dep(tables, referrer, dep, out)?;
    }
    Ok(())
}

fn push_parent_at(
    demand: SymbolDemand<'_>,
    parent: Option<SymbolId>,
    out: &mut Demands<'_>,
) -> Result<(), AllocError>
    ensures { OnOk result (out.new ≡ out.old ++ parent_at (demand_of demand.entry) parent) }
{
    match parent {
        None => Ok(()),
        Some(parent) => {
            if is_same(parent, demand.referrer) {
                return Ok(());
            }
            push_reference(parent, Namespaces::Both, demand.symbol, out)
        }
    }
}

/// Whether two ids are one.
pub fn is_same(a: SymbolId, b: SymbolId) -> bool
    ensures { result ≡ same_symbol a b }
{
    a.0 == b.0
}

fn push_parent(
    demand: SymbolDemand<'_>,
    is_member: bool,
    parent: Option<SymbolId>,
    out: &mut Demands<'_>,
) -> Result<(), AllocError>
    ensures { OnOk result (out.new ≡ out.old ++ parent_names (demand_of demand.entry) is_member parent) }
{
    if is_member {
        push_parent_at(demand, parent, out)
    } else {
        Ok(())
    }
}

fn push_node<'a>(
    tables: &CheckedTables,
    demand: SymbolDemand<'_>,
    parent: Option<SymbolId>,
    node: &'a SymbolNode,
    out: &mut Demands<'a>,
) -> Result<(), AllocError>
    ensures { OnOk result (out.new ≡ out.old ++ (parent_names (demand_of demand.entry) node.now.is_member parent ++
        deps_names tables.now demand.entry.symbol node.now.deps.items)) }
{
    push_parent(demand, node.is_member, parent, out)?;
    push_deps(tables, demand.symbol, node.deps.as_slice(), out)
}

/// What a declaration of a symbol demands, where the symbol is demanded in these namespaces.
pub fn push_kind<'a>(
    tables: &CheckedTables,
    demand: SymbolDemand<'_>,
    namespaces: Namespaces,
    parent: Option<SymbolId>,
    kind: &'a SymbolDeclKind,
    out: &mut Demands<'a>,
) -> Result<(), AllocError>
    ensures { OnOk result (out.new ≡ out.old ++ kind_names tables.now (demand_of demand.entry) namespaces parent kind.now) }
{
    match kind {
        SymbolDeclKind::Target(id) => {
            let Some(symbol) = bound(tables, id) else {
                return Ok(());
            };
            push_reference(symbol, namespaces, demand.symbol, out)
        }
        SymbolDeclKind::QualifiedTarget(id, parts) => {
            let Some(symbol) = bound(tables, id) else {
                return Ok(());
            };
            push_named(symbol, parts.as_slice(), demand.symbol, out)
        }
        SymbolDeclKind::FileRef { .. } | SymbolDeclKind::Definition(None) => Ok(()),
        SymbolDeclKind::Definition(Some(node)) => push_node(tables, demand, parent, node, out),
    }
}
