//! Demands of the children of a symbol: its exports, its members and what its declarations bind.
ghost use Rattle.std.specs.Prelude.{◌≡◌, [], ◌∷◌, ◌++◌, option_map, OnOk};
ghost use Rattle.fast_check_tables_symbols.specs.Exports.{seen_export};
ghost use Rattle.std.specs.List.{flat_map};
ghost use Rattle.fast_check_finder_demands.specs.symbol_demands.Demands.{demand_of};
ghost use Rattle.fast_check_finder_demands.specs.symbol_demands.Rules.{each_of, child, decl_names, exports_names, members_names, symbol_names};

use crate::symbol_demands::bindings::push_child;
use crate::symbol_demands::decls::binds;
use crate::symbol_demands::demand::{Namespaces, SymbolDemand};
use crate::symbol_demands::dependencies::push_kind;
use crate::symbol_demands::list::Demands;
use fast_check_tables_symbols::{CheckedTables, Symbol, SymbolDecl, SymbolExports, SymbolId};
use std::alloc::AllocError;

fn push_decl<'a>(
    tables: &CheckedTables,
    demand: SymbolDemand<'_>,
    namespaces: Namespaces,
    parent: Option<SymbolId>,
    decl: &'a SymbolDecl,
    out: &mut Demands<'a>,
) -> Result<(), AllocError>
    ensures { OnOk result (out.new ≡ out.old ++ decl_names tables.now (demand_of demand.entry) namespaces parent decl.now) }
{
    if binds(decl, namespaces) && !decl.is_implementation() {
        push_kind(tables, demand, namespaces, parent, &decl.kind, out)
    } else {
        Ok(())
    }
}

fn push_decls<'a>(
    tables: &CheckedTables,
    demand: SymbolDemand<'_>,
    namespaces: Namespaces,
    parent: Option<SymbolId>,
    decls: &'a [SymbolDecl],
    out: &mut Demands<'a>,
) -> Result<(), AllocError>
    ensures { OnOk result (out.new ≡ out.old ++ flat_map (decl_names tables.now (demand_of demand.entry) namespaces parent) decls.now) }
{
    for decl in decls {
        push_decl(tables, demand, namespaces, parent, decl, out)?;
    }
    Ok(())
}

fn push_export(
    demand: SymbolDemand<'_>,
    export: Option<(&str, SymbolId)>,
    out: &mut Demands<'_>,
) -> Result<(), AllocError>
    ensures { OnOk result (out.new ≡ out.old ++ each_of (λ e. child e.1 demand.entry.symbol ∷ []) (option_map seen_export export.entry)) }
{
    match export {
        None => Ok(()),
        Some((_, export)) => push_child(export, demand.symbol, out),
    }
}

fn push_exports(
    demand: SymbolDemand<'_>,
    exports: &SymbolExports,
    out: &mut Demands<'_>,
) -> Result<(), AllocError>
    ensures { OnOk result (out.new ≡ out.old ++ exports_names (demand_of demand.entry) exports.now) }
{
    for place in 0..exports.len() {
        push_export(demand, exports.at(place), out)?;
    }
    Ok(())
}

fn push_members(
    demand: SymbolDemand<'_>,
    members: &[SymbolId],
    out: &mut Demands<'_>,
) -> Result<(), AllocError>
    ensures { OnOk result (out.new ≡ out.old ++ members_names (demand_of demand.entry) members.now) }
{
    for member in members {
        push_child(*member, demand.symbol, out)?;
    }
    Ok(())
}

/// What a symbol demands where it is demanded in a namespace.
pub fn push_symbol<'a>(
    tables: &CheckedTables,
    demand: SymbolDemand<'_>,
    namespaces: Namespaces,
    symbol: &'a Symbol,
    out: &mut Demands<'a>,
) -> Result<(), AllocError>
    ensures { OnOk result (out.new ≡ out.old ++ symbol_names tables.now (demand_of demand.entry) namespaces symbol.now) }
{
    if symbol.is_private_member {
        return Ok(());
    }
    push_decls(
        tables,
        demand,
        namespaces,
        symbol.parent_id,
        symbol.decls.as_slice(),
        out,
    )?;
    push_exports(demand, &symbol.exports, out)?;
    push_members(demand, symbol.members.as_slice(), out)
}
