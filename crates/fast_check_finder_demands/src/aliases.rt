//! What follows from a demand of an alias, of a member and of a class.
ghost use Rattle.std.specs.Prelude.{◌≡◌, ◌∷◌, [], ◌++◌, OnOk, cond, string_bytes};
ghost use Rattle.std.specs.List.{flat_map};
ghost use Rattle.std.specs.Option.{option_copied};
ghost use Rattle.fast_check_finder_lattice.specs.Names.{path_of};
ghost use Rattle.fast_check_tables_symbols.specs.Symbols.{symbol_of};
ghost use Rattle.fast_check_finder_demands.specs.symbol_demands.Demands.{demand_of};
ghost use Rattle.fast_check_finder_demands.specs.symbol_demands.Rules.{each_of, qualified, parts_names, member_names, prototype_names, export_names};
ghost use Rattle.fast_check_finder_demands.specs.symbol_demands.Rules.{whole_names, export_part_names, first_names};
ghost use Rattle.fast_check_finder_demands.specs.symbol_demands.Passed.{alias_passed, path_passed, own_parts, own_names};
ghost use Rattle.fast_check_finder_demands.specs.Yields.{Adds};

use crate::names::is_prototype;
use crate::symbol_demands::{
    Demands, Extent, Namespaces, SymbolDemand, bound, push_path, push_reference,
};
use fast_check_tables_symbols::{CheckedTables, SymbolDeclKind, SymbolDecls, SymbolId};
use std::alloc::AllocError;
use std::slice;

/// Pushes each name of an alias's own path, whole.
fn push_parts<'a>(
    demand: SymbolDemand<'_>,
    symbol: SymbolId,
    parts: &'a [String],
    out: &mut Demands<'a>,
) -> Result<(), AllocError>
    ensures { OnOk result (out.new ≡ out.old ++ parts_names (demand_of demand.entry) symbol parts.now) }
{
    for part in parts {
        push_path(
            symbol,
            slice::from_ref(part),
            Extent::Whole,
            demand.referrer,
            out,
        )?;
    }
    Ok(())
}

/// Pushes the path that is passed on by an alias, for the symbol that it is bound to.
fn push_alias<'a>(
    tables: &CheckedTables,
    demand: SymbolDemand<'_>,
    names: &'a [String],
    extent: Extent,
    kind: Option<&'a SymbolDeclKind>,
    out: &mut Demands<'a>,
) -> Result<(), AllocError>
    ensures { OnOk result (out.new ≡ out.old ++
        each_of (alias_passed tables.now (demand_of demand.entry) (path_of names.now) extent) (option_copied kind.entry)) }
{
    let Some(SymbolDeclKind::Target(id) | SymbolDeclKind::QualifiedTarget(id, _)) = kind else {
        return Ok(());
    };
    match bound(tables, id) {
        None => Ok(()),
        Some(symbol) => push_path(symbol, names, extent, demand.referrer, out),
    }
}

/// Pushes the path that is passed on by the aliases among declarations.
fn push_aliases<'a>(
    tables: &CheckedTables,
    demand: SymbolDemand<'_>,
    names: &'a [String],
    extent: Extent,
    decls: &'a SymbolDecls,
    out: &mut Demands<'a>,
) -> Result<(), AllocError>
    ensures { OnOk result (Adds (flat_map (λ x. alias_passed tables.now (demand_of demand.entry) (path_of names.now) extent x.kind) decls.now.items)
        out.old out.new) }
{
    for place in decls.alias_places() {
        push_alias(tables, demand, names, extent, decls.kind_at(*place), out)?;
    }
    Ok(())
}

/// Pushes each name of the own path of an alias, for the symbol that it is bound to.
fn push_own_at<'a>(
    tables: &CheckedTables,
    demand: SymbolDemand<'_>,
    kind: Option<&'a SymbolDeclKind>,
    out: &mut Demands<'a>,
) -> Result<(), AllocError>
    ensures { OnOk result (out.new ≡ out.old ++ each_of (own_parts tables.now demand.entry.referrer) (option_copied kind.entry)) }
{
    let Some(SymbolDeclKind::QualifiedTarget(id, parts)) = kind else {
        return Ok(());
    };
    match bound(tables, id) {
        None => Ok(()),
        Some(symbol) => push_parts(demand, symbol, parts.as_slice(), out),
    }
}

/// Pushes the names of the own paths of the aliases among declarations.
fn push_own<'a>(
    tables: &CheckedTables,
    demand: SymbolDemand<'_>,
    decls: &'a SymbolDecls,
    out: &mut Demands<'a>,
) -> Result<(), AllocError>
    ensures { OnOk result (Adds (flat_map (λ x. own_parts tables.now demand.entry.referrer x.kind) decls.now.items) out.old out.new) }
{
    for place in decls.alias_places() {
        push_own_at(tables, demand, decls.kind_at(*place), out)?;
    }
    Ok(())
}

/// Pushes the names of the own paths of the aliases among the declarations of the symbol of a demand.
pub fn push_own_names<'a>(
    tables: &'a CheckedTables,
    demand: SymbolDemand<'_>,
    out: &mut Demands<'a>,
) -> Result<(), AllocError>
    ensures { OnOk result (Adds (own_names tables.now demand.entry.symbol demand.entry.referrer) out.old out.new) }
{
    let Some(symbol) = tables.symbol(demand.symbol) else {
        return Ok(());
    };
    if symbol.decls.has_alias() {
        return push_own(tables, demand, &symbol.decls, out);
    }
    Ok(())
}

fn push_member(
    demand: SymbolDemand<'_>,
    below: &[String],
    extent: Extent,
    member: Option<SymbolId>,
    out: &mut Demands<'_>,
) -> Result<(), AllocError>
    ensures { OnOk result (out.new ≡ out.old ++ member_names (demand_of demand.entry) (path_of below.now) extent member) }
{
    match (extent, member) {
        (Extent::Whole, Some(member)) if below.is_empty() => {
            push_reference(member, Namespaces::Both, demand.referrer, out)
        }
        _ => Ok(()),
    }
}

fn push_prototype(
    tables: &CheckedTables,
    demand: SymbolDemand<'_>,
    below: &[String],
    extent: Extent,
    out: &mut Demands<'_>,
) -> Result<(), AllocError>
    ensures { OnOk result (out.new ≡ out.old ++ each_of (λ s. prototype_names tables.now (demand_of demand.entry) (path_of below.now) extent s)
        (symbol_of demand.entry.symbol tables.now.symbols)) }
{
    let Some(_symbol) = tables.symbol(demand.symbol) else {
        return Ok(());
    };
    match below.split_first() {
        Some((name, deeper)) => {
            let member = tables.member_named(demand.symbol, name.as_str());
            push_member(demand, deeper, extent, member, out)
        }
        None => push_class(demand, extent, out),
    }
}

fn push_class(
    demand: SymbolDemand<'_>,
    extent: Extent,
    out: &mut Demands<'_>,
) -> Result<(), AllocError>
    ensures { OnOk result (out.new ≡ out.old ++ whole_names (demand_of demand.entry) extent) }
{
    match extent {
        Extent::Touched => Ok(()),
        Extent::Whole => push_reference(demand.symbol, Namespaces::Both, demand.referrer, out),
    }
}

fn push_export<'a>(
    demand: SymbolDemand<'_>,
    below: &'a [String],
    extent: Extent,
    closed: bool,
    export: Option<SymbolId>,
    out: &mut Demands<'a>,
) -> Result<(), AllocError>
    ensures { OnOk result (out.new ≡ out.old ++ export_names (demand_of demand.entry) (path_of below.now) extent closed export) }
{
    match export {
        Some(export) => push_export_part(demand, below, extent, export, out),
        None => {
            if closed {
                return Ok(());
            }
            push_reference(demand.symbol, Namespaces::Both, demand.referrer, out)
        }
    }
}

fn push_export_part<'a>(
    demand: SymbolDemand<'_>,
    below: &'a [String],
    extent: Extent,
    export: SymbolId,
    out: &mut Demands<'a>,
) -> Result<(), AllocError>
    ensures { OnOk result (out.new ≡ out.old ++ export_part_names (demand_of demand.entry) (path_of below.now) extent export) }
{
    match extent {
        Extent::Whole if below.is_empty() => {
            push_reference(export, Namespaces::Both, demand.referrer, out)
        }
        _ => push_path(export, below, extent, demand.referrer, out),
    }
}

fn push_first<'a>(
    tables: &'a CheckedTables,
    demand: SymbolDemand<'_>,
    names: &'a [String],
    extent: Extent,
    out: &mut Demands<'a>,
) -> Result<(), AllocError>
    ensures { OnOk result (out.new ≡ out.old ++ each_of (λ s. first_names tables.now (demand_of demand.entry) (path_of names.now) extent s)
        (symbol_of demand.entry.symbol tables.now.symbols)) }
{
    let Some(symbol) = tables.symbol(demand.symbol) else {
        return Ok(());
    };
    let Some((name, below)) = names.split_first() else {
        return Ok(());
    };
    if is_prototype(name.as_str(), &symbol.decls) {
        return push_prototype(tables, demand, below, extent, out);
    }
    let closed = symbol.decls.is_closed();
    push_export(
        demand,
        below,
        extent,
        closed,
        symbol.exports.get(name.as_str()),
        out,
    )
}

/// Pushes what a path below the symbol of a demand demands, without the names of an alias's own path.
pub fn push_path_demands<'a>(
    tables: &'a CheckedTables,
    demand: SymbolDemand<'_>,
    names: &'a [String],
    extent: Extent,
    out: &mut Demands<'a>,
) -> Result<(), AllocError>
    ensures { OnOk result (Adds (each_of (λ s. path_passed tables.now (demand_of demand.entry) (path_of names.now) extent s)
        (symbol_of demand.entry.symbol tables.now.symbols)) out.old out.new) }
{
    let Some(symbol) = tables.symbol(demand.symbol) else {
        return Ok(());
    };
    if symbol.decls.has_alias() {
        push_aliases(tables, demand, names, extent, &symbol.decls, out)
    } else {
        push_first(tables, demand, names, extent, out)
    }
}
