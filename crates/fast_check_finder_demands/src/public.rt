//! The ranges that a demand makes public, and those of implementations.
ghost use Rattle.std.specs.Prelude.{◌≡◌, ◌++◌, ◌&&◌, ◌||◌, not, option_map, OnOk};
ghost use Rattle.fast_check_tables_symbols.specs.Exports.{seen_export};
ghost use Rattle.std.specs.List.{filter};
ghost use Rattle.fast_check_finder_demands.specs.symbol_demands.Demands.{demand_of};
ghost use Rattle.fast_check_finder_demands.specs.symbol_demands.Decls.{binds as binds_in, is_implementation as implements};
ghost use Rattle.fast_check_finder_demands.specs.symbol_demands.Rules.{each_of};
ghost use Rattle.fast_check_finder_demands.specs.Yields.{decl_ranges, is_within, is_outside, has_properties, stands_outside, ranges_at, export_ranges};
ghost use Rattle.fast_check_finder_demands.specs.Yields.{property_ranges, symbol_ranges, ranges};
ghost use Rattle.fast_check_finder_demands.specs.Yields.{symbol_implementations, implementations};

use crate::symbol_demands::{Ask, Namespaces, SymbolDemand, binds, is_function};
use fast_check_tables_symbols::{CheckedTables, Symbol, SymbolDecl, SymbolExports, SymbolId};
use fast_check_tree_syntax::{SourcePos, SourceRange};
use std::alloc::AllocError;

fn is_within(range: SourceRange, inner: SourceRange) -> bool
    ensures { result ≡ is_within range inner }
{
    range.start.0 <= inner.start.0 && inner.end.0 <= range.end.0
}

/// The range from the later start to the earlier end. What lies outside of a range, or outside of what was hidden before, lies outside of this.
fn hidden_by_both(before: Option<SourceRange>, range: SourceRange) -> SourceRange
    ensures { (r : SourceRange) → not (is_within result r) ≡ (is_outside before r || not (is_within range r)) }
{
    let Some(before) = before else {
        return range;
    };
    SourceRange {
        start: SourcePos(before.start.0.max(range.start.0)),
        end: SourcePos(before.end.0.min(range.end.0)),
    }
}

/// Whether properties may be assigned to a declaration: to a function of the namespaces that implements no overloads.
fn has_properties(decl: &SymbolDecl, namespaces: Namespaces) -> bool
    ensures { result ≡ has_properties namespaces decl.now }
{
    binds(decl, namespaces) && is_function(decl) && !decl.is_implementation()
}

/// The range outside of which the properties of the functions among declarations stand: outside of one of these.
fn hidden_properties(decls: &[SymbolDecl], namespaces: Namespaces) -> Option<SourceRange>
    ensures { (r : SourceRange) → is_outside result r ≡ stands_outside namespaces decls.now r }
{
    let mut found = None;
    for decl in decls {
        if has_properties(decl, namespaces) {
            found = Some(hidden_by_both(found, decl.range));
        }
    }
    found
}

/// Pushes the declarations that stand outside of a range.
fn push_outside(
    hidden: SourceRange,
    decls: &[SymbolDecl],
    out: &mut Vec<SourceRange>,
) -> Result<(), AllocError>
    ensures { OnOk result (out.new.items ≡ out.old.items ++ filter (λ r. not (is_within hidden r)) (decl_ranges decls.now)) }
{
    for decl in decls {
        if !is_within(hidden, decl.range) {
            out.push(decl.range)?;
        }
    }
    Ok(())
}

fn push_export(
    tables: &CheckedTables,
    hidden: SourceRange,
    export: Option<(&str, SymbolId)>,
    out: &mut Vec<SourceRange>,
) -> Result<(), AllocError>
    ensures { OnOk result (out.new.items ≡ out.old.items
        ++ filter (λ r. not (is_within hidden r)) (each_of (λ e. ranges_at tables.now e.1) (option_map seen_export export.entry))) }
{
    let Some((_, id)) = export else {
        return Ok(());
    };
    let Some(symbol) = tables.symbol(id) else {
        return Ok(());
    };
    push_outside(hidden, symbol.decls.as_slice(), out)
}

/// Pushes the declarations of exported symbols that stand outside of a range.
fn push_exports(
    tables: &CheckedTables,
    hidden: SourceRange,
    exports: &SymbolExports,
    out: &mut Vec<SourceRange>,
) -> Result<(), AllocError>
    ensures { OnOk result (out.new.items ≡ out.old.items ++ filter (λ r. not (is_within hidden r)) (export_ranges tables.now exports.now)) }
{
    for place in 0..exports.len() {
        push_export(tables, hidden, exports.at(place), out)?;
    }
    Ok(())
}

/// Pushes the properties of the functions among the declarations of a symbol.
fn push_properties(
    tables: &CheckedTables,
    namespaces: Namespaces,
    symbol: &Symbol,
    out: &mut Vec<SourceRange>,
) -> Result<(), AllocError>
    ensures { OnOk result (out.new.items ≡ out.old.items ++ property_ranges tables.now namespaces symbol.now) }
{
    match hidden_properties(symbol.decls.as_slice(), namespaces) {
        None => Ok(()),
        Some(hidden) => push_exports(tables, hidden, &symbol.exports, out),
    }
}

fn push_bound(
    namespaces: Namespaces,
    decls: &[SymbolDecl],
    out: &mut Vec<SourceRange>,
) -> Result<(), AllocError>
    ensures { OnOk result (out.new.items ≡ out.old.items ++ decl_ranges (filter (λ x. binds_in x namespaces) decls.now)) }
{
    for decl in decls {
        if binds(decl, namespaces) {
            out.push(decl.range)?;
        }
    }
    Ok(())
}

fn push_symbol(
    tables: &CheckedTables,
    namespaces: Namespaces,
    symbol: &Symbol,
    out: &mut Vec<SourceRange>,
) -> Result<(), AllocError>
    ensures { OnOk result (out.new.items ≡ out.old.items ++ symbol_ranges tables.now namespaces symbol.now) }
{
    if symbol.is_private_member {
        return Ok(());
    }
    push_bound(namespaces, symbol.decls.as_slice(), out)?;
    push_properties(tables, namespaces, symbol, out)
}

fn push_decls(decls: &[SymbolDecl], out: &mut Vec<SourceRange>) -> Result<(), AllocError>
    ensures { OnOk result (out.new.items ≡ out.old.items ++ decl_ranges decls.now) }
{
    for decl in decls {
        out.push(decl.range)?;
    }
    Ok(())
}

/// Pushes the ranges that a demand makes public.
pub fn push_ranges(
    tables: &CheckedTables,
    demand: SymbolDemand<'_>,
    out: &mut Vec<SourceRange>,
) -> Result<(), AllocError>
    ensures { OnOk result (out.new.items ≡ out.old.items ++ ranges tables.now (demand_of demand.entry)) }
{
    let Some(symbol) = tables.symbol(demand.symbol) else {
        return Ok(());
    };
    match demand.ask {
        Ask::Reference(namespaces) | Ask::Child(namespaces) => {
            push_symbol(tables, namespaces, symbol, out)
        }
        Ask::Path(_, _) => push_decls(symbol.decls.as_slice(), out),
    }
}

fn push_implementing(
    namespaces: Namespaces,
    decls: &[SymbolDecl],
    out: &mut Vec<SourceRange>,
) -> Result<(), AllocError>
    ensures { OnOk result (out.new.items ≡ out.old.items ++ decl_ranges (filter (λ x. binds_in x namespaces && implements x) decls.now)) }
{
    for decl in decls {
        if binds(decl, namespaces) && decl.is_implementation() {
            out.push(decl.range)?;
        }
    }
    Ok(())
}

fn push_symbol_implementations(
    namespaces: Namespaces,
    symbol: &Symbol,
    out: &mut Vec<SourceRange>,
) -> Result<(), AllocError>
    ensures { OnOk result (out.new.items ≡ out.old.items ++ symbol_implementations namespaces symbol.now) }
{
    if symbol.is_private_member || !symbol.decls.has_implementation() {
        return Ok(());
    }
    push_implementing(namespaces, symbol.decls.as_slice(), out)
}

/// Pushes the ranges that a demand makes public as implementations of overloads.
pub fn push_implementations(
    tables: &CheckedTables,
    demand: SymbolDemand<'_>,
    out: &mut Vec<SourceRange>,
) -> Result<(), AllocError>
    ensures { OnOk result (out.new.items ≡ out.old.items ++ implementations tables.now (demand_of demand.entry)) }
{
    let Some(symbol) = tables.symbol(demand.symbol) else {
        return Ok(());
    };
    match demand.ask {
        Ask::Reference(namespaces) | Ask::Child(namespaces) => {
            push_symbol_implementations(namespaces, symbol, out)
        }
        Ask::Path(_, _) => Ok(()),
    }
}
