//! The symbols that the names of a module ask for.
ghost use Rattle.std.specs.Prelude.{◌≡◌, ◌∷◌, [], ◌++◌, option_map, OnOk, IfOk};
ghost use Rattle.std.specs.Option.{option_copied};
ghost use Rattle.fast_check_finder_lattice.specs.Names.{path_of};
ghost use Rattle.fast_check_tables_symbols.specs.Exports.{seen_export};
ghost use Rattle.fast_check_finder_demands.specs.name_demands.Files.{names_of};
ghost use Rattle.fast_check_finder_demands.specs.symbol_demands.Rules.{each_of};
ghost use Rattle.fast_check_finder_demands.specs.re_exports.Roots.{is_exported_in, namespaces_with, exported_in, export_whole, star_export, star_roots, path_roots, roots};

use crate::name_demands::NameDemand;
use crate::re_exports::modules::own_export;
use crate::{Ask, CheckedTables, Demands, Extent, Namespaces, SymbolDemand};
use fast_check_tables_symbols::{Symbol, SymbolId};
use std::alloc::{AllocError, Global};

/// The namespaces in which a symbol is exported, and both where no declaration has the keyword `export`.
fn exported_in(symbol: Option<&Symbol>) -> Namespaces
    ensures { result ≡ exported_in (option_copied symbol.entry) }
{
    let Some(symbol) = symbol else {
        return Namespaces::Both;
    };
    match (
        symbol.decls.is_exported_value(),
        symbol.decls.is_exported_type(),
    ) {
        (true, false) => Namespaces::Value,
        (false, true) => Namespaces::Type_,
        _ => Namespaces::Both,
    }
}

fn push_export_whole(
    tables: &CheckedTables,
    export: SymbolId,
    out: &mut Demands<'_>,
) -> Result<(), AllocError>
    ensures { OnOk result (out.new ≡ out.old ++ export_whole tables.now export ∷ []) }
{
    out.push(SymbolDemand {
        symbol: export,
        ask: Ask::Reference(exported_in(tables.symbol(export))),
        referrer: tables.module_symbol(),
    })
}

fn push_star_export(
    tables: &CheckedTables,
    with_default: bool,
    export: Option<(&str, SymbolId)>,
    out: &mut Demands<'_>,
) -> Result<(), AllocError>
    ensures { OnOk result (out.new ≡ out.old ++ each_of (star_export tables.now with_default) (option_map seen_export export.entry)) }
{
    match export {
        None => Ok(()),
        Some((name, export)) => {
            if with_default || name != "default" {
                return push_export_whole(tables, export, out);
            }
            Ok(())
        }
    }
}

fn push_star(
    tables: &CheckedTables,
    with_default: bool,
    out: &mut Demands<'_>,
) -> Result<(), AllocError>
    ensures { OnOk result (out.new ≡ out.old ++ star_roots tables.now with_default) }
{
    let Some(symbol) = tables.symbol(tables.module_symbol()) else {
        return Ok(());
    };
    for place in 0..symbol.exports.len() {
        push_star_export(tables, with_default, symbol.exports.at(place), out)?;
    }
    Ok(())
}

fn push_path<'a>(
    tables: &CheckedTables,
    export: SymbolId,
    rest: &'a [String],
    extent: Extent,
    out: &mut Demands<'a>,
) -> Result<(), AllocError>
    ensures { OnOk result (out.new ≡ out.old ++ path_roots tables.now export (path_of rest.now) extent) }
{
    match extent {
        Extent::Whole if rest.is_empty() => push_export_whole(tables, export, out),
        _ => out.push(SymbolDemand {
            symbol: export,
            ask: Ask::Path(rest, extent),
            referrer: tables.module_symbol(),
        }),
    }
}

fn push_roots<'a>(
    tables: &CheckedTables,
    demand: NameDemand<'a>,
    out: &mut Demands<'a>,
) -> Result<(), AllocError>
    ensures { OnOk result (out.new ≡ out.old ++ roots tables.now (names_of demand.entry)) }
{
    match demand {
        NameDemand::AllButDefault => push_star(tables, false, out),
        NameDemand::All => push_star(tables, true, out),
        NameDemand::There => Ok(()),
        NameDemand::Path(first, rest, extent) => {
            let Some(export) = own_export(tables, first) else {
                return Ok(());
            };
            push_path(tables, export, rest, extent, out)
        }
    }
}

/// What a demand of a module asks of its symbols.
pub fn roots_of<'a>(
    alloc: Global,
    tables: &CheckedTables,
    demand: NameDemand<'a>,
) -> Result<Demands<'a>, AllocError>
    ensures { IfOk result (λ out. out ≡ roots tables.now (names_of demand.entry)) }
{
    let mut out = Demands::new(alloc);
    push_roots(tables, demand, &mut out)?;
    Ok(out)
}
