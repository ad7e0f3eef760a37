//! What follows from one demand of a module.
ghost use Rattle.std.specs.Prelude.{[], IfOk};
ghost use Rattle.fast_check_finder_demands.specs.symbol_demands.Demands.{demand_of};
ghost use Rattle.fast_check_finder_demands.specs.symbol_demands.Passed.{passed, own_names};
ghost use Rattle.fast_check_finder_demands.specs.Yields.{Adds};

use crate::aliases::{push_own_names, push_path_demands};
use crate::symbol_demands::{Ask, Demands, SymbolDemand, push_symbol};
use fast_check_tables_symbols::CheckedTables;
use std::alloc::{AllocError, Global};

/// The demands that follow from a demand within its module, but for the names of the own path of an alias ([`own_names_of`]).
pub fn demands_of<'a>(
    alloc: Global,
    tables: &'a CheckedTables,
    demand: SymbolDemand<'a>,
) -> Result<Demands<'a>, AllocError>
    ensures { IfOk result (λ out. Adds (passed tables.now (demand_of demand.entry)) [] out) }
{
    let mut out = Demands::new(alloc);
    match demand.ask {
        Ask::Reference(namespaces) | Ask::Child(namespaces) => {
            if let Some(symbol) = tables.symbol(demand.symbol) {
                push_symbol(tables, demand, namespaces, symbol, &mut out)?;
            }
        }
        Ask::Path(names, extent) => {
            push_path_demands(tables, demand, names, extent, &mut out)?;
        }
    }
    Ok(out)
}

/// The names of the own path of an alias, which follow from each path that is asked of the symbol of a demand, and are the same for each.
pub fn own_names_of<'a>(
    alloc: Global,
    tables: &'a CheckedTables,
    demand: SymbolDemand<'_>,
) -> Result<Demands<'a>, AllocError>
    ensures { IfOk result (λ out. Adds (own_names tables.now demand.entry.symbol demand.entry.referrer) [] out) }
{
    let mut out = Demands::new(alloc);
    push_own_names(tables, demand, &mut out)?;
    Ok(out)
}
