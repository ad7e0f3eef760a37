//! A fault of a demand at its place in a module, by the names that a user knows.

ghost use Rattle.std.specs.Prelude.{◌≡◌, ◌++◌, option_map, IfOk, OnOk, string_bytes};
ghost use Rattle.std.specs.Rc.{rc_str_bytes};
ghost use Rattle.fast_check_finder_lattice.specs.Names.{path_of};
ghost use Rattle.fast_check_finder_demands.specs.Yields.{fault_seen};
ghost use Rattle.fast_check_finder_ranges.specs.findings.Faults.{placed_with, placed_at, placed, full_name, below, source_of};

use crate::findings::faulty_module::{FaultyModule, name_of, range_of};
use fast_check_finder_demands::{DemandFaultKind, SourceRange, SymbolFault};
use std::alloc::{AllocError, Global};
use url::Url;

/// What is wrong with a demand, at its place in a module. They come in the order of their places in the text.
#[derive(PartialEq, Eq, PartialOrd, Ord, Drop)]
pub struct DemandFault {
    pub range: SourceRange,
    pub kind: DemandFaultKind,
    /// The name that was asked for.
    pub name: String,
    /// The name of the symbol that asked.
    pub referrer: String,
    /// The module.
    pub specifier: Url,
}

fn push_below(names: &[String], out: &mut String) -> Result<(), AllocError>
    ensures { OnOk result (string_bytes out.new ≡ string_bytes out.old ++ below (path_of names.now)) }
{
    for name in names {
        out.push_str(".")?;
        out.push_str(name.as_str())?;
    }
    Ok(())
}

fn full_name(alloc: Global, name: &str, names: &[String]) -> Result<String, AllocError>
    ensures { IfOk result (λ full. string_bytes full ≡ full_name name.now (path_of names.now)) }
{
    let mut full = String::from_str(alloc, name)?;
    push_below(names, &mut full)?;
    Ok(full)
}

/// A fault, where the first declaration of its symbol has this range.
fn placed_at(
    alloc: Global,
    faulty: FaultyModule<'_>,
    fault: SymbolFault<'_>,
    range: SourceRange,
) -> Result<DemandFault, AllocError>
    ensures { IfOk result (λ f. placed_with f (rc_str_bytes faulty.entry.text.now) ≡ placed_at (source_of faulty.entry) (fault_seen fault.entry) range) }
{
    let symbol = name_of(faulty.tables.symbol(fault.symbol));
    let referrer = name_of(faulty.tables.symbol(fault.referrer));
    Ok(DemandFault {
        range,
        kind: fault.kind,
        name: full_name(alloc, symbol, fault.names)?,
        referrer: String::from_str(alloc, referrer)?,
        specifier: faulty.specifier.clone()?,
    })
}

/// A fault at its place, if its symbol has a declaration.
pub(crate) fn placed(
    alloc: Global,
    faulty: FaultyModule<'_>,
    fault: SymbolFault<'_>,
) -> Result<Option<DemandFault>, AllocError>
    ensures { IfOk result (λ found. option_map (λ f. placed_with f (rc_str_bytes faulty.entry.text.now)) found
        ≡ placed (source_of faulty.entry) (fault_seen fault.entry)) }
{
    match range_of(faulty.tables, fault.symbol) {
        None => Ok(None),
        Some(range) => Ok(Some(placed_at(alloc, faulty, fault, range)?)),
    }
}
