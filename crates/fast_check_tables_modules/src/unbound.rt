//! Whether expando statements have objects without symbol.

ghost use Rattle.std.specs.Prelude.{◌≡◌, ◌&&◌, IfOk, IfErr};
ghost use Rattle.std.specs.List.{list_any};
ghost use Rattle.fast_check_tables_diagnostics.specs.PublicRanges.{same_range};
ghost use Rattle.fast_check_tables_modules.specs.EsModule.{AreRead, IsUnboundFault, is_unbound, is_ranged_unbound, is_public_unbound};

use crate::expandos::{Expando, expandos_of};
use crate::ranges::ranges_of;
use fast_check_tables_diagnostics::ModulePublicRanges;
use fast_check_tables_symbols::{CheckedTables, TableFault};
use fast_check_tree_syntax::{SourceRange, Tree};
use std::alloc::{AllocError, Global};
use std::collections::BTreeSet;

/// The expando statements of a program, each of which has an object with a symbol if its range is one of the tables'.
pub fn bound_expandos(
    alloc: Global,
    tables: &CheckedTables,
    program: &Tree,
) -> Result<Vec<Expando>, TableFault>
    ensures bound { IfOk result (λ found. AreRead tables.now program.now found.items) }
    ensures fault { IfErr result (IsUnboundFault tables.now program.now) }
{
    let expandos = expandos_of(alloc, program)?;
    if any_unbound(alloc, tables, &expandos)? {
        return Err(TableFault::ExpandoWithoutSymbol);
    }
    Ok(expandos)
}

/// Whether one of these has a range of the tables, and an object without symbol.
fn any_unbound(
    alloc: Global,
    tables: &CheckedTables,
    expandos: &[Expando],
) -> Result<bool, AllocError>
    ensures { IfOk result (λ found. found ≡ list_any (is_ranged_unbound tables.now) expandos.now) }
{
    if expandos.is_empty() {
        return Ok(false);
    }
    let ranges = ranges_of(alloc, tables)?;
    Ok(any_unbound_within(tables, &ranges, expandos))
}

fn any_unbound_within(
    tables: &CheckedTables,
    ranges: &BTreeSet<SourceRange>,
    expandos: &[Expando],
) -> bool
    ensures { result ≡ list_any (λ e. list_any (same_range e.range) ranges.now.keys && is_unbound tables.now e) expandos.now }
{
    for expando in expandos {
        if ranges.contains(&expando.range) && is_unbound(tables, expando) {
            return true;
        }
    }
    false
}

/// Whether one of these has a public range, and an object without symbol.
pub fn any_public_unbound(
    tables: &CheckedTables,
    public_ranges: &ModulePublicRanges,
    expandos: &[Expando],
) -> bool
    ensures { result ≡ list_any (is_public_unbound tables.now public_ranges.now) expandos.now }
{
    for expando in expandos {
        if public_ranges.contains(&expando.range) && is_unbound(tables, expando) {
            return true;
        }
    }
    false
}

fn is_unbound(tables: &CheckedTables, expando: &Expando) -> bool
    ensures { result ≡ is_unbound tables.now expando.now }
{
    tables.symbol_from_swc(&expando.object).is_none()
}
