//! The tables and the exports of a module that is followed.
ghost use Rattle.std.specs.Prelude.{◌≡◌};
ghost use Rattle.fast_check_finder_demands.specs.re_exports.Modules.{tables_in, own_tables, own_export};

use crate::CheckedTables;
use fast_check_tables_graph::{AnyModuleInfo, ModuleGraph, RootSymbol};
use fast_check_tables_symbols::SymbolId;

/// The tables of a module.
pub fn tables_of(info: &AnyModuleInfo) -> &CheckedTables
    ensures { result.now ≡ tables_in info.now }
{
    match info {
        AnyModuleInfo::Esm(module) => module.tables(),
        AnyModuleInfo::Json(module) => module.tables(),
    }
}

/// A module that is followed, among the others.
#[derive(Clone, Copy)]
pub struct GraphModule<'a> {
    pub graph: &'a ModuleGraph,
    pub root_symbol: &'a RootSymbol,
    pub info: &'a AnyModuleInfo,
}

/// The tables of the module that is followed.
pub fn own_tables<'a>(traced: GraphModule<'a>) -> &'a CheckedTables
    ensures { result.now ≡ own_tables traced.entry }
{
    tables_of(traced.info)
}

/// The symbol of an export of the module itself.
pub fn own_export(tables: &CheckedTables, name: &str) -> Option<SymbolId>
    ensures { result ≡ own_export tables.now name.now }
{
    let symbol = tables.symbol(tables.module_symbol())?;
    symbol.exports.get(name)
}
