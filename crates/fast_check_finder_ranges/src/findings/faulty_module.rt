//! A module, and its symbols, by what faults have of them.

ghost use Rattle.std.specs.Prelude.{◌≡◌, IfOk};
ghost use Rattle.std.specs.Option.{option_copied};
ghost use Rattle.std.specs.Rc.{rc_str_bytes};
ghost use Rattle.fast_check_tables_symbols.specs.Symbols.{symbol_of};
ghost use Rattle.fast_check_finder_ranges.specs.findings.Faults.{name_of, first_range, first_of, source_of};
ghost use Rattle.fast_check_finder_ranges.specs.findings.Found.{text_of, symbols_of, source_in};

use fast_check_finder_demands::{CheckedTables, SourceRange, SymbolId};
use fast_check_tables_graph::AnyModuleInfo;
use fast_check_tables_symbols::Symbol;
use std::alloc::{AllocError, Global};
use std::rc::RcStr;
use url::Url;

/// A module, by what its faults have of it.
#[derive(Clone, Copy)]
pub struct FaultyModule<'a> {
    pub specifier: &'a Url,
    /// The source text.
    pub text: &'a RcStr,
    pub tables: &'a CheckedTables,
}

/// The name that a symbol is known by.
pub(crate) fn name_of(symbol: Option<&Symbol>) -> &str
    ensures { result.now ≡ name_of (option_copied symbol.entry) }
{
    match symbol {
        Some(
            Symbol {
                qualified_name: Some(name),
                ..
            },
        ) => name.as_str(),
        _ => "<unknown>",
    }
}

/// The range of the first declaration of a symbol.
fn first_range(symbol: &Symbol) -> Option<SourceRange>
    ensures { result ≡ first_of symbol.now.decls.items }
{
    let decl = symbol.decls.as_slice().first()?;
    Some(decl.range)
}

/// The same of the symbol that has an id.
pub(crate) fn range_of(tables: &CheckedTables, id: SymbolId) -> Option<SourceRange>
    ensures { result ≡ first_range (symbol_of id tables.now.symbols) }
{
    let symbol = tables.symbol(id)?;
    first_range(symbol)
}

/// The source text of a module; one of JSON has none.
pub(crate) fn text_of(alloc: Global, info: &AnyModuleInfo) -> Result<RcStr, AllocError>
    ensures { IfOk result (λ text. rc_str_bytes text ≡ text_of info.now) }
{
    match info {
        AnyModuleInfo::Esm(module) => module.source().text.clone(),
        AnyModuleInfo::Json(_) => RcStr::from_str(alloc, ""),
    }
}

fn tables_of(info: &AnyModuleInfo) -> &CheckedTables
    ensures { result.now.symbols ≡ symbols_of info.now }
{
    match info {
        AnyModuleInfo::Esm(module) => module.tables(),
        AnyModuleInfo::Json(module) => module.tables(),
    }
}

/// A module with its source text, by what its faults have of it.
pub(crate) fn faulty<'a>(info: &'a AnyModuleInfo, text: &'a RcStr) -> FaultyModule<'a>
    ensures { rc_str_bytes text.entry.now ≡ text_of info.entry.now → source_of result ≡ source_in info.entry.now }
{
    FaultyModule {
        specifier: info.specifier(),
        text,
        tables: tables_of(info),
    }
}
