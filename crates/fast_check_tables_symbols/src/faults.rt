//! Whether tables have a fault.

ghost use Rattle.std.specs.Prelude.{◌≡◌, ◌∷◌, ◌++◌, flat_map, option_to_list, slice_get};
ghost use Rattle.std.specs.List.{list_any};
ghost use Rattle.std.specs.Map.{values_of};
ghost use Rattle.fast_check_tables_symbols.specs.Symbols.{mentioned_by};
ghost use Rattle.fast_check_tables_symbols.specs.Faults.{is_missing, is_missing_entry, lacks_declaration};

use crate::exports::SymbolExports;
use crate::symbol::Symbol;
use crate::symbol_id::SymbolId;
use crate::table::SymbolTable;
use fast_check_tree_syntax::Id;
use std::collections::BTreeMap;

/// Whether an id is mentioned that no symbol has: the module's, one that a symbol mentions, or an identifier's.
#[tactic(auto, using(crate::proofs::Mentions::any_of_mentioned))]
pub fn misses_symbol(
    symbols: &SymbolTable,
    module_symbol: SymbolId,
    swc_ids: &BTreeMap<Id, SymbolId>,
) -> bool
    ensures { result ≡ list_any (is_missing symbols.now) (module_symbol ∷ (flat_map mentioned_by symbols.now ++ values_of swc_ids.now.entries)) }
{
    is_missing(symbols, module_symbol)
        || symbols_miss(symbols, symbols.as_slice())
        || identifiers_miss(symbols, swc_ids)
}

fn is_missing(symbols: &SymbolTable, id: SymbolId) -> bool
    ensures { result ≡ is_missing symbols.now id }
{
    symbols.get(id).is_none()
}

fn identifiers_miss(symbols: &SymbolTable, swc_ids: &BTreeMap<Id, SymbolId>) -> bool
    ensures { result ≡ list_any (is_missing symbols.now) (values_of swc_ids.now.entries) }
{
    swc_ids.values().any(|id| is_missing(symbols, *id))
}

fn symbols_miss(symbols: &SymbolTable, some: &[Symbol]) -> bool
    ensures { result ≡ list_any (is_missing symbols.now) (flat_map mentioned_by some.now) }
{
    for symbol in some {
        if symbol_misses(symbols, symbol) {
            return true;
        }
    }
    false
}

#[tactic(auto, using(crate::proofs::Mentions::any_of_three))]
fn symbol_misses(symbols: &SymbolTable, symbol: &Symbol) -> bool
    ensures { result ≡ list_any (is_missing symbols.now) (mentioned_by symbol.now) }
{
    parent_misses(symbols, symbol.parent_id)
        || exports_miss(symbols, &symbol.exports)
        || members_miss(symbols, &symbol.members)
}

fn parent_misses(symbols: &SymbolTable, parent: Option<SymbolId>) -> bool
    ensures { result ≡ list_any (is_missing symbols.now) (option_to_list parent) }
{
    match parent {
        Some(id) => is_missing(symbols, id),
        None => false,
    }
}

fn exports_miss(symbols: &SymbolTable, exports: &SymbolExports) -> bool
    ensures { result ≡ list_any (is_missing symbols.now) (values_of exports.now) }
{
    for place in 0..exports.len() {
        if export_misses(symbols, exports, place) {
            return true;
        }
    }
    false
}

fn export_misses(symbols: &SymbolTable, exports: &SymbolExports, place: usize) -> bool
    ensures { result ≡ is_missing_entry symbols.now (slice_get exports.now place) }
{
    match exports.at(place) {
        Some((_, id)) => is_missing(symbols, id),
        None => false,
    }
}

fn members_miss(symbols: &SymbolTable, members: &[SymbolId]) -> bool
    ensures { result ≡ list_any (is_missing symbols.now) members.now }
{
    members.iter().any(|id| is_missing(symbols, *id))
}

/// Whether a symbol has no declaration that has to have one.
pub fn lacks_declaration(module_symbol: SymbolId, symbols: &[Symbol]) -> bool
    ensures { result ≡ list_any (lacks_declaration module_symbol) symbols.now }
{
    symbols
        .iter()
        .any(|symbol| symbol_lacks_declaration(module_symbol, symbol))
}

fn symbol_lacks_declaration(module_symbol: SymbolId, symbol: &Symbol) -> bool
    ensures { result ≡ lacks_declaration module_symbol symbol.now }
{
    symbol.decls.as_slice().is_empty() && (module_symbol != symbol.id || symbol.is_private_member)
}
