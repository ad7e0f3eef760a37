//! The symbols of a module by their numbers.
ghost use Rattle.std.specs.Prelude.{◌≡◌, IfOk};
ghost use Rattle.std.specs.Option.{option_copied};
ghost use Rattle.fast_check_tables_symbols.specs.Symbols.{last_symbols, symbol_of, place_of};

use crate::symbol::Symbol;
use crate::symbol_id::SymbolId;
use std::alloc::{AllocError, Global};
use std::collections::{BTreeMap, BTreeSet};
use std::marker::Model;

/// The symbols that no later one of their id replaces, in their order.
fn last_symbols(alloc: Global, mut symbols: Vec<Symbol>) -> Result<Vec<Symbol>, AllocError>
    ensures { IfOk result (λ last. last.items ≡ last_symbols symbols.items) }
{
    let mut ids = BTreeSet::new(alloc);
    let mut last = Vec::new(alloc);
    while let Some(symbol) = symbols.pop() {
        if ids.insert(symbol.id.0)? {
            last.push(symbol)?;
        }
    }
    last.reverse();
    Ok(last)
}

/// The symbols of a module, found by their ids. Of symbols with one id the last counts alone.
#[derive(Drop)]
pub struct SymbolTable {
    symbols: Vec<Symbol>,
    /// The places of the symbols, by the numbers of their ids.
    places: BTreeMap<u32, usize>,
}

impl Model for SymbolTable {
    ghost use Rattle.std.specs.Prelude.{List};
    ghost use Rattle.fast_check_tables_symbols.specs.declared.symbol.Symbol.{Symbol};
    ghost use Rattle.fast_check_tables_symbols.specs.Places.{IsIndexed};

    ghost Value = { List Symbol };

    ghost view = { λ table. table.symbols.items };

    ghost invariant = { λ table. IsIndexed table.symbols.items table.places };
}

impl SymbolTable {
    /// The table of these symbols, but for those that a later one of their id replaces.
    pub fn new(alloc: Global, symbols: Vec<Symbol>) -> Result<SymbolTable, AllocError>
        ensures { IfOk result (λ table. table ≡ last_symbols symbols.items) }
    {
        let symbols = last_symbols(alloc, symbols)?;
        let mut places = BTreeMap::new(alloc);
        for (place, symbol) in symbols.iter().enumerate() {
            places.insert(symbol.id.0, place)?;
        }
        Ok(SymbolTable { symbols, places })
    }

    /// The symbols, in the order in which they were handed in.
    pub fn as_slice(&self) -> &[Symbol]
        ensures { result.now ≡ self.now }
    {
        &self.symbols
    }

    /// The place of a symbol among them.
    pub fn place(&self, id: SymbolId) -> Option<usize>
        ensures { result ≡ place_of id self.now }
    {
        self.places.get(&id.0).copied()
    }

    /// The symbol of an id.
    pub fn get(&self, id: SymbolId) -> Option<&Symbol>
        ensures { option_copied result ≡ symbol_of id self.now }
    {
        let place = self.place(id)?;
        self.symbols.get(place)
    }
}
