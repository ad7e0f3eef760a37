//! The members of symbols, found by their names.

ghost use Rattle.std.specs.Prelude.{◌≡◌, IfOk, OnOk, ℕ, List, cond, map, Some, None, string_bytes};
ghost use Rattle.std.specs.BTreeMap.{get};
ghost use Rattle.std.specs.Option.{option_copied, option_or};
ghost use Rattle.std.specs.Ordering.{nat_cmp};
ghost use Rattle.std.specs.Str.{bytes_eq};
ghost use Rattle.fast_check_tables_symbols.specs.Exports.{export_named};
ghost use Rattle.fast_check_tables_symbols.specs.Symbols.{symbol_of};
ghost use Rattle.fast_check_tables_symbols.specs.Members.{symbol_is_named, IsNameIndex, namesake, namesake_of, is_number, IsNumberIndex, AreNumberIndexes, AreMembersOf, member_at};

use crate::exports::SymbolExports;
use crate::symbol::Symbol;
use crate::symbol_id::SymbolId;
use crate::table::SymbolTable;
use std::alloc::{AllocError, Global};
use std::collections::BTreeMap;

/// The members of each symbol by their names. A name stands by the number of the first symbol that has it, so that it is kept once.
#[derive(Drop)]
pub struct MemberIndexes {
    /// The first symbol of each name.
    names: SymbolExports,
    /// The members of each symbol, by the numbers of their names.
    by_symbol: Vec<BTreeMap<u32, SymbolId>>,
}

impl MemberIndexes {
    /// The indexes of the symbols of a table.
    pub fn of(alloc: Global, symbols: &SymbolTable) -> Result<MemberIndexes, AllocError>
        ensures { IfOk result (AreMembersOf symbols.now) }
    {
        let ids = ids_of(alloc, symbols.as_slice())?;
        let names = name_index(alloc, symbols, ids.as_slice())?;
        let namesakes = namesakes(alloc, &names, symbols.as_slice())?;
        let by_symbol = number_indexes(alloc, symbols, namesakes.as_slice())?;
        Ok(MemberIndexes { names, by_symbol })
    }

    /// The member of a name of the symbol at a place.
    pub fn get(&self, place: usize, name: &str) -> Option<SymbolId>
        ensures { result ≡ member_at self.now name.now place }
    {
        let index = self.by_symbol.get(place)?;
        let namesake = self.names.get(name)?;
        index.get(&namesake.0).copied()
    }
}

/// Puts the symbol of a name, unless the name has one.
fn put_first(index: &mut SymbolExports, name: &String, id: SymbolId) -> Result<(), AllocError>
    ensures { OnOk result ((asked : List ℕ) → export_named asked index.new ≡
        option_or (export_named asked index.old) (cond (bytes_eq (string_bytes name.now) asked) (Some id) None)) }
{
    if index.get(name.as_str()).is_some() {
        return Ok(());
    }
    index.put(name.clone()?, id)
}

/// Puts a symbol under its name, if it has one that no earlier symbol has.
fn put_symbol(
    index: &mut SymbolExports,
    id: SymbolId,
    symbol: Option<&Symbol>,
) -> Result<(), AllocError>
    ensures { OnOk result ((asked : List ℕ) → export_named asked index.new ≡
        option_or (export_named asked index.old) (cond (symbol_is_named asked (option_copied symbol.entry)) (Some id) None)) }
{
    match symbol {
        Some(
            Symbol {
                maybe_name: Some(name),
                ..
            },
        ) => put_first(index, name, id),
        _ => Ok(()),
    }
}

fn ids_of(alloc: Global, symbols: &[Symbol]) -> Result<Vec<SymbolId>, AllocError>
    ensures { IfOk result (λ ids. ids.items ≡ map (λ s. s.id) symbols.now) }
{
    let mut ids = Vec::new(alloc);
    for symbol in symbols {
        ids.push(symbol.id)?;
    }
    Ok(ids)
}

/// The first of each name among some symbols.
fn name_index(
    alloc: Global,
    symbols: &SymbolTable,
    ids: &[SymbolId],
) -> Result<SymbolExports, AllocError>
    ensures { IfOk result (IsNameIndex symbols.now ids.now) }
{
    let mut index = SymbolExports::new(alloc);
    for id in ids {
        put_symbol(&mut index, *id, symbols.get(*id))?;
    }
    Ok(index)
}

/// The first symbol that has the name of a symbol.
fn namesake(names: &SymbolExports, symbol: &Symbol) -> Option<SymbolId>
    ensures { result ≡ namesake names.now symbol.now }
{
    match &symbol.maybe_name {
        Some(name) => names.get(name.as_str()),
        None => None,
    }
}

fn namesakes(
    alloc: Global,
    names: &SymbolExports,
    symbols: &[Symbol],
) -> Result<Vec<Option<SymbolId>>, AllocError>
    ensures { IfOk result (λ found. found.items ≡ map (namesake names.now) symbols.now) }
{
    let mut namesakes = Vec::new(alloc);
    for symbol in symbols {
        namesakes.push(namesake(names, symbol))?;
    }
    Ok(namesakes)
}

fn namesake_of(
    symbols: &SymbolTable,
    namesakes: &[Option<SymbolId>],
    id: SymbolId,
) -> Option<SymbolId>
    ensures { result ≡ namesake_of symbols.now namesakes.now id }
{
    let place = symbols.place(id)?;
    let namesake = namesakes.get(place)?;
    *namesake
}

/// Puts the symbol of a name by the number of the name, unless the name has one.
fn put_first_by(
    index: &mut BTreeMap<u32, SymbolId>,
    namesake: Option<SymbolId>,
    id: SymbolId,
) -> Result<(), AllocError>
    ensures { OnOk result ((asked : ℕ) → get nat_cmp index.new asked ≡
        option_or (get nat_cmp index.old asked) (cond (is_number asked namesake) (Some id) None)) }
{
    let Some(namesake) = namesake else {
        return Ok(());
    };
    if index.contains_key(&namesake.0) {
        return Ok(());
    }
    index.insert(namesake.0, id)?;
    Ok(())
}

/// The first of each name among some members, by the number of the name.
fn number_index(
    alloc: Global,
    symbols: &SymbolTable,
    namesakes: &[Option<SymbolId>],
    members: &[SymbolId],
) -> Result<BTreeMap<u32, SymbolId>, AllocError>
    ensures { IfOk result (IsNumberIndex symbols.now namesakes.now members.now) }
{
    let mut index = BTreeMap::new(alloc);
    for member in members {
        put_first_by(
            &mut index,
            namesake_of(symbols, namesakes, *member),
            *member,
        )?;
    }
    Ok(index)
}

/// The same of the members of each symbol.
fn number_indexes(
    alloc: Global,
    symbols: &SymbolTable,
    namesakes: &[Option<SymbolId>],
) -> Result<Vec<BTreeMap<u32, SymbolId>>, AllocError>
    ensures { IfOk result (λ indexes. AreNumberIndexes symbols.now namesakes.now symbols.now indexes.items) }
{
    let mut indexes = Vec::new(alloc);
    for symbol in symbols.as_slice() {
        indexes.push(number_index(alloc, symbols, namesakes, symbol.members.as_slice())?)?;
    }
    Ok(indexes)
}
