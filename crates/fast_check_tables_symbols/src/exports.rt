//! The exports of a symbol by their names, in order.
ghost use Rattle.std.specs.Prelude.{◌≡◌, [], length, slice_get, option_map, OnOk, OnErr, IsTrue, ◌↔◌, string_bytes};
ghost use Rattle.fast_check_tables_symbols.specs.Exports.{export_named, put_export, seen_export};

use crate::symbol_id::SymbolId;
use std::alloc::{AllocError, Global};
use std::collections::BTreeMap;
use std::marker::Model;

/// The exports of a symbol: symbols by name, in the order in which the names came.
#[derive(Drop)]
pub struct SymbolExports {
    /// In the order in which the names came.
    entries: Vec<(String, SymbolId)>,
    /// The places of the entries, by their names.
    places: BTreeMap<String, usize>,
}

impl Model for SymbolExports {
    ghost use Rattle.std.specs.Prelude.{List, ℕ, map, string_bytes};
    ghost use Rattle.fast_check_tables_symbols.specs.declared.symbol_id.SymbolId.{SymbolId};
    ghost use Rattle.fast_check_tables_symbols.specs.NamePlaces.{HasPlaces};

    ghost Value = { List (List ℕ × SymbolId) };

    ghost view = { λ exports. map (λ e. (string_bytes e.0, e.1)) exports.entries.items };

    ghost invariant = { λ exports. HasPlaces exports.entries.items exports.places };
}

impl SymbolExports {
    /// No exports.
    pub fn new(alloc: Global) -> SymbolExports
        ensures { result ≡ [] }
    {
        SymbolExports {
            entries: Vec::new(alloc),
            places: BTreeMap::new(alloc),
        }
    }

    /// Puts the symbol of a name: a new name goes last, and one that is there keeps its place.
    pub fn put(&mut self, name: String, id: SymbolId) -> Result<(), AllocError>
        ensures put { OnOk result (self.new ≡ put_export (string_bytes name) id self.old) }
        ensures err { OnErr result (self.new ≡ self.old) }
    {
        if let Some(place) = self.places.get(name.as_str()).copied() {
            self.entries[place].1 = id;
            return Ok(());
        }
        // With this room the push is not refused, so nothing fails once the index has the name.
        self.entries.reserve(1)?;
        self.places.insert(name.clone()?, self.entries.len())?;
        self.entries.push((name, id))?;
        Ok(())
    }

    /// The symbol of a name.
    pub fn get(&self, name: &str) -> Option<SymbolId>
        ensures { result ≡ export_named name.now self.now }
    {
        let place = self.places.get(name).copied()?;
        let entry = self.entries.get(place)?;
        Some(entry.1)
    }

    /// How many there are.
    pub fn len(&self) -> usize
        ensures { result ≡ length self.now }
    {
        self.entries.len()
    }

    /// Whether there are none.
    pub fn is_empty(&self) -> bool
        ensures { IsTrue result ↔ (self.now ≡ []) }
    {
        self.entries.is_empty()
    }

    /// The name and the symbol at a place.
    pub fn at(&self, place: usize) -> Option<(&str, SymbolId)>
        ensures { option_map seen_export result ≡ slice_get self.now place }
    {
        let (name, id) = self.entries.get(place)?;
        Some((name.as_str(), *id))
    }
}
