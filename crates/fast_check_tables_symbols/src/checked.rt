//! The tables of a module, of which each mentioned symbol exists.
ghost use Rattle.std.specs.Prelude.{◌≡◌, IfOk, IfErr, OnOk, Some};
ghost use Rattle.std.specs.Option.{option_copied};

use crate::entries::map_of;
use crate::fault::TableFault;
use crate::faults::{lacks_declaration, misses_symbol};
use crate::members::MemberIndexes;
use crate::symbol::Symbol;
use crate::symbol_id::SymbolId;
use crate::table::SymbolTable;
use crate::tables::{ModuleTables, ReExportAllNode};
use fast_check_tree_syntax::Id;
use std::alloc::Global;
use std::collections::BTreeMap;
use std::marker::Model;
use url::Url;

/// The tables of a module, of which each mentioned id has its symbol.
#[derive(Drop)]
pub struct CheckedTables {
    symbols: SymbolTable,
    /// The members of each symbol by their names.
    members: MemberIndexes,
    module_symbol: SymbolId,
    swc_ids: BTreeMap<Id, SymbolId>,
    re_export_all_nodes: Vec<ReExportAllNode>,
    resolved_exports: BTreeMap<String, Url>,
}

impl Model for CheckedTables {
    ghost use Rattle.fast_check_tables_symbols.specs.Tables.{Tables, answered_names};
    ghost use Rattle.fast_check_tables_symbols.specs.Members.{AreMembersOf};

    ghost Value = { Tables };

    ghost view = { λ t. record {
      symbols = t.symbols;
      module_symbol = t.module_symbol;
      swc_ids = t.swc_ids.entries;
      re_exports = t.re_export_all_nodes.items;
      resolved = answered_names t.resolved_exports.entries;
    } };

    ghost invariant = { λ t. AreMembersOf t.symbols t.members };
}

impl CheckedTables {
    ghost use Rattle.fast_check_tables_symbols.specs.Tables.{symbol_of_swc, resolved_export, answered_names};
    ghost use Rattle.fast_check_tables_symbols.specs.WellFormed.{AreMadeOf, AreWellFormed, IsTableFault};
    ghost use Rattle.fast_check_tables_symbols.specs.Members.{named_member};
    ghost use Rattle.fast_check_tables_symbols.specs.Symbols.{symbol_of, place_of};

    /// The tables, where each id that they mention has a symbol, and each symbol that has to have a declaration has one. Else the first fault.
    pub fn new(alloc: Global, tables: ModuleTables) -> Result<CheckedTables, TableFault>
        ensures made { IfOk result (λ made. AreMadeOf tables made) }
        ensures well_formed { OnOk result (AreWellFormed tables) }
        ensures fault { IfErr result (IsTableFault tables) }
    {
        let ModuleTables {
            symbols,
            module_symbol,
            swc_ids,
            re_export_all_nodes,
            resolved_exports,
        } = tables;
        let symbols = SymbolTable::new(alloc, symbols)?;
        let swc_ids = map_of(alloc, swc_ids)?;
        if misses_symbol(&symbols, module_symbol, &swc_ids) {
            return Err(TableFault::MissingSymbol);
        }
        if lacks_declaration(module_symbol, symbols.as_slice()) {
            return Err(TableFault::SymbolWithoutDecl);
        }
        let members = MemberIndexes::of(alloc, &symbols)?;
        let resolved_exports = map_of(alloc, resolved_exports)?;
        Ok(CheckedTables {
            symbols,
            members,
            module_symbol,
            swc_ids,
            re_export_all_nodes,
            resolved_exports,
        })
    }

    /// The symbols that count, in the order in which they were handed in.
    pub fn symbols(&self) -> &[Symbol]
        ensures { result.now ≡ self.now.symbols }
    {
        self.symbols.as_slice()
    }

    /// The symbol of an id.
    pub fn symbol(&self, id: SymbolId) -> Option<&Symbol>
        ensures { option_copied result ≡ symbol_of id self.now.symbols }
    {
        self.symbols.get(id)
    }

    /// The place of a symbol among `symbols`.
    pub fn symbol_place(&self, id: SymbolId) -> Option<usize>
        ensures { result ≡ place_of id self.now.symbols }
    {
        self.symbols.place(id)
    }

    /// The first of the members of a symbol that has a name. None where no symbol has the id.
    pub fn member_named(&self, id: SymbolId, name: &str) -> Option<SymbolId>
        ensures { result ≡ named_member self.now.symbols name.now (symbol_of id self.now.symbols) }
    {
        let place = self.symbols.place(id)?;
        self.members.get(place, name)
    }

    /// The symbol of a resolved identifier.
    pub fn symbol_from_swc(&self, id: &Id) -> Option<&Symbol>
        ensures { option_copied result ≡ symbol_of_swc self.now id.now }
    {
        let symbol = self.swc_ids.get(id)?;
        self.symbols.get(*symbol)
    }

    /// The id of the symbol that stands for the module.
    pub fn module_symbol(&self) -> SymbolId
        ensures { result ≡ self.now.module_symbol }
    {
        self.module_symbol
    }

    /// The re-exports of all, in order.
    pub fn re_export_all_nodes(&self) -> &[ReExportAllNode]
        ensures { result.now ≡ self.now.re_exports }
    {
        &self.re_export_all_nodes
    }

    /// The module that answers an exported name.
    pub fn resolved_export(&self, name: &str) -> Option<&Url>
        ensures { option_copied result ≡ resolved_export self.now name.now }
    {
        self.resolved_exports.get(name)
    }
    /// The exported names, each with the module that answers it, in order of the names.
    pub fn resolved_exports(&self) -> &BTreeMap<String, Url>
        ensures { answered_names result.now.entries ≡ self.now.resolved }
    {
        &self.resolved_exports
    }
}
