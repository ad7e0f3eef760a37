//! A module of JSON, which has tables and no source.
ghost use Rattle.std.specs.Prelude.{◌≡◌, IfOk, IfErr, OnOk};
ghost use Rattle.std.specs.Option.{option_copied};

use fast_check_tables_symbols::{
    CheckedTables, ModuleTables, ReExportAllNode, Symbol, SymbolId, TableFault,
};
use fast_check_tree_syntax::Id;
use std::alloc::Global;
use std::collections::BTreeMap;
use std::marker::Model;
use url::Url;

/// What is known of a JSON module: its symbols.
#[derive(Drop)]
pub struct JsonModuleInfo {
    specifier: Url,
    tables: CheckedTables,
}

impl Model for JsonModuleInfo {
    ghost use Rattle.fast_check_tables_modules.specs.EsModule.{JsonModule};

    ghost Value = { JsonModule };

    ghost view = { λ m. record { specifier = m.specifier; tables = m.tables } };
}

impl JsonModuleInfo {
    ghost use Rattle.fast_check_tables_symbols.specs.Tables.{symbol_of_swc, resolved_export, answered_names};
    ghost use Rattle.fast_check_tables_symbols.specs.WellFormed.{AreMadeOf, AreWellFormed, IsTableFault};
    ghost use Rattle.fast_check_tables_symbols.specs.Symbols.{symbol_of, place_of};

    /// The module of this name and these tables. Of several faults the first is answered, and what was handed in is dropped.
    pub fn new(
        alloc: Global,
        specifier: Url,
        tables: ModuleTables,
    ) -> Result<JsonModuleInfo, TableFault>
        ensures specifier { IfOk result (λ made. made.specifier ≡ specifier) }
        ensures tables { IfOk result (λ made. AreMadeOf tables made.tables) }
        ensures well_formed { OnOk result (AreWellFormed tables) }
        ensures fault { IfErr result (IsTableFault tables) }
    {
        let tables = CheckedTables::new(alloc, tables)?;
        Ok(JsonModuleInfo { specifier, tables })
    }

    /// Its name.
    pub fn specifier(&self) -> &Url
        ensures { result.now ≡ self.now.specifier }
    {
        &self.specifier
    }

    /// Its tables.
    pub fn tables(&self) -> &CheckedTables
        ensures { result.now ≡ self.now.tables }
    {
        &self.tables
    }

    /// The id of the symbol that stands for it.
    pub fn module_symbol(&self) -> SymbolId
        ensures { result ≡ self.now.tables.module_symbol }
    {
        self.tables.module_symbol()
    }

    /// Its re-exports of all, in order.
    pub fn re_export_all_nodes(&self) -> &[ReExportAllNode]
        ensures { result.now ≡ self.now.tables.re_exports }
    {
        self.tables.re_export_all_nodes()
    }

    /// The module that answers an exported name.
    pub fn resolved_export(&self, name: &str) -> Option<&Url>
        ensures { option_copied result ≡ resolved_export self.now.tables name.now }
    {
        self.tables.resolved_export(name)
    }

    /// The exported names, each with the module that answers it, in order of the names.
    pub fn resolved_exports(&self) -> &BTreeMap<String, Url>
        ensures { answered_names result.now.entries ≡ self.now.tables.resolved }
    {
        self.tables.resolved_exports()
    }

    /// Its symbols that count, in the order in which they were handed in.
    pub fn symbols(&self) -> &[Symbol]
        ensures { result.now ≡ self.now.tables.symbols }
    {
        self.tables.symbols()
    }

    /// The symbol of an id.
    pub fn symbol(&self, id: SymbolId) -> Option<&Symbol>
        ensures { option_copied result ≡ symbol_of id self.now.tables.symbols }
    {
        self.tables.symbol(id)
    }

    /// The place of a symbol among `symbols`.
    pub fn symbol_place(&self, id: SymbolId) -> Option<usize>
        ensures { result ≡ place_of id self.now.tables.symbols }
    {
        self.tables.symbol_place(id)
    }

    /// The symbol of a resolved identifier.
    pub fn symbol_from_swc(&self, id: &Id) -> Option<&Symbol>
        ensures { option_copied result ≡ symbol_of_swc self.now.tables id.now }
    {
        self.tables.symbol_from_swc(id)
    }
}
