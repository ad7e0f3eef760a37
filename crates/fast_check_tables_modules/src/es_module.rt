//! An ECMAScript module with its source and its tables.
ghost use Rattle.std.specs.Prelude.{◌≡◌, IfOk, IfErr, OnOk, IsTrue, ◌↔◌};
ghost use Rattle.std.specs.Option.{option_copied};
ghost use Rattle.fast_check_tables_modules.specs.EsModule.{AreRead};
ghost use Rattle.fast_check_tables_symbols.specs.WellFormed.{AreMadeOf};
ghost use Rattle.fast_check_tables_modules.specs.FitProgram.{FitProgram, IsModuleFault};

use crate::expandos::Expando;
use crate::unbound::{any_public_unbound, bound_expandos};
use fast_check_tables_diagnostics::ModulePublicRanges;
use fast_check_tables_diagnostics::parsed_source::ParsedSource;
use fast_check_tables_symbols::{
    CheckedTables, ModuleTables, ReExportAllNode, Symbol, SymbolId, TableFault,
};
use fast_check_tree_syntax::{Id, Tree};
use std::alloc::Global;
use std::collections::BTreeMap;
use std::marker::Model;
use url::Url;

/// What is known of an ECMAScript module: its source and its symbols.
#[derive(Drop)]
pub struct EsModuleInfo {
    specifier: Url,
    source: ParsedSource,
    tables: CheckedTables,
    /// The expando statements of the source.
    expando_statements: Vec<Expando>,
}

impl Model for EsModuleInfo {
    ghost use Rattle.std.specs.Coded.{codes};
    ghost use Rattle.fast_check_tree_syntax.specs.contracts.tree.Tree as tree;
    ghost use Rattle.fast_check_tables_modules.specs.EsModule.{EsModule, AreRead};

    ghost Value = { EsModule };

    ghost coded = { Prim.hlevel (codes, tree.the_row.coded) };

    ghost view = { λ m. record { specifier = m.specifier; source = m.source; tables = m.tables } };

    ghost invariant = { λ m. AreRead m.tables m.source.program m.expando_statements.items };
}

impl EsModuleInfo {
    ghost use Rattle.fast_check_tables_symbols.specs.Tables.{symbol_of_swc, resolved_export, answered_names};
    ghost use Rattle.fast_check_tables_symbols.specs.WellFormed.{AreMadeOf};
    ghost use Rattle.fast_check_tables_modules.specs.FitProgram.{FitProgram, IsModuleFault};
    ghost use Rattle.fast_check_tables_diagnostics.specs.PublicRanges.{PublicRanges};
    ghost use Rattle.fast_check_tables_modules.specs.EsModule.{Admits, AreOwnRanges};
    ghost use Rattle.fast_check_tables_symbols.specs.Symbols.{symbol_of, place_of};

    /// The module of this name, source and tables. Of several faults the first is answered, and what was handed in is dropped.
    pub fn new(
        alloc: Global,
        specifier: Url,
        source: ParsedSource,
        tables: ModuleTables,
    ) -> Result<EsModuleInfo, TableFault>
        ensures specifier { IfOk result (λ made. made.specifier ≡ specifier) }
        ensures source { IfOk result (λ made. made.source ≡ source) }
        ensures tables { IfOk result (λ made. AreMadeOf tables made.tables) }
        ensures well_formed { OnOk result (FitProgram tables source.program) }
        ensures fault { IfErr result (IsModuleFault tables source.program) }
    {
        let (tables, expando_statements) = checked_beside(alloc, tables, &source.program)?;
        Ok(EsModuleInfo {
            specifier,
            source,
            tables,
            expando_statements,
        })
    }

    /// Its name.
    pub fn specifier(&self) -> &Url
        ensures { result.now ≡ self.now.specifier }
    {
        &self.specifier
    }

    /// Its source.
    pub fn source(&self) -> &ParsedSource
        ensures { result.now ≡ self.now.source }
    {
        &self.source
    }

    /// Its tables.
    pub fn tables(&self) -> &CheckedTables
        ensures { result.now ≡ self.now.tables }
    {
        &self.tables
    }

    /// The id of the symbol that stands for it.
    pub fn module_symbol(&self) -> SymbolId
        ensures { result ≡ self.now.tables.module_symbol }
    {
        self.tables.module_symbol()
    }

    /// Its re-exports of all, in order.
    pub fn re_export_all_nodes(&self) -> &[ReExportAllNode]
        ensures { result.now ≡ self.now.tables.re_exports }
    {
        self.tables.re_export_all_nodes()
    }

    /// The module that answers an exported name.
    pub fn resolved_export(&self, name: &str) -> Option<&Url>
        ensures { option_copied result ≡ resolved_export self.now.tables name.now }
    {
        self.tables.resolved_export(name)
    }

    /// The exported names, each with the module that answers it, in order of the names.
    pub fn resolved_exports(&self) -> &BTreeMap<String, Url>
        ensures { answered_names result.now.entries ≡ self.now.tables.resolved }
    {
        self.tables.resolved_exports()
    }

    /// Its symbols that count, in the order in which they were handed in.
    pub fn symbols(&self) -> &[Symbol]
        ensures { result.now ≡ self.now.tables.symbols }
    {
        self.tables.symbols()
    }

    /// The symbol of an id.
    pub fn symbol(&self, id: SymbolId) -> Option<&Symbol>
        ensures { option_copied result ≡ symbol_of id self.now.tables.symbols }
    {
        self.tables.symbol(id)
    }

    /// The place of a symbol among `symbols`.
    pub fn symbol_place(&self, id: SymbolId) -> Option<usize>
        ensures { result ≡ place_of id self.now.tables.symbols }
    {
        self.tables.symbol_place(id)
    }

    /// The symbol of a resolved identifier.
    pub fn symbol_from_swc(&self, id: &Id) -> Option<&Symbol>
        ensures { option_copied result ≡ symbol_of_swc self.now.tables id.now }
    {
        self.tables.symbol_from_swc(id)
    }

    /// Whether each expando statement with a public range has an object with a symbol.
    pub fn admits(&self, public_ranges: &ModulePublicRanges) -> bool
        ensures exactly { IsTrue result ↔ Admits self.now public_ranges.now }

        // Ranges of the tables themselves are admitted.
        ensures own { AreOwnRanges self.now.tables public_ranges.now → IsTrue result }
    {
        !any_public_unbound(&self.tables, public_ranges, &self.expando_statements)
    }

    /// The law that ranges of the module's own tables are admitted. It holds of every value, and does nothing when it is called.
    pub fn own_ranges_are_admitted(&self)
        ensures { (public : PublicRanges) → AreOwnRanges self.now.tables public → Admits self.now public }
    {
        let _ = &self.expando_statements;
    }
}

/// Tables that have been checked beside a program, and the program's expando statements.
fn checked_beside(
    alloc: Global,
    tables: ModuleTables,
    program: &Tree,
) -> Result<(CheckedTables, Vec<Expando>), TableFault>
    ensures tables { IfOk result (λ made. AreMadeOf tables made.0) }
    ensures read { IfOk result (λ made. AreRead made.0 program.now made.1.items) }
    ensures well_formed { OnOk result (FitProgram tables program.now) }
    ensures fault { IfErr result (IsModuleFault tables program.now) }
{
    let tables = CheckedTables::new(alloc, tables)?;
    match bound_expandos(alloc, &tables, program) {
        Ok(expando_statements) => Ok((tables, expando_statements)),
        Err(fault) => Err(fault),
    }
}
