//! A module's source beside its tables, checked against one another once, so that what they mention is always found.
#![tactic(auto)]

mod es_module;
mod expandos;
mod json_module;
mod ranges;
mod unbound;

pub use es_module::EsModuleInfo;
pub use expandos::{Expando, expandos_of, is_expando_assignment};
pub use fast_check_tables_diagnostics as diagnostics;
pub use fast_check_tables_diagnostics::parsed_source::MediaType;
pub use fast_check_tables_symbols as symbols;
pub use fast_check_tables_symbols::{
    CheckedTables, FileDepName, ModuleTables, ReExportAllNode, ReferenceNamespace, Symbol,
    SymbolDecl, SymbolDeclKind, SymbolDecls, SymbolDep, SymbolExports, SymbolId, SymbolNode,
    SymbolNodeDep, TableFault,
};
pub use json_module::JsonModuleInfo;
