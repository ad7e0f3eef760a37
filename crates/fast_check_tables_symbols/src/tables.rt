//! The tables of a module as they are handed in.
use crate::symbol::Symbol;
use crate::symbol_id::SymbolId;
use fast_check_tree_syntax::{Id, SourceRange};
use url::Url;

/// A re-export of all: `export * from "specifier"`.
#[derive(Drop)]
pub struct ReExportAllNode {
    pub range: SourceRange,
    /// The source text.
    pub specifier: String,
}

/// What an analysis of a module's symbols gives.
#[derive(Drop)]
pub struct ModuleTables {
    /// Of symbols with one id the last counts.
    pub symbols: Vec<Symbol>,
    /// The symbol that stands for the module.
    pub module_symbol: SymbolId,
    /// The symbols of resolved identifiers. Of entries with one identifier the last counts.
    pub swc_ids: Vec<(Id, SymbolId)>,
    pub re_export_all_nodes: Vec<ReExportAllNode>,
    /// The names that the module exports, with the module that answers each. Of entries with one name the last counts.
    pub resolved_exports: Vec<(String, Url)>,
}
