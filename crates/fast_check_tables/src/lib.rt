//! Modules and packages beside their syntax trees: the graph, the tables of each module, the URLs and members that a caller lends, and diagnostics. It
//! offers the crates that hold these, and has no code.
#![tactic(auto)]

pub use fast_check_tables_diagnostics::parsed_source::{MediaType, ModuleSpecifier, ParsedSource};
pub use fast_check_tables_graph::{AnyModuleInfo, Module, ModuleGraph, RootSymbol};
pub use fast_check_tables_modules::{
    CheckedTables, EsModuleInfo, FileDepName, JsonModuleInfo, ModuleTables, ReExportAllNode,
    ReferenceNamespace, Symbol, SymbolDecl, SymbolDeclKind, SymbolDecls, SymbolDep, SymbolExports,
    SymbolId, SymbolNode, SymbolNodeDep, TableFault,
};
pub use fast_check_tables_packages::{JsrUrlProvider, PackageNv, WorkspaceMember};

/// The public ranges of a module, and diagnostics.
pub mod diagnostics {
    pub use fast_check_tables_modules::diagnostics::{
        Diagnostic, DiagnosticLevel, DiagnosticLocation, DiagnosticSnippet, FastCheckDiagnostic,
        FastCheckDiagnosticRange, ModulePublicRanges,
    };
}

/// Sets of demanded names, and the modules that were followed or wait.
pub mod lattice {
    pub use fast_check_finder_lattice::{
        Exports, FileDepName, HandledExports, ImportedExports, NamedSubset, PendingTrace,
        PendingTraces,
    };
}

/// What a caller lends, and why a build stops.
pub mod provider {
    pub use fast_check_tables_packages::{
        BuildFault, IndexedPackages, JsrUrlProvider, ListedPackages,
    };
}
