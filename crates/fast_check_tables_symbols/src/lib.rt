//! The symbols of a module: the names that its declarations bind, and those that these refer to; and the tables of a module, checked once, so that
//! each symbol that they mention is found.
#![tactic(auto)]

mod aliases;
mod checked;
mod decl;
mod decls;
mod entries;
mod exports;
mod fault;
mod faults;
mod file_dep_name;
mod members;
mod node;
mod symbol;
mod symbol_id;
mod table;
mod tables;

pub use checked::CheckedTables;
pub use decl::{SymbolDecl, SymbolDeclKind};
pub use decls::SymbolDecls;
pub use entries::map_of;
pub use exports::SymbolExports;
pub use fault::TableFault;
pub use file_dep_name::FileDepName;
pub use node::{ReferenceNamespace, SymbolDep, SymbolNode, SymbolNodeDep};
pub use symbol::Symbol;
pub use symbol_id::SymbolId;
pub use table::SymbolTable;
pub use tables::{ModuleTables, ReExportAllNode};
