//! The forms of names, literals, programs and module declarations.
//!
//! A form reads a node where its `N` is a `Part` and its `T` a `&str`, and makes one where they are a `Tree` and an `Atom`.
//!
//! `of` reads a node by the places of its fields, whatever its kind is. A field that is not there is absent, false, empty or
//! `DUMMY_SP`. `into_tree` fails only if memory runs out.
// Written by forms/write.py from forms/forms.txt.
#![tactic(auto)]

mod literals;
mod module_decls;
mod names;
mod programs;

pub use literals::{BigInt, Bool, JSXText, Null, Number, Regex, Str};
pub use module_decls::{
    ExportAll, ExportDecl, ExportDefaultDecl, ExportDefaultExpr, ExportDefaultSpecifier,
    ExportNamedSpecifier, ExportNamespaceSpecifier, ImportDecl, ImportDefaultSpecifier,
    ImportNamedSpecifier, ImportStarAsSpecifier, NamedExport, TsExportAssignment,
    TsExternalModuleRef, TsImportEqualsDecl, TsNamespaceExportDecl,
};
pub use names::{BindingIdent, Ident, IdentName, PrivateName};
pub use programs::{Module, Script};
