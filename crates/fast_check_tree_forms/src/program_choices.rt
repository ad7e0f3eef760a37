//! Which item of a module a node is, and which form stands in an import or export.
// Written by forms/write.py from forms/forms.txt.

ghost use Rattle.std.specs.Prelude.{◌≡◌};
ghost use Rattle.fast_check_tree_syntax.specs.Part.{seen};
ghost use Rattle.fast_check_tree_syntax.specs.Shape.{kind_of};
ghost use Rattle.fast_check_tree_forms.specs.ProgramChoices.{
  program_of,
  module_decl_of,
  module_item_of,
  import_specifier_of,
  export_specifier_of,
  default_decl_of,
  ts_module_ref_of,
};

use crate::statement_choices::Stmt;
use crate::type_choices::TsEntityName;
use fast_check_tree_syntax::{Kind, Part};

/// A whole file.
#[derive(Clone, Copy, Debug)]
pub enum Program {
    Module,
    Script,
    /// A node of none of these forms.
    Other,
}

impl Program {
    /// Which of the forms a node has.
    pub fn of(node: Part) -> Self
        ensures { result ≡ program_of (kind_of (seen node.entry)) }
    {
        match node.kind() {
            Kind::Module => Program::Module,
            Kind::Script => Program::Script,
            _ => Program::Other,
        }
    }
}

/// An import or an export.
#[derive(Clone, Copy, Debug)]
pub enum ModuleDecl {
    Import,
    ExportDecl,
    ExportNamed,
    ExportDefaultDecl,
    ExportDefaultExpr,
    ExportAll,
    TsImportEquals,
    TsExportAssignment,
    TsNamespaceExport,
    /// A node of none of these forms.
    Other,
}

impl ModuleDecl {
    /// Which of the forms a node has.
    pub fn of(node: Part) -> Self
        ensures { result ≡ module_decl_of (kind_of (seen node.entry)) }
    {
        match node.kind() {
            Kind::ImportDecl => ModuleDecl::Import,
            Kind::ExportDecl => ModuleDecl::ExportDecl,
            Kind::NamedExport => ModuleDecl::ExportNamed,
            Kind::ExportDefaultDecl => ModuleDecl::ExportDefaultDecl,
            Kind::ExportDefaultExpr => ModuleDecl::ExportDefaultExpr,
            Kind::ExportAll => ModuleDecl::ExportAll,
            Kind::TsImportEqualsDecl => ModuleDecl::TsImportEquals,
            Kind::TsExportAssignment => ModuleDecl::TsExportAssignment,
            Kind::TsNamespaceExportDecl => ModuleDecl::TsNamespaceExport,
            _ => ModuleDecl::Other,
        }
    }
}

/// What stands at the top of a module.
#[derive(Clone, Copy, Debug)]
pub enum ModuleItem {
    ModuleDecl,
    Stmt,
    /// A node of none of these forms.
    Other,
}

impl ModuleItem {
    /// Which of the forms a node has.
    pub fn of(node: Part) -> Self
        ensures { result ≡ module_item_of (kind_of (seen node.entry)) }
    {
        match ModuleDecl::of(node) {
            ModuleDecl::Other => match Stmt::of(node) {
                Stmt::Other => ModuleItem::Other,
                _ => ModuleItem::Stmt,
            },
            _ => ModuleItem::ModuleDecl,
        }
    }
}

/// A name that an import brings.
#[derive(Clone, Copy, Debug)]
pub enum ImportSpecifier {
    Named,
    Default,
    Namespace,
    /// A node of none of these forms.
    Other,
}

impl ImportSpecifier {
    /// Which of the forms a node has.
    pub fn of(node: Part) -> Self
        ensures { result ≡ import_specifier_of (kind_of (seen node.entry)) }
    {
        match node.kind() {
            Kind::ImportNamedSpecifier => ImportSpecifier::Named,
            Kind::ImportDefaultSpecifier => ImportSpecifier::Default,
            Kind::ImportStarAsSpecifier => ImportSpecifier::Namespace,
            _ => ImportSpecifier::Other,
        }
    }
}

/// A name that an export gives.
#[derive(Clone, Copy, Debug)]
pub enum ExportSpecifier {
    Namespace,
    Default,
    Named,
    /// A node of none of these forms.
    Other,
}

impl ExportSpecifier {
    /// Which of the forms a node has.
    pub fn of(node: Part) -> Self
        ensures { result ≡ export_specifier_of (kind_of (seen node.entry)) }
    {
        match node.kind() {
            Kind::ExportNamespaceSpecifier => ExportSpecifier::Namespace,
            Kind::ExportDefaultSpecifier => ExportSpecifier::Default,
            Kind::ExportNamedSpecifier => ExportSpecifier::Named,
            _ => ExportSpecifier::Other,
        }
    }
}

/// A declaration behind `export default`.
#[derive(Clone, Copy, Debug)]
pub enum DefaultDecl {
    Class,
    Fn,
    TsInterfaceDecl,
    /// A node of none of these forms.
    Other,
}

impl DefaultDecl {
    /// Which of the forms a node has.
    pub fn of(node: Part) -> Self
        ensures { result ≡ default_decl_of (kind_of (seen node.entry)) }
    {
        match node.kind() {
            Kind::ClassExpr => DefaultDecl::Class,
            Kind::FnExpr => DefaultDecl::Fn,
            Kind::TsInterfaceDecl => DefaultDecl::TsInterfaceDecl,
            _ => DefaultDecl::Other,
        }
    }
}

/// What stands behind `import id =`.
#[derive(Clone, Copy, Debug)]
pub enum TsModuleRef {
    TsEntityName,
    TsExternalModuleRef,
    /// A node of none of these forms.
    Other,
}

impl TsModuleRef {
    /// Which of the forms a node has.
    pub fn of(node: Part) -> Self
        ensures { result ≡ ts_module_ref_of (kind_of (seen node.entry)) }
    {
        match node.kind() {
            Kind::TsExternalModuleRef => TsModuleRef::TsExternalModuleRef,
            _ => match TsEntityName::of(node) {
                TsEntityName::Other => TsModuleRef::Other,
                _ => TsModuleRef::TsEntityName,
            },
        }
    }
}
