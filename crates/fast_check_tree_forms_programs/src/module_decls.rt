//! Imports and exports. Each form with its fields by their names.
// Written by forms/write.py from forms/forms.txt.

ghost use Rattle.std.specs.Prelude.{◌≡◌, IfOk};
ghost use Rattle.fast_check_tree_syntax.specs.Part.{seen};
ghost use Rattle.fast_check_tree_forms_programs.specs.ModuleDecls.{
  ReadsImportDecl,
  import_decl,
  ReadsImportNamedSpecifier,
  import_named_specifier,
  ReadsImportDefaultSpecifier,
  import_default_specifier,
  ReadsImportStarAsSpecifier,
  import_star_as_specifier,
  ReadsTsImportEqualsDecl,
  ts_import_equals_decl,
  ReadsTsExternalModuleRef,
  ts_external_module_ref,
  ReadsExportDecl,
  export_decl,
  ReadsNamedExport,
  named_export,
  ReadsExportNamespaceSpecifier,
  export_namespace_specifier,
  ReadsExportDefaultSpecifier,
  export_default_specifier,
  ReadsExportNamedSpecifier,
  export_named_specifier,
  ReadsExportDefaultDecl,
  export_default_decl,
  ReadsExportDefaultExpr,
  export_default_expr,
  ReadsExportAll,
  export_all,
  ReadsTsExportAssignment,
  ts_export_assignment,
  ReadsTsNamespaceExportDecl,
  ts_namespace_export_decl,
};

use fast_check_tree_syntax::{Atom, Kind, Part, SourceRange, Tree};
use std::alloc::{AllocError, Global};

/// `import specifiers from src with with`.
#[derive(Drop)]
pub struct ImportDecl<N, T> {
    pub span: SourceRange,
    /// A list of `ImportSpecifier`.
    pub specifiers: N,
    /// A `Str`.
    pub src: N,
    /// Whether it is `import type`.
    pub type_only: bool,
    /// An `ObjectLit`, or absent.
    pub with: N,
    /// The phase as a text, as `source` or `defer`.
    pub phase: T,
}

impl<'a> ImportDecl<Part<'a>, &'a str> {
    /// The fields of a node.
    pub fn of(node: Part<'a>) -> Self
        ensures { ReadsImportDecl result (seen node.entry) }
    {
        ImportDecl {
            span: node.part(0).range(),
            specifiers: node.part(1),
            src: node.part(2),
            type_only: node.part(3).flag(),
            with: node.part(4),
            phase: node.part(5).text(),
        }
    }
}

impl ImportDecl<Tree, Atom> {
    /// The node of these fields.
    pub fn into_tree(self, alloc: Global) -> Result<Tree, AllocError>
        ensures { IfOk result (λ tree. tree ≡
            import_decl self.span self.specifiers self.src self.type_only self.with self.phase) }
    {
        let ImportDecl {
            span,
            specifiers,
            src,
            type_only,
            with,
            phase,
        } = self;
        Tree::node(
            alloc,
            Kind::ImportDecl,
            [
                Tree::Range(span),
                specifiers,
                src,
                Tree::Flag(type_only),
                with,
                Tree::Text(phase),
            ],
        )
    }
}

/// In the braces of an import: `imported as local`.
#[derive(Drop)]
pub struct ImportNamedSpecifier<N> {
    pub span: SourceRange,
    /// An `Ident`.
    pub local: N,
    /// A `ModuleExportName`, or absent where it is `local`.
    pub imported: N,
    /// Whether `type` stands before it.
    pub is_type_only: bool,
}

impl<'a> ImportNamedSpecifier<Part<'a>> {
    /// The fields of a node.
    pub fn of(node: Part<'a>) -> Self
        ensures { ReadsImportNamedSpecifier result (seen node.entry) }
    {
        ImportNamedSpecifier {
            span: node.part(0).range(),
            local: node.part(1),
            imported: node.part(2),
            is_type_only: node.part(3).flag(),
        }
    }
}

impl ImportNamedSpecifier<Tree> {
    /// The node of these fields.
    pub fn into_tree(self, alloc: Global) -> Result<Tree, AllocError>
        ensures { IfOk result (λ tree. tree ≡
            import_named_specifier self.span self.local self.imported self.is_type_only) }
    {
        let ImportNamedSpecifier {
            span,
            local,
            imported,
            is_type_only,
        } = self;
        Tree::node(
            alloc,
            Kind::ImportNamedSpecifier,
            [Tree::Range(span), local, imported, Tree::Flag(is_type_only)],
        )
    }
}

/// `import local from ..`.
#[derive(Drop)]
pub struct ImportDefaultSpecifier<N> {
    pub span: SourceRange,
    /// An `Ident`.
    pub local: N,
}

impl<'a> ImportDefaultSpecifier<Part<'a>> {
    /// The fields of a node.
    pub fn of(node: Part<'a>) -> Self
        ensures { ReadsImportDefaultSpecifier result (seen node.entry) }
    {
        ImportDefaultSpecifier {
            span: node.part(0).range(),
            local: node.part(1),
        }
    }
}

impl ImportDefaultSpecifier<Tree> {
    /// The node of these fields.
    pub fn into_tree(self, alloc: Global) -> Result<Tree, AllocError>
        ensures { IfOk result (λ tree. tree ≡ import_default_specifier self.span self.local) }
    {
        let ImportDefaultSpecifier { span, local } = self;
        Tree::node(
            alloc,
            Kind::ImportDefaultSpecifier,
            [Tree::Range(span), local],
        )
    }
}

/// `import * as local from ..`.
#[derive(Drop)]
pub struct ImportStarAsSpecifier<N> {
    pub span: SourceRange,
    /// An `Ident`.
    pub local: N,
}

impl<'a> ImportStarAsSpecifier<Part<'a>> {
    /// The fields of a node.
    pub fn of(node: Part<'a>) -> Self
        ensures { ReadsImportStarAsSpecifier result (seen node.entry) }
    {
        ImportStarAsSpecifier {
            span: node.part(0).range(),
            local: node.part(1),
        }
    }
}

impl ImportStarAsSpecifier<Tree> {
    /// The node of these fields.
    pub fn into_tree(self, alloc: Global) -> Result<Tree, AllocError>
        ensures { IfOk result (λ tree. tree ≡ import_star_as_specifier self.span self.local) }
    {
        let ImportStarAsSpecifier { span, local } = self;
        Tree::node(
            alloc,
            Kind::ImportStarAsSpecifier,
            [Tree::Range(span), local],
        )
    }
}

/// `import id = module_ref`.
#[derive(Drop)]
pub struct TsImportEqualsDecl<N> {
    pub span: SourceRange,
    /// Whether `export` stands before it.
    pub is_export: bool,
    /// Whether it is `import type`.
    pub is_type_only: bool,
    /// An `Ident`.
    pub id: N,
    /// A `TsModuleRef`.
    pub module_ref: N,
}

impl<'a> TsImportEqualsDecl<Part<'a>> {
    /// The fields of a node.
    pub fn of(node: Part<'a>) -> Self
        ensures { ReadsTsImportEqualsDecl result (seen node.entry) }
    {
        TsImportEqualsDecl {
            span: node.part(0).range(),
            is_export: node.part(1).flag(),
            is_type_only: node.part(2).flag(),
            id: node.part(3),
            module_ref: node.part(4),
        }
    }
}

impl TsImportEqualsDecl<Tree> {
    /// The node of these fields.
    pub fn into_tree(self, alloc: Global) -> Result<Tree, AllocError>
        ensures { IfOk result (λ tree. tree ≡
            ts_import_equals_decl self.span self.is_export self.is_type_only self.id
            self.module_ref) }
    {
        let TsImportEqualsDecl {
            span,
            is_export,
            is_type_only,
            id,
            module_ref,
        } = self;
        Tree::node(
            alloc,
            Kind::TsImportEqualsDecl,
            [
                Tree::Range(span),
                Tree::Flag(is_export),
                Tree::Flag(is_type_only),
                id,
                module_ref,
            ],
        )
    }
}

/// `require(expr)`, behind `import id =`.
#[derive(Drop)]
pub struct TsExternalModuleRef<N> {
    pub span: SourceRange,
    /// A `Str`.
    pub expr: N,
}

impl<'a> TsExternalModuleRef<Part<'a>> {
    /// The fields of a node.
    pub fn of(node: Part<'a>) -> Self
        ensures { ReadsTsExternalModuleRef result (seen node.entry) }
    {
        TsExternalModuleRef {
            span: node.part(0).range(),
            expr: node.part(1),
        }
    }
}

impl TsExternalModuleRef<Tree> {
    /// The node of these fields.
    pub fn into_tree(self, alloc: Global) -> Result<Tree, AllocError>
        ensures { IfOk result (λ tree. tree ≡ ts_external_module_ref self.span self.expr) }
    {
        let TsExternalModuleRef { span, expr } = self;
        Tree::node(alloc, Kind::TsExternalModuleRef, [Tree::Range(span), expr])
    }
}

/// `export decl`.
#[derive(Drop)]
pub struct ExportDecl<N> {
    pub span: SourceRange,
    /// A `Decl`.
    pub decl: N,
}

impl<'a> ExportDecl<Part<'a>> {
    /// The fields of a node.
    pub fn of(node: Part<'a>) -> Self
        ensures { ReadsExportDecl result (seen node.entry) }
    {
        ExportDecl {
            span: node.part(0).range(),
            decl: node.part(1),
        }
    }
}

impl ExportDecl<Tree> {
    /// The node of these fields.
    pub fn into_tree(self, alloc: Global) -> Result<Tree, AllocError>
        ensures { IfOk result (λ tree. tree ≡ export_decl self.span self.decl) }
    {
        let ExportDecl { span, decl } = self;
        Tree::node(alloc, Kind::ExportDecl, [Tree::Range(span), decl])
    }
}

/// `export { specifiers } from src with with`.
#[derive(Drop)]
pub struct NamedExport<N> {
    pub span: SourceRange,
    /// A list of `ExportSpecifier`.
    pub specifiers: N,
    /// A `Str`, or absent.
    pub src: N,
    /// Whether it is `export type`.
    pub type_only: bool,
    /// An `ObjectLit`, or absent.
    pub with: N,
}

impl<'a> NamedExport<Part<'a>> {
    /// The fields of a node.
    pub fn of(node: Part<'a>) -> Self
        ensures { ReadsNamedExport result (seen node.entry) }
    {
        NamedExport {
            span: node.part(0).range(),
            specifiers: node.part(1),
            src: node.part(2),
            type_only: node.part(3).flag(),
            with: node.part(4),
        }
    }
}

impl NamedExport<Tree> {
    /// The node of these fields.
    pub fn into_tree(self, alloc: Global) -> Result<Tree, AllocError>
        ensures { IfOk result (λ tree. tree ≡
            named_export self.span self.specifiers self.src self.type_only self.with) }
    {
        let NamedExport {
            span,
            specifiers,
            src,
            type_only,
            with,
        } = self;
        Tree::node(
            alloc,
            Kind::NamedExport,
            [
                Tree::Range(span),
                specifiers,
                src,
                Tree::Flag(type_only),
                with,
            ],
        )
    }
}

/// `export * as name from ..`.
#[derive(Drop)]
pub struct ExportNamespaceSpecifier<N> {
    pub span: SourceRange,
    /// A `ModuleExportName`.
    pub name: N,
}

impl<'a> ExportNamespaceSpecifier<Part<'a>> {
    /// The fields of a node.
    pub fn of(node: Part<'a>) -> Self
        ensures { ReadsExportNamespaceSpecifier result (seen node.entry) }
    {
        ExportNamespaceSpecifier {
            span: node.part(0).range(),
            name: node.part(1),
        }
    }
}

impl ExportNamespaceSpecifier<Tree> {
    /// The node of these fields.
    pub fn into_tree(self, alloc: Global) -> Result<Tree, AllocError>
        ensures { IfOk result (λ tree. tree ≡ export_namespace_specifier self.span self.name) }
    {
        let ExportNamespaceSpecifier { span, name } = self;
        Tree::node(
            alloc,
            Kind::ExportNamespaceSpecifier,
            [Tree::Range(span), name],
        )
    }
}

/// `export exported from ..`.
#[derive(Drop)]
pub struct ExportDefaultSpecifier<N> {
    /// An `Ident`.
    pub exported: N,
}

impl<'a> ExportDefaultSpecifier<Part<'a>> {
    /// The fields of a node.
    pub fn of(node: Part<'a>) -> Self
        ensures { ReadsExportDefaultSpecifier result (seen node.entry) }
    {
        ExportDefaultSpecifier {
            exported: node.part(0),
        }
    }
}

impl ExportDefaultSpecifier<Tree> {
    /// The node of these fields.
    pub fn into_tree(self, alloc: Global) -> Result<Tree, AllocError>
        ensures { IfOk result (λ tree. tree ≡ export_default_specifier self.exported) }
    {
        let ExportDefaultSpecifier { exported } = self;
        Tree::node(alloc, Kind::ExportDefaultSpecifier, [exported])
    }
}

/// In the braces of an export: `orig as exported`.
#[derive(Drop)]
pub struct ExportNamedSpecifier<N> {
    pub span: SourceRange,
    /// A `ModuleExportName`.
    pub orig: N,
    /// A `ModuleExportName`, or absent where it is `orig`.
    pub exported: N,
    /// Whether `type` stands before it.
    pub is_type_only: bool,
}

impl<'a> ExportNamedSpecifier<Part<'a>> {
    /// The fields of a node.
    pub fn of(node: Part<'a>) -> Self
        ensures { ReadsExportNamedSpecifier result (seen node.entry) }
    {
        ExportNamedSpecifier {
            span: node.part(0).range(),
            orig: node.part(1),
            exported: node.part(2),
            is_type_only: node.part(3).flag(),
        }
    }
}

impl ExportNamedSpecifier<Tree> {
    /// The node of these fields.
    pub fn into_tree(self, alloc: Global) -> Result<Tree, AllocError>
        ensures { IfOk result (λ tree. tree ≡
            export_named_specifier self.span self.orig self.exported self.is_type_only) }
    {
        let ExportNamedSpecifier {
            span,
            orig,
            exported,
            is_type_only,
        } = self;
        Tree::node(
            alloc,
            Kind::ExportNamedSpecifier,
            [Tree::Range(span), orig, exported, Tree::Flag(is_type_only)],
        )
    }
}

/// `export default decl`, of a class, a function or an interface.
#[derive(Drop)]
pub struct ExportDefaultDecl<N> {
    pub span: SourceRange,
    /// A `DefaultDecl`.
    pub decl: N,
}

impl<'a> ExportDefaultDecl<Part<'a>> {
    /// The fields of a node.
    pub fn of(node: Part<'a>) -> Self
        ensures { ReadsExportDefaultDecl result (seen node.entry) }
    {
        ExportDefaultDecl {
            span: node.part(0).range(),
            decl: node.part(1),
        }
    }
}

impl ExportDefaultDecl<Tree> {
    /// The node of these fields.
    pub fn into_tree(self, alloc: Global) -> Result<Tree, AllocError>
        ensures { IfOk result (λ tree. tree ≡ export_default_decl self.span self.decl) }
    {
        let ExportDefaultDecl { span, decl } = self;
        Tree::node(alloc, Kind::ExportDefaultDecl, [Tree::Range(span), decl])
    }
}

/// `export default expr`.
#[derive(Drop)]
pub struct ExportDefaultExpr<N> {
    pub span: SourceRange,
    /// An `Expr`.
    pub expr: N,
}

impl<'a> ExportDefaultExpr<Part<'a>> {
    /// The fields of a node.
    pub fn of(node: Part<'a>) -> Self
        ensures { ReadsExportDefaultExpr result (seen node.entry) }
    {
        ExportDefaultExpr {
            span: node.part(0).range(),
            expr: node.part(1),
        }
    }
}

impl ExportDefaultExpr<Tree> {
    /// The node of these fields.
    pub fn into_tree(self, alloc: Global) -> Result<Tree, AllocError>
        ensures { IfOk result (λ tree. tree ≡ export_default_expr self.span self.expr) }
    {
        let ExportDefaultExpr { span, expr } = self;
        Tree::node(alloc, Kind::ExportDefaultExpr, [Tree::Range(span), expr])
    }
}

/// `export * from src with with`.
#[derive(Drop)]
pub struct ExportAll<N> {
    pub span: SourceRange,
    /// A `Str`.
    pub src: N,
    /// Whether it is `export type`.
    pub type_only: bool,
    /// An `ObjectLit`, or absent.
    pub with: N,
}

impl<'a> ExportAll<Part<'a>> {
    /// The fields of a node.
    pub fn of(node: Part<'a>) -> Self
        ensures { ReadsExportAll result (seen node.entry) }
    {
        ExportAll {
            span: node.part(0).range(),
            src: node.part(1),
            type_only: node.part(2).flag(),
            with: node.part(3),
        }
    }
}

impl ExportAll<Tree> {
    /// The node of these fields.
    pub fn into_tree(self, alloc: Global) -> Result<Tree, AllocError>
        ensures { IfOk result (λ tree. tree ≡
            export_all self.span self.src self.type_only self.with) }
    {
        let ExportAll {
            span,
            src,
            type_only,
            with,
        } = self;
        Tree::node(
            alloc,
            Kind::ExportAll,
            [Tree::Range(span), src, Tree::Flag(type_only), with],
        )
    }
}

/// `export = expr`.
#[derive(Drop)]
pub struct TsExportAssignment<N> {
    pub span: SourceRange,
    /// An `Expr`.
    pub expr: N,
}

impl<'a> TsExportAssignment<Part<'a>> {
    /// The fields of a node.
    pub fn of(node: Part<'a>) -> Self
        ensures { ReadsTsExportAssignment result (seen node.entry) }
    {
        TsExportAssignment {
            span: node.part(0).range(),
            expr: node.part(1),
        }
    }
}

impl TsExportAssignment<Tree> {
    /// The node of these fields.
    pub fn into_tree(self, alloc: Global) -> Result<Tree, AllocError>
        ensures { IfOk result (λ tree. tree ≡ ts_export_assignment self.span self.expr) }
    {
        let TsExportAssignment { span, expr } = self;
        Tree::node(alloc, Kind::TsExportAssignment, [Tree::Range(span), expr])
    }
}

/// `export as namespace id`.
#[derive(Drop)]
pub struct TsNamespaceExportDecl<N> {
    pub span: SourceRange,
    /// An `Ident`.
    pub id: N,
}

impl<'a> TsNamespaceExportDecl<Part<'a>> {
    /// The fields of a node.
    pub fn of(node: Part<'a>) -> Self
        ensures { ReadsTsNamespaceExportDecl result (seen node.entry) }
    {
        TsNamespaceExportDecl {
            span: node.part(0).range(),
            id: node.part(1),
        }
    }
}

impl TsNamespaceExportDecl<Tree> {
    /// The node of these fields.
    pub fn into_tree(self, alloc: Global) -> Result<Tree, AllocError>
        ensures { IfOk result (λ tree. tree ≡ ts_namespace_export_decl self.span self.id) }
    {
        let TsNamespaceExportDecl { span, id } = self;
        Tree::node(alloc, Kind::TsNamespaceExportDecl, [Tree::Range(span), id])
    }
}
