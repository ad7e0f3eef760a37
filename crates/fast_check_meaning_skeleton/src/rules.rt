//! What is done with an item, by its kind.
ghost use Rattle.std.specs.Prelude.{◌≡◌};
ghost use Rattle.fast_check_tree_syntax.specs.Part.{seen};
ghost use Rattle.fast_check_meaning_skeleton.specs.Rules.{decl_rule, default_rule, expr_stmt_rule, item_rule, is_require};

use fast_check_meaning_signatures::FaultKind;
use fast_check_tree_forms_programs::{ExportDecl, ExportDefaultDecl, TsImportEqualsDecl};
use fast_check_tree_forms_statements::ExprStmt;
use fast_check_tree_syntax::{Kind, Part};

/// What is done with a declaration.
#[derive(Clone, Copy, PartialEq, Eq, Debug)]
pub enum DeclRule {
    /// A variable statement stays with its public declarators.
    Variables,
    /// A function stays by its signature.
    Function,
    /// A class stays by its superclass and its members.
    Class,
    /// A declaration that stands as it is written.
    Standing,
    /// A namespace stays with what is public of its items. No skeleton has `declare global`, nor what has no body or a text for its name.
    Namespace,
    /// `using`: no skeleton has what it declares.
    Using,
    /// What is no declaration: nothing of it is seen.
    NoDeclaration,
}

/// An import or an export that leads to other modules, or to other names.
#[derive(Clone, Copy, PartialEq, Eq, Debug)]
pub enum ImportExportRule {
    /// An import stays with its public specifiers.
    Import,
    /// An export of names stays with its public specifiers.
    Export,
    /// `export * from source` stays where it is public.
    All,
    /// `import A = B.C` stays where it is public.
    Alias,
}

/// What is exported by default.
#[derive(Clone, Copy, PartialEq, Eq, Debug)]
pub enum DefaultRule {
    /// An expression stays if it gives its type by itself.
    Value,
    /// A class stays by its superclass and its members.
    Class,
    /// A function stays by its signature.
    Function,
    /// An interface stands as it is written.
    Interface,
}

/// What is done with an item of a module.
#[derive(PartialEq, Eq, Debug, Drop)]
pub enum ItemRule {
    /// A declaration, which is public by its own range.
    Declared(DeclRule),
    /// An export of a declaration, which is public by the range of the export.
    Exported(DeclRule),
    /// An import, or an export of names or of all.
    ImportExport(ImportExportRule),
    /// A default export.
    Default(DefaultRule),
    /// An item that no skeleton has, public or not.
    Refused(FaultKind),
    /// An assignment that is a statement: its right side is tested where it is public, and it goes. Of expando form it declares a
    /// property, which stands in a namespace behind the other items.
    Assigned,
    /// A statement that declares and assigns nothing: nothing of it is seen.
    Silent,
}

/// What is done with a declaration of this kind.
pub fn decl_rule(kind: Kind) -> DeclRule
    ensures { result ≡ decl_rule kind }
{
    match kind {
        Kind::VarDecl => DeclRule::Variables,
        Kind::FnDecl => DeclRule::Function,
        Kind::ClassDecl => DeclRule::Class,
        Kind::TsInterfaceDecl | Kind::TsTypeAliasDecl | Kind::TsEnumDecl => DeclRule::Standing,
        Kind::TsModuleDecl => DeclRule::Namespace,
        Kind::UsingDecl => DeclRule::Using,
        _ => DeclRule::NoDeclaration,
    }
}

/// What is done with the default export of a declaration of this kind.
fn default_rule(kind: Kind) -> ItemRule
    ensures { result ≡ default_rule kind }
{
    match kind {
        Kind::ClassExpr => ItemRule::Default(DefaultRule::Class),
        Kind::FnExpr => ItemRule::Default(DefaultRule::Function),
        Kind::TsInterfaceDecl => ItemRule::Default(DefaultRule::Interface),
        _ => ItemRule::Declared(DeclRule::NoDeclaration),
    }
}

/// Whether an import is `import x = require(..)`.
fn is_require(item: Part<'_>) -> bool
    ensures { result ≡ is_require (seen item.entry) }
{
    TsImportEqualsDecl::of(item).module_ref.kind() == Kind::TsExternalModuleRef
}

/// What is done with an expression that is a statement, by its kind.
fn expr_stmt_rule(kind: Kind) -> ItemRule
    ensures { result ≡ expr_stmt_rule kind }
{
    if kind == Kind::AssignExpr {
        ItemRule::Assigned
    } else {
        ItemRule::Silent
    }
}

/// What is done with an item.
pub fn item_rule(item: Part<'_>) -> ItemRule
    ensures { result ≡ item_rule (seen item.entry) }
{
    match item.kind() {
        Kind::ExportDecl => ItemRule::Exported(decl_rule(ExportDecl::of(item).decl.kind())),
        Kind::ImportDecl => ItemRule::ImportExport(ImportExportRule::Import),
        Kind::NamedExport => ItemRule::ImportExport(ImportExportRule::Export),
        Kind::ExportAll => ItemRule::ImportExport(ImportExportRule::All),
        Kind::TsImportEqualsDecl if is_require(item) => {
            ItemRule::Refused(FaultKind::UnsupportedRequire)
        }
        Kind::TsImportEqualsDecl => ItemRule::ImportExport(ImportExportRule::Alias),
        Kind::TsExportAssignment => ItemRule::Refused(FaultKind::UnsupportedTsExportAssignment),
        Kind::TsNamespaceExportDecl => ItemRule::Refused(FaultKind::UnsupportedTsNamespaceExport),
        Kind::ExportDefaultExpr => ItemRule::Default(DefaultRule::Value),
        Kind::ExportDefaultDecl => default_rule(ExportDefaultDecl::of(item).decl.kind()),
        Kind::ExprStmt => expr_stmt_rule(ExprStmt::of(item).expr.kind()),
        Kind::BlockStmt
        | Kind::EmptyStmt
        | Kind::DebuggerStmt
        | Kind::WithStmt
        | Kind::ReturnStmt
        | Kind::LabeledStmt
        | Kind::BreakStmt
        | Kind::ContinueStmt
        | Kind::IfStmt
        | Kind::SwitchStmt
        | Kind::ThrowStmt
        | Kind::TryStmt
        | Kind::WhileStmt
        | Kind::DoWhileStmt
        | Kind::ForStmt
        | Kind::ForInStmt
        | Kind::ForOfStmt => ItemRule::Silent,
        kind => ItemRule::Declared(decl_rule(kind)),
    }
}
