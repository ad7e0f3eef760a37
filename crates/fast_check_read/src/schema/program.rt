//! The fields of modules and scripts, and of what imports and exports.
// Written by forms/write.py from forms/forms.txt.

use crate::schema::form::{Choice, Count, Field, Form, SPAN, Variant};
use fast_check_tree_syntax::Kind;

pub static MODULE: [Field; 3] = [
    SPAN,
    ("body", Form::Choice(Choice::ModuleItem), Count::List),
    ("shebang", Form::Text, Count::Option),
];

pub static SCRIPT: [Field; 3] = [
    SPAN,
    ("body", Form::Choice(Choice::Stmt), Count::List),
    ("shebang", Form::Text, Count::Option),
];

pub static IMPORT_DECL: [Field; 6] = [
    SPAN,
    (
        "specifiers",
        Form::Choice(Choice::ImportSpecifier),
        Count::List,
    ),
    ("src", Form::Struct(Kind::Str), Count::One),
    ("type_only", Form::Flag, Count::One),
    ("with", Form::Struct(Kind::ObjectLit), Count::Option),
    ("phase", Form::Text, Count::One),
];

pub static EXPORT_DECL: [Field; 2] = [SPAN, ("decl", Form::Choice(Choice::Decl), Count::One)];

pub static NAMED_EXPORT: [Field; 5] = [
    SPAN,
    (
        "specifiers",
        Form::Choice(Choice::ExportSpecifier),
        Count::List,
    ),
    ("src", Form::Struct(Kind::Str), Count::Option),
    ("type_only", Form::Flag, Count::One),
    ("with", Form::Struct(Kind::ObjectLit), Count::Option),
];

pub static EXPORT_DEFAULT_DECL: [Field; 2] = [
    SPAN,
    ("decl", Form::Choice(Choice::DefaultDecl), Count::One),
];

pub static EXPORT_DEFAULT_EXPR: [Field; 2] = [
    SPAN,
    ("expr", Form::Choice(Choice::Expr), Count::One),
];

pub static EXPORT_ALL: [Field; 4] = [
    SPAN,
    ("src", Form::Struct(Kind::Str), Count::One),
    ("type_only", Form::Flag, Count::One),
    ("with", Form::Struct(Kind::ObjectLit), Count::Option),
];

pub static TS_IMPORT_EQUALS_DECL: [Field; 5] = [
    SPAN,
    ("is_export", Form::Flag, Count::One),
    ("is_type_only", Form::Flag, Count::One),
    ("id", Form::Struct(Kind::Ident), Count::One),
    ("module_ref", Form::Choice(Choice::TsModuleRef), Count::One),
];

pub static TS_EXPORT_ASSIGNMENT: [Field; 2] = [
    SPAN,
    ("expr", Form::Choice(Choice::Expr), Count::One),
];

pub static TS_NAMESPACE_EXPORT_DECL: [Field; 2] = [
    SPAN,
    ("id", Form::Struct(Kind::Ident), Count::One),
];

pub static IMPORT_NAMED_SPECIFIER: [Field; 4] = [
    SPAN,
    ("local", Form::Struct(Kind::Ident), Count::One),
    (
        "imported",
        Form::Choice(Choice::ModuleExportName),
        Count::Option,
    ),
    ("is_type_only", Form::Flag, Count::One),
];

pub static IMPORT_DEFAULT_SPECIFIER: [Field; 2] = [
    SPAN,
    ("local", Form::Struct(Kind::Ident), Count::One),
];

pub static IMPORT_STAR_AS_SPECIFIER: [Field; 2] = [
    SPAN,
    ("local", Form::Struct(Kind::Ident), Count::One),
];

pub static EXPORT_NAMESPACE_SPECIFIER: [Field; 2] = [
    SPAN,
    ("name", Form::Choice(Choice::ModuleExportName), Count::One),
];

pub static EXPORT_DEFAULT_SPECIFIER: [Field; 1] = [(
    "exported",
    Form::Struct(Kind::Ident),
    Count::One,
)];

pub static EXPORT_NAMED_SPECIFIER: [Field; 4] = [
    SPAN,
    ("orig", Form::Choice(Choice::ModuleExportName), Count::One),
    (
        "exported",
        Form::Choice(Choice::ModuleExportName),
        Count::Option,
    ),
    ("is_type_only", Form::Flag, Count::One),
];

pub static TS_EXTERNAL_MODULE_REF: [Field; 2] = [
    SPAN,
    ("expr", Form::Struct(Kind::Str), Count::One),
];

pub static PROGRAM_VARIANTS: [Variant; 2] = [
    ("Module", Form::Struct(Kind::Module)),
    ("Script", Form::Struct(Kind::Script)),
];

pub static MODULE_ITEM_VARIANTS: [Variant; 2] = [
    ("ModuleDecl", Form::Choice(Choice::ModuleDecl)),
    ("Stmt", Form::Choice(Choice::Stmt)),
];

pub static MODULE_DECL_VARIANTS: [Variant; 9] = [
    ("Import", Form::Struct(Kind::ImportDecl)),
    ("ExportDecl", Form::Struct(Kind::ExportDecl)),
    ("ExportNamed", Form::Struct(Kind::NamedExport)),
    ("ExportDefaultDecl", Form::Struct(Kind::ExportDefaultDecl)),
    ("ExportDefaultExpr", Form::Struct(Kind::ExportDefaultExpr)),
    ("ExportAll", Form::Struct(Kind::ExportAll)),
    ("TsImportEquals", Form::Struct(Kind::TsImportEqualsDecl)),
    ("TsExportAssignment", Form::Struct(Kind::TsExportAssignment)),
    (
        "TsNamespaceExport",
        Form::Struct(Kind::TsNamespaceExportDecl),
    ),
];

pub static IMPORT_SPECIFIER_VARIANTS: [Variant; 3] = [
    ("Named", Form::Struct(Kind::ImportNamedSpecifier)),
    ("Default", Form::Struct(Kind::ImportDefaultSpecifier)),
    ("Namespace", Form::Struct(Kind::ImportStarAsSpecifier)),
];

pub static EXPORT_SPECIFIER_VARIANTS: [Variant; 3] = [
    ("Namespace", Form::Struct(Kind::ExportNamespaceSpecifier)),
    ("Default", Form::Struct(Kind::ExportDefaultSpecifier)),
    ("Named", Form::Struct(Kind::ExportNamedSpecifier)),
];

pub static MODULE_EXPORT_NAME_VARIANTS: [Variant; 2] = [
    ("Ident", Form::Struct(Kind::Ident)),
    ("Str", Form::Struct(Kind::Str)),
];

pub static DEFAULT_DECL_VARIANTS: [Variant; 3] = [
    ("Class", Form::Struct(Kind::ClassExpr)),
    ("Fn", Form::Struct(Kind::FnExpr)),
    ("TsInterfaceDecl", Form::Struct(Kind::TsInterfaceDecl)),
];

pub static TS_MODULE_REF_VARIANTS: [Variant; 2] = [
    ("TsEntityName", Form::Choice(Choice::TsEntityName)),
    (
        "TsExternalModuleRef",
        Form::Struct(Kind::TsExternalModuleRef),
    ),
];
