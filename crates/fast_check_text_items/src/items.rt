//! Modules, their items, and the statements that stand in skeletons.
use crate::imports::import_or_export;
use crate::reserved::{exports_of, has_reserved, is_reserved_alone, variables_of};
use fast_check_text_writer::Printer;
use fast_check_tree_forms_programs::{
    ExportDefaultExpr, Module, TsExportAssignment, TsNamespaceExportDecl,
};
use fast_check_tree_forms_statements::{BlockStmt, ExprStmt, ReturnStmt, TsModuleDecl};
use fast_check_tree_syntax::{Kind, Part, Tree};

// Whether an item says what its body exports.
fn says_exports(item: &Tree) -> bool {
    matches!(
        item.read().kind(),
        Kind::NamedExport | Kind::ExportAll | Kind::TsExportAssignment | Kind::ExportDefaultExpr
    )
}

// Whether an item is a declaration without the word `export`.
fn is_plain(item: &Tree) -> bool {
    let part = item.read();
    match part.kind() {
        Kind::ClassDecl
        | Kind::FnDecl
        | Kind::VarDecl
        | Kind::UsingDecl
        | Kind::TsInterfaceDecl
        | Kind::TsTypeAliasDecl
        | Kind::TsEnumDecl => true,
        Kind::TsModuleDecl => {
            let TsModuleDecl { global, id, .. } = TsModuleDecl::of(part);
            !global && id.kind() == Kind::Ident
        }
        _ => false,
    }
}

/// Whether an ambient body needs `export {}`, since a declaration of it is not exported. In a namespace that is known by another one that is.
pub(crate) fn needs_list(items: &[Tree], is_module: bool) -> bool {
    let is_exported = |item: &Tree| item.read().kind() == Kind::ExportDecl;
    !items.iter().any(says_exports)
        && items.iter().any(is_plain)
        && (is_module || items.iter().any(is_exported))
}

// Whether an item is an import or an export.
fn is_of_module(item: &Tree) -> bool {
    matches!(
        item.read().kind(),
        Kind::ImportDecl
            | Kind::ExportDecl
            | Kind::NamedExport
            | Kind::ExportDefaultDecl
            | Kind::ExportDefaultExpr
            | Kind::ExportAll
            | Kind::TsImportEqualsDecl
            | Kind::TsExportAssignment
            | Kind::TsNamespaceExportDecl
    )
}

fn between<'a>(out: &mut Printer<'a>, word: &'a str, part: Part<'a>) {
    out.text(word);
    out.node(part);
    out.text(";")
}

/// Prints an item of a module, or a statement that skeletons have. Answers false for other nodes.
pub(crate) fn item<'a>(out: &mut Printer<'a>, part: Part<'a>) -> bool {
    match part.kind() {
        Kind::ExportDefaultExpr => {
            between(out, "export default ", ExportDefaultExpr::of(part).expr)
        }
        Kind::TsExportAssignment => { between(out, "export = ", TsExportAssignment::of(part).expr) }
        Kind::TsNamespaceExportDecl => {
            between(
                out,
                "export as namespace ",
                TsNamespaceExportDecl::of(part).id,
            )
        }
        Kind::ExprStmt => between(out, "", ExprStmt::of(part).expr),
        Kind::ReturnStmt => {
            out.text("return");
            out.prefixed(" ", ReturnStmt::of(part).arg);
            out.text(";")
        }
        Kind::BlockStmt => {
            let BlockStmt { span, stmts, .. } = BlockStmt::of(part);
            out.in_braces(stmts.parts(), span, "")
        }
        Kind::EmptyStmt => out.text(";"),
        _ => return import_or_export(out, part),
    }
    true
}

/// Prints the items of a module or a namespace, each on a line of its own.
pub(crate) fn items<'a>(out: &mut Printer<'a>, list: &'a [Tree]) {
    for each in list {
        let item = each.read();
        let has_reserved = has_reserved(item);
        if has_reserved {
            variables_of(out, list, item);
        }
        if !is_reserved_alone(each) {
            out.line();
            out.node(item);
        }
        if has_reserved {
            exports_of(out, list, item);
        }
    }
}

/// Prints the items of a module. One without imports and exports gets `export {}`, without which it would be a script.
pub(crate) fn module<'a>(out: &mut Printer<'a>, program: Part<'a>) {
    let Module { body, shebang, .. } = Module::of(program);
    if !shebang.is_absent() {
        out.text("#!");
        out.text(shebang.text());
        out.line();
    }
    let list = body.parts();
    items(out, list);
    out.line();
    let is_script = !list.iter().any(is_of_module);
    let needs_export = is_script || (out.is_ambient() && needs_list(list, true));
    out.text_if(needs_export, "export {};");
    out.line()
}
