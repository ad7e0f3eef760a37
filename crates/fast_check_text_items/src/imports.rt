//! Imports and exports.
use fast_check_text_values::named_class;
use fast_check_text_writer::Printer;
use fast_check_tree_forms_classes::Class;
use fast_check_tree_forms_expressions::ClassExpr;
use fast_check_tree_forms_programs::{
    ExportAll, ExportDecl, ExportDefaultDecl, ExportNamedSpecifier, ExportNamespaceSpecifier,
    ImportDecl, ImportDefaultSpecifier, ImportNamedSpecifier, ImportStarAsSpecifier, NamedExport,
    TsExternalModuleRef, TsImportEqualsDecl,
};
use fast_check_tree_forms_statements::ClassDecl;
use fast_check_tree_syntax::{Kind, Part, Tree};

// The names in the braces of an import or an export.
fn in_list(specifiers: &[Tree]) -> &[Tree] {
    let outside = |each: &&Tree| {
        matches!(
            each.read().kind(),
            Kind::ImportDefaultSpecifier | Kind::ImportStarAsSpecifier
        )
    };
    let count = specifiers.iter().take_while(outside).count();
    specifiers.get(count..).unwrap_or(&[])
}

// Prints the end of an import or an export: its source, and the attributes.
fn from<'a>(out: &mut Printer<'a>, src: Part<'a>, with: Part<'a>) {
    out.prefixed(" from ", src);
    out.prefixed(" with ", with);
    out.text(";")
}

// Prints the names in braces. They have lines of their own where the declaration, which is the group, is broken into lines.
fn named_list<'a>(out: &mut Printer<'a>, list: &'a [Tree]) {
    out.text("{");
    out.listed(list, " ", ",");
    out.text("}")
}

fn import<'a>(out: &mut Printer<'a>, part: Part<'a>) {
    let ImportDecl {
        specifiers,
        src,
        type_only,
        with,
        phase,
        ..
    } = ImportDecl::of(part);
    let list = specifiers.parts();
    if list.is_empty() && !type_only {
        out.text("import ");
        out.text_if(phase == "defer", "defer ");
        out.node(src);
        out.prefixed(" with ", with);
        out.text(";");
        return;
    }
    let named = in_list(list);
    let count = list.len().saturating_sub(named.len());
    let has_comments = out.has_comments(named);
    out.open(has_comments);
    out.text("import ");
    out.text_if(type_only, "type ");
    out.text_if(phase == "defer", "defer ");
    out.text_if(list.is_empty(), "{}");
    if let Some(outside) = list.get(0..count) {
        out.separated(outside, ", ");
    }
    out.text_if(count > 0 && !named.is_empty(), ", ");
    if !named.is_empty() {
        named_list(out, named);
    }
    from(out, src, with);
    out.close()
}

fn export_named<'a>(out: &mut Printer<'a>, part: Part<'a>) {
    let NamedExport {
        specifiers,
        src,
        type_only,
        with,
        ..
    } = NamedExport::of(part);
    let list = specifiers.parts();
    let has_comments = out.has_comments(list);
    out.open(has_comments);
    out.text("export ");
    out.text_if(type_only, "type ");
    match list {
        [] => out.text("{}"),
        [first, ..] if first.read().kind() == Kind::ExportNamespaceSpecifier => {
            out.node(first.read())
        }
        list => named_list(out, list),
    }
    from(out, src, with);
    out.close()
}

// Prints two names, of which the second may be absent.
fn renamed<'a>(out: &mut Printer<'a>, first: Part<'a>, second: Part<'a>, is_type_only: bool) {
    out.text_if(is_type_only, "type ");
    out.node(first);
    out.prefixed(" as ", second)
}

fn import_equals<'a>(out: &mut Printer<'a>, part: Part<'a>) {
    let TsImportEqualsDecl {
        is_export,
        is_type_only,
        id,
        module_ref,
        ..
    } = TsImportEqualsDecl::of(part);
    out.text_if(is_export, "export ");
    out.text("import ");
    out.text_if(is_type_only, "type ");
    out.node(id);
    out.prefixed(" = ", module_ref);
    out.text(";")
}

fn class_after<'a>(
    out: &mut Printer<'a>,
    word: &'a str,
    ident: Part<'a>,
    class: Part<'a>,
    declare: bool,
) {
    out.decorators(Class::of(class).decorators, true);
    out.text(word);
    named_class(out, ident, class, [false, declare])
}

// Prints a declaration after `export`. The decorators of a class stand before the word.
fn export_declaration<'a>(out: &mut Printer<'a>, part: Part<'a>) {
    let decl = ExportDecl::of(part).decl;
    if decl.kind() == Kind::ClassDecl {
        let ClassDecl {
            ident,
            declare,
            class,
        } = ClassDecl::of(decl);
        class_after(out, "export ", ident, class, declare)
    } else {
        out.prefixed("export ", decl)
    }
}

fn export_default<'a>(out: &mut Printer<'a>, part: Part<'a>) {
    let decl = ExportDefaultDecl::of(part).decl;
    if decl.kind() == Kind::ClassExpr {
        let ClassExpr { ident, class } = ClassExpr::of(decl);
        class_after(out, "export default ", ident, class, false)
    } else {
        out.prefixed("export default ", decl)
    }
}

/// Prints an import, an export, or a name in one. Answers false for other nodes.
pub(crate) fn import_or_export<'a>(out: &mut Printer<'a>, part: Part<'a>) -> bool {
    match part.kind() {
        Kind::ImportDecl => import(out, part),
        Kind::ImportDefaultSpecifier => out.node(ImportDefaultSpecifier::of(part).local),
        Kind::ImportStarAsSpecifier => {
            out.prefixed("* as ", ImportStarAsSpecifier::of(part).local)
        }
        Kind::ImportNamedSpecifier => {
            let ImportNamedSpecifier {
                local,
                imported,
                is_type_only,
                ..
            } = ImportNamedSpecifier::of(part);
            if imported.is_absent() {
                renamed(out, local, imported, is_type_only)
            } else {
                renamed(out, imported, local, is_type_only)
            }
        }
        Kind::ExportNamespaceSpecifier => {
            out.prefixed("* as ", ExportNamespaceSpecifier::of(part).name)
        }
        Kind::ExportNamedSpecifier => {
            let ExportNamedSpecifier {
                orig,
                exported,
                is_type_only,
                ..
            } = ExportNamedSpecifier::of(part);
            renamed(out, orig, exported, is_type_only)
        }
        Kind::NamedExport => export_named(out, part),
        Kind::ExportAll => {
            let ExportAll {
                src,
                type_only,
                with,
                ..
            } = ExportAll::of(part);
            out.text(if type_only {
                "export type *"
            } else {
                "export *"
            });
            from(out, src, with)
        }
        Kind::ExportDecl => export_declaration(out, part),
        Kind::ExportDefaultDecl => export_default(out, part),
        Kind::TsImportEqualsDecl => import_equals(out, part),
        Kind::TsExternalModuleRef => {
            out.text("require(");
            out.node(TsExternalModuleRef::of(part).expr);
            out.text(")")
        }
        _ => return false,
    }
    true
}
