//! Properties of functions under words that no variable may have, as `request.delete = ..`.
//!
//! The program makes a variable of each in a namespace. Only an ambient namespace may export it by another name: so the variable
//! stands beside the namespace, and an ambient block exports it.
use crate::declarations::{begin_declarator, begin_declarators, end_declarators, initializer};
use fast_check_text_writer::{Printer, range_of};
use fast_check_tree_forms_expressions::{ClassExpr, FnExpr};
use fast_check_tree_forms_programs::{
    BindingIdent, ExportDecl, ExportDefaultDecl, Ident, ImportDecl, TsImportEqualsDecl,
};
use fast_check_tree_forms_statements::{
    ClassDecl, FnDecl, TsEnumDecl, TsInterfaceDecl, TsModuleBlock, TsModuleDecl, TsTypeAliasDecl,
    VarDecl, VarDeclarator,
};
use fast_check_tree_syntax::{DUMMY_SP, Kind, Part, SourceRange, Tree};

const RESERVED: [&str; 48] = [
    "break",
    "case",
    "catch",
    "class",
    "const",
    "continue",
    "debugger",
    "default",
    "delete",
    "do",
    "else",
    "enum",
    "export",
    "extends",
    "false",
    "finally",
    "for",
    "function",
    "if",
    "import",
    "in",
    "instanceof",
    "new",
    "null",
    "return",
    "super",
    "switch",
    "this",
    "throw",
    "true",
    "try",
    "typeof",
    "var",
    "void",
    "while",
    "with",
    "implements",
    "interface",
    "let",
    "package",
    "private",
    "protected",
    "public",
    "static",
    "yield",
    "await",
    "eval",
    "arguments",
];

const SUFFIXES: [&str; 10] = ["", "_1", "_2", "_3", "_4", "_5", "_6", "_7", "_8", "_9"];

// The name of a variable beside a namespace: that of the namespace, its own, and a number if others have such a name.
#[derive(Clone, Copy)]
struct MadeName<'a> {
    namespace: &'a str,
    own: &'a str,
    suffix: &'a str,
}

impl<'a> MadeName<'a> {
    fn is(self, name: &str) -> bool {
        let MadeName {
            namespace,
            own,
            suffix,
        } = self;
        let Some(rest) = name.strip_prefix(namespace) else {
            return false;
        };
        let Some(rest) = rest.strip_prefix("_") else {
            return false;
        };
        rest.strip_prefix(own) == Some(suffix)
    }

    fn print(self, out: &mut Printer<'a>) {
        out.text(self.namespace);
        out.text("_");
        out.text(self.own);
        out.text(self.suffix)
    }
}

// The declaration of an item, exported or not.
fn declaration_of(item: Part<'_>) -> Part<'_> {
    match item.kind() {
        Kind::ExportDecl => ExportDecl::of(item).decl,
        _ => item,
    }
}

// The name of a variable; the empty one for a pattern.
fn name_of(declarator: Part<'_>) -> &str {
    let name = VarDeclarator::of(declarator).name;
    match name.kind() {
        Kind::BindingIdent => Ident::of(BindingIdent::of(name).id).sym,
        _ => "",
    }
}

/// Whether a variable has a name that only a property can have.
pub(crate) fn is_reserved(declarator: Part<'_>) -> bool {
    RESERVED.contains(&name_of(declarator))
}

// The variables that an item exports.
fn exported_variables(item: Part<'_>) -> &[Tree] {
    let decl = declaration_of(item);
    if item.kind() == Kind::ExportDecl && decl.kind() == Kind::VarDecl {
        VarDecl::of(decl).decls.parts()
    } else {
        &[]
    }
}

// The items of a namespace with a single name; none of another item.
fn namespace_items(item: Part<'_>) -> &[Tree] {
    let decl = declaration_of(item);
    if decl.kind() != Kind::TsModuleDecl {
        return &[];
    }
    let TsModuleDecl { id, body, .. } = TsModuleDecl::of(decl);
    if id.kind() == Kind::Ident && body.kind() == Kind::TsModuleBlock {
        TsModuleBlock::of(body).body.parts()
    } else {
        &[]
    }
}

fn namespace_name(item: Part<'_>) -> &str {
    Ident::of(TsModuleDecl::of(declaration_of(item)).id).sym
}

fn exports_reserved(item: &Tree) -> bool {
    let mut list = exported_variables(item.read()).iter();
    list.any(|each| is_reserved(each.read()))
}

/// Whether an item is a namespace that exports variables with such names.
pub(crate) fn has_reserved(item: Part<'_>) -> bool {
    namespace_items(item).iter().any(exports_reserved)
}

// Whether an item exports variables with such names, and nothing else.
fn exports_reserved_alone(item: &Tree) -> bool {
    let list = exported_variables(item.read());
    !list.is_empty() && list.iter().all(|each| is_reserved(each.read()))
}

/// Whether nothing is left of an item without the variables with such names.
pub(crate) fn is_reserved_alone(item: &Tree) -> bool {
    let inner = namespace_items(item.read());
    let is_emptied = !inner.is_empty() && inner.iter().all(exports_reserved_alone);
    is_emptied || exports_reserved_alone(item)
}

fn is_named(ident: Part<'_>, name: MadeName<'_>) -> bool {
    name.is(Ident::of(ident).sym)
}

// Whether a declaration binds a name.
fn binds(decl: Part<'_>, name: MadeName<'_>) -> bool {
    match decl.kind() {
        Kind::ClassDecl => is_named(ClassDecl::of(decl).ident, name),
        Kind::FnDecl => is_named(FnDecl::of(decl).ident, name),
        Kind::ClassExpr => is_named(ClassExpr::of(decl).ident, name),
        Kind::FnExpr => is_named(FnExpr::of(decl).ident, name),
        Kind::TsInterfaceDecl => is_named(TsInterfaceDecl::of(decl).id, name),
        Kind::TsTypeAliasDecl => is_named(TsTypeAliasDecl::of(decl).id, name),
        Kind::TsEnumDecl => is_named(TsEnumDecl::of(decl).id, name),
        Kind::TsModuleDecl => is_named(TsModuleDecl::of(decl).id, name),
        Kind::TsImportEqualsDecl => is_named(TsImportEqualsDecl::of(decl).id, name),
        Kind::VarDecl => {
            let mut list = VarDecl::of(decl).decls.parts().iter();
            list.any(|each| name.is(name_of(each.read())))
        }
        _ => false,
    }
}

// Whether an item declares or imports a name.
fn declares(item: Part<'_>, name: MadeName<'_>) -> bool {
    match item.kind() {
        Kind::ExportDefaultDecl => binds(ExportDefaultDecl::of(item).decl, name),
        Kind::ImportDecl => {
            // The local name is the first field after the range in each kind of specifier.
            let mut list = ImportDecl::of(item).specifiers.parts().iter();
            list.any(|each| is_named(each.read().part(1), name))
        }
        _ => binds(declaration_of(item), name),
    }
}

// The name of a variable of a namespace beside it, which none of the items has. Ten are tried.
fn made_name<'a>(items: &[Tree], namespace: &'a str, own: &'a str) -> MadeName<'a> {
    let mut name = MadeName {
        namespace,
        own,
        suffix: "",
    };
    for suffix in SUFFIXES.iter() {
        name.suffix = *suffix;
        if !items.iter().any(|each| declares(each.read(), name)) {
            break;
        }
    }
    name
}

// How many variables with such names an item exports.
fn count_of(item: &Tree) -> usize {
    let list = exported_variables(item.read());
    list.iter().filter(|each| is_reserved(each.read())).count()
}

// Prints a variable under another name.
fn renamed<'a>(out: &mut Printer<'a>, declarator: Part<'a>, made: MadeName<'a>) {
    let SourceRange { start, end } = range_of(declarator);
    let VarDeclarator { name, init, .. } = VarDeclarator::of(declarator);
    out.leading(start);
    made.print(out);
    out.prefixed(": ", BindingIdent::of(name).type_ann);
    initializer(out, name, init);
    out.trailing(end)
}

/// Prints the variables with such names of a namespace, beside it.
pub(crate) fn variables_of<'a>(out: &mut Printer<'a>, items: &'a [Tree], item: Part<'a>) {
    let mut count = 0_usize;
    for each in namespace_items(item) {
        count = count.saturating_add(count_of(each));
    }
    let mut is_first = true;
    out.line();
    out.text("var ");
    begin_declarators(out, count);
    for each in namespace_items(item) {
        for declarator in exported_variables(each.read()) {
            let own = name_of(declarator.read());
            if is_reserved(declarator.read()) {
                let made = made_name(items, namespace_name(item), own);
                begin_declarator(out, is_first);
                renamed(out, declarator.read(), made);
                is_first = false;
            }
        }
    }
    end_declarators(out, count)
}

// Prints the names in the list of exports.
fn specifiers<'a>(out: &mut Printer<'a>, items: &'a [Tree], item: Part<'a>) {
    let mut is_first = true;
    for each in namespace_items(item) {
        for declarator in exported_variables(each.read()) {
            let own = name_of(declarator.read());
            if is_reserved(declarator.read()) {
                out.text_if(!is_first, ",");
                out.soft_line(" ");
                made_name(items, namespace_name(item), own).print(out);
                out.text(" as ");
                out.text(own);
                is_first = false;
            }
        }
    }
}

/// Prints an ambient block of a namespace, which exports the variables beside it.
pub(crate) fn exports_of<'a>(out: &mut Printer<'a>, items: &'a [Tree], item: Part<'a>) {
    out.line();
    out.text_if(item.kind() == Kind::ExportDecl, "export ");
    out.text("declare namespace ");
    out.text(namespace_name(item));
    out.text(" ");
    out.open_braces(DUMMY_SP);
    out.line();
    out.open(false);
    out.text("export {");
    out.indent();
    specifiers(out, items, item);
    out.if_broken(",");
    out.outdent();
    out.soft_line(" ");
    out.text("};");
    out.close();
    out.close_braces(DUMMY_SP)
}
