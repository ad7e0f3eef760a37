//! Symbols, with their declarations and what these refer to.
use crate::pieces::Json;
use fast_check_tables_symbols::{
    FileDepName, ReferenceNamespace, Symbol, SymbolDecl, SymbolDeclKind, SymbolDep, SymbolExports,
    SymbolNode, SymbolNodeDep,
};
use fast_check_tree_syntax::Id;

/// An identifier: its text and its scope.
pub fn print_id(out: &mut Json, id: &Id) {
    out.begin_array();
    out.text(id.0.as_str());
    out.number(id.1.0 as u64);
    out.end_array();
}

// A part of what an identifier names.
fn print_qualified(out: &mut Json, id: &Id, parts: &[String]) {
    out.begin_array();
    print_id(out, id);
    out.texts(parts);
    out.end_array();
}

fn print_dep(out: &mut Json, dep: &SymbolDep) {
    out.begin_object();
    match dep {
        SymbolDep::Id(id) => {
            out.key("Id");
            print_id(out, id);
        }
        SymbolDep::QualifiedId(id, parts) => {
            out.key("QualifiedId");
            print_qualified(out, id, parts.as_slice());
        }
        SymbolDep::ImportType(specifier, parts) => {
            out.key("ImportType");
            out.begin_array();
            out.text(specifier.as_str());
            out.texts(parts.as_slice());
            out.end_array();
        }
    }
    out.end_object();
}

fn namespace_text(namespace: ReferenceNamespace) -> &'static str {
    match namespace {
        ReferenceNamespace::Value => "Value",
        ReferenceNamespace::Type_ => "Type_",
        ReferenceNamespace::Both => "Both",
    }
}

fn print_deps(out: &mut Json, deps: &[SymbolNodeDep]) {
    out.begin_array();
    for each in deps {
        out.begin_array();
        print_dep(out, &each.dep);
        out.text(namespace_text(each.namespace));
        out.end_array();
    }
    out.end_array();
}

fn print_node(out: &mut Json, node: &SymbolNode) {
    out.begin_object();
    out.flag("is_class", node.is_class);
    out.flag("is_member", node.is_member);
    out.flag("is_function", node.is_function);
    out.flag("is_ts_namespace", node.is_ts_namespace);
    out.flag("is_default_class_expr", node.is_default_class_expr);
    out.flag("is_plain_class_decl", node.is_plain_class_decl);
    out.flag("has_export_keyword", node.has_export_keyword);
    out.key("deps");
    print_deps(out, node.deps.as_slice());
    out.end_object();
}

fn print_file_ref(out: &mut Json, specifier: &str, name: &FileDepName) {
    out.begin_object();
    out.named("specifier", specifier);
    out.key("name");
    match name {
        FileDepName::Star => out.text("Star"),
        FileDepName::Name(name) => {
            out.begin_object();
            out.named("Name", name.as_str());
            out.end_object();
        }
    }
    out.end_object();
}

fn print_kind(out: &mut Json, kind: &SymbolDeclKind) {
    out.begin_object();
    match kind {
        SymbolDeclKind::Target(id) => {
            out.key("Target");
            print_id(out, id);
        }
        SymbolDeclKind::QualifiedTarget(id, parts) => {
            out.key("QualifiedTarget");
            print_qualified(out, id, parts.as_slice());
        }
        SymbolDeclKind::FileRef { specifier, name } => {
            out.key("FileRef");
            print_file_ref(out, specifier.as_str(), name);
        }
        SymbolDeclKind::Definition(node) => {
            out.key("Definition");
            match node {
                Some(node) => print_node(out, node),
                None => out.null(),
            }
        }
    }
    out.end_object();
}

fn print_decl(out: &mut Json, decl: &SymbolDecl) {
    out.begin_object();
    out.key("range");
    out.range(decl.range);
    out.flag("value", decl.value);
    out.flag("type_", decl.type_);
    out.flag("has_overloads", decl.has_overloads);
    out.flag("has_body", decl.has_body);
    out.key("kind");
    print_kind(out, &decl.kind);
    out.end_object();
}

fn print_exports(out: &mut Json, exports: &SymbolExports) {
    out.begin_array();
    for place in 0..exports.len() {
        if let Some((name, id)) = exports.at(place) {
            out.begin_array();
            out.text(name);
            out.number(id.0 as u64);
            out.end_array();
        }
    }
    out.end_array();
}

// A member that is a text, and is left out where there is none.
fn print_name(out: &mut Json, name: &str, text: &Option<String>) {
    if let Some(text) = text {
        out.named(name, text.as_str());
    }
}

/// A symbol with its declarations.
pub fn print_symbol(out: &mut Json, symbol: &Symbol) {
    out.begin_object();
    out.key("id");
    out.number(symbol.id.0 as u64);
    if let Some(parent) = &symbol.parent_id {
        out.key("parent_id");
        out.number(parent.0 as u64);
    }
    out.flag("is_private_member", symbol.is_private_member);
    print_name(out, "maybe_name", &symbol.maybe_name);
    print_name(out, "qualified_name", &symbol.qualified_name);
    out.key("exports");
    print_exports(out, &symbol.exports);
    out.key("members");
    out.begin_array();
    for member in symbol.members.iter() {
        out.number(member.0 as u64);
    }
    out.end_array();
    out.key("decls");
    out.begin_array();
    for decl in symbol.decls.as_slice() {
        print_decl(out, decl);
    }
    out.end_array();
    out.end_object();
}
