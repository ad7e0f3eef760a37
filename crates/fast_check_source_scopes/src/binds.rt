//! What statements, patterns and parameters bind.
use crate::scope::{ANY, Meaning, NAMESPACE, ScopeNo, Scopes, TYPE, VALUE};
use fast_check_source_references::declared::BoundNames;
use fast_check_source_walks::{Waiting, holds_statements};
use fast_check_tree_forms_expressions::{ClassExpr, FnExpr};
use fast_check_tree_forms_programs::{
    ExportDecl, ExportDefaultDecl, Ident, ImportDecl, ImportDefaultSpecifier, ImportNamedSpecifier,
    ImportStarAsSpecifier, TsImportEqualsDecl,
};
use fast_check_tree_forms_statements::{
    ClassDecl, FnDecl, LabeledStmt, TsEnumDecl, TsInterfaceDecl, TsModuleDecl, TsTypeAliasDecl,
    UsingDecl, VarDecl,
};
use fast_check_tree_forms_types::{TsConditionalType, TsInferType, TsTypeParam, TsTypeParamDecl};
use fast_check_tree_syntax::{Kind, Part, Word};

fn bind_ident(scopes: &mut Scopes, scope: ScopeNo, ident: Part<'_>, meaning: Meaning) {
    if ident.kind() == Kind::Ident {
        let Ident { sym, .. } = Ident::of(ident);
        scopes.bind(scope, sym, meaning);
    }
}

/// Binds the names of a pattern, of a parameter or of a list of these, as values.
pub fn bind_pattern(scopes: &mut Scopes, scope: ScopeNo, pattern: Part<'_>) {
    let mut names = BoundNames::of(scopes.alloc, pattern);
    for _turn in 0..u64::MAX {
        let Some(name) = names.next() else {
            break;
        };
        bind_ident(scopes, scope, name, VALUE);
    }
    scopes.lacks |= names.lacks();
}

/// Binds type parameters.
pub fn bind_type_params(scopes: &mut Scopes, scope: ScopeNo, decl: Part<'_>) {
    if decl.kind() != Kind::TsTypeParamDecl {
        return;
    }
    for param in TsTypeParamDecl::of(decl).params.parts() {
        bind_ident(scopes, scope, TsTypeParam::of(param.read()).name, TYPE);
    }
}

// Pushes the types in which the names that `infer` gives are bound with those of a type.
fn push_types<'a>(ty: Part<'a>, waiting: &mut Waiting<Part<'a>>) {
    if ty.kind() != Kind::TsConditionalType {
        return waiting.push_parts(ty);
    }
    let TsConditionalType {
        check_type,
        true_type,
        false_type,
        ..
    } = TsConditionalType::of(ty);
    waiting.push(check_type);
    waiting.push(true_type);
    waiting.push(false_type);
}

/// Binds what `infer` names in a type, but not in the `extends` of conditional types within it.
pub fn bind_inferred(scopes: &mut Scopes, scope: ScopeNo, ty: Part<'_>) {
    let mut waiting = Waiting::new(scopes.alloc);
    waiting.push(ty);
    for _turn in 0..u64::MAX {
        let Some(next) = waiting.pop() else {
            break;
        };
        if next.kind() == Kind::TsInferType {
            let param = TsInferType::of(next).type_param;
            bind_ident(scopes, scope, TsTypeParam::of(param).name, TYPE);
        }
        push_types(next, &mut waiting);
    }
    scopes.lacks |= waiting.lacks;
}

/// Binds the variables of a list, if it is `var`, or if it is not.
pub fn bind_variables(scopes: &mut Scopes, scope: ScopeNo, part: Part<'_>, vars: bool) {
    match part.kind() {
        Kind::VarDecl => {
            let VarDecl { kind, decls, .. } = VarDecl::of(part);
            if kind.has_word(Word::Var) == vars {
                bind_pattern(scopes, scope, decls);
            }
        }
        Kind::UsingDecl if !vars => bind_pattern(scopes, scope, UsingDecl::of(part).decls),
        _ => {}
    }
}

fn bind_import(scopes: &mut Scopes, scope: ScopeNo, specifiers: Part<'_>) {
    for specifier in specifiers.parts() {
        let specifier = specifier.read();
        let local = match specifier.kind() {
            Kind::ImportNamedSpecifier => ImportNamedSpecifier::of(specifier).local,
            Kind::ImportDefaultSpecifier => ImportDefaultSpecifier::of(specifier).local,
            _ => ImportStarAsSpecifier::of(specifier).local,
        };
        bind_ident(scopes, scope, local, ANY);
    }
}

// The declaration that stands behind labels and `export`.
fn inner_of(item: Part<'_>) -> Part<'_> {
    let mut at = item;
    for _turn in 0..u64::MAX {
        at = match at.kind() {
            Kind::LabeledStmt => LabeledStmt::of(at).body,
            Kind::ExportDecl => ExportDecl::of(at).decl,
            Kind::ExportDefaultDecl => ExportDefaultDecl::of(at).decl,
            _ => break,
        };
    }
    at
}

/// Binds what a statement declares in its own block, but for `var`.
pub fn bind_statement(scopes: &mut Scopes, scope: ScopeNo, item: Part<'_>) {
    let item = inner_of(item);
    let (name, meaning) = match item.kind() {
        Kind::FnDecl => (FnDecl::of(item).ident, VALUE),
        Kind::FnExpr => (FnExpr::of(item).ident, VALUE),
        Kind::ClassDecl => (ClassDecl::of(item).ident, VALUE.with(TYPE)),
        Kind::ClassExpr => (ClassExpr::of(item).ident, VALUE.with(TYPE)),
        Kind::TsInterfaceDecl => (TsInterfaceDecl::of(item).id, TYPE),
        Kind::TsTypeAliasDecl => (TsTypeAliasDecl::of(item).id, TYPE),
        Kind::TsEnumDecl => (TsEnumDecl::of(item).id, ANY),
        Kind::TsModuleDecl => (TsModuleDecl::of(item).id, VALUE.with(NAMESPACE)),
        Kind::TsImportEqualsDecl => (TsImportEqualsDecl::of(item).id, ANY),
        Kind::VarDecl | Kind::UsingDecl => return bind_variables(scopes, scope, item, false),
        Kind::ImportDecl => return bind_import(scopes, scope, ImportDecl::of(item).specifiers),
        _ => return,
    };
    bind_ident(scopes, scope, name, meaning)
}

/// Binds what each statement of a list declares in its own block.
pub fn bind_statements(scopes: &mut Scopes, scope: ScopeNo, stmts: Part<'_>) {
    for stmt in stmts.parts() {
        bind_statement(scopes, scope, stmt.read());
    }
}

/// Binds each `var` of a statement, however deep in blocks, but not in functions, classes or namespaces.
pub fn bind_vars(scopes: &mut Scopes, scope: ScopeNo, stmt: Part<'_>) {
    let mut waiting = Waiting::new(scopes.alloc);
    waiting.push(stmt);
    for _turn in 0..u64::MAX {
        let Some(next) = waiting.pop() else {
            break;
        };
        if next.kind() == Kind::VarDecl {
            bind_variables(scopes, scope, next, true);
        } else if next.kind() == Kind::ExportDecl || holds_statements(next.kind()) {
            waiting.push_parts(next);
        }
    }
    scopes.lacks |= waiting.lacks;
}

/// Binds what a body declares: that of a module, a namespace or a function.
pub fn bind_body(scopes: &mut Scopes, scope: ScopeNo, stmts: Part<'_>) {
    for stmt in stmts.parts() {
        bind_statement(scopes, scope, stmt.read());
        bind_vars(scopes, scope, stmt.read());
    }
}
