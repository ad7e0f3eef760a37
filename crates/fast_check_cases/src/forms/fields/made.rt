//! The forms, made.

use crate::forms::fields::{part, span, text};
use fast_check_tree_forms_classes::{ClassProp, Function};
use fast_check_tree_forms_expressions::{PatExpr, RestPat, TplElement};
use fast_check_tree_forms_programs::{Ident, ImportDecl, Null, Regex};
use fast_check_tree_forms_statements::{FnDecl, VarDecl};
use fast_check_tree_forms_types::TsKeywordType;
use fast_check_tree_syntax::{Kind, SyntaxContext, Tree};
use std::alloc::{AllocError, Global};

/// The node of a form of these by its kind, and else nothing.
pub fn made(alloc: Global, kind: Kind) -> Result<Tree, AllocError> {
    match kind {
        Kind::Null => made_null(alloc),
        Kind::Ident => made_ident(alloc),
        Kind::Regex => made_regex(alloc),
        Kind::ImportDecl => made_import_decl(alloc),
        Kind::FnDecl => made_fn_decl(alloc),
        Kind::VarDecl => made_var_decl(alloc),
        Kind::TplElement => made_tpl_element(alloc),
        Kind::RestPat => made_rest_pat(alloc),
        Kind::PatExpr => made_pat_expr(alloc),
        Kind::Function => made_function(alloc),
        Kind::ClassProp => made_class_prop(alloc),
        Kind::TsKeywordType => made_ts_keyword_type(alloc),
        _ => Ok(Tree::Absent),
    }
}

fn made_null(alloc: Global) -> Result<Tree, AllocError> {
    Null { span: span(0) }.into_tree(alloc)
}

fn made_ident(alloc: Global) -> Result<Tree, AllocError> {
    Ident {
        span: span(0),
        ctxt: SyntaxContext(1),
        sym: text(alloc)?,
        optional: true,
    }
    .into_tree(alloc)
}

fn made_regex(alloc: Global) -> Result<Tree, AllocError> {
    Regex {
        span: span(0),
        exp: text(alloc)?,
        flags: text(alloc)?,
    }
    .into_tree(alloc)
}

fn made_import_decl(alloc: Global) -> Result<Tree, AllocError> {
    ImportDecl {
        span: span(0),
        specifiers: part(1),
        src: part(2),
        type_only: true,
        with: part(4),
        phase: text(alloc)?,
    }
    .into_tree(alloc)
}

fn made_fn_decl(alloc: Global) -> Result<Tree, AllocError> {
    FnDecl {
        ident: part(0),
        declare: true,
        function: part(2),
    }
    .into_tree(alloc)
}

fn made_var_decl(alloc: Global) -> Result<Tree, AllocError> {
    VarDecl {
        span: span(0),
        ctxt: SyntaxContext(1),
        kind: part(2),
        declare: true,
        decls: part(4),
    }
    .into_tree(alloc)
}

fn made_tpl_element(alloc: Global) -> Result<Tree, AllocError> {
    TplElement {
        span: span(0),
        tail: true,
        cooked: part(2),
        raw: text(alloc)?,
    }
    .into_tree(alloc)
}

fn made_rest_pat(alloc: Global) -> Result<Tree, AllocError> {
    RestPat {
        span: span(0),
        dot3_token: span(1),
        arg: part(2),
        type_ann: part(3),
    }
    .into_tree(alloc)
}

fn made_pat_expr(alloc: Global) -> Result<Tree, AllocError> {
    PatExpr { expr: part(0) }.into_tree(alloc)
}

fn made_function(alloc: Global) -> Result<Tree, AllocError> {
    Function {
        span: span(0),
        params: part(1),
        decorators: part(2),
        ctxt: SyntaxContext(3),
        body: part(4),
        is_generator: true,
        is_async: true,
        type_params: part(7),
        return_type: part(8),
    }
    .into_tree(alloc)
}

fn made_class_prop(alloc: Global) -> Result<Tree, AllocError> {
    ClassProp {
        span: span(0),
        key: part(1),
        value: part(2),
        type_ann: part(3),
        is_static: true,
        decorators: part(5),
        accessibility: part(6),
        is_abstract: true,
        is_optional: true,
        is_override: true,
        readonly: true,
        declare: true,
        definite: true,
    }
    .into_tree(alloc)
}

fn made_ts_keyword_type(alloc: Global) -> Result<Tree, AllocError> {
    TsKeywordType {
        span: span(0),
        kind: part(1),
    }
    .into_tree(alloc)
}
