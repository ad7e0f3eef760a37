//! The forms, read.

use crate::forms::fields::{Seen, are_as_made};
use fast_check_tree_forms_classes::{ClassProp, Function};
use fast_check_tree_forms_expressions::{PatExpr, RestPat, TplElement};
use fast_check_tree_forms_programs::{Ident, ImportDecl, Null, Regex};
use fast_check_tree_forms_statements::{FnDecl, VarDecl};
use fast_check_tree_forms_types::TsKeywordType;
use fast_check_tree_syntax::{Kind, Part};

/// Whether each field of such a node gives what it was made of.
pub fn is_read(node: Part<'_>, kind: Kind) -> bool {
    match kind {
        Kind::Null => is_read_null(node),
        Kind::Ident => is_read_ident(node),
        Kind::Regex => is_read_regex(node),
        Kind::ImportDecl => is_read_import_decl(node),
        Kind::FnDecl => is_read_fn_decl(node),
        Kind::VarDecl => is_read_var_decl(node),
        Kind::TplElement => is_read_tpl_element(node),
        Kind::RestPat => is_read_rest_pat(node),
        Kind::PatExpr => is_read_pat_expr(node),
        Kind::Function => is_read_function(node),
        Kind::ClassProp => is_read_class_prop(node),
        Kind::TsKeywordType => is_read_ts_keyword_type(node),
        _ => false,
    }
}

fn is_read_null(node: Part<'_>) -> bool {
    let Null { span } = Null::of(node);
    are_as_made(&[Seen::Range(span)])
}

fn is_read_ident(node: Part<'_>) -> bool {
    let Ident {
        span,
        ctxt,
        sym,
        optional,
    } = Ident::of(node);
    are_as_made(&[
        Seen::Range(span),
        Seen::Scope(ctxt),
        Seen::Text(sym),
        Seen::Flag(optional),
    ])
}

fn is_read_regex(node: Part<'_>) -> bool {
    let Regex { span, exp, flags } = Regex::of(node);
    are_as_made(&[Seen::Range(span), Seen::Text(exp), Seen::Text(flags)])
}

fn is_read_import_decl(node: Part<'_>) -> bool {
    let ImportDecl {
        span,
        specifiers,
        src,
        type_only,
        with,
        phase,
    } = ImportDecl::of(node);
    are_as_made(&[
        Seen::Range(span),
        Seen::Part(specifiers),
        Seen::Part(src),
        Seen::Flag(type_only),
        Seen::Part(with),
        Seen::Text(phase),
    ])
}

fn is_read_fn_decl(node: Part<'_>) -> bool {
    let FnDecl {
        ident,
        declare,
        function,
    } = FnDecl::of(node);
    are_as_made(&[Seen::Part(ident), Seen::Flag(declare), Seen::Part(function)])
}

fn is_read_var_decl(node: Part<'_>) -> bool {
    let VarDecl {
        span,
        ctxt,
        kind,
        declare,
        decls,
    } = VarDecl::of(node);
    are_as_made(&[
        Seen::Range(span),
        Seen::Scope(ctxt),
        Seen::Part(kind),
        Seen::Flag(declare),
        Seen::Part(decls),
    ])
}

fn is_read_tpl_element(node: Part<'_>) -> bool {
    let TplElement {
        span,
        tail,
        cooked,
        raw,
    } = TplElement::of(node);
    are_as_made(&[
        Seen::Range(span),
        Seen::Flag(tail),
        Seen::Part(cooked),
        Seen::Text(raw),
    ])
}

fn is_read_rest_pat(node: Part<'_>) -> bool {
    let RestPat {
        span,
        dot3_token,
        arg,
        type_ann,
    } = RestPat::of(node);
    are_as_made(&[
        Seen::Range(span),
        Seen::Range(dot3_token),
        Seen::Part(arg),
        Seen::Part(type_ann),
    ])
}

fn is_read_pat_expr(node: Part<'_>) -> bool {
    let PatExpr { expr } = PatExpr::of(node);
    are_as_made(&[Seen::Part(expr)])
}

fn is_read_function(node: Part<'_>) -> bool {
    let Function {
        span,
        params,
        decorators,
        ctxt,
        body,
        is_generator,
        is_async,
        type_params,
        return_type,
    } = Function::of(node);
    are_as_made(&[
        Seen::Range(span),
        Seen::Part(params),
        Seen::Part(decorators),
        Seen::Scope(ctxt),
        Seen::Part(body),
        Seen::Flag(is_generator),
        Seen::Flag(is_async),
        Seen::Part(type_params),
        Seen::Part(return_type),
    ])
}

fn is_read_class_prop(node: Part<'_>) -> bool {
    let ClassProp {
        span,
        key,
        value,
        type_ann,
        is_static,
        decorators,
        accessibility,
        is_abstract,
        is_optional,
        is_override,
        readonly,
        declare,
        definite,
    } = ClassProp::of(node);
    are_as_made(&[
        Seen::Range(span),
        Seen::Part(key),
        Seen::Part(value),
        Seen::Part(type_ann),
        Seen::Flag(is_static),
        Seen::Part(decorators),
        Seen::Part(accessibility),
        Seen::Flag(is_abstract),
        Seen::Flag(is_optional),
        Seen::Flag(is_override),
        Seen::Flag(readonly),
        Seen::Flag(declare),
        Seen::Flag(definite),
    ])
}

fn is_read_ts_keyword_type(node: Part<'_>) -> bool {
    let TsKeywordType { span, kind } = TsKeywordType::of(node);
    are_as_made(&[Seen::Range(span), Seen::Part(kind)])
}
