//! Functions.
use fast_check_text_writer::{Printer, range_of};
use fast_check_tree_forms_classes::{Decorator, Function};
use fast_check_tree_forms_expressions::{ArrowExpr, FnExpr, GetterProp, MethodProp, SetterProp};
use fast_check_tree_forms_statements::FnDecl;
use fast_check_tree_forms_types::{TsTypeParam, TsTypeParamDecl};
use fast_check_tree_syntax::{Kind, Part, SourceRange};

// Whether a list is of one type parameter without a bound.
fn is_single(type_params: Part<'_>) -> bool {
    match TsTypeParamDecl::of(type_params).params.parts() {
        [only] => TsTypeParam::of(only.read()).constraint.is_absent(),
        _ => false,
    }
}

/// Decorators, each in a line of its own or in the one of what they stand before.
pub fn decorators<'a>(out: &mut Printer<'a>, decorators: Part<'a>, has_lines: bool) {
    for each in decorators.parts() {
        out.node(each.read());
        if has_lines { out.line() } else { out.text(" ") }
    }
}

/// Prints a body, or the semicolon in its place.
pub(crate) fn function_body<'a>(out: &mut Printer<'a>, body: Part<'a>) {
    out.text_if(body.is_absent(), ";");
    out.prefixed(" ", body)
}

/// Prints a function from its type parameters on.
pub(crate) fn after_name<'a>(out: &mut Printer<'a>, function: Part<'a>) {
    let Function {
        params,
        body,
        type_params,
        return_type,
        ..
    } = Function::of(function);
    out.prefixed("", type_params);
    out.parameters(params, true);
    out.prefixed(": ", return_type);
    function_body(out, body)
}

// Prints a function with its name, and with the comments around it.
fn named_function<'a>(
    out: &mut Printer<'a>,
    ident: Part<'a>,
    function: Part<'a>,
    is_declare: bool,
) {
    let SourceRange { start, end } = range_of(function);
    let Function {
        is_async,
        is_generator,
        ..
    } = Function::of(function);
    out.leading(start);
    out.text_if(is_declare, "declare ");
    out.text_if(is_async, "async ");
    out.text("function");
    out.text_if(is_generator, "*");
    out.text(" ");
    out.prefixed("", ident);
    after_name(out, function);
    out.trailing(end)
}

fn arrow<'a>(out: &mut Printer<'a>, part: Part<'a>) {
    let ArrowExpr {
        params,
        body,
        is_async,
        type_params,
        return_type,
        ..
    } = ArrowExpr::of(part);
    out.text_if(is_async, "async ");
    if out.is_angle_reserved() && is_single(type_params) {
        out.text("<");
        out.separated(TsTypeParamDecl::of(type_params).params.parts(), ", ");
        out.text(",>");
    } else {
        out.prefixed("", type_params);
    }
    out.parameters(params, true);
    out.prefixed(": ", return_type);
    out.text(" => ");
    out.node(body)
}

fn accessor_prop<'a>(out: &mut Printer<'a>, part: Part<'a>) {
    if part.kind() == Kind::GetterProp {
        let GetterProp {
            key,
            type_ann,
            body,
            ..
        } = GetterProp::of(part);
        out.text("get ");
        out.node(key);
        out.text("()");
        out.prefixed(": ", type_ann);
        function_body(out, body)
    } else {
        let SetterProp {
            key,
            param,
            body,
            ..
        } = SetterProp::of(part);
        out.text("set ");
        out.node(key);
        out.text("(");
        out.node(param);
        out.text(")");
        function_body(out, body)
    }
}

fn method_prop<'a>(out: &mut Printer<'a>, part: Part<'a>) {
    let MethodProp { key, function } = MethodProp::of(part);
    let Function {
        is_async,
        is_generator,
        ..
    } = Function::of(function);
    out.text_if(is_async, "async ");
    out.text_if(is_generator, "*");
    out.node(key);
    after_name(out, function)
}

/// Prints a function, or a decorator. Answers false for other nodes.
pub(crate) fn function_part<'a>(out: &mut Printer<'a>, part: Part<'a>) -> bool {
    match part.kind() {
        Kind::FnDecl => {
            let FnDecl {
                ident,
                declare,
                function,
            } = FnDecl::of(part);
            named_function(out, ident, function, declare)
        }
        Kind::FnExpr => {
            let FnExpr { ident, function } = FnExpr::of(part);
            named_function(out, ident, function, false)
        }
        Kind::ArrowExpr => arrow(out, part),
        Kind::GetterProp | Kind::SetterProp => accessor_prop(out, part),
        Kind::MethodProp => method_prop(out, part),
        Kind::Decorator => {
            out.text("@");
            out.node(Decorator::of(part).expr)
        }
        _ => return false,
    }
    true
}
