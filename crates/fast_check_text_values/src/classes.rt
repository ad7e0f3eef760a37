//! Classes.
use crate::functions::{after_name, function_body};
use fast_check_text_types::keyword;
use fast_check_text_writer::{Printer, range_of};
use fast_check_tree_forms_classes::{
    AutoAccessor, Class, ClassMethod, ClassProp, Constructor, Function, PrivateMethod, PrivateProp,
    StaticBlock, TsParamProp,
};
use fast_check_tree_forms_expressions::ClassExpr;
use fast_check_tree_forms_statements::{ClassDecl, TsExprWithTypeArgs};
use fast_check_tree_syntax::{Kind, Part, SourcePos, SourceRange};

// What a property is printed from, after its modifiers.
struct PropertyParts<'a> {
    key: Part<'a>,
    mark: &'a str,
    type_ann: Part<'a>,
    value: Part<'a>,
}

// What a method is printed from.
struct MethodParts<'a> {
    key: Part<'a>,
    function: Part<'a>,
    kind: Part<'a>,
    accessibility: Part<'a>,
    is_static: bool,
    is_abstract: bool,
    is_override: bool,
    is_optional: bool,
}

fn mark(is_optional: bool, is_definite: bool) -> &'static str {
    if is_optional {
        "?"
    } else if is_definite {
        "!"
    } else {
        ""
    }
}

fn property<'a>(out: &mut Printer<'a>, property: PropertyParts<'a>) {
    let PropertyParts {
        key,
        mark,
        type_ann,
        value,
    } = property;
    out.node(key);
    out.text(mark);
    out.prefixed(": ", type_ann);
    out.prefixed(" = ", value);
    out.text(";")
}

fn class_prop<'a>(out: &mut Printer<'a>, part: Part<'a>) {
    let ClassProp {
        key,
        value,
        type_ann,
        is_static,
        decorators,
        accessibility,
        is_abstract,
        is_optional,
        is_override,
        readonly,
        declare,
        definite,
        ..
    } = ClassProp::of(part);
    out.decorators(decorators, false);
    out.text_if(declare, "declare ");
    keyword(out, accessibility);
    out.text_if(is_static, "static ");
    out.text_if(is_abstract, "abstract ");
    out.text_if(is_override, "override ");
    out.text_if(readonly, "readonly ");
    let mark = mark(is_optional, definite);
    property(
        out,
        PropertyParts {
            key,
            mark,
            type_ann,
            value,
        },
    )
}

fn private_prop<'a>(out: &mut Printer<'a>, part: Part<'a>) {
    let PrivateProp {
        key,
        value,
        type_ann,
        is_static,
        decorators,
        accessibility,
        is_optional,
        is_override,
        readonly,
        definite,
        ..
    } = PrivateProp::of(part);
    out.decorators(decorators, false);
    keyword(out, accessibility);
    out.text_if(is_static, "static ");
    out.text_if(is_override, "override ");
    out.text_if(readonly, "readonly ");
    let mark = mark(is_optional, definite);
    property(
        out,
        PropertyParts {
            key,
            mark,
            type_ann,
            value,
        },
    )
}

fn auto_accessor<'a>(out: &mut Printer<'a>, part: Part<'a>) {
    let AutoAccessor {
        key,
        value,
        type_ann,
        is_static,
        decorators,
        accessibility,
        is_abstract,
        is_override,
        definite,
        ..
    } = AutoAccessor::of(part);
    out.decorators(decorators, false);
    keyword(out, accessibility);
    out.text_if(is_static, "static ");
    out.text_if(is_abstract, "abstract ");
    out.text_if(is_override, "override ");
    out.text("accessor ");
    let mark = mark(false, definite);
    property(
        out,
        PropertyParts {
            key,
            mark,
            type_ann,
            value,
        },
    )
}

fn class_method<'a>(out: &mut Printer<'a>, method: MethodParts<'a>) {
    let MethodParts {
        key,
        function,
        kind,
        accessibility,
        is_static,
        is_abstract,
        is_override,
        is_optional,
    } = method;
    let Function {
        decorators,
        is_async,
        is_generator,
        ..
    } = Function::of(function);
    out.decorators(decorators, false);
    keyword(out, accessibility);
    out.text_if(is_static, "static ");
    out.text_if(is_abstract, "abstract ");
    out.text_if(is_override, "override ");
    out.text_if(is_async, "async ");
    keyword(out, kind);
    out.text_if(is_generator, "*");
    out.node(key);
    out.text_if(is_optional, "?");
    after_name(out, function)
}

fn public_method<'a>(out: &mut Printer<'a>, part: Part<'a>) {
    let ClassMethod {
        key,
        function,
        kind,
        is_static,
        accessibility,
        is_abstract,
        is_optional,
        is_override,
        ..
    } = ClassMethod::of(part);
    class_method(
        out,
        MethodParts {
            key,
            function,
            kind,
            accessibility,
            is_static,
            is_abstract,
            is_override,
            is_optional,
        },
    )
}

fn private_method<'a>(out: &mut Printer<'a>, part: Part<'a>) {
    let PrivateMethod {
        key,
        function,
        kind,
        is_static,
        accessibility,
        is_abstract,
        is_optional,
        is_override,
        ..
    } = PrivateMethod::of(part);
    class_method(
        out,
        MethodParts {
            key,
            function,
            kind,
            accessibility,
            is_static,
            is_abstract,
            is_override,
            is_optional,
        },
    )
}

fn constructor<'a>(out: &mut Printer<'a>, part: Part<'a>) {
    let Constructor {
        key,
        params,
        body,
        accessibility,
        ..
    } = Constructor::of(part);
    keyword(out, accessibility);
    out.node(key);
    out.parameters(params, params.parts().len() > 1);
    function_body(out, body)
}

fn param_prop<'a>(out: &mut Printer<'a>, part: Part<'a>) {
    let TsParamProp {
        decorators,
        accessibility,
        is_override,
        readonly,
        param,
        ..
    } = TsParamProp::of(part);
    out.decorators(decorators, false);
    keyword(out, accessibility);
    out.text_if(is_override, "override ");
    out.text_if(readonly, "readonly ");
    out.node(param)
}

/// Prints a class with its name, and with the comments around it. Its decorators may stand elsewhere.
pub fn named_class<'a>(out: &mut Printer<'a>, ident: Part<'a>, class: Part<'a>, words: [bool; 2]) {
    let [has_decorators, is_declare] = words;
    let SourceRange { start, end } = range_of(class);
    let Class {
        decorators,
        body,
        super_class,
        is_abstract,
        type_params,
        super_type_params,
        implements,
        ..
    } = Class::of(class);
    out.leading(start);
    if has_decorators {
        out.decorators(decorators, true);
    }
    out.text_if(is_declare, "declare ");
    out.text_if(is_abstract, "abstract ");
    out.text("class");
    out.prefixed(" ", ident);
    out.prefixed("", type_params);
    out.prefixed(" extends ", super_class);
    out.prefixed("", super_type_params);
    if !implements.parts().is_empty() {
        out.text(" implements ");
        out.separated(implements.parts(), ", ");
    }
    out.text(" ");
    let range = SourceRange {
        start: SourcePos(0),
        end,
    };
    out.in_braces(body.parts(), range, "");
    out.trailing(end)
}

/// Prints a class, a member of one, or a clause of its head. Answers false for other nodes.
pub(crate) fn class_part<'a>(out: &mut Printer<'a>, part: Part<'a>) -> bool {
    match part.kind() {
        Kind::ClassDecl => {
            let ClassDecl {
                ident,
                declare,
                class,
            } = ClassDecl::of(part);
            named_class(out, ident, class, [true, declare])
        }
        Kind::ClassExpr => {
            let ClassExpr { ident, class } = ClassExpr::of(part);
            named_class(out, ident, class, [true, false])
        }
        Kind::TsExprWithTypeArgs => {
            let TsExprWithTypeArgs {
                expr,
                type_args,
                ..
            } = TsExprWithTypeArgs::of(part);
            out.node(expr);
            out.prefixed("", type_args)
        }
        Kind::ClassProp => class_prop(out, part),
        Kind::PrivateProp => private_prop(out, part),
        Kind::AutoAccessor => auto_accessor(out, part),
        Kind::ClassMethod => public_method(out, part),
        Kind::PrivateMethod => private_method(out, part),
        Kind::Constructor => constructor(out, part),
        Kind::TsParamProp => param_prop(out, part),
        Kind::StaticBlock => {
            out.text("static ");
            out.node(StaticBlock::of(part).body)
        }
        _ => return false,
    }
    true
}
