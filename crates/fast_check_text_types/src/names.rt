//! Names, literals, type parameters and type arguments.
use fast_check_text_writer::Printer;
use fast_check_tree_forms_expressions::{ComputedPropName, TplElement};
use fast_check_tree_forms_programs::{
    BigInt, Bool, Ident, IdentName, Number, PrivateName, Regex, Str,
};
use fast_check_tree_forms_types::{
    TsQualifiedName, TsTypeAnn, TsTypeParam, TsTypeParamDecl, TsTypeParamInstantiation,
};
use fast_check_tree_syntax::{Kind, Part};

fn type_parameter<'a>(out: &mut Printer<'a>, part: Part<'a>) {
    let TsTypeParam {
        name,
        is_in,
        is_out,
        is_const,
        constraint,
        default,
        ..
    } = TsTypeParam::of(part);
    out.text_if(is_const, "const ");
    out.text_if(is_in, "in ");
    out.text_if(is_out, "out ");
    out.node(name);
    out.prefixed(" extends ", constraint);
    out.prefixed(" = ", default)
}

fn in_angles<'a>(out: &mut Printer<'a>, list: Part<'a>) {
    out.text("<");
    out.separated(list.parts(), ", ");
    out.text(">")
}

/// Prints the texts of a template, with its parts between them.
pub fn template<'a>(out: &mut Printer<'a>, texts: Part<'a>, parts: Part<'a>) {
    out.text("`");
    for (place, each) in texts.parts().iter().enumerate() {
        out.text(TplElement::of(each.read()).raw);
        if let Some(part) = parts.parts().get(place) {
            out.text("${");
            out.node(part.read());
            out.text("}")
        }
    }
    out.text("`")
}

/// Prints a name, a literal, a type annotation, or type parameters or arguments. Answers false for other nodes.
pub(crate) fn name<'a>(out: &mut Printer<'a>, part: Part<'a>) -> bool {
    match part.kind() {
        Kind::Ident => {
            let Ident { sym, optional, .. } = Ident::of(part);
            out.text(sym);
            out.text_if(optional, "?")
        }
        Kind::IdentName => out.text(IdentName::of(part).sym),
        Kind::PrivateName => {
            out.text("#");
            out.text(PrivateName::of(part).name)
        }
        Kind::Str => {
            let Str { value, raw, .. } = Str::of(part);
            if raw.is_absent() {
                out.quoted(value)
            } else {
                out.text(raw.text())
            }
        }
        Kind::Regex => {
            let Regex { exp, flags, .. } = Regex::of(part);
            out.text("/");
            out.text(exp);
            out.text("/");
            out.text(flags)
        }
        Kind::Bool => out.text(if Bool::of(part).value {
            "true"
        } else {
            "false"
        }),
        Kind::Null => out.text("null"),
        Kind::Number => out.text(Number::of(part).raw),
        Kind::BigInt => out.text(BigInt::of(part).raw),
        Kind::TsQualifiedName => {
            let TsQualifiedName { left, right, .. } = TsQualifiedName::of(part);
            out.node(left);
            out.text(".");
            out.node(right)
        }
        Kind::TsTypeAnn => out.node(TsTypeAnn::of(part).type_ann),
        Kind::TsTypeParam => type_parameter(out, part),
        Kind::ComputedPropName => {
            out.text("[");
            out.node(ComputedPropName::of(part).expr);
            out.text("]")
        }
        Kind::TsTypeParamDecl => in_angles(out, TsTypeParamDecl::of(part).params),
        Kind::TsTypeParamInstantiation => {
            in_angles(out, TsTypeParamInstantiation::of(part).params)
        }
        _ => return false,
    }
    true
}
