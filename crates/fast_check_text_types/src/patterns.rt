//! Patterns.
use fast_check_text_writer::Printer;
use fast_check_tree_forms_classes::Param;
use fast_check_tree_forms_expressions::{
    ArrayPat, AssignPat, AssignPatProp, KeyValuePatProp, ObjectPat, PatExpr, RestPat, TargetPat,
};
use fast_check_tree_forms_programs::BindingIdent;
use fast_check_tree_syntax::{Kind, Part};

fn array_pattern<'a>(out: &mut Printer<'a>, part: Part<'a>) {
    let ArrayPat {
        elems,
        optional,
        type_ann,
        ..
    } = ArrayPat::of(part);
    out.text("[");
    for (place, each) in elems.parts().iter().enumerate() {
        out.text_if(place > 0, ", ");
        out.prefixed("", each.read());
    }
    let ends_empty = match elems.parts().last() {
        Some(last) => last.read().is_absent(),
        None => false,
    };
    out.text_if(ends_empty, ",");
    out.text("]");
    out.text_if(optional, "?");
    out.prefixed(": ", type_ann)
}

fn object_pattern<'a>(out: &mut Printer<'a>, part: Part<'a>) {
    let ObjectPat {
        props,
        optional,
        type_ann,
        ..
    } = ObjectPat::of(part);
    let is_empty = props.parts().is_empty();
    out.text(if is_empty { "{" } else { "{ " });
    out.separated(props.parts(), ", ");
    out.text(if is_empty { "}" } else { " }" });
    out.text_if(optional, "?");
    out.prefixed(": ", type_ann)
}

/// Prints a pattern or a parameter. Answers false for other nodes.
pub(crate) fn pattern<'a>(out: &mut Printer<'a>, part: Part<'a>) -> bool {
    match part.kind() {
        Kind::BindingIdent => {
            let BindingIdent { id, type_ann } = BindingIdent::of(part);
            out.node(id);
            out.prefixed(": ", type_ann)
        }
        Kind::ArrayPat => array_pattern(out, part),
        Kind::ObjectPat => object_pattern(out, part),
        Kind::RestPat => {
            let RestPat { arg, type_ann, .. } = RestPat::of(part);
            out.text("...");
            out.node(arg);
            out.prefixed(": ", type_ann)
        }
        Kind::AssignPat => {
            let AssignPat { left, right, .. } = AssignPat::of(part);
            out.node(left);
            out.prefixed(" = ", right)
        }
        Kind::KeyValuePatProp => {
            let KeyValuePatProp { key, value } = KeyValuePatProp::of(part);
            out.node(key);
            out.prefixed(": ", value)
        }
        Kind::AssignPatProp => {
            let AssignPatProp { key, value, .. } = AssignPatProp::of(part);
            out.node(key);
            out.prefixed(" = ", value)
        }
        Kind::Param => {
            let Param {
                decorators,
                pat,
                ..
            } = Param::of(part);
            out.decorators(decorators, false);
            out.node(pat)
        }
        Kind::TargetPat => out.node(TargetPat::of(part).pat),
        Kind::PatExpr => out.node(PatExpr::of(part).expr),
        _ => return false,
    }
    true
}
