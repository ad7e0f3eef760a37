//! Expressions without operators.
use fast_check_text_types::template;
use fast_check_text_writer::Printer;
use fast_check_tree_forms_expressions::{
    ArrayLit, AssignProp, ExprOrSpread, JSXElement, JSXEmpty, JSXFragment, JSXMember,
    JSXNamespacedName, KeyValueProp, MetaPropExpr, ObjectLit, ParenExpr, SpreadElement, TaggedTpl,
    Tpl,
};
use fast_check_tree_syntax::{Kind, Part, Tree};

fn object<'a>(out: &mut Printer<'a>, part: Part<'a>) {
    let list = ObjectLit::of(part).props.parts();
    if list.is_empty() {
        return out.text("{}");
    }
    let has_comments = out.has_comments(list);
    out.open(has_comments);
    out.text("{");
    out.listed(list, " ", ",");
    out.text("}");
    out.close()
}

fn array<'a>(out: &mut Printer<'a>, part: Part<'a>) {
    let list = ArrayLit::of(part).elems.parts();
    let is_hole = |each: &Tree| each.read().is_absent();
    if !list.iter().any(is_hole) {
        out.open(false);
        out.text("[");
        out.listed(list, "", ",");
        out.text("]");
        return out.close();
    }
    out.text("[");
    for (place, each) in list.iter().enumerate() {
        out.text_if(place > 0, ", ");
        out.prefixed("", each.read());
    }
    let ends_empty = match list.last() {
        Some(last) => is_hole(last),
        None => false,
    };
    out.text_if(ends_empty, ",");
    out.text("]")
}

fn property_of<'a>(out: &mut Printer<'a>, part: Part<'a>) -> bool {
    match part.kind() {
        Kind::KeyValueProp => {
            let KeyValueProp { key, value } = KeyValueProp::of(part);
            out.node(key);
            out.prefixed(": ", value)
        }
        Kind::AssignProp => {
            let AssignProp { key, value, .. } = AssignProp::of(part);
            out.node(key);
            out.prefixed(" = ", value)
        }
        Kind::SpreadElement => out.prefixed("...", SpreadElement::of(part).expr),
        Kind::ExprOrSpread => {
            let ExprOrSpread { spread, expr } = ExprOrSpread::of(part);
            out.text_if(!spread.is_absent(), "...");
            out.node(expr)
        }
        _ => return false,
    }
    true
}

fn jsx<'a>(out: &mut Printer<'a>, part: Part<'a>) -> bool {
    match part.kind() {
        Kind::JSXMember => out.text(JSXMember::of(part).raw),
        Kind::JSXNamespacedName => out.text(JSXNamespacedName::of(part).raw),
        Kind::JSXEmpty => out.text(JSXEmpty::of(part).raw),
        Kind::JSXElement => out.text(JSXElement::of(part).raw),
        Kind::JSXFragment => out.text(JSXFragment::of(part).raw),
        _ => return false,
    }
    true
}

/// Prints an expression without operators. Answers false for other nodes.
pub(crate) fn value<'a>(out: &mut Printer<'a>, part: Part<'a>) -> bool {
    match part.kind() {
        Kind::ThisExpr => out.text("this"),
        Kind::ArrayLit => array(out, part),
        Kind::ObjectLit => object(out, part),
        Kind::Tpl => {
            let Tpl { exprs, quasis, .. } = Tpl::of(part);
            template(out, quasis, exprs)
        }
        Kind::TaggedTpl => {
            let TaggedTpl {
                tag,
                type_params,
                tpl,
                ..
            } = TaggedTpl::of(part);
            out.node(tag);
            out.prefixed("", type_params);
            out.node(tpl)
        }
        Kind::MetaPropExpr => out.text(MetaPropExpr::of(part).kind),
        Kind::ParenExpr => {
            out.text("(");
            out.node(ParenExpr::of(part).expr);
            out.text(")")
        }
        _ => return property_of(out, part) || jsx(out, part),
    }
    true
}
