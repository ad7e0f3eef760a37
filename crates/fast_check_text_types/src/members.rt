//! Members of interfaces and of object types.
use fast_check_text_writer::{Printer, after_start, before_end, range_of};
use fast_check_tree_forms_classes::TsIndexSignature;
use fast_check_tree_forms_types::{
    TsCallSignatureDecl, TsConstructSignatureDecl, TsGetterSignature, TsMethodSignature,
    TsPropertySignature, TsSetterSignature,
};
use fast_check_tree_syntax::{Kind, Part};

fn member_key<'a>(out: &mut Printer<'a>, key: Part<'a>, is_computed: bool) {
    out.text_if(is_computed, "[");
    out.node(key);
    out.text_if(is_computed, "]")
}

fn signature<'a>(
    out: &mut Printer<'a>,
    type_params: Part<'a>,
    params: Part<'a>,
    type_ann: Part<'a>,
) {
    out.prefixed("", type_params);
    out.parameters(params, true);
    out.prefixed(": ", type_ann)
}

fn index<'a>(out: &mut Printer<'a>, part: Part<'a>) {
    let TsIndexSignature {
        params,
        type_ann,
        readonly,
        is_static,
        ..
    } = TsIndexSignature::of(part);
    out.text_if(is_static, "static ");
    out.text_if(readonly, "readonly ");
    out.text("[");
    out.separated(params.parts(), ", ");
    out.text("]");
    out.prefixed(": ", type_ann)
}

fn property_signature<'a>(out: &mut Printer<'a>, part: Part<'a>) {
    let TsPropertySignature {
        key,
        computed,
        readonly,
        optional,
        type_ann,
        ..
    } = TsPropertySignature::of(part);
    out.text_if(readonly, "readonly ");
    member_key(out, key, computed);
    out.text_if(optional, "?");
    out.prefixed(": ", type_ann)
}

fn method_signature<'a>(out: &mut Printer<'a>, part: Part<'a>) {
    let TsMethodSignature {
        key,
        computed,
        optional,
        params,
        type_ann,
        type_params,
        ..
    } = TsMethodSignature::of(part);
    member_key(out, key, computed);
    out.text_if(optional, "?");
    signature(out, type_params, params, type_ann)
}

fn accessor_signature<'a>(out: &mut Printer<'a>, part: Part<'a>) {
    if part.kind() == Kind::TsGetterSignature {
        let TsGetterSignature {
            key,
            computed,
            type_ann,
            ..
        } = TsGetterSignature::of(part);
        out.text("get ");
        member_key(out, key, computed);
        out.text("()");
        out.prefixed(": ", type_ann)
    } else {
        let TsSetterSignature {
            key,
            computed,
            params,
            ..
        } = TsSetterSignature::of(part);
        out.text("set ");
        member_key(out, key, computed);
        out.parameters(params, true)
    }
}

/// Prints a member of an interface or an object type, without the sign after it. Answers false for other nodes.
pub(crate) fn member<'a>(out: &mut Printer<'a>, part: Part<'a>) -> bool {
    match part.kind() {
        Kind::TsCallSignatureDecl => {
            let TsCallSignatureDecl {
                params,
                type_ann,
                type_params,
                ..
            } = TsCallSignatureDecl::of(part);
            signature(out, type_params, params, type_ann)
        }
        Kind::TsConstructSignatureDecl => {
            let TsConstructSignatureDecl {
                params,
                type_ann,
                type_params,
                ..
            } = TsConstructSignatureDecl::of(part);
            out.text("new ");
            signature(out, type_params, params, type_ann)
        }
        Kind::TsPropertySignature => property_signature(out, part),
        Kind::TsGetterSignature | Kind::TsSetterSignature => accessor_signature(out, part),
        Kind::TsMethodSignature => method_signature(out, part),
        Kind::TsIndexSignature => index(out, part),
        _ => return false,
    }
    true
}

/// Prints the members of an object type in braces, on one line where they are short and have no comments.
pub(crate) fn members<'a>(out: &mut Printer<'a>, around: Part<'a>, members: Part<'a>) {
    let list = members.parts();
    if list.is_empty() || out.has_comments(list) || out.has_comments_in_ends(range_of(around)) {
        return member_lines(out, around, members);
    }
    out.open(false);
    out.text("{");
    out.indent();
    for (place, each) in list.iter().enumerate() {
        let is_last = place.saturating_add(1) == list.len();
        out.soft_line(" ");
        if is_last {
            out.node_if_broken(each.read(), ";")
        } else {
            out.node_then(each.read(), ";")
        }
    }
    out.outdent();
    out.soft_line(" ");
    out.text("}");
    out.close()
}

/// Prints the members of an interface or an object type in braces, each on a line of its own.
pub fn member_lines<'a>(out: &mut Printer<'a>, around: Part<'a>, members: Part<'a>) {
    let range = range_of(around);
    if members.parts().is_empty() && !out.has_leading(before_end(range)) {
        out.text("{");
        out.trailing(after_start(range));
        out.text("}");
        return;
    }
    out.in_braces(members.parts(), range, ";")
}
