//! Expressions with operators, members and calls.
use fast_check_text_writer::{Printer, range_of};
use fast_check_tree_forms_expressions::{
    AssignExpr, AwaitExpr, BinExpr, CallExpr, CondExpr, Import, MemberExpr, NewExpr, OptCall,
    OptChainExpr, SeqExpr, SuperPropExpr, TsAsExpr, TsConstAssertion, TsInstantiation,
    TsNonNullExpr, TsSatisfiesExpr, TsTypeAssertion, UnaryExpr, UpdateExpr, YieldExpr,
};
use fast_check_tree_forms_programs::Number;
use fast_check_tree_forms_types::TsFnType;
use fast_check_tree_syntax::{Kind, Part, SourceRange};

// Whether a value is a whole number, which takes a dot behind it for its own.
fn is_whole_number(part: Part<'_>) -> bool {
    part.kind() == Kind::Number
        && Number::of(part)
            .raw
            .bytes()
            .all(|each| each == b'_' || each.is_ascii_digit())
}

fn is_signed(op: &str) -> bool {
    op.starts_with("+") || op.starts_with("-")
}

// Whether a sign stands first in a value.
fn begins_signed(part: Part<'_>) -> bool {
    match part.kind() {
        Kind::UnaryExpr => is_signed(UnaryExpr::of(part).op),
        Kind::UpdateExpr => UpdateExpr::of(part).prefix,
        _ => false,
    }
}

fn is_word(op: &str) -> bool {
    op.bytes()
        .next()
        .is_some_and(|each| each.is_ascii_lowercase())
}

// Whether the `<` of an assertion stands first in a value.
fn begins_with_angle(part: Part<'_>) -> bool {
    let mut at = part;
    for _turn in 0..u64::MAX {
        if at.kind() != Kind::BinExpr {
            break;
        }
        at = BinExpr::of(at).left;
    }
    at.kind() == Kind::TsTypeAssertion
}

fn infix<'a>(out: &mut Printer<'a>, left: Part<'a>, op: &'a str, right: Part<'a>) {
    out.node(left);
    out.text(" ");
    out.text(op);
    out.text_if(op != "<<" || !begins_with_angle(right), " ");
    out.node(right)
}

// Prints arguments. Several have lines of their own where the call, which is the group, is broken into lines.
fn arguments<'a>(out: &mut Printer<'a>, args: Part<'a>) {
    let list = args.parts();
    out.text("(");
    if list.len() > 1 {
        out.listed(list, "", ",");
    } else {
        out.separated(list, ", ");
    }
    out.text(")")
}

// Prints what stands after the object of a member.
fn member_prop<'a>(out: &mut Printer<'a>, prop: Part<'a>, optional: &'a str) {
    let is_computed = prop.kind() == Kind::ComputedPropName;
    out.text(optional);
    out.text_if(optional.is_empty() && !is_computed, ".");
    out.node(prop)
}

fn member_of<'a>(out: &mut Printer<'a>, part: Part<'a>, optional: &'a str) {
    let MemberExpr { obj, prop, .. } = MemberExpr::of(part);
    out.node(obj);
    out.text_if(optional.is_empty() && is_whole_number(obj), " ");
    member_prop(out, prop, optional)
}

fn chain<'a>(out: &mut Printer<'a>, part: Part<'a>) {
    let OptChainExpr { optional, base, .. } = OptChainExpr::of(part);
    let mark = if optional { "?." } else { "" };
    let SourceRange { start, end } = range_of(base);
    out.leading(start);
    if base.kind() == Kind::MemberExpr {
        member_of(out, base, mark);
    } else {
        let OptCall {
            callee,
            args,
            type_args,
            ..
        } = OptCall::of(base);
        out.open(false);
        out.node(callee);
        out.text(mark);
        out.prefixed("", type_args);
        arguments(out, args);
        out.close();
    }
    out.trailing(end)
}

fn call<'a>(out: &mut Printer<'a>, part: Part<'a>) {
    let CallExpr {
        callee,
        args,
        type_args,
        ..
    } = CallExpr::of(part);
    out.open(false);
    out.node(callee);
    out.prefixed("", type_args);
    arguments(out, args);
    out.close()
}

fn new_of<'a>(out: &mut Printer<'a>, part: Part<'a>) {
    let NewExpr {
        callee,
        args,
        type_args,
        ..
    } = NewExpr::of(part);
    out.open(false);
    out.prefixed("new ", callee);
    out.prefixed("", type_args);
    if !args.is_absent() {
        arguments(out, args);
    }
    out.close()
}

fn unary<'a>(out: &mut Printer<'a>, part: Part<'a>) {
    let UnaryExpr { op, arg, .. } = UnaryExpr::of(part);
    out.text(op);
    out.text_if(is_word(op) || (is_signed(op) && begins_signed(arg)), " ");
    out.node(arg)
}

fn assertion<'a>(out: &mut Printer<'a>, part: Part<'a>) {
    let TsTypeAssertion { expr, type_ann, .. } = TsTypeAssertion::of(part);
    let has_angle = type_ann.kind() == Kind::TsFnType
        && !TsFnType::of(type_ann).type_params.is_absent();
    out.text(if has_angle { "< " } else { "<" });
    out.node(type_ann);
    out.prefixed(">", expr)
}

// Prints an expression with a type beside it.
fn asserted<'a>(out: &mut Printer<'a>, part: Part<'a>) -> bool {
    match part.kind() {
        Kind::TsAsExpr => {
            let TsAsExpr { expr, type_ann, .. } = TsAsExpr::of(part);
            out.node(expr);
            out.prefixed(" as ", type_ann)
        }
        Kind::TsSatisfiesExpr => {
            let TsSatisfiesExpr { expr, type_ann, .. } = TsSatisfiesExpr::of(part);
            out.node(expr);
            out.prefixed(" satisfies ", type_ann)
        }
        Kind::TsConstAssertion => {
            out.node(TsConstAssertion::of(part).expr);
            out.text(" as const")
        }
        Kind::TsNonNullExpr => {
            out.node(TsNonNullExpr::of(part).expr);
            out.text("!")
        }
        Kind::TsInstantiation => {
            let TsInstantiation {
                expr,
                type_args,
                ..
            } = TsInstantiation::of(part);
            out.node(expr);
            out.node(type_args)
        }
        Kind::TsTypeAssertion => assertion(out, part),
        _ => return false,
    }
    true
}

// Prints a member or a call.
fn access<'a>(out: &mut Printer<'a>, part: Part<'a>) -> bool {
    match part.kind() {
        Kind::MemberExpr => member_of(out, part, ""),
        Kind::SuperPropExpr => {
            out.text("super");
            member_prop(out, SuperPropExpr::of(part).prop, "")
        }
        Kind::CallExpr => call(out, part),
        Kind::NewExpr => new_of(out, part),
        Kind::OptChainExpr => chain(out, part),
        Kind::Super => out.text("super"),
        Kind::Import => {
            out.text("import");
            out.text_if(Import::of(part).phase == "defer", ".defer")
        }
        _ => return false,
    }
    true
}

/// Prints an expression with an operator, a member or a call. Answers false for other nodes.
pub(crate) fn operation<'a>(out: &mut Printer<'a>, part: Part<'a>) -> bool {
    match part.kind() {
        Kind::UnaryExpr => unary(out, part),
        Kind::UpdateExpr => {
            let UpdateExpr {
                op,
                prefix,
                arg,
                ..
            } = UpdateExpr::of(part);
            out.text_if(prefix, op);
            out.node(arg);
            out.text_if(!prefix, op)
        }
        Kind::BinExpr => {
            let BinExpr {
                op,
                left,
                right,
                ..
            } = BinExpr::of(part);
            infix(out, left, op, right)
        }
        Kind::AssignExpr => {
            let AssignExpr {
                op,
                left,
                right,
                ..
            } = AssignExpr::of(part);
            infix(out, left, op, right)
        }
        Kind::CondExpr => {
            let CondExpr {
                test,
                cons,
                alt,
                ..
            } = CondExpr::of(part);
            out.node(test);
            out.prefixed(" ? ", cons);
            out.prefixed(" : ", alt)
        }
        Kind::SeqExpr => out.separated(SeqExpr::of(part).exprs.parts(), ", "),
        Kind::AwaitExpr => out.prefixed("await ", AwaitExpr::of(part).arg),
        Kind::YieldExpr => {
            let YieldExpr { arg, delegate, .. } = YieldExpr::of(part);
            out.text(if delegate { "yield*" } else { "yield" });
            out.prefixed(" ", arg)
        }
        _ => return access(out, part) || asserted(out, part),
    }
    true
}
