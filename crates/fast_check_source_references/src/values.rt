//! What types refer to, and values of which no type is written, as far as a skeleton may keep them.
use crate::dependencies::{Dependencies, Space};
use crate::functions::type_of_pattern;
use crate::names::{UNRESOLVED, computed_of, value_chain};
use crate::returns::asserted_result;
use fast_check_source_walks::Waiting;
use fast_check_tree_forms_classes::{Function, Param, TsParamProp};
use fast_check_tree_forms_expressions::{
    ArrayLit, ArrowExpr, AssignPat, AssignProp, AwaitExpr, BinExpr, CallExpr, CondExpr,
    ExprOrSpread, FnExpr, KeyValueProp, MemberExpr, NewExpr, ObjectLit, ParenExpr, RestPat,
    SpreadElement, Tpl, TsAsExpr, TsConstAssertion, TsNonNullExpr, TsSatisfiesExpr,
    TsTypeAssertion, UnaryExpr, UpdateExpr,
};
use fast_check_tree_forms_programs::{Ident, IdentName};
use fast_check_tree_forms_types::{TsImportType, TsTypeQuery, TsTypeRef};
use fast_check_tree_syntax::{Kind, Part};
use std::alloc::Global;

fn is_global_object(part: Part<'_>) -> bool {
    if part.kind() != Kind::Ident {
        return false;
    }
    let Ident { sym, ctxt, .. } = Ident::of(part);
    sym == "Object" && ctxt == UNRESOLVED
}

// The argument of `Object.freeze(a)`.
fn frozen(call: Part<'_>) -> Option<Part<'_>> {
    let CallExpr { callee, args, .. } = CallExpr::of(call);
    if callee.kind() != Kind::MemberExpr || args.parts().len() != 1 {
        return None;
    }
    let MemberExpr { obj, prop, .. } = MemberExpr::of(callee);
    let ExprOrSpread { spread, expr } = ExprOrSpread::of(args.part(0));
    let is_freeze = prop.kind() == Kind::IdentName && IdentName::of(prop).sym == "freeze";
    if is_freeze && is_global_object(obj) && spread.is_absent() {
        Some(expr)
    } else {
        None
    }
}

// The part of a value that alone is looked at, if it is one part.
fn inner_of(value: Part<'_>) -> Option<Part<'_>> {
    match value.kind() {
        Kind::UnaryExpr => Some(UnaryExpr::of(value).arg),
        Kind::UpdateExpr => Some(UpdateExpr::of(value).arg),
        Kind::AwaitExpr => Some(AwaitExpr::of(value).arg),
        Kind::ParenExpr => Some(ParenExpr::of(value).expr),
        Kind::TsNonNullExpr => Some(TsNonNullExpr::of(value).expr),
        Kind::TsConstAssertion => Some(TsConstAssertion::of(value).expr),
        Kind::CallExpr => frozen(value),
        _ => None,
    }
}

/// What a part is looked at as.
#[derive(Clone, Copy, PartialEq, Eq)]
pub enum Way {
    /// As it is written: a type, or what stands in a skeleton as it is.
    Written,
    Value,
    /// A property of an object.
    Property,
    /// A parameter: its type, else the value that stands for it.
    Parameter,
}

#[derive(Clone, Copy)]
struct Task<'a> {
    part: Part<'a>,
    way: Way,
}

/// What is still to be looked at, the next part last.
#[derive(Drop)]
pub struct Walk<'a> {
    alloc: Global,
    waiting: Waiting<Task<'a>>,
}

impl<'a> Walk<'a> {
    pub fn new(alloc: Global) -> Walk<'a> {
        Walk {
            alloc,
            waiting: Waiting::new(alloc),
        }
    }

    /// Has a part looked at before all that waits so far.
    pub fn push(&mut self, way: Way, part: Part<'a>) {
        if part.kind() != Kind::Leaf {
            self.waiting.push(Task { part, way });
        }
    }

    // Has the parts of a part looked at, the first one first.
    fn push_each(&mut self, way: Way, part: Part<'a>) {
        for inner in part.parts().iter().rev() {
            self.push(way, inner.read());
        }
    }

    /// A type if it is written, else the value.
    pub fn push_type_or_value(&mut self, type_ann: Part<'a>, value: Part<'a>) {
        if type_ann.is_absent() {
            self.push(Way::Value, value)
        } else {
            self.push(Way::Written, type_ann)
        }
    }

    /// The parameters and the result of a function: the one that is written, or that which its body asserts.
    pub fn push_signature(
        &mut self,
        type_params: Part<'a>,
        params: Part<'a>,
        return_type: Part<'a>,
        body: Part<'a>,
        is_generator: bool,
    ) {
        if return_type.is_absent() {
            match asserted_result(self.alloc, body, is_generator) {
                Ok(Some(found)) => self.push(Way::Written, found),
                Ok(None) => {}
                Err(_) => self.waiting.lacks = true,
            }
        } else {
            self.push(Way::Written, return_type);
        }
        self.push_each(Way::Parameter, params);
        self.push(Way::Written, type_params)
    }

    /// The types of a function.
    pub fn push_function(&mut self, function: Part<'a>) {
        let Function {
            params,
            body,
            is_generator,
            type_params,
            return_type,
            ..
        } = Function::of(function);
        self.push_signature(type_params, params, return_type, body, is_generator)
    }

    fn push_arrow(&mut self, arrow: Part<'a>) {
        let ArrowExpr {
            params,
            body,
            is_generator,
            type_params,
            return_type,
            ..
        } = ArrowExpr::of(arrow);
        if return_type.is_absent() && body.kind() != Kind::BlockStmt {
            self.push(Way::Value, body);
        }
        self.push_signature(type_params, params, return_type, body, is_generator)
    }

    /// Looks at all that waits.
    pub fn run(&mut self, out: &mut Dependencies) {
        for _turn in 0..u64::MAX {
            let Some(task) = self.waiting.pop() else {
                break;
            };
            match task.way {
                Way::Written => self.written(task.part, out),
                Way::Value => self.value(task.part, out),
                Way::Property => self.property(task.part, out),
                Way::Parameter => self.parameter(task.part),
            }
        }
        out.lacks |= self.waiting.lacks;
    }

    // All that a part of a tree refers to which stands as it is written.
    fn written(&mut self, part: Part<'a>, out: &mut Dependencies) {
        match part.kind() {
            Kind::TsTypeRef => {
                let TsTypeRef {
                    type_name,
                    type_params,
                    ..
                } = TsTypeRef::of(part);
                out.entity(type_name, Space::Type);
                self.push(Way::Written, type_params)
            }
            Kind::TsTypeQuery => {
                let TsTypeQuery {
                    expr_name,
                    type_args,
                    ..
                } = TsTypeQuery::of(part);
                self.push(Way::Written, type_args);
                if expr_name.kind() == Kind::TsImportType {
                    self.push(Way::Written, expr_name)
                } else {
                    out.entity(expr_name, Space::Value)
                }
            }
            Kind::TsImportType => {
                let TsImportType {
                    arg,
                    qualifier,
                    type_args,
                    ..
                } = TsImportType::of(part);
                out.import(arg, qualifier);
                self.push(Way::Written, type_args)
            }
            Kind::MemberExpr => self.member(part, out),
            Kind::Ident => out.name(part, Space::Value),
            _ => self.push_each(Way::Written, part),
        }
    }

    // A member, whole where it is names alone.
    fn member(&mut self, member: Part<'a>, out: &mut Dependencies) {
        match value_chain(self.alloc, member) {
            Ok(Some(chain)) => out.chain(chain, Space::Value),
            Ok(None) => {
                let MemberExpr { obj, prop, .. } = MemberExpr::of(member);
                if let Some(expr) = computed_of(prop) {
                    self.push(Way::Value, expr);
                }
                self.push(Way::Value, obj);
            }
            Err(_) => self.waiting.lacks = true,
        }
    }

    fn value(&mut self, value: Part<'a>, out: &mut Dependencies) {
        if let Some(inner) = inner_of(value) {
            return self.push(Way::Value, inner);
        }
        match value.kind() {
            Kind::Ident => out.name(value, Space::Value),
            Kind::MemberExpr => self.member(value, out),
            Kind::TsAsExpr => self.push(Way::Written, TsAsExpr::of(value).type_ann),
            Kind::TsTypeAssertion => self.push(Way::Written, TsTypeAssertion::of(value).type_ann),
            Kind::TsSatisfiesExpr => {
                let TsSatisfiesExpr { expr, type_ann, .. } = TsSatisfiesExpr::of(value);
                self.push(Way::Written, type_ann);
                self.push(Way::Value, expr)
            }
            Kind::FnExpr => self.push_function(FnExpr::of(value).function),
            Kind::ArrowExpr => self.push_arrow(value),
            Kind::ExprOrSpread => self.push(Way::Value, ExprOrSpread::of(value).expr),
            _ => self.composed(value),
        }
    }

    // A value of several values.
    fn composed(&mut self, value: Part<'a>) {
        match value.kind() {
            Kind::ArrayLit => self.push_each(Way::Value, ArrayLit::of(value).elems),
            Kind::ObjectLit => self.push_each(Way::Property, ObjectLit::of(value).props),
            Kind::BinExpr => {
                let BinExpr { left, right, .. } = BinExpr::of(value);
                self.push(Way::Value, right);
                self.push(Way::Value, left)
            }
            Kind::CondExpr => {
                let CondExpr {
                    test,
                    cons,
                    alt,
                    ..
                } = CondExpr::of(value);
                self.push(Way::Value, alt);
                self.push(Way::Value, cons);
                self.push(Way::Value, test)
            }
            Kind::NewExpr => {
                let NewExpr { callee, args, .. } = NewExpr::of(value);
                self.push_each(Way::Value, args);
                self.push(Way::Value, callee)
            }
            Kind::Tpl => self.push_each(Way::Value, Tpl::of(value).exprs),
            _ => {}
        }
    }

    fn property(&mut self, property: Part<'a>, out: &mut Dependencies) {
        match property.kind() {
            Kind::SpreadElement => self.push(Way::Value, SpreadElement::of(property).expr),
            Kind::Ident => out.name(property, Space::Value),
            Kind::AssignProp => self.push(Way::Value, AssignProp::of(property).value),
            Kind::KeyValueProp => {
                let KeyValueProp { key, value } = KeyValueProp::of(property);
                self.push(Way::Value, value);
                match computed_of(key) {
                    Some(expr) => self.push(Way::Value, expr),
                    None => {}
                }
            }
            _ => {}
        }
    }

    fn parameter(&mut self, param: Part<'a>) {
        match param.kind() {
            Kind::Param => self.push(Way::Parameter, Param::of(param).pat),
            Kind::TsParamProp => self.push(Way::Parameter, TsParamProp::of(param).param),
            Kind::AssignPat => {
                let AssignPat { left, right, .. } = AssignPat::of(param);
                self.push_type_or_value(type_of_pattern(left), right)
            }
            Kind::RestPat => {
                let RestPat { arg, type_ann, .. } = RestPat::of(param);
                self.push(Way::Parameter, arg);
                self.push(Way::Written, type_ann)
            }
            _ => self.push(Way::Written, type_of_pattern(param)),
        }
    }
}
