//! The forms of expressions, properties and patterns.
//!
//! A form reads a node where its `N` is a `Part` and its `T` a `&str`, and makes one where they are a `Tree` and an `Atom`.
//!
//! `of` reads a node by the places of its fields, whatever its kind is. A field that is not there is absent, false, empty or
//! `DUMMY_SP`. `into_tree` fails only if memory runs out.
// Written by forms/write.py from forms/forms.txt.
#![tactic(auto)]

mod assertions;
mod calls;
mod expressions;
mod jsx;
mod operators;
mod patterns;
mod properties;
mod templates;

pub use assertions::{
    TsAsExpr, TsConstAssertion, TsInstantiation, TsNonNullExpr, TsSatisfiesExpr, TsTypeAssertion,
};
pub use calls::{
    CallExpr, Import, MemberExpr, NewExpr, OptCall, OptChainExpr, Super, SuperPropExpr,
};
pub use expressions::{
    ArrayLit, ArrowExpr, AwaitExpr, ClassExpr, ExprOrSpread, FnExpr, Invalid, MetaPropExpr,
    ObjectLit, ParenExpr, SeqExpr, ThisExpr, YieldExpr,
};
pub use jsx::{JSXElement, JSXEmpty, JSXFragment, JSXMember, JSXNamespacedName};
pub use operators::{AssignExpr, BinExpr, CondExpr, UnaryExpr, UpdateExpr};
pub use patterns::{
    ArrayPat, AssignPat, AssignPatProp, KeyValuePatProp, ObjectPat, PatExpr, RestPat, TargetPat,
};
pub use properties::{
    AssignProp, ComputedPropName, GetterProp, KeyValueProp, MethodProp, SetterProp, SpreadElement,
};
pub use templates::{TaggedTpl, Tpl, TplElement};
