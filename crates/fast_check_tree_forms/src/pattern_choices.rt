//! Which pattern or property a node is.
// Written by forms/write.py from forms/forms.txt.

ghost use Rattle.std.specs.Prelude.{◌≡◌};
ghost use Rattle.fast_check_tree_syntax.specs.Part.{seen};
ghost use Rattle.fast_check_tree_syntax.specs.Shape.{kind_of};
ghost use Rattle.fast_check_tree_forms.specs.PatternChoices.{
  pat_of,
  object_pat_prop_of,
  assign_target_of,
  prop_of,
  prop_or_spread_of,
};

use crate::expression_choices::Expr;
use fast_check_tree_syntax::{Kind, Part};

/// A pattern.
#[derive(Clone, Copy, Debug)]
pub enum Pat {
    Ident,
    Array,
    Rest,
    Object,
    Assign,
    Invalid,
    Expr,
    /// A node of none of these forms.
    Other,
}

impl Pat {
    /// Which of the forms a node has.
    pub fn of(node: Part) -> Self
        ensures { result ≡ pat_of (kind_of (seen node.entry)) }
    {
        match node.kind() {
            Kind::BindingIdent => Pat::Ident,
            Kind::ArrayPat => Pat::Array,
            Kind::RestPat => Pat::Rest,
            Kind::ObjectPat => Pat::Object,
            Kind::AssignPat => Pat::Assign,
            Kind::Invalid => Pat::Invalid,
            Kind::PatExpr => Pat::Expr,
            _ => Pat::Other,
        }
    }
}

/// What stands in the braces of an object pattern.
#[derive(Clone, Copy, Debug)]
pub enum ObjectPatProp {
    KeyValue,
    Assign,
    Rest,
    /// A node of none of these forms.
    Other,
}

impl ObjectPatProp {
    /// Which of the forms a node has.
    pub fn of(node: Part) -> Self
        ensures { result ≡ object_pat_prop_of (kind_of (seen node.entry)) }
    {
        match node.kind() {
            Kind::KeyValuePatProp => ObjectPatProp::KeyValue,
            Kind::AssignPatProp => ObjectPatProp::Assign,
            Kind::RestPat => ObjectPatProp::Rest,
            _ => ObjectPatProp::Other,
        }
    }
}

/// What is assigned to: an expression, or a pattern.
#[derive(Clone, Copy, Debug)]
pub enum AssignTarget {
    Simple,
    Pat,
    /// A node of none of these forms.
    Other,
}

impl AssignTarget {
    /// Which of the forms a node has.
    pub fn of(node: Part) -> Self
        ensures { result ≡ assign_target_of (kind_of (seen node.entry)) }
    {
        match node.kind() {
            Kind::TargetPat => AssignTarget::Pat,
            _ => match Expr::of(node) {
                Expr::Other => AssignTarget::Other,
                _ => AssignTarget::Simple,
            },
        }
    }
}

/// A property of an object.
#[derive(Clone, Copy, Debug)]
pub enum Prop {
    Shorthand,
    KeyValue,
    Assign,
    Getter,
    Setter,
    Method,
    /// A node of none of these forms.
    Other,
}

impl Prop {
    /// Which of the forms a node has.
    pub fn of(node: Part) -> Self
        ensures { result ≡ prop_of (kind_of (seen node.entry)) }
    {
        match node.kind() {
            Kind::Ident => Prop::Shorthand,
            Kind::KeyValueProp => Prop::KeyValue,
            Kind::AssignProp => Prop::Assign,
            Kind::GetterProp => Prop::Getter,
            Kind::SetterProp => Prop::Setter,
            Kind::MethodProp => Prop::Method,
            _ => Prop::Other,
        }
    }
}

/// What stands in the braces of an object.
#[derive(Clone, Copy, Debug)]
pub enum PropOrSpread {
    Spread,
    Prop,
    /// A node of none of these forms.
    Other,
}

impl PropOrSpread {
    /// Which of the forms a node has.
    pub fn of(node: Part) -> Self
        ensures { result ≡ prop_or_spread_of (kind_of (seen node.entry)) }
    {
        match node.kind() {
            Kind::SpreadElement => PropOrSpread::Spread,
            _ => match Prop::of(node) {
                Prop::Other => PropOrSpread::Other,
                _ => PropOrSpread::Prop,
            },
        }
    }
}
