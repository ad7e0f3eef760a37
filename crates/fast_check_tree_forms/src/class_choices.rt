//! Which member of a class a node is, and which parameter of a constructor.
// Written by forms/write.py from forms/forms.txt.

ghost use Rattle.std.specs.Prelude.{◌≡◌};
ghost use Rattle.fast_check_tree_syntax.specs.Part.{seen};
ghost use Rattle.fast_check_tree_syntax.specs.Shape.{kind_of};
ghost use Rattle.fast_check_tree_forms.specs.ClassChoices.{
  class_member_of,
  param_or_ts_param_prop_of,
  ts_param_prop_param_of,
};

use fast_check_tree_syntax::{Kind, Part};

/// A member of a class.
#[derive(Clone, Copy, Debug)]
pub enum ClassMember {
    Constructor,
    Method,
    PrivateMethod,
    ClassProp,
    PrivateProp,
    TsIndexSignature,
    Empty,
    StaticBlock,
    AutoAccessor,
    /// A node of none of these forms.
    Other,
}

impl ClassMember {
    /// Which of the forms a node has.
    pub fn of(node: Part) -> Self
        ensures { result ≡ class_member_of (kind_of (seen node.entry)) }
    {
        match node.kind() {
            Kind::Constructor => ClassMember::Constructor,
            Kind::ClassMethod => ClassMember::Method,
            Kind::PrivateMethod => ClassMember::PrivateMethod,
            Kind::ClassProp => ClassMember::ClassProp,
            Kind::PrivateProp => ClassMember::PrivateProp,
            Kind::TsIndexSignature => ClassMember::TsIndexSignature,
            Kind::EmptyStmt => ClassMember::Empty,
            Kind::StaticBlock => ClassMember::StaticBlock,
            Kind::AutoAccessor => ClassMember::AutoAccessor,
            _ => ClassMember::Other,
        }
    }
}

/// A parameter of a constructor.
#[derive(Clone, Copy, Debug)]
pub enum ParamOrTsParamProp {
    Param,
    TsParamProp,
    /// A node of none of these forms.
    Other,
}

impl ParamOrTsParamProp {
    /// Which of the forms a node has.
    pub fn of(node: Part) -> Self
        ensures { result ≡ param_or_ts_param_prop_of (kind_of (seen node.entry)) }
    {
        match node.kind() {
            Kind::Param => ParamOrTsParamProp::Param,
            Kind::TsParamProp => ParamOrTsParamProp::TsParamProp,
            _ => ParamOrTsParamProp::Other,
        }
    }
}

/// The parameter that is a property too.
#[derive(Clone, Copy, Debug)]
pub enum TsParamPropParam {
    Ident,
    Assign,
    /// A node of none of these forms.
    Other,
}

impl TsParamPropParam {
    /// Which of the forms a node has.
    pub fn of(node: Part) -> Self
        ensures { result ≡ ts_param_prop_param_of (kind_of (seen node.entry)) }
    {
        match node.kind() {
            Kind::BindingIdent => TsParamPropParam::Ident,
            Kind::AssignPat => TsParamPropParam::Assign,
            _ => TsParamPropParam::Other,
        }
    }
}
