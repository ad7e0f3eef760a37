//! Which name, key or literal a node is.
// Written by forms/write.py from forms/forms.txt.

ghost use Rattle.std.specs.Prelude.{◌≡◌};
ghost use Rattle.fast_check_tree_syntax.specs.Part.{seen};
ghost use Rattle.fast_check_tree_syntax.specs.Shape.{kind_of};
ghost use Rattle.fast_check_tree_forms.specs.NameChoices.{
  lit_of,
  prop_name_of,
  member_prop_of,
  key_of,
  module_export_name_of,
  ts_module_name_of,
  ts_enum_member_id_of,
};

use fast_check_tree_syntax::{Kind, Part};

/// A literal.
#[derive(Clone, Copy, Debug)]
pub enum Lit {
    Str,
    Bool,
    Null,
    Num,
    BigInt,
    Regex,
    JSXText,
    /// A node of none of these forms.
    Other,
}

impl Lit {
    /// Which of the forms a node has.
    pub fn of(node: Part) -> Self
        ensures { result ≡ lit_of (kind_of (seen node.entry)) }
    {
        match node.kind() {
            Kind::Str => Lit::Str,
            Kind::Bool => Lit::Bool,
            Kind::Null => Lit::Null,
            Kind::Number => Lit::Num,
            Kind::BigInt => Lit::BigInt,
            Kind::Regex => Lit::Regex,
            Kind::JSXText => Lit::JSXText,
            _ => Lit::Other,
        }
    }
}

/// The name of a property or method.
#[derive(Clone, Copy, Debug)]
pub enum PropName {
    Ident,
    Str,
    Num,
    Computed,
    BigInt,
    /// A node of none of these forms.
    Other,
}

impl PropName {
    /// Which of the forms a node has.
    pub fn of(node: Part) -> Self
        ensures { result ≡ prop_name_of (kind_of (seen node.entry)) }
    {
        match node.kind() {
            Kind::IdentName => PropName::Ident,
            Kind::Str => PropName::Str,
            Kind::Number => PropName::Num,
            Kind::ComputedPropName => PropName::Computed,
            Kind::BigInt => PropName::BigInt,
            _ => PropName::Other,
        }
    }
}

/// What stands behind the dot of a member, or in its brackets.
#[derive(Clone, Copy, Debug)]
pub enum MemberProp {
    Ident,
    PrivateName,
    Computed,
    /// A node of none of these forms.
    Other,
}

impl MemberProp {
    /// Which of the forms a node has.
    pub fn of(node: Part) -> Self
        ensures { result ≡ member_prop_of (kind_of (seen node.entry)) }
    {
        match node.kind() {
            Kind::IdentName => MemberProp::Ident,
            Kind::PrivateName => MemberProp::PrivateName,
            Kind::ComputedPropName => MemberProp::Computed,
            _ => MemberProp::Other,
        }
    }
}

/// The name of an accessor of a class.
#[derive(Clone, Copy, Debug)]
pub enum Key {
    Private,
    Public,
    /// A node of none of these forms.
    Other,
}

impl Key {
    /// Which of the forms a node has.
    pub fn of(node: Part) -> Self
        ensures { result ≡ key_of (kind_of (seen node.entry)) }
    {
        match node.kind() {
            Kind::PrivateName => Key::Private,
            _ => match PropName::of(node) {
                PropName::Other => Key::Other,
                _ => Key::Public,
            },
        }
    }
}

/// A name by which a module exports.
#[derive(Clone, Copy, Debug)]
pub enum ModuleExportName {
    Ident,
    Str,
    /// A node of none of these forms.
    Other,
}

impl ModuleExportName {
    /// Which of the forms a node has.
    pub fn of(node: Part) -> Self
        ensures { result ≡ module_export_name_of (kind_of (seen node.entry)) }
    {
        match node.kind() {
            Kind::Ident => ModuleExportName::Ident,
            Kind::Str => ModuleExportName::Str,
            _ => ModuleExportName::Other,
        }
    }
}

/// The name of a namespace, or the text of an ambient module.
#[derive(Clone, Copy, Debug)]
pub enum TsModuleName {
    Ident,
    Str,
    /// A node of none of these forms.
    Other,
}

impl TsModuleName {
    /// Which of the forms a node has.
    pub fn of(node: Part) -> Self
        ensures { result ≡ ts_module_name_of (kind_of (seen node.entry)) }
    {
        match node.kind() {
            Kind::Ident => TsModuleName::Ident,
            Kind::Str => TsModuleName::Str,
            _ => TsModuleName::Other,
        }
    }
}

/// The name of a member of an enum.
#[derive(Clone, Copy, Debug)]
pub enum TsEnumMemberId {
    Ident,
    Str,
    /// A node of none of these forms.
    Other,
}

impl TsEnumMemberId {
    /// Which of the forms a node has.
    pub fn of(node: Part) -> Self
        ensures { result ≡ ts_enum_member_id_of (kind_of (seen node.entry)) }
    {
        match node.kind() {
            Kind::Ident => TsEnumMemberId::Ident,
            Kind::Str => TsEnumMemberId::Str,
            _ => TsEnumMemberId::Other,
        }
    }
}
