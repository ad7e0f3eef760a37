//! Members of classes and objects that others of them bear on: getters beside their setters, and private static members beside others of their names.
use crate::edits::{Edits, range_of};
use crate::returns::naming;
use crate::statements::name_tree;
use fast_check_source_references::functions::type_of_pattern;
use fast_check_source_references::keys::STATIC;
use fast_check_source_references::returns::asserted;
use fast_check_tree_forms_classes::{
    AutoAccessor, ClassMethod, ClassProp, Constructor, Function, Param, TsParamProp,
};
use fast_check_tree_forms_expressions::{AssignPat, GetterProp, SetterProp};
use fast_check_tree_forms_programs::{BindingIdent, Ident, IdentName};
use fast_check_tree_forms_types::{TsKeywordType, TsTypeAnn};
use fast_check_tree_syntax::{Kind, Part, Tree, Word};
use std::alloc::{AllocError, Global};
use std::collections::BTreeSet;

/// The written text of a node.
fn written<'a>(text: &'a str, part: Part<'_>) -> &'a str {
    let range = range_of(part);
    let start = (range.start.0 as usize).saturating_sub(1);
    let end = (range.end.0 as usize).saturating_sub(1);
    match text.get(start..end) {
        Some(found) => found,
        None => "",
    }
}

// An accessor: its key, and whether it is static.
#[derive(Clone, Copy)]
struct Accessor<'a> {
    key: Part<'a>,
    is_static: bool,
    // The body of a getter, or the parameter of a setter.
    inner: Part<'a>,
}

fn getter_of(member: Part<'_>) -> Option<Accessor<'_>> {
    match member.kind() {
        Kind::ClassMethod => {
            let ClassMethod {
                key,
                function,
                kind,
                is_static,
                ..
            } = ClassMethod::of(member);
            let inner = Function::of(function).body;
            if kind.has_word(Word::Getter) {
                Some(Accessor {
                    key,
                    is_static,
                    inner,
                })
            } else {
                None
            }
        }
        Kind::GetterProp => {
            let GetterProp { key, body, .. } = GetterProp::of(member);
            Some(Accessor {
                key,
                is_static: false,
                inner: body,
            })
        }
        _ => None,
    }
}

fn setter_of(member: Part<'_>) -> Option<Accessor<'_>> {
    match member.kind() {
        Kind::ClassMethod => {
            let ClassMethod {
                key,
                function,
                kind,
                is_static,
                ..
            } = ClassMethod::of(member);
            if !kind.has_word(Word::Setter) {
                return None;
            }
            let param = Function::of(function).params.parts().first()?;
            Some(Accessor {
                key,
                is_static,
                inner: Param::of(param.read()).pat,
            })
        }
        Kind::SetterProp => {
            let SetterProp { key, param, .. } = SetterProp::of(member);
            Some(Accessor {
                key,
                is_static: false,
                inner: param,
            })
        }
        _ => None,
    }
}

// The type that is written at the parameter of the setter of a getter.
fn type_of_setter<'a>(text: &str, getter: Accessor<'_>, members: Part<'a>) -> Option<Part<'a>> {
    for member in members.parts() {
        if let Some(setter) = setter_of(member.read())
            && setter.is_static == getter.is_static
            && written(text, setter.key) == written(text, getter.key)
        {
            let mut pattern = setter.inner;
            if pattern.kind() == Kind::AssignPat {
                pattern = AssignPat::of(pattern).left;
            }
            let annotation = type_of_pattern(pattern);
            return if annotation.kind() == Kind::TsTypeAnn {
                Some(TsTypeAnn::of(annotation).type_ann)
            } else {
                None
            };
        }
    }
    None
}

// Whether a type is the word for the type of a literal.
fn is_word_of(type_ann: Part<'_>, value: Part<'_>) -> bool {
    let word = match value.kind() {
        Kind::Str | Kind::Tpl => Word::TsStringKeyword,
        Kind::Number => Word::TsNumberKeyword,
        Kind::BigInt => Word::TsBigIntKeyword,
        Kind::Bool => Word::TsBooleanKeyword,
        _ => return false,
    };
    type_ann.kind() == Kind::TsKeywordType && TsKeywordType::of(type_ann).kind.has_word(word)
}

// Whether a getter has the type of its setter, and another one than the value says by which it names a type.
fn is_of_setter(
    alloc: Global,
    text: &str,
    getter: Accessor<'_>,
    members: Part<'_>,
) -> Result<bool, AllocError> {
    if getter.inner.kind() != Kind::BlockStmt {
        return Ok(false);
    }
    let Some(value) = naming(alloc, getter.inner)? else {
        return Ok(false);
    };
    let Some(type_ann) = type_of_setter(text, getter, members) else {
        return Ok(false);
    };
    Ok(match asserted(value) {
        Some(named) => written(text, named) != written(text, type_ann),
        None => !is_word_of(type_ann, value),
    })
}

/// The places of the bodies of those getters that have the type of their setter, and another one than the value says by which they name a type.
pub fn put_accessors(
    alloc: Global,
    text: &str,
    members: Part<'_>,
    out: &mut BTreeSet<u32>,
) -> Result<(), AllocError> {
    for member in members.parts() {
        if let Some(getter) = getter_of(member.read())
            && is_of_setter(alloc, text, getter, members)?
        {
            let _ = out.insert(range_of(getter.inner).start.0)?;
        }
    }
    Ok(())
}

// The name of a private member, and whether it is static.
fn private_name(member: Part<'_>) -> Option<(Part<'_>, bool)> {
    let (key, is_static, accessibility) = match member.kind() {
        Kind::ClassMethod => {
            let ClassMethod {
                key,
                is_static,
                accessibility,
                ..
            } = ClassMethod::of(member);
            (key, is_static, accessibility)
        }
        Kind::ClassProp => {
            let ClassProp {
                key,
                is_static,
                accessibility,
                ..
            } = ClassProp::of(member);
            (key, is_static, accessibility)
        }
        Kind::AutoAccessor => {
            let AutoAccessor {
                key,
                is_static,
                accessibility,
                ..
            } = AutoAccessor::of(member);
            (key, is_static, accessibility)
        }
        _ => return None,
    };
    if key.kind() == Kind::IdentName && accessibility.has_word(Word::Private) {
        Some((key, is_static))
    } else {
        None
    }
}

// The name of a parameter that is a private property too.
fn property_name(param: Part<'_>) -> Option<&str> {
    if param.kind() != Kind::TsParamProp {
        return None;
    }
    let TsParamProp {
        accessibility,
        param,
        ..
    } = TsParamProp::of(param);
    let name = if param.kind() == Kind::AssignPat {
        AssignPat::of(param).left
    } else {
        param
    };
    if name.kind() == Kind::BindingIdent && accessibility.has_word(Word::Private) {
        Some(Ident::of(BindingIdent::of(name).id).sym)
    } else {
        None
    }
}

// Pushes the names of the private members that a member of a class declares, if it is not static.
fn push_others<'a>(member: Part<'a>, out: &mut BTreeSet<&'a str>) -> Result<(), AllocError> {
    if member.kind() == Kind::Constructor {
        for param in Constructor::of(member).params.parts() {
            if let Some(name) = property_name(param.read()) {
                let _ = out.insert(name)?;
            }
        }
    } else if let Some((key, is_static)) = private_name(member)
        && !is_static
    {
        let _ = out.insert(IdentName::of(key).sym)?;
    }
    Ok(())
}

// The names of the private members of a class that are not static.
fn other_names<'a>(alloc: Global, members: Part<'a>) -> Result<BTreeSet<&'a str>, AllocError> {
    let mut names = BTreeSet::new(alloc);
    for member in members.parts() {
        push_others(member.read(), &mut names)?;
    }
    Ok(names)
}

// A name behind which the word stands.
fn marked(alloc: Global, key: Part<'_>) -> Result<Tree, AllocError> {
    let IdentName { span, sym } = IdentName::of(key);
    let mut name = String::from_str(alloc, sym)?;
    name.push_str(STATIC)?;
    name_tree(alloc, span, name.as_str())
}

/// Has a word stand behind the names of private static members of a class beside other private ones of their names.
pub fn put_static_names(edits: &mut Edits, members: Part<'_>) {
    match other_names(edits.alloc, members) {
        Ok(others) => for member in members.parts() {
            if let Some((key, is_static)) = private_name(member.read())
                && is_static
                && others.contains(&IdentName::of(key).sym)
            {
                edits.put(key, marked(edits.alloc, key));
            }
        },
        Err(_) => edits.lacks = true,
    }
}
