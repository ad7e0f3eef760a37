//! Which type a node is, and which form stands in a part of one.
// Written by forms/write.py from forms/forms.txt.

ghost use Rattle.std.specs.Prelude.{◌≡◌};
ghost use Rattle.fast_check_tree_syntax.specs.Part.{seen};
ghost use Rattle.fast_check_tree_syntax.specs.Shape.{kind_of};
ghost use Rattle.fast_check_tree_forms.specs.TypeChoices.{
  ts_fn_or_constructor_type_of,
  ts_union_or_intersection_type_of,
  ts_type_of,
  ts_entity_name_of,
  ts_type_query_expr_of,
  ts_lit_of,
  ts_this_type_or_ident_of,
  ts_type_element_of,
};

use fast_check_tree_syntax::{Kind, Part};

/// A type of functions or constructors.
#[derive(Clone, Copy, Debug)]
pub enum TsFnOrConstructorType {
    TsFnType,
    TsConstructorType,
    /// A node of none of these forms.
    Other,
}

impl TsFnOrConstructorType {
    /// Which of the forms a node has.
    pub fn of(node: Part) -> Self
        ensures { result ≡ ts_fn_or_constructor_type_of (kind_of (seen node.entry)) }
    {
        match node.kind() {
            Kind::TsFnType => TsFnOrConstructorType::TsFnType,
            Kind::TsConstructorType => TsFnOrConstructorType::TsConstructorType,
            _ => TsFnOrConstructorType::Other,
        }
    }
}

/// A union or an intersection.
#[derive(Clone, Copy, Debug)]
pub enum TsUnionOrIntersectionType {
    TsUnionType,
    TsIntersectionType,
    /// A node of none of these forms.
    Other,
}

impl TsUnionOrIntersectionType {
    /// Which of the forms a node has.
    pub fn of(node: Part) -> Self
        ensures { result ≡ ts_union_or_intersection_type_of (kind_of (seen node.entry)) }
    {
        match node.kind() {
            Kind::TsUnionType => TsUnionOrIntersectionType::TsUnionType,
            Kind::TsIntersectionType => TsUnionOrIntersectionType::TsIntersectionType,
            _ => TsUnionOrIntersectionType::Other,
        }
    }
}

/// A type.
#[derive(Clone, Copy, Debug)]
pub enum TsType {
    TsKeywordType,
    TsThisType,
    TsFnOrConstructorType,
    TsTypeRef,
    TsTypeQuery,
    TsTypeLit,
    TsArrayType,
    TsTupleType,
    TsOptionalType,
    TsRestType,
    TsUnionOrIntersectionType,
    TsConditionalType,
    TsInferType,
    TsParenthesizedType,
    TsTypeOperator,
    TsIndexedAccessType,
    TsMappedType,
    TsLitType,
    TsTypePredicate,
    TsImportType,
    /// A node of none of these forms.
    Other,
}

impl TsType {
    /// Which of the forms a node has.
    pub fn of(node: Part) -> Self
        ensures { result ≡ ts_type_of (kind_of (seen node.entry)) }
    {
        match node.kind() {
            Kind::TsKeywordType => TsType::TsKeywordType,
            Kind::TsThisType => TsType::TsThisType,
            Kind::TsTypeRef => TsType::TsTypeRef,
            Kind::TsTypeQuery => TsType::TsTypeQuery,
            Kind::TsTypeLit => TsType::TsTypeLit,
            Kind::TsArrayType => TsType::TsArrayType,
            Kind::TsTupleType => TsType::TsTupleType,
            Kind::TsOptionalType => TsType::TsOptionalType,
            Kind::TsRestType => TsType::TsRestType,
            Kind::TsConditionalType => TsType::TsConditionalType,
            Kind::TsInferType => TsType::TsInferType,
            Kind::TsParenthesizedType => TsType::TsParenthesizedType,
            Kind::TsTypeOperator => TsType::TsTypeOperator,
            Kind::TsIndexedAccessType => TsType::TsIndexedAccessType,
            Kind::TsMappedType => TsType::TsMappedType,
            Kind::TsLitType => TsType::TsLitType,
            Kind::TsTypePredicate => TsType::TsTypePredicate,
            Kind::TsImportType => TsType::TsImportType,
            _ => match TsFnOrConstructorType::of(node) {
                TsFnOrConstructorType::Other => match TsUnionOrIntersectionType::of(node) {
                    TsUnionOrIntersectionType::Other => TsType::Other,
                    _ => TsType::TsUnionOrIntersectionType,
                },
                _ => TsType::TsFnOrConstructorType,
            },
        }
    }
}

/// The name of a type, with dots or without.
#[derive(Clone, Copy, Debug)]
pub enum TsEntityName {
    TsQualifiedName,
    Ident,
    /// A node of none of these forms.
    Other,
}

impl TsEntityName {
    /// Which of the forms a node has.
    pub fn of(node: Part) -> Self
        ensures { result ≡ ts_entity_name_of (kind_of (seen node.entry)) }
    {
        match node.kind() {
            Kind::TsQualifiedName => TsEntityName::TsQualifiedName,
            Kind::Ident => TsEntityName::Ident,
            _ => TsEntityName::Other,
        }
    }
}

/// What a type query asks of.
#[derive(Clone, Copy, Debug)]
pub enum TsTypeQueryExpr {
    TsEntityName,
    Import,
    /// A node of none of these forms.
    Other,
}

impl TsTypeQueryExpr {
    /// Which of the forms a node has.
    pub fn of(node: Part) -> Self
        ensures { result ≡ ts_type_query_expr_of (kind_of (seen node.entry)) }
    {
        match node.kind() {
            Kind::TsImportType => TsTypeQueryExpr::Import,
            _ => match TsEntityName::of(node) {
                TsEntityName::Other => TsTypeQueryExpr::Other,
                _ => TsTypeQueryExpr::TsEntityName,
            },
        }
    }
}

/// The literal of a literal type.
#[derive(Clone, Copy, Debug)]
pub enum TsLit {
    Number,
    Str,
    Bool,
    BigInt,
    Tpl,
    /// A node of none of these forms.
    Other,
}

impl TsLit {
    /// Which of the forms a node has.
    pub fn of(node: Part) -> Self
        ensures { result ≡ ts_lit_of (kind_of (seen node.entry)) }
    {
        match node.kind() {
            Kind::Number => TsLit::Number,
            Kind::Str => TsLit::Str,
            Kind::Bool => TsLit::Bool,
            Kind::BigInt => TsLit::BigInt,
            Kind::TsTplLitType => TsLit::Tpl,
            _ => TsLit::Other,
        }
    }
}

/// What a predicate speaks of.
#[derive(Clone, Copy, Debug)]
pub enum TsThisTypeOrIdent {
    TsThisType,
    Ident,
    /// A node of none of these forms.
    Other,
}

impl TsThisTypeOrIdent {
    /// Which of the forms a node has.
    pub fn of(node: Part) -> Self
        ensures { result ≡ ts_this_type_or_ident_of (kind_of (seen node.entry)) }
    {
        match node.kind() {
            Kind::TsThisType => TsThisTypeOrIdent::TsThisType,
            Kind::Ident => TsThisTypeOrIdent::Ident,
            _ => TsThisTypeOrIdent::Other,
        }
    }
}

/// A member of an interface or a type literal.
#[derive(Clone, Copy, Debug)]
pub enum TsTypeElement {
    TsCallSignatureDecl,
    TsConstructSignatureDecl,
    TsPropertySignature,
    TsGetterSignature,
    TsSetterSignature,
    TsMethodSignature,
    TsIndexSignature,
    /// A node of none of these forms.
    Other,
}

impl TsTypeElement {
    /// Which of the forms a node has.
    pub fn of(node: Part) -> Self
        ensures { result ≡ ts_type_element_of (kind_of (seen node.entry)) }
    {
        match node.kind() {
            Kind::TsCallSignatureDecl => TsTypeElement::TsCallSignatureDecl,
            Kind::TsConstructSignatureDecl => TsTypeElement::TsConstructSignatureDecl,
            Kind::TsPropertySignature => TsTypeElement::TsPropertySignature,
            Kind::TsGetterSignature => TsTypeElement::TsGetterSignature,
            Kind::TsSetterSignature => TsTypeElement::TsSetterSignature,
            Kind::TsMethodSignature => TsTypeElement::TsMethodSignature,
            Kind::TsIndexSignature => TsTypeElement::TsIndexSignature,
            _ => TsTypeElement::Other,
        }
    }
}
