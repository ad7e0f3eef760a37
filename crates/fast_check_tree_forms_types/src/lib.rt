//! The forms of types.
//!
//! A form reads a node where its `N` is a `Part` and its `T` a `&str`, and makes one where they are a `Tree` and an `Atom`.
//!
//! `of` reads a node by the places of its fields, whatever its kind is. A field that is not there is absent, false, empty or
//! `DUMMY_SP`. `into_tree` fails only if memory runs out.
// Written by forms/write.py from forms/forms.txt.
#![tactic(auto)]

mod signatures;
mod type_operators;
mod type_params;
mod types;

pub use signatures::{
    TsCallSignatureDecl, TsConstructSignatureDecl, TsConstructorType, TsFnType, TsGetterSignature,
    TsMethodSignature, TsPropertySignature, TsSetterSignature,
};
pub use type_operators::{
    TsConditionalType, TsIndexedAccessType, TsInferType, TsMappedType, TsTypeOperator,
    TsTypePredicate,
};
pub use type_params::{TsTypeAnn, TsTypeParam, TsTypeParamDecl, TsTypeParamInstantiation};
pub use types::{
    TsArrayType, TsImportType, TsIntersectionType, TsKeywordType, TsLitType, TsOptionalType,
    TsParenthesizedType, TsQualifiedName, TsRestType, TsThisType, TsTplLitType, TsTupleElement,
    TsTupleType, TsTypeLit, TsTypeQuery, TsTypeRef, TsUnionType,
};
