//! The fields of types.
// Written by forms/write.py from forms/forms.txt.

use crate::schema::form::{Choice, Count, Field, Form, Named, SPAN, Variant, Words};
use fast_check_tree_syntax::{Kind, Word};

pub static TS_KEYWORD_TYPE: [Field; 2] = [
    SPAN,
    ("kind", Form::Word(Words::TsKeywordTypeKind), Count::One),
];

pub static TS_THIS_TYPE: [Field; 1] = [SPAN];

pub static TS_FN_TYPE: [Field; 5] = [
    SPAN,
    ("params", Form::Choice(Choice::Pat), Count::List),
    (
        "type_params",
        Form::Struct(Kind::TsTypeParamDecl),
        Count::Option,
    ),
    ("type_ann", Form::Struct(Kind::TsTypeAnn), Count::One),
    ("is_abstract", Form::Flag, Count::One),
];

pub static TS_CONSTRUCTOR_TYPE: [Field; 5] = [
    SPAN,
    ("params", Form::Choice(Choice::Pat), Count::List),
    (
        "type_params",
        Form::Struct(Kind::TsTypeParamDecl),
        Count::Option,
    ),
    ("type_ann", Form::Struct(Kind::TsTypeAnn), Count::One),
    ("is_abstract", Form::Flag, Count::One),
];

pub static TS_TYPE_REF: [Field; 3] = [
    SPAN,
    ("type_name", Form::Choice(Choice::TsEntityName), Count::One),
    (
        "type_params",
        Form::Struct(Kind::TsTypeParamInstantiation),
        Count::Option,
    ),
];

pub static TS_TYPE_QUERY: [Field; 3] = [
    SPAN,
    (
        "expr_name",
        Form::Choice(Choice::TsTypeQueryExpr),
        Count::One,
    ),
    (
        "type_args",
        Form::Struct(Kind::TsTypeParamInstantiation),
        Count::Option,
    ),
];

pub static TS_TYPE_LIT: [Field; 2] = [
    SPAN,
    ("members", Form::Choice(Choice::TsTypeElement), Count::List),
];

pub static TS_ARRAY_TYPE: [Field; 2] = [
    SPAN,
    ("elem_type", Form::Choice(Choice::TsType), Count::One),
];

pub static TS_TUPLE_TYPE: [Field; 2] = [
    SPAN,
    (
        "elem_types",
        Form::Struct(Kind::TsTupleElement),
        Count::List,
    ),
];

pub static TS_TUPLE_ELEMENT: [Field; 3] = [
    SPAN,
    ("label", Form::Choice(Choice::Pat), Count::Option),
    ("ty", Form::Choice(Choice::TsType), Count::One),
];

pub static TS_OPTIONAL_TYPE: [Field; 2] = [
    SPAN,
    ("type_ann", Form::Choice(Choice::TsType), Count::One),
];

pub static TS_REST_TYPE: [Field; 2] = [
    SPAN,
    ("type_ann", Form::Choice(Choice::TsType), Count::One),
];

pub static TS_PARENTHESIZED_TYPE: [Field; 2] = [
    SPAN,
    ("type_ann", Form::Choice(Choice::TsType), Count::One),
];

pub static TS_UNION_TYPE: [Field; 2] = [SPAN, ("types", Form::Choice(Choice::TsType), Count::List)];

pub static TS_INTERSECTION_TYPE: [Field; 2] = [
    SPAN,
    ("types", Form::Choice(Choice::TsType), Count::List),
];

pub static TS_CONDITIONAL_TYPE: [Field; 5] = [
    SPAN,
    ("check_type", Form::Choice(Choice::TsType), Count::One),
    ("extends_type", Form::Choice(Choice::TsType), Count::One),
    ("true_type", Form::Choice(Choice::TsType), Count::One),
    ("false_type", Form::Choice(Choice::TsType), Count::One),
];

pub static TS_INFER_TYPE: [Field; 2] = [
    SPAN,
    ("type_param", Form::Struct(Kind::TsTypeParam), Count::One),
];

pub static TS_TYPE_OPERATOR: [Field; 3] = [
    SPAN,
    ("op", Form::Word(Words::TsTypeOperatorOp), Count::One),
    ("type_ann", Form::Choice(Choice::TsType), Count::One),
];

pub static TS_INDEXED_ACCESS_TYPE: [Field; 4] = [
    SPAN,
    ("readonly", Form::Flag, Count::One),
    ("obj_type", Form::Choice(Choice::TsType), Count::One),
    ("index_type", Form::Choice(Choice::TsType), Count::One),
];

pub static TS_MAPPED_TYPE: [Field; 6] = [
    SPAN,
    ("readonly", Form::Text, Count::Option),
    ("type_param", Form::Struct(Kind::TsTypeParam), Count::One),
    ("name_type", Form::Choice(Choice::TsType), Count::Option),
    ("optional", Form::Text, Count::Option),
    ("type_ann", Form::Choice(Choice::TsType), Count::Option),
];

pub static TS_LIT_TYPE: [Field; 2] = [SPAN, ("lit", Form::Choice(Choice::TsLit), Count::One)];

pub static TS_TPL_LIT_TYPE: [Field; 3] = [
    SPAN,
    ("types", Form::Choice(Choice::TsType), Count::List),
    ("quasis", Form::Struct(Kind::TplElement), Count::List),
];

pub static TS_TYPE_PREDICATE: [Field; 4] = [
    SPAN,
    ("asserts", Form::Flag, Count::One),
    (
        "param_name",
        Form::Choice(Choice::TsThisTypeOrIdent),
        Count::One,
    ),
    ("type_ann", Form::Struct(Kind::TsTypeAnn), Count::Option),
];

pub static TS_IMPORT_TYPE: [Field; 4] = [
    SPAN,
    ("arg", Form::Struct(Kind::Str), Count::One),
    (
        "qualifier",
        Form::Choice(Choice::TsEntityName),
        Count::Option,
    ),
    (
        "type_args",
        Form::Struct(Kind::TsTypeParamInstantiation),
        Count::Option,
    ),
];

pub static TS_QUALIFIED_NAME: [Field; 3] = [
    SPAN,
    ("left", Form::Choice(Choice::TsEntityName), Count::One),
    ("right", Form::Struct(Kind::IdentName), Count::One),
];

pub static TS_CALL_SIGNATURE_DECL: [Field; 4] = [
    SPAN,
    ("params", Form::Choice(Choice::Pat), Count::List),
    ("type_ann", Form::Struct(Kind::TsTypeAnn), Count::Option),
    (
        "type_params",
        Form::Struct(Kind::TsTypeParamDecl),
        Count::Option,
    ),
];

pub static TS_CONSTRUCT_SIGNATURE_DECL: [Field; 4] = [
    SPAN,
    ("params", Form::Choice(Choice::Pat), Count::List),
    ("type_ann", Form::Struct(Kind::TsTypeAnn), Count::Option),
    (
        "type_params",
        Form::Struct(Kind::TsTypeParamDecl),
        Count::Option,
    ),
];

pub static TS_PROPERTY_SIGNATURE: [Field; 6] = [
    SPAN,
    ("key", Form::Choice(Choice::Expr), Count::One),
    ("computed", Form::Flag, Count::One),
    ("readonly", Form::Flag, Count::One),
    ("optional", Form::Flag, Count::One),
    ("type_ann", Form::Struct(Kind::TsTypeAnn), Count::Option),
];

pub static TS_GETTER_SIGNATURE: [Field; 4] = [
    SPAN,
    ("key", Form::Choice(Choice::Expr), Count::One),
    ("computed", Form::Flag, Count::One),
    ("type_ann", Form::Struct(Kind::TsTypeAnn), Count::Option),
];

pub static TS_SETTER_SIGNATURE: [Field; 4] = [
    SPAN,
    ("key", Form::Choice(Choice::Expr), Count::One),
    ("computed", Form::Flag, Count::One),
    ("params", Form::Choice(Choice::Pat), Count::List),
];

pub static TS_METHOD_SIGNATURE: [Field; 7] = [
    SPAN,
    ("key", Form::Choice(Choice::Expr), Count::One),
    ("computed", Form::Flag, Count::One),
    ("optional", Form::Flag, Count::One),
    ("params", Form::Choice(Choice::Pat), Count::List),
    ("type_ann", Form::Struct(Kind::TsTypeAnn), Count::Option),
    (
        "type_params",
        Form::Struct(Kind::TsTypeParamDecl),
        Count::Option,
    ),
];

pub static TS_TYPE_PARAM: [Field; 7] = [
    SPAN,
    ("name", Form::Struct(Kind::Ident), Count::One),
    ("is_in", Form::Flag, Count::One),
    ("is_out", Form::Flag, Count::One),
    ("is_const", Form::Flag, Count::One),
    ("constraint", Form::Choice(Choice::TsType), Count::Option),
    ("default", Form::Choice(Choice::TsType), Count::Option),
];

pub static TS_TYPE_PARAM_DECL: [Field; 2] = [
    SPAN,
    ("params", Form::Struct(Kind::TsTypeParam), Count::List),
];

pub static TS_TYPE_PARAM_INSTANTIATION: [Field; 2] = [
    SPAN,
    ("params", Form::Choice(Choice::TsType), Count::List),
];

pub static TS_TYPE_ANN: [Field; 2] = [SPAN, ("type_ann", Form::Choice(Choice::TsType), Count::One)];

pub static TS_TYPE_VARIANTS: [Variant; 20] = [
    ("TsKeywordType", Form::Struct(Kind::TsKeywordType)),
    ("TsThisType", Form::Struct(Kind::TsThisType)),
    (
        "TsFnOrConstructorType",
        Form::Choice(Choice::TsFnOrConstructorType),
    ),
    ("TsTypeRef", Form::Struct(Kind::TsTypeRef)),
    ("TsTypeQuery", Form::Struct(Kind::TsTypeQuery)),
    ("TsTypeLit", Form::Struct(Kind::TsTypeLit)),
    ("TsArrayType", Form::Struct(Kind::TsArrayType)),
    ("TsTupleType", Form::Struct(Kind::TsTupleType)),
    ("TsOptionalType", Form::Struct(Kind::TsOptionalType)),
    ("TsRestType", Form::Struct(Kind::TsRestType)),
    (
        "TsUnionOrIntersectionType",
        Form::Choice(Choice::TsUnionOrIntersectionType),
    ),
    ("TsConditionalType", Form::Struct(Kind::TsConditionalType)),
    ("TsInferType", Form::Struct(Kind::TsInferType)),
    (
        "TsParenthesizedType",
        Form::Struct(Kind::TsParenthesizedType),
    ),
    ("TsTypeOperator", Form::Struct(Kind::TsTypeOperator)),
    (
        "TsIndexedAccessType",
        Form::Struct(Kind::TsIndexedAccessType),
    ),
    ("TsMappedType", Form::Struct(Kind::TsMappedType)),
    ("TsLitType", Form::Struct(Kind::TsLitType)),
    ("TsTypePredicate", Form::Struct(Kind::TsTypePredicate)),
    ("TsImportType", Form::Struct(Kind::TsImportType)),
];

pub static TS_FN_OR_CONSTRUCTOR_TYPE_VARIANTS: [Variant; 2] = [
    ("TsFnType", Form::Struct(Kind::TsFnType)),
    ("TsConstructorType", Form::Struct(Kind::TsConstructorType)),
];

pub static TS_TYPE_QUERY_EXPR_VARIANTS: [Variant; 2] = [
    ("TsEntityName", Form::Choice(Choice::TsEntityName)),
    ("Import", Form::Struct(Kind::TsImportType)),
];

pub static TS_UNION_OR_INTERSECTION_TYPE_VARIANTS: [Variant; 2] = [
    ("TsUnionType", Form::Struct(Kind::TsUnionType)),
    ("TsIntersectionType", Form::Struct(Kind::TsIntersectionType)),
];

pub static TS_LIT_VARIANTS: [Variant; 5] = [
    ("Number", Form::Struct(Kind::Number)),
    ("Str", Form::Struct(Kind::Str)),
    ("Bool", Form::Struct(Kind::Bool)),
    ("BigInt", Form::Struct(Kind::BigInt)),
    ("Tpl", Form::Struct(Kind::TsTplLitType)),
];

pub static TS_THIS_TYPE_OR_IDENT_VARIANTS: [Variant; 2] = [
    ("TsThisType", Form::Struct(Kind::TsThisType)),
    ("Ident", Form::Struct(Kind::Ident)),
];

pub static TS_ENTITY_NAME_VARIANTS: [Variant; 2] = [
    ("TsQualifiedName", Form::Struct(Kind::TsQualifiedName)),
    ("Ident", Form::Struct(Kind::Ident)),
];

pub static TS_TYPE_ELEMENT_VARIANTS: [Variant; 7] = [
    (
        "TsCallSignatureDecl",
        Form::Struct(Kind::TsCallSignatureDecl),
    ),
    (
        "TsConstructSignatureDecl",
        Form::Struct(Kind::TsConstructSignatureDecl),
    ),
    (
        "TsPropertySignature",
        Form::Struct(Kind::TsPropertySignature),
    ),
    ("TsGetterSignature", Form::Struct(Kind::TsGetterSignature)),
    ("TsSetterSignature", Form::Struct(Kind::TsSetterSignature)),
    ("TsMethodSignature", Form::Struct(Kind::TsMethodSignature)),
    ("TsIndexSignature", Form::Struct(Kind::TsIndexSignature)),
];

pub static TS_KEYWORD_TYPE_KIND_WORDS: [Named; 13] = [
    ("TsAnyKeyword", Word::TsAnyKeyword),
    ("TsUnknownKeyword", Word::TsUnknownKeyword),
    ("TsNumberKeyword", Word::TsNumberKeyword),
    ("TsObjectKeyword", Word::TsObjectKeyword),
    ("TsBooleanKeyword", Word::TsBooleanKeyword),
    ("TsBigIntKeyword", Word::TsBigIntKeyword),
    ("TsStringKeyword", Word::TsStringKeyword),
    ("TsSymbolKeyword", Word::TsSymbolKeyword),
    ("TsVoidKeyword", Word::TsVoidKeyword),
    ("TsUndefinedKeyword", Word::TsUndefinedKeyword),
    ("TsNullKeyword", Word::TsNullKeyword),
    ("TsNeverKeyword", Word::TsNeverKeyword),
    ("TsIntrinsicKeyword", Word::TsIntrinsicKeyword),
];

pub static TS_TYPE_OPERATOR_OP_WORDS: [Named; 3] = [
    ("KeyOf", Word::KeyOf),
    ("Unique", Word::Unique),
    ("ReadOnly", Word::ReadOnly),
];
