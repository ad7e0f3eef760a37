//! The fields of functions, classes and their members.
// Written by forms/write.py from forms/forms.txt.

use crate::schema::form::{Choice, Count, Field, Form, Named, SPAN, Variant, Words};
use fast_check_tree_syntax::{Kind, Word};

pub static FUNCTION: [Field; 9] = [
    SPAN,
    ("params", Form::Struct(Kind::Param), Count::List),
    ("decorators", Form::Struct(Kind::Decorator), Count::List),
    ("ctxt", Form::Context, Count::One),
    ("body", Form::Struct(Kind::BlockStmt), Count::Option),
    ("is_generator", Form::Flag, Count::One),
    ("is_async", Form::Flag, Count::One),
    (
        "type_params",
        Form::Struct(Kind::TsTypeParamDecl),
        Count::Option,
    ),
    ("return_type", Form::Struct(Kind::TsTypeAnn), Count::Option),
];

pub static PARAM: [Field; 3] = [
    SPAN,
    ("decorators", Form::Struct(Kind::Decorator), Count::List),
    ("pat", Form::Choice(Choice::Pat), Count::One),
];

pub static CLASS: [Field; 9] = [
    SPAN,
    ("ctxt", Form::Context, Count::One),
    ("decorators", Form::Struct(Kind::Decorator), Count::List),
    ("body", Form::Choice(Choice::ClassMember), Count::List),
    ("super_class", Form::Choice(Choice::Expr), Count::Option),
    ("is_abstract", Form::Flag, Count::One),
    (
        "type_params",
        Form::Struct(Kind::TsTypeParamDecl),
        Count::Option,
    ),
    (
        "super_type_params",
        Form::Struct(Kind::TsTypeParamInstantiation),
        Count::Option,
    ),
    (
        "implements",
        Form::Struct(Kind::TsExprWithTypeArgs),
        Count::List,
    ),
];

pub static DECORATOR: [Field; 2] = [SPAN, ("expr", Form::Choice(Choice::Expr), Count::One)];

pub static CONSTRUCTOR: [Field; 7] = [
    SPAN,
    ("ctxt", Form::Context, Count::One),
    ("key", Form::Choice(Choice::PropName), Count::One),
    (
        "params",
        Form::Choice(Choice::ParamOrTsParamProp),
        Count::List,
    ),
    ("body", Form::Struct(Kind::BlockStmt), Count::Option),
    (
        "accessibility",
        Form::Word(Words::Accessibility),
        Count::Option,
    ),
    ("is_optional", Form::Flag, Count::One),
];

pub static CLASS_METHOD: [Field; 9] = [
    SPAN,
    ("key", Form::Choice(Choice::PropName), Count::One),
    ("function", Form::Struct(Kind::Function), Count::One),
    ("kind", Form::Word(Words::MethodKind), Count::One),
    ("is_static", Form::Flag, Count::One),
    (
        "accessibility",
        Form::Word(Words::Accessibility),
        Count::Option,
    ),
    ("is_abstract", Form::Flag, Count::One),
    ("is_optional", Form::Flag, Count::One),
    ("is_override", Form::Flag, Count::One),
];

pub static PRIVATE_METHOD: [Field; 9] = [
    SPAN,
    ("key", Form::Struct(Kind::PrivateName), Count::One),
    ("function", Form::Struct(Kind::Function), Count::One),
    ("kind", Form::Word(Words::MethodKind), Count::One),
    ("is_static", Form::Flag, Count::One),
    (
        "accessibility",
        Form::Word(Words::Accessibility),
        Count::Option,
    ),
    ("is_abstract", Form::Flag, Count::One),
    ("is_optional", Form::Flag, Count::One),
    ("is_override", Form::Flag, Count::One),
];

pub static CLASS_PROP: [Field; 13] = [
    SPAN,
    ("key", Form::Choice(Choice::PropName), Count::One),
    ("value", Form::Choice(Choice::Expr), Count::Option),
    ("type_ann", Form::Struct(Kind::TsTypeAnn), Count::Option),
    ("is_static", Form::Flag, Count::One),
    ("decorators", Form::Struct(Kind::Decorator), Count::List),
    (
        "accessibility",
        Form::Word(Words::Accessibility),
        Count::Option,
    ),
    ("is_abstract", Form::Flag, Count::One),
    ("is_optional", Form::Flag, Count::One),
    ("is_override", Form::Flag, Count::One),
    ("readonly", Form::Flag, Count::One),
    ("declare", Form::Flag, Count::One),
    ("definite", Form::Flag, Count::One),
];

pub static PRIVATE_PROP: [Field; 12] = [
    SPAN,
    ("ctxt", Form::Context, Count::One),
    ("key", Form::Struct(Kind::PrivateName), Count::One),
    ("value", Form::Choice(Choice::Expr), Count::Option),
    ("type_ann", Form::Struct(Kind::TsTypeAnn), Count::Option),
    ("is_static", Form::Flag, Count::One),
    ("decorators", Form::Struct(Kind::Decorator), Count::List),
    (
        "accessibility",
        Form::Word(Words::Accessibility),
        Count::Option,
    ),
    ("is_optional", Form::Flag, Count::One),
    ("is_override", Form::Flag, Count::One),
    ("readonly", Form::Flag, Count::One),
    ("definite", Form::Flag, Count::One),
];

pub static TS_INDEX_SIGNATURE: [Field; 5] = [
    SPAN,
    ("params", Form::Choice(Choice::Pat), Count::List),
    ("type_ann", Form::Struct(Kind::TsTypeAnn), Count::Option),
    ("readonly", Form::Flag, Count::One),
    ("is_static", Form::Flag, Count::One),
];

pub static STATIC_BLOCK: [Field; 2] = [SPAN, ("body", Form::Struct(Kind::BlockStmt), Count::One)];

pub static AUTO_ACCESSOR: [Field; 10] = [
    SPAN,
    ("key", Form::Choice(Choice::Key), Count::One),
    ("value", Form::Choice(Choice::Expr), Count::Option),
    ("type_ann", Form::Struct(Kind::TsTypeAnn), Count::Option),
    ("is_static", Form::Flag, Count::One),
    ("decorators", Form::Struct(Kind::Decorator), Count::List),
    (
        "accessibility",
        Form::Word(Words::Accessibility),
        Count::Option,
    ),
    ("is_abstract", Form::Flag, Count::One),
    ("is_override", Form::Flag, Count::One),
    ("definite", Form::Flag, Count::One),
];

pub static TS_PARAM_PROP: [Field; 6] = [
    SPAN,
    ("decorators", Form::Struct(Kind::Decorator), Count::List),
    (
        "accessibility",
        Form::Word(Words::Accessibility),
        Count::Option,
    ),
    ("is_override", Form::Flag, Count::One),
    ("readonly", Form::Flag, Count::One),
    ("param", Form::Choice(Choice::TsParamPropParam), Count::One),
];

pub static CLASS_MEMBER_VARIANTS: [Variant; 9] = [
    ("Constructor", Form::Struct(Kind::Constructor)),
    ("Method", Form::Struct(Kind::ClassMethod)),
    ("PrivateMethod", Form::Struct(Kind::PrivateMethod)),
    ("ClassProp", Form::Struct(Kind::ClassProp)),
    ("PrivateProp", Form::Struct(Kind::PrivateProp)),
    ("TsIndexSignature", Form::Struct(Kind::TsIndexSignature)),
    ("Empty", Form::Struct(Kind::EmptyStmt)),
    ("StaticBlock", Form::Struct(Kind::StaticBlock)),
    ("AutoAccessor", Form::Struct(Kind::AutoAccessor)),
];

pub static KEY_VARIANTS: [Variant; 2] = [
    ("Private", Form::Struct(Kind::PrivateName)),
    ("Public", Form::Choice(Choice::PropName)),
];

pub static PARAM_OR_TS_PARAM_PROP_VARIANTS: [Variant; 2] = [
    ("Param", Form::Struct(Kind::Param)),
    ("TsParamProp", Form::Struct(Kind::TsParamProp)),
];

pub static TS_PARAM_PROP_PARAM_VARIANTS: [Variant; 2] = [
    ("Ident", Form::Struct(Kind::BindingIdent)),
    ("Assign", Form::Struct(Kind::AssignPat)),
];

pub static METHOD_KIND_WORDS: [Named; 3] = [
    ("Method", Word::Method),
    ("Getter", Word::Getter),
    ("Setter", Word::Setter),
];

pub static ACCESSIBILITY_WORDS: [Named; 3] = [
    ("Public", Word::Public),
    ("Protected", Word::Protected),
    ("Private", Word::Private),
];
