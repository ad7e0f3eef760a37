//! The fields of names and literals.
// Written by forms/write.py from forms/forms.txt.

use crate::schema::form::{Count, Field, Form, SPAN, Variant};
use fast_check_tree_syntax::Kind;

pub static IDENT: [Field; 4] = [
    SPAN,
    ("ctxt", Form::Context, Count::One),
    ("sym", Form::Text, Count::One),
    ("optional", Form::Flag, Count::One),
];

pub static IDENT_NAME: [Field; 2] = [SPAN, ("sym", Form::Text, Count::One)];

pub static BINDING_IDENT: [Field; 2] = [
    ("id", Form::Struct(Kind::Ident), Count::One),
    ("type_ann", Form::Struct(Kind::TsTypeAnn), Count::Option),
];

pub static PRIVATE_NAME: [Field; 2] = [SPAN, ("name", Form::Text, Count::One)];

pub static STR: [Field; 3] = [
    SPAN,
    ("value", Form::Text, Count::One),
    ("raw", Form::Text, Count::Option),
];

pub static BOOL: [Field; 2] = [SPAN, ("value", Form::Flag, Count::One)];

pub static NULL: [Field; 1] = [SPAN];

pub static NUMBER: [Field; 2] = [SPAN, ("raw", Form::Text, Count::One)];

pub static BIG_INT: [Field; 2] = [SPAN, ("raw", Form::Text, Count::One)];

pub static REGEX: [Field; 3] = [
    SPAN,
    ("exp", Form::Text, Count::One),
    ("flags", Form::Text, Count::One),
];

pub static JSX_TEXT: [Field; 2] = [SPAN, ("raw", Form::Text, Count::One)];

pub static LIT_VARIANTS: [Variant; 7] = [
    ("Str", Form::Struct(Kind::Str)),
    ("Bool", Form::Struct(Kind::Bool)),
    ("Null", Form::Struct(Kind::Null)),
    ("Num", Form::Struct(Kind::Number)),
    ("BigInt", Form::Struct(Kind::BigInt)),
    ("Regex", Form::Struct(Kind::Regex)),
    ("JSXText", Form::Struct(Kind::JSXText)),
];
