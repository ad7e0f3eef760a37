//! The fields of patterns.
// Written by forms/write.py from forms/forms.txt.

use crate::schema::form::{Choice, Count, Field, Form, SPAN, Variant};
use fast_check_tree_syntax::Kind;

pub static ARRAY_PAT: [Field; 4] = [
    SPAN,
    ("elems", Form::Choice(Choice::Pat), Count::ListOfOptions),
    ("optional", Form::Flag, Count::One),
    ("type_ann", Form::Struct(Kind::TsTypeAnn), Count::Option),
];

pub static REST_PAT: [Field; 4] = [
    SPAN,
    ("dot3_token", Form::Range, Count::One),
    ("arg", Form::Choice(Choice::Pat), Count::One),
    ("type_ann", Form::Struct(Kind::TsTypeAnn), Count::Option),
];

pub static OBJECT_PAT: [Field; 4] = [
    SPAN,
    ("props", Form::Choice(Choice::ObjectPatProp), Count::List),
    ("optional", Form::Flag, Count::One),
    ("type_ann", Form::Struct(Kind::TsTypeAnn), Count::Option),
];

pub static ASSIGN_PAT: [Field; 3] = [
    SPAN,
    ("left", Form::Choice(Choice::Pat), Count::One),
    ("right", Form::Choice(Choice::Expr), Count::One),
];

pub static KEY_VALUE_PAT_PROP: [Field; 2] = [
    ("key", Form::Choice(Choice::PropName), Count::One),
    ("value", Form::Choice(Choice::Pat), Count::One),
];

pub static ASSIGN_PAT_PROP: [Field; 3] = [
    SPAN,
    ("key", Form::Struct(Kind::BindingIdent), Count::One),
    ("value", Form::Choice(Choice::Expr), Count::Option),
];

pub static PAT_VARIANTS: [Variant; 7] = [
    ("Ident", Form::Struct(Kind::BindingIdent)),
    ("Array", Form::Struct(Kind::ArrayPat)),
    ("Rest", Form::Struct(Kind::RestPat)),
    ("Object", Form::Struct(Kind::ObjectPat)),
    ("Assign", Form::Struct(Kind::AssignPat)),
    ("Invalid", Form::Struct(Kind::Invalid)),
    ("Expr", Form::Marked(Kind::PatExpr)),
];

pub static OBJECT_PAT_PROP_VARIANTS: [Variant; 3] = [
    ("KeyValue", Form::Struct(Kind::KeyValuePatProp)),
    ("Assign", Form::Struct(Kind::AssignPatProp)),
    ("Rest", Form::Struct(Kind::RestPat)),
];
