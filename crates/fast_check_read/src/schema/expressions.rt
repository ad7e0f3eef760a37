//! The fields of expressions.
// Written by forms/write.py from forms/forms.txt.

use crate::schema::form::{Choice, Count, Field, Form, SPAN, Variant};
use fast_check_tree_syntax::Kind;

pub static THIS_EXPR: [Field; 1] = [SPAN];

pub static ARRAY_LIT: [Field; 2] = [
    SPAN,
    (
        "elems",
        Form::Struct(Kind::ExprOrSpread),
        Count::ListOfOptions,
    ),
];

pub static OBJECT_LIT: [Field; 2] = [
    SPAN,
    ("props", Form::Choice(Choice::PropOrSpread), Count::List),
];

pub static FN_EXPR: [Field; 2] = [
    ("ident", Form::Struct(Kind::Ident), Count::Option),
    ("function", Form::Struct(Kind::Function), Count::One),
];

pub static UNARY_EXPR: [Field; 3] = [
    SPAN,
    ("op", Form::Text, Count::One),
    ("arg", Form::Choice(Choice::Expr), Count::One),
];

pub static UPDATE_EXPR: [Field; 4] = [
    SPAN,
    ("op", Form::Text, Count::One),
    ("prefix", Form::Flag, Count::One),
    ("arg", Form::Choice(Choice::Expr), Count::One),
];

pub static BIN_EXPR: [Field; 4] = [
    SPAN,
    ("op", Form::Text, Count::One),
    ("left", Form::Choice(Choice::Expr), Count::One),
    ("right", Form::Choice(Choice::Expr), Count::One),
];

pub static ASSIGN_EXPR: [Field; 4] = [
    SPAN,
    ("op", Form::Text, Count::One),
    ("left", Form::Choice(Choice::AssignTarget), Count::One),
    ("right", Form::Choice(Choice::Expr), Count::One),
];

pub static MEMBER_EXPR: [Field; 3] = [
    SPAN,
    ("obj", Form::Choice(Choice::Expr), Count::One),
    ("prop", Form::Choice(Choice::MemberProp), Count::One),
];

pub static SUPER_PROP_EXPR: [Field; 2] = [
    SPAN,
    ("prop", Form::Choice(Choice::MemberProp), Count::One),
];

pub static COND_EXPR: [Field; 4] = [
    SPAN,
    ("test", Form::Choice(Choice::Expr), Count::One),
    ("cons", Form::Choice(Choice::Expr), Count::One),
    ("alt", Form::Choice(Choice::Expr), Count::One),
];

pub static CALL_EXPR: [Field; 5] = [
    SPAN,
    ("ctxt", Form::Context, Count::One),
    ("callee", Form::Choice(Choice::Callee), Count::One),
    ("args", Form::Struct(Kind::ExprOrSpread), Count::List),
    (
        "type_args",
        Form::Struct(Kind::TsTypeParamInstantiation),
        Count::Option,
    ),
];

pub static NEW_EXPR: [Field; 5] = [
    SPAN,
    ("ctxt", Form::Context, Count::One),
    ("callee", Form::Choice(Choice::Expr), Count::One),
    (
        "args",
        Form::Struct(Kind::ExprOrSpread),
        Count::OptionOfList,
    ),
    (
        "type_args",
        Form::Struct(Kind::TsTypeParamInstantiation),
        Count::Option,
    ),
];

pub static SEQ_EXPR: [Field; 2] = [SPAN, ("exprs", Form::Choice(Choice::Expr), Count::List)];

pub static TPL: [Field; 3] = [
    SPAN,
    ("exprs", Form::Choice(Choice::Expr), Count::List),
    ("quasis", Form::Struct(Kind::TplElement), Count::List),
];

pub static TPL_ELEMENT: [Field; 4] = [
    SPAN,
    ("tail", Form::Flag, Count::One),
    ("cooked", Form::Text, Count::Option),
    ("raw", Form::Text, Count::One),
];

pub static TAGGED_TPL: [Field; 5] = [
    SPAN,
    ("ctxt", Form::Context, Count::One),
    ("tag", Form::Choice(Choice::Expr), Count::One),
    (
        "type_params",
        Form::Struct(Kind::TsTypeParamInstantiation),
        Count::Option,
    ),
    ("tpl", Form::Struct(Kind::Tpl), Count::One),
];

pub static ARROW_EXPR: [Field; 8] = [
    SPAN,
    ("ctxt", Form::Context, Count::One),
    ("params", Form::Choice(Choice::Pat), Count::List),
    ("body", Form::Choice(Choice::BlockStmtOrExpr), Count::One),
    ("is_async", Form::Flag, Count::One),
    ("is_generator", Form::Flag, Count::One),
    (
        "type_params",
        Form::Struct(Kind::TsTypeParamDecl),
        Count::Option,
    ),
    ("return_type", Form::Struct(Kind::TsTypeAnn), Count::Option),
];

pub static CLASS_EXPR: [Field; 2] = [
    ("ident", Form::Struct(Kind::Ident), Count::Option),
    ("class", Form::Struct(Kind::Class), Count::One),
];

pub static YIELD_EXPR: [Field; 3] = [
    SPAN,
    ("arg", Form::Choice(Choice::Expr), Count::Option),
    ("delegate", Form::Flag, Count::One),
];

pub static META_PROP_EXPR: [Field; 2] = [SPAN, ("kind", Form::Text, Count::One)];

pub static AWAIT_EXPR: [Field; 2] = [SPAN, ("arg", Form::Choice(Choice::Expr), Count::One)];

pub static PAREN_EXPR: [Field; 2] = [SPAN, ("expr", Form::Choice(Choice::Expr), Count::One)];

pub static JSX_MEMBER: [Field; 2] = [SPAN, ("raw", Form::Text, Count::One)];

pub static JSX_NAMESPACED_NAME: [Field; 2] = [SPAN, ("raw", Form::Text, Count::One)];

pub static JSX_EMPTY: [Field; 2] = [SPAN, ("raw", Form::Text, Count::One)];

pub static JSX_ELEMENT: [Field; 2] = [SPAN, ("raw", Form::Text, Count::One)];

pub static JSX_FRAGMENT: [Field; 2] = [SPAN, ("raw", Form::Text, Count::One)];

pub static TS_TYPE_ASSERTION: [Field; 3] = [
    SPAN,
    ("expr", Form::Choice(Choice::Expr), Count::One),
    ("type_ann", Form::Choice(Choice::TsType), Count::One),
];

pub static TS_AS_EXPR: [Field; 3] = [
    SPAN,
    ("expr", Form::Choice(Choice::Expr), Count::One),
    ("type_ann", Form::Choice(Choice::TsType), Count::One),
];

pub static TS_SATISFIES_EXPR: [Field; 3] = [
    SPAN,
    ("expr", Form::Choice(Choice::Expr), Count::One),
    ("type_ann", Form::Choice(Choice::TsType), Count::One),
];

pub static TS_CONST_ASSERTION: [Field; 2] = [
    SPAN,
    ("expr", Form::Choice(Choice::Expr), Count::One),
];

pub static TS_NON_NULL_EXPR: [Field; 2] = [SPAN, ("expr", Form::Choice(Choice::Expr), Count::One)];

pub static TS_INSTANTIATION: [Field; 3] = [
    SPAN,
    ("expr", Form::Choice(Choice::Expr), Count::One),
    (
        "type_args",
        Form::Struct(Kind::TsTypeParamInstantiation),
        Count::One,
    ),
];

pub static OPT_CHAIN_EXPR: [Field; 3] = [
    SPAN,
    ("optional", Form::Flag, Count::One),
    ("base", Form::Choice(Choice::OptChainBase), Count::One),
];

pub static INVALID: [Field; 1] = [SPAN];

pub static OPT_CALL: [Field; 5] = [
    SPAN,
    ("ctxt", Form::Context, Count::One),
    ("callee", Form::Choice(Choice::Callee), Count::One),
    ("args", Form::Struct(Kind::ExprOrSpread), Count::List),
    (
        "type_args",
        Form::Struct(Kind::TsTypeParamInstantiation),
        Count::Option,
    ),
];

pub static EXPR_OR_SPREAD: [Field; 2] = [
    ("spread", Form::Range, Count::Option),
    ("expr", Form::Choice(Choice::Expr), Count::One),
];

pub static SPREAD_ELEMENT: [Field; 2] = [
    ("dot3_token", Form::Range, Count::One),
    ("expr", Form::Choice(Choice::Expr), Count::One),
];

pub static KEY_VALUE_PROP: [Field; 2] = [
    ("key", Form::Choice(Choice::PropName), Count::One),
    ("value", Form::Choice(Choice::Expr), Count::One),
];

pub static ASSIGN_PROP: [Field; 3] = [
    SPAN,
    ("key", Form::Struct(Kind::Ident), Count::One),
    ("value", Form::Choice(Choice::Expr), Count::One),
];

pub static GETTER_PROP: [Field; 4] = [
    SPAN,
    ("key", Form::Choice(Choice::PropName), Count::One),
    ("type_ann", Form::Struct(Kind::TsTypeAnn), Count::Option),
    ("body", Form::Struct(Kind::BlockStmt), Count::Option),
];

pub static SETTER_PROP: [Field; 4] = [
    SPAN,
    ("key", Form::Choice(Choice::PropName), Count::One),
    ("param", Form::Choice(Choice::Pat), Count::One),
    ("body", Form::Struct(Kind::BlockStmt), Count::Option),
];

pub static METHOD_PROP: [Field; 2] = [
    ("key", Form::Choice(Choice::PropName), Count::One),
    ("function", Form::Struct(Kind::Function), Count::One),
];

pub static COMPUTED_PROP_NAME: [Field; 2] = [
    SPAN,
    ("expr", Form::Choice(Choice::Expr), Count::One),
];

pub static SUPER: [Field; 1] = [SPAN];

pub static IMPORT: [Field; 2] = [SPAN, ("phase", Form::Text, Count::One)];

pub static EXPR_VARIANTS: [Variant; 38] = [
    ("This", Form::Struct(Kind::ThisExpr)),
    ("Array", Form::Struct(Kind::ArrayLit)),
    ("Object", Form::Struct(Kind::ObjectLit)),
    ("Fn", Form::Struct(Kind::FnExpr)),
    ("Unary", Form::Struct(Kind::UnaryExpr)),
    ("Update", Form::Struct(Kind::UpdateExpr)),
    ("Bin", Form::Struct(Kind::BinExpr)),
    ("Assign", Form::Struct(Kind::AssignExpr)),
    ("Member", Form::Struct(Kind::MemberExpr)),
    ("SuperProp", Form::Struct(Kind::SuperPropExpr)),
    ("Cond", Form::Struct(Kind::CondExpr)),
    ("Call", Form::Struct(Kind::CallExpr)),
    ("New", Form::Struct(Kind::NewExpr)),
    ("Seq", Form::Struct(Kind::SeqExpr)),
    ("Ident", Form::Struct(Kind::Ident)),
    ("Lit", Form::Choice(Choice::Lit)),
    ("Tpl", Form::Struct(Kind::Tpl)),
    ("TaggedTpl", Form::Struct(Kind::TaggedTpl)),
    ("Arrow", Form::Struct(Kind::ArrowExpr)),
    ("Class", Form::Struct(Kind::ClassExpr)),
    ("Yield", Form::Struct(Kind::YieldExpr)),
    ("MetaProp", Form::Struct(Kind::MetaPropExpr)),
    ("Await", Form::Struct(Kind::AwaitExpr)),
    ("Paren", Form::Struct(Kind::ParenExpr)),
    ("JSXMember", Form::Struct(Kind::JSXMember)),
    ("JSXNamespacedName", Form::Struct(Kind::JSXNamespacedName)),
    ("JSXEmpty", Form::Struct(Kind::JSXEmpty)),
    ("JSXElement", Form::Struct(Kind::JSXElement)),
    ("JSXFragment", Form::Struct(Kind::JSXFragment)),
    ("TsTypeAssertion", Form::Struct(Kind::TsTypeAssertion)),
    ("TsConstAssertion", Form::Struct(Kind::TsConstAssertion)),
    ("TsNonNull", Form::Struct(Kind::TsNonNullExpr)),
    ("TsAs", Form::Struct(Kind::TsAsExpr)),
    ("TsInstantiation", Form::Struct(Kind::TsInstantiation)),
    ("TsSatisfies", Form::Struct(Kind::TsSatisfiesExpr)),
    ("PrivateName", Form::Struct(Kind::PrivateName)),
    ("OptChain", Form::Struct(Kind::OptChainExpr)),
    ("Invalid", Form::Struct(Kind::Invalid)),
];

pub static BLOCK_STMT_OR_EXPR_VARIANTS: [Variant; 2] = [
    ("BlockStmt", Form::Struct(Kind::BlockStmt)),
    ("Expr", Form::Choice(Choice::Expr)),
];

pub static OPT_CHAIN_BASE_VARIANTS: [Variant; 2] = [
    ("Member", Form::Struct(Kind::MemberExpr)),
    ("Call", Form::Struct(Kind::OptCall)),
];

pub static PROP_OR_SPREAD_VARIANTS: [Variant; 2] = [
    ("Spread", Form::Struct(Kind::SpreadElement)),
    ("Prop", Form::Choice(Choice::Prop)),
];

pub static PROP_VARIANTS: [Variant; 6] = [
    ("Shorthand", Form::Struct(Kind::Ident)),
    ("KeyValue", Form::Struct(Kind::KeyValueProp)),
    ("Assign", Form::Struct(Kind::AssignProp)),
    ("Getter", Form::Struct(Kind::GetterProp)),
    ("Setter", Form::Struct(Kind::SetterProp)),
    ("Method", Form::Struct(Kind::MethodProp)),
];

pub static PROP_NAME_VARIANTS: [Variant; 5] = [
    ("Ident", Form::Struct(Kind::IdentName)),
    ("Str", Form::Struct(Kind::Str)),
    ("Num", Form::Struct(Kind::Number)),
    ("Computed", Form::Struct(Kind::ComputedPropName)),
    ("BigInt", Form::Struct(Kind::BigInt)),
];

pub static MEMBER_PROP_VARIANTS: [Variant; 3] = [
    ("Ident", Form::Struct(Kind::IdentName)),
    ("PrivateName", Form::Struct(Kind::PrivateName)),
    ("Computed", Form::Struct(Kind::ComputedPropName)),
];

pub static CALLEE_VARIANTS: [Variant; 3] = [
    ("Super", Form::Struct(Kind::Super)),
    ("Import", Form::Struct(Kind::Import)),
    ("Expr", Form::Choice(Choice::Expr)),
];

pub static ASSIGN_TARGET_VARIANTS: [Variant; 2] = [
    ("Simple", Form::Choice(Choice::Expr)),
    ("Pat", Form::Marked(Kind::TargetPat)),
];
