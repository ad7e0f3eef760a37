//! What each form writes: the forms of expressions.
// Written by forms/write.py from forms/forms.txt.
use crate::piece::{Phrase, Piece, Slot, What, When};
use fast_check_tree_syntax::Kind;

pub(crate) static THIS_EXPR: [Piece; 1] = [(When::Always, What::Mark, "this")];

pub(crate) static ARRAY_LIT: [Piece; 3] = [
    (When::Always, What::Mark, "["),
    (When::Always, What::Holes(1), ""),
    (When::Always, What::Mark, "]"),
];

pub(crate) static OBJECT_LIT: [Piece; 3] = [
    (When::Always, What::Mark, "{"),
    (When::Always, What::Listed(1), ","),
    (When::Always, What::Mark, "}"),
];

pub(crate) static FN_EXPR: [Piece; 5] = [
    (When::Always, What::Part(1, Slot::Async), ""),
    (When::Always, What::Mark, "function"),
    (When::Always, What::Part(1, Slot::Star), ""),
    (When::Always, What::Part(0, Slot::Whole), ""),
    (When::Always, What::Part(1, Slot::Whole), ""),
];

pub(crate) static UNARY_EXPR: [Piece; 2] = [
    (When::Always, What::Text(1), ""),
    (When::Always, What::Part(2, Slot::Whole), ""),
];

pub(crate) static UPDATE_EXPR: [Piece; 4] = [
    (When::Has(2), What::Text(1), ""),
    (When::Has(2), What::Part(3, Slot::Whole), ""),
    (When::Lacks(2), What::Part(3, Slot::Whole), ""),
    (When::Lacks(2), What::Text(1), ""),
];

pub(crate) static BIN_EXPR: [Piece; 3] = [
    (When::Always, What::Part(2, Slot::Whole), ""),
    (When::Always, What::Text(1), ""),
    (When::Always, What::Part(3, Slot::Whole), ""),
];

pub(crate) static ASSIGN_EXPR: [Piece; 3] = [
    (When::Always, What::Part(2, Slot::Whole), ""),
    (When::Always, What::Text(1), ""),
    (When::Always, What::Part(3, Slot::Whole), ""),
];

pub(crate) static MEMBER_EXPR: [Piece; 3] = [
    (When::Always, What::Part(1, Slot::Whole), ""),
    (When::IsNot(2, Kind::ComputedPropName), What::Mark, "."),
    (When::Always, What::Part(2, Slot::Whole), ""),
];

pub(crate) static MEMBER_EXPR_OPTIONAL: [Piece; 3] = [
    (When::Always, What::Part(1, Slot::Whole), ""),
    (When::Always, What::Mark, "?."),
    (When::Always, What::Part(2, Slot::Whole), ""),
];

pub(crate) static SUPER_PROP_EXPR: [Piece; 3] = [
    (When::Always, What::Mark, "super"),
    (When::IsNot(1, Kind::ComputedPropName), What::Mark, "."),
    (When::Always, What::Part(1, Slot::Whole), ""),
];

pub(crate) static COND_EXPR: [Piece; 5] = [
    (When::Always, What::Part(1, Slot::Whole), ""),
    (When::Always, What::Mark, "?"),
    (When::Always, What::Part(2, Slot::Whole), ""),
    (When::Always, What::Mark, ":"),
    (When::Always, What::Part(3, Slot::Whole), ""),
];

pub(crate) static CALL_EXPR: [Piece; 5] = [
    (When::Always, What::Part(2, Slot::Whole), ""),
    (When::Always, What::Part(4, Slot::Whole), ""),
    (When::Always, What::Mark, "("),
    (When::Always, What::Listed(3), ","),
    (When::Always, What::Mark, ")"),
];

pub(crate) static NEW_EXPR: [Piece; 6] = [
    (When::Always, What::Mark, "new"),
    (When::Always, What::Part(2, Slot::Whole), ""),
    (When::Always, What::Part(4, Slot::Whole), ""),
    (When::There(3), What::Mark, "("),
    (When::There(3), What::Listed(3), ","),
    (When::There(3), What::Mark, ")"),
];

pub(crate) static SEQ_EXPR: [Piece; 1] = [(When::Always, What::Joined(1), ",")];

pub(crate) static TPL: [Piece; 1] = [(When::Always, What::Template(2, 1), "")];

pub(crate) static TPL_ELEMENT: [Piece; 1] = [(When::Always, What::Quasi(3), "")];

pub(crate) static TAGGED_TPL: [Piece; 3] = [
    (When::Always, What::Part(2, Slot::Whole), ""),
    (When::Always, What::Part(3, Slot::Whole), ""),
    (When::Always, What::Part(4, Slot::Whole), ""),
];

pub(crate) static ARROW_EXPR: [Piece; 7] = [
    (When::Has(4), What::Mark, "async"),
    (When::Always, What::Part(6, Slot::Whole), ""),
    (When::Always, What::Arrow(2, 7), ""),
    (When::There(7), What::Mark, ":"),
    (When::Always, What::Part(7, Slot::Whole), ""),
    (When::Always, What::Mark, "=>"),
    (When::Always, What::Part(3, Slot::Whole), ""),
];

pub(crate) static CLASS_EXPR: [Piece; 5] = [
    (When::Always, What::Part(1, Slot::Decorators), ""),
    (When::Always, What::Part(1, Slot::Modifiers), ""),
    (When::Always, What::Mark, "class"),
    (When::Always, What::Part(0, Slot::Whole), ""),
    (When::Always, What::Part(1, Slot::Whole), ""),
];

pub(crate) static CLASS_EXPR_DECORATORS: [Piece; 1] = [(
    When::Always,
    What::Part(1, Slot::Decorators),
    "",
)];

pub(crate) static CLASS_EXPR_BARE: [Piece; 4] = [
    (When::Always, What::Part(1, Slot::Modifiers), ""),
    (When::Always, What::Mark, "class"),
    (When::Always, What::Part(0, Slot::Whole), ""),
    (When::Always, What::Part(1, Slot::Whole), ""),
];

pub(crate) static YIELD_EXPR: [Piece; 3] = [
    (When::Always, What::Mark, "yield"),
    (When::Has(2), What::Mark, "*"),
    (When::Always, What::Part(1, Slot::Whole), ""),
];

pub(crate) static META_PROP_EXPR: [Piece; 6] = [
    (When::Reads(1, Phrase::NewTarget), What::Mark, "new"),
    (When::Reads(1, Phrase::NewTarget), What::Mark, "."),
    (When::Reads(1, Phrase::NewTarget), What::Mark, "target"),
    (When::Reads(1, Phrase::ImportMeta), What::Mark, "import"),
    (When::Reads(1, Phrase::ImportMeta), What::Mark, "."),
    (When::Reads(1, Phrase::ImportMeta), What::Mark, "meta"),
];

pub(crate) static AWAIT_EXPR: [Piece; 2] = [
    (When::Always, What::Mark, "await"),
    (When::Always, What::Part(1, Slot::Whole), ""),
];

pub(crate) static PAREN_EXPR: [Piece; 3] = [
    (When::Always, What::Mark, "("),
    (When::Always, What::Part(1, Slot::Whole), ""),
    (When::Always, What::Mark, ")"),
];

pub(crate) static JSX_MEMBER: [Piece; 1] = [(When::Always, What::Raw(1), "")];

pub(crate) static JSX_NAMESPACED_NAME: [Piece; 1] = [(When::Always, What::Raw(1), "")];

pub(crate) static JSX_EMPTY: [Piece; 1] = [(When::Always, What::Raw(1), "")];

pub(crate) static JSX_ELEMENT: [Piece; 1] = [(When::Always, What::Raw(1), "")];

pub(crate) static JSX_FRAGMENT: [Piece; 1] = [(When::Always, What::Raw(1), "")];

pub(crate) static TS_TYPE_ASSERTION: [Piece; 4] = [
    (When::Always, What::Mark, "<"),
    (When::Always, What::Part(2, Slot::Whole), ""),
    (When::Always, What::Mark, ">"),
    (When::Always, What::Part(1, Slot::Whole), ""),
];

pub(crate) static TS_AS_EXPR: [Piece; 3] = [
    (When::Always, What::Part(1, Slot::Whole), ""),
    (When::Always, What::Mark, "as"),
    (When::Always, What::Part(2, Slot::Whole), ""),
];

pub(crate) static TS_SATISFIES_EXPR: [Piece; 3] = [
    (When::Always, What::Part(1, Slot::Whole), ""),
    (When::Always, What::Mark, "satisfies"),
    (When::Always, What::Part(2, Slot::Whole), ""),
];

pub(crate) static TS_CONST_ASSERTION: [Piece; 7] = [
    (When::Starts(1), What::Part(1, Slot::Whole), ""),
    (When::Starts(1), What::Mark, "as"),
    (When::Starts(1), What::Mark, "const"),
    (When::Follows(1), What::Mark, "<"),
    (When::Follows(1), What::Mark, "const"),
    (When::Follows(1), What::Mark, ">"),
    (When::Follows(1), What::Part(1, Slot::Whole), ""),
];

pub(crate) static TS_NON_NULL_EXPR: [Piece; 2] = [
    (When::Always, What::Part(1, Slot::Whole), ""),
    (When::Always, What::Mark, "!"),
];

pub(crate) static TS_INSTANTIATION: [Piece; 2] = [
    (When::Always, What::Part(1, Slot::Whole), ""),
    (When::Always, What::Part(2, Slot::Whole), ""),
];

pub(crate) static OPT_CHAIN_EXPR: [Piece; 2] = [
    (When::Has(1), What::Part(2, Slot::Optional), ""),
    (When::Lacks(1), What::Part(2, Slot::Whole), ""),
];

pub(crate) static INVALID: [Piece; 1] = [(When::Always, What::Never, "")];

pub(crate) static OPT_CALL: [Piece; 5] = [
    (When::Always, What::Part(2, Slot::Whole), ""),
    (When::Always, What::Part(4, Slot::Whole), ""),
    (When::Always, What::Mark, "("),
    (When::Always, What::Listed(3), ","),
    (When::Always, What::Mark, ")"),
];

pub(crate) static OPT_CALL_OPTIONAL: [Piece; 6] = [
    (When::Always, What::Part(2, Slot::Whole), ""),
    (When::Always, What::Mark, "?."),
    (When::Always, What::Part(4, Slot::Whole), ""),
    (When::Always, What::Mark, "("),
    (When::Always, What::Listed(3), ","),
    (When::Always, What::Mark, ")"),
];

pub(crate) static EXPR_OR_SPREAD: [Piece; 2] = [
    (When::There(0), What::Mark, "..."),
    (When::Always, What::Part(1, Slot::Whole), ""),
];

pub(crate) static SPREAD_ELEMENT: [Piece; 2] = [
    (When::Always, What::Mark, "..."),
    (When::Always, What::Part(1, Slot::Whole), ""),
];

pub(crate) static KEY_VALUE_PROP: [Piece; 3] = [
    (When::Always, What::Part(0, Slot::Whole), ""),
    (When::Always, What::Mark, ":"),
    (When::Always, What::Part(1, Slot::Whole), ""),
];

pub(crate) static ASSIGN_PROP: [Piece; 3] = [
    (When::Always, What::Part(1, Slot::Whole), ""),
    (When::Always, What::Mark, "="),
    (When::Always, What::Part(2, Slot::Whole), ""),
];

pub(crate) static GETTER_PROP: [Piece; 8] = [
    (When::Always, What::Mark, "get"),
    (When::Always, What::Part(1, Slot::Whole), ""),
    (When::Always, What::Mark, "("),
    (When::Always, What::Mark, ")"),
    (When::There(2), What::Mark, ":"),
    (When::Always, What::Part(2, Slot::Whole), ""),
    (When::Has(3), What::Part(3, Slot::Whole), ""),
    (When::Lacks(3), What::Semicolon, ""),
];

pub(crate) static SETTER_PROP: [Piece; 8] = [
    (When::Always, What::Mark, "set"),
    (When::Always, What::Part(1, Slot::Whole), ""),
    (When::Always, What::Mark, "("),
    (When::Always, What::Part(2, Slot::Whole), ""),
    (When::Always, What::May, ","),
    (When::Always, What::Mark, ")"),
    (When::Has(3), What::Part(3, Slot::Whole), ""),
    (When::Lacks(3), What::Semicolon, ""),
];

pub(crate) static METHOD_PROP: [Piece; 4] = [
    (When::Always, What::Part(1, Slot::Async), ""),
    (When::Always, What::Part(1, Slot::Star), ""),
    (When::Always, What::Part(0, Slot::Whole), ""),
    (When::Always, What::Part(1, Slot::Whole), ""),
];

pub(crate) static COMPUTED_PROP_NAME: [Piece; 3] = [
    (When::Always, What::Mark, "["),
    (When::Always, What::Part(1, Slot::Whole), ""),
    (When::Always, What::Mark, "]"),
];

pub(crate) static SUPER: [Piece; 1] = [(When::Always, What::Mark, "super")];

pub(crate) static IMPORT: [Piece; 5] = [
    (When::Always, What::Mark, "import"),
    (When::Reads(1, Phrase::Defer), What::Mark, "."),
    (When::Reads(1, Phrase::Defer), What::Mark, "defer"),
    (When::Reads(1, Phrase::Source), What::Mark, "."),
    (When::Reads(1, Phrase::Source), What::Mark, "source"),
];

pub(crate) static ARRAY_PAT: [Piece; 6] = [
    (When::Always, What::Mark, "["),
    (When::Always, What::Holes(1), ""),
    (When::Always, What::Mark, "]"),
    (When::Has(2), What::Mark, "?"),
    (When::There(3), What::Mark, ":"),
    (When::Always, What::Part(3, Slot::Whole), ""),
];

pub(crate) static REST_PAT: [Piece; 4] = [
    (When::Always, What::Mark, "..."),
    (When::Always, What::Part(2, Slot::Whole), ""),
    (When::There(3), What::Mark, ":"),
    (When::Always, What::Part(3, Slot::Whole), ""),
];

pub(crate) static OBJECT_PAT: [Piece; 6] = [
    (When::Always, What::Mark, "{"),
    (When::Always, What::Listed(1), ","),
    (When::Always, What::Mark, "}"),
    (When::Has(2), What::Mark, "?"),
    (When::There(3), What::Mark, ":"),
    (When::Always, What::Part(3, Slot::Whole), ""),
];

pub(crate) static ASSIGN_PAT: [Piece; 3] = [
    (When::Always, What::Part(1, Slot::Whole), ""),
    (When::Always, What::Mark, "="),
    (When::Always, What::Part(2, Slot::Whole), ""),
];

pub(crate) static KEY_VALUE_PAT_PROP: [Piece; 3] = [
    (When::Always, What::Part(0, Slot::Whole), ""),
    (When::Always, What::Mark, ":"),
    (When::Always, What::Part(1, Slot::Whole), ""),
];

pub(crate) static ASSIGN_PAT_PROP: [Piece; 3] = [
    (When::Always, What::Part(1, Slot::Whole), ""),
    (When::Has(2), What::Mark, "="),
    (When::Has(2), What::Part(2, Slot::Whole), ""),
];

pub(crate) static TARGET_PAT: [Piece; 1] = [(When::Always, What::Part(0, Slot::Whole), "")];

pub(crate) static PAT_EXPR: [Piece; 1] = [(When::Always, What::Part(0, Slot::Whole), "")];
