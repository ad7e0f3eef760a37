//! What each form writes: the forms of types.
// Written by forms/write.py from forms/forms.txt.
use crate::piece::{Phrase, Piece, Slot, What, When};
use fast_check_tree_syntax::Word;

pub(crate) static TS_KEYWORD_TYPE: [Piece; 15] = [
    (When::Always, What::May, "|"),
    (When::Always, What::May, "&"),
    (When::Says(1, Word::TsAnyKeyword), What::Mark, "any"),
    (When::Says(1, Word::TsUnknownKeyword), What::Mark, "unknown"),
    (When::Says(1, Word::TsNumberKeyword), What::Mark, "number"),
    (When::Says(1, Word::TsObjectKeyword), What::Mark, "object"),
    (When::Says(1, Word::TsBooleanKeyword), What::Mark, "boolean"),
    (When::Says(1, Word::TsBigIntKeyword), What::Mark, "bigint"),
    (When::Says(1, Word::TsStringKeyword), What::Mark, "string"),
    (When::Says(1, Word::TsSymbolKeyword), What::Mark, "symbol"),
    (When::Says(1, Word::TsVoidKeyword), What::Mark, "void"),
    (
        When::Says(1, Word::TsUndefinedKeyword),
        What::Mark,
        "undefined",
    ),
    (When::Says(1, Word::TsNullKeyword), What::Mark, "null"),
    (When::Says(1, Word::TsNeverKeyword), What::Mark, "never"),
    (
        When::Says(1, Word::TsIntrinsicKeyword),
        What::Mark,
        "intrinsic",
    ),
];

pub(crate) static TS_THIS_TYPE: [Piece; 3] = [
    (When::Always, What::May, "|"),
    (When::Always, What::May, "&"),
    (When::Always, What::Mark, "this"),
];

pub(crate) static TS_FN_TYPE: [Piece; 8] = [
    (When::Always, What::May, "|"),
    (When::Always, What::May, "&"),
    (When::Always, What::Part(2, Slot::Whole), ""),
    (When::Always, What::Mark, "("),
    (When::Always, What::Listed(1), ","),
    (When::Always, What::Mark, ")"),
    (When::Always, What::Mark, "=>"),
    (When::Always, What::Part(3, Slot::Whole), ""),
];

pub(crate) static TS_CONSTRUCTOR_TYPE: [Piece; 10] = [
    (When::Always, What::May, "|"),
    (When::Always, What::May, "&"),
    (When::Has(4), What::Mark, "abstract"),
    (When::Always, What::Mark, "new"),
    (When::Always, What::Part(2, Slot::Whole), ""),
    (When::Always, What::Mark, "("),
    (When::Always, What::Listed(1), ","),
    (When::Always, What::Mark, ")"),
    (When::Always, What::Mark, "=>"),
    (When::Always, What::Part(3, Slot::Whole), ""),
];

pub(crate) static TS_TYPE_REF: [Piece; 4] = [
    (When::Always, What::May, "|"),
    (When::Always, What::May, "&"),
    (When::Always, What::Part(1, Slot::Whole), ""),
    (When::Always, What::Part(2, Slot::Whole), ""),
];

pub(crate) static TS_TYPE_QUERY: [Piece; 5] = [
    (When::Always, What::May, "|"),
    (When::Always, What::May, "&"),
    (When::Always, What::Mark, "typeof"),
    (When::Always, What::Part(1, Slot::Whole), ""),
    (When::Always, What::Part(2, Slot::Whole), ""),
];

pub(crate) static TS_TYPE_LIT: [Piece; 5] = [
    (When::Always, What::May, "|"),
    (When::Always, What::May, "&"),
    (When::Always, What::Mark, "{"),
    (When::Always, What::Members(1), ""),
    (When::Always, What::Mark, "}"),
];

pub(crate) static TS_ARRAY_TYPE: [Piece; 5] = [
    (When::Always, What::May, "|"),
    (When::Always, What::May, "&"),
    (When::Always, What::Part(1, Slot::Whole), ""),
    (When::Always, What::Mark, "["),
    (When::Always, What::Mark, "]"),
];

pub(crate) static TS_TUPLE_TYPE: [Piece; 5] = [
    (When::Always, What::May, "|"),
    (When::Always, What::May, "&"),
    (When::Always, What::Mark, "["),
    (When::Always, What::Listed(1), ","),
    (When::Always, What::Mark, "]"),
];

pub(crate) static TS_TUPLE_ELEMENT: [Piece; 3] = [
    (When::Has(1), What::Part(1, Slot::Whole), ""),
    (When::Has(1), What::Mark, ":"),
    (When::Always, What::Part(2, Slot::Whole), ""),
];

pub(crate) static TS_OPTIONAL_TYPE: [Piece; 2] = [
    (When::Always, What::Part(1, Slot::Whole), ""),
    (When::Always, What::Mark, "?"),
];

pub(crate) static TS_REST_TYPE: [Piece; 2] = [
    (When::Always, What::Mark, "..."),
    (When::Always, What::Part(1, Slot::Whole), ""),
];

pub(crate) static TS_PARENTHESIZED_TYPE: [Piece; 5] = [
    (When::Always, What::May, "|"),
    (When::Always, What::May, "&"),
    (When::Always, What::Mark, "("),
    (When::Always, What::Part(1, Slot::Whole), ""),
    (When::Always, What::Mark, ")"),
];

pub(crate) static TS_UNION_TYPE: [Piece; 3] = [
    (When::Always, What::May, "|"),
    (When::Always, What::May, "&"),
    (When::Always, What::Joined(1), "|"),
];

pub(crate) static TS_INTERSECTION_TYPE: [Piece; 3] = [
    (When::Always, What::May, "|"),
    (When::Always, What::May, "&"),
    (When::Always, What::Joined(1), "&"),
];

pub(crate) static TS_CONDITIONAL_TYPE: [Piece; 9] = [
    (When::Always, What::May, "|"),
    (When::Always, What::May, "&"),
    (When::Always, What::Part(1, Slot::Whole), ""),
    (When::Always, What::Mark, "extends"),
    (When::Always, What::Part(2, Slot::Whole), ""),
    (When::Always, What::Mark, "?"),
    (When::Always, What::Part(3, Slot::Whole), ""),
    (When::Always, What::Mark, ":"),
    (When::Always, What::Part(4, Slot::Whole), ""),
];

pub(crate) static TS_INFER_TYPE: [Piece; 4] = [
    (When::Always, What::May, "|"),
    (When::Always, What::May, "&"),
    (When::Always, What::Mark, "infer"),
    (When::Always, What::Part(1, Slot::Whole), ""),
];

pub(crate) static TS_TYPE_OPERATOR: [Piece; 6] = [
    (When::Always, What::May, "|"),
    (When::Always, What::May, "&"),
    (When::Says(1, Word::KeyOf), What::Mark, "keyof"),
    (When::Says(1, Word::Unique), What::Mark, "unique"),
    (When::Says(1, Word::ReadOnly), What::Mark, "readonly"),
    (When::Always, What::Part(2, Slot::Whole), ""),
];

pub(crate) static TS_INDEXED_ACCESS_TYPE: [Piece; 6] = [
    (When::Always, What::May, "|"),
    (When::Always, What::May, "&"),
    (When::Always, What::Part(2, Slot::Whole), ""),
    (When::Always, What::Mark, "["),
    (When::Always, What::Part(3, Slot::Whole), ""),
    (When::Always, What::Mark, "]"),
];

pub(crate) static TS_MAPPED_TYPE: [Piece; 18] = [
    (When::Always, What::May, "|"),
    (When::Always, What::May, "&"),
    (When::Always, What::Mark, "{"),
    (When::Reads(1, Phrase::Plus), What::Mark, "+"),
    (When::Reads(1, Phrase::Minus), What::Mark, "-"),
    (When::Has(1), What::Mark, "readonly"),
    (When::Always, What::Mark, "["),
    (When::Always, What::Part(2, Slot::In), ""),
    (When::Has(3), What::Mark, "as"),
    (When::Has(3), What::Part(3, Slot::Whole), ""),
    (When::Always, What::Mark, "]"),
    (When::Reads(4, Phrase::Plus), What::Mark, "+"),
    (When::Reads(4, Phrase::Minus), What::Mark, "-"),
    (When::Has(4), What::Mark, "?"),
    (When::There(5), What::Mark, ":"),
    (When::Always, What::Part(5, Slot::Whole), ""),
    (When::Always, What::Semicolon, ""),
    (When::Always, What::Mark, "}"),
];

pub(crate) static TS_LIT_TYPE: [Piece; 3] = [
    (When::Always, What::May, "|"),
    (When::Always, What::May, "&"),
    (When::Always, What::Part(1, Slot::Whole), ""),
];

pub(crate) static TS_TPL_LIT_TYPE: [Piece; 1] = [(When::Always, What::Template(2, 1), "")];

pub(crate) static TS_TYPE_PREDICATE: [Piece; 4] = [
    (When::Has(1), What::Mark, "asserts"),
    (When::Always, What::Part(2, Slot::Whole), ""),
    (When::Has(3), What::Mark, "is"),
    (When::Has(3), What::Part(3, Slot::Whole), ""),
];

pub(crate) static TS_IMPORT_TYPE: [Piece; 9] = [
    (When::Always, What::May, "|"),
    (When::Always, What::May, "&"),
    (When::Always, What::Mark, "import"),
    (When::Always, What::Mark, "("),
    (When::Always, What::Part(1, Slot::Whole), ""),
    (When::Always, What::Mark, ")"),
    (When::Has(2), What::Mark, "."),
    (When::Has(2), What::Part(2, Slot::Whole), ""),
    (When::Always, What::Part(3, Slot::Whole), ""),
];

pub(crate) static TS_QUALIFIED_NAME: [Piece; 3] = [
    (When::Always, What::Part(1, Slot::Whole), ""),
    (When::Always, What::Mark, "."),
    (When::Always, What::Part(2, Slot::Whole), ""),
];

pub(crate) static TS_CALL_SIGNATURE_DECL: [Piece; 6] = [
    (When::Always, What::Part(3, Slot::Whole), ""),
    (When::Always, What::Mark, "("),
    (When::Always, What::Listed(1), ","),
    (When::Always, What::Mark, ")"),
    (When::There(2), What::Mark, ":"),
    (When::Always, What::Part(2, Slot::Whole), ""),
];

pub(crate) static TS_CONSTRUCT_SIGNATURE_DECL: [Piece; 7] = [
    (When::Always, What::Mark, "new"),
    (When::Always, What::Part(3, Slot::Whole), ""),
    (When::Always, What::Mark, "("),
    (When::Always, What::Listed(1), ","),
    (When::Always, What::Mark, ")"),
    (When::There(2), What::Mark, ":"),
    (When::Always, What::Part(2, Slot::Whole), ""),
];

pub(crate) static TS_PROPERTY_SIGNATURE: [Piece; 8] = [
    (When::Has(3), What::Mark, "readonly"),
    (When::Has(2), What::Mark, "["),
    (When::Has(2), What::Part(1, Slot::Whole), ""),
    (When::Has(2), What::Mark, "]"),
    (When::Lacks(2), What::Part(1, Slot::Whole), ""),
    (When::Has(4), What::Mark, "?"),
    (When::There(5), What::Mark, ":"),
    (When::Always, What::Part(5, Slot::Whole), ""),
];

pub(crate) static TS_GETTER_SIGNATURE: [Piece; 9] = [
    (When::Always, What::Mark, "get"),
    (When::Has(2), What::Mark, "["),
    (When::Has(2), What::Part(1, Slot::Whole), ""),
    (When::Has(2), What::Mark, "]"),
    (When::Lacks(2), What::Part(1, Slot::Whole), ""),
    (When::Always, What::Mark, "("),
    (When::Always, What::Mark, ")"),
    (When::There(3), What::Mark, ":"),
    (When::Always, What::Part(3, Slot::Whole), ""),
];

pub(crate) static TS_SETTER_SIGNATURE: [Piece; 8] = [
    (When::Always, What::Mark, "set"),
    (When::Has(2), What::Mark, "["),
    (When::Has(2), What::Part(1, Slot::Whole), ""),
    (When::Has(2), What::Mark, "]"),
    (When::Lacks(2), What::Part(1, Slot::Whole), ""),
    (When::Always, What::Mark, "("),
    (When::Always, What::Listed(3), ","),
    (When::Always, What::Mark, ")"),
];

pub(crate) static TS_METHOD_SIGNATURE: [Piece; 11] = [
    (When::Has(2), What::Mark, "["),
    (When::Has(2), What::Part(1, Slot::Whole), ""),
    (When::Has(2), What::Mark, "]"),
    (When::Lacks(2), What::Part(1, Slot::Whole), ""),
    (When::Has(3), What::Mark, "?"),
    (When::Always, What::Part(6, Slot::Whole), ""),
    (When::Always, What::Mark, "("),
    (When::Always, What::Listed(4), ","),
    (When::Always, What::Mark, ")"),
    (When::There(5), What::Mark, ":"),
    (When::Always, What::Part(5, Slot::Whole), ""),
];

pub(crate) static TS_TYPE_PARAM: [Piece; 8] = [
    (When::Has(4), What::Mark, "const"),
    (When::Has(2), What::Mark, "in"),
    (When::Has(3), What::Mark, "out"),
    (When::Always, What::Part(1, Slot::Whole), ""),
    (When::Has(5), What::Mark, "extends"),
    (When::Has(5), What::Part(5, Slot::Whole), ""),
    (When::Has(6), What::Mark, "="),
    (When::Has(6), What::Part(6, Slot::Whole), ""),
];

pub(crate) static TS_TYPE_PARAM_IN: [Piece; 3] = [
    (When::Always, What::Part(1, Slot::Whole), ""),
    (When::Always, What::Mark, "in"),
    (When::Always, What::Part(5, Slot::Whole), ""),
];

pub(crate) static TS_TYPE_PARAM_DECL: [Piece; 3] = [
    (When::Always, What::Mark, "<"),
    (When::Always, What::Listed(1), ","),
    (When::Always, What::Mark, ">"),
];

pub(crate) static TS_TYPE_PARAM_INSTANTIATION: [Piece; 3] = [
    (When::Always, What::Mark, "<"),
    (When::Always, What::Listed(1), ","),
    (When::Always, What::Mark, ">"),
];

pub(crate) static TS_TYPE_ANN: [Piece; 1] = [(When::Always, What::Part(1, Slot::Whole), "")];
