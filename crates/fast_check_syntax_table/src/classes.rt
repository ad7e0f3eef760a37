//! What each form writes: the forms of classes.
// Written by forms/write.py from forms/forms.txt.
use crate::piece::{Piece, Slot, What, When};
use fast_check_tree_syntax::Word;

pub(crate) static FUNCTION: [Piece; 8] = [
    (When::Always, What::Part(7, Slot::Whole), ""),
    (When::Always, What::Mark, "("),
    (When::Always, What::Listed(1), ","),
    (When::Always, What::Mark, ")"),
    (When::There(8), What::Mark, ":"),
    (When::Always, What::Part(8, Slot::Whole), ""),
    (When::Has(4), What::Part(4, Slot::Whole), ""),
    (When::Lacks(4), What::Semicolon, ""),
];

pub(crate) static FUNCTION_ASYNC: [Piece; 1] = [(When::Has(6), What::Mark, "async")];

pub(crate) static FUNCTION_STAR: [Piece; 1] = [(When::Has(5), What::Mark, "*")];

pub(crate) static FUNCTION_DECORATORS: [Piece; 1] = [(
    When::Always,
    What::Part(2, Slot::Whole),
    "",
)];

pub(crate) static PARAM: [Piece; 2] = [
    (When::Always, What::Part(1, Slot::Whole), ""),
    (When::Always, What::Part(2, Slot::Whole), ""),
];

pub(crate) static CLASS: [Piece; 9] = [
    (When::Always, What::Part(6, Slot::Whole), ""),
    (When::Has(4), What::Mark, "extends"),
    (When::Has(4), What::Part(4, Slot::Whole), ""),
    (When::Has(4), What::Part(7, Slot::Whole), ""),
    (When::Has(8), What::Mark, "implements"),
    (When::Has(8), What::Joined(8), ","),
    (When::Always, What::Mark, "{"),
    (When::Always, What::Part(3, Slot::Member), ""),
    (When::Always, What::Mark, "}"),
];

pub(crate) static CLASS_DECORATORS: [Piece; 1] = [(When::Always, What::Part(2, Slot::Whole), "")];

pub(crate) static CLASS_MODIFIERS: [Piece; 1] = [(When::Has(5), What::Mark, "abstract")];

pub(crate) static DECORATOR: [Piece; 2] = [
    (When::Always, What::Mark, "@"),
    (When::Always, What::Part(1, Slot::Whole), ""),
];

pub(crate) static CONSTRUCTOR: [Piece; 9] = [
    (When::Says(5, Word::Public), What::Mark, "public"),
    (When::Says(5, Word::Protected), What::Mark, "protected"),
    (When::Says(5, Word::Private), What::Mark, "private"),
    (When::Always, What::Part(2, Slot::Whole), ""),
    (When::Always, What::Mark, "("),
    (When::Always, What::Listed(3), ","),
    (When::Always, What::Mark, ")"),
    (When::Has(4), What::Part(4, Slot::Whole), ""),
    (When::Lacks(4), What::Semicolon, ""),
];

pub(crate) static CLASS_METHOD: [Piece; 14] = [
    (When::Always, What::Part(2, Slot::Decorators), ""),
    (When::Says(5, Word::Public), What::Mark, "public"),
    (When::Says(5, Word::Protected), What::Mark, "protected"),
    (When::Says(5, Word::Private), What::Mark, "private"),
    (When::Has(4), What::Mark, "static"),
    (When::Has(6), What::Mark, "abstract"),
    (When::Has(8), What::Mark, "override"),
    (When::Always, What::Part(2, Slot::Async), ""),
    (When::Says(3, Word::Getter), What::Mark, "get"),
    (When::Says(3, Word::Setter), What::Mark, "set"),
    (When::Always, What::Part(2, Slot::Star), ""),
    (When::Always, What::Part(1, Slot::Whole), ""),
    (When::Has(7), What::Mark, "?"),
    (When::Always, What::Part(2, Slot::Whole), ""),
];

pub(crate) static PRIVATE_METHOD: [Piece; 14] = [
    (When::Always, What::Part(2, Slot::Decorators), ""),
    (When::Says(5, Word::Public), What::Mark, "public"),
    (When::Says(5, Word::Protected), What::Mark, "protected"),
    (When::Says(5, Word::Private), What::Mark, "private"),
    (When::Has(4), What::Mark, "static"),
    (When::Has(6), What::Mark, "abstract"),
    (When::Has(8), What::Mark, "override"),
    (When::Always, What::Part(2, Slot::Async), ""),
    (When::Says(3, Word::Getter), What::Mark, "get"),
    (When::Says(3, Word::Setter), What::Mark, "set"),
    (When::Always, What::Part(2, Slot::Star), ""),
    (When::Always, What::Part(1, Slot::Whole), ""),
    (When::Has(7), What::Mark, "?"),
    (When::Always, What::Part(2, Slot::Whole), ""),
];

pub(crate) static CLASS_PROP: [Piece; 17] = [
    (When::Always, What::Part(5, Slot::Whole), ""),
    (When::Has(11), What::Mark, "declare"),
    (When::Says(6, Word::Public), What::Mark, "public"),
    (When::Says(6, Word::Protected), What::Mark, "protected"),
    (When::Says(6, Word::Private), What::Mark, "private"),
    (When::Has(4), What::Mark, "static"),
    (When::Has(7), What::Mark, "abstract"),
    (When::Has(9), What::Mark, "override"),
    (When::Has(10), What::Mark, "readonly"),
    (When::Always, What::Part(1, Slot::Whole), ""),
    (When::Has(8), What::Mark, "?"),
    (When::Has(12), What::Mark, "!"),
    (When::There(3), What::Mark, ":"),
    (When::Always, What::Part(3, Slot::Whole), ""),
    (When::Has(2), What::Mark, "="),
    (When::Has(2), What::Part(2, Slot::Whole), ""),
    (When::Always, What::Semicolon, ""),
];

pub(crate) static PRIVATE_PROP: [Piece; 15] = [
    (When::Always, What::Part(6, Slot::Whole), ""),
    (When::Says(7, Word::Public), What::Mark, "public"),
    (When::Says(7, Word::Protected), What::Mark, "protected"),
    (When::Says(7, Word::Private), What::Mark, "private"),
    (When::Has(5), What::Mark, "static"),
    (When::Has(9), What::Mark, "override"),
    (When::Has(10), What::Mark, "readonly"),
    (When::Always, What::Part(2, Slot::Whole), ""),
    (When::Has(8), What::Mark, "?"),
    (When::Has(11), What::Mark, "!"),
    (When::There(4), What::Mark, ":"),
    (When::Always, What::Part(4, Slot::Whole), ""),
    (When::Has(3), What::Mark, "="),
    (When::Has(3), What::Part(3, Slot::Whole), ""),
    (When::Always, What::Semicolon, ""),
];

pub(crate) static TS_INDEX_SIGNATURE: [Piece; 7] = [
    (When::Has(4), What::Mark, "static"),
    (When::Has(3), What::Mark, "readonly"),
    (When::Always, What::Mark, "["),
    (When::Always, What::Listed(1), ","),
    (When::Always, What::Mark, "]"),
    (When::There(2), What::Mark, ":"),
    (When::Always, What::Part(2, Slot::Whole), ""),
];

pub(crate) static TS_INDEX_SIGNATURE_MEMBER: [Piece; 8] = [
    (When::Has(4), What::Mark, "static"),
    (When::Has(3), What::Mark, "readonly"),
    (When::Always, What::Mark, "["),
    (When::Always, What::Listed(1), ","),
    (When::Always, What::Mark, "]"),
    (When::There(2), What::Mark, ":"),
    (When::Always, What::Part(2, Slot::Whole), ""),
    (When::Always, What::Semicolon, ""),
];

pub(crate) static STATIC_BLOCK: [Piece; 2] = [
    (When::Always, What::Mark, "static"),
    (When::Always, What::Part(1, Slot::Whole), ""),
];

pub(crate) static AUTO_ACCESSOR: [Piece; 15] = [
    (When::Always, What::Part(5, Slot::Whole), ""),
    (When::Says(6, Word::Public), What::Mark, "public"),
    (When::Says(6, Word::Protected), What::Mark, "protected"),
    (When::Says(6, Word::Private), What::Mark, "private"),
    (When::Has(4), What::Mark, "static"),
    (When::Has(7), What::Mark, "abstract"),
    (When::Has(8), What::Mark, "override"),
    (When::Always, What::Mark, "accessor"),
    (When::Always, What::Part(1, Slot::Whole), ""),
    (When::Has(9), What::Mark, "!"),
    (When::There(3), What::Mark, ":"),
    (When::Always, What::Part(3, Slot::Whole), ""),
    (When::Has(2), What::Mark, "="),
    (When::Has(2), What::Part(2, Slot::Whole), ""),
    (When::Always, What::Semicolon, ""),
];

pub(crate) static TS_PARAM_PROP: [Piece; 7] = [
    (When::Always, What::Part(1, Slot::Whole), ""),
    (When::Says(2, Word::Public), What::Mark, "public"),
    (When::Says(2, Word::Protected), What::Mark, "protected"),
    (When::Says(2, Word::Private), What::Mark, "private"),
    (When::Has(3), What::Mark, "override"),
    (When::Has(4), What::Mark, "readonly"),
    (When::Always, What::Part(5, Slot::Whole), ""),
];
