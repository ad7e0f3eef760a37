//! What each form writes: the forms of programs.
// Written by forms/write.py from forms/forms.txt.
use crate::piece::{Phrase, Piece, Slot, What, When};

pub(crate) static IDENT: [Piece; 2] = [
    (When::Always, What::Name(2), ""),
    (When::Has(3), What::Mark, "?"),
];

pub(crate) static IDENT_NAME: [Piece; 1] = [(When::Always, What::Name(1), "")];

pub(crate) static BINDING_IDENT: [Piece; 3] = [
    (When::Always, What::Part(0, Slot::Whole), ""),
    (When::There(1), What::Mark, ":"),
    (When::Always, What::Part(1, Slot::Whole), ""),
];

pub(crate) static BINDING_IDENT_DEFINITE: [Piece; 4] = [
    (When::Always, What::Part(0, Slot::Whole), ""),
    (When::Always, What::Mark, "!"),
    (When::There(1), What::Mark, ":"),
    (When::Always, What::Part(1, Slot::Whole), ""),
];

pub(crate) static PRIVATE_NAME: [Piece; 1] = [(When::Always, What::Private(1), "")];

pub(crate) static STR: [Piece; 1] = [(When::Always, What::Raw(2), "")];

pub(crate) static BOOL: [Piece; 2] = [
    (When::Has(1), What::Mark, "true"),
    (When::Lacks(1), What::Mark, "false"),
];

pub(crate) static NULL: [Piece; 1] = [(When::Always, What::Mark, "null")];

pub(crate) static NUMBER: [Piece; 1] = [(When::Always, What::Number(1), "")];

pub(crate) static BIG_INT: [Piece; 1] = [(When::Always, What::Number(1), "")];

pub(crate) static REGEX: [Piece; 1] = [(When::Always, What::Regex(1, 2), "")];

pub(crate) static JSX_TEXT: [Piece; 1] = [(When::Always, What::Raw(1), "")];

pub(crate) static MODULE: [Piece; 1] = [(When::Always, What::Part(1, Slot::Whole), "")];

pub(crate) static SCRIPT: [Piece; 1] = [(When::Always, What::Part(1, Slot::Whole), "")];

pub(crate) static IMPORT_DECL: [Piece; 9] = [
    (When::Always, What::Mark, "import"),
    (When::Has(3), What::Mark, "type"),
    (When::Reads(5, Phrase::Defer), What::Mark, "defer"),
    (When::Reads(5, Phrase::Source), What::Mark, "source"),
    (When::Always, What::Clause(1), ""),
    (When::Always, What::Part(2, Slot::Whole), ""),
    (When::Has(4), What::Attributes, ""),
    (When::Has(4), What::Part(4, Slot::Whole), ""),
    (When::Always, What::Semicolon, ""),
];

pub(crate) static EXPORT_DECL: [Piece; 1] = [(When::Always, What::Exported(1), "")];

pub(crate) static NAMED_EXPORT: [Piece; 8] = [
    (When::Always, What::Mark, "export"),
    (When::Has(3), What::Mark, "type"),
    (When::Always, What::Names(1), ""),
    (When::Has(2), What::Mark, "from"),
    (When::Has(2), What::Part(2, Slot::Whole), ""),
    (When::Has(4), What::Attributes, ""),
    (When::Has(4), What::Part(4, Slot::Whole), ""),
    (When::Always, What::Semicolon, ""),
];

pub(crate) static EXPORT_DEFAULT_DECL: [Piece; 1] = [(When::Always, What::Exported(1), "default")];

pub(crate) static EXPORT_DEFAULT_EXPR: [Piece; 4] = [
    (When::Always, What::Mark, "export"),
    (When::Always, What::Mark, "default"),
    (When::Always, What::Part(1, Slot::Whole), ""),
    (When::Always, What::Semicolon, ""),
];

pub(crate) static EXPORT_ALL: [Piece; 8] = [
    (When::Always, What::Mark, "export"),
    (When::Has(2), What::Mark, "type"),
    (When::Always, What::Mark, "*"),
    (When::Always, What::Mark, "from"),
    (When::Always, What::Part(1, Slot::Whole), ""),
    (When::Has(3), What::Attributes, ""),
    (When::Has(3), What::Part(3, Slot::Whole), ""),
    (When::Always, What::Semicolon, ""),
];

pub(crate) static TS_IMPORT_EQUALS_DECL: [Piece; 7] = [
    (When::Has(1), What::Mark, "export"),
    (When::Always, What::Mark, "import"),
    (When::Has(2), What::Mark, "type"),
    (When::Always, What::Part(3, Slot::Whole), ""),
    (When::Always, What::Mark, "="),
    (When::Always, What::Part(4, Slot::Whole), ""),
    (When::Always, What::Semicolon, ""),
];

pub(crate) static TS_EXPORT_ASSIGNMENT: [Piece; 4] = [
    (When::Always, What::Mark, "export"),
    (When::Always, What::Mark, "="),
    (When::Always, What::Part(1, Slot::Whole), ""),
    (When::Always, What::Semicolon, ""),
];

pub(crate) static TS_NAMESPACE_EXPORT_DECL: [Piece; 5] = [
    (When::Always, What::Mark, "export"),
    (When::Always, What::Mark, "as"),
    (When::Always, What::Mark, "namespace"),
    (When::Always, What::Part(1, Slot::Whole), ""),
    (When::Always, What::Semicolon, ""),
];

pub(crate) static IMPORT_NAMED_SPECIFIER: [Piece; 4] = [
    (When::Has(3), What::Mark, "type"),
    (When::Has(2), What::Part(2, Slot::Whole), ""),
    (When::Has(2), What::Mark, "as"),
    (When::Always, What::Part(1, Slot::Whole), ""),
];

pub(crate) static IMPORT_DEFAULT_SPECIFIER: [Piece; 1] = [(
    When::Always,
    What::Part(1, Slot::Whole),
    "",
)];

pub(crate) static IMPORT_STAR_AS_SPECIFIER: [Piece; 3] = [
    (When::Always, What::Mark, "*"),
    (When::Always, What::Mark, "as"),
    (When::Always, What::Part(1, Slot::Whole), ""),
];

pub(crate) static EXPORT_NAMESPACE_SPECIFIER: [Piece; 3] = [
    (When::Always, What::Mark, "*"),
    (When::Always, What::Mark, "as"),
    (When::Always, What::Part(1, Slot::Whole), ""),
];

pub(crate) static EXPORT_DEFAULT_SPECIFIER: [Piece; 1] = [(
    When::Always,
    What::Part(0, Slot::Whole),
    "",
)];

pub(crate) static EXPORT_NAMED_SPECIFIER: [Piece; 4] = [
    (When::Has(3), What::Mark, "type"),
    (When::Always, What::Part(1, Slot::Whole), ""),
    (When::Has(2), What::Mark, "as"),
    (When::Has(2), What::Part(2, Slot::Whole), ""),
];

pub(crate) static TS_EXTERNAL_MODULE_REF: [Piece; 4] = [
    (When::Always, What::Mark, "require"),
    (When::Always, What::Mark, "("),
    (When::Always, What::Part(1, Slot::Whole), ""),
    (When::Always, What::Mark, ")"),
];
