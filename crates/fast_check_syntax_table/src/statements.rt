//! What each form writes: the forms of statements.
// Written by forms/write.py from forms/forms.txt.
use crate::piece::{Piece, Slot, What, When};
use fast_check_tree_syntax::Word;

pub(crate) static BLOCK_STMT: [Piece; 3] = [
    (When::Always, What::Mark, "{"),
    (When::Always, What::Part(2, Slot::Whole), ""),
    (When::Always, What::Mark, "}"),
];

pub(crate) static EMPTY_STMT: [Piece; 1] = [(When::Always, What::Mark, ";")];

pub(crate) static DEBUGGER_STMT: [Piece; 2] = [
    (When::Always, What::Mark, "debugger"),
    (When::Always, What::Semicolon, ""),
];

pub(crate) static WITH_STMT: [Piece; 5] = [
    (When::Always, What::Mark, "with"),
    (When::Always, What::Mark, "("),
    (When::Always, What::Part(1, Slot::Whole), ""),
    (When::Always, What::Mark, ")"),
    (When::Always, What::Part(2, Slot::Whole), ""),
];

pub(crate) static RETURN_STMT: [Piece; 3] = [
    (When::Always, What::Mark, "return"),
    (When::Always, What::Part(1, Slot::Whole), ""),
    (When::Always, What::Semicolon, ""),
];

pub(crate) static LABELED_STMT: [Piece; 3] = [
    (When::Always, What::Part(1, Slot::Whole), ""),
    (When::Always, What::Mark, ":"),
    (When::Always, What::Part(2, Slot::Whole), ""),
];

pub(crate) static BREAK_STMT: [Piece; 3] = [
    (When::Always, What::Mark, "break"),
    (When::Always, What::Part(1, Slot::Whole), ""),
    (When::Always, What::Semicolon, ""),
];

pub(crate) static CONTINUE_STMT: [Piece; 3] = [
    (When::Always, What::Mark, "continue"),
    (When::Always, What::Part(1, Slot::Whole), ""),
    (When::Always, What::Semicolon, ""),
];

pub(crate) static IF_STMT: [Piece; 7] = [
    (When::Always, What::Mark, "if"),
    (When::Always, What::Mark, "("),
    (When::Always, What::Part(1, Slot::Whole), ""),
    (When::Always, What::Mark, ")"),
    (When::Always, What::Part(2, Slot::Whole), ""),
    (When::Has(3), What::Mark, "else"),
    (When::Has(3), What::Part(3, Slot::Whole), ""),
];

pub(crate) static SWITCH_STMT: [Piece; 7] = [
    (When::Always, What::Mark, "switch"),
    (When::Always, What::Mark, "("),
    (When::Always, What::Part(1, Slot::Whole), ""),
    (When::Always, What::Mark, ")"),
    (When::Always, What::Mark, "{"),
    (When::Always, What::Part(2, Slot::Whole), ""),
    (When::Always, What::Mark, "}"),
];

pub(crate) static SWITCH_CASE: [Piece; 6] = [
    (When::Has(1), What::Mark, "case"),
    (When::Has(1), What::Part(1, Slot::Whole), ""),
    (When::Has(1), What::Mark, ":"),
    (When::Lacks(1), What::Mark, "default"),
    (When::Lacks(1), What::Mark, ":"),
    (When::Always, What::Part(2, Slot::Whole), ""),
];

pub(crate) static THROW_STMT: [Piece; 3] = [
    (When::Always, What::Mark, "throw"),
    (When::Always, What::Part(1, Slot::Whole), ""),
    (When::Always, What::Semicolon, ""),
];

pub(crate) static TRY_STMT: [Piece; 5] = [
    (When::Always, What::Mark, "try"),
    (When::Always, What::Part(1, Slot::Whole), ""),
    (When::Always, What::Part(2, Slot::Whole), ""),
    (When::Has(3), What::Mark, "finally"),
    (When::Has(3), What::Part(3, Slot::Whole), ""),
];

pub(crate) static CATCH_CLAUSE: [Piece; 5] = [
    (When::Always, What::Mark, "catch"),
    (When::Has(1), What::Mark, "("),
    (When::Has(1), What::Part(1, Slot::Whole), ""),
    (When::Has(1), What::Mark, ")"),
    (When::Always, What::Part(2, Slot::Whole), ""),
];

pub(crate) static WHILE_STMT: [Piece; 5] = [
    (When::Always, What::Mark, "while"),
    (When::Always, What::Mark, "("),
    (When::Always, What::Part(1, Slot::Whole), ""),
    (When::Always, What::Mark, ")"),
    (When::Always, What::Part(2, Slot::Whole), ""),
];

pub(crate) static DO_WHILE_STMT: [Piece; 7] = [
    (When::Always, What::Mark, "do"),
    (When::Always, What::Part(2, Slot::Whole), ""),
    (When::Always, What::Mark, "while"),
    (When::Always, What::Mark, "("),
    (When::Always, What::Part(1, Slot::Whole), ""),
    (When::Always, What::Mark, ")"),
    (When::Always, What::May, ";"),
];

pub(crate) static FOR_STMT: [Piece; 9] = [
    (When::Always, What::Mark, "for"),
    (When::Always, What::Mark, "("),
    (When::Always, What::Part(1, Slot::Head), ""),
    (When::Always, What::Mark, ";"),
    (When::Always, What::Part(2, Slot::Whole), ""),
    (When::Always, What::Mark, ";"),
    (When::Always, What::Part(3, Slot::Whole), ""),
    (When::Always, What::Mark, ")"),
    (When::Always, What::Part(4, Slot::Whole), ""),
];

pub(crate) static FOR_IN_STMT: [Piece; 7] = [
    (When::Always, What::Mark, "for"),
    (When::Always, What::Mark, "("),
    (When::Always, What::Part(1, Slot::Head), ""),
    (When::Always, What::Mark, "in"),
    (When::Always, What::Part(2, Slot::Whole), ""),
    (When::Always, What::Mark, ")"),
    (When::Always, What::Part(3, Slot::Whole), ""),
];

pub(crate) static FOR_OF_STMT: [Piece; 8] = [
    (When::Always, What::Mark, "for"),
    (When::Has(1), What::Mark, "await"),
    (When::Always, What::Mark, "("),
    (When::Always, What::Part(2, Slot::Head), ""),
    (When::Always, What::Mark, "of"),
    (When::Always, What::Part(3, Slot::Whole), ""),
    (When::Always, What::Mark, ")"),
    (When::Always, What::Part(4, Slot::Whole), ""),
];

pub(crate) static EXPR_STMT: [Piece; 2] = [
    (When::Always, What::Part(1, Slot::Whole), ""),
    (When::Always, What::Semicolon, ""),
];

pub(crate) static CLASS_DECL: [Piece; 6] = [
    (When::Always, What::Part(2, Slot::Decorators), ""),
    (When::Has(1), What::Mark, "declare"),
    (When::Always, What::Part(2, Slot::Modifiers), ""),
    (When::Always, What::Mark, "class"),
    (When::Always, What::Part(0, Slot::Whole), ""),
    (When::Always, What::Part(2, Slot::Whole), ""),
];

pub(crate) static CLASS_DECL_DECORATORS: [Piece; 1] = [(
    When::Always,
    What::Part(2, Slot::Decorators),
    "",
)];

pub(crate) static CLASS_DECL_BARE: [Piece; 5] = [
    (When::Has(1), What::Mark, "declare"),
    (When::Always, What::Part(2, Slot::Modifiers), ""),
    (When::Always, What::Mark, "class"),
    (When::Always, What::Part(0, Slot::Whole), ""),
    (When::Always, What::Part(2, Slot::Whole), ""),
];

pub(crate) static FN_DECL: [Piece; 6] = [
    (When::Has(1), What::Mark, "declare"),
    (When::Always, What::Part(2, Slot::Async), ""),
    (When::Always, What::Mark, "function"),
    (When::Always, What::Part(2, Slot::Star), ""),
    (When::Always, What::Part(0, Slot::Whole), ""),
    (When::Always, What::Part(2, Slot::Whole), ""),
];

pub(crate) static VAR_DECL: [Piece; 6] = [
    (When::Has(3), What::Mark, "declare"),
    (When::Says(2, Word::Var), What::Mark, "var"),
    (When::Says(2, Word::Let), What::Mark, "let"),
    (When::Says(2, Word::Const), What::Mark, "const"),
    (When::Always, What::Joined(4), ","),
    (When::Always, What::Semicolon, ""),
];

pub(crate) static VAR_DECL_HEAD: [Piece; 4] = [
    (When::Says(2, Word::Var), What::Mark, "var"),
    (When::Says(2, Word::Let), What::Mark, "let"),
    (When::Says(2, Word::Const), What::Mark, "const"),
    (When::Always, What::Joined(4), ","),
];

pub(crate) static VAR_DECLARATOR: [Piece; 4] = [
    (When::Has(3), What::Part(1, Slot::Definite), ""),
    (When::Lacks(3), What::Part(1, Slot::Whole), ""),
    (When::Has(2), What::Mark, "="),
    (When::Has(2), What::Part(2, Slot::Whole), ""),
];

pub(crate) static USING_DECL: [Piece; 4] = [
    (When::Has(1), What::Mark, "await"),
    (When::Always, What::Mark, "using"),
    (When::Always, What::Joined(2), ","),
    (When::Always, What::Semicolon, ""),
];

pub(crate) static USING_DECL_HEAD: [Piece; 3] = [
    (When::Has(1), What::Mark, "await"),
    (When::Always, What::Mark, "using"),
    (When::Always, What::Joined(2), ","),
];

pub(crate) static TS_INTERFACE_DECL: [Piece; 7] = [
    (When::Has(2), What::Mark, "declare"),
    (When::Always, What::Mark, "interface"),
    (When::Always, What::Part(1, Slot::Whole), ""),
    (When::Always, What::Part(3, Slot::Whole), ""),
    (When::Has(4), What::Mark, "extends"),
    (When::Has(4), What::Joined(4), ","),
    (When::Always, What::Part(5, Slot::Whole), ""),
];

pub(crate) static TS_EXPR_WITH_TYPE_ARGS: [Piece; 2] = [
    (When::Always, What::Part(1, Slot::Whole), ""),
    (When::Always, What::Part(2, Slot::Whole), ""),
];

pub(crate) static TS_INTERFACE_BODY: [Piece; 3] = [
    (When::Always, What::Mark, "{"),
    (When::Always, What::Members(1), ""),
    (When::Always, What::Mark, "}"),
];

pub(crate) static TS_TYPE_ALIAS_DECL: [Piece; 7] = [
    (When::Has(1), What::Mark, "declare"),
    (When::Always, What::Mark, "type"),
    (When::Always, What::Part(2, Slot::Whole), ""),
    (When::Always, What::Part(3, Slot::Whole), ""),
    (When::Always, What::Mark, "="),
    (When::Always, What::Part(4, Slot::Whole), ""),
    (When::Always, What::Semicolon, ""),
];

pub(crate) static TS_ENUM_DECL: [Piece; 7] = [
    (When::Has(1), What::Mark, "declare"),
    (When::Has(2), What::Mark, "const"),
    (When::Always, What::Mark, "enum"),
    (When::Always, What::Part(3, Slot::Whole), ""),
    (When::Always, What::Mark, "{"),
    (When::Always, What::Listed(4), ","),
    (When::Always, What::Mark, "}"),
];

pub(crate) static TS_ENUM_MEMBER: [Piece; 3] = [
    (When::Always, What::Part(1, Slot::Whole), ""),
    (When::Has(2), What::Mark, "="),
    (When::Has(2), What::Part(2, Slot::Whole), ""),
];

pub(crate) static TS_MODULE_DECL: [Piece; 6] = [
    (When::Has(1), What::Mark, "declare"),
    (When::Has(3), What::Mark, "namespace"),
    (When::Neither(3, 2), What::Mark, "module"),
    (When::Always, What::Part(4, Slot::Whole), ""),
    (When::Has(5), What::Part(5, Slot::Whole), ""),
    (When::Lacks(5), What::Semicolon, ""),
];

pub(crate) static TS_MODULE_BLOCK: [Piece; 3] = [
    (When::Always, What::Mark, "{"),
    (When::Always, What::Part(1, Slot::Whole), ""),
    (When::Always, What::Mark, "}"),
];

pub(crate) static TS_NAMESPACE_DECL: [Piece; 3] = [
    (When::Always, What::Mark, "."),
    (When::Always, What::Part(3, Slot::Whole), ""),
    (When::Always, What::Part(4, Slot::Whole), ""),
];
