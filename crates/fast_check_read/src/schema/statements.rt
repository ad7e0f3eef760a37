//! The fields of statements and declarations.
// Written by forms/write.py from forms/forms.txt.

use crate::schema::form::{Choice, Count, Field, Form, Named, SPAN, Variant, Words};
use fast_check_tree_syntax::{Kind, Word};

pub static BLOCK_STMT: [Field; 3] = [
    SPAN,
    ("ctxt", Form::Context, Count::One),
    ("stmts", Form::Choice(Choice::Stmt), Count::List),
];

pub static EMPTY_STMT: [Field; 1] = [SPAN];

pub static DEBUGGER_STMT: [Field; 1] = [SPAN];

pub static WITH_STMT: [Field; 3] = [
    SPAN,
    ("obj", Form::Choice(Choice::Expr), Count::One),
    ("body", Form::Choice(Choice::Stmt), Count::One),
];

pub static RETURN_STMT: [Field; 2] = [SPAN, ("arg", Form::Choice(Choice::Expr), Count::Option)];

pub static LABELED_STMT: [Field; 3] = [
    SPAN,
    ("label", Form::Struct(Kind::Ident), Count::One),
    ("body", Form::Choice(Choice::Stmt), Count::One),
];

pub static BREAK_STMT: [Field; 2] = [SPAN, ("label", Form::Struct(Kind::Ident), Count::Option)];

pub static CONTINUE_STMT: [Field; 2] = [SPAN, ("label", Form::Struct(Kind::Ident), Count::Option)];

pub static IF_STMT: [Field; 4] = [
    SPAN,
    ("test", Form::Choice(Choice::Expr), Count::One),
    ("cons", Form::Choice(Choice::Stmt), Count::One),
    ("alt", Form::Choice(Choice::Stmt), Count::Option),
];

pub static SWITCH_STMT: [Field; 3] = [
    SPAN,
    ("discriminant", Form::Choice(Choice::Expr), Count::One),
    ("cases", Form::Struct(Kind::SwitchCase), Count::List),
];

pub static SWITCH_CASE: [Field; 3] = [
    SPAN,
    ("test", Form::Choice(Choice::Expr), Count::Option),
    ("cons", Form::Choice(Choice::Stmt), Count::List),
];

pub static THROW_STMT: [Field; 2] = [SPAN, ("arg", Form::Choice(Choice::Expr), Count::One)];

pub static TRY_STMT: [Field; 4] = [
    SPAN,
    ("block", Form::Struct(Kind::BlockStmt), Count::One),
    ("handler", Form::Struct(Kind::CatchClause), Count::Option),
    ("finalizer", Form::Struct(Kind::BlockStmt), Count::Option),
];

pub static CATCH_CLAUSE: [Field; 3] = [
    SPAN,
    ("param", Form::Choice(Choice::Pat), Count::Option),
    ("body", Form::Struct(Kind::BlockStmt), Count::One),
];

pub static WHILE_STMT: [Field; 3] = [
    SPAN,
    ("test", Form::Choice(Choice::Expr), Count::One),
    ("body", Form::Choice(Choice::Stmt), Count::One),
];

pub static DO_WHILE_STMT: [Field; 3] = [
    SPAN,
    ("test", Form::Choice(Choice::Expr), Count::One),
    ("body", Form::Choice(Choice::Stmt), Count::One),
];

pub static FOR_STMT: [Field; 5] = [
    SPAN,
    ("init", Form::Choice(Choice::VarDeclOrExpr), Count::Option),
    ("test", Form::Choice(Choice::Expr), Count::Option),
    ("update", Form::Choice(Choice::Expr), Count::Option),
    ("body", Form::Choice(Choice::Stmt), Count::One),
];

pub static FOR_IN_STMT: [Field; 4] = [
    SPAN,
    ("left", Form::Choice(Choice::ForHead), Count::One),
    ("right", Form::Choice(Choice::Expr), Count::One),
    ("body", Form::Choice(Choice::Stmt), Count::One),
];

pub static FOR_OF_STMT: [Field; 5] = [
    SPAN,
    ("is_await", Form::Flag, Count::One),
    ("left", Form::Choice(Choice::ForHead), Count::One),
    ("right", Form::Choice(Choice::Expr), Count::One),
    ("body", Form::Choice(Choice::Stmt), Count::One),
];

pub static EXPR_STMT: [Field; 2] = [SPAN, ("expr", Form::Choice(Choice::Expr), Count::One)];

pub static CLASS_DECL: [Field; 3] = [
    ("ident", Form::Struct(Kind::Ident), Count::One),
    ("declare", Form::Flag, Count::One),
    ("class", Form::Struct(Kind::Class), Count::One),
];

pub static FN_DECL: [Field; 3] = [
    ("ident", Form::Struct(Kind::Ident), Count::One),
    ("declare", Form::Flag, Count::One),
    ("function", Form::Struct(Kind::Function), Count::One),
];

pub static VAR_DECL: [Field; 5] = [
    SPAN,
    ("ctxt", Form::Context, Count::One),
    ("kind", Form::Word(Words::VarDeclKind), Count::One),
    ("declare", Form::Flag, Count::One),
    ("decls", Form::Struct(Kind::VarDeclarator), Count::List),
];

pub static VAR_DECLARATOR: [Field; 4] = [
    SPAN,
    ("name", Form::Choice(Choice::Pat), Count::One),
    ("init", Form::Choice(Choice::Expr), Count::Option),
    ("definite", Form::Flag, Count::One),
];

pub static USING_DECL: [Field; 3] = [
    SPAN,
    ("is_await", Form::Flag, Count::One),
    ("decls", Form::Struct(Kind::VarDeclarator), Count::List),
];

pub static TS_INTERFACE_DECL: [Field; 6] = [
    SPAN,
    ("id", Form::Struct(Kind::Ident), Count::One),
    ("declare", Form::Flag, Count::One),
    (
        "type_params",
        Form::Struct(Kind::TsTypeParamDecl),
        Count::Option,
    ),
    (
        "extends",
        Form::Struct(Kind::TsExprWithTypeArgs),
        Count::List,
    ),
    ("body", Form::Struct(Kind::TsInterfaceBody), Count::One),
];

pub static TS_EXPR_WITH_TYPE_ARGS: [Field; 3] = [
    SPAN,
    ("expr", Form::Choice(Choice::Expr), Count::One),
    (
        "type_args",
        Form::Struct(Kind::TsTypeParamInstantiation),
        Count::Option,
    ),
];

pub static TS_INTERFACE_BODY: [Field; 2] = [
    SPAN,
    ("body", Form::Choice(Choice::TsTypeElement), Count::List),
];

pub static TS_TYPE_ALIAS_DECL: [Field; 5] = [
    SPAN,
    ("declare", Form::Flag, Count::One),
    ("id", Form::Struct(Kind::Ident), Count::One),
    (
        "type_params",
        Form::Struct(Kind::TsTypeParamDecl),
        Count::Option,
    ),
    ("type_ann", Form::Choice(Choice::TsType), Count::One),
];

pub static TS_ENUM_DECL: [Field; 5] = [
    SPAN,
    ("declare", Form::Flag, Count::One),
    ("is_const", Form::Flag, Count::One),
    ("id", Form::Struct(Kind::Ident), Count::One),
    ("members", Form::Struct(Kind::TsEnumMember), Count::List),
];

pub static TS_ENUM_MEMBER: [Field; 3] = [
    SPAN,
    ("id", Form::Choice(Choice::TsEnumMemberId), Count::One),
    ("init", Form::Choice(Choice::Expr), Count::Option),
];

pub static TS_MODULE_DECL: [Field; 6] = [
    SPAN,
    ("declare", Form::Flag, Count::One),
    ("global", Form::Flag, Count::One),
    ("namespace", Form::Flag, Count::One),
    ("id", Form::Choice(Choice::TsModuleName), Count::One),
    ("body", Form::Choice(Choice::TsNamespaceBody), Count::Option),
];

pub static TS_MODULE_BLOCK: [Field; 2] = [
    SPAN,
    ("body", Form::Choice(Choice::ModuleItem), Count::List),
];

pub static TS_NAMESPACE_DECL: [Field; 5] = [
    SPAN,
    ("declare", Form::Flag, Count::One),
    ("global", Form::Flag, Count::One),
    ("id", Form::Struct(Kind::Ident), Count::One),
    ("body", Form::Choice(Choice::TsNamespaceBody), Count::One),
];

pub static STMT_VARIANTS: [Variant; 19] = [
    ("Block", Form::Struct(Kind::BlockStmt)),
    ("Empty", Form::Struct(Kind::EmptyStmt)),
    ("Debugger", Form::Struct(Kind::DebuggerStmt)),
    ("With", Form::Struct(Kind::WithStmt)),
    ("Return", Form::Struct(Kind::ReturnStmt)),
    ("Labeled", Form::Struct(Kind::LabeledStmt)),
    ("Break", Form::Struct(Kind::BreakStmt)),
    ("Continue", Form::Struct(Kind::ContinueStmt)),
    ("If", Form::Struct(Kind::IfStmt)),
    ("Switch", Form::Struct(Kind::SwitchStmt)),
    ("Throw", Form::Struct(Kind::ThrowStmt)),
    ("Try", Form::Struct(Kind::TryStmt)),
    ("While", Form::Struct(Kind::WhileStmt)),
    ("DoWhile", Form::Struct(Kind::DoWhileStmt)),
    ("For", Form::Struct(Kind::ForStmt)),
    ("ForIn", Form::Struct(Kind::ForInStmt)),
    ("ForOf", Form::Struct(Kind::ForOfStmt)),
    ("Decl", Form::Choice(Choice::Decl)),
    ("Expr", Form::Struct(Kind::ExprStmt)),
];

pub static VAR_DECL_OR_EXPR_VARIANTS: [Variant; 2] = [
    ("VarDecl", Form::Struct(Kind::VarDecl)),
    ("Expr", Form::Choice(Choice::Expr)),
];

pub static FOR_HEAD_VARIANTS: [Variant; 3] = [
    ("VarDecl", Form::Struct(Kind::VarDecl)),
    ("UsingDecl", Form::Struct(Kind::UsingDecl)),
    ("Pat", Form::Choice(Choice::Pat)),
];

pub static DECL_VARIANTS: [Variant; 8] = [
    ("Class", Form::Struct(Kind::ClassDecl)),
    ("Fn", Form::Struct(Kind::FnDecl)),
    ("Var", Form::Struct(Kind::VarDecl)),
    ("Using", Form::Struct(Kind::UsingDecl)),
    ("TsInterface", Form::Struct(Kind::TsInterfaceDecl)),
    ("TsTypeAlias", Form::Struct(Kind::TsTypeAliasDecl)),
    ("TsEnum", Form::Struct(Kind::TsEnumDecl)),
    ("TsModule", Form::Struct(Kind::TsModuleDecl)),
];

pub static TS_ENUM_MEMBER_ID_VARIANTS: [Variant; 2] = [
    ("Ident", Form::Struct(Kind::Ident)),
    ("Str", Form::Struct(Kind::Str)),
];

pub static TS_MODULE_NAME_VARIANTS: [Variant; 2] = [
    ("Ident", Form::Struct(Kind::Ident)),
    ("Str", Form::Struct(Kind::Str)),
];

pub static TS_NAMESPACE_BODY_VARIANTS: [Variant; 2] = [
    ("TsModuleBlock", Form::Struct(Kind::TsModuleBlock)),
    ("TsNamespaceDecl", Form::Struct(Kind::TsNamespaceDecl)),
];

pub static VAR_DECL_KIND_WORDS: [Named; 3] = [
    ("Var", Word::Var),
    ("Let", Word::Let),
    ("Const", Word::Const),
];
