//! The forms of statements and declarations.
//!
//! A form reads a node where its `N` is a `Part` and its `T` a `&str`, and makes one where they are a `Tree` and an `Atom`.
//!
//! `of` reads a node by the places of its fields, whatever its kind is. A field that is not there is absent, false, empty or
//! `DUMMY_SP`. `into_tree` fails only if memory runs out.
// Written by forms/write.py from forms/forms.txt.
#![tactic(auto)]

mod declarations;
mod loops;
mod statements;
mod ts_declarations;

pub use declarations::{ClassDecl, FnDecl, UsingDecl, VarDecl, VarDeclarator};
pub use loops::{DoWhileStmt, ForInStmt, ForOfStmt, ForStmt, WhileStmt};
pub use statements::{
    BlockStmt, BreakStmt, CatchClause, ContinueStmt, DebuggerStmt, EmptyStmt, ExprStmt, IfStmt,
    LabeledStmt, ReturnStmt, SwitchCase, SwitchStmt, ThrowStmt, TryStmt, WithStmt,
};
pub use ts_declarations::{
    TsEnumDecl, TsEnumMember, TsExprWithTypeArgs, TsInterfaceBody, TsInterfaceDecl, TsModuleBlock,
    TsModuleDecl, TsNamespaceDecl, TsTypeAliasDecl,
};
