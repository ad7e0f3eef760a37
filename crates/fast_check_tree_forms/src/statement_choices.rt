//! Which statement or declaration a node is, and which form stands in a part of one.
// Written by forms/write.py from forms/forms.txt.

ghost use Rattle.std.specs.Prelude.{◌≡◌};
ghost use Rattle.fast_check_tree_syntax.specs.Part.{seen};
ghost use Rattle.fast_check_tree_syntax.specs.Shape.{kind_of};
ghost use Rattle.fast_check_tree_forms.specs.StatementChoices.{
  decl_of,
  stmt_of,
  var_decl_or_expr_of,
  for_head_of,
  ts_namespace_body_of,
};

use crate::expression_choices::Expr;
use crate::pattern_choices::Pat;
use fast_check_tree_syntax::{Kind, Part};

/// A declaration.
#[derive(Clone, Copy, Debug)]
pub enum Decl {
    Class,
    Fn,
    Var,
    Using,
    TsInterface,
    TsTypeAlias,
    TsEnum,
    TsModule,
    /// A node of none of these forms.
    Other,
}

impl Decl {
    /// Which of the forms a node has.
    pub fn of(node: Part) -> Self
        ensures { result ≡ decl_of (kind_of (seen node.entry)) }
    {
        match node.kind() {
            Kind::ClassDecl => Decl::Class,
            Kind::FnDecl => Decl::Fn,
            Kind::VarDecl => Decl::Var,
            Kind::UsingDecl => Decl::Using,
            Kind::TsInterfaceDecl => Decl::TsInterface,
            Kind::TsTypeAliasDecl => Decl::TsTypeAlias,
            Kind::TsEnumDecl => Decl::TsEnum,
            Kind::TsModuleDecl => Decl::TsModule,
            _ => Decl::Other,
        }
    }
}

/// A statement.
#[derive(Clone, Copy, Debug)]
pub enum Stmt {
    Block,
    Empty,
    Debugger,
    With,
    Return,
    Labeled,
    Break,
    Continue,
    If,
    Switch,
    Throw,
    Try,
    While,
    DoWhile,
    For,
    ForIn,
    ForOf,
    Decl,
    Expr,
    /// A node of none of these forms.
    Other,
}

impl Stmt {
    /// Which of the forms a node has.
    pub fn of(node: Part) -> Self
        ensures { result ≡ stmt_of (kind_of (seen node.entry)) }
    {
        match node.kind() {
            Kind::BlockStmt => Stmt::Block,
            Kind::EmptyStmt => Stmt::Empty,
            Kind::DebuggerStmt => Stmt::Debugger,
            Kind::WithStmt => Stmt::With,
            Kind::ReturnStmt => Stmt::Return,
            Kind::LabeledStmt => Stmt::Labeled,
            Kind::BreakStmt => Stmt::Break,
            Kind::ContinueStmt => Stmt::Continue,
            Kind::IfStmt => Stmt::If,
            Kind::SwitchStmt => Stmt::Switch,
            Kind::ThrowStmt => Stmt::Throw,
            Kind::TryStmt => Stmt::Try,
            Kind::WhileStmt => Stmt::While,
            Kind::DoWhileStmt => Stmt::DoWhile,
            Kind::ForStmt => Stmt::For,
            Kind::ForInStmt => Stmt::ForIn,
            Kind::ForOfStmt => Stmt::ForOf,
            Kind::ExprStmt => Stmt::Expr,
            _ => match Decl::of(node) {
                Decl::Other => Stmt::Other,
                _ => Stmt::Decl,
            },
        }
    }
}

/// What stands first in the head of a `for`.
#[derive(Clone, Copy, Debug)]
pub enum VarDeclOrExpr {
    VarDecl,
    Expr,
    /// A node of none of these forms.
    Other,
}

impl VarDeclOrExpr {
    /// Which of the forms a node has.
    pub fn of(node: Part) -> Self
        ensures { result ≡ var_decl_or_expr_of (kind_of (seen node.entry)) }
    {
        match node.kind() {
            Kind::VarDecl => VarDeclOrExpr::VarDecl,
            _ => match Expr::of(node) {
                Expr::Other => VarDeclOrExpr::Other,
                _ => VarDeclOrExpr::Expr,
            },
        }
    }
}

/// What stands before `in` or `of` in the head of a `for`.
#[derive(Clone, Copy, Debug)]
pub enum ForHead {
    VarDecl,
    UsingDecl,
    Pat,
    /// A node of none of these forms.
    Other,
}

impl ForHead {
    /// Which of the forms a node has.
    pub fn of(node: Part) -> Self
        ensures { result ≡ for_head_of (kind_of (seen node.entry)) }
    {
        match node.kind() {
            Kind::VarDecl => ForHead::VarDecl,
            Kind::UsingDecl => ForHead::UsingDecl,
            _ => match Pat::of(node) {
                Pat::Other => ForHead::Other,
                _ => ForHead::Pat,
            },
        }
    }
}

/// The body of a namespace.
#[derive(Clone, Copy, Debug)]
pub enum TsNamespaceBody {
    TsModuleBlock,
    TsNamespaceDecl,
    /// A node of none of these forms.
    Other,
}

impl TsNamespaceBody {
    /// Which of the forms a node has.
    pub fn of(node: Part) -> Self
        ensures { result ≡ ts_namespace_body_of (kind_of (seen node.entry)) }
    {
        match node.kind() {
            Kind::TsModuleBlock => TsNamespaceBody::TsModuleBlock,
            Kind::TsNamespaceDecl => TsNamespaceBody::TsNamespaceDecl,
            _ => TsNamespaceBody::Other,
        }
    }
}
