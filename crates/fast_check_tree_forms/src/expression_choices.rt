//! Which expression a node is, and which form stands in a part of one.
// Written by forms/write.py from forms/forms.txt.

ghost use Rattle.std.specs.Prelude.{◌≡◌};
ghost use Rattle.fast_check_tree_syntax.specs.Part.{seen};
ghost use Rattle.fast_check_tree_syntax.specs.Shape.{kind_of};
ghost use Rattle.fast_check_tree_forms.specs.ExpressionChoices.{
  expr_of,
  block_stmt_or_expr_of,
  opt_chain_base_of,
  callee_of,
};

use crate::name_choices::Lit;
use fast_check_tree_syntax::{Kind, Part};

/// An expression.
#[derive(Clone, Copy, Debug)]
pub enum Expr {
    This,
    Array,
    Object,
    Fn,
    Unary,
    Update,
    Bin,
    Assign,
    Member,
    SuperProp,
    Cond,
    Call,
    New,
    Seq,
    Ident,
    Lit,
    Tpl,
    TaggedTpl,
    Arrow,
    Class,
    Yield,
    MetaProp,
    Await,
    Paren,
    JSXMember,
    JSXNamespacedName,
    JSXEmpty,
    JSXElement,
    JSXFragment,
    TsTypeAssertion,
    TsConstAssertion,
    TsNonNull,
    TsAs,
    TsInstantiation,
    TsSatisfies,
    PrivateName,
    OptChain,
    Invalid,
    /// A node of none of these forms.
    Other,
}

impl Expr {
    /// Which of the forms a node has.
    pub fn of(node: Part) -> Self
        ensures { result ≡ expr_of (kind_of (seen node.entry)) }
    {
        match node.kind() {
            Kind::ThisExpr => Expr::This,
            Kind::ArrayLit => Expr::Array,
            Kind::ObjectLit => Expr::Object,
            Kind::FnExpr => Expr::Fn,
            Kind::UnaryExpr => Expr::Unary,
            Kind::UpdateExpr => Expr::Update,
            Kind::BinExpr => Expr::Bin,
            Kind::AssignExpr => Expr::Assign,
            Kind::MemberExpr => Expr::Member,
            Kind::SuperPropExpr => Expr::SuperProp,
            Kind::CondExpr => Expr::Cond,
            Kind::CallExpr => Expr::Call,
            Kind::NewExpr => Expr::New,
            Kind::SeqExpr => Expr::Seq,
            Kind::Ident => Expr::Ident,
            Kind::Tpl => Expr::Tpl,
            Kind::TaggedTpl => Expr::TaggedTpl,
            Kind::ArrowExpr => Expr::Arrow,
            Kind::ClassExpr => Expr::Class,
            Kind::YieldExpr => Expr::Yield,
            Kind::MetaPropExpr => Expr::MetaProp,
            Kind::AwaitExpr => Expr::Await,
            Kind::ParenExpr => Expr::Paren,
            Kind::JSXMember => Expr::JSXMember,
            Kind::JSXNamespacedName => Expr::JSXNamespacedName,
            Kind::JSXEmpty => Expr::JSXEmpty,
            Kind::JSXElement => Expr::JSXElement,
            Kind::JSXFragment => Expr::JSXFragment,
            Kind::TsTypeAssertion => Expr::TsTypeAssertion,
            Kind::TsConstAssertion => Expr::TsConstAssertion,
            Kind::TsNonNullExpr => Expr::TsNonNull,
            Kind::TsAsExpr => Expr::TsAs,
            Kind::TsInstantiation => Expr::TsInstantiation,
            Kind::TsSatisfiesExpr => Expr::TsSatisfies,
            Kind::PrivateName => Expr::PrivateName,
            Kind::OptChainExpr => Expr::OptChain,
            Kind::Invalid => Expr::Invalid,
            _ => match Lit::of(node) {
                Lit::Other => Expr::Other,
                _ => Expr::Lit,
            },
        }
    }
}

/// The body of an arrow function.
#[derive(Clone, Copy, Debug)]
pub enum BlockStmtOrExpr {
    BlockStmt,
    Expr,
    /// A node of none of these forms.
    Other,
}

impl BlockStmtOrExpr {
    /// Which of the forms a node has.
    pub fn of(node: Part) -> Self
        ensures { result ≡ block_stmt_or_expr_of (kind_of (seen node.entry)) }
    {
        match node.kind() {
            Kind::BlockStmt => BlockStmtOrExpr::BlockStmt,
            _ => match Expr::of(node) {
                Expr::Other => BlockStmtOrExpr::Other,
                _ => BlockStmtOrExpr::Expr,
            },
        }
    }
}

/// What an optional chain ends with.
#[derive(Clone, Copy, Debug)]
pub enum OptChainBase {
    Member,
    Call,
    /// A node of none of these forms.
    Other,
}

impl OptChainBase {
    /// Which of the forms a node has.
    pub fn of(node: Part) -> Self
        ensures { result ≡ opt_chain_base_of (kind_of (seen node.entry)) }
    {
        match node.kind() {
            Kind::MemberExpr => OptChainBase::Member,
            Kind::OptCall => OptChainBase::Call,
            _ => OptChainBase::Other,
        }
    }
}

/// What is called.
#[derive(Clone, Copy, Debug)]
pub enum Callee {
    Super,
    Import,
    Expr,
    /// A node of none of these forms.
    Other,
}

impl Callee {
    /// Which of the forms a node has.
    pub fn of(node: Part) -> Self
        ensures { result ≡ callee_of (kind_of (seen node.entry)) }
    {
        match node.kind() {
            Kind::Super => Callee::Super,
            Kind::Import => Callee::Import,
            _ => match Expr::of(node) {
                Expr::Other => Callee::Other,
                _ => Callee::Expr,
            },
        }
    }
}
