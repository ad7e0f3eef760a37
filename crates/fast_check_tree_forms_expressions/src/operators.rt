//! Operators. Each form with its fields by their names.
// Written by forms/write.py from forms/forms.txt.

ghost use Rattle.std.specs.Prelude.{◌≡◌, IfOk};
ghost use Rattle.fast_check_tree_syntax.specs.Part.{seen};
ghost use Rattle.fast_check_tree_forms_expressions.specs.Operators.{
  ReadsUnaryExpr,
  unary_expr,
  ReadsUpdateExpr,
  update_expr,
  ReadsBinExpr,
  bin_expr,
  ReadsAssignExpr,
  assign_expr,
  ReadsCondExpr,
  cond_expr,
};

use fast_check_tree_syntax::{Atom, Kind, Part, SourceRange, Tree};
use std::alloc::{AllocError, Global};

/// `op arg`, as `!a` or `typeof a`.
#[derive(Drop)]
pub struct UnaryExpr<N, T> {
    pub span: SourceRange,
    /// As it is written.
    pub op: T,
    /// An `Expr`.
    pub arg: N,
}

impl<'a> UnaryExpr<Part<'a>, &'a str> {
    /// The fields of a node.
    pub fn of(node: Part<'a>) -> Self
        ensures { ReadsUnaryExpr result (seen node.entry) }
    {
        UnaryExpr {
            span: node.part(0).range(),
            op: node.part(1).text(),
            arg: node.part(2),
        }
    }
}

impl UnaryExpr<Tree, Atom> {
    /// The node of these fields.
    pub fn into_tree(self, alloc: Global) -> Result<Tree, AllocError>
        ensures { IfOk result (λ tree. tree ≡ unary_expr self.span self.op self.arg) }
    {
        let UnaryExpr { span, op, arg } = self;
        Tree::node(
            alloc,
            Kind::UnaryExpr,
            [Tree::Range(span), Tree::Text(op), arg],
        )
    }
}

/// `op arg` or `arg op`, as `++a` or `a--`.
#[derive(Drop)]
pub struct UpdateExpr<N, T> {
    pub span: SourceRange,
    /// As it is written.
    pub op: T,
    /// Whether `op` comes first.
    pub prefix: bool,
    /// An `Expr`.
    pub arg: N,
}

impl<'a> UpdateExpr<Part<'a>, &'a str> {
    /// The fields of a node.
    pub fn of(node: Part<'a>) -> Self
        ensures { ReadsUpdateExpr result (seen node.entry) }
    {
        UpdateExpr {
            span: node.part(0).range(),
            op: node.part(1).text(),
            prefix: node.part(2).flag(),
            arg: node.part(3),
        }
    }
}

impl UpdateExpr<Tree, Atom> {
    /// The node of these fields.
    pub fn into_tree(self, alloc: Global) -> Result<Tree, AllocError>
        ensures { IfOk result (λ tree. tree ≡ update_expr self.span self.op self.prefix self.arg) }
    {
        let UpdateExpr {
            span,
            op,
            prefix,
            arg,
        } = self;
        Tree::node(
            alloc,
            Kind::UpdateExpr,
            [Tree::Range(span), Tree::Text(op), Tree::Flag(prefix), arg],
        )
    }
}

/// `left op right`, as `a + b`.
#[derive(Drop)]
pub struct BinExpr<N, T> {
    pub span: SourceRange,
    /// As it is written.
    pub op: T,
    /// An `Expr`, or a `PrivateName` before `in`.
    pub left: N,
    /// An `Expr`.
    pub right: N,
}

impl<'a> BinExpr<Part<'a>, &'a str> {
    /// The fields of a node.
    pub fn of(node: Part<'a>) -> Self
        ensures { ReadsBinExpr result (seen node.entry) }
    {
        BinExpr {
            span: node.part(0).range(),
            op: node.part(1).text(),
            left: node.part(2),
            right: node.part(3),
        }
    }
}

impl BinExpr<Tree, Atom> {
    /// The node of these fields.
    pub fn into_tree(self, alloc: Global) -> Result<Tree, AllocError>
        ensures { IfOk result (λ tree. tree ≡ bin_expr self.span self.op self.left self.right) }
    {
        let BinExpr {
            span,
            op,
            left,
            right,
        } = self;
        Tree::node(
            alloc,
            Kind::BinExpr,
            [Tree::Range(span), Tree::Text(op), left, right],
        )
    }
}

/// `left op right`, as `a = b` or `a += b`.
#[derive(Drop)]
pub struct AssignExpr<N, T> {
    pub span: SourceRange,
    /// As it is written.
    pub op: T,
    /// An `AssignTarget`.
    pub left: N,
    /// An `Expr`.
    pub right: N,
}

impl<'a> AssignExpr<Part<'a>, &'a str> {
    /// The fields of a node.
    pub fn of(node: Part<'a>) -> Self
        ensures { ReadsAssignExpr result (seen node.entry) }
    {
        AssignExpr {
            span: node.part(0).range(),
            op: node.part(1).text(),
            left: node.part(2),
            right: node.part(3),
        }
    }
}

impl AssignExpr<Tree, Atom> {
    /// The node of these fields.
    pub fn into_tree(self, alloc: Global) -> Result<Tree, AllocError>
        ensures { IfOk result (λ tree. tree ≡ assign_expr self.span self.op self.left self.right) }
    {
        let AssignExpr {
            span,
            op,
            left,
            right,
        } = self;
        Tree::node(
            alloc,
            Kind::AssignExpr,
            [Tree::Range(span), Tree::Text(op), left, right],
        )
    }
}

/// `test ? cons : alt`.
#[derive(Drop)]
pub struct CondExpr<N> {
    pub span: SourceRange,
    /// An `Expr`.
    pub test: N,
    /// An `Expr`.
    pub cons: N,
    /// An `Expr`.
    pub alt: N,
}

impl<'a> CondExpr<Part<'a>> {
    /// The fields of a node.
    pub fn of(node: Part<'a>) -> Self
        ensures { ReadsCondExpr result (seen node.entry) }
    {
        CondExpr {
            span: node.part(0).range(),
            test: node.part(1),
            cons: node.part(2),
            alt: node.part(3),
        }
    }
}

impl CondExpr<Tree> {
    /// The node of these fields.
    pub fn into_tree(self, alloc: Global) -> Result<Tree, AllocError>
        ensures { IfOk result (λ tree. tree ≡ cond_expr self.span self.test self.cons self.alt) }
    {
        let CondExpr {
            span,
            test,
            cons,
            alt,
        } = self;
        Tree::node(alloc, Kind::CondExpr, [Tree::Range(span), test, cons, alt])
    }
}
