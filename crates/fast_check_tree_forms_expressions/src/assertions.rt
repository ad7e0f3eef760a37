//! TypeScript's own expressions. Each form with its fields by their names.
// Written by forms/write.py from forms/forms.txt.

ghost use Rattle.std.specs.Prelude.{◌≡◌, IfOk};
ghost use Rattle.fast_check_tree_syntax.specs.Part.{seen};
ghost use Rattle.fast_check_tree_forms_expressions.specs.Assertions.{
  ReadsTsTypeAssertion,
  ts_type_assertion,
  ReadsTsAsExpr,
  ts_as_expr,
  ReadsTsSatisfiesExpr,
  ts_satisfies_expr,
  ReadsTsConstAssertion,
  ts_const_assertion,
  ReadsTsNonNullExpr,
  ts_non_null_expr,
  ReadsTsInstantiation,
  ts_instantiation,
};

use fast_check_tree_syntax::{Kind, Part, SourceRange, Tree};
use std::alloc::{AllocError, Global};

/// `<type_ann>expr`.
#[derive(Drop)]
pub struct TsTypeAssertion<N> {
    pub span: SourceRange,
    /// An `Expr`.
    pub expr: N,
    /// A `TsType`.
    pub type_ann: N,
}

impl<'a> TsTypeAssertion<Part<'a>> {
    /// The fields of a node.
    pub fn of(node: Part<'a>) -> Self
        ensures { ReadsTsTypeAssertion result (seen node.entry) }
    {
        TsTypeAssertion {
            span: node.part(0).range(),
            expr: node.part(1),
            type_ann: node.part(2),
        }
    }
}

impl TsTypeAssertion<Tree> {
    /// The node of these fields.
    pub fn into_tree(self, alloc: Global) -> Result<Tree, AllocError>
        ensures { IfOk result (λ tree. tree ≡
            ts_type_assertion self.span self.expr self.type_ann) }
    {
        let TsTypeAssertion {
            span,
            expr,
            type_ann,
        } = self;
        Tree::node(
            alloc,
            Kind::TsTypeAssertion,
            [Tree::Range(span), expr, type_ann],
        )
    }
}

/// `expr as type_ann`.
#[derive(Drop)]
pub struct TsAsExpr<N> {
    pub span: SourceRange,
    /// An `Expr`.
    pub expr: N,
    /// A `TsType`.
    pub type_ann: N,
}

impl<'a> TsAsExpr<Part<'a>> {
    /// The fields of a node.
    pub fn of(node: Part<'a>) -> Self
        ensures { ReadsTsAsExpr result (seen node.entry) }
    {
        TsAsExpr {
            span: node.part(0).range(),
            expr: node.part(1),
            type_ann: node.part(2),
        }
    }
}

impl TsAsExpr<Tree> {
    /// The node of these fields.
    pub fn into_tree(self, alloc: Global) -> Result<Tree, AllocError>
        ensures { IfOk result (λ tree. tree ≡ ts_as_expr self.span self.expr self.type_ann) }
    {
        let TsAsExpr {
            span,
            expr,
            type_ann,
        } = self;
        Tree::node(alloc, Kind::TsAsExpr, [Tree::Range(span), expr, type_ann])
    }
}

/// `expr satisfies type_ann`.
#[derive(Drop)]
pub struct TsSatisfiesExpr<N> {
    pub span: SourceRange,
    /// An `Expr`.
    pub expr: N,
    /// A `TsType`.
    pub type_ann: N,
}

impl<'a> TsSatisfiesExpr<Part<'a>> {
    /// The fields of a node.
    pub fn of(node: Part<'a>) -> Self
        ensures { ReadsTsSatisfiesExpr result (seen node.entry) }
    {
        TsSatisfiesExpr {
            span: node.part(0).range(),
            expr: node.part(1),
            type_ann: node.part(2),
        }
    }
}

impl TsSatisfiesExpr<Tree> {
    /// The node of these fields.
    pub fn into_tree(self, alloc: Global) -> Result<Tree, AllocError>
        ensures { IfOk result (λ tree. tree ≡
            ts_satisfies_expr self.span self.expr self.type_ann) }
    {
        let TsSatisfiesExpr {
            span,
            expr,
            type_ann,
        } = self;
        Tree::node(
            alloc,
            Kind::TsSatisfiesExpr,
            [Tree::Range(span), expr, type_ann],
        )
    }
}

/// `expr as const`.
#[derive(Drop)]
pub struct TsConstAssertion<N> {
    pub span: SourceRange,
    /// An `Expr`.
    pub expr: N,
}

impl<'a> TsConstAssertion<Part<'a>> {
    /// The fields of a node.
    pub fn of(node: Part<'a>) -> Self
        ensures { ReadsTsConstAssertion result (seen node.entry) }
    {
        TsConstAssertion {
            span: node.part(0).range(),
            expr: node.part(1),
        }
    }
}

impl TsConstAssertion<Tree> {
    /// The node of these fields.
    pub fn into_tree(self, alloc: Global) -> Result<Tree, AllocError>
        ensures { IfOk result (λ tree. tree ≡ ts_const_assertion self.span self.expr) }
    {
        let TsConstAssertion { span, expr } = self;
        Tree::node(alloc, Kind::TsConstAssertion, [Tree::Range(span), expr])
    }
}

/// `expr!`.
#[derive(Drop)]
pub struct TsNonNullExpr<N> {
    pub span: SourceRange,
    /// An `Expr`.
    pub expr: N,
}

impl<'a> TsNonNullExpr<Part<'a>> {
    /// The fields of a node.
    pub fn of(node: Part<'a>) -> Self
        ensures { ReadsTsNonNullExpr result (seen node.entry) }
    {
        TsNonNullExpr {
            span: node.part(0).range(),
            expr: node.part(1),
        }
    }
}

impl TsNonNullExpr<Tree> {
    /// The node of these fields.
    pub fn into_tree(self, alloc: Global) -> Result<Tree, AllocError>
        ensures { IfOk result (λ tree. tree ≡ ts_non_null_expr self.span self.expr) }
    {
        let TsNonNullExpr { span, expr } = self;
        Tree::node(alloc, Kind::TsNonNullExpr, [Tree::Range(span), expr])
    }
}

/// `expr<type_args>`, with no call behind it.
#[derive(Drop)]
pub struct TsInstantiation<N> {
    pub span: SourceRange,
    /// An `Expr`.
    pub expr: N,
    /// A `TsTypeParamInstantiation`.
    pub type_args: N,
}

impl<'a> TsInstantiation<Part<'a>> {
    /// The fields of a node.
    pub fn of(node: Part<'a>) -> Self
        ensures { ReadsTsInstantiation result (seen node.entry) }
    {
        TsInstantiation {
            span: node.part(0).range(),
            expr: node.part(1),
            type_args: node.part(2),
        }
    }
}

impl TsInstantiation<Tree> {
    /// The node of these fields.
    pub fn into_tree(self, alloc: Global) -> Result<Tree, AllocError>
        ensures { IfOk result (λ tree. tree ≡
            ts_instantiation self.span self.expr self.type_args) }
    {
        let TsInstantiation {
            span,
            expr,
            type_args,
        } = self;
        Tree::node(
            alloc,
            Kind::TsInstantiation,
            [Tree::Range(span), expr, type_args],
        )
    }
}
