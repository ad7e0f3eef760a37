//! Patterns. Each form with its fields by their names.
// Written by forms/write.py from forms/forms.txt.

ghost use Rattle.std.specs.Prelude.{◌≡◌, IfOk};
ghost use Rattle.fast_check_tree_syntax.specs.Part.{seen};
ghost use Rattle.fast_check_tree_forms_expressions.specs.Patterns.{
  ReadsArrayPat,
  array_pat,
  ReadsRestPat,
  rest_pat,
  ReadsObjectPat,
  object_pat,
  ReadsAssignPat,
  assign_pat,
  ReadsKeyValuePatProp,
  key_value_pat_prop,
  ReadsAssignPatProp,
  assign_pat_prop,
  ReadsPatExpr,
  pat_expr,
  ReadsTargetPat,
  target_pat,
};

use fast_check_tree_syntax::{Kind, Part, SourceRange, Tree};
use std::alloc::{AllocError, Global};

/// `[elems]: type_ann`.
#[derive(Drop)]
pub struct ArrayPat<N> {
    pub span: SourceRange,
    /// A list of `Pat`, with an absent one for each hole.
    pub elems: N,
    /// Whether a `?` stands behind it.
    pub optional: bool,
    /// A `TsTypeAnn`, or absent.
    pub type_ann: N,
}

impl<'a> ArrayPat<Part<'a>> {
    /// The fields of a node.
    pub fn of(node: Part<'a>) -> Self
        ensures { ReadsArrayPat result (seen node.entry) }
    {
        ArrayPat {
            span: node.part(0).range(),
            elems: node.part(1),
            optional: node.part(2).flag(),
            type_ann: node.part(3),
        }
    }
}

impl ArrayPat<Tree> {
    /// The node of these fields.
    pub fn into_tree(self, alloc: Global) -> Result<Tree, AllocError>
        ensures { IfOk result (λ tree. tree ≡
            array_pat self.span self.elems self.optional self.type_ann) }
    {
        let ArrayPat {
            span,
            elems,
            optional,
            type_ann,
        } = self;
        Tree::node(
            alloc,
            Kind::ArrayPat,
            [Tree::Range(span), elems, Tree::Flag(optional), type_ann],
        )
    }
}

/// `...arg: type_ann`.
#[derive(Drop)]
pub struct RestPat<N> {
    pub span: SourceRange,
    /// The range of the `...`.
    pub dot3_token: SourceRange,
    /// A `Pat`.
    pub arg: N,
    /// A `TsTypeAnn`, or absent.
    pub type_ann: N,
}

impl<'a> RestPat<Part<'a>> {
    /// The fields of a node.
    pub fn of(node: Part<'a>) -> Self
        ensures { ReadsRestPat result (seen node.entry) }
    {
        RestPat {
            span: node.part(0).range(),
            dot3_token: node.part(1).range(),
            arg: node.part(2),
            type_ann: node.part(3),
        }
    }
}

impl RestPat<Tree> {
    /// The node of these fields.
    pub fn into_tree(self, alloc: Global) -> Result<Tree, AllocError>
        ensures { IfOk result (λ tree. tree ≡
            rest_pat self.span self.dot3_token self.arg self.type_ann) }
    {
        let RestPat {
            span,
            dot3_token,
            arg,
            type_ann,
        } = self;
        Tree::node(
            alloc,
            Kind::RestPat,
            [Tree::Range(span), Tree::Range(dot3_token), arg, type_ann],
        )
    }
}

/// `{ props }: type_ann`.
#[derive(Drop)]
pub struct ObjectPat<N> {
    pub span: SourceRange,
    /// A list of `ObjectPatProp`.
    pub props: N,
    /// Whether a `?` stands behind it.
    pub optional: bool,
    /// A `TsTypeAnn`, or absent.
    pub type_ann: N,
}

impl<'a> ObjectPat<Part<'a>> {
    /// The fields of a node.
    pub fn of(node: Part<'a>) -> Self
        ensures { ReadsObjectPat result (seen node.entry) }
    {
        ObjectPat {
            span: node.part(0).range(),
            props: node.part(1),
            optional: node.part(2).flag(),
            type_ann: node.part(3),
        }
    }
}

impl ObjectPat<Tree> {
    /// The node of these fields.
    pub fn into_tree(self, alloc: Global) -> Result<Tree, AllocError>
        ensures { IfOk result (λ tree. tree ≡
            object_pat self.span self.props self.optional self.type_ann) }
    {
        let ObjectPat {
            span,
            props,
            optional,
            type_ann,
        } = self;
        Tree::node(
            alloc,
            Kind::ObjectPat,
            [Tree::Range(span), props, Tree::Flag(optional), type_ann],
        )
    }
}

/// `left = right`.
#[derive(Drop)]
pub struct AssignPat<N> {
    pub span: SourceRange,
    /// A `Pat`.
    pub left: N,
    /// An `Expr`.
    pub right: N,
}

impl<'a> AssignPat<Part<'a>> {
    /// The fields of a node.
    pub fn of(node: Part<'a>) -> Self
        ensures { ReadsAssignPat result (seen node.entry) }
    {
        AssignPat {
            span: node.part(0).range(),
            left: node.part(1),
            right: node.part(2),
        }
    }
}

impl AssignPat<Tree> {
    /// The node of these fields.
    pub fn into_tree(self, alloc: Global) -> Result<Tree, AllocError>
        ensures { IfOk result (λ tree. tree ≡ assign_pat self.span self.left self.right) }
    {
        let AssignPat { span, left, right } = self;
        Tree::node(alloc, Kind::AssignPat, [Tree::Range(span), left, right])
    }
}

/// `key: value` in an object pattern.
#[derive(Drop)]
pub struct KeyValuePatProp<N> {
    /// A `PropName`.
    pub key: N,
    /// A `Pat`.
    pub value: N,
}

impl<'a> KeyValuePatProp<Part<'a>> {
    /// The fields of a node.
    pub fn of(node: Part<'a>) -> Self
        ensures { ReadsKeyValuePatProp result (seen node.entry) }
    {
        KeyValuePatProp {
            key: node.part(0),
            value: node.part(1),
        }
    }
}

impl KeyValuePatProp<Tree> {
    /// The node of these fields.
    pub fn into_tree(self, alloc: Global) -> Result<Tree, AllocError>
        ensures { IfOk result (λ tree. tree ≡ key_value_pat_prop self.key self.value) }
    {
        let KeyValuePatProp { key, value } = self;
        Tree::node(alloc, Kind::KeyValuePatProp, [key, value])
    }
}

/// `key = value` in an object pattern, or `key` alone.
#[derive(Drop)]
pub struct AssignPatProp<N> {
    pub span: SourceRange,
    /// A `BindingIdent`.
    pub key: N,
    /// An `Expr`, or absent.
    pub value: N,
}

impl<'a> AssignPatProp<Part<'a>> {
    /// The fields of a node.
    pub fn of(node: Part<'a>) -> Self
        ensures { ReadsAssignPatProp result (seen node.entry) }
    {
        AssignPatProp {
            span: node.part(0).range(),
            key: node.part(1),
            value: node.part(2),
        }
    }
}

impl AssignPatProp<Tree> {
    /// The node of these fields.
    pub fn into_tree(self, alloc: Global) -> Result<Tree, AllocError>
        ensures { IfOk result (λ tree. tree ≡ assign_pat_prop self.span self.key self.value) }
    {
        let AssignPatProp { span, key, value } = self;
        Tree::node(alloc, Kind::AssignPatProp, [Tree::Range(span), key, value])
    }
}

/// An expression where a pattern stands, as `a.b` in `[a.b] = c`.
#[derive(Drop)]
pub struct PatExpr<N> {
    /// An `Expr`.
    pub expr: N,
}

impl<'a> PatExpr<Part<'a>> {
    /// The fields of a node.
    pub fn of(node: Part<'a>) -> Self
        ensures { ReadsPatExpr result (seen node.entry) }
    {
        PatExpr { expr: node.part(0) }
    }
}

impl PatExpr<Tree> {
    /// The node of these fields.
    pub fn into_tree(self, alloc: Global) -> Result<Tree, AllocError>
        ensures { IfOk result (λ tree. tree ≡ pat_expr self.expr) }
    {
        let PatExpr { expr } = self;
        Tree::node(alloc, Kind::PatExpr, [expr])
    }
}

/// A pattern that is assigned to, as `[a]` in `[a] = b`.
#[derive(Drop)]
pub struct TargetPat<N> {
    /// A `Pat`.
    pub pat: N,
}

impl<'a> TargetPat<Part<'a>> {
    /// The fields of a node.
    pub fn of(node: Part<'a>) -> Self
        ensures { ReadsTargetPat result (seen node.entry) }
    {
        TargetPat { pat: node.part(0) }
    }
}

impl TargetPat<Tree> {
    /// The node of these fields.
    pub fn into_tree(self, alloc: Global) -> Result<Tree, AllocError>
        ensures { IfOk result (λ tree. tree ≡ target_pat self.pat) }
    {
        let TargetPat { pat } = self;
        Tree::node(alloc, Kind::TargetPat, [pat])
    }
}
