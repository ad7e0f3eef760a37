//! What stands in an object's braces. Each form with its fields by their names.
// Written by forms/write.py from forms/forms.txt.

ghost use Rattle.std.specs.Prelude.{◌≡◌, IfOk};
ghost use Rattle.fast_check_tree_syntax.specs.Part.{seen};
ghost use Rattle.fast_check_tree_forms_expressions.specs.Properties.{
  ReadsSpreadElement,
  spread_element,
  ReadsKeyValueProp,
  key_value_prop,
  ReadsAssignProp,
  assign_prop,
  ReadsGetterProp,
  getter_prop,
  ReadsSetterProp,
  setter_prop,
  ReadsMethodProp,
  method_prop,
  ReadsComputedPropName,
  computed_prop_name,
};

use fast_check_tree_syntax::{Kind, Part, SourceRange, Tree};
use std::alloc::{AllocError, Global};

/// `...expr` in an object.
#[derive(Drop)]
pub struct SpreadElement<N> {
    /// The range of the `...`.
    pub dot3_token: SourceRange,
    /// An `Expr`.
    pub expr: N,
}

impl<'a> SpreadElement<Part<'a>> {
    /// The fields of a node.
    pub fn of(node: Part<'a>) -> Self
        ensures { ReadsSpreadElement result (seen node.entry) }
    {
        SpreadElement {
            dot3_token: node.part(0).range(),
            expr: node.part(1),
        }
    }
}

impl SpreadElement<Tree> {
    /// The node of these fields.
    pub fn into_tree(self, alloc: Global) -> Result<Tree, AllocError>
        ensures { IfOk result (λ tree. tree ≡ spread_element self.dot3_token self.expr) }
    {
        let SpreadElement { dot3_token, expr } = self;
        Tree::node(alloc, Kind::SpreadElement, [Tree::Range(dot3_token), expr])
    }
}

/// `key: value`.
#[derive(Drop)]
pub struct KeyValueProp<N> {
    /// A `PropName`.
    pub key: N,
    /// An `Expr`.
    pub value: N,
}

impl<'a> KeyValueProp<Part<'a>> {
    /// The fields of a node.
    pub fn of(node: Part<'a>) -> Self
        ensures { ReadsKeyValueProp result (seen node.entry) }
    {
        KeyValueProp {
            key: node.part(0),
            value: node.part(1),
        }
    }
}

impl KeyValueProp<Tree> {
    /// The node of these fields.
    pub fn into_tree(self, alloc: Global) -> Result<Tree, AllocError>
        ensures { IfOk result (λ tree. tree ≡ key_value_prop self.key self.value) }
    {
        let KeyValueProp { key, value } = self;
        Tree::node(alloc, Kind::KeyValueProp, [key, value])
    }
}

/// `key = value`, which stands only in what is then read as a pattern.
#[derive(Drop)]
pub struct AssignProp<N> {
    pub span: SourceRange,
    /// An `Ident`.
    pub key: N,
    /// An `Expr`.
    pub value: N,
}

impl<'a> AssignProp<Part<'a>> {
    /// The fields of a node.
    pub fn of(node: Part<'a>) -> Self
        ensures { ReadsAssignProp result (seen node.entry) }
    {
        AssignProp {
            span: node.part(0).range(),
            key: node.part(1),
            value: node.part(2),
        }
    }
}

impl AssignProp<Tree> {
    /// The node of these fields.
    pub fn into_tree(self, alloc: Global) -> Result<Tree, AllocError>
        ensures { IfOk result (λ tree. tree ≡ assign_prop self.span self.key self.value) }
    {
        let AssignProp { span, key, value } = self;
        Tree::node(alloc, Kind::AssignProp, [Tree::Range(span), key, value])
    }
}

/// `get key(): type_ann body`.
#[derive(Drop)]
pub struct GetterProp<N> {
    pub span: SourceRange,
    /// A `PropName`.
    pub key: N,
    /// A `TsTypeAnn`, or absent.
    pub type_ann: N,
    /// A `BlockStmt`, or absent.
    pub body: N,
}

impl<'a> GetterProp<Part<'a>> {
    /// The fields of a node.
    pub fn of(node: Part<'a>) -> Self
        ensures { ReadsGetterProp result (seen node.entry) }
    {
        GetterProp {
            span: node.part(0).range(),
            key: node.part(1),
            type_ann: node.part(2),
            body: node.part(3),
        }
    }
}

impl GetterProp<Tree> {
    /// The node of these fields.
    pub fn into_tree(self, alloc: Global) -> Result<Tree, AllocError>
        ensures { IfOk result (λ tree. tree ≡
            getter_prop self.span self.key self.type_ann self.body) }
    {
        let GetterProp {
            span,
            key,
            type_ann,
            body,
        } = self;
        Tree::node(
            alloc,
            Kind::GetterProp,
            [Tree::Range(span), key, type_ann, body],
        )
    }
}

/// `set key(param) body`.
#[derive(Drop)]
pub struct SetterProp<N> {
    pub span: SourceRange,
    /// A `PropName`.
    pub key: N,
    /// A `Pat`.
    pub param: N,
    /// A `BlockStmt`, or absent.
    pub body: N,
}

impl<'a> SetterProp<Part<'a>> {
    /// The fields of a node.
    pub fn of(node: Part<'a>) -> Self
        ensures { ReadsSetterProp result (seen node.entry) }
    {
        SetterProp {
            span: node.part(0).range(),
            key: node.part(1),
            param: node.part(2),
            body: node.part(3),
        }
    }
}

impl SetterProp<Tree> {
    /// The node of these fields.
    pub fn into_tree(self, alloc: Global) -> Result<Tree, AllocError>
        ensures { IfOk result (λ tree. tree ≡
            setter_prop self.span self.key self.param self.body) }
    {
        let SetterProp {
            span,
            key,
            param,
            body,
        } = self;
        Tree::node(
            alloc,
            Kind::SetterProp,
            [Tree::Range(span), key, param, body],
        )
    }
}

/// `key(..) ..`, with the rest in `function`.
#[derive(Drop)]
pub struct MethodProp<N> {
    /// A `PropName`.
    pub key: N,
    /// A `Function`.
    pub function: N,
}

impl<'a> MethodProp<Part<'a>> {
    /// The fields of a node.
    pub fn of(node: Part<'a>) -> Self
        ensures { ReadsMethodProp result (seen node.entry) }
    {
        MethodProp {
            key: node.part(0),
            function: node.part(1),
        }
    }
}

impl MethodProp<Tree> {
    /// The node of these fields.
    pub fn into_tree(self, alloc: Global) -> Result<Tree, AllocError>
        ensures { IfOk result (λ tree. tree ≡ method_prop self.key self.function) }
    {
        let MethodProp { key, function } = self;
        Tree::node(alloc, Kind::MethodProp, [key, function])
    }
}

/// `[expr]`, as the name of a property.
#[derive(Drop)]
pub struct ComputedPropName<N> {
    pub span: SourceRange,
    /// An `Expr`.
    pub expr: N,
}

impl<'a> ComputedPropName<Part<'a>> {
    /// The fields of a node.
    pub fn of(node: Part<'a>) -> Self
        ensures { ReadsComputedPropName result (seen node.entry) }
    {
        ComputedPropName {
            span: node.part(0).range(),
            expr: node.part(1),
        }
    }
}

impl ComputedPropName<Tree> {
    /// The node of these fields.
    pub fn into_tree(self, alloc: Global) -> Result<Tree, AllocError>
        ensures { IfOk result (λ tree. tree ≡ computed_prop_name self.span self.expr) }
    {
        let ComputedPropName { span, expr } = self;
        Tree::node(alloc, Kind::ComputedPropName, [Tree::Range(span), expr])
    }
}
