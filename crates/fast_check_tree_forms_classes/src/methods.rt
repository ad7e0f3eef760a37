//! Methods of a class. Each form with its fields by their names.
// Written by forms/write.py from forms/forms.txt.

ghost use Rattle.std.specs.Prelude.{◌≡◌, IfOk};
ghost use Rattle.fast_check_tree_syntax.specs.Part.{seen};
ghost use Rattle.fast_check_tree_forms_classes.specs.Methods.{
  ReadsClassMethod,
  class_method,
  ReadsPrivateMethod,
  private_method,
};

use fast_check_tree_syntax::{Kind, Part, SourceRange, Tree};
use std::alloc::{AllocError, Global};

/// `key(..) ..`, with the rest in `function`.
#[derive(Drop)]
pub struct ClassMethod<N> {
    pub span: SourceRange,
    /// A `PropName`.
    pub key: N,
    /// A `Function`.
    pub function: N,
    /// The word `Method`, `Getter` or `Setter`.
    pub kind: N,
    pub is_static: bool,
    /// The word `Public`, `Protected` or `Private`, or absent.
    pub accessibility: N,
    pub is_abstract: bool,
    /// Whether a `?` stands behind the key.
    pub is_optional: bool,
    pub is_override: bool,
}

impl<'a> ClassMethod<Part<'a>> {
    /// The fields of a node.
    pub fn of(node: Part<'a>) -> Self
        ensures { ReadsClassMethod result (seen node.entry) }
    {
        ClassMethod {
            span: node.part(0).range(),
            key: node.part(1),
            function: node.part(2),
            kind: node.part(3),
            is_static: node.part(4).flag(),
            accessibility: node.part(5),
            is_abstract: node.part(6).flag(),
            is_optional: node.part(7).flag(),
            is_override: node.part(8).flag(),
        }
    }
}

impl ClassMethod<Tree> {
    /// The node of these fields.
    pub fn into_tree(self, alloc: Global) -> Result<Tree, AllocError>
        ensures { IfOk result (λ tree. tree ≡
            class_method self.span self.key self.function self.kind self.is_static
            self.accessibility self.is_abstract self.is_optional self.is_override) }
    {
        let ClassMethod {
            span,
            key,
            function,
            kind,
            is_static,
            accessibility,
            is_abstract,
            is_optional,
            is_override,
        } = self;
        Tree::node(
            alloc,
            Kind::ClassMethod,
            [
                Tree::Range(span),
                key,
                function,
                kind,
                Tree::Flag(is_static),
                accessibility,
                Tree::Flag(is_abstract),
                Tree::Flag(is_optional),
                Tree::Flag(is_override),
            ],
        )
    }
}

/// `#key(..) ..`, with the rest in `function`.
#[derive(Drop)]
pub struct PrivateMethod<N> {
    pub span: SourceRange,
    /// A `PrivateName`.
    pub key: N,
    /// A `Function`.
    pub function: N,
    /// The word `Method`, `Getter` or `Setter`.
    pub kind: N,
    pub is_static: bool,
    /// The word `Public`, `Protected` or `Private`, or absent.
    pub accessibility: N,
    pub is_abstract: bool,
    /// Whether a `?` stands behind the key.
    pub is_optional: bool,
    pub is_override: bool,
}

impl<'a> PrivateMethod<Part<'a>> {
    /// The fields of a node.
    pub fn of(node: Part<'a>) -> Self
        ensures { ReadsPrivateMethod result (seen node.entry) }
    {
        PrivateMethod {
            span: node.part(0).range(),
            key: node.part(1),
            function: node.part(2),
            kind: node.part(3),
            is_static: node.part(4).flag(),
            accessibility: node.part(5),
            is_abstract: node.part(6).flag(),
            is_optional: node.part(7).flag(),
            is_override: node.part(8).flag(),
        }
    }
}

impl PrivateMethod<Tree> {
    /// The node of these fields.
    pub fn into_tree(self, alloc: Global) -> Result<Tree, AllocError>
        ensures { IfOk result (λ tree. tree ≡
            private_method self.span self.key self.function self.kind self.is_static
            self.accessibility self.is_abstract self.is_optional self.is_override) }
    {
        let PrivateMethod {
            span,
            key,
            function,
            kind,
            is_static,
            accessibility,
            is_abstract,
            is_optional,
            is_override,
        } = self;
        Tree::node(
            alloc,
            Kind::PrivateMethod,
            [
                Tree::Range(span),
                key,
                function,
                kind,
                Tree::Flag(is_static),
                accessibility,
                Tree::Flag(is_abstract),
                Tree::Flag(is_optional),
                Tree::Flag(is_override),
            ],
        )
    }
}
