//! Properties and accessors of a class. Each form with its fields by their names.
// Written by forms/write.py from forms/forms.txt.

ghost use Rattle.std.specs.Prelude.{◌≡◌, IfOk};
ghost use Rattle.fast_check_tree_syntax.specs.Part.{seen};
ghost use Rattle.fast_check_tree_forms_classes.specs.Fields.{
  ReadsClassProp,
  class_prop,
  ReadsPrivateProp,
  private_prop,
  ReadsAutoAccessor,
  auto_accessor,
};

use fast_check_tree_syntax::{Kind, Part, SourceRange, SyntaxContext, Tree};
use std::alloc::{AllocError, Global};

/// `key: type_ann = value;`, behind its modifiers.
#[derive(Drop)]
pub struct ClassProp<N> {
    pub span: SourceRange,
    /// A `PropName`.
    pub key: N,
    /// An `Expr`, or absent.
    pub value: N,
    /// A `TsTypeAnn`, or absent.
    pub type_ann: N,
    pub is_static: bool,
    /// A list of `Decorator`.
    pub decorators: N,
    /// The word `Public`, `Protected` or `Private`, or absent.
    pub accessibility: N,
    pub is_abstract: bool,
    /// Whether a `?` stands behind the key.
    pub is_optional: bool,
    pub is_override: bool,
    pub readonly: bool,
    pub declare: bool,
    /// Whether a `!` stands behind the key.
    pub definite: bool,
}

impl<'a> ClassProp<Part<'a>> {
    /// The fields of a node.
    pub fn of(node: Part<'a>) -> Self
        ensures { ReadsClassProp result (seen node.entry) }
    {
        ClassProp {
            span: node.part(0).range(),
            key: node.part(1),
            value: node.part(2),
            type_ann: node.part(3),
            is_static: node.part(4).flag(),
            decorators: node.part(5),
            accessibility: node.part(6),
            is_abstract: node.part(7).flag(),
            is_optional: node.part(8).flag(),
            is_override: node.part(9).flag(),
            readonly: node.part(10).flag(),
            declare: node.part(11).flag(),
            definite: node.part(12).flag(),
        }
    }
}

impl ClassProp<Tree> {
    /// The node of these fields.
    pub fn into_tree(self, alloc: Global) -> Result<Tree, AllocError>
        ensures { IfOk result (λ tree. tree ≡
            class_prop self.span self.key self.value self.type_ann self.is_static
            self.decorators self.accessibility self.is_abstract self.is_optional
            self.is_override self.readonly self.declare self.definite) }
    {
        let ClassProp {
            span,
            key,
            value,
            type_ann,
            is_static,
            decorators,
            accessibility,
            is_abstract,
            is_optional,
            is_override,
            readonly,
            declare,
            definite,
        } = self;
        Tree::node(
            alloc,
            Kind::ClassProp,
            [
                Tree::Range(span),
                key,
                value,
                type_ann,
                Tree::Flag(is_static),
                decorators,
                accessibility,
                Tree::Flag(is_abstract),
                Tree::Flag(is_optional),
                Tree::Flag(is_override),
                Tree::Flag(readonly),
                Tree::Flag(declare),
                Tree::Flag(definite),
            ],
        )
    }
}

/// `#key: type_ann = value;`, behind its modifiers.
#[derive(Drop)]
pub struct PrivateProp<N> {
    pub span: SourceRange,
    /// The scope that it stands in.
    pub ctxt: SyntaxContext,
    /// A `PrivateName`.
    pub key: N,
    /// An `Expr`, or absent.
    pub value: N,
    /// A `TsTypeAnn`, or absent.
    pub type_ann: N,
    pub is_static: bool,
    /// A list of `Decorator`.
    pub decorators: N,
    /// The word `Public`, `Protected` or `Private`, or absent.
    pub accessibility: N,
    /// Whether a `?` stands behind the key.
    pub is_optional: bool,
    pub is_override: bool,
    pub readonly: bool,
    /// Whether a `!` stands behind the key.
    pub definite: bool,
}

impl<'a> PrivateProp<Part<'a>> {
    /// The fields of a node.
    pub fn of(node: Part<'a>) -> Self
        ensures { ReadsPrivateProp result (seen node.entry) }
    {
        PrivateProp {
            span: node.part(0).range(),
            ctxt: node.part(1).context(),
            key: node.part(2),
            value: node.part(3),
            type_ann: node.part(4),
            is_static: node.part(5).flag(),
            decorators: node.part(6),
            accessibility: node.part(7),
            is_optional: node.part(8).flag(),
            is_override: node.part(9).flag(),
            readonly: node.part(10).flag(),
            definite: node.part(11).flag(),
        }
    }
}

impl PrivateProp<Tree> {
    /// The node of these fields.
    pub fn into_tree(self, alloc: Global) -> Result<Tree, AllocError>
        ensures { IfOk result (λ tree. tree ≡
            private_prop self.span self.ctxt self.key self.value self.type_ann self.is_static
            self.decorators self.accessibility self.is_optional self.is_override
            self.readonly self.definite) }
    {
        let PrivateProp {
            span,
            ctxt,
            key,
            value,
            type_ann,
            is_static,
            decorators,
            accessibility,
            is_optional,
            is_override,
            readonly,
            definite,
        } = self;
        Tree::node(
            alloc,
            Kind::PrivateProp,
            [
                Tree::Range(span),
                Tree::Context(ctxt),
                key,
                value,
                type_ann,
                Tree::Flag(is_static),
                decorators,
                accessibility,
                Tree::Flag(is_optional),
                Tree::Flag(is_override),
                Tree::Flag(readonly),
                Tree::Flag(definite),
            ],
        )
    }
}

/// `accessor key: type_ann = value;`, behind its modifiers.
#[derive(Drop)]
pub struct AutoAccessor<N> {
    pub span: SourceRange,
    /// A `Key`.
    pub key: N,
    /// An `Expr`, or absent.
    pub value: N,
    /// A `TsTypeAnn`, or absent.
    pub type_ann: N,
    pub is_static: bool,
    /// A list of `Decorator`.
    pub decorators: N,
    /// The word `Public`, `Protected` or `Private`, or absent.
    pub accessibility: N,
    pub is_abstract: bool,
    pub is_override: bool,
    /// Whether a `!` stands behind the key.
    pub definite: bool,
}

impl<'a> AutoAccessor<Part<'a>> {
    /// The fields of a node.
    pub fn of(node: Part<'a>) -> Self
        ensures { ReadsAutoAccessor result (seen node.entry) }
    {
        AutoAccessor {
            span: node.part(0).range(),
            key: node.part(1),
            value: node.part(2),
            type_ann: node.part(3),
            is_static: node.part(4).flag(),
            decorators: node.part(5),
            accessibility: node.part(6),
            is_abstract: node.part(7).flag(),
            is_override: node.part(8).flag(),
            definite: node.part(9).flag(),
        }
    }
}

impl AutoAccessor<Tree> {
    /// The node of these fields.
    pub fn into_tree(self, alloc: Global) -> Result<Tree, AllocError>
        ensures { IfOk result (λ tree. tree ≡
            auto_accessor self.span self.key self.value self.type_ann self.is_static
            self.decorators self.accessibility self.is_abstract self.is_override
            self.definite) }
    {
        let AutoAccessor {
            span,
            key,
            value,
            type_ann,
            is_static,
            decorators,
            accessibility,
            is_abstract,
            is_override,
            definite,
        } = self;
        Tree::node(
            alloc,
            Kind::AutoAccessor,
            [
                Tree::Range(span),
                key,
                value,
                type_ann,
                Tree::Flag(is_static),
                decorators,
                accessibility,
                Tree::Flag(is_abstract),
                Tree::Flag(is_override),
                Tree::Flag(definite),
            ],
        )
    }
}
