//! Classes, constructors and the rarer members. Each form with its fields by their names.
// Written by forms/write.py from forms/forms.txt.

ghost use Rattle.std.specs.Prelude.{◌≡◌, IfOk};
ghost use Rattle.fast_check_tree_syntax.specs.Part.{seen};
ghost use Rattle.fast_check_tree_forms_classes.specs.Classes.{
  ReadsClass,
  class,
  ReadsConstructor,
  constructor,
  ReadsTsParamProp,
  ts_param_prop,
  ReadsStaticBlock,
  static_block,
  ReadsTsIndexSignature,
  ts_index_signature,
};

use fast_check_tree_syntax::{Kind, Part, SourceRange, SyntaxContext, Tree};
use std::alloc::{AllocError, Global};

/// `<type_params> extends super_class<super_type_params> implements implements { body }`, behind the name of a class.
#[derive(Drop)]
pub struct Class<N> {
    pub span: SourceRange,
    /// The scope that the class opens.
    pub ctxt: SyntaxContext,
    /// A list of `Decorator`.
    pub decorators: N,
    /// A list of `ClassMember`.
    pub body: N,
    /// An `Expr`, or absent.
    pub super_class: N,
    /// Whether `abstract` stands before it.
    pub is_abstract: bool,
    /// A `TsTypeParamDecl`, or absent.
    pub type_params: N,
    /// A `TsTypeParamInstantiation`, or absent.
    pub super_type_params: N,
    /// A list of `TsExprWithTypeArgs`.
    pub implements: N,
}

impl<'a> Class<Part<'a>> {
    /// The fields of a node.
    pub fn of(node: Part<'a>) -> Self
        ensures { ReadsClass result (seen node.entry) }
    {
        Class {
            span: node.part(0).range(),
            ctxt: node.part(1).context(),
            decorators: node.part(2),
            body: node.part(3),
            super_class: node.part(4),
            is_abstract: node.part(5).flag(),
            type_params: node.part(6),
            super_type_params: node.part(7),
            implements: node.part(8),
        }
    }
}

impl Class<Tree> {
    /// The node of these fields.
    pub fn into_tree(self, alloc: Global) -> Result<Tree, AllocError>
        ensures { IfOk result (λ tree. tree ≡
            class self.span self.ctxt self.decorators self.body self.super_class
            self.is_abstract self.type_params self.super_type_params self.implements) }
    {
        let Class {
            span,
            ctxt,
            decorators,
            body,
            super_class,
            is_abstract,
            type_params,
            super_type_params,
            implements,
        } = self;
        Tree::node(
            alloc,
            Kind::Class,
            [
                Tree::Range(span),
                Tree::Context(ctxt),
                decorators,
                body,
                super_class,
                Tree::Flag(is_abstract),
                type_params,
                super_type_params,
                implements,
            ],
        )
    }
}

/// `accessibility constructor(params) body`.
#[derive(Drop)]
pub struct Constructor<N> {
    pub span: SourceRange,
    pub ctxt: SyntaxContext,
    /// A `PropName`, which says `constructor`.
    pub key: N,
    /// A list of `ParamOrTsParamProp`.
    pub params: N,
    /// A `BlockStmt`, or absent.
    pub body: N,
    /// The word `Public`, `Protected` or `Private`, or absent.
    pub accessibility: N,
    /// Whether a `?` stands behind the key.
    pub is_optional: bool,
}

impl<'a> Constructor<Part<'a>> {
    /// The fields of a node.
    pub fn of(node: Part<'a>) -> Self
        ensures { ReadsConstructor result (seen node.entry) }
    {
        Constructor {
            span: node.part(0).range(),
            ctxt: node.part(1).context(),
            key: node.part(2),
            params: node.part(3),
            body: node.part(4),
            accessibility: node.part(5),
            is_optional: node.part(6).flag(),
        }
    }
}

impl Constructor<Tree> {
    /// The node of these fields.
    pub fn into_tree(self, alloc: Global) -> Result<Tree, AllocError>
        ensures { IfOk result (λ tree. tree ≡
            constructor self.span self.ctxt self.key self.params self.body self.accessibility
            self.is_optional) }
    {
        let Constructor {
            span,
            ctxt,
            key,
            params,
            body,
            accessibility,
            is_optional,
        } = self;
        Tree::node(
            alloc,
            Kind::Constructor,
            [
                Tree::Range(span),
                Tree::Context(ctxt),
                key,
                params,
                body,
                accessibility,
                Tree::Flag(is_optional),
            ],
        )
    }
}

/// A parameter of a constructor that is a property too: `accessibility param`.
#[derive(Drop)]
pub struct TsParamProp<N> {
    pub span: SourceRange,
    /// A list of `Decorator`.
    pub decorators: N,
    /// The word `Public`, `Protected` or `Private`, or absent.
    pub accessibility: N,
    pub is_override: bool,
    pub readonly: bool,
    /// A `TsParamPropParam`.
    pub param: N,
}

impl<'a> TsParamProp<Part<'a>> {
    /// The fields of a node.
    pub fn of(node: Part<'a>) -> Self
        ensures { ReadsTsParamProp result (seen node.entry) }
    {
        TsParamProp {
            span: node.part(0).range(),
            decorators: node.part(1),
            accessibility: node.part(2),
            is_override: node.part(3).flag(),
            readonly: node.part(4).flag(),
            param: node.part(5),
        }
    }
}

impl TsParamProp<Tree> {
    /// The node of these fields.
    pub fn into_tree(self, alloc: Global) -> Result<Tree, AllocError>
        ensures { IfOk result (λ tree. tree ≡
            ts_param_prop self.span self.decorators self.accessibility self.is_override
            self.readonly self.param) }
    {
        let TsParamProp {
            span,
            decorators,
            accessibility,
            is_override,
            readonly,
            param,
        } = self;
        Tree::node(
            alloc,
            Kind::TsParamProp,
            [
                Tree::Range(span),
                decorators,
                accessibility,
                Tree::Flag(is_override),
                Tree::Flag(readonly),
                param,
            ],
        )
    }
}

/// `static body`.
#[derive(Drop)]
pub struct StaticBlock<N> {
    pub span: SourceRange,
    /// A `BlockStmt`.
    pub body: N,
}

impl<'a> StaticBlock<Part<'a>> {
    /// The fields of a node.
    pub fn of(node: Part<'a>) -> Self
        ensures { ReadsStaticBlock result (seen node.entry) }
    {
        StaticBlock {
            span: node.part(0).range(),
            body: node.part(1),
        }
    }
}

impl StaticBlock<Tree> {
    /// The node of these fields.
    pub fn into_tree(self, alloc: Global) -> Result<Tree, AllocError>
        ensures { IfOk result (λ tree. tree ≡ static_block self.span self.body) }
    {
        let StaticBlock { span, body } = self;
        Tree::node(alloc, Kind::StaticBlock, [Tree::Range(span), body])
    }
}

/// `[params]: type_ann`, in a class, an interface or a type literal.
#[derive(Drop)]
pub struct TsIndexSignature<N> {
    pub span: SourceRange,
    /// A list of `Pat`.
    pub params: N,
    /// A `TsTypeAnn`, or absent.
    pub type_ann: N,
    pub readonly: bool,
    pub is_static: bool,
}

impl<'a> TsIndexSignature<Part<'a>> {
    /// The fields of a node.
    pub fn of(node: Part<'a>) -> Self
        ensures { ReadsTsIndexSignature result (seen node.entry) }
    {
        TsIndexSignature {
            span: node.part(0).range(),
            params: node.part(1),
            type_ann: node.part(2),
            readonly: node.part(3).flag(),
            is_static: node.part(4).flag(),
        }
    }
}

impl TsIndexSignature<Tree> {
    /// The node of these fields.
    pub fn into_tree(self, alloc: Global) -> Result<Tree, AllocError>
        ensures { IfOk result (λ tree. tree ≡
            ts_index_signature self.span self.params self.type_ann self.readonly self.is_static) }
    {
        let TsIndexSignature {
            span,
            params,
            type_ann,
            readonly,
            is_static,
        } = self;
        Tree::node(
            alloc,
            Kind::TsIndexSignature,
            [
                Tree::Range(span),
                params,
                type_ann,
                Tree::Flag(readonly),
                Tree::Flag(is_static),
            ],
        )
    }
}
