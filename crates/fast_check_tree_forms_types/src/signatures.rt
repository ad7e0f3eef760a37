//! Function types, and the members of interfaces and type literals. Each form with its fields by their names.
// Written by forms/write.py from forms/forms.txt.

ghost use Rattle.std.specs.Prelude.{◌≡◌, IfOk};
ghost use Rattle.fast_check_tree_syntax.specs.Part.{seen};
ghost use Rattle.fast_check_tree_forms_types.specs.Signatures.{
  ReadsTsFnType,
  ts_fn_type,
  ReadsTsConstructorType,
  ts_constructor_type,
  ReadsTsCallSignatureDecl,
  ts_call_signature_decl,
  ReadsTsConstructSignatureDecl,
  ts_construct_signature_decl,
  ReadsTsPropertySignature,
  ts_property_signature,
  ReadsTsGetterSignature,
  ts_getter_signature,
  ReadsTsSetterSignature,
  ts_setter_signature,
  ReadsTsMethodSignature,
  ts_method_signature,
};

use fast_check_tree_syntax::{Kind, Part, SourceRange, Tree};
use std::alloc::{AllocError, Global};

/// `<type_params>(params) => type_ann`.
#[derive(Drop)]
pub struct TsFnType<N> {
    pub span: SourceRange,
    /// A list of `Pat`.
    pub params: N,
    /// A `TsTypeParamDecl`, or absent.
    pub type_params: N,
    /// A `TsTypeAnn`.
    pub type_ann: N,
    pub is_abstract: bool,
}

impl<'a> TsFnType<Part<'a>> {
    /// The fields of a node.
    pub fn of(node: Part<'a>) -> Self
        ensures { ReadsTsFnType result (seen node.entry) }
    {
        TsFnType {
            span: node.part(0).range(),
            params: node.part(1),
            type_params: node.part(2),
            type_ann: node.part(3),
            is_abstract: node.part(4).flag(),
        }
    }
}

impl TsFnType<Tree> {
    /// The node of these fields.
    pub fn into_tree(self, alloc: Global) -> Result<Tree, AllocError>
        ensures { IfOk result (λ tree. tree ≡
            ts_fn_type self.span self.params self.type_params self.type_ann self.is_abstract) }
    {
        let TsFnType {
            span,
            params,
            type_params,
            type_ann,
            is_abstract,
        } = self;
        Tree::node(
            alloc,
            Kind::TsFnType,
            [
                Tree::Range(span),
                params,
                type_params,
                type_ann,
                Tree::Flag(is_abstract),
            ],
        )
    }
}

/// `new <type_params>(params) => type_ann`.
#[derive(Drop)]
pub struct TsConstructorType<N> {
    pub span: SourceRange,
    /// A list of `Pat`.
    pub params: N,
    /// A `TsTypeParamDecl`, or absent.
    pub type_params: N,
    /// A `TsTypeAnn`.
    pub type_ann: N,
    /// Whether `abstract` stands before it.
    pub is_abstract: bool,
}

impl<'a> TsConstructorType<Part<'a>> {
    /// The fields of a node.
    pub fn of(node: Part<'a>) -> Self
        ensures { ReadsTsConstructorType result (seen node.entry) }
    {
        TsConstructorType {
            span: node.part(0).range(),
            params: node.part(1),
            type_params: node.part(2),
            type_ann: node.part(3),
            is_abstract: node.part(4).flag(),
        }
    }
}

impl TsConstructorType<Tree> {
    /// The node of these fields.
    pub fn into_tree(self, alloc: Global) -> Result<Tree, AllocError>
        ensures { IfOk result (λ tree. tree ≡
            ts_constructor_type self.span self.params self.type_params self.type_ann
            self.is_abstract) }
    {
        let TsConstructorType {
            span,
            params,
            type_params,
            type_ann,
            is_abstract,
        } = self;
        Tree::node(
            alloc,
            Kind::TsConstructorType,
            [
                Tree::Range(span),
                params,
                type_params,
                type_ann,
                Tree::Flag(is_abstract),
            ],
        )
    }
}

/// `<type_params>(params): type_ann`.
#[derive(Drop)]
pub struct TsCallSignatureDecl<N> {
    pub span: SourceRange,
    /// A list of `Pat`.
    pub params: N,
    /// A `TsTypeAnn`, or absent.
    pub type_ann: N,
    /// A `TsTypeParamDecl`, or absent.
    pub type_params: N,
}

impl<'a> TsCallSignatureDecl<Part<'a>> {
    /// The fields of a node.
    pub fn of(node: Part<'a>) -> Self
        ensures { ReadsTsCallSignatureDecl result (seen node.entry) }
    {
        TsCallSignatureDecl {
            span: node.part(0).range(),
            params: node.part(1),
            type_ann: node.part(2),
            type_params: node.part(3),
        }
    }
}

impl TsCallSignatureDecl<Tree> {
    /// The node of these fields.
    pub fn into_tree(self, alloc: Global) -> Result<Tree, AllocError>
        ensures { IfOk result (λ tree. tree ≡
            ts_call_signature_decl self.span self.params self.type_ann self.type_params) }
    {
        let TsCallSignatureDecl {
            span,
            params,
            type_ann,
            type_params,
        } = self;
        Tree::node(
            alloc,
            Kind::TsCallSignatureDecl,
            [Tree::Range(span), params, type_ann, type_params],
        )
    }
}

/// `new <type_params>(params): type_ann`.
#[derive(Drop)]
pub struct TsConstructSignatureDecl<N> {
    pub span: SourceRange,
    /// A list of `Pat`.
    pub params: N,
    /// A `TsTypeAnn`, or absent.
    pub type_ann: N,
    /// A `TsTypeParamDecl`, or absent.
    pub type_params: N,
}

impl<'a> TsConstructSignatureDecl<Part<'a>> {
    /// The fields of a node.
    pub fn of(node: Part<'a>) -> Self
        ensures { ReadsTsConstructSignatureDecl result (seen node.entry) }
    {
        TsConstructSignatureDecl {
            span: node.part(0).range(),
            params: node.part(1),
            type_ann: node.part(2),
            type_params: node.part(3),
        }
    }
}

impl TsConstructSignatureDecl<Tree> {
    /// The node of these fields.
    pub fn into_tree(self, alloc: Global) -> Result<Tree, AllocError>
        ensures { IfOk result (λ tree. tree ≡
            ts_construct_signature_decl self.span self.params self.type_ann self.type_params) }
    {
        let TsConstructSignatureDecl {
            span,
            params,
            type_ann,
            type_params,
        } = self;
        Tree::node(
            alloc,
            Kind::TsConstructSignatureDecl,
            [Tree::Range(span), params, type_ann, type_params],
        )
    }
}

/// `key: type_ann`.
#[derive(Drop)]
pub struct TsPropertySignature<N> {
    pub span: SourceRange,
    /// An `Expr`.
    pub key: N,
    /// Whether the key stands in brackets.
    pub computed: bool,
    pub readonly: bool,
    /// Whether a `?` stands behind the key.
    pub optional: bool,
    /// A `TsTypeAnn`, or absent.
    pub type_ann: N,
}

impl<'a> TsPropertySignature<Part<'a>> {
    /// The fields of a node.
    pub fn of(node: Part<'a>) -> Self
        ensures { ReadsTsPropertySignature result (seen node.entry) }
    {
        TsPropertySignature {
            span: node.part(0).range(),
            key: node.part(1),
            computed: node.part(2).flag(),
            readonly: node.part(3).flag(),
            optional: node.part(4).flag(),
            type_ann: node.part(5),
        }
    }
}

impl TsPropertySignature<Tree> {
    /// The node of these fields.
    pub fn into_tree(self, alloc: Global) -> Result<Tree, AllocError>
        ensures { IfOk result (λ tree. tree ≡
            ts_property_signature self.span self.key self.computed self.readonly self.optional
            self.type_ann) }
    {
        let TsPropertySignature {
            span,
            key,
            computed,
            readonly,
            optional,
            type_ann,
        } = self;
        Tree::node(
            alloc,
            Kind::TsPropertySignature,
            [
                Tree::Range(span),
                key,
                Tree::Flag(computed),
                Tree::Flag(readonly),
                Tree::Flag(optional),
                type_ann,
            ],
        )
    }
}

/// `get key(): type_ann`.
#[derive(Drop)]
pub struct TsGetterSignature<N> {
    pub span: SourceRange,
    /// An `Expr`.
    pub key: N,
    /// Whether the key stands in brackets.
    pub computed: bool,
    /// A `TsTypeAnn`, or absent.
    pub type_ann: N,
}

impl<'a> TsGetterSignature<Part<'a>> {
    /// The fields of a node.
    pub fn of(node: Part<'a>) -> Self
        ensures { ReadsTsGetterSignature result (seen node.entry) }
    {
        TsGetterSignature {
            span: node.part(0).range(),
            key: node.part(1),
            computed: node.part(2).flag(),
            type_ann: node.part(3),
        }
    }
}

impl TsGetterSignature<Tree> {
    /// The node of these fields.
    pub fn into_tree(self, alloc: Global) -> Result<Tree, AllocError>
        ensures { IfOk result (λ tree. tree ≡
            ts_getter_signature self.span self.key self.computed self.type_ann) }
    {
        let TsGetterSignature {
            span,
            key,
            computed,
            type_ann,
        } = self;
        Tree::node(
            alloc,
            Kind::TsGetterSignature,
            [Tree::Range(span), key, Tree::Flag(computed), type_ann],
        )
    }
}

/// `set key(params)`.
#[derive(Drop)]
pub struct TsSetterSignature<N> {
    pub span: SourceRange,
    /// An `Expr`.
    pub key: N,
    /// Whether the key stands in brackets.
    pub computed: bool,
    /// A list of `Pat`, of one.
    pub params: N,
}

impl<'a> TsSetterSignature<Part<'a>> {
    /// The fields of a node.
    pub fn of(node: Part<'a>) -> Self
        ensures { ReadsTsSetterSignature result (seen node.entry) }
    {
        TsSetterSignature {
            span: node.part(0).range(),
            key: node.part(1),
            computed: node.part(2).flag(),
            params: node.part(3),
        }
    }
}

impl TsSetterSignature<Tree> {
    /// The node of these fields.
    pub fn into_tree(self, alloc: Global) -> Result<Tree, AllocError>
        ensures { IfOk result (λ tree. tree ≡
            ts_setter_signature self.span self.key self.computed self.params) }
    {
        let TsSetterSignature {
            span,
            key,
            computed,
            params,
        } = self;
        Tree::node(
            alloc,
            Kind::TsSetterSignature,
            [Tree::Range(span), key, Tree::Flag(computed), params],
        )
    }
}

/// `key<type_params>(params): type_ann`.
#[derive(Drop)]
pub struct TsMethodSignature<N> {
    pub span: SourceRange,
    /// An `Expr`.
    pub key: N,
    /// Whether the key stands in brackets.
    pub computed: bool,
    /// Whether a `?` stands behind the key.
    pub optional: bool,
    /// A list of `Pat`.
    pub params: N,
    /// A `TsTypeAnn`, or absent.
    pub type_ann: N,
    /// A `TsTypeParamDecl`, or absent.
    pub type_params: N,
}

impl<'a> TsMethodSignature<Part<'a>> {
    /// The fields of a node.
    pub fn of(node: Part<'a>) -> Self
        ensures { ReadsTsMethodSignature result (seen node.entry) }
    {
        TsMethodSignature {
            span: node.part(0).range(),
            key: node.part(1),
            computed: node.part(2).flag(),
            optional: node.part(3).flag(),
            params: node.part(4),
            type_ann: node.part(5),
            type_params: node.part(6),
        }
    }
}

impl TsMethodSignature<Tree> {
    /// The node of these fields.
    pub fn into_tree(self, alloc: Global) -> Result<Tree, AllocError>
        ensures { IfOk result (λ tree. tree ≡
            ts_method_signature self.span self.key self.computed self.optional self.params
            self.type_ann self.type_params) }
    {
        let TsMethodSignature {
            span,
            key,
            computed,
            optional,
            params,
            type_ann,
            type_params,
        } = self;
        Tree::node(
            alloc,
            Kind::TsMethodSignature,
            [
                Tree::Range(span),
                key,
                Tree::Flag(computed),
                Tree::Flag(optional),
                params,
                type_ann,
                type_params,
            ],
        )
    }
}
