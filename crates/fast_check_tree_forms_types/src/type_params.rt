//! Type parameters, type arguments and annotations. Each form with its fields by their names.
// Written by forms/write.py from forms/forms.txt.

ghost use Rattle.std.specs.Prelude.{◌≡◌, IfOk};
ghost use Rattle.fast_check_tree_syntax.specs.Part.{seen};
ghost use Rattle.fast_check_tree_forms_types.specs.TypeParams.{
  ReadsTsTypeParam,
  ts_type_param,
  ReadsTsTypeParamDecl,
  ts_type_param_decl,
  ReadsTsTypeParamInstantiation,
  ts_type_param_instantiation,
  ReadsTsTypeAnn,
  ts_type_ann,
};

use fast_check_tree_syntax::{Kind, Part, SourceRange, Tree};
use std::alloc::{AllocError, Global};

/// `name extends constraint = default`.
#[derive(Drop)]
pub struct TsTypeParam<N> {
    pub span: SourceRange,
    /// An `Ident`.
    pub name: N,
    /// Whether `in` stands before it.
    pub is_in: bool,
    /// Whether `out` stands before it.
    pub is_out: bool,
    /// Whether `const` stands before it.
    pub is_const: bool,
    /// A `TsType`, or absent.
    pub constraint: N,
    /// A `TsType`, or absent.
    pub default: N,
}

impl<'a> TsTypeParam<Part<'a>> {
    /// The fields of a node.
    pub fn of(node: Part<'a>) -> Self
        ensures { ReadsTsTypeParam result (seen node.entry) }
    {
        TsTypeParam {
            span: node.part(0).range(),
            name: node.part(1),
            is_in: node.part(2).flag(),
            is_out: node.part(3).flag(),
            is_const: node.part(4).flag(),
            constraint: node.part(5),
            default: node.part(6),
        }
    }
}

impl TsTypeParam<Tree> {
    /// The node of these fields.
    pub fn into_tree(self, alloc: Global) -> Result<Tree, AllocError>
        ensures { IfOk result (λ tree. tree ≡
            ts_type_param self.span self.name self.is_in self.is_out self.is_const
            self.constraint self.default) }
    {
        let TsTypeParam {
            span,
            name,
            is_in,
            is_out,
            is_const,
            constraint,
            default,
        } = self;
        Tree::node(
            alloc,
            Kind::TsTypeParam,
            [
                Tree::Range(span),
                name,
                Tree::Flag(is_in),
                Tree::Flag(is_out),
                Tree::Flag(is_const),
                constraint,
                default,
            ],
        )
    }
}

/// `<params>`, where they are declared.
#[derive(Drop)]
pub struct TsTypeParamDecl<N> {
    pub span: SourceRange,
    /// A list of `TsTypeParam`.
    pub params: N,
}

impl<'a> TsTypeParamDecl<Part<'a>> {
    /// The fields of a node.
    pub fn of(node: Part<'a>) -> Self
        ensures { ReadsTsTypeParamDecl result (seen node.entry) }
    {
        TsTypeParamDecl {
            span: node.part(0).range(),
            params: node.part(1),
        }
    }
}

impl TsTypeParamDecl<Tree> {
    /// The node of these fields.
    pub fn into_tree(self, alloc: Global) -> Result<Tree, AllocError>
        ensures { IfOk result (λ tree. tree ≡ ts_type_param_decl self.span self.params) }
    {
        let TsTypeParamDecl { span, params } = self;
        Tree::node(alloc, Kind::TsTypeParamDecl, [Tree::Range(span), params])
    }
}

/// `<params>`, as arguments.
#[derive(Drop)]
pub struct TsTypeParamInstantiation<N> {
    pub span: SourceRange,
    /// A list of `TsType`.
    pub params: N,
}

impl<'a> TsTypeParamInstantiation<Part<'a>> {
    /// The fields of a node.
    pub fn of(node: Part<'a>) -> Self
        ensures { ReadsTsTypeParamInstantiation result (seen node.entry) }
    {
        TsTypeParamInstantiation {
            span: node.part(0).range(),
            params: node.part(1),
        }
    }
}

impl TsTypeParamInstantiation<Tree> {
    /// The node of these fields.
    pub fn into_tree(self, alloc: Global) -> Result<Tree, AllocError>
        ensures { IfOk result (λ tree. tree ≡ ts_type_param_instantiation self.span self.params) }
    {
        let TsTypeParamInstantiation { span, params } = self;
        Tree::node(
            alloc,
            Kind::TsTypeParamInstantiation,
            [Tree::Range(span), params],
        )
    }
}

/// `: type_ann`.
#[derive(Drop)]
pub struct TsTypeAnn<N> {
    pub span: SourceRange,
    /// A `TsType`.
    pub type_ann: N,
}

impl<'a> TsTypeAnn<Part<'a>> {
    /// The fields of a node.
    pub fn of(node: Part<'a>) -> Self
        ensures { ReadsTsTypeAnn result (seen node.entry) }
    {
        TsTypeAnn {
            span: node.part(0).range(),
            type_ann: node.part(1),
        }
    }
}

impl TsTypeAnn<Tree> {
    /// The node of these fields.
    pub fn into_tree(self, alloc: Global) -> Result<Tree, AllocError>
        ensures { IfOk result (λ tree. tree ≡ ts_type_ann self.span self.type_ann) }
    {
        let TsTypeAnn { span, type_ann } = self;
        Tree::node(alloc, Kind::TsTypeAnn, [Tree::Range(span), type_ann])
    }
}
