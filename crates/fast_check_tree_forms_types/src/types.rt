//! Types. Each form with its fields by their names.
// Written by forms/write.py from forms/forms.txt.

ghost use Rattle.std.specs.Prelude.{◌≡◌, IfOk};
ghost use Rattle.fast_check_tree_syntax.specs.Part.{seen};
ghost use Rattle.fast_check_tree_forms_types.specs.Types.{
  ReadsTsKeywordType,
  ts_keyword_type,
  ReadsTsThisType,
  ts_this_type,
  ReadsTsTypeRef,
  ts_type_ref,
  ReadsTsQualifiedName,
  ts_qualified_name,
  ReadsTsTypeQuery,
  ts_type_query,
  ReadsTsImportType,
  ts_import_type,
  ReadsTsTypeLit,
  ts_type_lit,
  ReadsTsArrayType,
  ts_array_type,
  ReadsTsTupleType,
  ts_tuple_type,
  ReadsTsTupleElement,
  ts_tuple_element,
  ReadsTsOptionalType,
  ts_optional_type,
  ReadsTsRestType,
  ts_rest_type,
  ReadsTsParenthesizedType,
  ts_parenthesized_type,
  ReadsTsUnionType,
  ts_union_type,
  ReadsTsIntersectionType,
  ts_intersection_type,
  ReadsTsLitType,
  ts_lit_type,
  ReadsTsTplLitType,
  ts_tpl_lit_type,
};

use fast_check_tree_syntax::{Kind, Part, SourceRange, Tree};
use std::alloc::{AllocError, Global};

/// A type that is a keyword, as `string`.
#[derive(Drop)]
pub struct TsKeywordType<N> {
    pub span: SourceRange,
    /// A word, from `TsAnyKeyword` to `TsIntrinsicKeyword`.
    pub kind: N,
}

impl<'a> TsKeywordType<Part<'a>> {
    /// The fields of a node.
    pub fn of(node: Part<'a>) -> Self
        ensures { ReadsTsKeywordType result (seen node.entry) }
    {
        TsKeywordType {
            span: node.part(0).range(),
            kind: node.part(1),
        }
    }
}

impl TsKeywordType<Tree> {
    /// The node of these fields.
    pub fn into_tree(self, alloc: Global) -> Result<Tree, AllocError>
        ensures { IfOk result (λ tree. tree ≡ ts_keyword_type self.span self.kind) }
    {
        let TsKeywordType { span, kind } = self;
        Tree::node(alloc, Kind::TsKeywordType, [Tree::Range(span), kind])
    }
}

/// `this` as a type.
#[derive(Drop)]
pub struct TsThisType {
    pub span: SourceRange,
}

impl TsThisType {
    /// The fields of a node.
    pub fn of(node: Part<'_>) -> Self
        ensures { ReadsTsThisType result (seen node.entry) }
    {
        TsThisType {
            span: node.part(0).range(),
        }
    }

    /// The node of these fields.
    pub fn into_tree(self, alloc: Global) -> Result<Tree, AllocError>
        ensures { IfOk result (λ tree. tree ≡ ts_this_type self.span) }
    {
        let TsThisType { span } = self;
        Tree::node(alloc, Kind::TsThisType, [Tree::Range(span)])
    }
}

/// `type_name<type_params>`.
#[derive(Drop)]
pub struct TsTypeRef<N> {
    pub span: SourceRange,
    /// A `TsEntityName`.
    pub type_name: N,
    /// A `TsTypeParamInstantiation`, or absent.
    pub type_params: N,
}

impl<'a> TsTypeRef<Part<'a>> {
    /// The fields of a node.
    pub fn of(node: Part<'a>) -> Self
        ensures { ReadsTsTypeRef result (seen node.entry) }
    {
        TsTypeRef {
            span: node.part(0).range(),
            type_name: node.part(1),
            type_params: node.part(2),
        }
    }
}

impl TsTypeRef<Tree> {
    /// The node of these fields.
    pub fn into_tree(self, alloc: Global) -> Result<Tree, AllocError>
        ensures { IfOk result (λ tree. tree ≡
            ts_type_ref self.span self.type_name self.type_params) }
    {
        let TsTypeRef {
            span,
            type_name,
            type_params,
        } = self;
        Tree::node(
            alloc,
            Kind::TsTypeRef,
            [Tree::Range(span), type_name, type_params],
        )
    }
}

/// `left.right` as the name of a type.
#[derive(Drop)]
pub struct TsQualifiedName<N> {
    pub span: SourceRange,
    /// A `TsEntityName`.
    pub left: N,
    /// An `IdentName`.
    pub right: N,
}

impl<'a> TsQualifiedName<Part<'a>> {
    /// The fields of a node.
    pub fn of(node: Part<'a>) -> Self
        ensures { ReadsTsQualifiedName result (seen node.entry) }
    {
        TsQualifiedName {
            span: node.part(0).range(),
            left: node.part(1),
            right: node.part(2),
        }
    }
}

impl TsQualifiedName<Tree> {
    /// The node of these fields.
    pub fn into_tree(self, alloc: Global) -> Result<Tree, AllocError>
        ensures { IfOk result (λ tree. tree ≡ ts_qualified_name self.span self.left self.right) }
    {
        let TsQualifiedName { span, left, right } = self;
        Tree::node(
            alloc,
            Kind::TsQualifiedName,
            [Tree::Range(span), left, right],
        )
    }
}

/// `typeof expr_name<type_args>`.
#[derive(Drop)]
pub struct TsTypeQuery<N> {
    pub span: SourceRange,
    /// A `TsTypeQueryExpr`.
    pub expr_name: N,
    /// A `TsTypeParamInstantiation`, or absent.
    pub type_args: N,
}

impl<'a> TsTypeQuery<Part<'a>> {
    /// The fields of a node.
    pub fn of(node: Part<'a>) -> Self
        ensures { ReadsTsTypeQuery result (seen node.entry) }
    {
        TsTypeQuery {
            span: node.part(0).range(),
            expr_name: node.part(1),
            type_args: node.part(2),
        }
    }
}

impl TsTypeQuery<Tree> {
    /// The node of these fields.
    pub fn into_tree(self, alloc: Global) -> Result<Tree, AllocError>
        ensures { IfOk result (λ tree. tree ≡
            ts_type_query self.span self.expr_name self.type_args) }
    {
        let TsTypeQuery {
            span,
            expr_name,
            type_args,
        } = self;
        Tree::node(
            alloc,
            Kind::TsTypeQuery,
            [Tree::Range(span), expr_name, type_args],
        )
    }
}

/// `import(arg).qualifier<type_args>`.
#[derive(Drop)]
pub struct TsImportType<N> {
    pub span: SourceRange,
    /// A `Str`.
    pub arg: N,
    /// A `TsEntityName`, or absent.
    pub qualifier: N,
    /// A `TsTypeParamInstantiation`, or absent.
    pub type_args: N,
}

impl<'a> TsImportType<Part<'a>> {
    /// The fields of a node.
    pub fn of(node: Part<'a>) -> Self
        ensures { ReadsTsImportType result (seen node.entry) }
    {
        TsImportType {
            span: node.part(0).range(),
            arg: node.part(1),
            qualifier: node.part(2),
            type_args: node.part(3),
        }
    }
}

impl TsImportType<Tree> {
    /// The node of these fields.
    pub fn into_tree(self, alloc: Global) -> Result<Tree, AllocError>
        ensures { IfOk result (λ tree. tree ≡
            ts_import_type self.span self.arg self.qualifier self.type_args) }
    {
        let TsImportType {
            span,
            arg,
            qualifier,
            type_args,
        } = self;
        Tree::node(
            alloc,
            Kind::TsImportType,
            [Tree::Range(span), arg, qualifier, type_args],
        )
    }
}

/// `{ members }`.
#[derive(Drop)]
pub struct TsTypeLit<N> {
    pub span: SourceRange,
    /// A list of `TsTypeElement`.
    pub members: N,
}

impl<'a> TsTypeLit<Part<'a>> {
    /// The fields of a node.
    pub fn of(node: Part<'a>) -> Self
        ensures { ReadsTsTypeLit result (seen node.entry) }
    {
        TsTypeLit {
            span: node.part(0).range(),
            members: node.part(1),
        }
    }
}

impl TsTypeLit<Tree> {
    /// The node of these fields.
    pub fn into_tree(self, alloc: Global) -> Result<Tree, AllocError>
        ensures { IfOk result (λ tree. tree ≡ ts_type_lit self.span self.members) }
    {
        let TsTypeLit { span, members } = self;
        Tree::node(alloc, Kind::TsTypeLit, [Tree::Range(span), members])
    }
}

/// `elem_type[]`.
#[derive(Drop)]
pub struct TsArrayType<N> {
    pub span: SourceRange,
    /// A `TsType`.
    pub elem_type: N,
}

impl<'a> TsArrayType<Part<'a>> {
    /// The fields of a node.
    pub fn of(node: Part<'a>) -> Self
        ensures { ReadsTsArrayType result (seen node.entry) }
    {
        TsArrayType {
            span: node.part(0).range(),
            elem_type: node.part(1),
        }
    }
}

impl TsArrayType<Tree> {
    /// The node of these fields.
    pub fn into_tree(self, alloc: Global) -> Result<Tree, AllocError>
        ensures { IfOk result (λ tree. tree ≡ ts_array_type self.span self.elem_type) }
    {
        let TsArrayType { span, elem_type } = self;
        Tree::node(alloc, Kind::TsArrayType, [Tree::Range(span), elem_type])
    }
}

/// `[elem_types]`.
#[derive(Drop)]
pub struct TsTupleType<N> {
    pub span: SourceRange,
    /// A list of `TsTupleElement`.
    pub elem_types: N,
}

impl<'a> TsTupleType<Part<'a>> {
    /// The fields of a node.
    pub fn of(node: Part<'a>) -> Self
        ensures { ReadsTsTupleType result (seen node.entry) }
    {
        TsTupleType {
            span: node.part(0).range(),
            elem_types: node.part(1),
        }
    }
}

impl TsTupleType<Tree> {
    /// The node of these fields.
    pub fn into_tree(self, alloc: Global) -> Result<Tree, AllocError>
        ensures { IfOk result (λ tree. tree ≡ ts_tuple_type self.span self.elem_types) }
    {
        let TsTupleType { span, elem_types } = self;
        Tree::node(alloc, Kind::TsTupleType, [Tree::Range(span), elem_types])
    }
}

/// In a tuple: `label: ty`, or `ty` alone.
#[derive(Drop)]
pub struct TsTupleElement<N> {
    pub span: SourceRange,
    /// A `Pat`, or absent.
    pub label: N,
    /// A `TsType`.
    pub ty: N,
}

impl<'a> TsTupleElement<Part<'a>> {
    /// The fields of a node.
    pub fn of(node: Part<'a>) -> Self
        ensures { ReadsTsTupleElement result (seen node.entry) }
    {
        TsTupleElement {
            span: node.part(0).range(),
            label: node.part(1),
            ty: node.part(2),
        }
    }
}

impl TsTupleElement<Tree> {
    /// The node of these fields.
    pub fn into_tree(self, alloc: Global) -> Result<Tree, AllocError>
        ensures { IfOk result (λ tree. tree ≡ ts_tuple_element self.span self.label self.ty) }
    {
        let TsTupleElement { span, label, ty } = self;
        Tree::node(alloc, Kind::TsTupleElement, [Tree::Range(span), label, ty])
    }
}

/// In a tuple: `type_ann?`.
#[derive(Drop)]
pub struct TsOptionalType<N> {
    pub span: SourceRange,
    /// A `TsType`.
    pub type_ann: N,
}

impl<'a> TsOptionalType<Part<'a>> {
    /// The fields of a node.
    pub fn of(node: Part<'a>) -> Self
        ensures { ReadsTsOptionalType result (seen node.entry) }
    {
        TsOptionalType {
            span: node.part(0).range(),
            type_ann: node.part(1),
        }
    }
}

impl TsOptionalType<Tree> {
    /// The node of these fields.
    pub fn into_tree(self, alloc: Global) -> Result<Tree, AllocError>
        ensures { IfOk result (λ tree. tree ≡ ts_optional_type self.span self.type_ann) }
    {
        let TsOptionalType { span, type_ann } = self;
        Tree::node(alloc, Kind::TsOptionalType, [Tree::Range(span), type_ann])
    }
}

/// In a tuple: `...type_ann`.
#[derive(Drop)]
pub struct TsRestType<N> {
    pub span: SourceRange,
    /// A `TsType`.
    pub type_ann: N,
}

impl<'a> TsRestType<Part<'a>> {
    /// The fields of a node.
    pub fn of(node: Part<'a>) -> Self
        ensures { ReadsTsRestType result (seen node.entry) }
    {
        TsRestType {
            span: node.part(0).range(),
            type_ann: node.part(1),
        }
    }
}

impl TsRestType<Tree> {
    /// The node of these fields.
    pub fn into_tree(self, alloc: Global) -> Result<Tree, AllocError>
        ensures { IfOk result (λ tree. tree ≡ ts_rest_type self.span self.type_ann) }
    {
        let TsRestType { span, type_ann } = self;
        Tree::node(alloc, Kind::TsRestType, [Tree::Range(span), type_ann])
    }
}

/// `(type_ann)`.
#[derive(Drop)]
pub struct TsParenthesizedType<N> {
    pub span: SourceRange,
    /// A `TsType`.
    pub type_ann: N,
}

impl<'a> TsParenthesizedType<Part<'a>> {
    /// The fields of a node.
    pub fn of(node: Part<'a>) -> Self
        ensures { ReadsTsParenthesizedType result (seen node.entry) }
    {
        TsParenthesizedType {
            span: node.part(0).range(),
            type_ann: node.part(1),
        }
    }
}

impl TsParenthesizedType<Tree> {
    /// The node of these fields.
    pub fn into_tree(self, alloc: Global) -> Result<Tree, AllocError>
        ensures { IfOk result (λ tree. tree ≡ ts_parenthesized_type self.span self.type_ann) }
    {
        let TsParenthesizedType { span, type_ann } = self;
        Tree::node(
            alloc,
            Kind::TsParenthesizedType,
            [Tree::Range(span), type_ann],
        )
    }
}

/// Types with `|` between them: `types`.
#[derive(Drop)]
pub struct TsUnionType<N> {
    pub span: SourceRange,
    /// A list of `TsType`.
    pub types: N,
}

impl<'a> TsUnionType<Part<'a>> {
    /// The fields of a node.
    pub fn of(node: Part<'a>) -> Self
        ensures { ReadsTsUnionType result (seen node.entry) }
    {
        TsUnionType {
            span: node.part(0).range(),
            types: node.part(1),
        }
    }
}

impl TsUnionType<Tree> {
    /// The node of these fields.
    pub fn into_tree(self, alloc: Global) -> Result<Tree, AllocError>
        ensures { IfOk result (λ tree. tree ≡ ts_union_type self.span self.types) }
    {
        let TsUnionType { span, types } = self;
        Tree::node(alloc, Kind::TsUnionType, [Tree::Range(span), types])
    }
}

/// Types with `&` between them: `types`.
#[derive(Drop)]
pub struct TsIntersectionType<N> {
    pub span: SourceRange,
    /// A list of `TsType`.
    pub types: N,
}

impl<'a> TsIntersectionType<Part<'a>> {
    /// The fields of a node.
    pub fn of(node: Part<'a>) -> Self
        ensures { ReadsTsIntersectionType result (seen node.entry) }
    {
        TsIntersectionType {
            span: node.part(0).range(),
            types: node.part(1),
        }
    }
}

impl TsIntersectionType<Tree> {
    /// The node of these fields.
    pub fn into_tree(self, alloc: Global) -> Result<Tree, AllocError>
        ensures { IfOk result (λ tree. tree ≡ ts_intersection_type self.span self.types) }
    {
        let TsIntersectionType { span, types } = self;
        Tree::node(alloc, Kind::TsIntersectionType, [Tree::Range(span), types])
    }
}

/// A literal as a type.
#[derive(Drop)]
pub struct TsLitType<N> {
    pub span: SourceRange,
    /// A `TsLit`.
    pub lit: N,
}

impl<'a> TsLitType<Part<'a>> {
    /// The fields of a node.
    pub fn of(node: Part<'a>) -> Self
        ensures { ReadsTsLitType result (seen node.entry) }
    {
        TsLitType {
            span: node.part(0).range(),
            lit: node.part(1),
        }
    }
}

impl TsLitType<Tree> {
    /// The node of these fields.
    pub fn into_tree(self, alloc: Global) -> Result<Tree, AllocError>
        ensures { IfOk result (λ tree. tree ≡ ts_lit_type self.span self.lit) }
    {
        let TsLitType { span, lit } = self;
        Tree::node(alloc, Kind::TsLitType, [Tree::Range(span), lit])
    }
}

/// A template as a type, its substitutions `types` between its texts `quasis`.
#[derive(Drop)]
pub struct TsTplLitType<N> {
    pub span: SourceRange,
    /// A list of `TsType`.
    pub types: N,
    /// A list of `TplElement`, one more than `types`.
    pub quasis: N,
}

impl<'a> TsTplLitType<Part<'a>> {
    /// The fields of a node.
    pub fn of(node: Part<'a>) -> Self
        ensures { ReadsTsTplLitType result (seen node.entry) }
    {
        TsTplLitType {
            span: node.part(0).range(),
            types: node.part(1),
            quasis: node.part(2),
        }
    }
}

impl TsTplLitType<Tree> {
    /// The node of these fields.
    pub fn into_tree(self, alloc: Global) -> Result<Tree, AllocError>
        ensures { IfOk result (λ tree. tree ≡ ts_tpl_lit_type self.span self.types self.quasis) }
    {
        let TsTplLitType {
            span,
            types,
            quasis,
        } = self;
        Tree::node(
            alloc,
            Kind::TsTplLitType,
            [Tree::Range(span), types, quasis],
        )
    }
}
