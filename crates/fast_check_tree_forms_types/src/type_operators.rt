//! Types that are computed from others, and predicates. Each form with its fields by their names.
// Written by forms/write.py from forms/forms.txt.

ghost use Rattle.std.specs.Prelude.{◌≡◌, IfOk};
ghost use Rattle.fast_check_tree_syntax.specs.Part.{seen};
ghost use Rattle.fast_check_tree_forms_types.specs.TypeOperators.{
  ReadsTsConditionalType,
  ts_conditional_type,
  ReadsTsInferType,
  ts_infer_type,
  ReadsTsTypeOperator,
  ts_type_operator,
  ReadsTsIndexedAccessType,
  ts_indexed_access_type,
  ReadsTsMappedType,
  ts_mapped_type,
  ReadsTsTypePredicate,
  ts_type_predicate,
};

use fast_check_tree_syntax::{Kind, Part, SourceRange, Tree};
use std::alloc::{AllocError, Global};

/// `check_type extends extends_type ? true_type : false_type`.
#[derive(Drop)]
pub struct TsConditionalType<N> {
    pub span: SourceRange,
    /// A `TsType`.
    pub check_type: N,
    /// A `TsType`.
    pub extends_type: N,
    /// A `TsType`.
    pub true_type: N,
    /// A `TsType`.
    pub false_type: N,
}

impl<'a> TsConditionalType<Part<'a>> {
    /// The fields of a node.
    pub fn of(node: Part<'a>) -> Self
        ensures { ReadsTsConditionalType result (seen node.entry) }
    {
        TsConditionalType {
            span: node.part(0).range(),
            check_type: node.part(1),
            extends_type: node.part(2),
            true_type: node.part(3),
            false_type: node.part(4),
        }
    }
}

impl TsConditionalType<Tree> {
    /// The node of these fields.
    pub fn into_tree(self, alloc: Global) -> Result<Tree, AllocError>
        ensures { IfOk result (λ tree. tree ≡
            ts_conditional_type self.span self.check_type self.extends_type self.true_type
            self.false_type) }
    {
        let TsConditionalType {
            span,
            check_type,
            extends_type,
            true_type,
            false_type,
        } = self;
        Tree::node(
            alloc,
            Kind::TsConditionalType,
            [
                Tree::Range(span),
                check_type,
                extends_type,
                true_type,
                false_type,
            ],
        )
    }
}

/// `infer type_param`.
#[derive(Drop)]
pub struct TsInferType<N> {
    pub span: SourceRange,
    /// A `TsTypeParam`.
    pub type_param: N,
}

impl<'a> TsInferType<Part<'a>> {
    /// The fields of a node.
    pub fn of(node: Part<'a>) -> Self
        ensures { ReadsTsInferType result (seen node.entry) }
    {
        TsInferType {
            span: node.part(0).range(),
            type_param: node.part(1),
        }
    }
}

impl TsInferType<Tree> {
    /// The node of these fields.
    pub fn into_tree(self, alloc: Global) -> Result<Tree, AllocError>
        ensures { IfOk result (λ tree. tree ≡ ts_infer_type self.span self.type_param) }
    {
        let TsInferType { span, type_param } = self;
        Tree::node(alloc, Kind::TsInferType, [Tree::Range(span), type_param])
    }
}

/// `op type_ann`, as `keyof a`.
#[derive(Drop)]
pub struct TsTypeOperator<N> {
    pub span: SourceRange,
    /// The word `KeyOf`, `Unique` or `ReadOnly`.
    pub op: N,
    /// A `TsType`.
    pub type_ann: N,
}

impl<'a> TsTypeOperator<Part<'a>> {
    /// The fields of a node.
    pub fn of(node: Part<'a>) -> Self
        ensures { ReadsTsTypeOperator result (seen node.entry) }
    {
        TsTypeOperator {
            span: node.part(0).range(),
            op: node.part(1),
            type_ann: node.part(2),
        }
    }
}

impl TsTypeOperator<Tree> {
    /// The node of these fields.
    pub fn into_tree(self, alloc: Global) -> Result<Tree, AllocError>
        ensures { IfOk result (λ tree. tree ≡ ts_type_operator self.span self.op self.type_ann) }
    {
        let TsTypeOperator { span, op, type_ann } = self;
        Tree::node(
            alloc,
            Kind::TsTypeOperator,
            [Tree::Range(span), op, type_ann],
        )
    }
}

/// `obj_type[index_type]`.
#[derive(Drop)]
pub struct TsIndexedAccessType<N> {
    pub span: SourceRange,
    pub readonly: bool,
    /// A `TsType`.
    pub obj_type: N,
    /// A `TsType`.
    pub index_type: N,
}

impl<'a> TsIndexedAccessType<Part<'a>> {
    /// The fields of a node.
    pub fn of(node: Part<'a>) -> Self
        ensures { ReadsTsIndexedAccessType result (seen node.entry) }
    {
        TsIndexedAccessType {
            span: node.part(0).range(),
            readonly: node.part(1).flag(),
            obj_type: node.part(2),
            index_type: node.part(3),
        }
    }
}

impl TsIndexedAccessType<Tree> {
    /// The node of these fields.
    pub fn into_tree(self, alloc: Global) -> Result<Tree, AllocError>
        ensures { IfOk result (λ tree. tree ≡
            ts_indexed_access_type self.span self.readonly self.obj_type self.index_type) }
    {
        let TsIndexedAccessType {
            span,
            readonly,
            obj_type,
            index_type,
        } = self;
        Tree::node(
            alloc,
            Kind::TsIndexedAccessType,
            [
                Tree::Range(span),
                Tree::Flag(readonly),
                obj_type,
                index_type,
            ],
        )
    }
}

/// `{ readonly [type_param as name_type]optional: type_ann }`.
#[derive(Drop)]
pub struct TsMappedType<N> {
    pub span: SourceRange,
    /// A text, as it is written, or absent.
    pub readonly: N,
    /// A `TsTypeParam`.
    pub type_param: N,
    /// A `TsType`, or absent.
    pub name_type: N,
    /// A text, as it is written, or absent.
    pub optional: N,
    /// A `TsType`, or absent.
    pub type_ann: N,
}

impl<'a> TsMappedType<Part<'a>> {
    /// The fields of a node.
    pub fn of(node: Part<'a>) -> Self
        ensures { ReadsTsMappedType result (seen node.entry) }
    {
        TsMappedType {
            span: node.part(0).range(),
            readonly: node.part(1),
            type_param: node.part(2),
            name_type: node.part(3),
            optional: node.part(4),
            type_ann: node.part(5),
        }
    }
}

impl TsMappedType<Tree> {
    /// The node of these fields.
    pub fn into_tree(self, alloc: Global) -> Result<Tree, AllocError>
        ensures { IfOk result (λ tree. tree ≡
            ts_mapped_type self.span self.readonly self.type_param self.name_type self.optional
            self.type_ann) }
    {
        let TsMappedType {
            span,
            readonly,
            type_param,
            name_type,
            optional,
            type_ann,
        } = self;
        Tree::node(
            alloc,
            Kind::TsMappedType,
            [
                Tree::Range(span),
                readonly,
                type_param,
                name_type,
                optional,
                type_ann,
            ],
        )
    }
}

/// `asserts param_name is type_ann`.
#[derive(Drop)]
pub struct TsTypePredicate<N> {
    pub span: SourceRange,
    /// Whether `asserts` stands before it.
    pub asserts: bool,
    /// A `TsThisTypeOrIdent`.
    pub param_name: N,
    /// A `TsTypeAnn`, or absent.
    pub type_ann: N,
}

impl<'a> TsTypePredicate<Part<'a>> {
    /// The fields of a node.
    pub fn of(node: Part<'a>) -> Self
        ensures { ReadsTsTypePredicate result (seen node.entry) }
    {
        TsTypePredicate {
            span: node.part(0).range(),
            asserts: node.part(1).flag(),
            param_name: node.part(2),
            type_ann: node.part(3),
        }
    }
}

impl TsTypePredicate<Tree> {
    /// The node of these fields.
    pub fn into_tree(self, alloc: Global) -> Result<Tree, AllocError>
        ensures { IfOk result (λ tree. tree ≡
            ts_type_predicate self.span self.asserts self.param_name self.type_ann) }
    {
        let TsTypePredicate {
            span,
            asserts,
            param_name,
            type_ann,
        } = self;
        Tree::node(
            alloc,
            Kind::TsTypePredicate,
            [Tree::Range(span), Tree::Flag(asserts), param_name, type_ann],
        )
    }
}
