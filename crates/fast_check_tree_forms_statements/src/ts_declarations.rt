//! TypeScript's own declarations. Each form with its fields by their names.
// Written by forms/write.py from forms/forms.txt.

ghost use Rattle.std.specs.Prelude.{◌≡◌, IfOk};
ghost use Rattle.fast_check_tree_syntax.specs.Part.{seen};
ghost use Rattle.fast_check_tree_forms_statements.specs.TsDeclarations.{
  ReadsTsInterfaceDecl,
  ts_interface_decl,
  ReadsTsExprWithTypeArgs,
  ts_expr_with_type_args,
  ReadsTsInterfaceBody,
  ts_interface_body,
  ReadsTsTypeAliasDecl,
  ts_type_alias_decl,
  ReadsTsEnumDecl,
  ts_enum_decl,
  ReadsTsEnumMember,
  ts_enum_member,
  ReadsTsModuleDecl,
  ts_module_decl,
  ReadsTsModuleBlock,
  ts_module_block,
  ReadsTsNamespaceDecl,
  ts_namespace_decl,
};

use fast_check_tree_syntax::{Kind, Part, SourceRange, Tree};
use std::alloc::{AllocError, Global};

/// `interface id<type_params> extends extends body`.
#[derive(Drop)]
pub struct TsInterfaceDecl<N> {
    pub span: SourceRange,
    /// An `Ident`.
    pub id: N,
    /// Whether `declare` stands before it.
    pub declare: bool,
    /// A `TsTypeParamDecl`, or absent.
    pub type_params: N,
    /// A list of `TsExprWithTypeArgs`.
    pub extends: N,
    /// A `TsInterfaceBody`.
    pub body: N,
}

impl<'a> TsInterfaceDecl<Part<'a>> {
    /// The fields of a node.
    pub fn of(node: Part<'a>) -> Self
        ensures { ReadsTsInterfaceDecl result (seen node.entry) }
    {
        TsInterfaceDecl {
            span: node.part(0).range(),
            id: node.part(1),
            declare: node.part(2).flag(),
            type_params: node.part(3),
            extends: node.part(4),
            body: node.part(5),
        }
    }
}

impl TsInterfaceDecl<Tree> {
    /// The node of these fields.
    pub fn into_tree(self, alloc: Global) -> Result<Tree, AllocError>
        ensures { IfOk result (λ tree. tree ≡
            ts_interface_decl self.span self.id self.declare self.type_params self.extends
            self.body) }
    {
        let TsInterfaceDecl {
            span,
            id,
            declare,
            type_params,
            extends,
            body,
        } = self;
        Tree::node(
            alloc,
            Kind::TsInterfaceDecl,
            [
                Tree::Range(span),
                id,
                Tree::Flag(declare),
                type_params,
                extends,
                body,
            ],
        )
    }
}

/// `expr<type_args>`, behind `extends` of an interface or `implements`.
#[derive(Drop)]
pub struct TsExprWithTypeArgs<N> {
    pub span: SourceRange,
    /// An `Expr`.
    pub expr: N,
    /// A `TsTypeParamInstantiation`, or absent.
    pub type_args: N,
}

impl<'a> TsExprWithTypeArgs<Part<'a>> {
    /// The fields of a node.
    pub fn of(node: Part<'a>) -> Self
        ensures { ReadsTsExprWithTypeArgs result (seen node.entry) }
    {
        TsExprWithTypeArgs {
            span: node.part(0).range(),
            expr: node.part(1),
            type_args: node.part(2),
        }
    }
}

impl TsExprWithTypeArgs<Tree> {
    /// The node of these fields.
    pub fn into_tree(self, alloc: Global) -> Result<Tree, AllocError>
        ensures { IfOk result (λ tree. tree ≡
            ts_expr_with_type_args self.span self.expr self.type_args) }
    {
        let TsExprWithTypeArgs {
            span,
            expr,
            type_args,
        } = self;
        Tree::node(
            alloc,
            Kind::TsExprWithTypeArgs,
            [Tree::Range(span), expr, type_args],
        )
    }
}

/// `{ body }` of an interface.
#[derive(Drop)]
pub struct TsInterfaceBody<N> {
    pub span: SourceRange,
    /// A list of `TsTypeElement`.
    pub body: N,
}

impl<'a> TsInterfaceBody<Part<'a>> {
    /// The fields of a node.
    pub fn of(node: Part<'a>) -> Self
        ensures { ReadsTsInterfaceBody result (seen node.entry) }
    {
        TsInterfaceBody {
            span: node.part(0).range(),
            body: node.part(1),
        }
    }
}

impl TsInterfaceBody<Tree> {
    /// The node of these fields.
    pub fn into_tree(self, alloc: Global) -> Result<Tree, AllocError>
        ensures { IfOk result (λ tree. tree ≡ ts_interface_body self.span self.body) }
    {
        let TsInterfaceBody { span, body } = self;
        Tree::node(alloc, Kind::TsInterfaceBody, [Tree::Range(span), body])
    }
}

/// `type id<type_params> = type_ann;`.
#[derive(Drop)]
pub struct TsTypeAliasDecl<N> {
    pub span: SourceRange,
    /// Whether `declare` stands before it.
    pub declare: bool,
    /// An `Ident`.
    pub id: N,
    /// A `TsTypeParamDecl`, or absent.
    pub type_params: N,
    /// A `TsType`.
    pub type_ann: N,
}

impl<'a> TsTypeAliasDecl<Part<'a>> {
    /// The fields of a node.
    pub fn of(node: Part<'a>) -> Self
        ensures { ReadsTsTypeAliasDecl result (seen node.entry) }
    {
        TsTypeAliasDecl {
            span: node.part(0).range(),
            declare: node.part(1).flag(),
            id: node.part(2),
            type_params: node.part(3),
            type_ann: node.part(4),
        }
    }
}

impl TsTypeAliasDecl<Tree> {
    /// The node of these fields.
    pub fn into_tree(self, alloc: Global) -> Result<Tree, AllocError>
        ensures { IfOk result (λ tree. tree ≡
            ts_type_alias_decl self.span self.declare self.id self.type_params self.type_ann) }
    {
        let TsTypeAliasDecl {
            span,
            declare,
            id,
            type_params,
            type_ann,
        } = self;
        Tree::node(
            alloc,
            Kind::TsTypeAliasDecl,
            [
                Tree::Range(span),
                Tree::Flag(declare),
                id,
                type_params,
                type_ann,
            ],
        )
    }
}

/// `enum id { members }`.
#[derive(Drop)]
pub struct TsEnumDecl<N> {
    pub span: SourceRange,
    /// Whether `declare` stands before it.
    pub declare: bool,
    /// Whether it is `const enum`.
    pub is_const: bool,
    /// An `Ident`.
    pub id: N,
    /// A list of `TsEnumMember`.
    pub members: N,
}

impl<'a> TsEnumDecl<Part<'a>> {
    /// The fields of a node.
    pub fn of(node: Part<'a>) -> Self
        ensures { ReadsTsEnumDecl result (seen node.entry) }
    {
        TsEnumDecl {
            span: node.part(0).range(),
            declare: node.part(1).flag(),
            is_const: node.part(2).flag(),
            id: node.part(3),
            members: node.part(4),
        }
    }
}

impl TsEnumDecl<Tree> {
    /// The node of these fields.
    pub fn into_tree(self, alloc: Global) -> Result<Tree, AllocError>
        ensures { IfOk result (λ tree. tree ≡
            ts_enum_decl self.span self.declare self.is_const self.id self.members) }
    {
        let TsEnumDecl {
            span,
            declare,
            is_const,
            id,
            members,
        } = self;
        Tree::node(
            alloc,
            Kind::TsEnumDecl,
            [
                Tree::Range(span),
                Tree::Flag(declare),
                Tree::Flag(is_const),
                id,
                members,
            ],
        )
    }
}

/// In an enum: `id = init`.
#[derive(Drop)]
pub struct TsEnumMember<N> {
    pub span: SourceRange,
    /// A `TsEnumMemberId`.
    pub id: N,
    /// An `Expr`, or absent.
    pub init: N,
}

impl<'a> TsEnumMember<Part<'a>> {
    /// The fields of a node.
    pub fn of(node: Part<'a>) -> Self
        ensures { ReadsTsEnumMember result (seen node.entry) }
    {
        TsEnumMember {
            span: node.part(0).range(),
            id: node.part(1),
            init: node.part(2),
        }
    }
}

impl TsEnumMember<Tree> {
    /// The node of these fields.
    pub fn into_tree(self, alloc: Global) -> Result<Tree, AllocError>
        ensures { IfOk result (λ tree. tree ≡ ts_enum_member self.span self.id self.init) }
    {
        let TsEnumMember { span, id, init } = self;
        Tree::node(alloc, Kind::TsEnumMember, [Tree::Range(span), id, init])
    }
}

/// `module id body`, `namespace id body` or `global body`.
#[derive(Drop)]
pub struct TsModuleDecl<N> {
    pub span: SourceRange,
    /// Whether `declare` stands before it.
    pub declare: bool,
    /// Whether it is `global`.
    pub global: bool,
    /// Whether it is written `namespace`.
    pub namespace: bool,
    /// A `TsModuleName`.
    pub id: N,
    /// A `TsNamespaceBody`, or absent.
    pub body: N,
}

impl<'a> TsModuleDecl<Part<'a>> {
    /// The fields of a node.
    pub fn of(node: Part<'a>) -> Self
        ensures { ReadsTsModuleDecl result (seen node.entry) }
    {
        TsModuleDecl {
            span: node.part(0).range(),
            declare: node.part(1).flag(),
            global: node.part(2).flag(),
            namespace: node.part(3).flag(),
            id: node.part(4),
            body: node.part(5),
        }
    }
}

impl TsModuleDecl<Tree> {
    /// The node of these fields.
    pub fn into_tree(self, alloc: Global) -> Result<Tree, AllocError>
        ensures { IfOk result (λ tree. tree ≡
            ts_module_decl self.span self.declare self.global self.namespace self.id self.body) }
    {
        let TsModuleDecl {
            span,
            declare,
            global,
            namespace,
            id,
            body,
        } = self;
        Tree::node(
            alloc,
            Kind::TsModuleDecl,
            [
                Tree::Range(span),
                Tree::Flag(declare),
                Tree::Flag(global),
                Tree::Flag(namespace),
                id,
                body,
            ],
        )
    }
}

/// `{ body }` of a module or namespace.
#[derive(Drop)]
pub struct TsModuleBlock<N> {
    pub span: SourceRange,
    /// A list of `ModuleItem`.
    pub body: N,
}

impl<'a> TsModuleBlock<Part<'a>> {
    /// The fields of a node.
    pub fn of(node: Part<'a>) -> Self
        ensures { ReadsTsModuleBlock result (seen node.entry) }
    {
        TsModuleBlock {
            span: node.part(0).range(),
            body: node.part(1),
        }
    }
}

impl TsModuleBlock<Tree> {
    /// The node of these fields.
    pub fn into_tree(self, alloc: Global) -> Result<Tree, AllocError>
        ensures { IfOk result (λ tree. tree ≡ ts_module_block self.span self.body) }
    {
        let TsModuleBlock { span, body } = self;
        Tree::node(alloc, Kind::TsModuleBlock, [Tree::Range(span), body])
    }
}

/// In `namespace a.b {}` what follows the first name: `id body`.
#[derive(Drop)]
pub struct TsNamespaceDecl<N> {
    pub span: SourceRange,
    /// Whether `declare` stands before the whole.
    pub declare: bool,
    /// Whether the whole is `global`.
    pub global: bool,
    /// An `Ident`.
    pub id: N,
    /// A `TsNamespaceBody`.
    pub body: N,
}

impl<'a> TsNamespaceDecl<Part<'a>> {
    /// The fields of a node.
    pub fn of(node: Part<'a>) -> Self
        ensures { ReadsTsNamespaceDecl result (seen node.entry) }
    {
        TsNamespaceDecl {
            span: node.part(0).range(),
            declare: node.part(1).flag(),
            global: node.part(2).flag(),
            id: node.part(3),
            body: node.part(4),
        }
    }
}

impl TsNamespaceDecl<Tree> {
    /// The node of these fields.
    pub fn into_tree(self, alloc: Global) -> Result<Tree, AllocError>
        ensures { IfOk result (λ tree. tree ≡
            ts_namespace_decl self.span self.declare self.global self.id self.body) }
    {
        let TsNamespaceDecl {
            span,
            declare,
            global,
            id,
            body,
        } = self;
        Tree::node(
            alloc,
            Kind::TsNamespaceDecl,
            [
                Tree::Range(span),
                Tree::Flag(declare),
                Tree::Flag(global),
                id,
                body,
            ],
        )
    }
}
