//! Declarations. Each form with its fields by their names.
// Written by forms/write.py from forms/forms.txt.

ghost use Rattle.std.specs.Prelude.{◌≡◌, IfOk};
ghost use Rattle.fast_check_tree_syntax.specs.Part.{seen};
ghost use Rattle.fast_check_tree_forms_statements.specs.Declarations.{
  ReadsClassDecl,
  class_decl,
  ReadsFnDecl,
  fn_decl,
  ReadsVarDecl,
  var_decl,
  ReadsVarDeclarator,
  var_declarator,
  ReadsUsingDecl,
  using_decl,
};

use fast_check_tree_syntax::{Kind, Part, SourceRange, SyntaxContext, Tree};
use std::alloc::{AllocError, Global};

/// `class ident ..`, with the rest in `class`.
#[derive(Drop)]
pub struct ClassDecl<N> {
    /// An `Ident`.
    pub ident: N,
    /// Whether `declare` stands before it.
    pub declare: bool,
    /// A `Class`.
    pub class: N,
}

impl<'a> ClassDecl<Part<'a>> {
    /// The fields of a node.
    pub fn of(node: Part<'a>) -> Self
        ensures { ReadsClassDecl result (seen node.entry) }
    {
        ClassDecl {
            ident: node.part(0),
            declare: node.part(1).flag(),
            class: node.part(2),
        }
    }
}

impl ClassDecl<Tree> {
    /// The node of these fields.
    pub fn into_tree(self, alloc: Global) -> Result<Tree, AllocError>
        ensures { IfOk result (λ tree. tree ≡ class_decl self.ident self.declare self.class) }
    {
        let ClassDecl {
            ident,
            declare,
            class,
        } = self;
        Tree::node(alloc, Kind::ClassDecl, [ident, Tree::Flag(declare), class])
    }
}

/// `function ident ..`, with the rest in `function`.
#[derive(Drop)]
pub struct FnDecl<N> {
    /// An `Ident`.
    pub ident: N,
    /// Whether `declare` stands before it.
    pub declare: bool,
    /// A `Function`.
    pub function: N,
}

impl<'a> FnDecl<Part<'a>> {
    /// The fields of a node.
    pub fn of(node: Part<'a>) -> Self
        ensures { ReadsFnDecl result (seen node.entry) }
    {
        FnDecl {
            ident: node.part(0),
            declare: node.part(1).flag(),
            function: node.part(2),
        }
    }
}

impl FnDecl<Tree> {
    /// The node of these fields.
    pub fn into_tree(self, alloc: Global) -> Result<Tree, AllocError>
        ensures { IfOk result (λ tree. tree ≡ fn_decl self.ident self.declare self.function) }
    {
        let FnDecl {
            ident,
            declare,
            function,
        } = self;
        Tree::node(alloc, Kind::FnDecl, [ident, Tree::Flag(declare), function])
    }
}

/// `kind decls;`, as `const a = 1;`.
#[derive(Drop)]
pub struct VarDecl<N> {
    pub span: SourceRange,
    pub ctxt: SyntaxContext,
    /// The word `Var`, `Let` or `Const`.
    pub kind: N,
    /// Whether `declare` stands before it.
    pub declare: bool,
    /// A list of `VarDeclarator`.
    pub decls: N,
}

impl<'a> VarDecl<Part<'a>> {
    /// The fields of a node.
    pub fn of(node: Part<'a>) -> Self
        ensures { ReadsVarDecl result (seen node.entry) }
    {
        VarDecl {
            span: node.part(0).range(),
            ctxt: node.part(1).context(),
            kind: node.part(2),
            declare: node.part(3).flag(),
            decls: node.part(4),
        }
    }
}

impl VarDecl<Tree> {
    /// The node of these fields.
    pub fn into_tree(self, alloc: Global) -> Result<Tree, AllocError>
        ensures { IfOk result (λ tree. tree ≡
            var_decl self.span self.ctxt self.kind self.declare self.decls) }
    {
        let VarDecl {
            span,
            ctxt,
            kind,
            declare,
            decls,
        } = self;
        Tree::node(
            alloc,
            Kind::VarDecl,
            [
                Tree::Range(span),
                Tree::Context(ctxt),
                kind,
                Tree::Flag(declare),
                decls,
            ],
        )
    }
}

/// `name = init`.
#[derive(Drop)]
pub struct VarDeclarator<N> {
    pub span: SourceRange,
    /// A `Pat`.
    pub name: N,
    /// An `Expr`, or absent.
    pub init: N,
    /// Whether a `!` stands behind the name.
    pub definite: bool,
}

impl<'a> VarDeclarator<Part<'a>> {
    /// The fields of a node.
    pub fn of(node: Part<'a>) -> Self
        ensures { ReadsVarDeclarator result (seen node.entry) }
    {
        VarDeclarator {
            span: node.part(0).range(),
            name: node.part(1),
            init: node.part(2),
            definite: node.part(3).flag(),
        }
    }
}

impl VarDeclarator<Tree> {
    /// The node of these fields.
    pub fn into_tree(self, alloc: Global) -> Result<Tree, AllocError>
        ensures { IfOk result (λ tree. tree ≡
            var_declarator self.span self.name self.init self.definite) }
    {
        let VarDeclarator {
            span,
            name,
            init,
            definite,
        } = self;
        Tree::node(
            alloc,
            Kind::VarDeclarator,
            [Tree::Range(span), name, init, Tree::Flag(definite)],
        )
    }
}

/// `using decls;`.
#[derive(Drop)]
pub struct UsingDecl<N> {
    pub span: SourceRange,
    /// Whether it is `await using`.
    pub is_await: bool,
    /// A list of `VarDeclarator`.
    pub decls: N,
}

impl<'a> UsingDecl<Part<'a>> {
    /// The fields of a node.
    pub fn of(node: Part<'a>) -> Self
        ensures { ReadsUsingDecl result (seen node.entry) }
    {
        UsingDecl {
            span: node.part(0).range(),
            is_await: node.part(1).flag(),
            decls: node.part(2),
        }
    }
}

impl UsingDecl<Tree> {
    /// The node of these fields.
    pub fn into_tree(self, alloc: Global) -> Result<Tree, AllocError>
        ensures { IfOk result (λ tree. tree ≡ using_decl self.span self.is_await self.decls) }
    {
        let UsingDecl {
            span,
            is_await,
            decls,
        } = self;
        Tree::node(
            alloc,
            Kind::UsingDecl,
            [Tree::Range(span), Tree::Flag(is_await), decls],
        )
    }
}
