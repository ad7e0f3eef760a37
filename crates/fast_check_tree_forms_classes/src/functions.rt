//! Functions, their parameters, and decorators. Each form with its fields by their names.
// Written by forms/write.py from forms/forms.txt.

ghost use Rattle.std.specs.Prelude.{◌≡◌, IfOk};
ghost use Rattle.fast_check_tree_syntax.specs.Part.{seen};
ghost use Rattle.fast_check_tree_forms_classes.specs.Functions.{
  ReadsFunction,
  function,
  ReadsParam,
  param,
  ReadsDecorator,
  decorator,
};

use fast_check_tree_syntax::{Kind, Part, SourceRange, SyntaxContext, Tree};
use std::alloc::{AllocError, Global};

/// `<type_params>(params): return_type body`, behind the name of a function or a method.
#[derive(Drop)]
pub struct Function<N> {
    pub span: SourceRange,
    /// A list of `Param`.
    pub params: N,
    /// A list of `Decorator`.
    pub decorators: N,
    /// The scope that the function opens.
    pub ctxt: SyntaxContext,
    /// A `BlockStmt`, or absent in a declaration without one.
    pub body: N,
    /// Whether a `*` stands before the name.
    pub is_generator: bool,
    /// Whether `async` stands before it.
    pub is_async: bool,
    /// A `TsTypeParamDecl`, or absent.
    pub type_params: N,
    /// A `TsTypeAnn`, or absent.
    pub return_type: N,
}

impl<'a> Function<Part<'a>> {
    /// The fields of a node.
    pub fn of(node: Part<'a>) -> Self
        ensures { ReadsFunction result (seen node.entry) }
    {
        Function {
            span: node.part(0).range(),
            params: node.part(1),
            decorators: node.part(2),
            ctxt: node.part(3).context(),
            body: node.part(4),
            is_generator: node.part(5).flag(),
            is_async: node.part(6).flag(),
            type_params: node.part(7),
            return_type: node.part(8),
        }
    }
}

impl Function<Tree> {
    /// The node of these fields.
    pub fn into_tree(self, alloc: Global) -> Result<Tree, AllocError>
        ensures { IfOk result (λ tree. tree ≡
            function self.span self.params self.decorators self.ctxt self.body self.is_generator
            self.is_async self.type_params self.return_type) }
    {
        let Function {
            span,
            params,
            decorators,
            ctxt,
            body,
            is_generator,
            is_async,
            type_params,
            return_type,
        } = self;
        Tree::node(
            alloc,
            Kind::Function,
            [
                Tree::Range(span),
                params,
                decorators,
                Tree::Context(ctxt),
                body,
                Tree::Flag(is_generator),
                Tree::Flag(is_async),
                type_params,
                return_type,
            ],
        )
    }
}

/// `decorators pat`.
#[derive(Drop)]
pub struct Param<N> {
    pub span: SourceRange,
    /// A list of `Decorator`.
    pub decorators: N,
    /// A `Pat`.
    pub pat: N,
}

impl<'a> Param<Part<'a>> {
    /// The fields of a node.
    pub fn of(node: Part<'a>) -> Self
        ensures { ReadsParam result (seen node.entry) }
    {
        Param {
            span: node.part(0).range(),
            decorators: node.part(1),
            pat: node.part(2),
        }
    }
}

impl Param<Tree> {
    /// The node of these fields.
    pub fn into_tree(self, alloc: Global) -> Result<Tree, AllocError>
        ensures { IfOk result (λ tree. tree ≡ param self.span self.decorators self.pat) }
    {
        let Param {
            span,
            decorators,
            pat,
        } = self;
        Tree::node(alloc, Kind::Param, [Tree::Range(span), decorators, pat])
    }
}

/// `@expr`.
#[derive(Drop)]
pub struct Decorator<N> {
    pub span: SourceRange,
    /// An `Expr`.
    pub expr: N,
}

impl<'a> Decorator<Part<'a>> {
    /// The fields of a node.
    pub fn of(node: Part<'a>) -> Self
        ensures { ReadsDecorator result (seen node.entry) }
    {
        Decorator {
            span: node.part(0).range(),
            expr: node.part(1),
        }
    }
}

impl Decorator<Tree> {
    /// The node of these fields.
    pub fn into_tree(self, alloc: Global) -> Result<Tree, AllocError>
        ensures { IfOk result (λ tree. tree ≡ decorator self.span self.expr) }
    {
        let Decorator { span, expr } = self;
        Tree::node(alloc, Kind::Decorator, [Tree::Range(span), expr])
    }
}
