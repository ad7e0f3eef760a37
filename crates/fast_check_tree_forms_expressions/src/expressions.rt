//! Expressions. Each form with its fields by their names.
// Written by forms/write.py from forms/forms.txt.

ghost use Rattle.std.specs.Prelude.{◌≡◌, IfOk};
ghost use Rattle.fast_check_tree_syntax.specs.Part.{seen};
ghost use Rattle.fast_check_tree_forms_expressions.specs.Expressions.{
  ReadsThisExpr,
  this_expr,
  ReadsArrayLit,
  array_lit,
  ReadsExprOrSpread,
  expr_or_spread,
  ReadsObjectLit,
  object_lit,
  ReadsFnExpr,
  fn_expr,
  ReadsClassExpr,
  class_expr,
  ReadsArrowExpr,
  arrow_expr,
  ReadsSeqExpr,
  seq_expr,
  ReadsParenExpr,
  paren_expr,
  ReadsYieldExpr,
  yield_expr,
  ReadsAwaitExpr,
  await_expr,
  ReadsMetaPropExpr,
  meta_prop_expr,
  ReadsInvalid,
  invalid,
};

use fast_check_tree_syntax::{Atom, Kind, Part, SourceRange, SyntaxContext, Tree};
use std::alloc::{AllocError, Global};

/// `this`.
#[derive(Drop)]
pub struct ThisExpr {
    pub span: SourceRange,
}

impl ThisExpr {
    /// The fields of a node.
    pub fn of(node: Part<'_>) -> Self
        ensures { ReadsThisExpr result (seen node.entry) }
    {
        ThisExpr {
            span: node.part(0).range(),
        }
    }

    /// The node of these fields.
    pub fn into_tree(self, alloc: Global) -> Result<Tree, AllocError>
        ensures { IfOk result (λ tree. tree ≡ this_expr self.span) }
    {
        let ThisExpr { span } = self;
        Tree::node(alloc, Kind::ThisExpr, [Tree::Range(span)])
    }
}

/// `[elems]`.
#[derive(Drop)]
pub struct ArrayLit<N> {
    pub span: SourceRange,
    /// A list of `ExprOrSpread`, with an absent one for each hole.
    pub elems: N,
}

impl<'a> ArrayLit<Part<'a>> {
    /// The fields of a node.
    pub fn of(node: Part<'a>) -> Self
        ensures { ReadsArrayLit result (seen node.entry) }
    {
        ArrayLit {
            span: node.part(0).range(),
            elems: node.part(1),
        }
    }
}

impl ArrayLit<Tree> {
    /// The node of these fields.
    pub fn into_tree(self, alloc: Global) -> Result<Tree, AllocError>
        ensures { IfOk result (λ tree. tree ≡ array_lit self.span self.elems) }
    {
        let ArrayLit { span, elems } = self;
        Tree::node(alloc, Kind::ArrayLit, [Tree::Range(span), elems])
    }
}

/// `expr` or `...expr`, in an array or as an argument.
#[derive(Drop)]
pub struct ExprOrSpread<N> {
    /// The range of the `...`, or absent.
    pub spread: N,
    /// An `Expr`.
    pub expr: N,
}

impl<'a> ExprOrSpread<Part<'a>> {
    /// The fields of a node.
    pub fn of(node: Part<'a>) -> Self
        ensures { ReadsExprOrSpread result (seen node.entry) }
    {
        ExprOrSpread {
            spread: node.part(0),
            expr: node.part(1),
        }
    }
}

impl ExprOrSpread<Tree> {
    /// The node of these fields.
    pub fn into_tree(self, alloc: Global) -> Result<Tree, AllocError>
        ensures { IfOk result (λ tree. tree ≡ expr_or_spread self.spread self.expr) }
    {
        let ExprOrSpread { spread, expr } = self;
        Tree::node(alloc, Kind::ExprOrSpread, [spread, expr])
    }
}

/// `{ props }`.
#[derive(Drop)]
pub struct ObjectLit<N> {
    pub span: SourceRange,
    /// A list of `PropOrSpread`.
    pub props: N,
}

impl<'a> ObjectLit<Part<'a>> {
    /// The fields of a node.
    pub fn of(node: Part<'a>) -> Self
        ensures { ReadsObjectLit result (seen node.entry) }
    {
        ObjectLit {
            span: node.part(0).range(),
            props: node.part(1),
        }
    }
}

impl ObjectLit<Tree> {
    /// The node of these fields.
    pub fn into_tree(self, alloc: Global) -> Result<Tree, AllocError>
        ensures { IfOk result (λ tree. tree ≡ object_lit self.span self.props) }
    {
        let ObjectLit { span, props } = self;
        Tree::node(alloc, Kind::ObjectLit, [Tree::Range(span), props])
    }
}

/// `function ident ..`, with the rest in `function`.
#[derive(Drop)]
pub struct FnExpr<N> {
    /// An `Ident`, or absent.
    pub ident: N,
    /// A `Function`.
    pub function: N,
}

impl<'a> FnExpr<Part<'a>> {
    /// The fields of a node.
    pub fn of(node: Part<'a>) -> Self
        ensures { ReadsFnExpr result (seen node.entry) }
    {
        FnExpr {
            ident: node.part(0),
            function: node.part(1),
        }
    }
}

impl FnExpr<Tree> {
    /// The node of these fields.
    pub fn into_tree(self, alloc: Global) -> Result<Tree, AllocError>
        ensures { IfOk result (λ tree. tree ≡ fn_expr self.ident self.function) }
    {
        let FnExpr { ident, function } = self;
        Tree::node(alloc, Kind::FnExpr, [ident, function])
    }
}

/// `class ident ..`, with the rest in `class`.
#[derive(Drop)]
pub struct ClassExpr<N> {
    /// An `Ident`, or absent.
    pub ident: N,
    /// A `Class`.
    pub class: N,
}

impl<'a> ClassExpr<Part<'a>> {
    /// The fields of a node.
    pub fn of(node: Part<'a>) -> Self
        ensures { ReadsClassExpr result (seen node.entry) }
    {
        ClassExpr {
            ident: node.part(0),
            class: node.part(1),
        }
    }
}

impl ClassExpr<Tree> {
    /// The node of these fields.
    pub fn into_tree(self, alloc: Global) -> Result<Tree, AllocError>
        ensures { IfOk result (λ tree. tree ≡ class_expr self.ident self.class) }
    {
        let ClassExpr { ident, class } = self;
        Tree::node(alloc, Kind::ClassExpr, [ident, class])
    }
}

/// `<type_params>(params): return_type => body`.
#[derive(Drop)]
pub struct ArrowExpr<N> {
    pub span: SourceRange,
    /// The scope that the function opens.
    pub ctxt: SyntaxContext,
    /// A list of `Pat`.
    pub params: N,
    /// A `BlockStmtOrExpr`.
    pub body: N,
    pub is_async: bool,
    pub is_generator: bool,
    /// A `TsTypeParamDecl`, or absent.
    pub type_params: N,
    /// A `TsTypeAnn`, or absent.
    pub return_type: N,
}

impl<'a> ArrowExpr<Part<'a>> {
    /// The fields of a node.
    pub fn of(node: Part<'a>) -> Self
        ensures { ReadsArrowExpr result (seen node.entry) }
    {
        ArrowExpr {
            span: node.part(0).range(),
            ctxt: node.part(1).context(),
            params: node.part(2),
            body: node.part(3),
            is_async: node.part(4).flag(),
            is_generator: node.part(5).flag(),
            type_params: node.part(6),
            return_type: node.part(7),
        }
    }
}

impl ArrowExpr<Tree> {
    /// The node of these fields.
    pub fn into_tree(self, alloc: Global) -> Result<Tree, AllocError>
        ensures { IfOk result (λ tree. tree ≡
            arrow_expr self.span self.ctxt self.params self.body self.is_async self.is_generator
            self.type_params self.return_type) }
    {
        let ArrowExpr {
            span,
            ctxt,
            params,
            body,
            is_async,
            is_generator,
            type_params,
            return_type,
        } = self;
        Tree::node(
            alloc,
            Kind::ArrowExpr,
            [
                Tree::Range(span),
                Tree::Context(ctxt),
                params,
                body,
                Tree::Flag(is_async),
                Tree::Flag(is_generator),
                type_params,
                return_type,
            ],
        )
    }
}

/// Expressions with commas between them: `exprs`.
#[derive(Drop)]
pub struct SeqExpr<N> {
    pub span: SourceRange,
    /// A list of `Expr`.
    pub exprs: N,
}

impl<'a> SeqExpr<Part<'a>> {
    /// The fields of a node.
    pub fn of(node: Part<'a>) -> Self
        ensures { ReadsSeqExpr result (seen node.entry) }
    {
        SeqExpr {
            span: node.part(0).range(),
            exprs: node.part(1),
        }
    }
}

impl SeqExpr<Tree> {
    /// The node of these fields.
    pub fn into_tree(self, alloc: Global) -> Result<Tree, AllocError>
        ensures { IfOk result (λ tree. tree ≡ seq_expr self.span self.exprs) }
    {
        let SeqExpr { span, exprs } = self;
        Tree::node(alloc, Kind::SeqExpr, [Tree::Range(span), exprs])
    }
}

/// `(expr)`.
#[derive(Drop)]
pub struct ParenExpr<N> {
    pub span: SourceRange,
    /// An `Expr`.
    pub expr: N,
}

impl<'a> ParenExpr<Part<'a>> {
    /// The fields of a node.
    pub fn of(node: Part<'a>) -> Self
        ensures { ReadsParenExpr result (seen node.entry) }
    {
        ParenExpr {
            span: node.part(0).range(),
            expr: node.part(1),
        }
    }
}

impl ParenExpr<Tree> {
    /// The node of these fields.
    pub fn into_tree(self, alloc: Global) -> Result<Tree, AllocError>
        ensures { IfOk result (λ tree. tree ≡ paren_expr self.span self.expr) }
    {
        let ParenExpr { span, expr } = self;
        Tree::node(alloc, Kind::ParenExpr, [Tree::Range(span), expr])
    }
}

/// `yield arg`.
#[derive(Drop)]
pub struct YieldExpr<N> {
    pub span: SourceRange,
    /// An `Expr`, or absent.
    pub arg: N,
    /// Whether it is `yield*`.
    pub delegate: bool,
}

impl<'a> YieldExpr<Part<'a>> {
    /// The fields of a node.
    pub fn of(node: Part<'a>) -> Self
        ensures { ReadsYieldExpr result (seen node.entry) }
    {
        YieldExpr {
            span: node.part(0).range(),
            arg: node.part(1),
            delegate: node.part(2).flag(),
        }
    }
}

impl YieldExpr<Tree> {
    /// The node of these fields.
    pub fn into_tree(self, alloc: Global) -> Result<Tree, AllocError>
        ensures { IfOk result (λ tree. tree ≡ yield_expr self.span self.arg self.delegate) }
    {
        let YieldExpr {
            span,
            arg,
            delegate,
        } = self;
        Tree::node(
            alloc,
            Kind::YieldExpr,
            [Tree::Range(span), arg, Tree::Flag(delegate)],
        )
    }
}

/// `await arg`.
#[derive(Drop)]
pub struct AwaitExpr<N> {
    pub span: SourceRange,
    /// An `Expr`.
    pub arg: N,
}

impl<'a> AwaitExpr<Part<'a>> {
    /// The fields of a node.
    pub fn of(node: Part<'a>) -> Self
        ensures { ReadsAwaitExpr result (seen node.entry) }
    {
        AwaitExpr {
            span: node.part(0).range(),
            arg: node.part(1),
        }
    }
}

impl AwaitExpr<Tree> {
    /// The node of these fields.
    pub fn into_tree(self, alloc: Global) -> Result<Tree, AllocError>
        ensures { IfOk result (λ tree. tree ≡ await_expr self.span self.arg) }
    {
        let AwaitExpr { span, arg } = self;
        Tree::node(alloc, Kind::AwaitExpr, [Tree::Range(span), arg])
    }
}

/// `new.target` or `import.meta`.
#[derive(Drop)]
pub struct MetaPropExpr<T> {
    pub span: SourceRange,
    /// As it is written.
    pub kind: T,
}

impl<'a> MetaPropExpr<&'a str> {
    /// The fields of a node.
    pub fn of(node: Part<'a>) -> Self
        ensures { ReadsMetaPropExpr result (seen node.entry) }
    {
        MetaPropExpr {
            span: node.part(0).range(),
            kind: node.part(1).text(),
        }
    }
}

impl MetaPropExpr<Atom> {
    /// The node of these fields.
    pub fn into_tree(self, alloc: Global) -> Result<Tree, AllocError>
        ensures { IfOk result (λ tree. tree ≡ meta_prop_expr self.span self.kind) }
    {
        let MetaPropExpr { span, kind } = self;
        Tree::node(
            alloc,
            Kind::MetaPropExpr,
            [Tree::Range(span), Tree::Text(kind)],
        )
    }
}

/// What could not be read, as an expression or a pattern.
#[derive(Drop)]
pub struct Invalid {
    pub span: SourceRange,
}

impl Invalid {
    /// The fields of a node.
    pub fn of(node: Part<'_>) -> Self
        ensures { ReadsInvalid result (seen node.entry) }
    {
        Invalid {
            span: node.part(0).range(),
        }
    }

    /// The node of these fields.
    pub fn into_tree(self, alloc: Global) -> Result<Tree, AllocError>
        ensures { IfOk result (λ tree. tree ≡ invalid self.span) }
    {
        let Invalid { span } = self;
        Tree::node(alloc, Kind::Invalid, [Tree::Range(span)])
    }
}
