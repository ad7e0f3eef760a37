//! Statements. Each form with its fields by their names.
// Written by forms/write.py from forms/forms.txt.

ghost use Rattle.std.specs.Prelude.{◌≡◌, IfOk};
ghost use Rattle.fast_check_tree_syntax.specs.Part.{seen};
ghost use Rattle.fast_check_tree_forms_statements.specs.Statements.{
  ReadsBlockStmt,
  block_stmt,
  ReadsEmptyStmt,
  empty_stmt,
  ReadsDebuggerStmt,
  debugger_stmt,
  ReadsWithStmt,
  with_stmt,
  ReadsReturnStmt,
  return_stmt,
  ReadsLabeledStmt,
  labeled_stmt,
  ReadsBreakStmt,
  break_stmt,
  ReadsContinueStmt,
  continue_stmt,
  ReadsIfStmt,
  if_stmt,
  ReadsSwitchStmt,
  switch_stmt,
  ReadsSwitchCase,
  switch_case,
  ReadsThrowStmt,
  throw_stmt,
  ReadsTryStmt,
  try_stmt,
  ReadsCatchClause,
  catch_clause,
  ReadsExprStmt,
  expr_stmt,
};

use fast_check_tree_syntax::{Kind, Part, SourceRange, SyntaxContext, Tree};
use std::alloc::{AllocError, Global};

/// `{ stmts }`.
#[derive(Drop)]
pub struct BlockStmt<N> {
    pub span: SourceRange,
    /// The scope that the block opens.
    pub ctxt: SyntaxContext,
    /// A list of `Stmt`.
    pub stmts: N,
}

impl<'a> BlockStmt<Part<'a>> {
    /// The fields of a node.
    pub fn of(node: Part<'a>) -> Self
        ensures { ReadsBlockStmt result (seen node.entry) }
    {
        BlockStmt {
            span: node.part(0).range(),
            ctxt: node.part(1).context(),
            stmts: node.part(2),
        }
    }
}

impl BlockStmt<Tree> {
    /// The node of these fields.
    pub fn into_tree(self, alloc: Global) -> Result<Tree, AllocError>
        ensures { IfOk result (λ tree. tree ≡ block_stmt self.span self.ctxt self.stmts) }
    {
        let BlockStmt { span, ctxt, stmts } = self;
        Tree::node(
            alloc,
            Kind::BlockStmt,
            [Tree::Range(span), Tree::Context(ctxt), stmts],
        )
    }
}

/// A lone `;`, as a statement or a member of a class.
#[derive(Drop)]
pub struct EmptyStmt {
    pub span: SourceRange,
}

impl EmptyStmt {
    /// The fields of a node.
    pub fn of(node: Part<'_>) -> Self
        ensures { ReadsEmptyStmt result (seen node.entry) }
    {
        EmptyStmt {
            span: node.part(0).range(),
        }
    }

    /// The node of these fields.
    pub fn into_tree(self, alloc: Global) -> Result<Tree, AllocError>
        ensures { IfOk result (λ tree. tree ≡ empty_stmt self.span) }
    {
        let EmptyStmt { span } = self;
        Tree::node(alloc, Kind::EmptyStmt, [Tree::Range(span)])
    }
}

/// `debugger;`.
#[derive(Drop)]
pub struct DebuggerStmt {
    pub span: SourceRange,
}

impl DebuggerStmt {
    /// The fields of a node.
    pub fn of(node: Part<'_>) -> Self
        ensures { ReadsDebuggerStmt result (seen node.entry) }
    {
        DebuggerStmt {
            span: node.part(0).range(),
        }
    }

    /// The node of these fields.
    pub fn into_tree(self, alloc: Global) -> Result<Tree, AllocError>
        ensures { IfOk result (λ tree. tree ≡ debugger_stmt self.span) }
    {
        let DebuggerStmt { span } = self;
        Tree::node(alloc, Kind::DebuggerStmt, [Tree::Range(span)])
    }
}

/// `with (obj) body`.
#[derive(Drop)]
pub struct WithStmt<N> {
    pub span: SourceRange,
    /// An `Expr`.
    pub obj: N,
    /// A `Stmt`.
    pub body: N,
}

impl<'a> WithStmt<Part<'a>> {
    /// The fields of a node.
    pub fn of(node: Part<'a>) -> Self
        ensures { ReadsWithStmt result (seen node.entry) }
    {
        WithStmt {
            span: node.part(0).range(),
            obj: node.part(1),
            body: node.part(2),
        }
    }
}

impl WithStmt<Tree> {
    /// The node of these fields.
    pub fn into_tree(self, alloc: Global) -> Result<Tree, AllocError>
        ensures { IfOk result (λ tree. tree ≡ with_stmt self.span self.obj self.body) }
    {
        let WithStmt { span, obj, body } = self;
        Tree::node(alloc, Kind::WithStmt, [Tree::Range(span), obj, body])
    }
}

/// `return arg;`.
#[derive(Drop)]
pub struct ReturnStmt<N> {
    pub span: SourceRange,
    /// An `Expr`, or absent.
    pub arg: N,
}

impl<'a> ReturnStmt<Part<'a>> {
    /// The fields of a node.
    pub fn of(node: Part<'a>) -> Self
        ensures { ReadsReturnStmt result (seen node.entry) }
    {
        ReturnStmt {
            span: node.part(0).range(),
            arg: node.part(1),
        }
    }
}

impl ReturnStmt<Tree> {
    /// The node of these fields.
    pub fn into_tree(self, alloc: Global) -> Result<Tree, AllocError>
        ensures { IfOk result (λ tree. tree ≡ return_stmt self.span self.arg) }
    {
        let ReturnStmt { span, arg } = self;
        Tree::node(alloc, Kind::ReturnStmt, [Tree::Range(span), arg])
    }
}

/// `label: body`.
#[derive(Drop)]
pub struct LabeledStmt<N> {
    pub span: SourceRange,
    /// An `Ident`.
    pub label: N,
    /// A `Stmt`.
    pub body: N,
}

impl<'a> LabeledStmt<Part<'a>> {
    /// The fields of a node.
    pub fn of(node: Part<'a>) -> Self
        ensures { ReadsLabeledStmt result (seen node.entry) }
    {
        LabeledStmt {
            span: node.part(0).range(),
            label: node.part(1),
            body: node.part(2),
        }
    }
}

impl LabeledStmt<Tree> {
    /// The node of these fields.
    pub fn into_tree(self, alloc: Global) -> Result<Tree, AllocError>
        ensures { IfOk result (λ tree. tree ≡ labeled_stmt self.span self.label self.body) }
    {
        let LabeledStmt { span, label, body } = self;
        Tree::node(alloc, Kind::LabeledStmt, [Tree::Range(span), label, body])
    }
}

/// `break label;`.
#[derive(Drop)]
pub struct BreakStmt<N> {
    pub span: SourceRange,
    /// An `Ident`, or absent.
    pub label: N,
}

impl<'a> BreakStmt<Part<'a>> {
    /// The fields of a node.
    pub fn of(node: Part<'a>) -> Self
        ensures { ReadsBreakStmt result (seen node.entry) }
    {
        BreakStmt {
            span: node.part(0).range(),
            label: node.part(1),
        }
    }
}

impl BreakStmt<Tree> {
    /// The node of these fields.
    pub fn into_tree(self, alloc: Global) -> Result<Tree, AllocError>
        ensures { IfOk result (λ tree. tree ≡ break_stmt self.span self.label) }
    {
        let BreakStmt { span, label } = self;
        Tree::node(alloc, Kind::BreakStmt, [Tree::Range(span), label])
    }
}

/// `continue label;`.
#[derive(Drop)]
pub struct ContinueStmt<N> {
    pub span: SourceRange,
    /// An `Ident`, or absent.
    pub label: N,
}

impl<'a> ContinueStmt<Part<'a>> {
    /// The fields of a node.
    pub fn of(node: Part<'a>) -> Self
        ensures { ReadsContinueStmt result (seen node.entry) }
    {
        ContinueStmt {
            span: node.part(0).range(),
            label: node.part(1),
        }
    }
}

impl ContinueStmt<Tree> {
    /// The node of these fields.
    pub fn into_tree(self, alloc: Global) -> Result<Tree, AllocError>
        ensures { IfOk result (λ tree. tree ≡ continue_stmt self.span self.label) }
    {
        let ContinueStmt { span, label } = self;
        Tree::node(alloc, Kind::ContinueStmt, [Tree::Range(span), label])
    }
}

/// `if (test) cons else alt`.
#[derive(Drop)]
pub struct IfStmt<N> {
    pub span: SourceRange,
    /// An `Expr`.
    pub test: N,
    /// A `Stmt`.
    pub cons: N,
    /// A `Stmt`, or absent.
    pub alt: N,
}

impl<'a> IfStmt<Part<'a>> {
    /// The fields of a node.
    pub fn of(node: Part<'a>) -> Self
        ensures { ReadsIfStmt result (seen node.entry) }
    {
        IfStmt {
            span: node.part(0).range(),
            test: node.part(1),
            cons: node.part(2),
            alt: node.part(3),
        }
    }
}

impl IfStmt<Tree> {
    /// The node of these fields.
    pub fn into_tree(self, alloc: Global) -> Result<Tree, AllocError>
        ensures { IfOk result (λ tree. tree ≡ if_stmt self.span self.test self.cons self.alt) }
    {
        let IfStmt {
            span,
            test,
            cons,
            alt,
        } = self;
        Tree::node(alloc, Kind::IfStmt, [Tree::Range(span), test, cons, alt])
    }
}

/// `switch (discriminant) { cases }`.
#[derive(Drop)]
pub struct SwitchStmt<N> {
    pub span: SourceRange,
    /// An `Expr`.
    pub discriminant: N,
    /// A list of `SwitchCase`.
    pub cases: N,
}

impl<'a> SwitchStmt<Part<'a>> {
    /// The fields of a node.
    pub fn of(node: Part<'a>) -> Self
        ensures { ReadsSwitchStmt result (seen node.entry) }
    {
        SwitchStmt {
            span: node.part(0).range(),
            discriminant: node.part(1),
            cases: node.part(2),
        }
    }
}

impl SwitchStmt<Tree> {
    /// The node of these fields.
    pub fn into_tree(self, alloc: Global) -> Result<Tree, AllocError>
        ensures { IfOk result (λ tree. tree ≡ switch_stmt self.span self.discriminant self.cases) }
    {
        let SwitchStmt {
            span,
            discriminant,
            cases,
        } = self;
        Tree::node(
            alloc,
            Kind::SwitchStmt,
            [Tree::Range(span), discriminant, cases],
        )
    }
}

/// `case test: cons`, or `default: cons` where there is no test.
#[derive(Drop)]
pub struct SwitchCase<N> {
    pub span: SourceRange,
    /// An `Expr`, or absent.
    pub test: N,
    /// A list of `Stmt`.
    pub cons: N,
}

impl<'a> SwitchCase<Part<'a>> {
    /// The fields of a node.
    pub fn of(node: Part<'a>) -> Self
        ensures { ReadsSwitchCase result (seen node.entry) }
    {
        SwitchCase {
            span: node.part(0).range(),
            test: node.part(1),
            cons: node.part(2),
        }
    }
}

impl SwitchCase<Tree> {
    /// The node of these fields.
    pub fn into_tree(self, alloc: Global) -> Result<Tree, AllocError>
        ensures { IfOk result (λ tree. tree ≡ switch_case self.span self.test self.cons) }
    {
        let SwitchCase { span, test, cons } = self;
        Tree::node(alloc, Kind::SwitchCase, [Tree::Range(span), test, cons])
    }
}

/// `throw arg;`.
#[derive(Drop)]
pub struct ThrowStmt<N> {
    pub span: SourceRange,
    /// An `Expr`.
    pub arg: N,
}

impl<'a> ThrowStmt<Part<'a>> {
    /// The fields of a node.
    pub fn of(node: Part<'a>) -> Self
        ensures { ReadsThrowStmt result (seen node.entry) }
    {
        ThrowStmt {
            span: node.part(0).range(),
            arg: node.part(1),
        }
    }
}

impl ThrowStmt<Tree> {
    /// The node of these fields.
    pub fn into_tree(self, alloc: Global) -> Result<Tree, AllocError>
        ensures { IfOk result (λ tree. tree ≡ throw_stmt self.span self.arg) }
    {
        let ThrowStmt { span, arg } = self;
        Tree::node(alloc, Kind::ThrowStmt, [Tree::Range(span), arg])
    }
}

/// `try block handler finally finalizer`.
#[derive(Drop)]
pub struct TryStmt<N> {
    pub span: SourceRange,
    /// A `BlockStmt`.
    pub block: N,
    /// A `CatchClause`, or absent.
    pub handler: N,
    /// A `BlockStmt`, or absent.
    pub finalizer: N,
}

impl<'a> TryStmt<Part<'a>> {
    /// The fields of a node.
    pub fn of(node: Part<'a>) -> Self
        ensures { ReadsTryStmt result (seen node.entry) }
    {
        TryStmt {
            span: node.part(0).range(),
            block: node.part(1),
            handler: node.part(2),
            finalizer: node.part(3),
        }
    }
}

impl TryStmt<Tree> {
    /// The node of these fields.
    pub fn into_tree(self, alloc: Global) -> Result<Tree, AllocError>
        ensures { IfOk result (λ tree. tree ≡
            try_stmt self.span self.block self.handler self.finalizer) }
    {
        let TryStmt {
            span,
            block,
            handler,
            finalizer,
        } = self;
        Tree::node(
            alloc,
            Kind::TryStmt,
            [Tree::Range(span), block, handler, finalizer],
        )
    }
}

/// `catch (param) body`.
#[derive(Drop)]
pub struct CatchClause<N> {
    pub span: SourceRange,
    /// A `Pat`, or absent.
    pub param: N,
    /// A `BlockStmt`.
    pub body: N,
}

impl<'a> CatchClause<Part<'a>> {
    /// The fields of a node.
    pub fn of(node: Part<'a>) -> Self
        ensures { ReadsCatchClause result (seen node.entry) }
    {
        CatchClause {
            span: node.part(0).range(),
            param: node.part(1),
            body: node.part(2),
        }
    }
}

impl CatchClause<Tree> {
    /// The node of these fields.
    pub fn into_tree(self, alloc: Global) -> Result<Tree, AllocError>
        ensures { IfOk result (λ tree. tree ≡ catch_clause self.span self.param self.body) }
    {
        let CatchClause { span, param, body } = self;
        Tree::node(alloc, Kind::CatchClause, [Tree::Range(span), param, body])
    }
}

/// `expr;`.
#[derive(Drop)]
pub struct ExprStmt<N> {
    pub span: SourceRange,
    /// An `Expr`.
    pub expr: N,
}

impl<'a> ExprStmt<Part<'a>> {
    /// The fields of a node.
    pub fn of(node: Part<'a>) -> Self
        ensures { ReadsExprStmt result (seen node.entry) }
    {
        ExprStmt {
            span: node.part(0).range(),
            expr: node.part(1),
        }
    }
}

impl ExprStmt<Tree> {
    /// The node of these fields.
    pub fn into_tree(self, alloc: Global) -> Result<Tree, AllocError>
        ensures { IfOk result (λ tree. tree ≡ expr_stmt self.span self.expr) }
    {
        let ExprStmt { span, expr } = self;
        Tree::node(alloc, Kind::ExprStmt, [Tree::Range(span), expr])
    }
}
