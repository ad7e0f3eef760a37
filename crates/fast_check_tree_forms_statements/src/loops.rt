//! Loops. Each form with its fields by their names.
// Written by forms/write.py from forms/forms.txt.

ghost use Rattle.std.specs.Prelude.{◌≡◌, IfOk};
ghost use Rattle.fast_check_tree_syntax.specs.Part.{seen};
ghost use Rattle.fast_check_tree_forms_statements.specs.Loops.{
  ReadsWhileStmt,
  while_stmt,
  ReadsDoWhileStmt,
  do_while_stmt,
  ReadsForStmt,
  for_stmt,
  ReadsForInStmt,
  for_in_stmt,
  ReadsForOfStmt,
  for_of_stmt,
};

use fast_check_tree_syntax::{Kind, Part, SourceRange, Tree};
use std::alloc::{AllocError, Global};

/// `while (test) body`.
#[derive(Drop)]
pub struct WhileStmt<N> {
    pub span: SourceRange,
    /// An `Expr`.
    pub test: N,
    /// A `Stmt`.
    pub body: N,
}

impl<'a> WhileStmt<Part<'a>> {
    /// The fields of a node.
    pub fn of(node: Part<'a>) -> Self
        ensures { ReadsWhileStmt result (seen node.entry) }
    {
        WhileStmt {
            span: node.part(0).range(),
            test: node.part(1),
            body: node.part(2),
        }
    }
}

impl WhileStmt<Tree> {
    /// The node of these fields.
    pub fn into_tree(self, alloc: Global) -> Result<Tree, AllocError>
        ensures { IfOk result (λ tree. tree ≡ while_stmt self.span self.test self.body) }
    {
        let WhileStmt { span, test, body } = self;
        Tree::node(alloc, Kind::WhileStmt, [Tree::Range(span), test, body])
    }
}

/// `do body while (test);`.
#[derive(Drop)]
pub struct DoWhileStmt<N> {
    pub span: SourceRange,
    /// An `Expr`.
    pub test: N,
    /// A `Stmt`.
    pub body: N,
}

impl<'a> DoWhileStmt<Part<'a>> {
    /// The fields of a node.
    pub fn of(node: Part<'a>) -> Self
        ensures { ReadsDoWhileStmt result (seen node.entry) }
    {
        DoWhileStmt {
            span: node.part(0).range(),
            test: node.part(1),
            body: node.part(2),
        }
    }
}

impl DoWhileStmt<Tree> {
    /// The node of these fields.
    pub fn into_tree(self, alloc: Global) -> Result<Tree, AllocError>
        ensures { IfOk result (λ tree. tree ≡ do_while_stmt self.span self.test self.body) }
    {
        let DoWhileStmt { span, test, body } = self;
        Tree::node(alloc, Kind::DoWhileStmt, [Tree::Range(span), test, body])
    }
}

/// `for (init; test; update) body`.
#[derive(Drop)]
pub struct ForStmt<N> {
    pub span: SourceRange,
    /// A `VarDeclOrExpr`, or absent.
    pub init: N,
    /// An `Expr`, or absent.
    pub test: N,
    /// An `Expr`, or absent.
    pub update: N,
    /// A `Stmt`.
    pub body: N,
}

impl<'a> ForStmt<Part<'a>> {
    /// The fields of a node.
    pub fn of(node: Part<'a>) -> Self
        ensures { ReadsForStmt result (seen node.entry) }
    {
        ForStmt {
            span: node.part(0).range(),
            init: node.part(1),
            test: node.part(2),
            update: node.part(3),
            body: node.part(4),
        }
    }
}

impl ForStmt<Tree> {
    /// The node of these fields.
    pub fn into_tree(self, alloc: Global) -> Result<Tree, AllocError>
        ensures { IfOk result (λ tree. tree ≡
            for_stmt self.span self.init self.test self.update self.body) }
    {
        let ForStmt {
            span,
            init,
            test,
            update,
            body,
        } = self;
        Tree::node(
            alloc,
            Kind::ForStmt,
            [Tree::Range(span), init, test, update, body],
        )
    }
}

/// `for (left in right) body`.
#[derive(Drop)]
pub struct ForInStmt<N> {
    pub span: SourceRange,
    /// A `ForHead`.
    pub left: N,
    /// An `Expr`.
    pub right: N,
    /// A `Stmt`.
    pub body: N,
}

impl<'a> ForInStmt<Part<'a>> {
    /// The fields of a node.
    pub fn of(node: Part<'a>) -> Self
        ensures { ReadsForInStmt result (seen node.entry) }
    {
        ForInStmt {
            span: node.part(0).range(),
            left: node.part(1),
            right: node.part(2),
            body: node.part(3),
        }
    }
}

impl ForInStmt<Tree> {
    /// The node of these fields.
    pub fn into_tree(self, alloc: Global) -> Result<Tree, AllocError>
        ensures { IfOk result (λ tree. tree ≡
            for_in_stmt self.span self.left self.right self.body) }
    {
        let ForInStmt {
            span,
            left,
            right,
            body,
        } = self;
        Tree::node(
            alloc,
            Kind::ForInStmt,
            [Tree::Range(span), left, right, body],
        )
    }
}

/// `for (left of right) body`.
#[derive(Drop)]
pub struct ForOfStmt<N> {
    pub span: SourceRange,
    /// Whether it is `for await`.
    pub is_await: bool,
    /// A `ForHead`.
    pub left: N,
    /// An `Expr`.
    pub right: N,
    /// A `Stmt`.
    pub body: N,
}

impl<'a> ForOfStmt<Part<'a>> {
    /// The fields of a node.
    pub fn of(node: Part<'a>) -> Self
        ensures { ReadsForOfStmt result (seen node.entry) }
    {
        ForOfStmt {
            span: node.part(0).range(),
            is_await: node.part(1).flag(),
            left: node.part(2),
            right: node.part(3),
            body: node.part(4),
        }
    }
}

impl ForOfStmt<Tree> {
    /// The node of these fields.
    pub fn into_tree(self, alloc: Global) -> Result<Tree, AllocError>
        ensures { IfOk result (λ tree. tree ≡
            for_of_stmt self.span self.is_await self.left self.right self.body) }
    {
        let ForOfStmt {
            span,
            is_await,
            left,
            right,
            body,
        } = self;
        Tree::node(
            alloc,
            Kind::ForOfStmt,
            [Tree::Range(span), Tree::Flag(is_await), left, right, body],
        )
    }
}
