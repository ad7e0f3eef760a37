//! Expressions: assignments, choices, and what a comma joins.
ghost use Rattle.fast_check_source_grammar.specs.Nests.{Nests};

use crate::look_ahead::{assigns, is_operand_in_line};
use fast_check_source_grammar::{Cursor, Note, Rule, Tokens, Trees};
use fast_check_source_lexer::{Keyword, TokenKind};
use fast_check_source_values::{Values, is_shape, starts_value};
use fast_check_tree_forms_expressions::{AssignExpr, CondExpr, ExprOrSpread, SeqExpr, YieldExpr};
use fast_check_tree_syntax::{Kind, SourcePos, Tree};
use std::alloc::Global;

/// The rules of expressions.
#[derive(Clone, Copy)]
pub struct Expressions<F> {
    pub values: Values<F>,
}

// Whether a `yield` that comes next yields, and is no name.
fn yields(at: Cursor<'_>) -> bool {
    at.is_word(Keyword::Yield) && (at.within().is_generator || is_operand_in_line(at.second()))
}

// Whether a tree is made by an operator, so that nothing is assigned to it.
fn is_operated(tree: &Tree) -> bool {
    match tree {
        Tree::Node(kind, _) => matches!(
            *kind,
            Kind::BinExpr
                | Kind::UnaryExpr
                | Kind::UpdateExpr
                | Kind::AwaitExpr
                | Kind::TsAsExpr
                | Kind::TsSatisfiesExpr
                | Kind::TsTypeAssertion
                | Kind::TsConstAssertion
        ),
        _ => false,
    }
}

impl<F: Fn(Global, &mut Tokens<'_>, usize, Rule) -> Tree> Expressions<F> {
    /// Expressions with commas between them.
    pub fn expression(&self, tokens: &mut Tokens<'_>) -> Tree
        requires { Nests self.now.values.types.grammar.depth (F.pre self.now.values.types.grammar.parse) }
    {
        let start = tokens.at.start();
        let first = self.assigned(tokens, false);
        if !tokens.at.is(TokenKind::Comma) {
            return first;
        }
        let mut exprs = Trees::new(self.values.types.grammar.alloc);
        exprs.push(first);
        for _turn in 0..tokens.at.left() {
            if !tokens.at.eat(TokenKind::Comma) {
                break;
            }
            exprs.push(self.values.types.grammar.again(tokens, Rule::Assigned));
        }
        let made = SeqExpr {
            span: tokens.at.from(start),
            exprs: tokens.list(exprs),
        };
        tokens.made(made.into_tree(self.values.types.grammar.alloc))
    }

    /// An expression without a comma. Between `?` and `:` an arrow function with a written result wants a `:` behind it.
    pub fn assigned(&self, tokens: &mut Tokens<'_>, in_branch: bool) -> Tree
        requires { Nests self.now.values.types.grammar.depth (F.pre self.now.values.types.grammar.parse) }
    {
        if yields(tokens.at) {
            return self.yielded(tokens);
        }
        match self.arrow(tokens, in_branch) {
            Some(arrow) => arrow,
            None => self.operation(tokens, in_branch),
        }
    }

    // Operators, a choice or an assignment.
    fn operation(&self, tokens: &mut Tokens<'_>, in_branch: bool) -> Tree
        requires { Nests self.now.values.types.grammar.depth (F.pre self.now.values.types.grammar.parse) }
    {
        let start = tokens.at.start();
        if tokens.is_noted(Note::Target) {
            return self.pattern_assignment(tokens);
        }
        let saved = tokens.save();
        let left = self.operand(tokens, 1);
        tokens.at.rescan_operator();
        if assigns(tokens.at.kind()) && !is_operated(&left) {
            if tokens.at.is(TokenKind::Assign) && is_shape(&left) {
                // Patterns nest, and the values that they were first read as would all be held.
                drop(left);
                tokens.go_back(saved);
                tokens.note(Note::Target, saved.at.place());
                return self.pattern_assignment(tokens);
            }
            return self.assignment(tokens, start, left);
        }
        if tokens.at.is(TokenKind::Question) {
            return self.choice(tokens, start, left, in_branch);
        }
        left
    }

    // `= value` or `+= value` behind a target.
    fn assignment(&self, tokens: &mut Tokens<'_>, start: SourcePos, left: Tree) -> Tree
        requires { Nests self.now.values.types.grammar.depth (F.pre self.now.values.types.grammar.parse) }
    {
        let Some(op) = tokens.operator(self.values.types.grammar.alloc) else {
            return Tree::Absent;
        };
        tokens.at.advance();
        let made = AssignExpr {
            op,
            left,
            right: self.values.types.grammar.again(tokens, Rule::Assigned),
            span: tokens.at.from(start),
        };
        tokens.made(made.into_tree(self.values.types.grammar.alloc))
    }

    // `[a, b] = value`
    fn pattern_assignment(&self, tokens: &mut Tokens<'_>) -> Tree
        requires { Nests self.now.values.types.grammar.depth (F.pre self.now.values.types.grammar.parse) }
    {
        let start = tokens.at.start();
        let left = self.values.assigned_shape(tokens);
        if !tokens.at.is(TokenKind::Assign) {
            return tokens.refuse();
        }
        self.assignment(tokens, start, left)
    }

    // `? a : b` behind a test.
    fn choice(&self, tokens: &mut Tokens<'_>, start: SourcePos, test: Tree, in_branch: bool) -> Tree
        requires { Nests self.now.values.types.grammar.depth (F.pre self.now.values.types.grammar.parse) }
    {
        tokens.at.advance();
        let cons = self.values.types.grammar.again(tokens, Rule::Branch);
        tokens.expect(TokenKind::Colon);
        let rule = if in_branch {
            Rule::Branch
        } else {
            Rule::Assigned
        };
        let made = CondExpr {
            test,
            cons,
            alt: self.values.types.grammar.again(tokens, rule),
            span: tokens.at.from(start),
        };
        tokens.made(made.into_tree(self.values.types.grammar.alloc))
    }

    fn yielded(&self, tokens: &mut Tokens<'_>) -> Tree
        requires { Nests self.now.values.types.grammar.depth (F.pre self.now.values.types.grammar.parse) }
    {
        let start = tokens.at.start();
        tokens.at.advance();
        let delegate = !tokens.at.newline() && tokens.at.eat(TokenKind::Star);
        let arg = if delegate || (!tokens.at.newline() && starts_value(tokens.at)) {
            self.values.types.grammar.again(tokens, Rule::Assigned)
        } else {
            Tree::Absent
        };
        let made = YieldExpr {
            span: tokens.at.from(start),
            arg,
            delegate,
        };
        tokens.made(made.into_tree(self.values.types.grammar.alloc))
    }

    /// An argument of a call, or an element of an array.
    pub fn argument(&self, tokens: &mut Tokens<'_>) -> Tree
        requires { Nests self.now.values.types.grammar.depth (F.pre self.now.values.types.grammar.parse) }
    {
        let start = tokens.at.start();
        let spread = if tokens.at.eat(TokenKind::Dots) {
            Tree::Range(tokens.at.from(start))
        } else {
            Tree::Absent
        };
        let expr = self.assigned(tokens, false);
        tokens.made(ExprOrSpread { spread, expr }.into_tree(self.values.types.grammar.alloc))
    }
}
