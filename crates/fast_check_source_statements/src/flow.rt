//! Statements that are no declarations and no loops.
ghost use Rattle.fast_check_source_grammar.specs.Nests.{Nests};

use crate::statements::Statements;
use fast_check_source_grammar::{Cursor, ParseError, Rule, Tokens, ident, sees_ident};
use fast_check_source_lexer::{Keyword, TokenKind};
use fast_check_tree_forms_statements::{
    BreakStmt, CatchClause, ContinueStmt, DebuggerStmt, ExprStmt, IfStmt, LabeledStmt, ReturnStmt,
    SwitchCase, SwitchStmt, ThrowStmt, TryStmt, WithStmt,
};
use fast_check_tree_syntax::{SourcePos, Tree};
use std::alloc::Global;

// Whether a value does not go on in this line.
fn has_no_value(at: Cursor<'_>) -> bool {
    at.can_end() || at.is(TokenKind::Semicolon)
}

// One `if` of a chain, without what stands behind its `else`.
#[derive(Drop)]
struct Choice {
    start: SourcePos,
    test: Tree,
    cons: Tree,
}

impl<F: Fn(Global, &mut Tokens<'_>, usize, Rule) -> Tree> Statements<F> {
    /// A statement that is no declaration.
    pub fn flow(&self, tokens: &mut Tokens<'_>) -> Tree
        requires { Nests self.now.expressions.values.types.grammar.depth (F.pre self.now.expressions.values.types.grammar.parse) }
    {
        match tokens.at.kind() {
            TokenKind::LBrace => self.block(tokens),
            TokenKind::Semicolon => self.empty(tokens),
            TokenKind::Name => self.worded(tokens),
            _ => self.simple(tokens),
        }
    }

    fn worded(&self, tokens: &mut Tokens<'_>) -> Tree
        requires { Nests self.now.expressions.values.types.grammar.depth (F.pre self.now.expressions.values.types.grammar.parse) }
    {
        match tokens.at.word() {
            Keyword::If => self.choice(tokens),
            Keyword::For => self.for_loop(tokens),
            Keyword::While => self.while_loop(tokens),
            Keyword::Do => self.do_loop(tokens),
            Keyword::Return => self.returned(tokens),
            Keyword::Throw => self.thrown(tokens),
            Keyword::Break => self.broken(tokens),
            Keyword::Continue => self.continued(tokens),
            Keyword::Switch => self.switch(tokens),
            Keyword::Try => self.attempt(tokens),
            Keyword::With => self.with_object(tokens),
            Keyword::Debugger => self.debugger(tokens),
            _ => self.simple(tokens),
        }
    }

    /// `(value)` behind a word.
    pub fn in_parens(&self, tokens: &mut Tokens<'_>) -> Tree
        requires { Nests self.now.expressions.values.types.grammar.depth (F.pre self.now.expressions.values.types.grammar.parse) }
    {
        tokens.expect(TokenKind::LParen);
        let found = self.again(tokens, Rule::Expression);
        tokens.expect(TokenKind::RParen);
        found
    }

    // A value, or a statement with a label.
    fn simple(&self, tokens: &mut Tokens<'_>) -> Tree
        requires { Nests self.now.expressions.values.types.grammar.depth (F.pre self.now.expressions.values.types.grammar.parse) }
    {
        let alloc = self.alloc();
        let start = tokens.at.start();
        if sees_ident(tokens) && tokens.at.second().is(TokenKind::Colon) {
            let label = ident(alloc, tokens);
            tokens.at.advance();
            let body = self.again(tokens, Rule::Statement);
            let span = tokens.at.from(start);
            return tokens.made(LabeledStmt { span, label, body }.into_tree(alloc));
        }
        let expr = self.again(tokens, Rule::Expression);
        tokens.end_statement();
        let span = tokens.at.from(start);
        tokens.made(ExprStmt { span, expr }.into_tree(alloc))
    }

    fn returned(&self, tokens: &mut Tokens<'_>) -> Tree
        requires { Nests self.now.expressions.values.types.grammar.depth (F.pre self.now.expressions.values.types.grammar.parse) }
    {
        let start = tokens.at.start();
        tokens.at.advance();
        let has_value = !has_no_value(tokens.at);
        let arg = self.again_if(tokens, has_value, Rule::Expression);
        tokens.end_statement();
        let span = tokens.at.from(start);
        tokens.made(ReturnStmt { span, arg }.into_tree(self.alloc()))
    }

    fn thrown(&self, tokens: &mut Tokens<'_>) -> Tree
        requires { Nests self.now.expressions.values.types.grammar.depth (F.pre self.now.expressions.values.types.grammar.parse) }
    {
        let start = tokens.at.start();
        tokens.at.advance();
        if tokens.at.newline() {
            return tokens.refuse();
        }
        let arg = self.again(tokens, Rule::Expression);
        tokens.end_statement();
        let span = tokens.at.from(start);
        tokens.made(ThrowStmt { span, arg }.into_tree(self.alloc()))
    }

    // The label behind `break` or `continue`, and what ends the statement.
    fn label(&self, tokens: &mut Tokens<'_>) -> Tree {
        tokens.at.advance();
        let label = if sees_ident(tokens) && !tokens.at.newline() {
            ident(self.alloc(), tokens)
        } else {
            Tree::Absent
        };
        tokens.end_statement();
        label
    }

    fn broken(&self, tokens: &mut Tokens<'_>) -> Tree {
        let start = tokens.at.start();
        let label = self.label(tokens);
        let span = tokens.at.from(start);
        tokens.made(BreakStmt { span, label }.into_tree(self.alloc()))
    }

    fn continued(&self, tokens: &mut Tokens<'_>) -> Tree {
        let start = tokens.at.start();
        let label = self.label(tokens);
        let span = tokens.at.from(start);
        tokens.made(ContinueStmt { span, label }.into_tree(self.alloc()))
    }

    fn debugger(&self, tokens: &mut Tokens<'_>) -> Tree {
        let start = tokens.at.start();
        tokens.at.advance();
        tokens.end_statement();
        let span = tokens.at.from(start);
        tokens.made(DebuggerStmt { span }.into_tree(self.alloc()))
    }

    // `if (a) b`, from its word to what stands before `else`.
    fn branch(&self, tokens: &mut Tokens<'_>) -> Choice
        requires { Nests self.now.expressions.values.types.grammar.depth (F.pre self.now.expressions.values.types.grammar.parse) }
    {
        let start = tokens.at.start();
        tokens.at.advance();
        let test = self.in_parens(tokens);
        let cons = self.again(tokens, Rule::Statement);
        Choice { start, test, cons }
    }

    // `if (a) b else if (c) d else e`, however long.
    fn choice(&self, tokens: &mut Tokens<'_>) -> Tree
        requires { Nests self.now.expressions.values.types.grammar.depth (F.pre self.now.expressions.values.types.grammar.parse) }
    {
        let alloc = self.alloc();
        let mut choices: Vec<Choice> = Vec::new(alloc);
        let mut lacks = choices.push(self.branch(tokens)).is_err();
        let mut alt = Tree::Absent;
        for _turn in 0..tokens.at.left() {
            if !tokens.at.eat_word(Keyword::Else) {
                break;
            }
            if !tokens.at.is_word(Keyword::If) {
                alt = self.again(tokens, Rule::Statement);
                break;
            }
            tokens.link();
            lacks = choices.push(self.branch(tokens)).is_err() || lacks;
        }
        if lacks {
            tokens.stop(ParseError::Memory);
        }
        for _turn in 0..choices.len() {
            if let Some(Choice { start, test, cons }) = choices.pop() {
                let made = IfStmt {
                    span: tokens.at.from(start),
                    test,
                    cons,
                    alt,
                };
                alt = tokens.made(made.into_tree(alloc));
            }
        }
        alt
    }

    fn with_object(&self, tokens: &mut Tokens<'_>) -> Tree
        requires { Nests self.now.expressions.values.types.grammar.depth (F.pre self.now.expressions.values.types.grammar.parse) }
    {
        let start = tokens.at.start();
        tokens.at.advance();
        let obj = self.in_parens(tokens);
        let body = self.again(tokens, Rule::Statement);
        let span = tokens.at.from(start);
        tokens.made(WithStmt { span, obj, body }.into_tree(self.alloc()))
    }

    fn switch(&self, tokens: &mut Tokens<'_>) -> Tree
        requires { Nests self.now.expressions.values.types.grammar.depth (F.pre self.now.expressions.values.types.grammar.parse) }
    {
        let start = tokens.at.start();
        tokens.at.advance();
        let discriminant = self.in_parens(tokens);
        tokens.expect(TokenKind::LBrace);
        let mut cases = self.none();
        for _turn in 0..tokens.at.left() {
            if tokens.at.closes(TokenKind::RBrace) {
                break;
            }
            cases.push(self.case(tokens));
        }
        tokens.expect(TokenKind::RBrace);
        let made = SwitchStmt {
            span: tokens.at.from(start),
            discriminant,
            cases: tokens.list(cases),
        };
        tokens.made(made.into_tree(self.alloc()))
    }

    fn case(&self, tokens: &mut Tokens<'_>) -> Tree
        requires { Nests self.now.expressions.values.types.grammar.depth (F.pre self.now.expressions.values.types.grammar.parse) }
    {
        let start = tokens.at.start();
        let is_default = tokens.at.eat_word(Keyword::Default);
        if !is_default {
            tokens.expect_word(Keyword::Case);
        }
        let test = self.again_if(tokens, !is_default, Rule::Expression);
        tokens.expect(TokenKind::Colon);
        let mut cons = self.none();
        for _turn in 0..tokens.at.left() {
            if tokens.at.closes(TokenKind::RBrace)
                || tokens.at.is_word(Keyword::Case)
                || tokens.at.is_word(Keyword::Default)
            {
                break;
            }
            cons.push(self.again(tokens, Rule::Statement));
        }
        let made = SwitchCase {
            span: tokens.at.from(start),
            test,
            cons: tokens.list(cons),
        };
        tokens.made(made.into_tree(self.alloc()))
    }

    fn attempt(&self, tokens: &mut Tokens<'_>) -> Tree
        requires { Nests self.now.expressions.values.types.grammar.depth (F.pre self.now.expressions.values.types.grammar.parse) }
    {
        let start = tokens.at.start();
        tokens.at.advance();
        let block = self.block(tokens);
        let is_caught = tokens.at.is_word(Keyword::Catch);
        let handler = if is_caught {
            self.handler(tokens)
        } else {
            Tree::Absent
        };
        let is_final = tokens.at.eat_word(Keyword::Finally);
        if !is_caught && !is_final {
            return tokens.refuse();
        }
        let finalizer = if is_final {
            self.block(tokens)
        } else {
            Tree::Absent
        };
        let made = TryStmt {
            span: tokens.at.from(start),
            block,
            handler,
            finalizer,
        };
        tokens.made(made.into_tree(self.alloc()))
    }

    // `catch (a) {}`
    fn handler(&self, tokens: &mut Tokens<'_>) -> Tree
        requires { Nests self.now.expressions.values.types.grammar.depth (F.pre self.now.expressions.values.types.grammar.parse) }
    {
        let start = tokens.at.start();
        tokens.at.advance();
        let param = if tokens.at.eat(TokenKind::LParen) {
            let found = self.expressions.values.types.declared(tokens);
            tokens.expect(TokenKind::RParen);
            found
        } else {
            Tree::Absent
        };
        let body = self.block(tokens);
        let span = tokens.at.from(start);
        tokens.made(CatchClause { span, param, body }.into_tree(self.alloc()))
    }
}
