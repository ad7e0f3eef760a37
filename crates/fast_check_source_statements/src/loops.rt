//! Loops.
ghost use Rattle.fast_check_source_grammar.specs.Nests.{Nests};

use crate::statements::{Opening, Statements, is_await_using, is_using};
use fast_check_source_grammar::{Cursor, Note, Rule, Tokens, Within, is_reserved};
use fast_check_source_lexer::{Keyword, TokenKind};
use fast_check_tree_forms_statements::{
    DoWhileStmt, ForInStmt, ForOfStmt, ForStmt, VarDecl, VarDeclarator, WhileStmt,
};
use fast_check_tree_syntax::{Kind, SourcePos, Tree};
use std::alloc::Global;

fn set_no_in(tokens: &mut Tokens<'_>, no_in: bool) {
    let within = tokens.at.within();
    let _ = tokens.at.enter(Within { no_in, ..within });
}

fn walks(at: Cursor<'_>) -> bool {
    at.is_word(Keyword::Of) || at.is_word(Keyword::In)
}

// Whether `of a)` follows here, which after `let` is no declaration.
fn ends_with_of(at: Cursor<'_>) -> bool {
    let next = at.second();
    at.is_word(Keyword::Of)
        && next.is(TokenKind::Name)
        && !is_reserved(next.word())
        && next.second().is(TokenKind::RParen)
}

// Whether one of the variables that are declared has a value.
fn has_value(declared: &Tree) -> bool {
    let declared = declared.read();
    match declared.kind() {
        Kind::VarDecl => VarDecl::of(declared)
            .decls
            .parts()
            .iter()
            .any(|decl| !VarDeclarator::of(decl.read()).init.is_absent()),
        _ => false,
    }
}

// What stands first in the head of a `for`.
#[derive(Drop)]
struct Head {
    left: Tree,
    declared: bool,
}

impl<F: Fn(Global, &mut Tokens<'_>, usize, Rule) -> Tree> Statements<F> {
    pub fn while_loop(&self, tokens: &mut Tokens<'_>) -> Tree
        requires { Nests self.now.expressions.values.types.grammar.depth (F.pre self.now.expressions.values.types.grammar.parse) }
    {
        let start = tokens.at.start();
        tokens.at.advance();
        let test = self.in_parens(tokens);
        let body = self.again(tokens, Rule::Statement);
        let span = tokens.at.from(start);
        tokens.made(WhileStmt { span, test, body }.into_tree(self.alloc()))
    }

    pub fn do_loop(&self, tokens: &mut Tokens<'_>) -> Tree
        requires { Nests self.now.expressions.values.types.grammar.depth (F.pre self.now.expressions.values.types.grammar.parse) }
    {
        let start = tokens.at.start();
        tokens.at.advance();
        let body = self.again(tokens, Rule::Statement);
        tokens.expect_word(Keyword::While);
        let test = self.in_parens(tokens);
        let _ = tokens.at.eat(TokenKind::Semicolon);
        let span = tokens.at.from(start);
        tokens.made(DoWhileStmt { span, test, body }.into_tree(self.alloc()))
    }

    // What a `for` declares, or its first expression.
    fn head(&self, tokens: &mut Tokens<'_>) -> Head
        requires { Nests self.now.expressions.values.types.grammar.depth (F.pre self.now.expressions.values.types.grammar.parse) }
    {
        let start = tokens.at.start();
        let opening = Opening {
            start,
            declare: false,
        };
        let next = tokens.at.second();
        let declares = match tokens.at.word() {
            Keyword::Var | Keyword::Const => true,
            Keyword::Let => !next.is_word(Keyword::In),
            _ => false,
        };
        if tokens.at.is_word(Keyword::Let) && ends_with_of(next) {
            return Head {
                left: tokens.refuse(),
                declared: false,
            };
        }
        if declares {
            return Head {
                left: self.variables(tokens, opening, false),
                declared: true,
            };
        }
        if (is_using(tokens.at) && !next.is_word(Keyword::Of)) || is_await_using(tokens.at) {
            return Head {
                left: self.using(tokens, start, false),
                declared: true,
            };
        }
        Head {
            left: self.expressions.expression(tokens),
            declared: false,
        }
    }

    pub fn for_loop(&self, tokens: &mut Tokens<'_>) -> Tree
        requires { Nests self.now.expressions.values.types.grammar.depth (F.pre self.now.expressions.values.types.grammar.parse) }
    {
        let start = tokens.at.start();
        tokens.at.advance();
        let is_await = tokens.at.eat_word(Keyword::Await);
        if is_await && !tokens.at.within().function {
            tokens.note_module();
        }
        tokens.expect(TokenKind::LParen);
        let saved = tokens.save();
        if tokens.at.is(TokenKind::Semicolon) && !is_await {
            return self.counted(tokens, start, Tree::Absent);
        }
        if tokens.is_noted(Note::Walked) {
            return self.walked_target(tokens, start, is_await);
        }
        set_no_in(tokens, true);
        let Head { left, declared } = self.head(tokens);
        set_no_in(tokens, false);
        if !walks(tokens.at) && !is_await {
            return self.counted(tokens, start, left);
        }
        if declared {
            if has_value(&left) {
                return tokens.refuse();
            }
            return self.walked(tokens, start, left, is_await);
        }
        tokens.note(Note::Walked, saved.at.place());
        tokens.go_back(saved);
        self.walked_target(tokens, start, is_await)
    }

    // What is assigned to in the head of a `for`, and what stands behind it.
    fn walked_target(&self, tokens: &mut Tokens<'_>, start: SourcePos, is_await: bool) -> Tree
        requires { Nests self.now.expressions.values.types.grammar.depth (F.pre self.now.expressions.values.types.grammar.parse) }
    {
        set_no_in(tokens, true);
        let target = self.expressions.values.target(tokens);
        set_no_in(tokens, false);
        self.walked(tokens, start, target, is_await)
    }

    // `of a) b` or `in a) b`
    fn walked(&self, tokens: &mut Tokens<'_>, start: SourcePos, left: Tree, is_await: bool) -> Tree
        requires { Nests self.now.expressions.values.types.grammar.depth (F.pre self.now.expressions.values.types.grammar.parse) }
    {
        let alloc = self.alloc();
        let is_of = tokens.at.is_word(Keyword::Of);
        if !is_of && (is_await || !tokens.at.is_word(Keyword::In)) {
            return tokens.refuse();
        }
        tokens.at.advance();
        let rule = if is_of {
            Rule::Assigned
        } else {
            Rule::Expression
        };
        let right = self.again(tokens, rule);
        tokens.expect(TokenKind::RParen);
        let body = self.again(tokens, Rule::Statement);
        let span = tokens.at.from(start);
        let made = if is_of {
            ForOfStmt {
                span,
                is_await,
                left,
                right,
                body,
            }
            .into_tree(alloc)
        } else {
            ForInStmt {
                span,
                left,
                right,
                body,
            }
            .into_tree(alloc)
        };
        tokens.made(made)
    }

    // `; a; b) c`
    fn counted(&self, tokens: &mut Tokens<'_>, start: SourcePos, init: Tree) -> Tree
        requires { Nests self.now.expressions.values.types.grammar.depth (F.pre self.now.expressions.values.types.grammar.parse) }
    {
        tokens.expect(TokenKind::Semicolon);
        let has_test = !tokens.at.is(TokenKind::Semicolon);
        let test = self.again_if(tokens, has_test, Rule::Expression);
        tokens.expect(TokenKind::Semicolon);
        let has_update = !tokens.at.is(TokenKind::RParen);
        let update = self.again_if(tokens, has_update, Rule::Expression);
        tokens.expect(TokenKind::RParen);
        let body = self.again(tokens, Rule::Statement);
        let made = ForStmt {
            span: tokens.at.from(start),
            init,
            test,
            update,
            body,
        };
        tokens.made(made.into_tree(self.alloc()))
    }
}
