//! Functions.
ghost use Rattle.fast_check_source_grammar.specs.Nests.{Nests};

use crate::values::Values;
use fast_check_source_grammar::{Rule, Tokens, Trees, Within, ident, sees_ident};
use fast_check_source_lexer::{Keyword, TokenKind};
use fast_check_tree_forms_classes::{Decorator, Function, Param};
use fast_check_tree_forms_expressions::FnExpr;
use fast_check_tree_syntax::{Items, SourcePos, SyntaxContext, Tree};
use std::alloc::Global;

/// What stands before the name of a function.
#[derive(Clone, Copy, PartialEq, Eq)]
pub struct Marks {
    pub is_async: bool,
    pub is_generator: bool,
}

/// Says that a function begins, and answers what it stands in.
pub fn enter_function(tokens: &mut Tokens<'_>, marks: Marks) -> Within {
    let within = tokens.at.within();
    tokens.at.enter(Within {
        function: true,
        is_async: marks.is_async,
        is_generator: marks.is_generator,
        plain_type: false,
        no_in: false,
        ..within
    })
}

impl<F: Fn(Global, &mut Tokens<'_>, usize, Rule) -> Tree> Values<F> {
    /// `@a @b(c)`, or nothing.
    pub fn decorators(&self, tokens: &mut Tokens<'_>) -> Tree
        requires { Nests self.now.types.grammar.depth (F.pre self.now.types.grammar.parse) }
    {
        let alloc = self.types.grammar.alloc;
        let mut items = Trees::new(alloc);
        for _turn in 0..tokens.at.left() {
            let start = tokens.at.start();
            if !tokens.at.eat(TokenKind::At) {
                break;
            }
            let expr = self.types.grammar.again(tokens, Rule::Decorated);
            let span = tokens.at.from(start);
            items.push(tokens.made(Decorator { span, expr }.into_tree(alloc)));
        }
        tokens.list(items)
    }

    /// A parameter of a function, with its decorators.
    pub fn function_param(&self, tokens: &mut Tokens<'_>) -> Tree
        requires { Nests self.now.types.grammar.depth (F.pre self.now.types.grammar.parse) }
    {
        let start = tokens.at.start();
        let decorators = self.decorators(tokens);
        let pat = self.types.param(tokens);
        let made = Param {
            span: tokens.at.from(start),
            decorators,
            pat,
        };
        tokens.made(made.into_tree(self.types.grammar.alloc))
    }

    /// What stands behind the name of a function: `<A>(b): C {}`. Without a body it ends as a statement.
    pub fn function(
        &self,
        tokens: &mut Tokens<'_>,
        start: SourcePos,
        marks: Marks,
        decorators: Tree,
    ) -> Tree
        requires { Nests self.now.types.grammar.depth (F.pre self.now.types.grammar.parse) }
    {
        let outer = enter_function(tokens, marks);
        let type_params = self.types.type_params(tokens);
        tokens.expect(TokenKind::LParen);
        let params = self
            .types
            .grammar
            .list(tokens, Rule::Param, TokenKind::Comma, TokenKind::RParen);
        let return_type = self.types.result(tokens);
        let body = if tokens.at.is(TokenKind::LBrace) {
            self.types.grammar.again(tokens, Rule::Body)
        } else {
            tokens.end_statement();
            Tree::Absent
        };
        let _ = tokens.at.enter(outer);
        let made = Function {
            span: tokens.at.from(start),
            params,
            decorators,
            ctxt: SyntaxContext(0),
            body,
            is_generator: marks.is_generator,
            is_async: marks.is_async,
            type_params,
            return_type,
        };
        tokens.made(made.into_tree(self.types.grammar.alloc))
    }

    /// A function as a value, or behind `export default`.
    pub fn function_value(&self, tokens: &mut Tokens<'_>) -> Tree
        requires { Nests self.now.types.grammar.depth (F.pre self.now.types.grammar.parse) }
    {
        let alloc = self.types.grammar.alloc;
        let start = tokens.at.start();
        let is_async = tokens.at.eat_word(Keyword::Async);
        tokens.expect_word(Keyword::Function);
        let is_generator = tokens.at.eat(TokenKind::Star);
        let ident = if sees_ident(tokens) {
            ident(alloc, tokens)
        } else {
            Tree::Absent
        };
        let marks = Marks {
            is_async,
            is_generator,
        };
        let function = self.function(tokens, start, marks, Tree::list(Items::new(alloc)));
        tokens.made(FnExpr { ident, function }.into_tree(alloc))
    }
}
