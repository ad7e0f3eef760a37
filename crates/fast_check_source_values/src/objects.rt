//! Object literals.
ghost use Rattle.fast_check_source_grammar.specs.Nests.{Nests};

use crate::functions::{Marks, enter_function};
use crate::look_ahead::leads;
use crate::values::Values;
use fast_check_source_grammar::{Cursor, Rule, Tokens, ident, sees_ident};
use fast_check_source_lexer::{Keyword, TokenKind};
use fast_check_tree_forms_expressions::{
    AssignProp, GetterProp, KeyValueProp, MethodProp, ObjectLit, SetterProp, SpreadElement,
};
use fast_check_tree_syntax::{Items, SourcePos, Tree};
use std::alloc::Global;

// Whether a name stands here with no key, value or body of its own.
fn is_short(tokens: &Tokens<'_>) -> bool {
    sees_ident(tokens)
        && matches!(
            tokens.at.second().kind(),
            TokenKind::Comma | TokenKind::RBrace | TokenKind::Assign
        )
}

// Whether a word that comes next stands before a key in its line.
fn is_mark(at: Cursor<'_>, word: Keyword) -> bool {
    if !at.is_word(word) {
        return false;
    }
    let next = at.second();
    !next.newline() && leads(next)
}

fn is_accessor(at: Cursor<'_>) -> bool {
    if !at.is_word(Keyword::Get) && !at.is_word(Keyword::Set) {
        return false;
    }
    let next = at.second();
    leads(next) && !next.is(TokenKind::Star)
}

impl<F: Fn(Global, &mut Tokens<'_>, usize, Rule) -> Tree> Values<F> {
    /// `{ a, b: c, d() {} }`
    pub fn object(&self, tokens: &mut Tokens<'_>) -> Tree
        requires { Nests self.now.types.grammar.depth (F.pre self.now.types.grammar.parse) }
    {
        let start = tokens.at.start();
        tokens.at.advance();
        let props = self.types.grammar.list(
            tokens,
            Rule::Property,
            TokenKind::Comma,
            TokenKind::RBrace,
        );
        let span = tokens.at.from(start);
        tokens.made(ObjectLit { span, props }.into_tree(self.types.grammar.alloc))
    }

    /// A property of an object literal.
    pub fn property(&self, tokens: &mut Tokens<'_>) -> Tree
        requires { Nests self.now.types.grammar.depth (F.pre self.now.types.grammar.parse) }
    {
        if tokens.at.is(TokenKind::Dots) {
            return self.spread(tokens);
        }
        if is_short(tokens) {
            return self.short_property(tokens);
        }
        let start = tokens.at.start();
        if is_accessor(tokens.at) {
            return self.accessor(tokens, start);
        }
        let is_async = is_mark(tokens.at, Keyword::Async);
        if is_async {
            tokens.at.advance();
        }
        let is_generator = tokens.at.eat(TokenKind::Star);
        let marks = Marks {
            is_async,
            is_generator,
        };
        let key = self.types.prop_name(tokens);
        self.keyed(tokens, start, marks, key)
    }

    fn spread(&self, tokens: &mut Tokens<'_>) -> Tree
        requires { Nests self.now.types.grammar.depth (F.pre self.now.types.grammar.parse) }
    {
        let dot3_token = tokens.at.here();
        tokens.at.advance();
        let expr = self.types.grammar.again(tokens, Rule::Assigned);
        tokens.made(SpreadElement { dot3_token, expr }.into_tree(self.types.grammar.alloc))
    }

    // `a` or `a = b`
    fn short_property(&self, tokens: &mut Tokens<'_>) -> Tree
        requires { Nests self.now.types.grammar.depth (F.pre self.now.types.grammar.parse) }
    {
        let alloc = self.types.grammar.alloc;
        let start = tokens.at.start();
        let key = ident(alloc, tokens);
        if !tokens.at.eat(TokenKind::Assign) {
            return key;
        }
        let value = self.types.grammar.again(tokens, Rule::Assigned);
        let span = tokens.at.from(start);
        tokens.made(AssignProp { span, key, value }.into_tree(alloc))
    }

    // What stands behind a key: a value, or a function.
    fn keyed(&self, tokens: &mut Tokens<'_>, start: SourcePos, marks: Marks, key: Tree) -> Tree
        requires { Nests self.now.types.grammar.depth (F.pre self.now.types.grammar.parse) }
    {
        let alloc = self.types.grammar.alloc;
        if tokens.at.is(TokenKind::LParen) || tokens.at.is(TokenKind::Less) {
            let function = self.function(tokens, start, marks, Tree::list(Items::new(alloc)));
            return tokens.made(MethodProp { key, function }.into_tree(alloc));
        }
        if marks.is_async || marks.is_generator {
            return tokens.refuse();
        }
        tokens.expect(TokenKind::Colon);
        let value = self.types.grammar.again(tokens, Rule::Assigned);
        tokens.made(KeyValueProp { key, value }.into_tree(alloc))
    }

    // `get a() {}` or `set a(b) {}`
    fn accessor(&self, tokens: &mut Tokens<'_>, start: SourcePos) -> Tree
        requires { Nests self.now.types.grammar.depth (F.pre self.now.types.grammar.parse) }
    {
        let alloc = self.types.grammar.alloc;
        let is_getter = tokens.at.is_word(Keyword::Get);
        tokens.at.advance();
        let key = self.types.prop_name(tokens);
        let marks = Marks {
            is_async: false,
            is_generator: false,
        };
        let outer = enter_function(tokens, marks);
        tokens.expect(TokenKind::LParen);
        let param = if is_getter {
            Tree::Absent
        } else {
            self.types.grammar.again(tokens, Rule::SignatureParam)
        };
        let _ = !is_getter && tokens.at.eat(TokenKind::Comma);
        tokens.expect(TokenKind::RParen);
        let type_ann = self.types.result(tokens);
        let body = self.types.grammar.again(tokens, Rule::Body);
        let _ = tokens.at.enter(outer);
        let span = tokens.at.from(start);
        let made = if is_getter {
            GetterProp {
                span,
                key,
                type_ann,
                body,
            }
            .into_tree(alloc)
        } else {
            SetterProp {
                span,
                key,
                param,
                body,
            }
            .into_tree(alloc)
        };
        tokens.made(made)
    }
}
