//! Parameters and patterns.
ghost use Rattle.fast_check_source_grammar.specs.Nests.{Nests};

use crate::types::Types;
use fast_check_source_grammar::{
    Rule, Tokens, Within, binding, ident, ident_name, number, sees_ident, string,
};
use fast_check_source_lexer::{Keyword, TokenKind};
use fast_check_tree_forms_expressions::{
    ArrayPat, AssignPat, AssignPatProp, ComputedPropName, KeyValuePatProp, ObjectPat, RestPat,
};
use fast_check_tree_forms_programs::{BindingIdent, Ident};
use fast_check_tree_syntax::{SourcePos, SyntaxContext, Tree};
use std::alloc::Global;

// A name as an identifier, with a `?` behind it where one may stand there.
fn optional_ident(alloc: Global, tokens: &mut Tokens<'_>) -> Tree {
    if !sees_ident(tokens) && !tokens.at.is_word(Keyword::This) {
        return tokens.refuse();
    }
    let span = tokens.at.here();
    let Some(sym) = tokens.name(alloc, 0) else {
        return Tree::Absent;
    };
    tokens.at.advance();
    let made = Ident {
        span,
        ctxt: SyntaxContext(0),
        sym,
        optional: tokens.at.eat(TokenKind::Question),
    };
    tokens.made(made.into_tree(alloc))
}

impl<F: Fn(Global, &mut Tokens<'_>, usize, Rule) -> Tree> Types<F> {
    /// The parameters of a signature or of a function type, among which `await` is a name.
    pub fn signature_params(&self, tokens: &mut Tokens<'_>) -> Tree
        requires { Nests self.now.grammar.depth (F.pre self.now.grammar.parse) }
    {
        let outer = tokens.at.within();
        let _ = tokens.at.enter(Within {
            is_async: false,
            ..outer
        });
        let params = self.params(tokens);
        let _ = tokens.at.enter(outer);
        params
    }

    /// `(a, b?: A, ...c)`
    pub fn params(&self, tokens: &mut Tokens<'_>) -> Tree
        requires { Nests self.now.grammar.depth (F.pre self.now.grammar.parse) }
    {
        tokens.expect(TokenKind::LParen);
        self.grammar.list(
            tokens,
            Rule::SignatureParam,
            TokenKind::Comma,
            TokenKind::RParen,
        )
    }

    /// A parameter without decorators: a name, a pattern or the rest, with its type and its value.
    pub fn param(&self, tokens: &mut Tokens<'_>) -> Tree
        requires { Nests self.now.grammar.depth (F.pre self.now.grammar.parse) }
    {
        let start = tokens.at.start();
        if tokens.at.is(TokenKind::Dots) {
            return self.rest(tokens, true);
        }
        let left = if tokens.at.is(TokenKind::LBracket) || tokens.at.is(TokenKind::LBrace) {
            self.shape(tokens, true)
        } else {
            let id = optional_ident(self.grammar.alloc, tokens);
            let type_ann = self.annotation(tokens);
            tokens.made(BindingIdent { id, type_ann }.into_tree(self.grammar.alloc))
        };
        self.with_default(tokens, start, left)
    }

    fn with_default(&self, tokens: &mut Tokens<'_>, start: SourcePos, left: Tree) -> Tree
        requires { Nests self.now.grammar.depth (F.pre self.now.grammar.parse) }
    {
        if !tokens.at.eat(TokenKind::Assign) {
            return left;
        }
        let right = self.grammar.again(tokens, Rule::Assigned);
        let span = tokens.at.from(start);
        tokens.made(AssignPat { span, left, right }.into_tree(self.grammar.alloc))
    }

    // `...a`, with its type where it may have one.
    fn rest(&self, tokens: &mut Tokens<'_>, annotated: bool) -> Tree
        requires { Nests self.now.grammar.depth (F.pre self.now.grammar.parse) }
    {
        let start = tokens.at.start();
        tokens.at.advance();
        let dot3_token = tokens.at.from(start);
        let arg = self.bound(tokens);
        let type_ann = if annotated {
            self.annotation(tokens)
        } else {
            Tree::Absent
        };
        let made = RestPat {
            span: tokens.at.from(start),
            dot3_token,
            arg,
            type_ann,
        };
        tokens.made(made.into_tree(self.grammar.alloc))
    }

    // A name or a pattern without its type.
    fn bound(&self, tokens: &mut Tokens<'_>) -> Tree
        requires { Nests self.now.grammar.depth (F.pre self.now.grammar.parse) }
    {
        if tokens.at.is(TokenKind::LBracket) || tokens.at.is(TokenKind::LBrace) {
            self.shape(tokens, false)
        } else {
            binding(self.grammar.alloc, tokens)
        }
    }

    /// A variable with its type: a name or a pattern, and whether a `!` stands behind the name.
    pub fn variable(&self, tokens: &mut Tokens<'_>) -> (Tree, bool)
        requires { Nests self.now.grammar.depth (F.pre self.now.grammar.parse) }
    {
        if tokens.at.is(TokenKind::LBracket) || tokens.at.is(TokenKind::LBrace) {
            return (self.shape(tokens, true), false);
        }
        let id = ident(self.grammar.alloc, tokens);
        let definite = !tokens.at.newline() && tokens.at.eat(TokenKind::Not);
        let type_ann = self.annotation(tokens);
        let made = BindingIdent { id, type_ann }.into_tree(self.grammar.alloc);
        (tokens.made(made), definite)
    }

    /// A variable with its type and no `!`.
    pub fn declared(&self, tokens: &mut Tokens<'_>) -> Tree
        requires { Nests self.now.grammar.depth (F.pre self.now.grammar.parse) }
    {
        let (name, definite) = self.variable(tokens);
        if definite { tokens.refuse() } else { name }
    }

    /// A pattern with a value behind `=` that stands for it, without a type.
    pub fn pattern(&self, tokens: &mut Tokens<'_>) -> Tree
        requires { Nests self.now.grammar.depth (F.pre self.now.grammar.parse) }
    {
        let start = tokens.at.start();
        let left = self.bound(tokens);
        self.with_default(tokens, start, left)
    }

    // `[a, b]` or `{ a, b }`, with its type where it may have one.
    fn shape(&self, tokens: &mut Tokens<'_>, annotated: bool) -> Tree
        requires { Nests self.now.grammar.depth (F.pre self.now.grammar.parse) }
    {
        let start = tokens.at.start();
        let is_array = tokens.at.is(TokenKind::LBracket);
        tokens.at.advance();
        let parts = if is_array {
            self.grammar.list(
                tokens,
                Rule::ElementPattern,
                TokenKind::Comma,
                TokenKind::RBracket,
            )
        } else {
            self.grammar.list(
                tokens,
                Rule::PropertyPattern,
                TokenKind::Comma,
                TokenKind::RBrace,
            )
        };
        let mut span = tokens.at.from(start);
        let optional = annotated && tokens.at.eat(TokenKind::Question);
        let type_ann = if annotated {
            self.annotation(tokens)
        } else {
            Tree::Absent
        };
        if !matches!(&type_ann, Tree::Absent) {
            span = tokens.at.from(start);
        }
        let made = if is_array {
            ArrayPat {
                span,
                elems: parts,
                optional,
                type_ann,
            }
            .into_tree(self.grammar.alloc)
        } else {
            ObjectPat {
                span,
                props: parts,
                optional,
                type_ann,
            }
            .into_tree(self.grammar.alloc)
        };
        tokens.made(made)
    }

    /// An element of an array pattern, which may be missing.
    pub fn element_pattern(&self, tokens: &mut Tokens<'_>) -> Tree
        requires { Nests self.now.grammar.depth (F.pre self.now.grammar.parse) }
    {
        match tokens.at.kind() {
            TokenKind::Comma => Tree::Absent,
            TokenKind::Dots => self.rest(tokens, false),
            _ => self.pattern(tokens),
        }
    }

    /// `a`, `a = b`, `a: b` or `...a` in an object pattern.
    pub fn property_pattern(&self, tokens: &mut Tokens<'_>) -> Tree
        requires { Nests self.now.grammar.depth (F.pre self.now.grammar.parse) }
    {
        if tokens.at.is(TokenKind::Dots) {
            return self.rest(tokens, false);
        }
        if tokens.at.is(TokenKind::Name) && !tokens.at.second().is(TokenKind::Colon) {
            return self.short_property(tokens);
        }
        let key = self.prop_name(tokens);
        tokens.expect(TokenKind::Colon);
        let value = self.pattern(tokens);
        tokens.made(KeyValuePatProp { key, value }.into_tree(self.grammar.alloc))
    }

    fn short_property(&self, tokens: &mut Tokens<'_>) -> Tree
        requires { Nests self.now.grammar.depth (F.pre self.now.grammar.parse) }
    {
        let start = tokens.at.start();
        let key = binding(self.grammar.alloc, tokens);
        let value = if tokens.at.eat(TokenKind::Assign) {
            self.grammar.again(tokens, Rule::Assigned)
        } else {
            Tree::Absent
        };
        let span = tokens.at.from(start);
        tokens.made(AssignPatProp { span, key, value }.into_tree(self.grammar.alloc))
    }

    /// The key of a property: a word, a string, a number or an expression in brackets.
    pub fn prop_name(&self, tokens: &mut Tokens<'_>) -> Tree
        requires { Nests self.now.grammar.depth (F.pre self.now.grammar.parse) }
    {
        match tokens.at.kind() {
            TokenKind::Name => ident_name(self.grammar.alloc, tokens),
            TokenKind::String => string(self.grammar.alloc, tokens),
            TokenKind::LBracket => self.computed_name(tokens),
            _ => number(self.grammar.alloc, tokens),
        }
    }

    fn computed_name(&self, tokens: &mut Tokens<'_>) -> Tree
        requires { Nests self.now.grammar.depth (F.pre self.now.grammar.parse) }
    {
        let start = tokens.at.start();
        tokens.at.advance();
        let expr = self.grammar.again(tokens, Rule::Expression);
        tokens.expect(TokenKind::RBracket);
        let span = tokens.at.from(start);
        tokens.made(ComputedPropName { span, expr }.into_tree(self.grammar.alloc))
    }
}
