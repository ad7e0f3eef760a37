//! Values without operators.
ghost use Rattle.fast_check_source_grammar.specs.Nests.{Nests};

use crate::look_ahead::follows_args;
use fast_check_source_grammar::{
    Note, Rule, Tokens, Trees, bool_literal, ident, ident_name, number, regex, string,
};
use fast_check_source_lexer::{Keyword, TokenKind};
use fast_check_source_types::Types;
use fast_check_tree_forms_expressions::{
    ArrayLit, ComputedPropName, Import, MetaPropExpr, NewExpr, ParenExpr, Super, SuperPropExpr,
    ThisExpr, Tpl,
};
use fast_check_tree_forms_programs::Null;
use fast_check_tree_syntax::{Atom, Kind, SourcePos, SyntaxContext, Tree};
use std::alloc::Global;

/// The rules of values without operators.
#[derive(Clone, Copy)]
pub struct Values<F> {
    pub types: Types<F>,
}

// `new.target` or `import.meta`, behind its dot.
fn meta(alloc: Global, tokens: &mut Tokens<'_>, start: SourcePos, kind: &str) -> Tree {
    tokens.at.advance();
    let span = tokens.at.from(start);
    let Some(kind) = tokens.text(Atom::from_str(alloc, kind)) else {
        return Tree::Absent;
    };
    tokens.made(MetaPropExpr { span, kind }.into_tree(alloc))
}

fn import(alloc: Global, tokens: &mut Tokens<'_>, start: SourcePos, phase: &str) -> Tree {
    if !tokens.at.is(TokenKind::LParen) {
        return tokens.refuse();
    }
    let span = tokens.at.from(start);
    let Some(phase) = tokens.text(Atom::from_str(alloc, phase)) else {
        return Tree::Absent;
    };
    tokens.made(Import { span, phase }.into_tree(alloc))
}

// `import.meta`, or `import` or `import.defer` as what is called.
fn imported(alloc: Global, tokens: &mut Tokens<'_>) -> Tree {
    let start = tokens.at.start();
    tokens.at.advance();
    if !tokens.at.eat(TokenKind::Dot) {
        return import(alloc, tokens, start, "evaluation");
    }
    match tokens.at.inside(0, 0) {
        "meta" => {
            tokens.note_module();
            meta(alloc, tokens, start, "import.meta")
        }
        "defer" => {
            tokens.at.advance();
            import(alloc, tokens, start, "defer")
        }
        _ => tokens.refuse(),
    }
}

fn this(alloc: Global, tokens: &mut Tokens<'_>) -> Tree {
    let span = tokens.at.here();
    tokens.at.advance();
    tokens.made(ThisExpr { span }.into_tree(alloc))
}

fn null(alloc: Global, tokens: &mut Tokens<'_>) -> Tree {
    let span = tokens.at.here();
    tokens.at.advance();
    tokens.made(Null { span }.into_tree(alloc))
}

// The callee of `new` and its type arguments, of a value that ends with them or has none.
fn callee_of(value: Tree) -> (Tree, Tree) {
    match value {
        Tree::Node(Kind::TsInstantiation, mut parts) => {
            let type_args = parts.pop();
            match (parts.pop(), type_args) {
                (Some(callee), Some(type_args)) => (callee, type_args),
                _ => (Tree::Absent, Tree::Absent),
            }
        }
        callee => (callee, Tree::Absent),
    }
}

impl<F: Fn(Global, &mut Tokens<'_>, usize, Rule) -> Tree> Values<F> {
    /// A value with nothing behind it.
    pub fn value(&self, tokens: &mut Tokens<'_>) -> Tree
        requires { Nests self.now.types.grammar.depth (F.pre self.now.types.grammar.parse) }
    {
        let alloc = self.types.grammar.alloc;
        match tokens.at.kind() {
            TokenKind::Name => self.word_value(tokens),
            TokenKind::String => string(alloc, tokens),
            TokenKind::Number | TokenKind::BigInt => number(alloc, tokens),
            TokenKind::Template | TokenKind::TemplateHead => self.template(tokens),
            TokenKind::Slash | TokenKind::SlashAssign => regex(alloc, tokens),
            TokenKind::LParen => self.parenthesized(tokens),
            TokenKind::LBracket => self.array(tokens),
            TokenKind::LBrace => self.object(tokens),
            TokenKind::At => self.types.grammar.again(tokens, Rule::ClassValue),
            TokenKind::Less if tokens.at.within().jsx => self.jsx(tokens),
            _ => tokens.refuse(),
        }
    }

    fn word_value(&self, tokens: &mut Tokens<'_>) -> Tree
        requires { Nests self.now.types.grammar.depth (F.pre self.now.types.grammar.parse) }
    {
        let alloc = self.types.grammar.alloc;
        match tokens.at.word() {
            Keyword::This => this(alloc, tokens),
            Keyword::Super => self.super_value(tokens),
            Keyword::Null => null(alloc, tokens),
            Keyword::True | Keyword::False => bool_literal(alloc, tokens),
            Keyword::Function => self.function_value(tokens),
            Keyword::Class => self.types.grammar.again(tokens, Rule::ClassValue),
            Keyword::New => self.constructed(tokens),
            Keyword::Import => imported(alloc, tokens),
            Keyword::Async => {
                let next = tokens.at.second();
                if next.is_word(Keyword::Function) && !next.newline() {
                    self.function_value(tokens)
                } else {
                    ident(alloc, tokens)
                }
            }
            _ => ident(alloc, tokens),
        }
    }

    fn parenthesized(&self, tokens: &mut Tokens<'_>) -> Tree
        requires { Nests self.now.types.grammar.depth (F.pre self.now.types.grammar.parse) }
    {
        let start = tokens.at.start();
        tokens.at.advance();
        let expr = self.types.grammar.again(tokens, Rule::Expression);
        tokens.expect(TokenKind::RParen);
        let span = tokens.at.from(start);
        tokens.made(ParenExpr { span, expr }.into_tree(self.types.grammar.alloc))
    }

    /// `[a]` behind a value.
    pub fn computed(&self, tokens: &mut Tokens<'_>) -> Tree
        requires { Nests self.now.types.grammar.depth (F.pre self.now.types.grammar.parse) }
    {
        let start = tokens.at.start();
        tokens.at.advance();
        let expr = self.types.grammar.again(tokens, Rule::Expression);
        tokens.expect(TokenKind::RBracket);
        let span = tokens.at.from(start);
        tokens.made(ComputedPropName { span, expr }.into_tree(self.types.grammar.alloc))
    }

    // `super`, or `super.a` or `super[a]`.
    fn super_value(&self, tokens: &mut Tokens<'_>) -> Tree
        requires { Nests self.now.types.grammar.depth (F.pre self.now.types.grammar.parse) }
    {
        let alloc = self.types.grammar.alloc;
        let start = tokens.at.start();
        tokens.at.advance();
        let prop = match tokens.at.kind() {
            TokenKind::LParen => {
                let span = tokens.at.from(start);
                return tokens.made(Super { span }.into_tree(alloc));
            }
            TokenKind::LBracket => self.computed(tokens),
            _ => {
                tokens.expect(TokenKind::Dot);
                ident_name(alloc, tokens)
            }
        };
        let span = tokens.at.from(start);
        tokens.made(SuperPropExpr { span, prop }.into_tree(alloc))
    }

    /// Type arguments of a value, if such come next.
    pub fn value_args(&self, tokens: &mut Tokens<'_>) -> Option<Tree>
        requires { Nests self.now.types.grammar.depth (F.pre self.now.types.grammar.parse) }
    {
        let opens = tokens.at.is(TokenKind::Less) || tokens.at.is(TokenKind::LeftShift);
        if !opens || tokens.is_noted(Note::NoArgs) {
            return None;
        }
        let saved = tokens.save();
        let args = self.types.type_args(tokens);
        if !tokens.is_stopped() && follows_args(tokens.at) {
            return Some(args);
        }
        tokens.note(Note::NoArgs, saved.at.place());
        tokens.go_back(saved);
        None
    }

    // `new A<B>(c)`, or `new.target`.
    fn constructed(&self, tokens: &mut Tokens<'_>) -> Tree
        requires { Nests self.now.types.grammar.depth (F.pre self.now.types.grammar.parse) }
    {
        let alloc = self.types.grammar.alloc;
        let start = tokens.at.start();
        tokens.at.advance();
        if tokens.at.eat(TokenKind::Dot) {
            if tokens.at.inside(0, 0) == "target" {
                return meta(alloc, tokens, start, "new.target");
            }
            return tokens.refuse();
        }
        let (callee, type_args) = callee_of(self.types.grammar.again(tokens, Rule::Constructed));
        let args = if tokens.at.eat(TokenKind::LParen) {
            self.types.grammar.list(tokens, Rule::Argument, TokenKind::Comma, TokenKind::RParen)
        } else {
            Tree::Absent
        };
        let made = NewExpr {
            span: tokens.at.from(start),
            ctxt: SyntaxContext(0),
            callee,
            args,
            type_args,
        };
        tokens.made(made.into_tree(alloc))
    }

    fn array(&self, tokens: &mut Tokens<'_>) -> Tree
        requires { Nests self.now.types.grammar.depth (F.pre self.now.types.grammar.parse) }
    {
        let start = tokens.at.start();
        let elems = self.elements(tokens, Rule::Argument);
        let span = tokens.at.from(start);
        tokens.made(ArrayLit { span, elems }.into_tree(self.types.grammar.alloc))
    }

    /// `[a, , b]` by a rule for each element that is not missing.
    pub fn elements(&self, tokens: &mut Tokens<'_>, rule: Rule) -> Tree
        requires { Nests self.now.types.grammar.depth (F.pre self.now.types.grammar.parse) }
    {
        tokens.at.advance();
        let mut elems = Trees::new(self.types.grammar.alloc);
        for _turn in 0..tokens.at.left() {
            if tokens.at.is(TokenKind::RBracket) {
                break;
            }
            if tokens.at.eat(TokenKind::Comma) {
                elems.push(Tree::Absent);
                continue;
            }
            elems.push(self.types.grammar.again(tokens, rule));
            if !tokens.at.eat(TokenKind::Comma) {
                break;
            }
        }
        tokens.expect(TokenKind::RBracket);
        tokens.list(elems)
    }

    /// A template with expressions in it.
    pub fn template(&self, tokens: &mut Tokens<'_>) -> Tree
        requires { Nests self.now.types.grammar.depth (F.pre self.now.types.grammar.parse) }
    {
        let start = tokens.at.start();
        let (exprs, quasis) = self.types.template_parts(tokens, Rule::Expression);
        let made = Tpl {
            span: tokens.at.from(start),
            exprs,
            quasis,
        };
        tokens.made(made.into_tree(self.types.grammar.alloc))
    }
}
