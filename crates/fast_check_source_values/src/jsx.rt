//! JSX. It is passed over, and held as it is written.
ghost use Rattle.fast_check_source_grammar.specs.Nests.{Nests};

use crate::values::Values;
use fast_check_source_grammar::{Rule, Tokens};
use fast_check_source_lexer::TokenKind;
use fast_check_tree_forms_expressions::{JSXElement, JSXFragment};
use fast_check_tree_syntax::{Atom, Tree};
use std::alloc::Global;

// Passes a name in a tag.
fn pass_name(tokens: &mut Tokens<'_>) {
    tokens.at.rescan_jsx_name();
    tokens.expect(TokenKind::Name)
}

// Passes the name of a tag, as `a`, `a.b` or `a:b`, and answers its text.
fn tag_name<'a>(tokens: &mut Tokens<'a>) -> &'a str {
    let start = tokens.at.start();
    if tokens.at.is(TokenKind::Greater) {
        return "";
    }
    pass_name(tokens);
    for _turn in 0..tokens.at.left() {
        if !tokens.at.eat(TokenKind::Dot) && !tokens.at.eat(TokenKind::Colon) {
            break;
        }
        pass_name(tokens);
    }
    tokens.at.text_from(start)
}

fn is_no_blank(byte: &u8) -> bool {
    !byte.is_ascii_whitespace()
}

// Whether two tags have one name, with or without blanks in it.
fn is_one_name(first: &str, second: &str) -> bool {
    let first = first.bytes().filter(is_no_blank);
    first.eq(second.bytes().filter(is_no_blank))
}

// Passes the `>` that ends an element, and the text behind it where the element stands in another.
fn end_tag(tokens: &mut Tokens<'_>, nested: bool) {
    if !tokens.at.is(TokenKind::Greater) {
        let _ = tokens.refuse();
    } else if nested {
        tokens.at.pass_jsx_text();
    } else {
        tokens.at.advance();
    }
}

impl<F: Fn(Global, &mut Tokens<'_>, usize, Rule) -> Tree> Values<F> {
    /// `<a>..</a>`, `<a />` or `<>..</>` as a value.
    pub fn jsx(&self, tokens: &mut Tokens<'_>) -> Tree
        requires { Nests self.now.types.grammar.depth (F.pre self.now.types.grammar.parse) }
    {
        let alloc = self.types.grammar.alloc;
        let start = tokens.at.start();
        let is_fragment = tokens.at.second().is(TokenKind::Greater);
        self.element(tokens, false);
        if tokens.is_stopped() {
            return Tree::Absent;
        }
        let span = tokens.at.from(start);
        let raw = Atom::from_str(alloc, tokens.at.text_from(start));
        let Some(raw) = tokens.text(raw) else {
            return Tree::Absent;
        };
        let made = if is_fragment {
            JSXFragment { span, raw }.into_tree(alloc)
        } else {
            JSXElement { span, raw }.into_tree(alloc)
        };
        tokens.made(made)
    }

    /// An element within another, with the text behind it. No tree is made of it.
    pub fn nested_jsx(&self, tokens: &mut Tokens<'_>) -> Tree
        requires { Nests self.now.types.grammar.depth (F.pre self.now.types.grammar.parse) }
    {
        self.element(tokens, true);
        Tree::Absent
    }

    fn element(&self, tokens: &mut Tokens<'_>, nested: bool)
        requires { Nests self.now.types.grammar.depth (F.pre self.now.types.grammar.parse) }
    {
        tokens.expect(TokenKind::Less);
        let name = tag_name(tokens);
        if !name.is_empty() {
            let _ = self.types.type_args(tokens);
            self.attributes(tokens);
            if tokens.at.eat(TokenKind::Slash) {
                return end_tag(tokens, nested);
            }
        }
        end_tag(tokens, true);
        self.children(tokens);
        tokens.expect(TokenKind::Slash);
        let at = tokens.at;
        if !is_one_name(tag_name(tokens), name) {
            tokens.at = at;
            let _ = tokens.refuse();
        }
        end_tag(tokens, nested)
    }

    fn attributes(&self, tokens: &mut Tokens<'_>)
        requires { Nests self.now.types.grammar.depth (F.pre self.now.types.grammar.parse) }
    {
        for _turn in 0..tokens.at.left() {
            match tokens.at.kind() {
                TokenKind::LBrace => {
                    tokens.at.advance();
                    tokens.expect(TokenKind::Dots);
                    let _ = self.types.grammar.again(tokens, Rule::Expression);
                    tokens.expect(TokenKind::RBrace);
                }
                TokenKind::Name => {
                    pass_name(tokens);
                    if tokens.at.eat(TokenKind::Colon) {
                        pass_name(tokens);
                    }
                    if tokens.at.eat(TokenKind::Assign) {
                        self.attribute_value(tokens);
                    }
                }
                _ => break,
            }
        }
    }

    fn attribute_value(&self, tokens: &mut Tokens<'_>)
        requires { Nests self.now.types.grammar.depth (F.pre self.now.types.grammar.parse) }
    {
        match tokens.at.kind() {
            TokenKind::LBrace => {
                tokens.at.advance();
                let _ = self.types.grammar.again(tokens, Rule::Expression);
                tokens.expect(TokenKind::RBrace)
            }
            TokenKind::Less => {
                let _ = self.types.grammar.again(tokens, Rule::Postfixed);
            }
            _ => {
                tokens.at.rescan_jsx_string();
                tokens.expect(TokenKind::String)
            }
        }
    }

    // What stands between two tags, and the `<` of the second one.
    fn children(&self, tokens: &mut Tokens<'_>)
        requires { Nests self.now.types.grammar.depth (F.pre self.now.types.grammar.parse) }
    {
        for _turn in 0..tokens.at.left() {
            if tokens.at.is(TokenKind::LBrace) {
                self.contained(tokens);
            } else if tokens.at.is(TokenKind::End) || tokens.at.second().is(TokenKind::Slash) {
                break;
            } else {
                let _ = self.types.grammar.again(tokens, Rule::Jsx);
            }
        }
        tokens.expect(TokenKind::Less)
    }

    // `{a}` or `{...a}` among the children.
    fn contained(&self, tokens: &mut Tokens<'_>)
        requires { Nests self.now.types.grammar.depth (F.pre self.now.types.grammar.parse) }
    {
        tokens.at.advance();
        if !tokens.at.is(TokenKind::RBrace) {
            let _ = tokens.at.eat(TokenKind::Dots);
            let _ = self.types.grammar.again(tokens, Rule::Expression);
        }
        if tokens.at.is(TokenKind::RBrace) {
            tokens.at.pass_jsx_text();
        } else {
            let _ = tokens.refuse();
        }
    }
}
