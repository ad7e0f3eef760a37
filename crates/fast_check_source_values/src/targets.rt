//! Patterns that something is assigned to. They are written as literals are.
ghost use Rattle.fast_check_source_grammar.specs.Nests.{Nests};

use crate::values::Values;
use fast_check_source_grammar::{Cursor, Rule, Tokens, ident};
use fast_check_source_lexer::{Keyword, TokenKind};
use fast_check_tree_forms_expressions::{
    ArrayPat, AssignPat, AssignPatProp, KeyValuePatProp, ObjectPat, PatExpr, RestPat, TargetPat,
};
use fast_check_tree_forms_programs::BindingIdent;
use fast_check_tree_syntax::{Kind, Tree};
use std::alloc::Global;

/// Whether a tree is a literal that may be read as a pattern.
pub fn is_shape(tree: &Tree) -> bool {
    match tree {
        Tree::Node(kind, _) => *kind == Kind::ArrayLit || *kind == Kind::ObjectLit,
        _ => false,
    }
}

fn is_ident(tree: &Tree) -> bool {
    match tree {
        Tree::Node(kind, _) => *kind == Kind::Ident,
        _ => false,
    }
}

// Whether what was read so far is a whole target: a value, another target or the end of the pattern follows.
fn ends_target(at: Cursor<'_>) -> bool {
    match at.kind() {
        TokenKind::Assign
        | TokenKind::Comma
        | TokenKind::RBrace
        | TokenKind::RBracket
        | TokenKind::RParen
        | TokenKind::End => true,
        _ => at.is_word(Keyword::Of) || at.is_word(Keyword::In),
    }
}

impl<F: Fn(Global, &mut Tokens<'_>, usize, Rule) -> Tree> Values<F> {
    /// `[a, b]` or `{ a, b }` before `=`.
    pub fn assigned_shape(&self, tokens: &mut Tokens<'_>) -> Tree
        requires { Nests self.now.types.grammar.depth (F.pre self.now.types.grammar.parse) }
    {
        let pat = self.shape(tokens);
        tokens.made(TargetPat { pat }.into_tree(self.types.grammar.alloc))
    }

    fn shape(&self, tokens: &mut Tokens<'_>) -> Tree
        requires { Nests self.now.types.grammar.depth (F.pre self.now.types.grammar.parse) }
    {
        let alloc = self.types.grammar.alloc;
        let start = tokens.at.start();
        if tokens.at.is(TokenKind::LBracket) {
            let elems = self.elements(tokens, Rule::TargetElement);
            let made = ArrayPat {
                span: tokens.at.from(start),
                elems,
                optional: false,
                type_ann: Tree::Absent,
            };
            return tokens.made(made.into_tree(alloc));
        }
        tokens.expect(TokenKind::LBrace);
        let props = self.types.grammar.list(
            tokens,
            Rule::TargetProperty,
            TokenKind::Comma,
            TokenKind::RBrace,
        );
        let made = ObjectPat {
            span: tokens.at.from(start),
            props,
            optional: false,
            type_ann: Tree::Absent,
        };
        tokens.made(made.into_tree(alloc))
    }

    // A nested pattern, or nothing where what begins here goes on as another value, or is no pattern at all.
    fn nested_shape(&self, tokens: &mut Tokens<'_>) -> Option<Tree>
        requires { Nests self.now.types.grammar.depth (F.pre self.now.types.grammar.parse) }
    {
        if !tokens.at.is(TokenKind::LBracket) && !tokens.at.is(TokenKind::LBrace) {
            return None;
        }
        let found = self.shape(tokens);
        if tokens.is_stopped() || !ends_target(tokens.at) {
            None
        } else {
            Some(found)
        }
    }

    /// What is assigned to: a pattern, a name or another value. A pattern is read as one at once: if each level were read as a value first, the innermost one
    /// would be read as often as patterns nest.
    pub fn target(&self, tokens: &mut Tokens<'_>) -> Tree
        requires { Nests self.now.types.grammar.depth (F.pre self.now.types.grammar.parse) }
    {
        let alloc = self.types.grammar.alloc;
        let saved = tokens.save();
        if let Some(found) = self.nested_shape(tokens) {
            return found;
        }
        let fault = tokens.fault();
        tokens.go_back(saved);
        // `a as A` and `<A>a` may be assigned to, which bind as tight as a comparison.
        let expr = self.types.grammar.again(tokens, Rule::Operand(8));
        if is_shape(&expr) {
            match fault {
                Some(fault) => tokens.stop(fault),
                None => {
                    let _ = tokens.refuse();
                }
            }
            return Tree::Absent;
        }
        if is_ident(&expr) {
            let made = BindingIdent {
                id: expr,
                type_ann: Tree::Absent,
            };
            return tokens.made(made.into_tree(alloc));
        }
        tokens.made(PatExpr { expr }.into_tree(alloc))
    }

    // A target with a value behind `=` that stands for it.
    fn target_or_default(&self, tokens: &mut Tokens<'_>) -> Tree
        requires { Nests self.now.types.grammar.depth (F.pre self.now.types.grammar.parse) }
    {
        let start = tokens.at.start();
        let left = self.target(tokens);
        if !tokens.at.eat(TokenKind::Assign) {
            return left;
        }
        let right = self.types.grammar.again(tokens, Rule::Assigned);
        let span = tokens.at.from(start);
        tokens.made(AssignPat { span, left, right }.into_tree(self.types.grammar.alloc))
    }

    fn target_rest(&self, tokens: &mut Tokens<'_>) -> Tree
        requires { Nests self.now.types.grammar.depth (F.pre self.now.types.grammar.parse) }
    {
        let start = tokens.at.start();
        let dot3_token = tokens.at.here();
        tokens.at.advance();
        let arg = self.target_or_default(tokens);
        let made = RestPat {
            span: tokens.at.from(start),
            dot3_token,
            arg,
            type_ann: Tree::Absent,
        };
        tokens.made(made.into_tree(self.types.grammar.alloc))
    }

    pub fn target_element(&self, tokens: &mut Tokens<'_>) -> Tree
        requires { Nests self.now.types.grammar.depth (F.pre self.now.types.grammar.parse) }
    {
        if tokens.at.is(TokenKind::Dots) {
            self.target_rest(tokens)
        } else {
            self.target_or_default(tokens)
        }
    }

    pub fn target_property(&self, tokens: &mut Tokens<'_>) -> Tree
        requires { Nests self.now.types.grammar.depth (F.pre self.now.types.grammar.parse) }
    {
        if tokens.at.is(TokenKind::Dots) {
            return self.target_rest(tokens);
        }
        if tokens.at.is(TokenKind::Name) && !tokens.at.second().is(TokenKind::Colon) {
            return self.short_target(tokens);
        }
        let key = self.types.prop_name(tokens);
        tokens.expect(TokenKind::Colon);
        let value = self.target_or_default(tokens);
        tokens.made(KeyValuePatProp { key, value }.into_tree(self.types.grammar.alloc))
    }

    // `a` or `a = b`
    fn short_target(&self, tokens: &mut Tokens<'_>) -> Tree
        requires { Nests self.now.types.grammar.depth (F.pre self.now.types.grammar.parse) }
    {
        let alloc = self.types.grammar.alloc;
        let start = tokens.at.start();
        let name = BindingIdent {
            id: ident(alloc, tokens),
            type_ann: Tree::Absent,
        };
        let key = tokens.made(name.into_tree(alloc));
        let value = if tokens.at.eat(TokenKind::Assign) {
            self.types.grammar.again(tokens, Rule::Assigned)
        } else {
            Tree::Absent
        };
        let span = tokens.at.from(start);
        tokens.made(AssignPatProp { span, key, value }.into_tree(alloc))
    }
}
