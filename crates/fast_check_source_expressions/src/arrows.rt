//! Arrow functions.
ghost use Rattle.fast_check_source_grammar.specs.Nests.{Nests};

use crate::expressions::Expressions;
use crate::look_ahead::{Arrow, arrow_at};
use fast_check_source_grammar::{Cursor, Note, Rule, Tokens, Trees, binding, is_reserved};
use fast_check_source_lexer::{Keyword, TokenKind};
use fast_check_source_values::{Marks, enter_function};
use fast_check_tree_forms_expressions::ArrowExpr;
use fast_check_tree_syntax::{SourcePos, SyntaxContext, Tree};
use std::alloc::Global;

// What stands before the `=>`.
#[derive(Drop)]
struct Head {
    params: Tree,
    type_params: Tree,
    return_type: Tree,
}

// Whether a name and `=>` stand here.
fn sees_single(at: Cursor<'_>) -> bool {
    at.is(TokenKind::Name) && !is_reserved(at.word()) && at.second().is(TokenKind::Arrow)
}

// Whether an `async` that comes next stands before an arrow function, if one begins behind it.
fn is_mark(at: Cursor<'_>) -> bool {
    if !at.is_word(Keyword::Async) {
        return false;
    }
    let next = at.second();
    !next.newline() && (next.is(TokenKind::LParen) || next.is(TokenKind::Less) || sees_single(next))
}

fn single(alloc: Global, tokens: &mut Tokens<'_>) -> Head {
    let mut params = Trees::new(alloc);
    params.push(binding(alloc, tokens));
    Head {
        params: tokens.list(params),
        type_params: Tree::Absent,
        return_type: Tree::Absent,
    }
}

fn is_absent(tree: &Tree) -> bool {
    matches!(tree, Tree::Absent)
}

impl<F: Fn(Global, &mut Tokens<'_>, usize, Rule) -> Tree> Expressions<F> {
    /// An arrow function, if one begins here.
    pub fn arrow(&self, tokens: &mut Tokens<'_>, in_branch: bool) -> Option<Tree>
        requires { Nests self.now.values.types.grammar.depth (F.pre self.now.values.types.grammar.parse) }
    {
        let saved = tokens.save();
        let is_async = is_mark(tokens.at);
        if is_async {
            tokens.at.advance();
        }
        let place = tokens.at.place();
        let found = if sees_single(tokens.at) {
            Arrow::Yes
        } else if !tokens.is_noted(Note::NoArrow) {
            arrow_at(tokens.at)
        } else {
            Arrow::No
        };
        if found != Arrow::No {
            let arrow = self.arrow_from(tokens, saved.at.start(), is_async, in_branch);
            if arrow.is_some() && (found == Arrow::Yes || !tokens.is_stopped()) {
                return arrow;
            }
            tokens.note(Note::NoArrow, place);
        }
        tokens.go_back(saved);
        None
    }

    // An arrow function behind its `async`, or nothing where its written result does not fit between `?` and `:`.
    fn arrow_from(
        &self,
        tokens: &mut Tokens<'_>,
        start: SourcePos,
        is_async: bool,
        in_branch: bool,
    ) -> Option<Tree>
        requires { Nests self.now.values.types.grammar.depth (F.pre self.now.values.types.grammar.parse) }
    {
        let marks = Marks {
            is_async,
            is_generator: false,
        };
        let outer = enter_function(tokens, marks);
        let Head {
            params,
            type_params,
            return_type,
        } = self.head(tokens);
        tokens.expect(TokenKind::Arrow);
        let body = if tokens.at.is(TokenKind::LBrace) {
            self.values.types.grammar.again(tokens, Rule::Body)
        } else {
            let rule = if in_branch {
                Rule::Branch
            } else {
                Rule::Assigned
            };
            self.values.types.grammar.again(tokens, rule)
        };
        let _ = tokens.at.enter(outer);
        if !tokens.is_stopped()
            && in_branch
            && !is_absent(&return_type)
            && !tokens.at.is(TokenKind::Colon)
        {
            return None;
        }
        let made = ArrowExpr {
            span: tokens.at.from(start),
            ctxt: SyntaxContext(0),
            params,
            body,
            is_async,
            is_generator: false,
            type_params,
            return_type,
        };
        Some(tokens.made(made.into_tree(self.values.types.grammar.alloc)))
    }

    // `a`, or `<A>(b): C`
    fn head(&self, tokens: &mut Tokens<'_>) -> Head
        requires { Nests self.now.values.types.grammar.depth (F.pre self.now.values.types.grammar.parse) }
    {
        if tokens.at.is(TokenKind::Name) {
            return single(self.values.types.grammar.alloc, tokens);
        }
        let type_params = self.values.types.type_params(tokens);
        let params = self.values.types.params(tokens);
        let return_type = self.values.types.result(tokens);
        Head {
            params,
            type_params,
            return_type,
        }
    }
}
