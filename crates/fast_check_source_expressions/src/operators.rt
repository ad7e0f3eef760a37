//! Operators, by precedence climbing.
ghost use Rattle.fast_check_source_grammar.specs.Nests.{Nests};

use crate::expressions::Expressions;
use crate::look_ahead::is_operand_in_line;
use fast_check_source_grammar::{Cursor, Rule, Tokens, private_name};
use fast_check_source_lexer::{Keyword, TokenKind};
use fast_check_source_values::binds;
use fast_check_tree_forms_expressions::{
    AwaitExpr, BinExpr, TsAsExpr, TsConstAssertion, TsSatisfiesExpr, TsTypeAssertion, UnaryExpr,
    UpdateExpr,
};
use fast_check_tree_syntax::{SourcePos, Tree};
use std::alloc::Global;

fn is_prefix(at: Cursor<'_>) -> bool {
    match at.kind() {
        TokenKind::Not | TokenKind::Tilde | TokenKind::Plus | TokenKind::Minus => true,
        TokenKind::Name => matches!(at.word(), Keyword::Typeof | Keyword::Void | Keyword::Delete),
        _ => false,
    }
}

fn is_update(at: Cursor<'_>) -> bool {
    at.is(TokenKind::Increment) || at.is(TokenKind::Decrement)
}

// Whether the next token is an `await` that is an operator rather than a name.
fn awaits(at: Cursor<'_>) -> bool {
    at.is_word(Keyword::Await) && (at.within().is_async || is_operand_in_line(at.second()))
}

impl<F: Fn(Global, &mut Tokens<'_>, usize, Rule) -> Tree> Expressions<F> {
    /// Operators that bind as tight as `least`, or tighter.
    pub fn operand(&self, tokens: &mut Tokens<'_>, least: u8) -> Tree
        requires { Nests self.now.values.types.grammar.depth (F.pre self.now.values.types.grammar.parse) }
    {
        let start = tokens.at.start();
        let mut left = if tokens.at.is(TokenKind::PrivateName) {
            private_name(self.values.types.grammar.alloc, tokens)
        } else {
            self.unary(tokens)
        };
        for _turn in 0..tokens.at.left() {
            tokens.at.rescan_operator();
            let level = binds(tokens.at);
            if level < least || level == 0 || tokens.stops_at_in() {
                break;
            }
            tokens.link();
            left = self.operated(tokens, start, left, level);
        }
        left
    }

    // An operator behind its left side, with its right side.
    fn operated(&self, tokens: &mut Tokens<'_>, start: SourcePos, left: Tree, level: u8) -> Tree
        requires { Nests self.now.values.types.grammar.depth (F.pre self.now.values.types.grammar.parse) }
    {
        if tokens.at.is_word(Keyword::As) || tokens.at.is_word(Keyword::Satisfies) {
            return self.asserted(tokens, start, left);
        }
        let Some(op) = tokens.operator(self.values.types.grammar.alloc) else {
            return Tree::Absent;
        };
        tokens.at.advance();
        let least = if level == 12 {
            12
        } else {
            level.saturating_add(1)
        };
        let made = BinExpr {
            op,
            left,
            right: self
                .values
                .types
                .grammar
                .again(tokens, Rule::Operand(least)),
            span: tokens.at.from(start),
        };
        tokens.made(made.into_tree(self.values.types.grammar.alloc))
    }

    // `as A`, `satisfies A` or `as const` behind a value.
    fn asserted(&self, tokens: &mut Tokens<'_>, start: SourcePos, expr: Tree) -> Tree
        requires { Nests self.now.values.types.grammar.depth (F.pre self.now.values.types.grammar.parse) }
    {
        let is_as = tokens.at.is_word(Keyword::As);
        tokens.at.advance();
        let alloc = self.values.types.grammar.alloc;
        if tokens.at.is_word(Keyword::Const) {
            if !is_as {
                return tokens.refuse();
            }
            tokens.at.advance();
            let span = tokens.at.from(start);
            return tokens.made(TsConstAssertion { span, expr }.into_tree(alloc));
        }
        let type_ann = self.values.types.grammar.again(tokens, Rule::Type);
        let span = tokens.at.from(start);
        let made = if is_as {
            TsAsExpr {
                span,
                expr,
                type_ann,
            }
            .into_tree(alloc)
        } else {
            TsSatisfiesExpr {
                span,
                expr,
                type_ann,
            }
            .into_tree(alloc)
        };
        tokens.made(made)
    }

    /// A value with an operator before it or behind it.
    pub fn unary(&self, tokens: &mut Tokens<'_>) -> Tree
        requires { Nests self.now.values.types.grammar.depth (F.pre self.now.values.types.grammar.parse) }
    {
        let made = if is_prefix(tokens.at) {
            self.prefixed(tokens)
        } else if awaits(tokens.at) {
            self.awaited(tokens)
        } else if tokens.at.is(TokenKind::Less) && !tokens.at.within().jsx {
            self.type_assertion(tokens)
        } else {
            return self.updated(tokens);
        };
        if tokens.at.is(TokenKind::Power) {
            tokens.refuse()
        } else {
            made
        }
    }

    fn prefixed(&self, tokens: &mut Tokens<'_>) -> Tree
        requires { Nests self.now.values.types.grammar.depth (F.pre self.now.values.types.grammar.parse) }
    {
        let start = tokens.at.start();
        let Some(op) = tokens.operator(self.values.types.grammar.alloc) else {
            return Tree::Absent;
        };
        tokens.at.advance();
        let made = UnaryExpr {
            op,
            arg: self.values.types.grammar.again(tokens, Rule::Unary),
            span: tokens.at.from(start),
        };
        tokens.made(made.into_tree(self.values.types.grammar.alloc))
    }

    fn awaited(&self, tokens: &mut Tokens<'_>) -> Tree
        requires { Nests self.now.values.types.grammar.depth (F.pre self.now.values.types.grammar.parse) }
    {
        let start = tokens.at.start();
        if !tokens.at.within().function {
            tokens.note_module();
        }
        tokens.at.advance();
        let made = AwaitExpr {
            arg: self.values.types.grammar.again(tokens, Rule::Unary),
            span: tokens.at.from(start),
        };
        tokens.made(made.into_tree(self.values.types.grammar.alloc))
    }

    // `<A>value` or `<const>value`
    fn type_assertion(&self, tokens: &mut Tokens<'_>) -> Tree
        requires { Nests self.now.values.types.grammar.depth (F.pre self.now.values.types.grammar.parse) }
    {
        let start = tokens.at.start();
        tokens.at.advance();
        let alloc = self.values.types.grammar.alloc;
        if tokens.at.is_word(Keyword::Const) && tokens.at.second().is(TokenKind::Greater) {
            tokens.at.advance();
            tokens.at.advance();
            let made = TsConstAssertion {
                expr: self.values.types.grammar.again(tokens, Rule::Unary),
                span: tokens.at.from(start),
            };
            return tokens.made(made.into_tree(alloc));
        }
        let type_ann = self.values.types.grammar.again(tokens, Rule::Type);
        tokens.expect(TokenKind::Greater);
        let made = TsTypeAssertion {
            expr: self.values.types.grammar.again(tokens, Rule::Unary),
            type_ann,
            span: tokens.at.from(start),
        };
        tokens.made(made.into_tree(alloc))
    }

    // `++a`, `a++` or a value without an operator.
    fn updated(&self, tokens: &mut Tokens<'_>) -> Tree
        requires { Nests self.now.values.types.grammar.depth (F.pre self.now.values.types.grammar.parse) }
    {
        let start = tokens.at.start();
        let alloc = self.values.types.grammar.alloc;
        if is_update(tokens.at) {
            let Some(op) = tokens.operator(alloc) else {
                return Tree::Absent;
            };
            tokens.at.advance();
            let made = UpdateExpr {
                op,
                prefix: true,
                arg: self.values.types.grammar.again(tokens, Rule::Postfixed),
                span: tokens.at.from(start),
            };
            return tokens.made(made.into_tree(alloc));
        }
        let arg = self.postfixed(tokens);
        if tokens.at.newline() || !is_update(tokens.at) {
            return arg;
        }
        let Some(op) = tokens.operator(alloc) else {
            return Tree::Absent;
        };
        tokens.at.advance();
        let made = UpdateExpr {
            span: tokens.at.from(start),
            op,
            prefix: false,
            arg,
        };
        tokens.made(made.into_tree(alloc))
    }
}
