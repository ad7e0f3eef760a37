//! Members, calls and optional chains.
ghost use Rattle.fast_check_source_grammar.specs.Nests.{Nests};

use crate::expressions::Expressions;
use fast_check_source_grammar::{Note, Rule, Tokens, ident_name, private_name};
use fast_check_source_lexer::TokenKind;
use fast_check_tree_forms_expressions::{
    CallExpr, MemberExpr, OptCall, OptChainExpr, TaggedTpl, TsInstantiation, TsNonNullExpr,
};
use fast_check_tree_syntax::{SourcePos, SyntaxContext, Tree};
use std::alloc::Global;

/// What may stand behind a value.
#[derive(Clone, Copy, PartialEq, Eq)]
pub enum Links {
    All,
    /// Behind `@`: all but brackets.
    Decorated,
    /// After `new`: members, templates and type arguments.
    Constructed,
    /// Behind `extends`: all but type arguments with no call behind them.
    Heir,
}

// A value with what stands behind it so far.
#[derive(Drop)]
struct Chain {
    made: Tree,
    // Whether a `?.` stands in it.
    optional: bool,
    // Whether nothing more stands behind it.
    ended: bool,
}

fn linked(made: Tree, optional: bool) -> Chain {
    Chain {
        made,
        optional,
        ended: false,
    }
}

impl<F: Fn(Global, &mut Tokens<'_>, usize, Rule) -> Tree> Expressions<F> {
    /// A value with members and calls behind it.
    pub fn postfixed(&self, tokens: &mut Tokens<'_>) -> Tree
        requires { Nests self.now.values.types.grammar.depth (F.pre self.now.values.types.grammar.parse) }
    {
        self.links(tokens, Links::All)
    }

    /// The same behind `@`.
    pub fn decorated(&self, tokens: &mut Tokens<'_>) -> Tree
        requires { Nests self.now.values.types.grammar.depth (F.pre self.now.values.types.grammar.parse) }
    {
        self.links(tokens, Links::Decorated)
    }

    /// What a class extends.
    pub fn heir(&self, tokens: &mut Tokens<'_>) -> Tree
        requires { Nests self.now.values.types.grammar.depth (F.pre self.now.values.types.grammar.parse) }
    {
        self.links(tokens, Links::Heir)
    }

    /// The callee of `new`.
    pub fn constructor_value(&self, tokens: &mut Tokens<'_>) -> Tree
        requires { Nests self.now.values.types.grammar.depth (F.pre self.now.values.types.grammar.parse) }
    {
        self.links(tokens, Links::Constructed)
    }

    fn links(&self, tokens: &mut Tokens<'_>, links: Links) -> Tree
        requires { Nests self.now.values.types.grammar.depth (F.pre self.now.values.types.grammar.parse) }
    {
        let start = tokens.at.start();
        let mut chain = linked(self.values.value(tokens), false);
        for _turn in 0..tokens.at.left() {
            chain = self.link(tokens, start, chain, links);
            if chain.ended {
                break;
            }
            // A link of an optional chain is two nodes.
            tokens.link();
            tokens.link();
        }
        chain.made
    }

    // One more member, call, mark or template.
    fn link(&self, tokens: &mut Tokens<'_>, start: SourcePos, chain: Chain, links: Links) -> Chain
        requires { Nests self.now.values.types.grammar.depth (F.pre self.now.values.types.grammar.parse) }
    {
        let Chain { made, optional, .. } = chain;
        match tokens.at.kind() {
            TokenKind::Dot => {
                let found = self.dotted(tokens, start, made);
                self.chained(tokens, start, found, optional)
            }
            TokenKind::LBracket if links != Links::Decorated => {
                let found = self.indexed(tokens, start, made);
                self.chained(tokens, start, found, optional)
            }
            TokenKind::LParen if links != Links::Constructed => {
                let found = self.called(tokens, start, made, Tree::Absent, optional);
                self.chained(tokens, start, found, optional)
            }
            TokenKind::OptionalChain if links != Links::Constructed => self.optional_link(
                tokens, start, made,
            ),
            TokenKind::Template | TokenKind::TemplateHead => self.tagged(
                tokens,
                start,
                made,
                Tree::Absent,
            ),
            TokenKind::Not if !tokens.at.newline() => {
                tokens.at.advance();
                let span = tokens.at.from(start);
                let made = TsNonNullExpr { span, expr: made };
                let made = tokens.made(made.into_tree(self.values.types.grammar.alloc));
                linked(made, optional)
            }
            TokenKind::Less | TokenKind::LeftShift => {
                self.argued(tokens, start, made, optional, links)
            }
            _ => Chain {
                made,
                optional,
                ended: true,
            },
        }
    }

    // A link of a chain in which a `?.` stands before it, or of a value without one.
    fn chained(
        &self,
        tokens: &mut Tokens<'_>,
        start: SourcePos,
        base: Tree,
        optional: bool,
    ) -> Chain {
        if !optional {
            return linked(base, false);
        }
        let made = OptChainExpr {
            span: tokens.at.from(start),
            optional: false,
            base,
        };
        linked(
            tokens.made(made.into_tree(self.values.types.grammar.alloc)),
            true,
        )
    }

    // `?.a`, `?.[a]` or `?.(a)`
    fn optional_link(&self, tokens: &mut Tokens<'_>, start: SourcePos, made: Tree) -> Chain
        requires { Nests self.now.values.types.grammar.depth (F.pre self.now.values.types.grammar.parse) }
    {
        let next = tokens.at.second().kind();
        let base = match next {
            TokenKind::LParen | TokenKind::Less | TokenKind::LeftShift => {
                tokens.at.advance();
                let args = self.values.types.type_args(tokens);
                if !tokens.at.is(TokenKind::LParen) {
                    let _ = tokens.refuse();
                }
                self.called(tokens, start, made, args, true)
            }
            TokenKind::LBracket => {
                tokens.at.advance();
                self.indexed(tokens, start, made)
            }
            _ => self.dotted(tokens, start, made),
        };
        let made = OptChainExpr {
            span: tokens.at.from(start),
            optional: true,
            base,
        };
        linked(
            tokens.made(made.into_tree(self.values.types.grammar.alloc)),
            true,
        )
    }

    // Behind a `.` or `?.` that comes next.
    fn dotted(&self, tokens: &mut Tokens<'_>, start: SourcePos, obj: Tree) -> Tree {
        tokens.at.advance();
        let alloc = self.values.types.grammar.alloc;
        let prop = if tokens.at.is(TokenKind::PrivateName) {
            private_name(alloc, tokens)
        } else {
            ident_name(alloc, tokens)
        };
        let made = MemberExpr {
            span: tokens.at.from(start),
            obj,
            prop,
        };
        tokens.made(made.into_tree(alloc))
    }

    fn indexed(&self, tokens: &mut Tokens<'_>, start: SourcePos, obj: Tree) -> Tree
        requires { Nests self.now.values.types.grammar.depth (F.pre self.now.values.types.grammar.parse) }
    {
        let made = MemberExpr {
            obj,
            prop: self.values.computed(tokens),
            span: tokens.at.from(start),
        };
        tokens.made(made.into_tree(self.values.types.grammar.alloc))
    }

    // `(a, b)` behind a callee and its type arguments.
    fn called(
        &self,
        tokens: &mut Tokens<'_>,
        start: SourcePos,
        callee: Tree,
        type_args: Tree,
        optional: bool,
    ) -> Tree
        requires { Nests self.now.values.types.grammar.depth (F.pre self.now.values.types.grammar.parse) }
    {
        tokens.at.advance();
        let alloc = self.values.types.grammar.alloc;
        let args = self.values.types.grammar.list(
            tokens,
            Rule::Argument,
            TokenKind::Comma,
            TokenKind::RParen,
        );
        let span = tokens.at.from(start);
        let ctxt = SyntaxContext(0);
        let made = if optional {
            OptCall {
                span,
                ctxt,
                callee,
                args,
                type_args,
            }
            .into_tree(alloc)
        } else {
            CallExpr {
                span,
                ctxt,
                callee,
                args,
                type_args,
            }
            .into_tree(alloc)
        };
        tokens.made(made)
    }

    // A template behind its tag.
    fn tagged(
        &self,
        tokens: &mut Tokens<'_>,
        start: SourcePos,
        tag: Tree,
        type_params: Tree,
    ) -> Chain
        requires { Nests self.now.values.types.grammar.depth (F.pre self.now.values.types.grammar.parse) }
    {
        let made = TaggedTpl {
            ctxt: SyntaxContext(0),
            tag,
            type_params,
            tpl: self.values.template(tokens),
            span: tokens.at.from(start),
        };
        linked(
            tokens.made(made.into_tree(self.values.types.grammar.alloc)),
            false,
        )
    }

    // Type arguments, and the call or the template behind them.
    fn argued(
        &self,
        tokens: &mut Tokens<'_>,
        start: SourcePos,
        made: Tree,
        optional: bool,
        links: Links,
    ) -> Chain
        requires { Nests self.now.values.types.grammar.depth (F.pre self.now.values.types.grammar.parse) }
    {
        let saved = tokens.save();
        let Some(args) = self.values.value_args(tokens) else {
            return Chain {
                made,
                optional,
                ended: true,
            };
        };
        match tokens.at.kind() {
            TokenKind::LParen if links != Links::Constructed => {
                let found = self.called(tokens, start, made, args, optional);
                self.chained(tokens, start, found, optional)
            }
            TokenKind::Template | TokenKind::TemplateHead => self.tagged(tokens, start, made, args),
            _ if links == Links::Heir => {
                tokens.note(Note::NoArgs, saved.at.place());
                tokens.go_back(saved);
                Chain {
                    made,
                    optional,
                    ended: true,
                }
            }
            _ => {
                let found = TsInstantiation {
                    span: tokens.at.from(start),
                    expr: made,
                    type_args: args,
                };
                linked(
                    tokens.made(found.into_tree(self.values.types.grammar.alloc)),
                    optional,
                )
            }
        }
    }
}
