//! Members of interfaces and of object types.
ghost use Rattle.fast_check_source_grammar.specs.Nests.{Nests};

use crate::look_ahead::{can_follow_modifier, sees_accessor, sees_index};
use crate::types::Types;
use fast_check_source_grammar::{Cursor, Rule, Tokens, Trees, literal_key, word};
use fast_check_source_lexer::{Keyword, TokenKind};
use fast_check_tree_forms_classes::TsIndexSignature;
use fast_check_tree_forms_programs::{BindingIdent, Ident};
use fast_check_tree_forms_types::{
    TsCallSignatureDecl, TsConstructSignatureDecl, TsGetterSignature, TsMethodSignature,
    TsPropertySignature, TsSetterSignature,
};
use fast_check_tree_syntax::{SourcePos, SyntaxContext, Tree};
use std::alloc::Global;

/// Passes what ends a member.
fn end_member(tokens: &mut Tokens<'_>) {
    if !tokens.at.eat(TokenKind::Comma) {
        tokens.end_statement();
    }
}

fn is_modifier(word: Keyword) -> bool {
    matches!(
        word,
        Keyword::Readonly
            | Keyword::Public
            | Keyword::Private
            | Keyword::Protected
            | Keyword::Static
            | Keyword::Abstract
            | Keyword::Declare
            | Keyword::Override
            | Keyword::Async
    )
}

// Whether the next token is a modifier of the member, rather than its key.
fn sees_modifier(at: Cursor<'_>) -> bool {
    let next = at.second();
    is_modifier(at.word()) && !next.newline() && can_follow_modifier(next)
}

// Passes `readonly` before a member, and returns whether it was there. A member of a type has no other modifier, and has it once.
fn readonly_modifier(tokens: &mut Tokens<'_>) -> bool {
    let readonly = tokens.at.is_word(Keyword::Readonly) && sees_modifier(tokens.at);
    if readonly {
        tokens.at.advance();
    }
    if sees_modifier(tokens.at) {
        let _ = tokens.refuse();
    }
    readonly
}

fn opens_signature(kind: TokenKind) -> bool {
    kind == TokenKind::LParen || kind == TokenKind::Less
}

// A key, and whether it stands in brackets.
#[derive(Drop)]
struct Key {
    key: Tree,
    computed: bool,
}

impl<F: Fn(Global, &mut Tokens<'_>, usize, Rule) -> Tree> Types<F> {
    /// `{ .. }` of members.
    pub fn members(&self, tokens: &mut Tokens<'_>) -> Tree
        requires { Nests self.now.grammar.depth (F.pre self.now.grammar.parse) }
    {
        tokens.expect(TokenKind::LBrace);
        let mut members = Trees::new(self.grammar.alloc);
        for _turn in 0..tokens.at.left() {
            if tokens.at.closes(TokenKind::RBrace) {
                break;
            }
            members.push(self.grammar.again(tokens, Rule::Member));
        }
        tokens.expect(TokenKind::RBrace);
        tokens.list(members)
    }

    /// A member of an interface or an object type.
    pub fn member(&self, tokens: &mut Tokens<'_>) -> Tree
        requires { Nests self.now.grammar.depth (F.pre self.now.grammar.parse) }
    {
        let start = tokens.at.start();
        if opens_signature(tokens.at.kind()) {
            return self.call_signature(tokens, start);
        }
        if tokens.at.is_word(Keyword::New) && opens_signature(tokens.at.second().kind()) {
            tokens.at.advance();
            return self.construct_signature(tokens, start);
        }
        let modifier = tokens.save();
        let readonly = readonly_modifier(tokens);
        if sees_index(tokens) {
            return self.index(tokens, start, readonly, false);
        }
        if sees_accessor(tokens.at) {
            if readonly {
                return tokens.refuse_from(modifier);
            }
            let is_getter = tokens.at.is_word(Keyword::Get);
            tokens.at.advance();
            return if is_getter {
                self.getter(tokens, start)
            } else {
                self.setter(tokens, start)
            };
        }
        let key = self.key(tokens);
        let optional = tokens.at.eat(TokenKind::Question);
        if opens_signature(tokens.at.kind()) {
            if readonly {
                return tokens.refuse_from(modifier);
            }
            self.method(tokens, start, key, optional)
        } else {
            self.property(tokens, start, key, readonly, optional)
        }
    }

    fn call_signature(&self, tokens: &mut Tokens<'_>, start: SourcePos) -> Tree
        requires { Nests self.now.grammar.depth (F.pre self.now.grammar.parse) }
    {
        let type_params = self.type_params(tokens);
        let params = self.signature_params(tokens);
        let type_ann = self.result(tokens);
        end_member(tokens);
        let made = TsCallSignatureDecl {
            span: tokens.at.from(start),
            params,
            type_ann,
            type_params,
        };
        tokens.made(made.into_tree(self.grammar.alloc))
    }

    fn construct_signature(&self, tokens: &mut Tokens<'_>, start: SourcePos) -> Tree
        requires { Nests self.now.grammar.depth (F.pre self.now.grammar.parse) }
    {
        let type_params = self.type_params(tokens);
        let params = self.signature_params(tokens);
        let type_ann = self.result(tokens);
        end_member(tokens);
        let made = TsConstructSignatureDecl {
            span: tokens.at.from(start),
            params,
            type_ann,
            type_params,
        };
        tokens.made(made.into_tree(self.grammar.alloc))
    }

    // `key: A`, whose name's range takes in the type.
    fn index_param(&self, tokens: &mut Tokens<'_>) -> Tree
        requires { Nests self.now.grammar.depth (F.pre self.now.grammar.parse) }
    {
        let start = tokens.at.start();
        let Some(sym) = word(self.grammar.alloc, tokens) else {
            return Tree::Absent;
        };
        let type_ann = self.annotation(tokens);
        let id = Ident {
            span: tokens.at.from(start),
            ctxt: SyntaxContext(0),
            sym,
            optional: false,
        };
        let made = BindingIdent {
            id: tokens.made(id.into_tree(self.grammar.alloc)),
            type_ann,
        };
        tokens.made(made.into_tree(self.grammar.alloc))
    }

    /// `[key: A]: B`
    pub fn index(
        &self,
        tokens: &mut Tokens<'_>,
        start: SourcePos,
        readonly: bool,
        is_static: bool,
    ) -> Tree
        requires { Nests self.now.grammar.depth (F.pre self.now.grammar.parse) }
    {
        tokens.at.advance();
        let mut params = Trees::new(self.grammar.alloc);
        params.push(self.index_param(tokens));
        tokens.expect(TokenKind::RBracket);
        let type_ann = self.annotation(tokens);
        end_member(tokens);
        let made = TsIndexSignature {
            span: tokens.at.from(start),
            params: tokens.list(params),
            type_ann,
            readonly,
            is_static,
        };
        tokens.made(made.into_tree(self.grammar.alloc))
    }

    fn key(&self, tokens: &mut Tokens<'_>) -> Key
        requires { Nests self.now.grammar.depth (F.pre self.now.grammar.parse) }
    {
        if !tokens.at.eat(TokenKind::LBracket) {
            return Key {
                key: literal_key(self.grammar.alloc, tokens),
                computed: false,
            };
        }
        let key = self.grammar.again(tokens, Rule::Expression);
        tokens.expect(TokenKind::RBracket);
        Key {
            key,
            computed: true,
        }
    }

    fn getter(&self, tokens: &mut Tokens<'_>, start: SourcePos) -> Tree
        requires { Nests self.now.grammar.depth (F.pre self.now.grammar.parse) }
    {
        let Key { key, computed } = self.key(tokens);
        tokens.expect(TokenKind::LParen);
        tokens.expect(TokenKind::RParen);
        let type_ann = self.result(tokens);
        end_member(tokens);
        let made = TsGetterSignature {
            span: tokens.at.from(start),
            key,
            computed,
            type_ann,
        };
        tokens.made(made.into_tree(self.grammar.alloc))
    }

    fn setter(&self, tokens: &mut Tokens<'_>, start: SourcePos) -> Tree
        requires { Nests self.now.grammar.depth (F.pre self.now.grammar.parse) }
    {
        let Key { key, computed } = self.key(tokens);
        let params = self.signature_params(tokens);
        // A setter has no result.
        if tokens.at.is(TokenKind::Colon) {
            return tokens.refuse();
        }
        end_member(tokens);
        let made = TsSetterSignature {
            span: tokens.at.from(start),
            key,
            computed,
            params,
        };
        tokens.made(made.into_tree(self.grammar.alloc))
    }

    fn method(&self, tokens: &mut Tokens<'_>, start: SourcePos, key: Key, optional: bool) -> Tree
        requires { Nests self.now.grammar.depth (F.pre self.now.grammar.parse) }
    {
        let Key { key, computed } = key;
        let type_params = self.type_params(tokens);
        let params = self.signature_params(tokens);
        let type_ann = self.result(tokens);
        end_member(tokens);
        let made = TsMethodSignature {
            span: tokens.at.from(start),
            key,
            computed,
            optional,
            params,
            type_ann,
            type_params,
        };
        tokens.made(made.into_tree(self.grammar.alloc))
    }

    fn property(
        &self,
        tokens: &mut Tokens<'_>,
        start: SourcePos,
        key: Key,
        readonly: bool,
        optional: bool,
    ) -> Tree
        requires { Nests self.now.grammar.depth (F.pre self.now.grammar.parse) }
    {
        let Key { key, computed } = key;
        let type_ann = self.annotation(tokens);
        end_member(tokens);
        let made = TsPropertySignature {
            span: tokens.at.from(start),
            key,
            computed,
            readonly,
            optional,
            type_ann,
        };
        tokens.made(made.into_tree(self.grammar.alloc))
    }
}
