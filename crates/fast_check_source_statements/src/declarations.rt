//! Declarations.
ghost use Rattle.fast_check_source_grammar.specs.Nests.{Nests};

use crate::statements::{Opening, Statements};
use fast_check_source_grammar::{Rule, Tokens, ident, ident_name, number, string, word_ident};
use fast_check_source_lexer::{Keyword, TokenKind};
use fast_check_source_values::Marks;
use fast_check_tree_forms_expressions::MemberExpr;
use fast_check_tree_forms_statements::{
    FnDecl, TsEnumDecl, TsEnumMember, TsExprWithTypeArgs, TsInterfaceBody, TsInterfaceDecl,
    TsTypeAliasDecl, UsingDecl, VarDecl, VarDeclarator,
};
use fast_check_tree_syntax::{SourcePos, SyntaxContext, Tree, Word as Form};
use std::alloc::Global;

// `a.b` behind `extends` or `implements`.
fn member_name(alloc: Global, tokens: &mut Tokens<'_>) -> Tree {
    let start = tokens.at.start();
    let mut obj = word_ident(alloc, tokens);
    for _turn in 0..tokens.at.left() {
        if !tokens.at.eat(TokenKind::Dot) {
            break;
        }
        tokens.link();
        let prop = ident_name(alloc, tokens);
        let made = MemberExpr {
            span: tokens.at.from(start),
            obj,
            prop,
        };
        obj = tokens.made(made.into_tree(alloc));
    }
    obj
}

// The name of a member of an enum.
fn enum_key(alloc: Global, tokens: &mut Tokens<'_>) -> Tree {
    match tokens.at.kind() {
        TokenKind::Name => word_ident(alloc, tokens),
        TokenKind::LBracket => {
            tokens.at.advance();
            let key = string(alloc, tokens);
            tokens.expect(TokenKind::RBracket);
            key
        }
        TokenKind::String => string(alloc, tokens),
        _ => number(alloc, tokens),
    }
}

impl<F: Fn(Global, &mut Tokens<'_>, usize, Rule) -> Tree> Statements<F> {
    // `A.B<C>` behind `extends` or `implements`.
    fn heir(&self, tokens: &mut Tokens<'_>) -> Tree
        requires { Nests self.now.expressions.values.types.grammar.depth (F.pre self.now.expressions.values.types.grammar.parse) }
    {
        let alloc = self.alloc();
        let start = tokens.at.start();
        let made = TsExprWithTypeArgs {
            expr: member_name(alloc, tokens),
            type_args: self.expressions.values.types.type_args(tokens),
            span: tokens.at.from(start),
        };
        tokens.made(made.into_tree(alloc))
    }

    /// `A, B<C>` behind a word, or nothing.
    pub fn heirs(&self, tokens: &mut Tokens<'_>, word: Keyword) -> Tree
        requires { Nests self.now.expressions.values.types.grammar.depth (F.pre self.now.expressions.values.types.grammar.parse) }
    {
        let mut items = self.none();
        if !tokens.at.eat_word(word) {
            return tokens.list(items);
        }
        for _turn in 0..tokens.at.left() {
            items.push(self.heir(tokens));
            if !tokens.at.eat(TokenKind::Comma) {
                break;
            }
        }
        tokens.list(items)
    }

    /// `interface A extends B {}`
    pub fn interface(&self, tokens: &mut Tokens<'_>, opening: Opening) -> Tree
        requires { Nests self.now.expressions.values.types.grammar.depth (F.pre self.now.expressions.values.types.grammar.parse) }
    {
        let alloc = self.alloc();
        tokens.at.advance();
        let id = ident(alloc, tokens);
        let type_params = self.expressions.values.types.type_params(tokens);
        let extends = self.heirs(tokens, Keyword::Extends);
        let at = tokens.at.start();
        let body = TsInterfaceBody {
            body: self.expressions.values.types.members(tokens),
            span: tokens.at.from(at),
        };
        let made = TsInterfaceDecl {
            span: tokens.at.from(opening.start),
            id,
            declare: opening.declare,
            type_params,
            extends,
            body: tokens.made(body.into_tree(alloc)),
        };
        tokens.made(made.into_tree(alloc))
    }

    /// `type A = B;`
    pub fn alias(&self, tokens: &mut Tokens<'_>, opening: Opening) -> Tree
        requires { Nests self.now.expressions.values.types.grammar.depth (F.pre self.now.expressions.values.types.grammar.parse) }
    {
        let alloc = self.alloc();
        tokens.at.advance();
        let id = ident(alloc, tokens);
        let type_params = self.expressions.values.types.type_params(tokens);
        tokens.expect(TokenKind::Assign);
        let type_ann = self.expressions.values.types.aliased(tokens);
        tokens.end_statement();
        let made = TsTypeAliasDecl {
            span: tokens.at.from(opening.start),
            declare: opening.declare,
            id,
            type_params,
            type_ann,
        };
        tokens.made(made.into_tree(alloc))
    }

    /// `async function a() {}`
    pub fn function(&self, tokens: &mut Tokens<'_>, opening: Opening) -> Tree
        requires { Nests self.now.expressions.values.types.grammar.depth (F.pre self.now.expressions.values.types.grammar.parse) }
    {
        let alloc = self.alloc();
        let is_async = tokens.at.eat_word(Keyword::Async);
        tokens.expect_word(Keyword::Function);
        let marks = Marks {
            is_async,
            is_generator: tokens.at.eat(TokenKind::Star),
        };
        let ident = ident(alloc, tokens);
        let function = self
            .expressions
            .values
            .function(tokens, opening.start, marks, self.nothing());
        let made = FnDecl {
            ident,
            declare: opening.declare,
            function,
        };
        tokens.made(made.into_tree(alloc))
    }

    // `a: A = b` among variables.
    fn declarator(&self, tokens: &mut Tokens<'_>) -> Tree
        requires { Nests self.now.expressions.values.types.grammar.depth (F.pre self.now.expressions.values.types.grammar.parse) }
    {
        let start = tokens.at.start();
        let (name, definite) = self.expressions.values.types.variable(tokens);
        let has_value = tokens.at.eat(TokenKind::Assign);
        let init = self.again_if(tokens, has_value, Rule::Assigned);
        let made = VarDeclarator {
            span: tokens.at.from(start),
            name,
            init,
            definite,
        };
        tokens.made(made.into_tree(self.alloc()))
    }

    fn declarators(&self, tokens: &mut Tokens<'_>) -> Tree
        requires { Nests self.now.expressions.values.types.grammar.depth (F.pre self.now.expressions.values.types.grammar.parse) }
    {
        let mut decls = self.none();
        for _turn in 0..tokens.at.left() {
            decls.push(self.declarator(tokens));
            if !tokens.at.eat(TokenKind::Comma) {
                break;
            }
        }
        tokens.list(decls)
    }

    /// `const a = 1`, with what ends a statement or without it.
    pub fn variables(&self, tokens: &mut Tokens<'_>, opening: Opening, is_statement: bool) -> Tree
        requires { Nests self.now.expressions.values.types.grammar.depth (F.pre self.now.expressions.values.types.grammar.parse) }
    {
        let form = match tokens.at.word() {
            Keyword::Var => Form::Var,
            Keyword::Let => Form::Let,
            _ => Form::Const,
        };
        tokens.at.advance();
        let decls = self.declarators(tokens);
        if is_statement {
            tokens.end_statement();
        }
        let made = VarDecl {
            span: tokens.at.from(opening.start),
            ctxt: SyntaxContext(0),
            kind: Tree::Word(form),
            declare: opening.declare,
            decls,
        };
        tokens.made(made.into_tree(self.alloc()))
    }

    /// `using a = b` or `await using a = b`
    pub fn using(&self, tokens: &mut Tokens<'_>, start: SourcePos, is_statement: bool) -> Tree
        requires { Nests self.now.expressions.values.types.grammar.depth (F.pre self.now.expressions.values.types.grammar.parse) }
    {
        let is_await = tokens.at.eat_word(Keyword::Await);
        tokens.expect_word(Keyword::Using);
        let decls = self.declarators(tokens);
        if is_statement {
            tokens.end_statement();
        }
        let made = UsingDecl {
            span: tokens.at.from(start),
            is_await,
            decls,
        };
        tokens.made(made.into_tree(self.alloc()))
    }

    /// `const enum A { B = 1 }`
    pub fn enumeration(&self, tokens: &mut Tokens<'_>, opening: Opening) -> Tree
        requires { Nests self.now.expressions.values.types.grammar.depth (F.pre self.now.expressions.values.types.grammar.parse) }
    {
        let alloc = self.alloc();
        let is_const = tokens.at.eat_word(Keyword::Const);
        tokens.expect_word(Keyword::Enum);
        let id = ident(alloc, tokens);
        tokens.expect(TokenKind::LBrace);
        let members = self.expressions.values.types.grammar.list(
            tokens,
            Rule::EnumMember,
            TokenKind::Comma,
            TokenKind::RBrace,
        );
        let made = TsEnumDecl {
            span: tokens.at.from(opening.start),
            declare: opening.declare,
            is_const,
            id,
            members,
        };
        tokens.made(made.into_tree(alloc))
    }

    pub fn enum_member(&self, tokens: &mut Tokens<'_>) -> Tree
        requires { Nests self.now.expressions.values.types.grammar.depth (F.pre self.now.expressions.values.types.grammar.parse) }
    {
        let alloc = self.alloc();
        let start = tokens.at.start();
        let id = enum_key(alloc, tokens);
        let has_value = tokens.at.eat(TokenKind::Assign);
        let init = self.again_if(tokens, has_value, Rule::Assigned);
        let span = tokens.at.from(start);
        tokens.made(TsEnumMember { span, id, init }.into_tree(alloc))
    }
}
