//! Classes.
ghost use Rattle.fast_check_source_grammar.specs.Nests.{Nests};

use crate::statements::{Opening, Statements};
use fast_check_source_grammar::{Cursor, Rule, Tokens, ident, sees_ident};
use fast_check_source_lexer::{Keyword, TokenKind};
use fast_check_tree_forms_classes::Class;
use fast_check_tree_forms_expressions::ClassExpr;
use fast_check_tree_forms_programs::{ExportDecl, ExportDefaultDecl};
use fast_check_tree_forms_statements::ClassDecl;
use fast_check_tree_syntax::{SourcePos, SyntaxContext, Tree};
use std::alloc::Global;

// Whether an `implements` that comes next begins the names of interfaces.
fn is_implements(at: Cursor<'_>) -> bool {
    at.is_word(Keyword::Implements) && at.second().is(TokenKind::Name)
}

impl<F: Fn(Global, &mut Tokens<'_>, usize, Rule) -> Tree> Statements<F> {
    /// `class A {}` or `abstract class A {}` as a declaration.
    pub fn class(&self, tokens: &mut Tokens<'_>, opening: Opening, decorators: Tree) -> Tree
        requires { Nests self.now.expressions.values.types.grammar.depth (F.pre self.now.expressions.values.types.grammar.parse) }
    {
        let alloc = self.alloc();
        let is_abstract = tokens.at.eat_word(Keyword::Abstract);
        tokens.expect_word(Keyword::Class);
        let made = ClassDecl {
            ident: ident(alloc, tokens),
            declare: opening.declare,
            class: self.class_rest(tokens, opening.start, is_abstract, decorators),
        };
        tokens.made(made.into_tree(alloc))
    }

    /// `class A {}` as a value.
    pub fn class_value(&self, tokens: &mut Tokens<'_>) -> Tree
        requires { Nests self.now.expressions.values.types.grammar.depth (F.pre self.now.expressions.values.types.grammar.parse) }
    {
        let start = tokens.at.start();
        let decorators = self.expressions.values.decorators(tokens);
        self.class_expr(tokens, start, decorators)
    }

    /// The same behind its decorators, also as what stands behind `export default`.
    pub fn class_expr(&self, tokens: &mut Tokens<'_>, start: SourcePos, decorators: Tree) -> Tree
        requires { Nests self.now.expressions.values.types.grammar.depth (F.pre self.now.expressions.values.types.grammar.parse) }
    {
        let alloc = self.alloc();
        let is_abstract = tokens.at.eat_word(Keyword::Abstract);
        tokens.expect_word(Keyword::Class);
        let is_named = sees_ident(tokens) && !is_implements(tokens.at);
        let ident = if is_named {
            ident(alloc, tokens)
        } else {
            Tree::Absent
        };
        let class = self.class_rest(tokens, start, is_abstract, decorators);
        tokens.made(ClassExpr { ident, class }.into_tree(alloc))
    }

    fn class_rest(
        &self,
        tokens: &mut Tokens<'_>,
        start: SourcePos,
        is_abstract: bool,
        decorators: Tree,
    ) -> Tree
        requires { Nests self.now.expressions.values.types.grammar.depth (F.pre self.now.expressions.values.types.grammar.parse) }
    {
        let type_params = self.expressions.values.types.type_params(tokens);
        let is_heir = tokens.at.eat_word(Keyword::Extends);
        let super_class = self.again_if(tokens, is_heir, Rule::Heir);
        let super_type_params = if is_heir {
            self.expressions.values.types.type_args(tokens)
        } else {
            Tree::Absent
        };
        let implements = self.heirs(tokens, Keyword::Implements);
        tokens.expect(TokenKind::LBrace);
        let made = Class {
            ctxt: SyntaxContext(0),
            decorators,
            body: self.up_to_brace(tokens, Rule::ClassMember),
            super_class,
            is_abstract,
            type_params,
            super_type_params,
            implements,
            span: tokens.at.from(start),
        };
        tokens.made(made.into_tree(self.alloc()))
    }

    /// A class behind decorators, which may be exported.
    pub fn decorated_class(&self, tokens: &mut Tokens<'_>) -> Tree
        requires { Nests self.now.expressions.values.types.grammar.depth (F.pre self.now.expressions.values.types.grammar.parse) }
    {
        let start = tokens.at.start();
        let decorators = self.expressions.values.decorators(tokens);
        let at = tokens.at.start();
        if tokens.at.eat_word(Keyword::Export) {
            return self.exported_class(tokens, at, decorators);
        }
        let start = if tokens.at.is_word(Keyword::Class) {
            start
        } else {
            at
        };
        let declare = tokens.at.eat_word(Keyword::Declare);
        self.class(tokens, Opening { start, declare }, decorators)
    }

    /// A class behind `export`, and behind decorators before it or behind it.
    pub fn exported_class(
        &self,
        tokens: &mut Tokens<'_>,
        start: SourcePos,
        decorators: Tree,
    ) -> Tree
        requires { Nests self.now.expressions.values.types.grammar.depth (F.pre self.now.expressions.values.types.grammar.parse) }
    {
        let alloc = self.alloc();
        let is_default = tokens.at.eat_word(Keyword::Default);
        let at = tokens.at.start();
        if is_default {
            let decl = self.class_expr(tokens, at, decorators);
            let span = tokens.at.from(start);
            return tokens.made(ExportDefaultDecl { span, decl }.into_tree(alloc));
        }
        let opening = Opening {
            start: at,
            declare: tokens.at.eat_word(Keyword::Declare),
        };
        let decl = self.class(tokens, opening, decorators);
        let span = tokens.at.from(start);
        tokens.made(ExportDecl { span, decl }.into_tree(alloc))
    }
}
