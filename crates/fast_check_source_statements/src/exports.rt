//! Exports.
ghost use Rattle.fast_check_source_grammar.specs.Nests.{Nests};

use crate::statements::{Opening, Statements, is_in_line, sees_declaration};
use fast_check_source_grammar::{Cursor, Rule, Tokens, ident};
use fast_check_source_imports::{eat_type, export_names, export_star, import_equals};
use fast_check_source_lexer::{Keyword, TokenKind};
use fast_check_tree_forms_programs::{
    ExportDecl, ExportDefaultDecl, ExportDefaultExpr, TsExportAssignment, TsNamespaceExportDecl,
};
use fast_check_tree_syntax::{SourcePos, Tree};
use std::alloc::Global;

// Whether `type` stands here before what is exported of a list or of a module.
fn sees_type_list(at: Cursor<'_>) -> bool {
    if !at.is_word(Keyword::Type) {
        return false;
    }
    let next = at.second();
    next.is(TokenKind::LBrace) || next.is(TokenKind::Star)
}

fn is_function(at: Cursor<'_>) -> bool {
    at.is_word(Keyword::Function)
        || (at.is_word(Keyword::Async) && is_in_line(at, Keyword::Function))
}

fn is_class(at: Cursor<'_>) -> bool {
    at.is_word(Keyword::Class) || (at.is_word(Keyword::Abstract) && is_in_line(at, Keyword::Class))
}

impl<F: Fn(Global, &mut Tokens<'_>, usize, Rule) -> Tree> Statements<F> {
    /// An export.
    pub fn export(&self, tokens: &mut Tokens<'_>) -> Tree
        requires { Nests self.now.expressions.values.types.grammar.depth (F.pre self.now.expressions.values.types.grammar.parse) }
    {
        let alloc = self.alloc();
        let start = tokens.at.start();
        tokens.at.advance();
        let type_only = sees_type_list(tokens.at);
        if type_only {
            tokens.at.advance();
        }
        match tokens.at.kind() {
            TokenKind::LBrace => export_names(alloc, tokens, start, type_only),
            TokenKind::Star => export_star(alloc, tokens, start, type_only),
            TokenKind::Assign => self.assignment(tokens, start),
            TokenKind::At => {
                let decorators = self.expressions.values.decorators(tokens);
                self.exported_class(tokens, start, decorators)
            }
            _ => self.worded_export(tokens, start),
        }
    }

    fn worded_export(&self, tokens: &mut Tokens<'_>, start: SourcePos) -> Tree
        requires { Nests self.now.expressions.values.types.grammar.depth (F.pre self.now.expressions.values.types.grammar.parse) }
    {
        let alloc = self.alloc();
        match tokens.at.word() {
            Keyword::Default => self.default_export(tokens, start),
            Keyword::As => {
                tokens.at.advance();
                tokens.expect_word(Keyword::Namespace);
                let id = ident(alloc, tokens);
                tokens.end_statement();
                let span = tokens.at.from(start);
                tokens.made(TsNamespaceExportDecl { span, id }.into_tree(alloc))
            }
            Keyword::Import => {
                tokens.at.advance();
                let type_only = eat_type(tokens);
                import_equals(alloc, tokens, start, true, type_only)
            }
            _ => self.exported_declaration(tokens, start),
        }
    }

    fn exported_declaration(&self, tokens: &mut Tokens<'_>, start: SourcePos) -> Tree
        requires { Nests self.now.expressions.values.types.grammar.depth (F.pre self.now.expressions.values.types.grammar.parse) }
    {
        let at = tokens.at.start();
        let declare = tokens.at.eat_word(Keyword::Declare);
        if !sees_declaration(tokens.at) {
            return tokens.refuse();
        }
        let decl = self.declaration(tokens, Opening { start: at, declare });
        let span = tokens.at.from(start);
        tokens.made(ExportDecl { span, decl }.into_tree(self.alloc()))
    }

    // `= a` behind `export`.
    fn assignment(&self, tokens: &mut Tokens<'_>, start: SourcePos) -> Tree
        requires { Nests self.now.expressions.values.types.grammar.depth (F.pre self.now.expressions.values.types.grammar.parse) }
    {
        tokens.at.advance();
        let expr = self.again(tokens, Rule::Assigned);
        tokens.end_statement();
        let span = tokens.at.from(start);
        tokens.made(TsExportAssignment { span, expr }.into_tree(self.alloc()))
    }

    fn default_export(&self, tokens: &mut Tokens<'_>, start: SourcePos) -> Tree
        requires { Nests self.now.expressions.values.types.grammar.depth (F.pre self.now.expressions.values.types.grammar.parse) }
    {
        let alloc = self.alloc();
        tokens.at.advance();
        let at = tokens.at.start();
        let decl = if is_function(tokens.at) {
            self.expressions.values.function_value(tokens)
        } else if is_class(tokens.at) {
            self.class_expr(tokens, at, self.nothing())
        } else if tokens.at.is(TokenKind::At) {
            let decorators = self.expressions.values.decorators(tokens);
            let at = tokens.at.start();
            self.class_expr(tokens, at, decorators)
        } else if tokens.at.is_word(Keyword::Interface) {
            let opening = Opening {
                start: at,
                declare: false,
            };
            self.interface(tokens, opening)
        } else {
            let expr = self.again(tokens, Rule::Assigned);
            tokens.end_statement();
            let span = tokens.at.from(start);
            return tokens.made(ExportDefaultExpr { span, expr }.into_tree(alloc));
        };
        let span = tokens.at.from(start);
        tokens.made(ExportDefaultDecl { span, decl }.into_tree(alloc))
    }
}
