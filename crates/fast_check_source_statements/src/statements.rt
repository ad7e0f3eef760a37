//! Statements and items of modules, by their first words.
ghost use Rattle.fast_check_source_grammar.specs.Nests.{Nests};

use fast_check_source_expressions::Expressions;
use fast_check_source_grammar::{Cursor, Rule, Tokens, Trees, is_reserved};
use fast_check_source_imports::import;
use fast_check_source_lexer::{Keyword, TokenKind};
use fast_check_tree_forms_statements::{BlockStmt, EmptyStmt};
use fast_check_tree_syntax::{Items, SourcePos, SyntaxContext, Tree};
use std::alloc::Global;

/// The rules of statements.
#[derive(Clone, Copy)]
pub struct Statements<F> {
    pub expressions: Expressions<F>,
}

/// Where a declaration begins, and what stands before it.
#[derive(Clone, Copy)]
pub struct Opening {
    pub start: SourcePos,
    /// Whether `declare` stands before it.
    pub declare: bool,
}

/// Whether a name in the same line stands behind a word.
pub fn names_next(at: Cursor<'_>) -> bool {
    let next = at.second();
    next.is(TokenKind::Name) && !next.newline() && !is_reserved(next.word())
}

// Whether a string in the same line stands behind a word.
fn quotes_next(at: Cursor<'_>) -> bool {
    let next = at.second();
    next.is(TokenKind::String) && !next.newline()
}

/// Whether a word stands behind the next one in its line.
pub fn is_in_line(at: Cursor<'_>, word: Keyword) -> bool {
    let next = at.second();
    next.is_word(word) && !next.newline()
}

// Whether a `let` or `using` that comes next declares, and is no name.
fn binds_next(at: Cursor<'_>) -> bool {
    let next = at.second();
    match next.kind() {
        TokenKind::LBracket | TokenKind::LBrace => true,
        TokenKind::Name => !is_reserved(next.word()),
        _ => false,
    }
}

/// Whether a `using` that comes next declares.
pub fn is_using(at: Cursor<'_>) -> bool {
    at.is_word(Keyword::Using) && names_next(at)
}

/// Whether `await using` that comes next declares.
pub fn is_await_using(at: Cursor<'_>) -> bool {
    at.is_word(Keyword::Await) && is_in_line(at, Keyword::Using) && names_next(at.second())
}

/// Whether a declaration comes next.
pub fn sees_declaration(at: Cursor<'_>) -> bool {
    match at.word() {
        Keyword::Function | Keyword::Class | Keyword::Enum | Keyword::Var | Keyword::Const => true,
        Keyword::Let => binds_next(at),
        Keyword::Using => is_using(at),
        Keyword::Await => is_await_using(at),
        Keyword::Async => is_in_line(at, Keyword::Function),
        Keyword::Abstract => is_in_line(at, Keyword::Class),
        Keyword::Interface | Keyword::Type | Keyword::Namespace => names_next(at),
        Keyword::Module => names_next(at) || quotes_next(at),
        Keyword::Global => at.second().is(TokenKind::LBrace),
        _ => false,
    }
}

// Whether `declare` comes next, as what stands before a declaration.
fn declares(at: Cursor<'_>) -> bool {
    if !at.is_word(Keyword::Declare) {
        return false;
    }
    let next = at.second();
    !next.newline() && sees_declaration(next)
}

// Whether a `import` that comes next is a value, as in `import("a")`.
fn is_import_value(at: Cursor<'_>) -> bool {
    let next = at.second();
    next.is(TokenKind::LParen) || next.is(TokenKind::Dot)
}

impl<F: Fn(Global, &mut Tokens<'_>, usize, Rule) -> Tree> Statements<F> {
    pub fn alloc(&self) -> Global {
        self.expressions.values.types.grammar.alloc
    }

    /// The tree of a nested rule.
    pub fn again(&self, tokens: &mut Tokens<'_>, rule: Rule) -> Tree
        requires { Nests self.now.expressions.values.types.grammar.depth (F.pre self.now.expressions.values.types.grammar.parse) }
    {
        self.expressions.values.types.grammar.again(tokens, rule)
    }

    /// The tree of a nested rule where there is one.
    pub fn again_if(&self, tokens: &mut Tokens<'_>, is_there: bool, rule: Rule) -> Tree
        requires { Nests self.now.expressions.values.types.grammar.depth (F.pre self.now.expressions.values.types.grammar.parse) }
    {
        if is_there {
            self.again(tokens, rule)
        } else {
            Tree::Absent
        }
    }

    /// An item of a module or of a namespace.
    pub fn item(&self, tokens: &mut Tokens<'_>) -> Tree
        requires { Nests self.now.expressions.values.types.grammar.depth (F.pre self.now.expressions.values.types.grammar.parse) }
    {
        if tokens.at.is_word(Keyword::Import) && !is_import_value(tokens.at) {
            return import(self.alloc(), tokens);
        }
        if tokens.at.is_word(Keyword::Export) {
            return self.export(tokens);
        }
        self.statement(tokens)
    }

    /// A statement or a declaration.
    pub fn statement(&self, tokens: &mut Tokens<'_>) -> Tree
        requires { Nests self.now.expressions.values.types.grammar.depth (F.pre self.now.expressions.values.types.grammar.parse) }
    {
        let start = tokens.at.start();
        if tokens.at.is(TokenKind::At) {
            return self.decorated_class(tokens);
        }
        let declare = declares(tokens.at);
        if declare {
            tokens.at.advance();
        }
        if declare || sees_declaration(tokens.at) {
            self.declaration(tokens, Opening { start, declare })
        } else {
            self.flow(tokens)
        }
    }

    /// A declaration that comes next, behind `declare`.
    pub fn declaration(&self, tokens: &mut Tokens<'_>, opening: Opening) -> Tree
        requires { Nests self.now.expressions.values.types.grammar.depth (F.pre self.now.expressions.values.types.grammar.parse) }
    {
        match tokens.at.word() {
            Keyword::Interface => self.interface(tokens, opening),
            Keyword::Type => self.alias(tokens, opening),
            Keyword::Function | Keyword::Async => self.function(tokens, opening),
            Keyword::Const if tokens.at.second().is_word(Keyword::Enum) => self.enumeration(
                tokens, opening,
            ),
            Keyword::Enum => self.enumeration(tokens, opening),
            Keyword::Class | Keyword::Abstract => self.class(tokens, opening, self.nothing()),
            Keyword::Namespace | Keyword::Module | Keyword::Global => self.namespace(
                tokens, opening,
            ),
            Keyword::Using | Keyword::Await => self.using(tokens, opening.start, true),
            _ => self.variables(tokens, opening, true),
        }
    }

    pub fn none(&self) -> Trees {
        Trees::new(self.alloc())
    }

    pub fn nothing(&self) -> Tree {
        Tree::list(Items::new(self.alloc()))
    }

    /// The items of a rule up to a `}`, which is passed.
    pub fn up_to_brace(&self, tokens: &mut Tokens<'_>, rule: Rule) -> Tree
        requires { Nests self.now.expressions.values.types.grammar.depth (F.pre self.now.expressions.values.types.grammar.parse) }
    {
        let mut items = self.none();
        for _turn in 0..tokens.at.left() {
            if tokens.at.closes(TokenKind::RBrace) {
                break;
            }
            items.push(self.again(tokens, rule));
        }
        tokens.expect(TokenKind::RBrace);
        tokens.list(items)
    }

    /// `{ .. }` of statements.
    pub fn block(&self, tokens: &mut Tokens<'_>) -> Tree
        requires { Nests self.now.expressions.values.types.grammar.depth (F.pre self.now.expressions.values.types.grammar.parse) }
    {
        let start = tokens.at.start();
        tokens.expect(TokenKind::LBrace);
        let stmts = self.up_to_brace(tokens, Rule::Statement);
        let made = BlockStmt {
            span: tokens.at.from(start),
            ctxt: SyntaxContext(0),
            stmts,
        };
        tokens.made(made.into_tree(self.alloc()))
    }

    /// A lone `;`.
    pub fn empty(&self, tokens: &mut Tokens<'_>) -> Tree {
        let span = tokens.at.here();
        tokens.at.advance();
        tokens.made(EmptyStmt { span }.into_tree(self.alloc()))
    }
}
