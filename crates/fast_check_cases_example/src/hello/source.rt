//! The source of a module, as a parser gives it. Positions are those of bytes, and the first byte is at 1.

use fast_check::comments::Comments;
use fast_check::tables::{MediaType, ParsedSource};
use fast_check::tree::forms::{
    BindingIdent, ExportDecl, Ident, Module, Str, VarDecl, VarDeclarator,
};
use fast_check::tree::{Atom, Items, SourcePos, SourceRange, SyntaxContext, Tree, Word};
use std::alloc::{AllocError, Global};
use std::rc::RcStr;

/// The scope of names that no declaration binds, and that of the module's own.
const UNRESOLVED: SyntaxContext = SyntaxContext(1);

pub const MODULE: SyntaxContext = SyntaxContext(2);

/// A module of one line, which exports a variable `hello`.
#[derive(Clone, Copy)]
pub struct Line {
    pub text: &'static str,
    kind: Word,
    name: SourceRange,
    /// The name, with the value where there is one.
    pub declarator: SourceRange,
    /// The string `"world"`, or nothing.
    value: Option<SourceRange>,
    statement: SourceRange,
    whole: SourceRange,
}

/// From the first byte to behind the last one.
fn range(start: u32, end: u32) -> SourceRange {
    SourceRange {
        start: SourcePos(start),
        end: SourcePos(end),
    }
}

/// `export const hello = "world";`, whose type its value shows.
pub fn hello_world() -> Line {
    Line {
        text: "export const hello = \"world\";",
        kind: Word::Const,
        name: range(14, 19),
        declarator: range(14, 29),
        value: Some(range(22, 29)),
        statement: range(8, 30),
        whole: range(1, 30),
    }
}

/// `export let hello;`, which shows no type.
pub fn hello_alone() -> Line {
    Line {
        text: "export let hello;",
        kind: Word::Let,
        name: range(12, 17),
        declarator: range(12, 17),
        value: None,
        statement: range(8, 18),
        whole: range(1, 18),
    }
}

/// The name, as a pattern without a type.
fn name(alloc: Global, span: SourceRange) -> Result<Tree, AllocError> {
    let ident = Ident {
        span,
        ctxt: MODULE,
        sym: Atom::from_str(alloc, "hello")?,
        optional: false,
    };
    BindingIdent {
        id: ident.into_tree(alloc)?,
        type_ann: Tree::Absent,
    }
    .into_tree(alloc)
}

/// The string `"world"`, or nothing.
fn value(alloc: Global, span: Option<SourceRange>) -> Result<Tree, AllocError> {
    let Some(span) = span else {
        return Ok(Tree::Absent);
    };
    Str {
        span,
        value: Atom::from_str(alloc, "world")?,
        raw: Tree::Text(Atom::from_str(alloc, "\"world\"")?),
    }
    .into_tree(alloc)
}

/// A list of one tree.
fn list_of(alloc: Global, tree: Tree) -> Result<Tree, AllocError> {
    let mut items = Items::new(alloc);
    items.push(tree)?;
    Ok(Tree::list(items))
}

/// The variable, as a list of one declarator.
fn declarators(alloc: Global, line: Line) -> Result<Tree, AllocError> {
    let declarator = VarDeclarator {
        span: line.declarator,
        name: name(alloc, line.name)?,
        init: value(alloc, line.value)?,
        definite: false,
    };
    list_of(alloc, declarator.into_tree(alloc)?)
}

/// The line's one statement.
fn export(alloc: Global, line: Line) -> Result<Tree, AllocError> {
    let decl = VarDecl {
        span: line.statement,
        ctxt: SyntaxContext(0),
        kind: Tree::Word(line.kind),
        declare: false,
        decls: declarators(alloc, line)?,
    };
    ExportDecl {
        span: line.whole,
        decl: decl.into_tree(alloc)?,
    }
    .into_tree(alloc)
}

/// The module of a line.
pub fn parsed_source(alloc: Global, line: Line) -> Result<ParsedSource, AllocError> {
    let module = Module {
        span: line.whole,
        body: list_of(alloc, export(alloc, line)?)?,
        shebang: Tree::Absent,
    };
    Ok(ParsedSource {
        media_type: MediaType::TypeScript,
        text: RcStr::from_str(alloc, line.text)?,
        program: module.into_tree(alloc)?,
        comments: Comments::new(alloc),
        unresolved_context: UNRESOLVED,
    })
}
