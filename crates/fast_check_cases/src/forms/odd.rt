//! Trees that no JSON is read as.

use fast_check_read::schema::{Choice, Form, Words};
use fast_check_tree_syntax::{
    Atom, Items, Kind, SourcePos, SourceRange, SyntaxContext, Tree, Word,
};
use std::alloc::{AllocError, Global};

const SPAN: Tree = Tree::Range(SourceRange {
    start: SourcePos(1),
    end: SourcePos(3),
});

/// The tree of this name, and the form that it is printed as.
pub fn odd_tree(alloc: Global, name: &str) -> Result<Option<(Tree, Form)>, AllocError> {
    match name {
        "empty-mark" => Ok(Some((
            Tree::Node(Kind::TargetPat, Items::new(alloc)),
            Form::Choice(Choice::AssignTarget),
        ))),
        "expression-as-type" => Ok(Some((
            Tree::node(alloc, Kind::ThisExpr, [SPAN])?,
            Form::Choice(Choice::TsType),
        ))),
        "other-word" => Ok(Some((Tree::Word(Word::Getter), Form::Word(Words::VarDeclKind)))),
        "word-as-flag" => Ok(Some((Tree::Word(Word::Getter), Form::Flag))),
        _ => identifier_named(alloc, name),
    }
}

/// An identifier of so many of its parts and one more as its name says.
fn identifier_named(alloc: Global, name: &str) -> Result<Option<(Tree, Form)>, AllocError> {
    match name.strip_prefix("identifier-") {
        Some(count) => {
            let parts = parts_of_identifier(alloc, count.parse::<usize>().unwrap_or(0))?;
            Ok(Some((Tree::Node(Kind::Ident, parts), Form::Struct(Kind::Ident))))
        }
        None => Ok(None),
    }
}

/// The first `count` parts of an identifier.
fn parts_of_identifier(alloc: Global, count: usize) -> Result<Items<Tree>, AllocError> {
    let mut items = Items::new(alloc);
    for place in 0..count {
        items.push(part_of_identifier(alloc, place)?)?;
    }
    Ok(items)
}

fn part_of_identifier(alloc: Global, place: usize) -> Result<Tree, AllocError> {
    Ok(match place {
        0 => SPAN,
        1 => Tree::Context(SyntaxContext(2)),
        2 => Tree::Text(Atom::from_str(alloc, "ab")?),
        3 => Tree::Flag(true),
        _ => Tree::Absent,
    })
}
