//! A dozen forms that have a field of each kind, made of fields that tell their places, and read. All forms are written by one script.

mod made;
mod read;

use crate::forms::fields::made::made;
use crate::forms::fields::read::is_read;
use crate::said::Said;
use fast_check_read::schema::Form;
use fast_check_tree_syntax::{Atom, Kind, Part, SourcePos, SourceRange, SyntaxContext, Tree};
use std::alloc::{AllocError, Global};

/// The range of a field by its place.
fn span(place: u32) -> SourceRange {
    SourceRange {
        start: SourcePos(place),
        end: SourcePos(place),
    }
}

/// What stands in a field that holds a part of the tree, by its place.
fn part(place: u32) -> Tree {
    Tree::Context(SyntaxContext(place))
}

/// What stands in a field that holds a text.
fn text(alloc: Global) -> Result<Atom, AllocError> {
    Atom::from_str(alloc, "text")
}

/// What a field gives that is read.
#[derive(Clone, Copy)]
pub enum Seen<'a> {
    Range(SourceRange),
    Scope(SyntaxContext),
    Flag(bool),
    Text(&'a str),
    Part(Part<'a>),
}

/// Whether the field gives what one at this place is made of.
fn is_as_made(place: u32, field: &Seen<'_>) -> bool {
    match field {
        Seen::Range(range) => *range == span(place),
        Seen::Scope(scope) => scope.0 == place,
        Seen::Flag(flag) => *flag,
        Seen::Text(text) => *text == "text",
        Seen::Part(part) => part.context().0 == place && part.kind() == Kind::Leaf,
    }
}

/// Whether the fields give what those of a form are made of.
fn are_as_made(fields: &[Seen<'_>]) -> bool {
    let mut place = 0;
    for field in fields {
        if !is_as_made(place, field) {
            return false;
        }
        place = place.wrapping_add(1);
    }
    true
}

/// The kind of a form, or else that of the mark.
fn kind_of(form: Option<Form>) -> Kind {
    match form {
        Some(Form::Struct(kind)) => kind,
        _ => Kind::PatExpr,
    }
}

/// Says the fields of a form that is made, and whether they are read as they are made.
pub fn say_made_and_read(alloc: Global, form: Option<Form>, said: &mut Said) {
    let kind = kind_of(form);
    match made(alloc, kind) {
        Ok(tree) => {
            say_fields(alloc, &tree, said);
            said.say(if is_read(tree.read(), kind) {
                ", as read"
            } else {
                ", not as read"
            });
        }
        Err(_) => said.lack(),
    }
}

fn say_fields(alloc: Global, tree: &Tree, said: &mut Said) {
    said.say_made(format!(in alloc; "{:?}", tree.read().kind()));
    for field in tree.read().parts() {
        said.say(" ");
        say_field(alloc, field, said);
    }
}

fn say_field(alloc: Global, field: &Tree, said: &mut Said) {
    match field {
        Tree::Range(range) => said.say_made(format!(in alloc; "[{}]", range.start.0)),
        Tree::Context(context) => said.say_made(format!(in alloc; "{}", context.0)),
        Tree::Flag(flag) => said.say_flag(*flag),
        Tree::Text(text) => said.say(text.as_str()),
        _ => said.say("?"),
    }
}
