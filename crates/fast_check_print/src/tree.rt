//! Trees as JSON, by the schema.
ghost use Rattle.std.specs.Prelude.{◌≡◌, ◌∷◌, OnOk, map, slice_get};
ghost use Rattle.json.specs.Token.{key};
ghost use Rattle.fast_check_read.specs.schema.Schema.{fields_of};
ghost use Rattle.fast_check_print.specs.Pieces.{text_of_word};
ghost use Rattle.fast_check_print.specs.Trees.{json_of, node_data, list_data, content_data, fields_data, part_data};
ghost use Rattle.fast_check_print.specs.Writing.{Adds, WritesData, tokens_of};

use crate::pieces::print_range;
use crate::variants::{close_variants, open_variants};
use fast_check_read::schema::{Field, Form, fields, marked, word_text, written_order};
use fast_check_tree_syntax::{Kind, Tree, Word};
use json::Writer;
use std::alloc::AllocError;

/// Writes a tree that stands where `form` does. An empty option is null; a node has its fields in the order of their names.
#[cycle(print)]
pub fn print_tree(out: &mut Writer, tree: &Tree, form: Form) -> Result<(), AllocError>
    ensures { OnOk result (WritesData (json_of tree.now form) out.old out.new) }
{
    match tree {
        Tree::Absent => out.null(),
        Tree::Flag(flag) => out.boolean(*flag),
        Tree::Context(context) => out.u64(u64::from(context.0)),
        Tree::Text(text) => out.string(text.as_str()),
        Tree::Range(range) => print_range(out, *range),
        Tree::Word(word) => out.string(name_of(*word, form)),
        Tree::Node(kind, parts) => print_node(out, *kind, parts.as_slice(), form),
    }
}

/// A list as an array, any other node under the names of its variants.
#[cycle(print)]
fn print_node(out: &mut Writer, kind: Kind, parts: &[Tree], form: Form) -> Result<(), AllocError>
    ensures { OnOk result (WritesData (node_data kind (map json_of parts.now) form) out.old out.new) }
{
    if kind == Kind::List {
        return print_list(out, parts, form);
    }
    let opened = open_variants(out, kind, form, 3)?;
    print_content(out, kind, parts)?;
    close_variants(out, opened)
}

#[cycle(print)]
fn print_list(out: &mut Writer, items: &[Tree], form: Form) -> Result<(), AllocError>
    ensures { OnOk result (WritesData (list_data (map json_of items.now) form) out.old out.new) }
{
    out.begin_array()?;
    for item in items {
        print_tree(out, item, form)?;
    }
    out.end_array()
}

/// A node without the names of its variants: the object of its fields, or what a mark stands round.
#[cycle(print)]
fn print_content(out: &mut Writer, kind: Kind, parts: &[Tree]) -> Result<(), AllocError>
    ensures { OnOk result (WritesData (content_data kind (map json_of parts.now)) out.old out.new) }
{
    match marked(kind) {
        Some(choice) => match parts {
            [part, ..] => print_tree(out, part, Form::Choice(choice)),
            [] => out.null(),
        },
        None => print_fields(out, kind, parts),
    }
}

/// The object of a node's fields, in the order of their names.
#[cycle(print)]
fn print_fields(out: &mut Writer, kind: Kind, parts: &[Tree]) -> Result<(), AllocError>
    ensures { OnOk result (WritesData (fields_data (fields_of kind) (map json_of parts.now)) out.old out.new) }
{
    let fields = fields(kind);
    out.begin_object()?;
    for place in written_order(kind) {
        if let Some(field) = fields.get(*place) {
            print_member(out, field, parts, *place)?;
        }
    }
    out.end_object()
}

/// The part at a place, under the name of its field; null where there is none.
#[cycle(print)]
fn print_member(
    out: &mut Writer,
    field: &Field,
    parts: &[Tree],
    place: usize,
) -> Result<(), AllocError>
    ensures { OnOk result (Adds (key field.now.0.now ∷ tokens_of (part_data (slice_get (map json_of parts.now) place) field.now.1)) out.old out.new) }
{
    out.key(field.0)?;
    match parts.get(place) {
        Some(part) => print_tree(out, part, field.1),
        None => out.null(),
    }
}

/// The text of a word that stands where the form does; the empty one where the form has no such word.
fn name_of(word: Word, form: Form) -> &'static str
    ensures { result.now ≡ text_of_word word form }
{
    match form {
        Form::Word(list) => word_text(list, word).unwrap_or(""),
        _ => "",
    }
}
