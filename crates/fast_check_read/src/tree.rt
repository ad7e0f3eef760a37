//! Trees, read of JSON by the schema.
ghost use Rattle.std.specs.Prelude.{◌≡◌, option_map};
ghost use Rattle.std.specs.Option.{ok_or};
ghost use Rattle.serde_json.specs.View.{view, items_view, members_view};
ghost use Rattle.fast_check_tree_syntax.specs.Shape.{list};
ghost use Rattle.fast_check_read.specs.schema.Rows.{field_row};
ghost use Rattle.fast_check_read.specs.Each.{Answers};
ghost use Rattle.fast_check_read.specs.Pieces.{word_of};
ghost use Rattle.fast_check_read.specs.Reading.{reading, item_readings, member_readings, tree_of, counted, option_tree, list_items, option_items};
ghost use Rattle.fast_check_read.specs.Reading.{default_tree, field_tree, node_tree, choice_tree, marked_tree};

use crate::error::ReadError;
use crate::pieces::{read_array, read_bool, read_members, read_range, read_text, read_u32};
use crate::schema::{Choice, Count, Field, Form, Words, fields, marked, variant_named, word_named};
use fast_check_tree_syntax::{Atom, DUMMY_SP, Items, Kind, SyntaxContext, Tree, Word};
use serde_json::{Map, Value};
use std::alloc::Global;

/// The tree of a JSON value that stands where `form` does.
#[cycle(read)]
pub fn read_tree(alloc: Global, value: &Value, form: Form) -> Result<Tree, ReadError>
    ensures { Answers (tree_of (view value.now) form) result }
{
    match form {
        Form::Flag => Ok(Tree::Flag(read_bool(value)?)),
        Form::Context => Ok(Tree::Context(SyntaxContext(read_u32(value)?))),
        Form::Text => Ok(Tree::Text(Atom::from_str(alloc, read_text(value)?)?)),
        Form::Range => Ok(Tree::Range(read_range(value)?)),
        Form::Word(list) => Ok(Tree::Word(read_word(value, list)?)),
        Form::Struct(kind) => read_node(alloc, read_members(value)?, kind),
        Form::Choice(choice) => read_choice(alloc, read_members(value)?, choice),
        Form::Marked(mark) => read_marked(alloc, read_members(value)?, mark),
    }
}

/// A word of a list.
fn read_word(value: &Value, list: Words) -> Result<Word, ReadError>
    ensures { result ≡ ok_or (word_of (view value.now) list) ReadError.BadForm }
{
    word_named(list, read_text(value)?).ok_or(ReadError::BadForm)
}

/// The node of a kind from an object's members. Members that are no field of it are passed over.
#[cycle(read)]
fn read_node(alloc: Global, members: &Map<String, Value>, kind: Kind) -> Result<Tree, ReadError>
    ensures { Answers (node_tree (member_readings (members_view members.now.entries)) kind) result }
{
    let fields = fields(kind);
    let mut parts = Items::from_vec(Vec::with_capacity(alloc, fields.len())?);
    for field in fields {
        parts.push(read_field(alloc, members, *field)?)?;
    }
    Ok(Tree::Node(kind, parts))
}

#[cycle(read)]
fn read_field(alloc: Global, members: &Map<String, Value>, field: Field) -> Result<Tree, ReadError>
    ensures { Answers (field_tree (member_readings (members_view members.now.entries)) (field_row field.entry)) result }
{
    match members.get(field.0) {
        Some(member) => read_counted(alloc, member, field.1, field.2),
        None => default_of(alloc, field.1, field.2),
    }
}

/// The one variant that an object of one member is.
#[cycle(read)]
fn read_choice(
    alloc: Global,
    members: &Map<String, Value>,
    choice: Choice,
) -> Result<Tree, ReadError>
    ensures { Answers (choice_tree (member_readings (members_view members.now.entries)) choice) result }
{
    let mut entries = members.iter();
    match (entries.next(), entries.next()) {
        (Some((name, content)), None) => match variant_named(choice, name.as_str()) {
            Some(variant) => read_tree(alloc, content, variant.1),
            None => Err(ReadError::BadForm),
        },
        _ => Err(ReadError::BadForm),
    }
}

/// A choice, under its mark.
#[cycle(read)]
fn read_marked(alloc: Global, members: &Map<String, Value>, mark: Kind) -> Result<Tree, ReadError>
    ensures { Answers (marked_tree (member_readings (members_view members.now.entries)) mark) result }
{
    match marked(mark) {
        Some(choice) => Ok(Tree::node(alloc, mark, [read_choice(alloc, members, choice)?])?),
        None => Err(ReadError::BadForm),
    }
}

/// What stands so often.
#[cycle(read)]
fn read_counted(alloc: Global, value: &Value, form: Form, count: Count) -> Result<Tree, ReadError>
    ensures { Answers (counted (reading (view value.now)) form count) result }
{
    match count {
        Count::One => read_tree(alloc, value, form),
        Count::Option => read_option(alloc, value, form),
        Count::List => read_list(alloc, read_array(value)?, form),
        Count::ListOfOptions => read_options(alloc, read_array(value)?, form),
        Count::OptionOfList => match value {
            Value::Null => Ok(Tree::Absent),
            _ => read_list(alloc, read_array(value)?, form),
        },
    }
}

/// An empty option where the value is null.
#[cycle(read)]
#[tactic(auto, using(crate::proofs::Words::reading_is_null))]
fn read_option(alloc: Global, value: &Value, form: Form) -> Result<Tree, ReadError>
    ensures { Answers (option_tree (reading (view value.now)) form) result }
{
    if value.is_null() {
        Ok(Tree::Absent)
    } else {
        read_tree(alloc, value, form)
    }
}

#[cycle(read)]
fn read_list(alloc: Global, values: &Vec<Value>, form: Form) -> Result<Tree, ReadError>
    ensures { Answers (option_map list (list_items form (item_readings (items_view values.now.items)))) result }
{
    let mut items = Items::from_vec(Vec::with_capacity(alloc, values.len())?);
    for value in values {
        items.push(read_tree(alloc, value, form)?)?;
    }
    Ok(Tree::list(items))
}

#[cycle(read)]
fn read_options(alloc: Global, values: &Vec<Value>, form: Form) -> Result<Tree, ReadError>
    ensures { Answers (option_map list (option_items form (item_readings (items_view values.now.items)))) result }
{
    let mut items = Items::from_vec(Vec::with_capacity(alloc, values.len())?);
    for value in values {
        items.push(read_option(alloc, value, form)?)?;
    }
    Ok(Tree::list(items))
}

/// What stands for a field that an object lacks.
fn default_of(alloc: Global, form: Form, count: Count) -> Result<Tree, ReadError>
    ensures { Answers (default_tree form count) result }
{
    match count {
        Count::Option | Count::OptionOfList => Ok(Tree::Absent),
        Count::List | Count::ListOfOptions => Ok(Tree::list(Items::new(alloc))),
        Count::One => match form {
            Form::Flag => Ok(Tree::Flag(false)),
            Form::Context => Ok(Tree::Context(SyntaxContext(0))),
            Form::Range => Ok(Tree::Range(DUMMY_SP)),
            _ => Err(ReadError::BadForm),
        },
    }
}
