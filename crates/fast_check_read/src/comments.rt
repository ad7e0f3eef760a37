//! Comments, read of JSON.
ghost use Rattle.std.specs.Prelude.{◌≡◌, [], Some, option_map};
ghost use Rattle.std.specs.Option.{ok_or, option_map_or};
ghost use Rattle.serde_json.specs.View.{view, items_view, members_view};
ghost use Rattle.fast_check_read.specs.Each.{Answers};
ghost use Rattle.fast_check_read.specs.Comments.{comments_of, places_of, entry_of, comment_list_of, comment_of, comment_kind_of};

use crate::error::ReadError;
use crate::pieces::{read_array, read_members, read_pair, read_range, read_text, read_u32};
use fast_check_tree_comments::{Comment, CommentKind, CommentList, CommentMap, Comments};
use fast_check_tree_syntax::{Atom, DUMMY_SP, SourcePos};
use serde_json::Value;
use std::alloc::Global;

/// The comments of an object with the members `leading` and `trailing`, each an array of positions with their comments, as
/// `[[1, [{"kind": "Line", "span": [1, 5], "text": " a"}]]]`.
/// Either may be left out. Of entries with one position the last counts.
pub fn read_comments(alloc: Global, value: &Value) -> Result<Comments, ReadError>
    ensures { Answers (comments_of (view value.now)) result }
{
    read_members(value)?;
    Ok(Comments {
        leading: read_optional_places(alloc, value.get("leading"))?,
        trailing: read_optional_places(alloc, value.get("trailing"))?,
    })
}

/// None where they are left out.
fn read_optional_places(alloc: Global, value: Option<&Value>) -> Result<CommentMap, ReadError>
    ensures { Answers (option_map_or places_of (option_map (λ v. view v.now) value.entry) (Some [])) result }
{
    match value {
        Some(value) => read_places(alloc, value),
        None => Ok(CommentMap::new(alloc)),
    }
}

/// An array of positions with their comments.
fn read_places(alloc: Global, value: &Value) -> Result<CommentMap, ReadError>
    ensures { Answers (places_of (view value.now)) result }
{
    let mut places = CommentMap::new(alloc);
    for item in read_array(value)? {
        let (position, comments) = read_entry(alloc, item)?;
        places.insert(position, comments)?;
    }
    Ok(places)
}

/// A position with its comments.
fn read_entry(alloc: Global, value: &Value) -> Result<(SourcePos, CommentList), ReadError>
    ensures { Answers (entry_of (view value.now)) result }
{
    let (position, comments) = read_pair(value)?;
    let position = SourcePos(read_u32(position)?);
    Ok((position, read_comment_list(alloc, comments)?))
}

fn read_comment_list(alloc: Global, value: &Value) -> Result<CommentList, ReadError>
    ensures { Answers (comment_list_of (view value.now)) result }
{
    let mut comments = Vec::new(alloc);
    for item in read_array(value)? {
        comments.push(read_comment(alloc, item)?)?;
    }
    Ok(CommentList::from_vec(comments))
}

/// An object of the members `kind`, `span` and `text`. Without a span it is that of a node that no text stands for.
fn read_comment(alloc: Global, value: &Value) -> Result<Comment, ReadError>
    ensures { Answers (comment_of (view value.now)) result }
{
    let kind = read_comment_kind(value.get("kind").ok_or(ReadError::BadForm)?)?;
    let span = value.get("span").map_or(Ok(DUMMY_SP), read_range)?;
    let text = read_text(value.get("text").ok_or(ReadError::BadForm)?)?;
    let text = Atom::from_str(alloc, text)?;
    Ok(Comment { kind, span, text })
}

fn read_comment_kind(value: &Value) -> Result<CommentKind, ReadError>
    ensures { result ≡ ok_or (comment_kind_of (view value.now)) ReadError.BadForm }
{
    match read_text(value)? {
        "Line" => Ok(CommentKind::Line),
        "Block" => Ok(CommentKind::Block),
        _ => Err(ReadError::BadForm),
    }
}
