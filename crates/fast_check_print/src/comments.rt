//! Comments as JSON.
ghost use Rattle.std.specs.Prelude.{◌≡◌, OnOk};
ghost use Rattle.fast_check_print.specs.Comments.{comments_data, places_data, comment_list_data, entry_data, comment_data, kind_text};
ghost use Rattle.fast_check_print.specs.Writing.{WritesData};

use crate::pieces::{print_position, print_range};
use fast_check_tree_comments::{Comment, CommentKind, CommentMap, Comments};
use fast_check_tree_syntax::SourcePos;
use json::Writer;
use std::alloc::AllocError;

/// Writes comments as an object with the members `leading` and `trailing`, each an array of positions with their comments.
pub fn print_comments(out: &mut Writer, comments: &Comments) -> Result<(), AllocError>
    ensures { OnOk result (WritesData (comments_data comments.now) out.old out.new) }
{
    out.begin_object()?;
    out.key("leading")?;
    print_places(out, &comments.leading)?;
    out.key("trailing")?;
    print_places(out, &comments.trailing)?;
    out.end_object()
}

/// The entries as an array, in the order of their positions.
fn print_places(out: &mut Writer, places: &CommentMap) -> Result<(), AllocError>
    ensures { OnOk result (WritesData (places_data places.now) out.old out.new) }
{
    out.begin_array()?;
    for (position, comments) in places.iter() {
        print_entry(out, *position, comments.as_slice())?;
    }
    out.end_array()
}

/// A position with its comments, as an array of two.
fn print_entry(
    out: &mut Writer,
    position: SourcePos,
    comments: &[Comment],
) -> Result<(), AllocError>
    ensures { OnOk result (WritesData (entry_data (position, comments.now)) out.old out.new) }
{
    out.begin_array()?;
    print_position(out, position)?;
    print_comment_list(out, comments)?;
    out.end_array()
}

fn print_comment_list(out: &mut Writer, comments: &[Comment]) -> Result<(), AllocError>
    ensures { OnOk result (WritesData (comment_list_data comments.now) out.old out.new) }
{
    out.begin_array()?;
    for comment in comments {
        print_comment(out, comment)?;
    }
    out.end_array()
}

fn print_comment(out: &mut Writer, comment: &Comment) -> Result<(), AllocError>
    ensures { OnOk result (WritesData (comment_data comment.now) out.old out.new) }
{
    out.begin_object()?;
    out.key("kind")?;
    out.string(comment_kind_text(comment.kind))?;
    out.key("span")?;
    print_range(out, comment.span)?;
    out.key("text")?;
    out.string(comment.text.as_str())?;
    out.end_object()
}

fn comment_kind_text(kind: CommentKind) -> &'static str
    ensures { result.now ≡ kind_text kind }
{
    match kind {
        CommentKind::Line => "Line",
        CommentKind::Block => "Block",
    }
}
