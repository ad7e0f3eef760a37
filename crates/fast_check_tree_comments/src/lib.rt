//! The comments of a module, by the positions that they stand at.
#![tactic(auto)]

mod comment;
mod comments;
mod comments_mut;
mod map;

pub use comment::{Comment, CommentKind};
pub use comments::Comments;
pub use comments_mut::CommentsMut;
pub use map::{CommentList, CommentMap};
