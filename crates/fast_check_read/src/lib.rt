//! Reading the JSON of trees, comments and their pieces.
#![tactic(auto)]

mod comments;
mod error;
mod float;
mod input;
mod pieces;
pub mod schema;
mod tree;

pub use comments::read_comments;
pub use error::ReadError;
pub use float::{had_float, has_float};
pub use input::{InputFault, read_input};
pub use pieces::{
    read_array, read_bool, read_members, read_optional_flag, read_pair, read_range, read_text,
    read_u32, read_u64,
};
pub use tree::read_tree;
