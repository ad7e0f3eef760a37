//! The source of a module: text, tree and comments.
use crate::parsed_source::tables::MediaType;
use fast_check_tree_comments::Comments;
use fast_check_tree_syntax::{SyntaxContext, Tree};
use std::rc::RcStr;

/// A module's source, as a parser gives it.
#[derive(Drop)]
pub struct ParsedSource {
    pub media_type: MediaType,
    /// The source text.
    pub text: RcStr,
    pub program: Tree,
    pub comments: Comments,
    /// The scope number of the names that no declaration of the module binds.
    pub unresolved_context: SyntaxContext,
}
