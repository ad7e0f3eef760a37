//! What stops the parser.
use fast_check_tree_syntax::SourcePos;
use std::alloc::AllocError;

/// Why a text is not parsed.
#[derive(Clone, Copy, PartialEq, Eq, Debug)]
pub enum ParseError {
    /// Memory ran out.
    Memory,
    /// The text has 4 GB or more.
    TooLong,
    /// Rules nest too deep here, or the tree is too high here.
    TooDeep(SourcePos),
    /// This token cannot stand here.
    Unexpected(SourcePos),
}

impl From<AllocError> for ParseError {
    fn from(_error: AllocError) -> ParseError {
        ParseError::Memory
    }
}
