//! The plain syntax tree of a TypeScript module: one recursive type, read by parts.
#![tactic(auto)]

mod atom;
mod kind;
mod part;
mod source;
mod tree;

pub use atom::{Atom, Id};
pub use kind::{Kind, Word};
pub use part::Part;
pub use source::{DUMMY_SP, SourcePos, SourceRange, SyntaxContext};
pub use sqlite_items::Items;
pub use tree::{Tree, clone_tree, same_tree};
