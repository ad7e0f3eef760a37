//! Printing JSON, whose keys are sorted: trees, comments and their pieces; skeletons with their comments and sources, and diagnostics, of one module or of
//! several.
#![tactic(auto)]

mod answer;
mod answers;
mod comments;
mod diagnostic;
mod pieces;
mod tree;
mod variants;

pub use answer::print_answer;
pub use answers::print_answers;
pub use comments::print_comments;
pub use diagnostic::print_diagnostics;
pub use pieces::{print_position, print_range};
pub use tree::print_tree;
