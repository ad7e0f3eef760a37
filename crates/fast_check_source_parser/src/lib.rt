//! The parser of TypeScript: the tree of a text, as swc has it, but for scope numbers.
#![tactic(auto)]

mod parse;

pub use fast_check_source_grammar::ParseError;
pub use parse::parse_program;
