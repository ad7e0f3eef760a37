//! What all rules of the parser share: the tokens that they move over, the parser of nested rules, and names and literals.
//!
//! The rules of the grammar hold one another. A rule takes the parser of the rules that nest in it as a parameter of its `Grammar`, so that each rule is proved
//! by itself, and the crates of the rules need not know one another.
#![tactic(auto)]

mod cooked;
mod cursor;
mod error;
mod grammar;
mod literals;
mod names;
mod shared;
mod tokens;
mod trees;

pub use cursor::{Cursor, Within};
pub use error::ParseError;
pub use grammar::{Grammar, MAX_HEIGHT, Rule};
pub use literals::{bool_literal, literal_key, number, quasi, regex, signed_number, string};
pub use names::{
    binding, entity, ident, ident_name, is_reserved, private_name, sees_ident, word, word_ident,
};
pub use tokens::{Note, Saved, Tokens};
pub use trees::Trees;
