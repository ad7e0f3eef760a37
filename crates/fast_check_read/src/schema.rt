//! The schema of the syntax tree: the fields of each form, the forms that each choice is between, and the words of each list.

mod expressions;
mod form;
mod functions;
mod lookup;
mod names;
mod order;
mod patterns;
mod program;
mod statements;
mod tables;
mod types;

pub use crate::schema::form::{Choice, Count, Field, Form, Named, Variant, Words};
pub use crate::schema::lookup::{marked, variant_named, variant_of, word_named, word_text};
pub use crate::schema::order::written_order;
pub use crate::schema::tables::{fields, variants, words};
