//! What is known of the names of a module, which rows of expressions go by that, and new nodes: those that stand for what is taken out of a signature, with the patterns
//! and functions that stand with them.
#![tactic(auto)]

mod names;
mod nodes;
mod patterns;
mod rows;
mod signed;
mod typing;

pub use names::Bindings;
pub use nodes::{
    any_param, arrow_body, empty_object_pat, function_body, never_array, never_in_parens,
    or_undefined, promise_of, promised, void_or_promise_void,
};
pub use patterns::{
    default_type, emptied_array, emptied_object, rest_arg, with_default, with_pattern,
    without_default,
};
pub use rows::row_of;
pub use signed::{kept_arrow, signed_arrow, signed_function};
pub use typing::Typing;
