//! What stands of values, functions and parameters where a type checker is to read them without inference.
#![tactic(auto)]

mod expressions;
mod functions;
mod parameters;

pub use expressions::{transform_expr, transform_value};
pub use fast_check_transform_nodes as nodes;
pub use functions::{any_params, transform_arrow, transform_fn, transform_implementation};
pub use parameters::{transform_param_pat, transform_params};
