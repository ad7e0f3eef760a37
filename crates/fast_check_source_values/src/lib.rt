//! The rules of values without operators: literals, functions, JSX, and patterns that something is assigned to.
#![tactic(auto)]

mod functions;
mod jsx;
mod look_ahead;
mod objects;
mod targets;
mod values;

pub use functions::{Marks, enter_function};
pub use look_ahead::{binds, starts_value};
pub use targets::is_shape;
pub use values::Values;
