//! The parts of values, functions and parameters that stay where a type checker is to read them without inference, and
//! the faults of those that it could not read: the definitions that the transform is proved against.
#![tactic(auto)]

mod fault;
mod function_kind;
mod rules;

pub use fault::{Fault, FaultKind};
pub use function_kind::FunctionKind;
pub use rules::{Slot, is_compound, is_plain};
