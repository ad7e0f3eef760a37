//! What walks over trees stand on: how high a tree is and whether its ranges lie within one another, as tests, the parts that wait, so that a walk needs no stack,
//! and where statements stand.
#![tactic(auto)]

mod ends;
mod height;
mod nested;
mod statements;
mod waiting;

pub use height::is_at_most;
pub use nested::is_nested;
pub use statements::holds_statements;
pub use waiting::Waiting;
