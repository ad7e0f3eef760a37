//! What is found in worlds of packages, calls of a transformer, transforms of trees that are nested deep, and the texts of diagnostics.
//! `fast_check_vectors` runs them.
#![tactic(auto)]

mod deep;
mod faults;
mod modules;
mod said_answers;
mod said_packages;
mod transformers;
mod unfound;
mod worlds;
mod written;

pub use deep::run_deep_cases;
pub use faults::run_fault_cases;
pub use transformers::run_transformer_cases;
pub use unfound::run_unfound_cases;
pub use worlds::run_finder_cases;
