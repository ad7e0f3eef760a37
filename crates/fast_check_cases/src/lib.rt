//! Cases of single calls: sets of names, packages, forms and choices, places of diagnostics. And `Said`, by which cases make their text.
#![tactic(auto)]

mod forms;
mod names;
mod places;
mod said;

pub use forms::run_form_cases;
pub use names::run_name_cases;
pub use places::run_place_cases;
pub use said::Said;
