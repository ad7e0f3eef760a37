//! How a package is answered by its public ranges: with the skeletons of its modules, or with their diagnostics; or else by its item of a cache.
#![tactic(auto)]

mod answer;
mod cached;
mod input;
mod kept;
mod law;
mod once;
mod packages;
mod used;

pub use answer::{ModuleAnswer, answer_package};
pub use fast_check_transform_module as transform_module;
pub use input::BuildInput;
pub use law::first_alone;
pub use once::{PackageAnswer, answer_all_once};
pub use packages::{answer_all, answer_and_set_all};
