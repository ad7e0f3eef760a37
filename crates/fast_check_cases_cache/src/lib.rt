//! Calls on caches in memory, and builds with them. `fast_check_vectors` runs both.
#![tactic(auto)]

mod builds;
mod calls;
mod hash;
mod items;
mod memory;
mod read;
mod run_cache;
mod said_answers;

pub use builds::run_cached_builds;
pub use calls::run_cache_cases;
