//! What was asked: the packages, the names of a module, and what an account of demands is.

mod asked_packages;
mod exports;

pub use crate::asked::asked_packages::{AskedPackages, copy_of, is_same_package};
pub use crate::asked::exports::exports_to_ask;
pub use fast_check_finder_lattice::{HandledExports, PendingTrace, PendingTraces};
