//! Demands of names, and what a module asks of other files.

mod list;
mod name_demand;
mod references;

pub use crate::name_demands::list::FileDependencies;
pub use crate::name_demands::name_demand::{FileDependency, NameDemand};
pub use crate::name_demands::references::files_of;
