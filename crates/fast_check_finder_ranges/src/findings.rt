//! What following packages and modules finds, and the faults of demands as diagnostics.

mod demand_fault;
mod diagnostics;
mod faulty_module;
mod found;
mod module_faults;

pub use crate::findings::found::{Entrance, EntryFault, FoundModule, FoundPackage};
pub use crate::findings::module_faults::ModuleFaults;
pub use fast_check_tables_packages::PackageNv;
