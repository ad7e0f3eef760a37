//! What names of a module ask of its symbols, and what the module asks of other modules by what it exports again.

mod list;
mod modules;
mod origins;
mod public;
mod roots;

pub use crate::name_demands::NameDemand;
pub use crate::re_exports::list::{ReExportDemand, ReExportDemands};
pub use crate::re_exports::modules::{GraphModule, own_export, tables_of};
pub use crate::re_exports::origins::ReExportIndex;
pub use crate::re_exports::public::{PublicReExports, ReExports, push_all_ranges, re_exports_of};
pub use crate::re_exports::roots::roots_of;
pub use fast_check_tables_graph::{AnyModuleInfo, ModuleGraph, RootSymbol};
