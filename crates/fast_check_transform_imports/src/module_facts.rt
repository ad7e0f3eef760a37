//! The facts of a module beside its tree, and the sources of imports and exports, as a skeleton has them.

mod facts;
mod sources;

pub use crate::module_facts::facts::ModuleFacts;
pub use crate::module_facts::sources::relative_source;
