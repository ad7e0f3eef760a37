//! What stays of the statements of a module that hold no class: variables, `using`, assignments, functions, and the blocks of namespaces.
#![tactic(auto)]

mod assignments;
mod declarations;
mod functions;
mod namespaces;
pub mod transform_declarations;

pub use assignments::transform_assignment;
pub use declarations::{transform_standing, transform_statement, transform_using};
pub use fast_check_meaning_expandos as expandos;
pub use fast_check_transform_imports::{ModuleFacts, skeleton};
pub use functions::transform_public_function;
pub use namespaces::{items_inside, module_fault, namespace_with};
pub use transform_declarations::{remove_inside, transform_default_export, transform_public_class};
