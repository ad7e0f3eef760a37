//! What stays of the declarations of a module, and of its default exports.

mod classes;
mod defaults;

pub use crate::transform_declarations::classes::{remove_inside, transform_public_class};
pub use crate::transform_declarations::defaults::transform_default_export;
