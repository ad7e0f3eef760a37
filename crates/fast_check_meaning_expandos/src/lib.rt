//! Assignments that are statements: the properties that they declare for functions, and the namespaces that stand for these in a skeleton.
#![tactic(auto)]

mod namespaces;
mod properties;
mod references;

pub use namespaces::keep_namespaces;
pub use properties::{ExpandoProperty, expando_property, exports_property, object_of};
pub use references::{Reference, exports_name};
