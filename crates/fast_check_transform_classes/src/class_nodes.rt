//! The nodes of classes: their members as they stand in a skeleton, constructors, and superclasses.

mod constructors;
mod copies;
mod earlier;
mod keys;
mod properties;
mod superclasses;

pub use crate::class_nodes::constructors::{constructor_body, plain_params};
pub use crate::class_nodes::copies::two_trees;
pub use crate::class_nodes::earlier::{Earlier, kept_members};
pub use crate::class_nodes::keys::{is_computed, is_hash_named, is_private, key_text};
pub use crate::class_nodes::properties::{
    PropertyHead, accessor_head, hash_private, mutability_of_property, param_property,
    param_target, private_method_head, property_head, takes_apart,
};
pub use crate::class_nodes::superclasses::transform_superclass;
