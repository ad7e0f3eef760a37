//! What a build is asked: its request as it is read from JSON, and the modules and root symbols that are made of it.

mod input;
mod module_parts;
mod modules;
mod provider;
mod request;
mod root;

pub use crate::build_requests::input::read_build;
pub use crate::build_requests::module_parts::{JsonModuleParts, ModuleParts};
pub use crate::build_requests::request::{BuildRequest, read_build_request};
pub use crate::build_requests::root::root_symbol_of;
