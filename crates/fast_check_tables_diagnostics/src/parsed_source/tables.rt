//! A module's source, and the skeleton that answers it.

mod fast_check_module;
mod media_type;
mod parsed_source;

pub use fast_check_module::{FastCheckModule, ModuleInfo, StaticSource};
pub use media_type::MediaType;
pub use parsed_source::ParsedSource;

/// A module's name: its URL.
pub type ModuleSpecifier = url::Url;
