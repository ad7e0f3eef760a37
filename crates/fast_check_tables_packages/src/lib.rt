//! Packages and workspace members, what a caller lends of them, and an index that answers which listed package a URL or a name belongs to.
#![tactic(auto)]

mod fault;
mod listed;
mod member_places;
mod members;
mod package;
mod packages;
mod provider;
mod texts;

pub use crate::package::{PackageNv, WorkspaceMember};
pub use fault::BuildFault;
pub use listed::ListedPackages;
pub use members::IndexedMembers;
pub use packages::IndexedPackages;
pub use provider::JsrUrlProvider;
pub use texts::TextIndex;
