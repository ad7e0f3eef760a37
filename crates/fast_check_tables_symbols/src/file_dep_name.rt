//! The name behind a file dependency.

/// What a declaration takes from the file that it refers to.
#[derive(Clone, Debug, PartialEq, Eq, Drop)]
pub enum FileDepName {
    /// Each export but `default`.
    Star,
    /// The export of this name.
    Name(String),
}
