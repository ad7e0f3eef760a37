//! The faults of a transform, as diagnostics.

mod diagnostics;

pub use crate::transform_faults::diagnostics::diagnose;
