//! Public ranges, which are found before a module is transformed, and the diagnostics of its faults.
#![tactic(auto)]

mod diagnostics;
mod law;
pub mod parsed_source;
mod public_ranges;

pub use diagnostics::{
    Diagnostic, DiagnosticLevel, DiagnosticLocation, DiagnosticSnippet, FastCheckDiagnostic,
    FastCheckDiagnosticRange,
};
pub use law::pinned_texts;
pub use public_ranges::{ModulePublicRanges, range_set};
