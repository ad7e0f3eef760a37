//! Copies of diagnostics.
ghost use Rattle.std.specs.Prelude.{◌≡◌, IfOk};
ghost use Rattle.std.specs.String.{string_bytes};
ghost use Rattle.fast_check_tables_diagnostics.specs.DiagnosticRange.{IsCopy};

use crate::diagnostics::{FastCheckDiagnostic, FastCheckDiagnosticRange, Subject};
use std::alloc::AllocError;
use url::Url;

impl Clone for FastCheckDiagnostic {
    ghost use Rattle.fast_check_tables_diagnostics.specs.DiagnosticCopy.{IsDiagnosticCopy};

    ghost is_clone = { IsDiagnosticCopy };

    fn clone(&self) -> Result<FastCheckDiagnostic, AllocError> {
        match self {
            Self::NotFoundReference {
                range,
                name: first,
                referrer: second,
            }
            | Self::UnsupportedComplexReference {
                range,
                name: first,
                referrer: second,
            }
            | Self::UnsupportedExpandoProperty {
                range,
                object_name: first,
                reference_name: second,
            }
            | Self::UnsupportedPrivateMemberReference {
                range,
                name: first,
                referrer: second,
            } => self.copy_with_names(range, first, second),
            Self::Emit { specifier, inner } => {
                let inner = inner.clone()?;
                Ok(Self::Emit {
                    specifier: specifier.clone()?,
                    inner,
                })
            }
            _ => match self.subject() {
                Subject::Range(range) => self.copy_with_range(range),
                Subject::Module(specifier) => self.copy_with_specifier(specifier),
            },
        }
    }
}

impl FastCheckDiagnostic {
    ghost use Rattle.fast_check_tables_diagnostics.specs.DiagnosticCopy.{IsDiagnosticCopy, with_names, with_range, with_specifier};

    /// A copy of the diagnostic of the same kind that holds this place and these names, for the kinds that hold a place and two names.
    fn copy_with_names(
        &self,
        range: &FastCheckDiagnosticRange,
        first: &String,
        second: &String,
    ) -> Result<FastCheckDiagnostic, AllocError>
        ensures { IfOk result (IsDiagnosticCopy (with_names self.now range.now first.now second.now)) }
    {
        let (range, first, second) = named_place(range, first, second)?;
        Ok(match self {
            Self::NotFoundReference { .. } => Self::NotFoundReference {
                range,
                name: first,
                referrer: second,
            },
            Self::UnsupportedComplexReference { .. } => Self::UnsupportedComplexReference {
                range,
                name: first,
                referrer: second,
            },
            Self::UnsupportedPrivateMemberReference { .. } =>
                Self::UnsupportedPrivateMemberReference {
                    range,
                    name: first,
                    referrer: second,
                },
            _ => Self::UnsupportedExpandoProperty {
                range,
                object_name: first,
                reference_name: second,
            },
        })
    }

    /// A copy of the same diagnostic at this place, for the kinds that hold a place and no text.
    fn copy_with_range(
        &self,
        range: &FastCheckDiagnosticRange,
    ) -> Result<FastCheckDiagnostic, AllocError>
        ensures { IfOk result (IsDiagnosticCopy (with_range self.now range.now)) }
    {
        let range = range.clone()?;
        Ok(match self {
            Self::MissingExplicitType { .. } => Self::MissingExplicitType { range },
            Self::MissingExplicitReturnType {
                is_definitely_void_or_never,
                is_async,
                ..
            } => Self::MissingExplicitReturnType {
                range,
                is_definitely_void_or_never: *is_definitely_void_or_never,
                is_async: *is_async,
            },
            Self::UnsupportedAmbientModule { .. } => Self::UnsupportedAmbientModule { range },
            Self::UnsupportedDefaultExportExpr { .. } => Self::UnsupportedDefaultExportExpr {
                range,
            },
            Self::UnsupportedDestructuring { .. } => Self::UnsupportedDestructuring { range },
            Self::UnsupportedGlobalModule { .. } => Self::UnsupportedGlobalModule { range },
            Self::UnsupportedRequire { .. } => Self::UnsupportedRequire { range },
            Self::UnsupportedSuperClassExpr { .. } => Self::UnsupportedSuperClassExpr { range },
            Self::UnsupportedTsExportAssignment { .. } => Self::UnsupportedTsExportAssignment {
                range,
            },
            Self::UnsupportedTsNamespaceExport { .. } => Self::UnsupportedTsNamespaceExport {
                range,
            },
            _ => Self::UnsupportedUsing { range },
        })
    }

    /// A copy of the same diagnostic of this module, for the kinds that hold a module and no text.
    fn copy_with_specifier(&self, specifier: &Url) -> Result<FastCheckDiagnostic, AllocError>
        ensures { IfOk result (IsDiagnosticCopy (with_specifier self.now specifier.now)) }
    {
        let specifier = specifier.clone()?;
        Ok(match self {
            Self::UnsupportedNestedJavaScript { .. } => Self::UnsupportedNestedJavaScript {
                specifier,
            },
            Self::UnsupportedJavaScriptEntrypoint { .. } => Self::UnsupportedJavaScriptEntrypoint {
                specifier,
            },
            Self::ExportNotFound { .. } => Self::ExportNotFound { specifier },
            _ => Self::Cached { specifier },
        })
    }
}

/// Copies of a place and of two names.
fn named_place(
    range: &FastCheckDiagnosticRange,
    first: &String,
    second: &String,
) -> Result<(FastCheckDiagnosticRange, String, String), AllocError>
    ensures { IfOk result (λ x. IsCopy range.now x.0 × (string_bytes x.1 ≡ string_bytes first.now) × (string_bytes x.2 ≡ string_bytes second.now)) }
{
    let first = first.clone()?;
    let second = second.clone()?;
    Ok((range.clone()?, first, second))
}
