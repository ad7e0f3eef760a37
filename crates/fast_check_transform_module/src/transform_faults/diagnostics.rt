//! Faults of the transform as diagnostics.
ghost use Rattle.std.specs.Prelude.{◌≡◌, IfOk};
ghost use Rattle.fast_check_transform_module.specs.transform_faults.Diagnostics.{IsPlaceOf, IsExpandoProperty, IsDiagnosticOf, AreDiagnosticsOf, diagnosed};

use fast_check_meaning_signatures::{Fault, FaultKind};
use fast_check_tables_modules::EsModuleInfo;
use fast_check_tables_modules::diagnostics::{FastCheckDiagnostic, FastCheckDiagnosticRange};
use fast_check_tree_syntax::{Atom, SourceRange};
use std::alloc::{AllocError, Global};

/// A range of the source text of a module as the place of a diagnostic.
fn place_of(
    es_module_info: &EsModuleInfo,
    range: SourceRange,
) -> Result<FastCheckDiagnosticRange, AllocError>
    ensures { IfOk result (IsPlaceOf es_module_info.now range) }
{
    Ok(FastCheckDiagnosticRange {
        specifier: es_module_info.specifier().clone()?,
        range,
        text_info: es_module_info.source().text.clone()?,
    })
}

/// An expando property whose value mentions a name that its object exports, as a diagnostic.
fn expando_property(
    alloc: Global,
    range: FastCheckDiagnosticRange,
    object_name: &Atom,
    reference_name: &Atom,
) -> Result<FastCheckDiagnostic, AllocError>
    ensures { IfOk result (IsExpandoProperty range object_name.now reference_name.now) }
{
    let object_name = String::from_str(alloc, object_name.as_str())?;
    let reference_name = String::from_str(alloc, reference_name.as_str())?;
    Ok(FastCheckDiagnostic::UnsupportedExpandoProperty {
        range,
        object_name,
        reference_name,
    })
}

/// A fault of a module as a diagnostic.
fn diagnostic_of(
    alloc: Global,
    es_module_info: &EsModuleInfo,
    fault: &Fault,
) -> Result<FastCheckDiagnostic, AllocError>
    ensures { IfOk result (IsDiagnosticOf es_module_info.now fault.now) }
{
    let range = place_of(es_module_info, fault.range)?;
    Ok(match &fault.kind {
        FaultKind::MissingExplicitType => FastCheckDiagnostic::MissingExplicitType { range },
        FaultKind::MissingExplicitReturnType {
            is_definitely_void_or_never,
            is_async,
        } => FastCheckDiagnostic::MissingExplicitReturnType {
            range,
            is_definitely_void_or_never: *is_definitely_void_or_never,
            is_async: *is_async,
        },
        FaultKind::UnsupportedDestructuring => {
            FastCheckDiagnostic::UnsupportedDestructuring { range }
        }
        FaultKind::UnsupportedSuperClassExpr => {
            FastCheckDiagnostic::UnsupportedSuperClassExpr { range }
        }
        FaultKind::UnsupportedDefaultExportExpr => {
            FastCheckDiagnostic::UnsupportedDefaultExportExpr { range }
        }
        FaultKind::UnsupportedUsing => FastCheckDiagnostic::UnsupportedUsing { range },
        FaultKind::UnsupportedRequire => FastCheckDiagnostic::UnsupportedRequire { range },
        FaultKind::UnsupportedTsExportAssignment => {
            FastCheckDiagnostic::UnsupportedTsExportAssignment { range }
        }
        FaultKind::UnsupportedTsNamespaceExport => {
            FastCheckDiagnostic::UnsupportedTsNamespaceExport { range }
        }
        FaultKind::UnsupportedGlobalModule => {
            FastCheckDiagnostic::UnsupportedGlobalModule { range }
        }
        FaultKind::UnsupportedAmbientModule => {
            FastCheckDiagnostic::UnsupportedAmbientModule { range }
        }
        FaultKind::UnsupportedExpandoProperty {
            object_name,
            reference_name,
        } => expando_property(alloc, range, object_name, reference_name)?,
    })
}

/// The faults of a module as diagnostics.
fn diagnostics_of(
    alloc: Global,
    es_module_info: &EsModuleInfo,
    faults: &[Fault],
) -> Result<Vec<FastCheckDiagnostic>, AllocError>
    ensures { IfOk result (λ diagnostics. AreDiagnosticsOf es_module_info.now faults.now diagnostics.items) }
{
    let mut diagnostics = Vec::new(alloc);
    for fault in faults {
        diagnostics.push(diagnostic_of(alloc, es_module_info, fault)?)?;
    }
    Ok(diagnostics)
}

/// The faults of a module as diagnostics, in their order, or the first of them alone.
pub fn diagnose(
    alloc: Global,
    es_module_info: &EsModuleInfo,
    mut faults: Vec<Fault>,
    first_alone: bool,
) -> Result<Vec<FastCheckDiagnostic>, AllocError>
    ensures { IfOk result (λ diagnostics. AreDiagnosticsOf es_module_info.now (diagnosed first_alone faults.items) diagnostics.items) }
{
    if first_alone {
        faults.truncate(1);
    }
    diagnostics_of(alloc, es_module_info, faults.as_slice())
}
