//! `transform`: the skeleton of a module, or all that is wrong with it.
ghost use Rattle.std.specs.Prelude.{◌≡◌, ◌↔◌, [], IfOk, IsOk, IfErr};
ghost use Rattle.fast_check_transform_statements.specs.skeleton.Grammar.{IsSkeleton};
ghost use Rattle.fast_check_tables_diagnostics.specs.parsed_source.MediaType.{is_declaration};
ghost use Rattle.fast_check_tables_modules.specs.EsModule.{Admits};
ghost use Rattle.fast_check_transform_statements.specs.nodes.Bindings.{bindings_of};
ghost use Rattle.fast_check_transform_module.specs.Transform.{skeleton, sources, comments, faults};
ghost use Rattle.fast_check_transform_module.specs.transform_faults.Diagnostics.{AreDiagnosticsOf, diagnosed};

use crate::program::{KeptModule, transform_es_module};
use crate::transform_faults::diagnose;
use fast_check_tables_diagnostics::parsed_source::{FastCheckModule, ModuleInfo};
use fast_check_tables_graph::ModuleGraph;
use fast_check_tables_modules::EsModuleInfo;
use fast_check_tables_modules::diagnostics::{FastCheckDiagnostic, ModulePublicRanges};
use fast_check_tables_packages::WorkspaceMember;
use fast_check_transform_imports::static_sources;
use std::alloc::{AllocError, Global};

/// How modules are transformed.
#[derive(Drop)]
pub struct TransformOptions {
    /// The packages of the workspace.
    pub workspace_members: Vec<WorkspaceMember>,
    /// Whether the first fault of a module is answered alone.
    pub should_error_on_first_diagnostic: bool,
}

/// The skeleton of a module: what is public of it, with a type in place of each value. Where a public declaration shows
/// no type, the answer is the list of its faults in reading order, or the first of them alone under the option.
///
/// This is `transform` of deno_graph's fast check. An `Err` outside says that memory ran out. The module has to admit the
/// public ranges.
pub fn transform(
    alloc: Global,
    graph: &ModuleGraph,
    es_module_info: &EsModuleInfo,
    public_ranges: &ModulePublicRanges,
    options: &TransformOptions,
) -> Result<Result<FastCheckModule, Vec<FastCheckDiagnostic>>, AllocError>
    requires admitted { Admits es_module_info.now public_ranges.now }
    ensures ok { IfOk result (λ answer. IsOk answer ↔ (faults graph.now es_module_info.now public_ranges.now ≡ [])) }
    ensures skeleton { IfOk result (λ answer. IfOk answer (λ made. made.program ≡ skeleton graph.now es_module_info.now public_ranges.now)) }
    ensures grammar { IfOk result (λ answer. IfOk answer (λ made.
        IsSkeleton (bindings_of es_module_info.now) (is_declaration es_module_info.now.source.media_type) made.program)) }
    ensures comments { IfOk result (λ answer. IfOk answer (λ made. made.comments ≡ comments graph.now es_module_info.now public_ranges.now)) }
    ensures sources { IfOk result (λ answer. IfOk answer (λ made. made.module_info.sources.items ≡ sources graph.now es_module_info.now public_ranges.now)) }
    ensures faults { IfOk result (λ answer. IfErr answer (λ diagnostics.
        AreDiagnosticsOf es_module_info.now
        (diagnosed options.now.should_error_on_first_diagnostic (faults graph.now es_module_info.now public_ranges.now)) diagnostics.items)) }
{
    let KeptModule {
        program,
        comments,
        faults,
    } = transform_es_module(alloc, graph, es_module_info, public_ranges)?;
    if !faults.is_empty() {
        let first_alone = options.should_error_on_first_diagnostic;
        return Ok(Err(diagnose(alloc, es_module_info, faults, first_alone)?));
    }
    let sources = static_sources(alloc, program.read())?;
    Ok(Ok(FastCheckModule {
        module_info: ModuleInfo { sources },
        program,
        comments,
    }))
}
