//! The answer to a request of `build`.

ghost use Rattle.std.specs.Prelude.{map, IfOk, IfErr};
ghost use Rattle.fast_check_tables_packages.specs.Package.{nv_of};
ghost use Rattle.fast_check_build.specs.Build.{IsBuilt};
ghost use Rattle.fast_check_program_commands.specs.build_command.Build.{known_by, IsExportRefusal, BuildsAnswers, AnswersBuild, RefusesBuild};

use crate::build_command::answer::answer_of;
use fast_check_build::answers::ModuleAnswer;
use fast_check_build::build_fast_check_type_graph;
use fast_check_program_requests::build_requests::{BuildRequest, root_symbol_of};
use fast_check_program_requests::{Answer, Refusal};
use fast_check_tables_graph::{ModuleGraph, RootSymbol};
use fast_check_tables_packages::{BuildFault, IndexedPackages, PackageNv};
use fast_check_transform_module::TransformOptions;
use std::alloc::Global;
use std::collections::VecDeque;

/// The answers of the packages that are handed in, and of all that follow from them, or why they are refused.
fn build_answers(
    alloc: Global,
    provider: &IndexedPackages,
    graph: &ModuleGraph,
    root_symbol: &RootSymbol,
    pending: Vec<PackageNv>,
    options: &TransformOptions,
) -> Result<Vec<ModuleAnswer>, Refusal>
    ensures built { let k = known_by graph.now root_symbol.now options.now.workspace_members.items provider.now in
        IfOk result (λ answers. IsBuilt k (map nv_of pending.items) options.now.should_error_on_first_diagnostic answers.items) }
    ensures refused { let k = known_by graph.now root_symbol.now options.now.workspace_members.items provider.now in
        IfErr result (IsExportRefusal k (map nv_of pending.items)) }
{
    let pending_nvs = VecDeque::from(pending);
    match build_fast_check_type_graph(
        alloc,
        None,
        provider,
        graph,
        root_symbol,
        pending_nvs,
        options,
    ) {
        Ok(answers) => Ok(answers),
        Err(BuildFault::InvalidExport { .. }) => Err(Refusal::InvalidExport),
        Err(BuildFault::OutOfMemory) => Err(Refusal::OutOfMemory),
    }
}

/// The answers to a request, or why it is refused. The tables of its modules are looked at in their order, and the first fault is reported.
/// What was handed in is dropped.
fn request_answers(alloc: Global, request: BuildRequest) -> Result<Vec<ModuleAnswer>, Refusal>
    ensures built { IfOk result (λ answers. BuildsAnswers request answers.items) }
    ensures refusal { IfErr result (RefusesBuild request) }
{
    let BuildRequest {
        graph,
        modules,
        aliases,
        workspace_members,
        provider,
        pending,
        should_error_on_first_diagnostic,
    } = request;
    let root_symbol = root_symbol_of(alloc, modules, aliases)?;
    let provider = IndexedPackages::new(alloc, provider)?;
    let options = TransformOptions {
        workspace_members,
        should_error_on_first_diagnostic,
    };
    let answers = build_answers(alloc, &provider, &graph, &root_symbol, pending, &options)?;
    Ok(answers)
}

/// The answer to a request, or why it is refused. No module that was handed in is held while the answers are written.
pub fn answer_request(alloc: Global, request: BuildRequest) -> Result<Answer, Refusal>
    ensures answer { IfOk result (λ answer. AnswersBuild request answer.line.items answer.status) }
    ensures refusal { IfErr result (RefusesBuild request) }
{
    let answers = request_answers(alloc, request)?;
    Ok(answer_of(alloc, answers)?)
}
