//! The command `transform`: the request in the bytes of its file, and its answer.

ghost use Rattle.std.specs.Prelude.{◌≡◌, ◌<◌, IfOk, IfErr};
ghost use Rattle.fast_check_program_requests.specs.Run.{IsOfBytes};
ghost use Rattle.fast_check_program_transform.specs.Transform.{AnswersModule, RefusesModule, AnswersRequest, RefusesRequest, IsAnswerTo, RefusesBytes};

use crate::answer::line_of;
use fast_check_program_requests::{Answer, EsModuleParts, Refusal, TransformRequest, read_request};
use fast_check_tables_graph::ModuleGraph;
use fast_check_tables_modules::EsModuleInfo;
use fast_check_tables_modules::diagnostics::ModulePublicRanges;
use fast_check_transform_module::{TransformOptions, transform};
use std::alloc::Global;

/// The answer to the bytes of a file, or why they are refused. They are dropped when the request is read.
pub fn answer_transform(alloc: Global, bytes: Vec<u8>) -> Result<Answer, Refusal>
    ensures answer { IfOk result (λ answer. IsAnswerTo bytes.items answer.line.items answer.status) }
    ensures status { IfOk result (λ answer. answer.status < 2) }
    ensures refusal { IfErr result (λ refusal. RefusesBytes refusal bytes.items) }
    ensures of_bytes { IfErr result IsOfBytes }
{
    answer_request(alloc, read_request(alloc, bytes)?)
}

/// The answer to a request, or why it is refused.
fn answer_request(alloc: Global, request: TransformRequest) -> Result<Answer, Refusal>
    ensures answer { IfOk result (λ answer. AnswersRequest request answer.line.items answer.status) }
    ensures refusal { IfErr result (RefusesRequest request) }
{
    let TransformRequest {
        graph,
        es_module,
        public_ranges,
        should_error_on_first_diagnostic,
    } = request;
    let EsModuleParts {
        specifier,
        source,
        tables,
    } = es_module;
    match EsModuleInfo::new(alloc, specifier, source, tables) {
        Ok(info) => {
            let is_first = should_error_on_first_diagnostic;
            answer_if_admitted(alloc, &graph, &info, &public_ranges, is_first)
        }
        Err(fault) => Err(Refusal::TableFault(fault)),
    }
}

/// The answer to a module, or why it is refused: these ranges have to be admitted.
fn answer_if_admitted(
    alloc: Global,
    graph: &ModuleGraph,
    es_module_info: &EsModuleInfo,
    public_ranges: &ModulePublicRanges,
    should_error_on_first_diagnostic: bool,
) -> Result<Answer, Refusal>
    ensures answer { IfOk result (λ answer. AnswersModule graph.now es_module_info.now public_ranges.now should_error_on_first_diagnostic
        answer.line.items answer.status) }
    ensures refusal { IfErr result (RefusesModule es_module_info.now public_ranges.now) }
{
    if !es_module_info.admits(public_ranges) {
        return Err(Refusal::RangesNotAdmitted);
    }
    let options = TransformOptions {
        workspace_members: Vec::new(alloc),
        should_error_on_first_diagnostic,
    };
    let answer = transform(alloc, graph, es_module_info, public_ranges, &options)?;
    Ok(Answer {
        line: line_of(alloc, &answer)?,
        status: if answer.is_ok() { 0 } else { 1 },
    })
}
