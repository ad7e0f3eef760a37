//! The command `pair`: the request in the bytes of its file, and its answer.

ghost use Rattle.std.specs.Prelude.{◌≡◌, ◌<◌, IfOk, IfErr};
ghost use Rattle.fast_check_tables_modules.specs.EsModule.{Admits};
ghost use Rattle.fast_check_tables_modules.specs.FitProgram.{IsModuleFault};
ghost use Rattle.fast_check_program_requests.specs.Run.{IsOfBytes};
ghost use Rattle.fast_check_program_transform.specs.Transform.{IsModuleOf};
ghost use Rattle.fast_check_program_commands.specs.pair_command.Line.{status_of, IsPairAnswer};
ghost use Rattle.fast_check_program_commands.specs.pair_command.Second.{AnswersSecond, RefusesSecond};
ghost use Rattle.fast_check_program_commands.specs.pair_command.Pair.{AnswersModules, RefusesModules, AnswersPair, RefusesPair, IsAnswerTo, RefusesBytes};

use crate::pair_command::answer::line_of_answers;
use crate::pair_command::input::read_pair_input;
use crate::pair_command::request::{PairRequest, Side};
use fast_check_program_requests::{Answer, EsModuleParts, Refusal};
use fast_check_tables_diagnostics::parsed_source::FastCheckModule;
use fast_check_tables_graph::ModuleGraph;
use fast_check_tables_modules::diagnostics::{FastCheckDiagnostic, ModulePublicRanges};
use fast_check_tables_modules::{EsModuleInfo, TableFault};
use fast_check_transform_module::TransformOptions;
use fast_check_transform_pair::transform_pair;
use std::alloc::{AllocError, Global};

/// A side of a pair whose tables have no fault: the module, and what is public in it.
#[derive(Clone, Copy)]
struct CheckedSide<'a> {
    info: &'a EsModuleInfo,
    ranges: &'a ModulePublicRanges,
}

/// The answer to the bytes of a file, or why they are refused. They are dropped when the request is read.
pub fn answer_pair(alloc: Global, bytes: Vec<u8>) -> Result<Answer, Refusal>
    ensures answer { IfOk result (λ answer. IsAnswerTo bytes.items answer.line.items answer.status) }
    ensures status { IfOk result (λ answer. answer.status < 2) }
    ensures refusal { IfErr result (λ refusal. RefusesBytes refusal bytes.items) }
    ensures of_bytes { IfErr result IsOfBytes }
{
    answer_request(alloc, read_pair_input(alloc, bytes)?)
}

/// The module of these parts, or the fault of its tables.
fn checked_module(alloc: Global, parts: EsModuleParts) -> Result<EsModuleInfo, TableFault>
    ensures made { IfOk result (IsModuleOf parts) }
    ensures fault { IfErr result (IsModuleFault parts.tables parts.source.program) }
{
    let EsModuleParts {
        specifier,
        source,
        tables,
    } = parts;
    EsModuleInfo::new(alloc, specifier, source, tables)
}

/// The answer to a request, or why it is refused: by a fault of the first module's tables before one of the second's, and both before ranges.
fn answer_request(alloc: Global, request: PairRequest) -> Result<Answer, Refusal>
    ensures answer { IfOk result (λ answer. AnswersPair request answer.line.items answer.status) }
    ensures refusal { IfErr result (RefusesPair request) }
{
    let PairRequest {
        graph,
        a,
        b,
        should_error_on_first_diagnostic,
    } = request;
    let Side {
        es_module,
        public_ranges,
    } = a;
    match checked_module(alloc, es_module) {
        Ok(info) => {
            let is_first = should_error_on_first_diagnostic;
            let first = CheckedSide {
                info: &info,
                ranges: &public_ranges,
            };
            answer_second(alloc, &graph, first, b, is_first)
        }
        Err(fault) => Err(Refusal::TableFault(fault)),
    }
}

/// The answer to a module whose tables have no fault and to a second one, or why they are refused: by a fault of the second's tables before ranges.
fn answer_second(
    alloc: Global,
    graph: &ModuleGraph,
    a: CheckedSide<'_>,
    b: Side,
    should_error_on_first_diagnostic: bool,
) -> Result<Answer, Refusal>
    ensures answer { IfOk result (λ answer. AnswersSecond graph.now a.entry.info.now a.entry.ranges.now b
        should_error_on_first_diagnostic answer.line.items answer.status) }
    ensures refusal { IfErr result (RefusesSecond a.entry.info.now a.entry.ranges.now b) }
{
    let Side {
        es_module,
        public_ranges,
    } = b;
    match checked_module(alloc, es_module) {
        Ok(info) => {
            let is_first = should_error_on_first_diagnostic;
            let second = CheckedSide {
                info: &info,
                ranges: &public_ranges,
            };
            answer_if_admitted(alloc, graph, a, second, is_first)
        }
        Err(fault) => Err(Refusal::TableFault(fault)),
    }
}

/// The answer to two modules, or why they are refused: the ranges of both have to be admitted.
fn answer_if_admitted(
    alloc: Global,
    graph: &ModuleGraph,
    a: CheckedSide<'_>,
    b: CheckedSide<'_>,
    should_error_on_first_diagnostic: bool,
) -> Result<Answer, Refusal>
    ensures answer { IfOk result (λ answer. AnswersModules graph.now a.entry.info.now a.entry.ranges.now b.entry.info.now b.entry.ranges.now
        should_error_on_first_diagnostic answer.line.items answer.status) }
    ensures refusal { IfErr result (RefusesModules a.entry.info.now a.entry.ranges.now b.entry.info.now b.entry.ranges.now) }
{
    if !a.info.admits(a.ranges) || !b.info.admits(b.ranges) {
        return Err(Refusal::RangesNotAdmitted);
    }
    let options = TransformOptions {
        workspace_members: Vec::new(alloc),
        should_error_on_first_diagnostic,
    };
    Ok(answer_modules(alloc, graph, a, b, &options)?)
}

/// The answer to two modules whose ranges are admitted.
fn answer_modules(
    alloc: Global,
    graph: &ModuleGraph,
    a: CheckedSide<'_>,
    b: CheckedSide<'_>,
    options: &TransformOptions,
) -> Result<Answer, AllocError>
    requires first_admitted { Admits a.info.now a.ranges.now }
    requires second_admitted { Admits b.info.now b.ranges.now }
    ensures { IfOk result (λ answer. IsPairAnswer graph.now a.entry.info.now a.entry.ranges.now b.entry.info.now b.entry.ranges.now
        options.now.should_error_on_first_diagnostic answer.line.items answer.status) }
{
    let (first, second) = transform_pair(
        alloc, graph, a.info, a.ranges, b.info, b.ranges, options,
    )?;
    Ok(Answer {
        status: status_of(&first, &second),
        line: line_of_answers(alloc, &first, &second)?,
    })
}

/// 0 where both are skeletons, else 1.
fn status_of(
    first: &Result<FastCheckModule, Vec<FastCheckDiagnostic>>,
    second: &Result<FastCheckModule, Vec<FastCheckDiagnostic>>,
) -> u8
    ensures { result ≡ status_of first.now second.now }
{
    if first.is_ok() && second.is_ok() {
        0
    } else {
        1
    }
}
