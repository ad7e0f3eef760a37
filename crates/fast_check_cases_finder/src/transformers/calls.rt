//! Calls of a transformer, and what comes of them.
use crate::modules::module_of;
use crate::said_answers::say_diagnostic;
use fast_check_cases::Said;
use fast_check_program_requests::{Refusal, TransformRequest};
use fast_check_tables_graph::ModuleGraph;
use fast_check_tables_modules::diagnostics::{Diagnostic, FastCheckDiagnostic, ModulePublicRanges};
use fast_check_tables_modules::{EsModuleInfo, TableFault};
use fast_check_transform_pair::FastCheckTransformer;
use std::alloc::Global;

/// Says the code of each diagnostic, and the place where it begins.
fn say_codes(alloc: Global, diagnostics: &[FastCheckDiagnostic], said: &mut Said) {
    for diagnostic in diagnostics {
        said.say(" ");
        said.say(diagnostic.code());
        if let Some(place) = diagnostic.range() {
            said.say_made(format!(in alloc; " at {}", place.range.start.0));
        }
    }
}

/// Says all of each diagnostic.
fn say_diagnostics(alloc: Global, diagnostics: &[FastCheckDiagnostic], said: &mut Said) {
    for diagnostic in diagnostics {
        said.say_path("    refused: ", diagnostic.code(), "");
        say_diagnostic(alloc, diagnostic, said);
        said.say("\n");
    }
}

/// Makes one call, and says what it answers.
fn say_answer(alloc: Global, transformer: &mut FastCheckTransformer<'_>, said: &mut Said) {
    match transformer.transform(alloc) {
        Ok(Ok(_)) => said.say("    a module\n"),
        Ok(Err(diagnostics)) => say_diagnostics(alloc, diagnostics.as_slice(), said),
        Err(_) => said.lack(),
    }
}

/// Makes one call, and says its answer and the diagnostics that are kept then.
fn say_call(alloc: Global, transformer: &mut FastCheckTransformer<'_>, said: &mut Said) {
    say_answer(alloc, transformer, said);
    said.say("    kept:");
    say_codes(alloc, transformer.diagnostics(), said);
    said.say("\n");
}

/// Makes two calls.
fn say_two(alloc: Global, mut transformer: FastCheckTransformer<'_>, said: &mut Said) {
    say_call(alloc, &mut transformer, said);
    say_call(alloc, &mut transformer, said);
}

/// Makes the calls for a module.
fn say_module(
    alloc: Global,
    graph: &ModuleGraph,
    info: &EsModuleInfo,
    public_ranges: &ModulePublicRanges,
    said: &mut Said,
) {
    if !info.admits(public_ranges) {
        said.say(Refusal::RangesNotAdmitted.line());
        return;
    }
    said.say("  all\n");
    let all = FastCheckTransformer::new(graph, info, public_ranges, false);
    say_two(alloc, all, said);
    said.say("  the first alone\n");
    let first_alone = FastCheckTransformer::new(graph, info, public_ranges, true);
    say_two(alloc, first_alone, said);
}

/// Makes the calls for a module, if it was made.
fn say_made(
    alloc: Global,
    graph: &ModuleGraph,
    made: &Result<EsModuleInfo, TableFault>,
    public_ranges: &ModulePublicRanges,
    said: &mut Said,
) {
    match made {
        Ok(info) => say_module(alloc, graph, info, public_ranges, said),
        Err(fault) => said.say(Refusal::from(*fault).line()),
    }
}

/// Makes two calls without the option, and two with it.
pub fn say_calls(alloc: Global, request: TransformRequest, said: &mut Said) {
    let TransformRequest {
        graph,
        es_module,
        public_ranges,
        ..
    } = request;
    let made = module_of(alloc, es_module);
    say_made(alloc, &graph, &made, &public_ranges, said);
}
