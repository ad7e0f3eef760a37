//! Transforms the module of `deep.json` with trees that are nested deeper than JSON can be: one for each line of the file `deep`, which says how many
//! parentheses stand around the value, and of how many arrays its type is. Prints the skeleton, and whether a copy of it is equal to it.
mod trees;

use crate::deep::trees::deep_module;
use crate::modules::module_of;
use crate::written::say_written;
use fast_check_cases::Said;
use fast_check_print::print_tree;
use fast_check_program_requests::{EsModuleParts, Refusal, TransformRequest, read_request};
use fast_check_read::schema::Form;
use fast_check_tables_diagnostics::parsed_source::ParsedSource;
use fast_check_tables_graph::ModuleGraph;
use fast_check_tables_modules::diagnostics::ModulePublicRanges;
use fast_check_tables_modules::{EsModuleInfo, TableFault};
use fast_check_transform_module::{TransformOptions, transform};
use fast_check_tree_syntax::{Kind, Tree, clone_tree};
use json::Writer;
use std::alloc::Global;
use std::{fs, io};

/// The numbers of a line, 0 where one is missing.
fn numbers(line: &str) -> (u32, u32) {
    let mut words = line.split_whitespace();
    (number(words.next()), number(words.next()))
}

fn number(word: Option<&str>) -> u32 {
    match word {
        Some(word) => word.parse::<u32>().unwrap_or(0),
        None => 0,
    }
}

/// Says whether a copy of a tree is equal to it.
fn say_copy(alloc: Global, program: &Tree, said: &mut Said) {
    match clone_tree(alloc, program) {
        Ok(copy) => said.say_flag(copy == *program),
        Err(_) => said.lack(),
    }
}

fn say_skeleton(alloc: Global, program: &Tree, said: &mut Said) {
    let mut out = Writer::new(Vec::new(alloc));
    let done = print_tree(&mut out, program, Form::Struct(Kind::Module));
    say_written(out, done, said);
    said.say("\n    its copy is equal to it: ");
    say_copy(alloc, program, said);
}

/// Transforms a module, and says its skeleton.
fn say_module(
    alloc: Global,
    graph: &ModuleGraph,
    info: &EsModuleInfo,
    public_ranges: &ModulePublicRanges,
    said: &mut Said,
) {
    if !info.admits(public_ranges) {
        said.say(Refusal::RangesNotAdmitted.line());
        return;
    }
    let options = TransformOptions {
        workspace_members: Vec::new(alloc),
        should_error_on_first_diagnostic: false,
    };
    match transform(alloc, graph, info, public_ranges, &options) {
        Ok(Ok(module)) => say_skeleton(alloc, &module.program, said),
        Ok(Err(_)) => said.say("faults"),
        Err(_) => said.lack(),
    }
}

/// Says what comes of a module, if it was made.
fn say_made(
    alloc: Global,
    graph: &ModuleGraph,
    made: &Result<EsModuleInfo, TableFault>,
    public_ranges: &ModulePublicRanges,
    said: &mut Said,
) {
    match made {
        Ok(info) => say_module(alloc, graph, info, public_ranges, said),
        Err(fault) => said.say(Refusal::from(*fault).line()),
    }
}

/// The parts of a module, with another tree.
fn with_program(parts: EsModuleParts, program: Tree) -> EsModuleParts {
    let EsModuleParts {
        specifier,
        source,
        tables,
    } = parts;
    let source = ParsedSource { program, ..source };
    EsModuleParts {
        specifier,
        source,
        tables,
    }
}

/// Transforms the module of a request, with the tree of a line.
fn say_request(alloc: Global, request: TransformRequest, line: &str, said: &mut Said) {
    let (parentheses, arrays) = numbers(line);
    let program = deep_module(alloc, parentheses, arrays, said);
    let TransformRequest {
        graph,
        es_module,
        public_ranges,
        ..
    } = request;
    let made = module_of(alloc, with_program(es_module, program));
    say_made(alloc, &graph, &made, &public_ranges, said);
}

/// The request in a copy of the bytes.
fn read_copy(alloc: Global, bytes: &[u8]) -> Result<TransformRequest, Refusal> {
    read_request(alloc, bytes.to_vec(alloc)?)
}

fn say_line(alloc: Global, bytes: &[u8], line: &str, said: &mut Said) {
    match read_copy(alloc, bytes) {
        Ok(request) => say_request(alloc, request, line, said),
        Err(refusal) => said.say(refusal.line()),
    }
}

fn say_lines(alloc: Global, bytes: &[u8], lines: &str, said: &mut Said) {
    for line in lines.lines() {
        said.say_path("", line, "\n    ");
        say_line(alloc, bytes, line, said);
        said.say("\n");
    }
}

/// Runs the lines of the file `deep`.
pub fn run_deep_cases(rt: &HostRuntime) -> io::Result<()> {
    let lines = fs::read_to_string(rt, "deep")?;
    let bytes = fs::read(rt, "deep.json")?;
    let mut said = Said::new(rt.alloc());
    say_lines(rt.alloc(), bytes.as_slice(), lines.as_str(), &mut said);
    print!(rt; "{}", said.text().unwrap_or("no memory\n"))
}
