//! The packages of a folder: the JSON that `fast-check-ts input` writes is read, built, and printed as JSON. docs/LIBRARY.md begins with this file.

use anyhow::Result;
use fast_check::build::{ModuleAnswer, build_fast_check_type_graph};
use fast_check::provider::IndexedPackages;
use fast_check::transform::TransformOptions;
use fast_check_print::print_answers;
use fast_check_program_requests::build_requests::{
    BuildRequest, read_build_request, root_symbol_of,
};
use fast_check_program_requests::take_input;
use json::Writer;
use std::alloc::{AllocError, Global};
use std::collections::VecDeque;
use std::{fs, str};

/// Reads the graph, the packages and their modules.
fn read(rt: &HostRuntime, path: &str) -> Result<BuildRequest> {
    let bytes = fs::read(rt, path)?;
    let value = take_input(rt.alloc(), bytes)?;
    Ok(read_build_request(rt.alloc(), &value)?)
}

/// Finds the public API of the packages, and answers each module by its skeleton, or each entry point by the errors.
fn build(alloc: Global, request: BuildRequest) -> Result<Vec<ModuleAnswer>> {
    let BuildRequest {
        graph,
        modules,
        aliases,
        workspace_members,
        provider,
        pending,
        should_error_on_first_diagnostic,
    } = request;
    let root_symbol = root_symbol_of(alloc, modules, aliases)?;
    let provider = IndexedPackages::new(alloc, provider)?;
    let options = TransformOptions {
        workspace_members,
        should_error_on_first_diagnostic,
    };
    let pending_nvs = VecDeque::from(pending);
    let answers = build_fast_check_type_graph(
        alloc,
        None,
        &provider,
        &graph,
        &root_symbol,
        pending_nvs,
        &options,
    );
    Ok(answers?)
}

/// The answers as JSON.
fn print(alloc: Global, answers: Vec<ModuleAnswer>) -> Result<Vec<u8>, AllocError> {
    let mut out = Writer::new(Vec::new(alloc));
    print_answers(alloc, &mut out, answers)?;
    Ok(out.into_inner())
}

pub fn run_json(rt: &HostRuntime, path: &str) -> Result<()> {
    let request = read(rt, path)?;
    let answers = build(rt.alloc(), request)?;
    let line = print(rt.alloc(), answers)?;
    println!(rt; "{}", str::from_utf8(line.as_slice())?)?;
    Ok(())
}
