//! Builds with a cache, one after the other: each line of the file `cached_builds` is a run, in JSON. The answers of each build and the items that it sets
//! are written.

use crate::read::{Run, fill, read_builds, read_name, read_run, say_refused};
use crate::run_cache::RunCache;
use crate::said_answers::say_answers;
use fast_check_build::answers::ModuleAnswer;
use fast_check_build::build_fast_check_type_graph;
use fast_check_build::transform_module::TransformOptions;
use fast_check_cases::Said;
use fast_check_program_requests::build_requests::{
    BuildRequest, read_build_request, root_symbol_of,
};
use fast_check_read::{InputFault, read_input};
use fast_check_tables_graph::{ModuleGraph, RootSymbol};
use fast_check_tables_modules::TableFault;
use fast_check_tables_packages::{BuildFault, ListedPackages, PackageNv};
use serde_json::Value;
use std::alloc::Global;
use std::collections::VecDeque;
use std::{fs, io};

/// What is built, beside its modules.
#[derive(Drop)]
struct Workspace {
    graph: ModuleGraph,
    provider: ListedPackages,
    pending: Vec<PackageNv>,
    options: TransformOptions,
}

/// What a build answers.
type Built = Result<Vec<ModuleAnswer>, BuildFault>;

/// What is answered without a cache.
fn build_plain(alloc: Global, workspace: &Workspace, root_symbol: &RootSymbol) -> Built {
    build_fast_check_type_graph(
        alloc,
        None,
        &workspace.provider,
        &workspace.graph,
        root_symbol,
        VecDeque::from(workspace.pending.clone()?),
        &workspace.options,
    )
}

/// What is answered with a cache.
fn build_cached(
    alloc: Global,
    cache: &mut RunCache,
    workspace: &Workspace,
    root_symbol: &RootSymbol,
) -> Built {
    build_fast_check_type_graph(
        alloc,
        Some(cache),
        &workspace.provider,
        &workspace.graph,
        root_symbol,
        VecDeque::from(workspace.pending.clone()?),
        &workspace.options,
    )
}

/// Says the answers with a cache beside those without.
fn say_beside(answers: &[ModuleAnswer], plain: &Built, said: &mut Said) {
    match plain {
        Ok(plain) => say_answers(answers, plain.as_slice(), said),
        Err(BuildFault::InvalidExport { .. }) => said.say("\n    no answer without a cache"),
        Err(BuildFault::OutOfMemory) => said.lack(),
    }
}

/// Says what is answered with a cache, or why nothing is.
fn say_built(alloc: Global, built: &Built, plain: &Built, said: &mut Said) {
    match built {
        Ok(answers) => say_beside(answers.as_slice(), plain, said),
        Err(fault) => said.say_made(format!(in alloc; "\n    {fault}")),
    }
}

/// Says the answers, and the items that were set.
fn say_build(
    alloc: Global,
    workspace: &Workspace,
    root_symbol: &RootSymbol,
    cache: &mut RunCache,
    said: &mut Said,
) {
    let plain = build_plain(alloc, workspace, root_symbol);
    let built = build_cached(alloc, cache, workspace, root_symbol);
    say_built(alloc, &built, &plain, said);
    cache.say_log(said);
}

/// Builds a workspace so many times.
fn say_builds(
    alloc: Global,
    workspace: &Workspace,
    root_symbol: &RootSymbol,
    times: u64,
    cache: &mut RunCache,
    said: &mut Said,
) {
    for _ in 0..times {
        said.say("\n  build");
        say_build(alloc, workspace, root_symbol, cache, said);
    }
}

/// Builds a workspace so many times, if its modules were made.
fn say_workspace(
    alloc: Global,
    workspace: &Workspace,
    made: &Result<RootSymbol, TableFault>,
    times: u64,
    cache: &mut RunCache,
    said: &mut Said,
) {
    match made {
        Ok(root_symbol) => say_builds(alloc, workspace, root_symbol, times, cache, said),
        Err(TableFault::OutOfMemory) => said.lack(),
        Err(_) => said.say("\n  bad tables"),
    }
}

fn say_request(
    alloc: Global,
    request: BuildRequest,
    times: u64,
    cache: &mut RunCache,
    said: &mut Said,
) {
    let BuildRequest {
        graph,
        modules,
        aliases,
        workspace_members,
        provider,
        pending,
        should_error_on_first_diagnostic,
    } = request;
    let workspace = Workspace {
        graph,
        provider,
        pending,
        options: TransformOptions {
            workspace_members,
            should_error_on_first_diagnostic,
        },
    };
    let made = root_symbol_of(alloc, modules, aliases);
    say_workspace(alloc, &workspace, &made, times, cache, said);
}

/// Builds each request with the cache of the run.
fn say_requests(
    alloc: Global,
    requests: &[Value],
    times: u64,
    cache: &mut RunCache,
    said: &mut Said,
) {
    for value in requests {
        match read_build_request(alloc, value) {
            Ok(request) => say_request(alloc, request, times, cache, said),
            Err(error) => say_refused(error, said),
        }
    }
}

fn say_run(alloc: Global, value: &Value, run: Run, said: &mut Said) {
    let mut cache = RunCache::new(alloc, run.traits);
    fill(alloc, value, &mut cache, said);
    match read_builds(value) {
        Ok(requests) => say_requests(alloc, requests.as_slice(), run.times, &mut cache, said),
        Err(error) => say_refused(error, said),
    }
}

fn say_name(value: &Value, said: &mut Said) {
    match read_name(value) {
        Ok(name) => said.say_path("run ", name, ""),
        Err(error) => say_refused(error, said),
    }
}

fn say_line(alloc: Global, value: &Value, said: &mut Said) {
    say_name(value, said);
    match read_run(alloc, value) {
        Ok(run) => say_run(alloc, value, run, said),
        Err(error) => say_refused(error, said),
    }
}

fn say_text(alloc: Global, line: &str, said: &mut Said) {
    match read_input(alloc, line.as_bytes()) {
        Ok(value) => say_line(alloc, &value, said),
        Err(InputFault::NotJson) => said.say("no JSON"),
        Err(InputFault::OutOfMemory) => said.lack(),
    }
}

fn run_line(rt: &HostRuntime, line: &str) -> io::Result<()> {
    let mut said = Said::new(rt.alloc());
    say_text(rt.alloc(), line, &mut said);
    println!(rt; "{}", said.text().unwrap_or("out of memory"))
}

/// Runs the lines of the file `cached_builds`.
pub fn run_cached_builds(rt: &HostRuntime) -> io::Result<()> {
    let runs = fs::read_to_string(rt, "cached_builds")?;
    for line in runs.as_str().lines() {
        run_line(rt, line)?;
    }
    Ok(())
}
