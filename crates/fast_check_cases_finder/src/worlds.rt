//! Follows the packages of each world of the file `worlds`, and prints what is found of each package. Then each is followed again, with the calls of its
//! provider refused from the first on, from the second on, and so forth.
//!
//! A world is a line of JSON: the input of `build`, with the two members `name` and `ranges`. The ranges are asked for in each module.
mod provider;
mod refused;
mod world;

use crate::worlds::provider::RefusingProvider;
use crate::worlds::refused::{refuse_calls, say_found};
use crate::worlds::world::World;
use fast_check_cases::Said;
use fast_check_json_tables::read_list;
use fast_check_program_requests::build_requests::{
    BuildRequest, read_build_request, root_symbol_of,
};
use fast_check_read::{InputFault, ReadError, read_input, read_text};
use fast_check_tables_graph::RootSymbol;
use fast_check_tables_modules::TableFault;
use fast_check_tree_syntax::SourceRange;
use serde_json::Value;
use std::alloc::Global;
use std::{fs, io};

/// Says what is found in a world, also with calls of the provider refused. Answers whether a call was.
fn say_packages_of(
    alloc: Global,
    world: &World,
    root_symbol: &RootSymbol,
    ranges: &[SourceRange],
    said: &mut Said,
) -> bool {
    let mut found = Said::new(alloc);
    say_found(alloc, world, root_symbol, ranges, &mut found);
    match found.text() {
        Some(text) => said.say(text),
        None => said.lack(),
    }
    refuse_calls(alloc, world, root_symbol, ranges, &found, said)
}

fn say_table_fault(fault: TableFault, said: &mut Said) {
    match fault {
        TableFault::OutOfMemory => said.lack(),
        _ => said.say("\n  bad tables"),
    }
}

/// Says what is found in a world, if its modules were made. Answers whether a call of its provider was refused.
fn say_world(
    alloc: Global,
    world: &World,
    made: &Result<RootSymbol, TableFault>,
    ranges: &[SourceRange],
    said: &mut Said,
) -> bool {
    match made {
        Ok(root_symbol) => say_packages_of(alloc, world, root_symbol, ranges, said),
        Err(fault) => {
            say_table_fault(*fault, said);
            false
        }
    }
}

fn say_request(
    alloc: Global,
    request: BuildRequest,
    ranges: &[SourceRange],
    said: &mut Said,
) -> bool {
    let BuildRequest {
        graph,
        modules,
        aliases,
        workspace_members,
        provider,
        pending,
        ..
    } = request;
    let world = World {
        graph,
        workspace_members,
        provider: RefusingProvider::new(provider),
        pending,
    };
    let made = root_symbol_of(alloc, modules, aliases);
    say_world(alloc, &world, &made, ranges, said)
}

/// Says what is wrong with a line. No call of a provider was refused.
fn say_refused(error: ReadError, said: &mut Said) -> bool {
    match error {
        ReadError::BadForm => said.say("\n  bad form"),
        ReadError::OutOfMemory => said.lack(),
    }
    false
}

fn say_ranges(alloc: Global, value: &Value, ranges: &[SourceRange], said: &mut Said) -> bool {
    match read_build_request(alloc, value) {
        Ok(request) => say_request(alloc, request, ranges, said),
        Err(error) => say_refused(error, said),
    }
}

fn read_name(value: &Value) -> Result<&str, ReadError> {
    read_text(value.get("name").ok_or(ReadError::BadForm)?)
}

/// Says the name of a world.
fn say_name(value: &Value, said: &mut Said) {
    match read_name(value) {
        Ok(name) => said.say_path("world ", name, ""),
        Err(_) => said.say("bad form"),
    }
}

/// Says the name of a world, and what is found in it. Answers whether a call of its provider was refused.
fn say_line(alloc: Global, value: &Value, said: &mut Said) -> bool {
    say_name(value, said);
    let ranges: Result<Vec<SourceRange>, ReadError> = read_list(alloc, value, "ranges");
    match ranges {
        Ok(ranges) => say_ranges(alloc, value, ranges.as_slice(), said),
        Err(error) => say_refused(error, said),
    }
}

fn say_text(alloc: Global, line: &str, said: &mut Said) -> bool {
    match read_input(alloc, line.as_bytes()) {
        Ok(value) => say_line(alloc, &value, said),
        Err(InputFault::NotJson) => {
            said.say("no JSON");
            false
        }
        Err(InputFault::OutOfMemory) => say_refused(ReadError::OutOfMemory, said),
    }
}

/// Runs the world of a line. Answers whether a call of its provider was refused.
fn run_line(rt: &HostRuntime, line: &str) -> io::Result<bool> {
    let mut said = Said::new(rt.alloc());
    let has_refused = say_text(rt.alloc(), line, &mut said);
    println!(rt; "{}", said.text().unwrap_or("out of memory"))?;
    Ok(has_refused)
}

/// Runs the worlds of the file `worlds`, and prints how many of them have a provider that was asked, and so refused.
pub fn run_finder_cases(rt: &HostRuntime) -> io::Result<()> {
    let worlds = fs::read_to_string(rt, "worlds")?;
    let mut refused: u64 = 0;
    for line in worlds.as_str().lines() {
        if run_line(rt, line)? {
            refused = refused.saturating_add(1);
        }
    }
    println!(rt; "worlds with calls that were refused: {refused}")
}
