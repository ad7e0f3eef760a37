//! Calls on what is demanded of a module, and on the modules that were followed or wait to be.

use crate::names::packages::package_of;
use crate::names::sets::{name_and_rest, say_set, set_of};
use crate::said::Said;
use fast_check_finder_lattice::{
    FileDepName, HandledExports, ImportedExports, PendingTrace, PendingTraces,
};
use std::alloc::{AllocError, Global};
use url::Url;

/// What is demanded of a module, as it is written.
fn demand_of(alloc: Global, words: &[String], said: &mut Said) -> ImportedExports {
    match words {
        [word] if word.as_str() == "*" => ImportedExports::star(),
        [word] if word.as_str() == "**" => ImportedExports::star_with_default(),
        _ => ImportedExports::subset(set_of(alloc, words, said)),
    }
}

fn say_demand(alloc: Global, demand: &ImportedExports, said: &mut Said) {
    match demand {
        ImportedExports::Star => said.say(" *"),
        ImportedExports::StarWithDefault => said.say(" **"),
        ImportedExports::Subset(set) => say_set(alloc, set, said),
    }
}

fn say_answer(alloc: Global, answer: &Option<ImportedExports>, said: &mut Said) {
    said.say("answers");
    match answer {
        None => said.say(" nothing"),
        Some(demand) => say_demand(alloc, demand, said),
    }
}

fn file_dep_name(alloc: Global, words: &[String], said: &mut Said) -> FileDepName {
    let (name, _) = name_and_rest(words);
    if name == "*" {
        FileDepName::Star
    } else {
        FileDepName::Name(said.copy(alloc, name))
    }
}

/// What a copy of the name demands.
fn demand_by_copy(alloc: Global, name: &FileDepName) -> Result<ImportedExports, AllocError> {
    ImportedExports::from_file_dep_name(alloc, &name.clone()?)
}

fn from_file_dep_name(
    alloc: Global,
    demand: &mut ImportedExports,
    words: &[String],
    said: &mut Said,
) {
    let name = file_dep_name(alloc, words, said);
    match demand_by_copy(alloc, &name) {
        Ok(made) => *demand = made,
        Err(_) => said.lack(),
    }
}

fn add(alloc: Global, demand: &mut ImportedExports, words: &[String], said: &mut Said) {
    match demand.add(alloc, demand_of(alloc, words, said)) {
        Ok(answer) => {
            say_answer(alloc, &answer, said);
            said.say(", ");
        }
        Err(_) => said.lack(),
    }
}

/// Makes a call on the demands of a module, if the command is one, and says its answer and the demands behind it.
/// Answers whether the command is one.
pub fn call(
    alloc: Global,
    demand: &mut ImportedExports,
    command: &str,
    words: &[String],
    said: &mut Said,
) -> bool {
    match command {
        "demand" => *demand = demand_of(alloc, words, said),
        "from_file_dep_name" => from_file_dep_name(alloc, demand, words, said),
        "add_demand" => add(alloc, demand, words, said),
        _ => return false,
    }
    said.say("leaves");
    say_demand(alloc, demand, said);
    true
}

/// Follows a module: its URL, and what is demanded of it.
pub fn handle(alloc: Global, handled: &mut HandledExports, words: &[String], said: &mut Said) {
    let (module, demand) = name_and_rest(words);
    match Url::parse(alloc, module) {
        Ok(module) => follow(alloc, handled, &module, demand, said),
        Err(_) => said.say("no URL"),
    }
}

fn follow(
    alloc: Global,
    handled: &mut HandledExports,
    module: &Url,
    demand: &[String],
    said: &mut Said,
) {
    match handled.add(alloc, module, demand_of(alloc, demand, said)) {
        Ok(answer) => say_answer(alloc, &answer, said),
        Err(_) => said.lack(),
    }
}

/// Lets a module wait: the package by name and major number, its URL, and what is demanded of it.
pub fn wait(alloc: Global, pending: &mut PendingTraces, words: &[String], said: &mut Said) {
    let (name, words) = name_and_rest(words);
    let (major, words) = name_and_rest(words);
    let (module, demand) = name_and_rest(words);
    match Url::parse(alloc, module) {
        Ok(module) => {
            let package = package_of(alloc, name, major, said);
            let added = pending.add(alloc, package, module, demand_of(alloc, demand, said));
            said.note(added);
            said.say("waits");
        }
        Err(_) => said.say("no URL"),
    }
}

/// Says the package, the module and the demand that are taken.
pub fn pop(alloc: Global, pending: &mut PendingTraces, said: &mut Said) {
    match pending.pop() {
        None => said.say("answers nothing"),
        Some(trace) => say_trace(alloc, &trace, said),
    }
}

fn say_trace(alloc: Global, trace: &PendingTrace, said: &mut Said) {
    said.say_made(format!(in alloc; "answers {} {}", trace.package_nv, trace.specifier));
    say_demand(alloc, &trace.exports_to_trace, said);
}
