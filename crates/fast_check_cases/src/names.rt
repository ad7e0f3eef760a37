//! Runs the calls of the file `names` on sets of demanded names, and prints what each answers and leaves.
//!
//! A line is a call: its name, and its words. A set is written by its paths, as `a b.b1 c.`: the name `a` whole, `b1` whole below `b`, and a subset
//! without names below `c`. What is demanded of a module is a set, `*` for all names but `default`, or `**` for all names.
mod demands;
mod packages;
mod sets;

use crate::names::sets::{call_below, call_on_set};
use crate::said::Said;
use fast_check_finder_lattice::{
    Exports, HandledExports, ImportedExports, NamedSubset, PendingTraces,
};
use std::alloc::Global;
use std::{fs, io};

/// The values that the calls go to.
#[derive(Drop)]
struct Case {
    set: NamedSubset,
    below: Exports,
    demand: ImportedExports,
    handled: HandledExports,
    pending: PendingTraces,
}

/// Says what the call of a line answers and leaves.
fn call(alloc: Global, case: &mut Case, command: &str, words: &[String], said: &mut Said) {
    if call_on_set(alloc, &mut case.set, command, words, said)
        || call_below(alloc, &mut case.below, command, words, said)
        || demands::call(alloc, &mut case.demand, command, words, said)
    {
        return;
    }
    match command {
        "handle" => demands::handle(alloc, &mut case.handled, words, said),
        "wait" => demands::wait(alloc, &mut case.pending, words, said),
        "pop" => demands::pop(alloc, &mut case.pending, said),
        "as_nv" => packages::as_nv(alloc, words, said),
        _ => said.say("no such call"),
    }
}

/// No name, no demand and no module.
fn start(alloc: Global) -> Case {
    Case {
        set: NamedSubset::default(alloc),
        below: Exports::subset(alloc),
        demand: ImportedExports::star(),
        handled: HandledExports::default(alloc),
        pending: PendingTraces::default(alloc),
    }
}

fn words_of(alloc: Global, line: &str, said: &mut Said) -> Vec<String> {
    let mut words = Vec::new(alloc);
    for word in line.split_whitespace() {
        if words.push(said.copy(alloc, word)).is_err() {
            said.lack();
        }
    }
    words
}

/// Says what the call of a line answers and leaves, if it has one.
fn say_line(alloc: Global, case: &mut Case, line: &str, said: &mut Said) {
    let words = words_of(alloc, line, said);
    if let Some((command, words)) = words.split_first() {
        if command.as_str() != "#" {
            said.say("\n    ");
            call(alloc, case, command.as_str(), words, said);
        }
    }
}

/// Prints a line, and what comes of it.
fn run_line(rt: &HostRuntime, case: &mut Case, line: &str) -> io::Result<()> {
    let mut said = Said::new(rt.alloc());
    say_line(rt.alloc(), case, line, &mut said);
    println!(rt; "{line}{}", said.text().unwrap_or("\n    out of memory"))
}

fn run(rt: &HostRuntime, case: &mut Case, cases: &str) -> io::Result<()> {
    for line in cases.lines() {
        run_line(rt, case, line)?;
    }
    Ok(())
}

/// Runs the lines of the file `names`.
pub fn run_name_cases(rt: &HostRuntime) -> io::Result<()> {
    let cases = fs::read_to_string(rt, "names")?;
    let mut case = start(rt.alloc());
    run(rt, &mut case, cases.as_str())
}
