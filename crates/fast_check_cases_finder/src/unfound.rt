//! The two kinds of diagnostics that neither finder nor transform finds.

use crate::said_answers::say_diagnostic;
use crate::written::say_written;
use fast_check_cases::Said;
use fast_check_print::print_diagnostics;
use fast_check_tables_diagnostics::FastCheckDiagnostic;
use json::Writer;
use std::alloc::{AllocError, Global};
use std::{array, io};
use url::Url;

/// The module that both are reported of, None if memory runs out.
fn specifier(alloc: Global) -> Option<Url> {
    Url::parse(alloc, "file:///p/mod.ts").ok()
}

fn cached(alloc: Global) -> Option<FastCheckDiagnostic> {
    let specifier = specifier(alloc)?;
    Some(FastCheckDiagnostic::Cached { specifier })
}

fn emit(alloc: Global) -> Option<FastCheckDiagnostic> {
    let inner = String::from_str(alloc, "no \"text\"").ok()?;
    let specifier = specifier(alloc)?;
    Some(FastCheckDiagnostic::Emit { specifier, inner })
}

/// Says the JSON of a copy, if it was made.
fn say_json(alloc: Global, copy: &Result<FastCheckDiagnostic, AllocError>, said: &mut Said) {
    match copy {
        Ok(copy) => {
            let mut out = Writer::new(Vec::new(alloc));
            let done = print_diagnostics(alloc, &mut out, array::from_ref(copy));
            say_written(out, done, said);
        }
        Err(_) => said.lack(),
    }
}

/// Says the JSON of a copy.
fn say_copy(alloc: Global, diagnostic: &FastCheckDiagnostic, said: &mut Said) {
    let copy: Result<FastCheckDiagnostic, AllocError> = diagnostic.clone();
    say_json(alloc, &copy, said);
}

/// Says the JSON of a copy, and all texts of a diagnostic.
fn say_all(alloc: Global, diagnostic: &FastCheckDiagnostic, said: &mut Said) {
    say_copy(alloc, diagnostic, said);
    say_diagnostic(alloc, diagnostic, said);
    said.say("\n");
}

/// Says a diagnostic that was made, if it was.
fn say_made(alloc: Global, made: &Option<FastCheckDiagnostic>, said: &mut Said) {
    match made {
        Some(diagnostic) => say_all(alloc, diagnostic, said),
        None => said.lack(),
    }
}

fn say_cached(alloc: Global, said: &mut Said) {
    let made = cached(alloc);
    say_made(alloc, &made, said);
}

fn say_emit(alloc: Global, said: &mut Said) {
    let made = emit(alloc);
    say_made(alloc, &made, said);
}

/// Prints the texts of both kinds.
pub fn run_unfound_cases(rt: &HostRuntime) -> io::Result<()> {
    let mut said = Said::new(rt.alloc());
    say_cached(rt.alloc(), &mut said);
    say_emit(rt.alloc(), &mut said);
    print!(rt; "{}", said.text().unwrap_or("out of memory\n"))
}
