//! Transforms the module of each file that `transformers` names by one transformer, twice, first without the option that answers the first fault alone, and then
//! with it. Prints what each call answers, and which diagnostics are kept then, each by its code and the place where it begins.
mod calls;

use crate::transformers::calls::say_calls;
use fast_check_cases::Said;
use fast_check_program_requests::read_request;
use std::alloc::Global;
use std::{fs, io};

/// Transforms the module of the bytes of a file.
fn say_file(alloc: Global, bytes: Vec<u8>, said: &mut Said) {
    match read_request(alloc, bytes) {
        Ok(request) => say_calls(alloc, request, said),
        Err(refusal) => said.say(refusal.line()),
    }
}

fn run_file(rt: &HostRuntime, name: &str) -> io::Result<()> {
    println!(rt; "{name}")?;
    let bytes = fs::read(rt, name)?;
    let mut said = Said::new(rt.alloc());
    say_file(rt.alloc(), bytes, &mut said);
    println!(rt; "{}", said.text().unwrap_or("no memory"))
}

/// Runs the files that the file `transformers` names.
pub fn run_transformer_cases(rt: &HostRuntime) -> io::Result<()> {
    let cases = fs::read_to_string(rt, "transformers")?;
    for name in cases.as_str().lines() {
        run_file(rt, name)?;
    }
    Ok(())
}
