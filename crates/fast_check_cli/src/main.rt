//! `fast-check (build|transform|pair) FILE`: the fast check of TypeScript modules and packages, from a JSON file to a line of JSON.
#![tactic(auto)]

use fast_check_program_commands::{AnyCommand, Lines, read_call, run};
use std::process::ExitCode;

fn main(rt: HostRuntime) -> ExitCode {
    let mut out = Lines {
        writer: rt.stdout(),
    };
    let mut err = Lines {
        writer: rt.stderr(),
    };
    let status = match read_call::<AnyCommand, _>(&rt) {
        Ok((words, file)) => run(rt.alloc(), words.as_slice(), file, &mut out, &mut err),
        Err(refusal) => refusal.write_line(&mut err).status,
    };
    ExitCode::from(status)
}
