//! `fast-check transform FILE`, without the other commands: the fast check of one TypeScript module, from a JSON file to a line of JSON.
#![tactic(auto)]

use fast_check_program_requests::{Lines, read_call, run_commands};
use fast_check_program_transform::Transform;
use std::process::ExitCode;

fn main(rt: HostRuntime) -> ExitCode {
    let mut out = Lines {
        writer: rt.stdout(),
    };
    let mut err = Lines {
        writer: rt.stderr(),
    };
    let ending = match read_call::<Transform, _>(&rt) {
        Ok((words, file)) => {
            run_commands::<Transform, _, _, _>(
                rt.alloc(),
                words.as_slice(),
                file,
                &mut out,
                &mut err,
            )
        }
        Err(refusal) => refusal.write_line(&mut err),
    };
    ExitCode::from(ending.status)
}
