//! Runs each line of the file `forms`, and prints what comes.
//!
//! - `print FORM JSON` reads the value where the form stands, and prints the tree again.
//! - `odd NAME` prints a tree that no JSON is read as.
//! - `make NAME` prints what a call makes that no transform calls.
//! - `form NAME` says the fields of a form that is made, each of which tells its place.
//! - `returns JSON` says how the block of statements returns.
//!
//! What is not of its form is `refused`.
mod cases;
mod fields;
mod made;
mod names;
mod odd;

use crate::forms::cases::say_case;
use crate::said::Said;
use std::{fs, io};

fn run(rt: &HostRuntime, cases: &str) -> io::Result<()> {
    for line in cases.lines() {
        run_line(rt, line)?;
    }
    Ok(())
}

fn run_line(rt: &HostRuntime, line: &str) -> io::Result<()> {
    if line.starts_with('#') {
        return println!(rt; "{line}");
    }
    let mut said = Said::new(rt.alloc());
    say_case(rt.alloc(), line, &mut said);
    println!(rt; "{}", said.text().unwrap_or("out of memory"))
}

/// Runs the lines of the file `forms`.
pub fn run_form_cases(rt: &HostRuntime) -> io::Result<()> {
    let cases = fs::read_to_string(rt, "forms")?;
    run(rt, cases.as_str())
}
