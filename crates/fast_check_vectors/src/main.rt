//! The program of all cases. A part is runs of `fast-check`, with the words of each line of the file `cases`: printed is what it writes and
//! its status. As in a shell a line may redirect: `<broken` makes reading fail where the file ends, and `>closed` and `2>closed` make an output
//! take nothing. The other parts are single calls, by libraries of their own. Without words all parts run, and else those that the words name.
#![tactic(auto)]

mod streams;

use crate::streams::{Input, Output};
use anyhow::{Result, bail};
use fast_check_cases::{run_form_cases, run_name_cases, run_place_cases};
use fast_check_cases_cache::{run_cache_cases, run_cached_builds};
use fast_check_cases_example::{run_example, run_json, run_versions};
use fast_check_cases_finder::{
    run_deep_cases, run_fault_cases, run_finder_cases, run_transformer_cases, run_unfound_cases,
};
use fast_check_program_commands::{AnyCommand, Ending, Lines, run_commands};
use std::alloc::AllocError;
use std::fs::File;
use std::io::Write;
use std::{env, fs, io};

/// All parts.
const PARTS: [&str; 14] = [
    "runs",
    "json",
    "example",
    "versions",
    "caches",
    "cached_builds",
    "forms",
    "names",
    "places",
    "unfound",
    "faults",
    "worlds",
    "transformers",
    "deep",
];

/// Runs `fast-check` with the words of each line of the file `cases`.
fn run_vectors(rt: &HostRuntime) -> io::Result<()> {
    let cases = fs::read_to_string(rt, "cases")?;
    let mut out = rt.stdout();
    for line in cases.as_str().lines() {
        run_case(rt, line, &mut out)?;
    }
    Ok(())
}

/// Runs `fast-check` with the words of a line, if it has any.
fn run_case<W: Write>(rt: &HostRuntime, line: &str, out: &mut W) -> io::Result<()> {
    if line.starts_with('#') {
        return println!(rt; "{line}");
    }
    println!(rt; "$ fast-check {line}")?;
    let ending = run_line(rt, line, out)?;
    println!(rt; "status {}", ending.status)?;
    if ending.is_written {
        return Ok(());
    }
    println!(rt; "the line was not taken")
}

/// Runs the part of this name.
fn run_part(rt: &HostRuntime, part: &str) -> Result<()> {
    match part {
        "runs" => Ok(run_vectors(rt)?),
        "json" => run_json(rt, "build_hello.json"),
        "example" => run_example(rt),
        "versions" => run_versions(rt),
        "caches" => Ok(run_cache_cases(rt)?),
        "cached_builds" => Ok(run_cached_builds(rt)?),
        "forms" => Ok(run_form_cases(rt)?),
        "names" => Ok(run_name_cases(rt)?),
        "places" => Ok(run_place_cases(rt)?),
        "unfound" => Ok(run_unfound_cases(rt)?),
        "faults" => Ok(run_fault_cases(rt)?),
        "worlds" => Ok(run_finder_cases(rt)?),
        "transformers" => Ok(run_transformer_cases(rt)?),
        "deep" => Ok(run_deep_cases(rt)?),
        other => bail!("no part: {other}"),
    }
}

fn run_all(rt: &HostRuntime) -> Result<()> {
    for part in PARTS {
        run_part(rt, part)?;
    }
    Ok(())
}

fn main(rt: HostRuntime) -> Result<()> {
    let mut is_named = false;
    for part in env::args(&rt)?.skip(1) {
        is_named = true;
        run_part(&rt, part.as_str())?;
    }
    if is_named { Ok(()) } else { run_all(&rt) }
}

/// Runs the program with the words of a line. Both its outputs go to `out`.
fn run_line<W: Write>(rt: &HostRuntime, line: &str, out: &mut W) -> io::Result<Ending> {
    let words = words(rt, line)?;
    let input = input_of(rt, line, words.as_slice());
    run_words(rt, line, words.as_slice(), input, out)
}

/// The file that the words of a line name, if there are two and it opens.
fn input_of(rt: &HostRuntime, line: &str, words: &[String]) -> Option<Input> {
    match words {
        [_, path] => match File::open(rt, path.as_str()) {
            Ok(file) => Some(Input::new(file, redirects(line, "<broken"))),
            Err(_) => None,
        },
        _ => None,
    }
}

fn run_words<W: Write>(
    rt: &HostRuntime,
    line: &str,
    words: &[String],
    input: Option<Input>,
    out: &mut W,
) -> io::Result<Ending> {
    let mut answer = output(rt, line, ">closed");
    let mut errors = output(rt, line, "2>closed");
    let ending = run_commands::<AnyCommand, _, _, _>(
        rt.alloc(),
        words,
        input,
        &mut answer,
        &mut errors,
    );
    write_both(out, answer.writer.bytes(), errors.writer.bytes())?;
    Ok(ending)
}

/// An output, which takes nothing where the line has this redirection.
fn output(rt: &HostRuntime, line: &str, redirection: &str) -> Lines<Output> {
    Lines {
        writer: Output::new(rt.alloc(), redirects(line, redirection)),
    }
}

fn write_both<W: Write>(out: &mut W, answer: &[u8], errors: &[u8]) -> io::Result<()> {
    out.write_all(answer)?;
    out.write_all(errors)
}

/// Whether a line has this redirection.
fn redirects(line: &str, redirection: &str) -> bool {
    line.split_whitespace().any(|word| word == redirection)
}

/// The words of a line that redirect nothing.
fn words(rt: &HostRuntime, line: &str) -> Result<Vec<String>, AllocError> {
    let mut words = Vec::new(rt.alloc());
    for word in line.split_whitespace() {
        if !matches!(word, "<broken" | ">closed" | "2>closed") {
            words.push(String::from_str(rt.alloc(), word)?)?;
        }
    }
    Ok(words)
}
