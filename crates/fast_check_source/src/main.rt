//! `fast-check-source [--input | --skeleton] [--text PATH FILE].. DIR ..`: reads the packages of each folder, and answers what `fast-check build` answers of them: a skeleton or
//! the diagnostics of each of their public modules, with what is wrong with their files, the packages, and the files that were read, as a line of JSON. Of the
//! folders behind `--input` it tells what `fast-check build` is asked, in place of the answers; of those after `--skeleton` it prints the skeletons as TypeScript,
//! each in a line of JSON with its path, and nothing else. In all folders behind `--text PATH FILE` the file at the path PATH
//! from the folder has the text of FILE, where it is there. The status is 2 where a package cannot be read, and else 1 where a module has diagnostics; 3 where
//! memory runs out, and 4 where a line cannot be printed, each with a line on standard error.
#![tactic(auto)]

ghost use Rattle.std.specs.Prelude.{◌≡◌, ◌≢◌, IsTrue, vec_len};

mod answers;
mod asked;
mod circles;
mod follow;
mod lines;
mod media;
mod members;
mod sources;
mod texts;
mod urls;
mod world;

use crate::answers::{Answered, build, input_of};
use crate::follow::{Found, Reading, modules_of};
use crate::lines::{Told, line_of};
use crate::texts::texts_of;
use anyhow::{Error, Result};
use fast_check_source_configs::messages::Messages;
use fast_check_source_configs::tsconfig::Projects;
use fast_check_source_files::files::{Files, Text};
use fast_check_source_files::messages::Message;
use fast_check_source_packages::packages::packages_of;
use fast_check_source_packages::resolve::{Package, package_at};
use std::alloc::{AllocError, Global};
use std::collections::BTreeSet;
use std::env::{self, Args};
use std::process::ExitCode;

// The folders of the packages in which errors lie, if each lies in one.
fn broken_folders<'a>(
    alloc: Global,
    packages: &'a [Package],
    errors: &[Message],
) -> Result<Option<BTreeSet<&'a str>>, AllocError> {
    let mut broken = BTreeSet::new(alloc);
    for error in errors {
        let Some(package) = package_at(packages, error.path.as_str()) else {
            return Ok(None);
        };
        let _ = broken.insert(package.folder.as_str())?;
    }
    Ok(Some(broken))
}

// The packages that can be read: those in which no error lies. One that lies in none of them is an error of all.
fn readable<'a>(
    alloc: Global,
    packages: &'a [Package],
    errors: &[Message],
) -> Result<Vec<&'a Package>, AllocError> {
    let mut kept = Vec::new(alloc);
    if let Some(broken) = broken_folders(alloc, packages, errors)? {
        for package in packages {
            if !broken.contains(&package.folder.as_str()) {
                kept.push(package)?;
            }
        }
    }
    Ok(kept)
}

// The status of a run: 2 where something cannot be read, else 1 where there is something to report.
fn status_of(messages: &Messages, has_diagnostics: bool) -> u8
    ensures unread { vec_len messages.now.errors.items ≢ 0 → result ≡ 2 }
    ensures faulty { vec_len messages.now.errors.items ≡ 0 → vec_len messages.now.faults.items ≢ 0 → result ≡ 1 }
    ensures diagnosed { vec_len messages.now.errors.items ≡ 0 → IsTrue has_diagnostics → result ≡ 1 }
    ensures clean { vec_len messages.now.errors.items ≡ 0 → vec_len messages.now.faults.items ≡ 0 → ¬ (IsTrue has_diagnostics) → result ≡ 0 }
{
    if !messages.errors.items.is_empty() {
        2
    } else if has_diagnostics || !messages.faults.items.is_empty() {
        1
    } else {
        0
    }
}

// What is asked of folders.
#[derive(Clone, Copy, PartialEq, Eq)]
enum Question {
    Answers,
    Input,
    Skeletons,
}

// What is told of the packages of a folder that can be read.
fn told_of(alloc: Global, packages: &[&Package], found: Found, asks_input: bool) -> Result<Told> {
    let (input, own_names) = input_of(alloc, packages, found, asks_input)?;
    if asks_input {
        return Ok(Told::Input(input));
    }
    if packages.is_empty() {
        return Ok(Told::Answers(Answered::new(alloc)));
    }
    Ok(Told::Answers(build(alloc, input, &own_names)?))
}

// What is answered of the packages of a folder: a line, and the status.
fn tell(
    alloc: Global,
    packages: &[Package],
    reading: Reading,
    asks: Question,
) -> Result<(String, u8)> {
    let Reading {
        found,
        read,
        messages,
        ..
    } = reading;
    let asked = readable(alloc, packages, messages.errors.items.as_slice())?;
    let told = told_of(alloc, asked.as_slice(), found, asks == Question::Input)?;
    let status = status_of(&messages, told.has_diagnostics());
    if let (Question::Skeletons, Told::Answers(answered)) = (asks, &told) {
        return Ok((texts_of(alloc, answered)?, status));
    }
    let line = line_of(alloc, told, &messages, packages, read.as_slice())?;
    Ok((line, status))
}

// What is answered of a folder: a line, and the status.
fn answer(rt: &HostRuntime, folder: &str, texts: &[Text], asks: Question) -> Result<(String, u8)> {
    let alloc = rt.alloc();
    let files = Files::new(rt, folder, texts)?;
    let mut messages = Messages::new(alloc);
    let mut projects = Projects::new(alloc);
    let packages = packages_of(&files, &mut projects, &mut messages)?;
    let reading = modules_of(&files, packages.as_slice(), projects, messages)?;
    tell(alloc, packages.as_slice(), reading, asks)
}

// What the words behind `--text` say, if there are two.
fn text_of(words: &mut Args) -> Option<Text> {
    let path = words.next()?;
    let file = words.next()?;
    Some(Text { path, file })
}

// Says in a line why a run ends early, and answers its status.
fn fail(rt: &HostRuntime, why: Error, status: u8) -> u8
    ensures { result ≡ status }
{
    let _ = eprintln!(rt; "error: {why}");
    status
}

// Prints the line of each folder that the words name, and answers the status.
fn run(rt: &HostRuntime) -> Result<u8> {
    let mut words = env::args(rt)?;
    let _ = words.next();
    let mut texts = Vec::new(rt.alloc());
    let mut status = 0;
    let mut asks = Question::Answers;
    for _turn in 0..u64::MAX {
        let Some(word) = words.next() else {
            break;
        };
        if word.as_str() == "--input" {
            asks = Question::Input;
        } else if word.as_str() == "--skeleton" {
            asks = Question::Skeletons;
        } else if word.as_str() != "--text" {
            let (line, own) = answer(rt, word.as_str(), texts.as_slice(), asks)?;
            if let Err(why) = println!(rt; "{line}") {
                return Ok(fail(rt, why.into(), 4));
            }
            status = own.max(status);
        } else if let Some(text) = text_of(&mut words) {
            texts.push(text)?;
        } else {
            eprintln!(rt; "error: `--text` wants a path and a file")?;
            return Ok(2);
        }
    }
    Ok(status)
}

fn main(rt: HostRuntime) -> ExitCode {
    let status = match run(&rt) {
        Ok(status) => status,
        Err(why) => fail(&rt, why, 3),
    };
    ExitCode::from(status)
}
