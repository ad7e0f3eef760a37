//! The line that is printed for a folder.
use crate::answers::Answered;
use crate::follow::{Lead, ReadFile};
use fast_check_print::print_answers;
use fast_check_source_configs::messages::Messages;
use fast_check_source_files::messages::Message;
use fast_check_source_input::{Input, Json, print_input};
use fast_check_source_packages::exports::{Entry, Taken};
use fast_check_source_packages::resolve::Package;
use json::Writer;
use std::alloc::{AllocError, Global};
use url::Url;

fn print_message(out: &mut Json, message: &Message) {
    out.begin_object();
    out.named("path", message.path.as_str());
    out.key("line");
    out.number(message.line as u64);
    out.key("column");
    out.number(message.column as u64);
    out.named("code", message.code);
    out.named("message", message.text.as_str());
    out.end_object();
}

fn print_messages(out: &mut Json, name: &str, messages: &[Message]) {
    out.key(name);
    out.begin_array();
    for message in messages {
        print_message(out, message);
    }
    out.end_array();
}

fn print_entries(out: &mut Json, entries: &[Entry]) {
    out.begin_array();
    for entry in entries {
        out.begin_object();
        out.named("key", entry.key.as_str());
        out.named("path", entry.path.as_str());
        out.end_object();
    }
    out.end_array();
}

fn print_taken(out: &mut Json, all: &[Taken]) {
    out.begin_array();
    for taken in all {
        out.begin_object();
        out.named("written", taken.written.as_str());
        out.named("path", taken.path.as_str());
        out.end_object();
    }
    out.end_array();
}

fn print_packages(out: &mut Json, packages: &[Package]) {
    out.begin_array();
    for package in packages {
        out.begin_object();
        out.named("folder", package.folder.as_str());
        out.key("entries");
        print_entries(out, package.exports.as_slice());
        out.key("taken");
        print_taken(out, package.taken.as_slice());
        out.end_object();
    }
    out.end_array();
}

fn print_lead(out: &mut Json, lead: &Lead) {
    out.begin_object();
    out.named("text", lead.text.as_str());
    out.key("start");
    out.number(lead.start as u64);
    out.key("is_effect");
    out.boolean(lead.is_effect);
    out.key("target");
    match &lead.target {
        Some(target) => out.text(target.as_str()),
        None => out.null(),
    }
    out.end_object();
}

fn print_files(out: &mut Json, files: &[ReadFile]) {
    out.begin_array();
    for file in files {
        out.begin_object();
        out.named("path", file.path.as_str());
        out.key("leads");
        out.begin_array();
        for lead in file.leads.iter() {
            print_lead(out, lead);
        }
        out.end_array();
        out.key("names_return");
        out.boolean(file.names_return);
        out.end_object();
    }
    out.end_array();
}

/// What is told of the packages of a folder that can be read.
#[derive(Drop)]
pub enum Told {
    Answers(Answered),
    /// What `fast-check build` is asked of them.
    Input(Input),
}

impl Told {
    pub fn has_diagnostics(&self) -> bool {
        match self {
            Told::Answers(answered) => !answered.same.is_empty(),
            Told::Input(_) => false,
        }
    }

    // Takes out the entry points that are answered as others.
    fn take_same(&mut self, alloc: Global) -> Vec<(Url, Vec<Url>)> {
        let mut same = Vec::new(alloc);
        if let Told::Answers(answered) = self {
            std::mem::swap(&mut same, &mut answered.same);
        }
        same
    }
}

// The entry points that are answered as another one: of each list of pairs the first is that one.
fn print_same(out: &mut Json, same: &[(Url, Vec<Url>)]) {
    out.key("same");
    out.begin_array();
    for (first, others) in same {
        out.begin_array();
        out.text(first.as_str());
        out.begin_array();
        for other in others.iter() {
            out.text(other.as_str());
        }
        out.end_array();
        out.end_array();
    }
    out.end_array();
}

fn print_told(alloc: Global, mut out: Writer, told: Told) -> Result<Writer, AllocError> {
    match told {
        Told::Answers(answered) => {
            out.key("answers")?;
            print_answers(alloc, &mut out, answered.answers)?;
            Ok(out)
        }
        Told::Input(input) => {
            out.key("input")?;
            print_input(alloc, out, &input)
        }
    }
}

/// The line of a folder: what is told of its packages, what is wrong, the packages, and the files that were read.
pub fn line_of(
    alloc: Global,
    told: Told,
    messages: &Messages,
    packages: &[Package],
    files: &[ReadFile],
) -> Result<String, AllocError> {
    if messages.lacks() {
        return Err(AllocError);
    }
    let mut told = told;
    let same = told.take_same(alloc);
    let mut out = Writer::new(Vec::new(alloc));
    out.begin_object()?;
    let mut out = Json::new(print_told(alloc, out, told)?);
    print_messages(&mut out, "errors", messages.errors.items.as_slice());
    print_messages(&mut out, "faults", messages.faults.items.as_slice());
    print_messages(&mut out, "warnings", messages.warnings.items.as_slice());
    out.key("packages");
    print_packages(&mut out, packages);
    out.key("files");
    print_files(&mut out, files);
    print_same(&mut out, same.as_slice());
    out.end_object();
    let out = out.finish()?;
    Ok(match String::from_utf8(out.into_inner()) {
        Ok(line) => line,
        Err(_) => String::new(alloc),
    })
}
