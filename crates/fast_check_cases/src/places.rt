//! Places of diagnostics: when two are one. Each line of the file `places` is one: its module, its start and its end, and behind `|` the text of the
//! module. Each is compared with the first, and with a copy of itself.

use crate::said::Said;
use fast_check_tables_diagnostics::FastCheckDiagnosticRange;
use fast_check_tree_syntax::{SourcePos, SourceRange};
use std::alloc::Global;
use std::hash::{DefaultHasher, Hash, Hasher};
use std::rc::RcStr;
use std::{fs, io};
use url::Url;

/// The number of a word, 0 where it is none.
fn position(word: Option<&str>) -> SourcePos {
    match word {
        Some(word) => SourcePos(word.parse::<u32>().unwrap_or(0)),
        None => SourcePos(0),
    }
}

/// The range of the words behind a module's name.
fn range_of(words: &str) -> SourceRange {
    SourceRange {
        start: position(words.split_whitespace().nth(1)),
        end: position(words.split_whitespace().nth(2)),
    }
}

/// The place of a line, None if it names no module or memory runs out.
fn place_of(alloc: Global, line: &str) -> Option<FastCheckDiagnosticRange> {
    let (words, text) = line.split_once('|').unwrap_or((line, ""));
    let name = words.split_whitespace().next().unwrap_or("");
    let range = range_of(words);
    let text_info = RcStr::from_str(alloc, text).ok()?;
    let specifier = Url::parse(alloc, name).ok()?;
    Some(FastCheckDiagnosticRange {
        specifier,
        range,
        text_info,
    })
}

fn hash_of(place: &FastCheckDiagnosticRange) -> u64 {
    let mut state = DefaultHasher::new();
    place.hash(&mut state);
    state.finish()
}

/// Says whether two places are equal, and hash alike where they are.
fn say_compared(
    place: &FastCheckDiagnosticRange,
    other: &FastCheckDiagnosticRange,
    said: &mut Said,
) {
    if place == other {
        said.say("equal, hashed alike ");
        said.say_flag(hash_of(place) == hash_of(other));
    } else {
        said.say("not equal");
    }
}

fn say_copy(place: &FastCheckDiagnosticRange, said: &mut Said) {
    match place.clone() {
        Ok(copy) => say_compared(place, &copy, said),
        Err(_) => said.lack(),
    }
}

/// Says what the place of a line is to the first, and to its copy.
fn say_line(alloc: Global, first: &FastCheckDiagnosticRange, line: &str, said: &mut Said) {
    match place_of(alloc, line) {
        Some(place) => {
            said.say_path("", line, "\n    to the first: ");
            say_compared(first, &place, said);
            said.say("\n    to its copy: ");
            say_copy(&place, said);
            said.say("\n");
        }
        None => said.lack(),
    }
}

fn say_lines(alloc: Global, first: &FastCheckDiagnosticRange, lines: &str, said: &mut Said) {
    for line in lines.lines() {
        say_line(alloc, first, line, said);
    }
}

fn say_places(alloc: Global, lines: &str, said: &mut Said) {
    match place_of(alloc, lines.lines().next().unwrap_or("")) {
        Some(first) => say_lines(alloc, &first, lines, said),
        None => said.lack(),
    }
}

/// Prints what the places of the file `places` are to one another.
pub fn run_place_cases(rt: &HostRuntime) -> io::Result<()> {
    let lines = fs::read_to_string(rt, "places")?;
    let mut said = Said::new(rt.alloc());
    say_places(rt.alloc(), lines.as_str(), &mut said);
    print!(rt; "{}", said.text().unwrap_or("out of memory\n"))
}
