//! The entry points of a package, by the paths of their files.
use crate::builds::{built_files, file_of, is_unread, sources_of_build};
use crate::exports::{Entry, Taken, expanded, push_entry, written_exports};
use fast_check_source_configs::config::{Config, path_in, quoted, text_of};
use fast_check_source_configs::messages::MessageList;
use fast_check_source_configs::paths::{behind, inside};
use fast_check_source_configs::tsconfig::Projects;
use fast_check_source_files::files::{Files, joined};
use fast_check_source_files::languages::{Language, language_of};
use fast_check_source_files::messages::Message;
use std::alloc::{AllocError, Global};
use std::collections::BTreeMap;

const USUAL: [&str; 7] = [
    "mod.ts",
    "index.ts",
    "src/index.ts",
    "index.d.ts",
    "mod.tsx",
    "index.tsx",
    "src/mod.ts",
];

const NO_ENTRY_POINT: &str = "no-entry-point";

// So many messages have their places, since each is searched for from the start of the configuration.
const PLACED: usize = 500;

/// The entry points of a package, and what is wrong with what is written.
#[derive(Drop)]
pub struct Entries {
    pub found: Vec<Entry>,
    /// What is read in place of what is written.
    pub taken: Vec<Taken>,
    /// What keeps an entry point from being read.
    pub wrong: MessageList,
    /// What is passed over.
    pub passed: MessageList,
    /// What may not be written.
    pub errors: MessageList,
}

impl Entries {
    fn new(alloc: Global) -> Entries {
        Entries {
            found: Vec::new(alloc),
            taken: Vec::new(alloc),
            wrong: MessageList::new(alloc),
            passed: MessageList::new(alloc),
            errors: MessageList::new(alloc),
        }
    }
}

// Notes which file is read in place of what is written.
fn push_taken(
    alloc: Global,
    written: &str,
    path: &str,
    out: &mut Vec<Taken>,
) -> Result<(), AllocError> {
    let written = String::from_str(alloc, written)?;
    let path = String::from_str(alloc, path)?;
    out.push(Taken { written, path })?;
    Ok(())
}

// Where a text stands behind a key.
fn place_behind(text: &str, key: &str, wanted: &str) -> Option<usize> {
    let start = text.find(key)?;
    let at = text.get(start..)?.find(wanted)?;
    Some(start.saturating_add(at))
}

// Where a path is written in the configurations of a package.
fn place_of<'a>(
    alloc: Global,
    configs: &'a [Config],
    path: &str,
) -> Result<Option<(&'a Config, usize)>, AllocError> {
    let wanted = quoted(alloc, path)?;
    for config in configs {
        for key in ["\"exports\"", "\"types\"", "\"typings\""] {
            if let Some(at) = place_behind(config.text.as_str(), key, wanted.as_str()) {
                return Ok(Some((config, at)));
            }
        }
    }
    Ok(None)
}

// The paths of some entry points as they are written, and the entry points by the paths of their files.
#[derive(Drop)]
struct Candidates {
    written: Vec<String>,
    entries: Vec<Entry>,
}

impl Candidates {
    // Adds the entry points that one path stands for.
    fn add(&mut self, alloc: Global, path: &str, some: Vec<Entry>) -> Result<(), AllocError> {
        for entry in some {
            self.written.push(String::from_str(alloc, path)?)?;
            self.entries.push(entry)?;
        }
        Ok(())
    }
}

// The source that stands for a file of a build.
fn source_of<'a>(
    path: &str,
    built: &'a BTreeMap<String, String>,
    build: &'a BTreeMap<String, String>,
) -> Option<&'a str> {
    match built.get(path) {
        Some(found) => Some(found.as_str()),
        None => Some(build.get(path)?.as_str()),
    }
}

// The file of an entry point: the source that stands for it, or else the one that its path stands for.
fn file_or_source(
    files: &Files<'_>,
    projects: &mut Projects,
    wanted: &str,
    source: Option<&str>,
) -> Result<Option<String>, AllocError> {
    match source {
        Some(source) => Ok(Some(String::from_str(files.alloc(), source)?)),
        None => file_of(files, projects, wanted),
    }
}

// A package while its entry points are looked for.
#[derive(Clone, Copy)]
struct Written<'a> {
    folder: &'a str,
    configs: &'a [Config],
}

impl<'a> Written<'a> {
    // What is wrong with an entry point, where its path is written, if it is asked for the place.
    fn message(
        self,
        alloc: Global,
        path: &str,
        code: &'static str,
        why: &str,
        has_place: bool,
    ) -> Result<Message, AllocError> {
        let mut text = joined(alloc, "the entry point ", path)?;
        text.push_str(why)?;
        if has_place && let Some((config, at)) = place_of(alloc, self.configs, path)? {
            let (path, source) = (config.path.as_str(), config.text.as_str());
            return Message::at(alloc, path, source, at, code, text.as_str());
        }
        Message::of_file(alloc, self.folder, code, text.as_str())
    }

    // Says what is wrong with an entry point.
    fn say(self, alloc: Global, path: &str, code: &'static str, why: &str, out: &mut MessageList) {
        let has_place = out.items.len() < PLACED;
        out.push(self.message(alloc, path, code, why, has_place));
    }

    // An entry point that is a module goes to those that are found.
    fn take_file(
        self,
        alloc: Global,
        text: &str,
        key: &str,
        file: &str,
        out: &mut Entries,
    ) -> Result<(), AllocError> {
        if language_of(file) != Language::Other {
            return push_entry(alloc, key, file, &mut out.found);
        }
        if file.ends_with(".json") {
            return Ok(());
        }
        let why = " is no module, and is passed over";
        self.say(alloc, text, NO_ENTRY_POINT, why, &mut out.passed);
        Ok(())
    }

    // Warns of a file of a build that is read in place of its source.
    fn warn_of_build(
        self,
        files: &Files<'_>,
        projects: &mut Projects,
        text: &str,
        wanted: &str,
        out: &mut Entries,
    ) -> Result<(), AllocError> {
        if is_unread(files, projects, self.folder, wanted)? {
            let (code, why) = (
                "built-entry-point",
                " is a built file, and nothing of src/ is read",
            );
            self.say(files.alloc(), text, code, why, &mut out.passed);
        }
        Ok(())
    }

    // Notes which source is read in place of a file. An entry point with a `*` is written as each file that it stands for.
    fn take_source(
        self,
        alloc: Global,
        text: &str,
        wanted: &str,
        path: &str,
        out: &mut Vec<Taken>,
    ) -> Result<(), AllocError> {
        if text.contains("*")
            && let Some(own) = behind(wanted, self.folder)
        {
            let written = joined(alloc, "./", own)?;
            return push_taken(alloc, written.as_str(), path, out);
        }
        push_taken(alloc, text, path, out)
    }

    // An entry point goes to those that are found, or else what is wrong with it is said. A source may stand for its file.
    fn take(
        self,
        files: &Files<'_>,
        projects: &mut Projects,
        text: &str,
        entry: &Entry,
        source: Option<&str>,
        out: &mut Entries,
    ) -> Result<(), AllocError> {
        let alloc = files.alloc();
        let wanted = entry.path.as_str();
        if text.starts_with("/") || behind(wanted, self.folder).is_none() {
            let why = " lies outside of the package";
            self.say(alloc, text, NO_ENTRY_POINT, why, &mut out.errors);
            return Ok(());
        }
        let Some(file) = file_or_source(files, projects, wanted, source)? else {
            self.say(alloc, text, NO_ENTRY_POINT, " is not there", &mut out.wrong);
            return Ok(());
        };
        match source {
            Some(path) => self.take_source(alloc, text, wanted, path, &mut out.taken)?,
            None => self.warn_of_build(files, projects, text, wanted, out)?,
        }
        self.take_file(alloc, text, entry.key.as_str(), file.as_str(), out)
    }

    // The entry points that may be meant by those that are written.
    fn candidates(
        self,
        files: &Files<'_>,
        written: &[Entry],
        built: &BTreeMap<String, String>,
        passed: &mut MessageList,
    ) -> Result<Candidates, AllocError> {
        let alloc = files.alloc();
        let mut all = Candidates {
            written: Vec::new(alloc),
            entries: Vec::new(alloc),
        };
        for each in written {
            let path = each.path.as_str();
            let some = expanded(files, self.folder, each, built)?;
            if some.is_empty() {
                self.say(alloc, path, NO_ENTRY_POINT, " fits no file", passed);
            }
            all.add(alloc, path, some)?;
        }
        Ok(all)
    }

    // Looks for the entry points that are written.
    fn take_all(
        self,
        files: &Files<'_>,
        projects: &mut Projects,
        written: &[Entry],
        out: &mut Entries,
    ) -> Result<(), AllocError> {
        let built = built_files(files, self.folder)?;
        let all = self.candidates(files, written, &built, &mut out.passed)?;
        let build = sources_of_build(files, projects, self.folder, all.entries.as_slice())?;
        for (path, entry) in all.written.iter().zip(all.entries.iter()) {
            let source = source_of(entry.path.as_str(), &built, &build);
            self.take(files, projects, path.as_str(), entry, source, out)?;
        }
        Ok(())
    }

    // The entry points that are written.
    fn entries(self, files: &Files<'_>, projects: &mut Projects) -> Result<Entries, AllocError> {
        let alloc = files.alloc();
        let mut out = Entries::new(alloc);
        let written = written_exports(alloc, self.configs)?;
        if !written.is_empty() {
            self.take_all(files, projects, written.as_slice(), &mut out)?;
        }
        if out.found.is_empty()
            && let Some(path) = self.usual(files, projects)?
        {
            self.take_usual(alloc, written.as_slice(), path.as_str(), &mut out)?;
        }
        Ok(out)
    }

    // Takes a file for the entry point of a package, of which none that is written is there.
    fn take_usual(
        self,
        alloc: Global,
        written: &[Entry],
        path: &str,
        out: &mut Entries,
    ) -> Result<(), AllocError> {
        out.wrong.items.clear();
        out.passed.items.clear();
        out.taken.clear();
        if let Some(entry) = written.first() {
            push_taken(alloc, entry.path.as_str(), path, &mut out.taken)?;
        }
        push_entry(alloc, ".", path, &mut out.found)
    }

    // The file that a configuration names for those who run the package.
    fn named_to_run(
        self,
        files: &Files<'_>,
        projects: &mut Projects,
    ) -> Result<Option<String>, AllocError> {
        for key in ["module", "main"] {
            if let Some(text) = text_of(self.configs, key) {
                let path = path_in(files.alloc(), self.folder, text)?;
                if let Some(found) = file_of(files, projects, path.as_str())? {
                    return Ok(Some(found));
                }
            }
        }
        Ok(None)
    }

    // The file of the entry point of a package in whose configuration none is there.
    fn usual(
        self,
        files: &Files<'_>,
        projects: &mut Projects,
    ) -> Result<Option<String>, AllocError> {
        for name in USUAL {
            let path = inside(files.alloc(), self.folder, name)?;
            if files.is_file(path.as_str())? {
                return file_of(files, projects, path.as_str());
            }
        }
        self.named_to_run(files, projects)
    }
}

/// The entry points of a package in a folder.
pub fn entry_points(
    files: &Files<'_>,
    projects: &mut Projects,
    folder: &str,
    configs: &[Config],
) -> Result<Entries, AllocError> {
    Written { folder, configs }.entries(files, projects)
}
