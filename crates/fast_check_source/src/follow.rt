//! The modules that entry points lead to.
use crate::media::media_type;
use crate::sources::{Named, SourceText, sources_of};
use crate::urls::{external, url_of};
use anyhow::Result;
use fast_check_source_comments::comments_of;
use fast_check_source_configs::comments::named_types;
use fast_check_source_configs::messages::Messages;
use fast_check_source_configs::tsconfig::Projects;
use fast_check_source_files::files::{Files, name_of};
use fast_check_source_files::messages::{Message, Places};
use fast_check_source_input::Parsed;
use fast_check_source_mended::{mended, short_tree, with_exports};
use fast_check_source_packages::resolve::{Package, is_relative, resolve};
use fast_check_source_parser::{ParseError, parse_program};
use fast_check_source_scopes::with_scopes;
use fast_check_source_tables::tables_of;
use fast_check_tables_diagnostics::parsed_source::{MediaType, ParsedSource};
use fast_check_tables_graph::Module;
use fast_check_tree_syntax::{SyntaxContext, Tree};
use std::alloc::{AllocError, Global};
use std::collections::{BTreeMap, BTreeSet};
use std::rc::RcStr;
use url::Url;

/// A text by which a module names another one.
#[derive(Drop)]
pub struct Lead {
    pub text: String,
    /// Where it stands, as a position of the tree.
    pub start: u32,
    pub is_effect: bool,
    /// The module that it leads to, which may lie outside of the folder.
    pub target: Option<Url>,
}

/// A file that was read, with what it names.
#[derive(Drop)]
pub struct ReadFile {
    pub path: String,
    pub leads: Vec<Lead>,
    pub names_return: bool,
}

/// What entry points lead to.
#[derive(Drop)]
pub struct Found {
    /// Without the names that others answer.
    pub modules: BTreeMap<Url, Parsed>,
    pub graph: BTreeMap<Url, Module>,
    pub resolutions: BTreeMap<Url, BTreeMap<String, Url>>,
    /// The names of the files of modules that name themselves.
    pub own_names: BTreeMap<Url, String>,
}

impl Lead {
    fn of(alloc: Global, source: SourceText<'_>, target: Option<&Url>) -> Result<Lead, AllocError> {
        let target = match target {
            Some(target) => Some(target.clone()?),
            None => None,
        };
        let SourceText {
            text,
            start,
            is_effect,
            ..
        } = source;
        Ok(Lead {
            text: String::from_str(alloc, text)?,
            start,
            is_effect,
            target,
        })
    }
}

fn js(media_type: MediaType) -> Module {
    Module::Js {
        media_type,
        has_types_dependency: false,
        source_hash: None,
    }
}

// What stopped the parser, at a byte of the text.
fn refused(
    alloc: Global,
    path: &str,
    text: &str,
    error: ParseError,
) -> Result<Message, AllocError> {
    let (position, code, why) = match error {
        ParseError::Memory => return Err(AllocError),
        ParseError::TooLong => (1, "nested-too-deep", "this is longer than can be read"),
        ParseError::TooDeep(at) => {
            (
                at.0,
                "nested-too-deep",
                "this is nested deeper than can be read",
            )
        }
        ParseError::Unexpected(at) => (at.0, "syntax-error", "this cannot stand here"),
    };
    let offset = (position as usize).saturating_sub(1);
    Message::at(alloc, path, text, offset, code, why)
}

// The tree of a module with its bodies cut. The whole one is dropped, as each that another one stands for, since few of them fit into memory.
fn cut(alloc: Global, tree: Tree, text: &str) -> Result<Tree, AllocError> {
    short_tree(alloc, text, &tree)
}

// A tree with its names numbered.
fn numbered(alloc: Global, short: Tree, is_declaration: bool) -> Result<Tree, AllocError> {
    with_scopes(alloc, &short, is_declaration)
}

// The program of a module: its bodies cut, its names numbered, and its exports written in.
fn program_of(
    alloc: Global,
    tree: Tree,
    text: &str,
    is_declaration: bool,
) -> Result<Tree, AllocError> {
    let short = cut(alloc, tree, text)?;
    let whole = mended(alloc, numbered(alloc, short, is_declaration)?)?;
    with_exports(alloc, whole, is_declaration)
}

fn read_module(
    alloc: Global,
    tree: Tree,
    text: &str,
    media_type: MediaType,
) -> Result<Parsed, AllocError> {
    let is_declaration = media_type.is_declaration();
    let comments = comments_of(alloc, text, &tree)?;
    let program = program_of(alloc, tree, text, is_declaration)?;
    let tables = tables_of(alloc, &program, is_declaration)?;
    let source = ParsedSource {
        media_type,
        // No answer has a text of its source.
        text: RcStr::from_str(alloc, "")?,
        program,
        comments,
        unresolved_context: SyntaxContext(1),
    };
    Ok(Parsed { source, tables })
}

// A module that is read: the path of its file, its URL and its text.
#[derive(Clone, Copy)]
struct Place<'a> {
    path: &'a str,
    url: &'a Url,
    text: &'a str,
}

/// A folder while its modules are read.
#[derive(Drop)]
pub struct Reading {
    pub found: Found,
    /// The files that are read, in order.
    pub read: Vec<ReadFile>,
    pub messages: Messages,
    // The paths of entry points.
    entries: BTreeSet<String>,
    seen: BTreeSet<String>,
    // The paths of files that are still to be read, the next one last.
    waiting: Vec<String>,
    projects: Projects,
    // Where the texts of the module at hand lead.
    leads: Vec<Lead>,
    resolved: BTreeMap<String, Url>,
}

impl Reading {
    fn new(alloc: Global, projects: Projects, messages: Messages) -> Reading {
        Reading {
            found: Found {
                modules: BTreeMap::new(alloc),
                graph: BTreeMap::new(alloc),
                resolutions: BTreeMap::new(alloc),
                own_names: BTreeMap::new(alloc),
            },
            read: Vec::new(alloc),
            messages,
            entries: BTreeSet::new(alloc),
            seen: BTreeSet::new(alloc),
            waiting: Vec::new(alloc),
            projects,
            leads: Vec::new(alloc),
            resolved: BTreeMap::new(alloc),
        }
    }

    // The entry points of packages are read first, in order.
    fn start(&mut self, packages: &[Package]) -> Result<(), AllocError> {
        for package in packages.iter().rev() {
            for entry in package.exports.iter().rev() {
                self.waiting.push(entry.path.clone()?)?;
                let _ = self.entries.insert(entry.path.clone()?)?;
            }
        }
        Ok(())
    }

    // A package outside of the folder.
    fn outside(&mut self, alloc: Global, text: &str) -> Result<Url> {
        let target = external(alloc, text)?;
        let _ = self.found.graph.insert(target.clone()?, Module::External)?;
        Ok(target)
    }

    // Where a text of a module leads: a module to be read, a package outside, or nowhere.
    fn lead(
        &mut self,
        files: &Files<'_>,
        packages: &[Package],
        path: &str,
        text: &str,
        named: Option<&str>,
    ) -> Result<Option<Url>> {
        if let Some(next) = resolve(files, &mut self.projects, packages, path, text, named)? {
            let target = url_of(files.alloc(), next.as_str())?;
            self.waiting.push(next)?;
            return Ok(Some(target));
        }
        if is_relative(text) {
            return Ok(None);
        }
        Ok(Some(self.outside(files.alloc(), text)?))
    }

    // A module that is not there: an entry point that exports names of it says what nobody could import.
    fn missing(
        &mut self,
        alloc: Global,
        path: &str,
        places: &mut Places<'_>,
        source: SourceText<'_>,
    ) {
        let place = places.place_of((source.start as usize).saturating_sub(1));
        let (code, why) = ("missing-module", "there is no such module");
        let message = Message::at_place(alloc, path, place, code, why);
        if source.is_exported && self.entries.contains(path) {
            self.messages.faults.push(message);
        } else {
            self.messages.warnings.push(message);
        }
    }

    // Notes where a text of a module leads.
    fn note(
        &mut self,
        alloc: Global,
        place: Place<'_>,
        text: &str,
        target: Url,
    ) -> Result<(), AllocError> {
        if target == *place.url {
            let own = String::from_str(alloc, name_of(place.path))?;
            let _ = self.found.own_names.insert(place.url.clone()?, own)?;
        }
        let _ = self
            .resolved
            .insert(String::from_str(alloc, text)?, target)?;
        Ok(())
    }

    // Notes that a file is read, and where its texts lead.
    fn push_read(
        &mut self,
        alloc: Global,
        path: &str,
        names_return: bool,
    ) -> Result<(), AllocError> {
        let path = String::from_str(alloc, path)?;
        let mut leads = Vec::new(alloc);
        std::mem::swap(&mut leads, &mut self.leads);
        self.read.push(ReadFile {
            path,
            leads,
            names_return,
        })?;
        Ok(())
    }

    // Looks where a text of a module leads.
    fn follow(
        &mut self,
        files: &Files<'_>,
        packages: &[Package],
        place: Place<'_>,
        places: &mut Places<'_>,
        source: SourceText<'_>,
    ) -> Result<()> {
        let alloc = files.alloc();
        let named = named_types(place.text, (source.around as usize).saturating_sub(1));
        let target = self.lead(files, packages, place.path, source.text, named)?;
        self.leads.push(Lead::of(alloc, source, target.as_ref())?)?;
        match target {
            Some(target) => self.note(alloc, place, source.text, target)?,
            None => self.missing(alloc, place.path, places, source),
        }
        Ok(())
    }

    // Looks where the texts of a module lead by which it names others.
    fn follow_all(
        &mut self,
        files: &Files<'_>,
        packages: &[Package],
        place: Place<'_>,
        program: &Tree,
    ) -> Result<()> {
        let alloc = files.alloc();
        let Named {
            sources,
            names_return,
        } = sources_of(alloc, program.read())?;
        let mut places = Places::new(place.text);
        for source in sources.iter() {
            self.follow(files, packages, place, &mut places, *source)?;
        }
        self.push_read(alloc, place.path, names_return)?;
        Ok(())
    }

    // The text of a file, if it is one.
    fn text(&mut self, files: &Files<'_>, path: &str) -> Result<Option<String>, AllocError> {
        let text = files.read(path)?;
        if text.is_none() {
            let why = "the file is no UTF-8";
            let message = Message::of_file(files.alloc(), path, "syntax-error", why);
            self.messages.errors.push(message);
        }
        Ok(text)
    }

    // The tree of a text, if the parser reads it.
    fn tree(&mut self, alloc: Global, path: &str, text: &str, is_jsx: bool) -> Option<Tree> {
        match parse_program(alloc, text, is_jsx) {
            Ok(tree) => Some(tree),
            Err(error) => {
                self.messages.errors.push(refused(alloc, path, text, error));
                None
            }
        }
    }

    // Keeps a module under its URL.
    fn keep(
        &mut self,
        alloc: Global,
        url: &Url,
        media_type: MediaType,
        module: Parsed,
    ) -> Result<(), AllocError> {
        let _ = self.found.modules.insert(url.clone()?, module)?;
        let mut resolved = BTreeMap::new(alloc);
        std::mem::swap(&mut resolved, &mut self.resolved);
        let _ = self.found.resolutions.insert(url.clone()?, resolved)?;
        let _ = self.found.graph.insert(url.clone()?, js(media_type))?;
        Ok(())
    }

    fn module(
        &mut self,
        files: &Files<'_>,
        packages: &[Package],
        path: &str,
        url: &Url,
        media_type: MediaType,
    ) -> Result<()> {
        let alloc = files.alloc();
        let Some(text) = self.text(files, path)? else {
            return Ok(());
        };
        let text = text.as_str();
        let Some(tree) = self.tree(alloc, path, text, media_type == MediaType::Tsx) else {
            return Ok(());
        };
        let place = Place { path, url, text };
        let module = read_module(alloc, tree, text, media_type)?;
        self.follow_all(files, packages, place, &module.source.program)?;
        self.keep(alloc, url, media_type, module)?;
        Ok(())
    }

    // A file that is no TypeScript and no declarations.
    fn other(&mut self, path: &str, url: &Url, media_type: MediaType) -> Result<(), AllocError> {
        if path.ends_with(".json") {
            let module = Module::Json { source_hash: None };
            let _ = self.found.graph.insert(url.clone()?, module)?;
        } else if media_type != MediaType::Unknown {
            let _ = self.found.graph.insert(url.clone()?, js(media_type))?;
        }
        Ok(())
    }

    fn file(&mut self, files: &Files<'_>, packages: &[Package], path: &str) -> Result<()> {
        let alloc = files.alloc();
        if !self.seen.insert(String::from_str(alloc, path)?)? {
            return Ok(());
        }
        if let Some(why) = files.refusal(path)? {
            let message = Message::of_file(alloc, path, "refused-file", why);
            self.messages.errors.push(message);
            return Ok(());
        }
        let url = url_of(alloc, path)?;
        let media_type = media_type(path);
        if media_type.is_typed() {
            return self.module(files, packages, path, &url, media_type);
        }
        self.other(path, &url, media_type)?;
        self.push_read(alloc, path, false)?;
        Ok(())
    }

    // Reads what waits, until nothing does.
    fn run(&mut self, files: &Files<'_>, packages: &[Package]) -> Result<()> {
        for _turn in 0..u64::MAX {
            let Some(path) = self.waiting.pop() else {
                break;
            };
            self.file(files, packages, path.as_str())?;
        }
        Ok(())
    }
}

// Leaves out what leads to a module that cannot be read.
fn keep_readable(found: &mut Found) {
    let graph = &found.graph;
    for resolved in found.resolutions.values_mut() {
        resolved.retain(|_, target| graph.contains_key(&*target));
    }
}

/// Reads the modules that the entry points of packages lead to inside of a folder. The files that were read are listed too.
pub fn modules_of(
    files: &Files<'_>,
    packages: &[Package],
    projects: Projects,
    messages: Messages,
) -> Result<Reading> {
    let mut reading = Reading::new(files.alloc(), projects, messages);
    reading.start(packages)?;
    reading.run(files, packages)?;
    keep_readable(&mut reading.found);
    Ok(reading)
}
