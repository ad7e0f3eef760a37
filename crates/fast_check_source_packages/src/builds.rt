//! Files of a build, and the sources that stand for them.
ghost use Rattle.std.specs.Prelude.{◌≡◌};

use crate::exports::Entry;
use fast_check_source_configs::options::{Options, add_sources, options_of};
use fast_check_source_configs::paths::{behind, inside};
use fast_check_source_configs::tsconfig::{Projects, references};
use fast_check_source_files::files::{Files, Standing, folder_of, joined, name_of};
use fast_check_source_files::languages::{Language, language_of};
use std::alloc::{AllocError, Global};
use std::collections::{BTreeMap, BTreeSet};

// The folders that builds write to.
const BUILDS: [&str; 12] = [
    "dist", "build", "lib", "out", "output", "es", "esm", "cjs", "types", "typings", "umd",
    "bundle",
];

const BUILT: [&str; 9] = [
    ".d.ts", ".d.mts", ".d.cts", ".ts", ".mts", ".cts", ".js", ".mjs", ".cjs",
];

const WRITTEN: [&str; 4] = [".ts", ".tsx", ".mts", ".cts"];

// The endings of sources, with those of what the compiler writes for them.
const OUTPUTS: [(&str, &str, &str); 4] = [
    (".ts", ".js", ".d.ts"),
    (".tsx", ".js", ".d.ts"),
    (".mts", ".mjs", ".d.mts"),
    (".cts", ".cjs", ".d.cts"),
];

const WHOLE: [&str; 3] = ["src/index.ts", "src/index.tsx", "src/index.mts"];

// A path without the ending that a file of a build has.
fn without_ending(path: &str) -> Option<&str> {
    for ending in BUILT {
        if let Some(stem) = path.strip_suffix(ending) {
            return Some(stem);
        }
    }
    None
}

/// The file that a path stands for: the one that is there, but for JavaScript, beside which its declarations may lie.
pub fn file_of(
    files: &Files<'_>,
    projects: &mut Projects,
    wanted: &str,
) -> Result<Option<String>, AllocError> {
    if files.is_file(wanted)? && language_of(wanted) != Language::JavaScript {
        return Ok(Some(String::from_str(files.alloc(), wanted)?));
    }
    projects.find(files, wanted, wanted)
}

// Whether a path lies in a folder that builds write to, with the ending of one of their files.
fn is_of_build(folder: &str, wanted: &str) -> bool {
    match behind(wanted, folder).and_then(|it| it.split_once('/')) {
        Some((first, _)) => {
            BUILDS.iter().any(|it| *it == first) && without_ending(wanted).is_some()
        }
        None => false,
    }
}

/// Whether a file is one of a build: it lies in a folder for builds, or is not there, and no source stands in its place.
pub fn is_built(
    files: &Files<'_>,
    projects: &mut Projects,
    folder: &str,
    wanted: &str,
) -> Result<bool, AllocError> {
    if !is_of_build(folder, wanted) {
        return Ok(false);
    }
    match file_of(files, projects, wanted)? {
        Some(found) => Ok(matches!(
            language_of(found.as_str()),
            Language::Declarations | Language::JavaScript
        )),
        None => Ok(true),
    }
}

// The file in `src` with a path without its ending.
fn in_src(files: &Files<'_>, folder: &str, stem: &str) -> Result<Option<String>, AllocError> {
    let own = joined(files.alloc(), "src/", stem)?;
    let path = inside(files.alloc(), folder, own.as_str())?;
    for ending in WRITTEN {
        let file = joined(files.alloc(), path.as_str(), ending)?;
        if files.is_file(file.as_str())? {
            return Ok(Some(file));
        }
    }
    Ok(None)
}

// The source in `src` that a file of a build has the name of. A build may have folders of its own above, as `dist/esm`.
fn namesake(files: &Files<'_>, folder: &str, wanted: &str) -> Result<Option<String>, AllocError> {
    let Some(mut rest) = behind(wanted, folder).and_then(without_ending) else {
        return Ok(None);
    };
    for _turn in 0..wanted.len() {
        let Some((_, below)) = rest.split_once('/') else {
            break;
        };
        rest = below;
        if let Some(found) = in_src(files, folder, rest)? {
            return Ok(Some(found));
        }
    }
    Ok(None)
}

// The one file that a whole package may be written in.
fn whole_source(files: &Files<'_>, folder: &str) -> Result<Option<String>, AllocError> {
    for name in WHOLE {
        let path = inside(files.alloc(), folder, name)?;
        if files.is_file(path.as_str())? {
            return Ok(Some(path));
        }
    }
    Ok(None)
}

// Whether all entry points with the ending of a file of a build are such files.
fn are_built(
    files: &Files<'_>,
    projects: &mut Projects,
    folder: &str,
    entries: &[Entry],
) -> Result<bool, AllocError> {
    for entry in entries {
        let path = entry.path.as_str();
        if without_ending(path).is_some() && !is_built(files, projects, folder, path)? {
            return Ok(false);
        }
    }
    Ok(true)
}

// Whether all entry points with the ending of a file of a build are one.
fn are_one(entries: &[Entry]) -> bool {
    let mut first: Option<&str> = None;
    for entry in entries {
        let path = entry.path.as_str();
        if without_ending(path).is_some() {
            if let Some(other) = first
                && other != path
            {
                return false;
            }
            first = Some(path);
        }
    }
    true
}

// Adds the source that stands for a file of a build. Says whether there is one, or needs none.
fn add_source(
    files: &Files<'_>,
    folder: &str,
    path: &str,
    is_one: bool,
    out: &mut BTreeMap<String, String>,
) -> Result<bool, AllocError> {
    if without_ending(path).is_none() {
        return Ok(true);
    }
    let mut source = namesake(files, folder, path)?;
    if source.is_none() && is_one {
        source = whole_source(files, folder)?;
    }
    match source {
        Some(source) => {
            let _ = out.insert(String::from_str(files.alloc(), path)?, source)?;
            Ok(true)
        }
        None => Ok(false),
    }
}

/// The sources that stand for entry points of which all are files of a build, by their paths: those of the same names in `src`, and for a whole package in one file
/// `src/index.ts`. There are none where some have no source.
pub fn sources_of_build(
    files: &Files<'_>,
    projects: &mut Projects,
    folder: &str,
    entries: &[Entry],
) -> Result<BTreeMap<String, String>, AllocError> {
    let mut found = BTreeMap::new(files.alloc());
    if are_built(files, projects, folder, entries)? {
        let is_one = are_one(entries);
        for entry in entries {
            if !add_source(files, folder, entry.path.as_str(), is_one, &mut found)? {
                return Ok(BTreeMap::new(files.alloc()));
            }
        }
    }
    Ok(found)
}

/// Whether an entry point is a file of a build beside sources in `src`, none of which is read for it.
pub fn is_unread(
    files: &Files<'_>,
    projects: &mut Projects,
    folder: &str,
    wanted: &str,
) -> Result<bool, AllocError> {
    if !is_built(files, projects, folder, wanted)? {
        return Ok(false);
    }
    let sources = inside(files.alloc(), folder, "src")?;
    for file in files.all_below(sources.as_str(), Standing::File)? {
        if language_of(file.as_str()) == Language::TypeScript {
            return Ok(true);
        }
    }
    Ok(false)
}

// What the compiler writes for a source: the stem of its name, with the endings of the script and of its declarations.
fn outputs(source: &str) -> Option<(&str, &'static str, &'static str)> {
    if language_of(source) == Language::TypeScript {
        for (ending, script, declarations) in OUTPUTS {
            if let Some(stem) = source.strip_suffix(ending) {
                return Some((stem, script, declarations));
            }
        }
    }
    None
}

// Adds a file that the compiler writes into a folder, unless it is the source itself or known.
fn push_output(
    alloc: Global,
    source: &str,
    target: &str,
    name: &str,
    out: &mut BTreeMap<String, String>,
) -> Result<(), AllocError> {
    let path = inside(alloc, target, name)?;
    if path.as_str() != source && !out.contains_key(path.as_str()) {
        let source = String::from_str(alloc, source)?;
        let _ = out.insert(path, source)?;
    }
    Ok(())
}

// Adds the files that the compiler writes for a source below a folder.
fn push_outputs(
    alloc: Global,
    source: &str,
    root: &str,
    targets: (Option<&str>, Option<&str>),
    out: &mut BTreeMap<String, String>,
) -> Result<(), AllocError> {
    let Some((stem, script, declaration)) = outputs(source) else {
        return Ok(());
    };
    let Some(stem) = behind(stem, root) else {
        return Ok(());
    };
    if let Some(scripts) = targets.0 {
        let name = joined(alloc, stem, script)?;
        push_output(alloc, source, scripts, name.as_str(), out)?;
    }
    if let Some(declarations) = targets.1 {
        let name = joined(alloc, stem, declaration)?;
        push_output(alloc, source, declarations, name.as_str(), out)?;
    }
    Ok(())
}

// The innermost folder around another one that a file lies in.
fn folder_around<'a>(folder: &'a str, file: &str) -> &'a str {
    let mut common = folder;
    for _turn in 0..folder.len() {
        if behind(file, common).is_some() {
            break;
        }
        common = folder_of(common);
    }
    common
}

// The innermost folder that some files lie in.
fn common_folder(sources: &BTreeSet<String>) -> &str {
    let Some(first) = sources.first() else {
        return "";
    };
    let mut common = folder_of(first.as_str());
    for source in sources.iter() {
        common = folder_around(common, source.as_str());
    }
    common
}

// Whether a file is a configuration of the compiler for builds, by its name.
fn is_project(path: &str) -> bool {
    let name = name_of(path);
    name == "tsconfig.json" || (name.starts_with("tsconfig.") && name.ends_with(".json"))
}

// Adds the configurations of the compiler in a folder, its own first.
fn push_projects(files: &Files<'_>, folder: &str, out: &mut Vec<String>) -> Result<(), AllocError> {
    let own = inside(files.alloc(), folder, "tsconfig.json")?;
    if files.is_file(own.as_str())? {
        out.push(own.clone()?)?;
    }
    for path in files.listed(folder)? {
        if is_project(path.as_str()) && path.as_str() != own.as_str() {
            out.push(path)?;
        }
    }
    Ok(())
}

// Adds the configurations that some others refer to.
fn push_referred(
    files: &Files<'_>,
    projects: &[String],
    out: &mut Vec<String>,
) -> Result<(), AllocError> {
    for path in projects {
        let mut referred = references(files, path.as_str())?;
        out.append(&mut referred)?;
    }
    Ok(())
}

// The configurations of the compiler by which a folder may be built: its own, those beside it, those of its `src`, and those that they refer to.
fn projects_of(files: &Files<'_>, folder: &str) -> Result<Vec<String>, AllocError> {
    let src = inside(files.alloc(), folder, "src")?;
    let mut found = Vec::new(files.alloc());
    push_projects(files, folder, &mut found)?;
    push_projects(files, src.as_str(), &mut found)?;
    let mut referred = Vec::new(files.alloc());
    push_referred(files, found.as_slice(), &mut referred)?;
    found.append(&mut referred)?;
    Ok(found)
}

// Adds the sources of a project below a folder by the files that the compiler writes for them.
fn push_below(
    alloc: Global,
    project: &Options,
    sources: &BTreeSet<String>,
    root: &str,
    out: &mut BTreeMap<String, String>,
) -> Result<(), AllocError> {
    for source in sources.iter() {
        push_outputs(alloc, source.as_str(), root, project.targets(), out)?;
    }
    Ok(())
}

// Adds the sources of a project in a folder by the files that the compiler writes for them.
fn push_written(
    files: &Files<'_>,
    own: &str,
    project: &Options,
    out: &mut BTreeMap<String, String>,
) -> Result<(), AllocError> {
    let alloc = files.alloc();
    let mut sources = BTreeSet::new(alloc);
    add_sources(files, own, project, &mut sources)?;
    if let Some(root) = &project.root {
        return push_below(alloc, project, &sources, root.as_str(), out);
    }
    let common = common_folder(&sources);
    push_below(alloc, project, &sources, common, out)?;
    push_below(alloc, project, &sources, own, out)
}

// The same of the project that a file says, if the compiler writes files for it.
fn push_built(
    files: &Files<'_>,
    path: &str,
    out: &mut BTreeMap<String, String>,
) -> Result<(), AllocError> {
    let project = options_of(files, path)?;
    if project.scripts.is_some() || project.declarations.is_some() {
        push_written(files, folder_of(path), &project, out)?;
    }
    Ok(())
}

/// The sources of a folder by the files that the compiler writes for them.
pub fn built_files(
    files: &Files<'_>,
    folder: &str,
) -> Result<BTreeMap<String, String>, AllocError> {
    let mut found = BTreeMap::new(files.alloc());
    for path in projects_of(files, folder)? {
        push_built(files, path.as_str(), &mut found)?;
    }
    Ok(found)
}
