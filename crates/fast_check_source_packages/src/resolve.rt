//! Where the text by which a module names another one leads.
ghost use Rattle.std.specs.Prelude.{IfSome, string_bytes};
ghost use Rattle.fast_check_source_packages.specs.Folders.{LiesIn};

use crate::builds::file_of;
use crate::exports::{Entry, Taken};
use crate::imports::{Imports, Mapped};
use fast_check_source_configs::comments::self_types;
use fast_check_source_configs::paths::behind;
use fast_check_source_configs::tsconfig::Projects;
use fast_check_source_files::files::{Files, below, folder_of, joined};
use fast_check_source_files::languages::{Language, language_of};
use std::alloc::{AllocError, Global};

/// A package: its folder below the one that was named, its name, its version and its entry points, each with the path of its file.
#[derive(Drop)]
pub struct Package {
    pub folder: String,
    pub name: String,
    pub version: String,
    pub exports: Vec<Entry>,
    /// What is read in place of entry points that are written.
    pub taken: Vec<Taken>,
    pub imports: Imports,
}

/// Whether a text is a path from the folder of the module that has it.
pub fn is_relative(text: &str) -> bool {
    text.starts_with("./") || text.starts_with("../") || text == "." || text == ".."
}

/// The innermost package that a file lies in.
pub fn package_at<'a>(packages: &'a [Package], path: &str) -> Option<&'a Package>
    ensures { IfSome result (λ found. LiesIn (string_bytes found.now.folder) path.now) }
{
    let mut best: Option<&Package> = None;
    for package in packages {
        let folder = package.folder.as_str();
        let is_longer = match best {
            Some(other) => folder.len() > other.folder.len(),
            None => true,
        };
        if is_longer && behind(path, folder).is_some() {
            best = Some(package);
        }
    }
    best
}

// A text without the scheme of a registry.
fn without_scheme(text: &str) -> &str {
    for scheme in ["jsr:/", "npm:/", "jsr:", "npm:"] {
        if let Some(rest) = text.strip_prefix(scheme) {
            return rest;
        }
    }
    text
}

// What stands in a text behind the name of a package and its version: nothing, or a path that begins with `/`.
fn behind_name<'a>(text: &'a str, name: &str) -> Option<&'a str> {
    let rest = text.strip_prefix(name)?;
    if let Some(version) = rest.strip_prefix("@") {
        return match version.find("/") {
            Some(at) => version.get(at..),
            None => Some(""),
        };
    }
    if rest.is_empty() || rest.starts_with("/") {
        Some(rest)
    } else {
        None
    }
}

fn entry_at<'a>(package: &'a Package, key: &str) -> Option<&'a str> {
    for entry in package.exports.iter() {
        if entry.key.as_str() == key {
            return Some(entry.path.as_str());
        }
    }
    None
}

// The entry point of one of the packages that a text names.
fn of_package<'a>(
    alloc: Global,
    packages: &'a [Package],
    text: &str,
) -> Result<Option<&'a str>, AllocError> {
    let plain = without_scheme(text);
    for package in packages {
        if let Some(path) = behind_name(plain, package.name.as_str()) {
            let key = joined(alloc, ".", path)?;
            if let Some(found) = entry_at(package, key.as_str()) {
                return Ok(Some(found));
            }
        }
    }
    Ok(None)
}

fn has_scheme(text: &str) -> bool {
    match text.split_once(':') {
        Some((scheme, _)) => {
            !scheme.is_empty()
                && scheme.bytes().all(|byte| {
                    byte.is_ascii_alphanumeric() || byte == b'+' || byte == b'-' || byte == b'.'
                })
        }
        None => false,
    }
}

// The first of some paths for which there is a file.
fn first_of(
    files: &Files<'_>,
    projects: &mut Projects,
    from: &str,
    paths: &[String],
) -> Result<Option<String>, AllocError> {
    for path in paths {
        if let Some(found) = projects.find(files, from, path.as_str())? {
            return Ok(Some(found));
        }
    }
    Ok(None)
}

// The file of a relative path in a module.
fn relative(
    files: &Files<'_>,
    projects: &mut Projects,
    from: &str,
    text: &str,
) -> Result<Option<String>, AllocError> {
    let Some(path) = below(files.alloc(), folder_of(from), text)? else {
        return Ok(None);
    };
    let paths = projects.beside(files, from, path)?;
    first_of(files, projects, from, paths.as_slice())
}

// The file of a text by the paths of the compiler's configuration.
fn of_project(
    files: &Files<'_>,
    projects: &mut Projects,
    from: &str,
    text: &str,
) -> Result<Option<String>, AllocError> {
    if has_scheme(text) {
        return Ok(None);
    }
    let paths = projects.paths(files, from, text)?;
    first_of(files, projects, from, paths.as_slice())
}

// The file of a text that is no relative path, and that no map of imports has.
fn of_name(
    files: &Files<'_>,
    projects: &mut Projects,
    packages: &[Package],
    from: &str,
    text: &str,
) -> Result<Option<String>, AllocError> {
    if let Some(found) = of_project(files, projects, from, text)? {
        return Ok(Some(found));
    }
    match of_package(files.alloc(), packages, text)? {
        Some(path) => Ok(Some(String::from_str(files.alloc(), path)?)),
        None => Ok(None),
    }
}

// The file that a text leads to before links are followed.
fn first_found(
    files: &Files<'_>,
    projects: &mut Projects,
    packages: &[Package],
    from: &str,
    text: &str,
) -> Result<Option<String>, AllocError> {
    if is_relative(text) {
        return relative(files, projects, from, text);
    }
    let mapped = match package_at(packages, from) {
        Some(package) => package.imports.find(files.alloc(), text)?,
        None => Mapped::Unknown,
    };
    match mapped {
        Mapped::Elsewhere => Ok(None),
        Mapped::Path(path) => file_of(files, projects, path.as_str()),
        Mapped::Unknown => of_name(files, projects, packages, from, text),
    }
}

// The declaration file beside JavaScript, or the file itself.
fn declared(files: &Files<'_>, projects: &mut Projects, file: &str) -> Result<String, AllocError> {
    if language_of(file) == Language::JavaScript
        && let Some(found) = file_of(files, projects, file)?
    {
        return Ok(found);
    }
    String::from_str(files.alloc(), file)
}

// The declaration file that JavaScript names for itself.
fn named_by_itself(
    files: &Files<'_>,
    projects: &mut Projects,
    file: &str,
) -> Result<Option<String>, AllocError> {
    let Some(text) = files.read(file)? else {
        return Ok(None);
    };
    match self_types(text.as_str()) {
        Some(named) if is_relative(named) => relative(files, projects, file, named),
        _ => Ok(None),
    }
}

/// The declaration file of JavaScript, or the file itself.
pub fn typed(files: &Files<'_>, projects: &mut Projects, file: &str) -> Result<String, AllocError> {
    let found = declared(files, projects, file)?;
    if language_of(found.as_str()) == Language::JavaScript
        && let Some(types) = named_by_itself(files, projects, found.as_str())?
    {
        return Ok(types);
    }
    Ok(found)
}

/// A file behind links, where these do not lead out of the folder.
pub fn behind_links(files: &Files<'_>, file: &str) -> Result<String, AllocError> {
    match files.behind_links(file)? {
        Some(real) => Ok(real),
        None => String::from_str(files.alloc(), file),
    }
}

/// The file that a text in a module leads to, if it lies in the folder. A comment may have `named` its declarations.
pub fn resolve(
    files: &Files<'_>,
    projects: &mut Projects,
    packages: &[Package],
    from: &str,
    text: &str,
    named: Option<&str>,
) -> Result<Option<String>, AllocError> {
    if let Some(named) = named
        && is_relative(named)
        && let Some(types) = relative(files, projects, from, named)?
    {
        return Ok(Some(types));
    }
    match first_found(files, projects, packages, from, text)? {
        Some(file) => {
            let real = behind_links(files, file.as_str())?;
            Ok(Some(typed(files, projects, real.as_str())?))
        }
        None => Ok(None),
    }
}
