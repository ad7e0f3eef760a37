//! What the `tsconfig.json` above a file says of imports: `paths`, `baseUrl`, `rootDirs` and `moduleSuffixes`, also by `extends` and `references`.
use crate::options::{Options, object_of, options_of, written};
use crate::paths::{behind, with_rest};
use crate::patterns::{Fit, Patterns};
use fast_check_source_files::files::{Files, below, folder_of};
use serde_json::Value;
use std::alloc::{AllocError, Global};
use std::collections::BTreeMap;

const NAME: &str = "tsconfig.json";

// What a project says of imports. Its paths begin at the folder that was named.
#[derive(Drop)]
struct Project {
    base: Option<String>,
    // What a key with at most one `*` stands for.
    aliases: BTreeMap<String, Vec<String>>,
    patterns: Patterns,
    has_aliases: bool,
    roots: Vec<String>,
    suffixes: Vec<String>,
}

/// The projects of the folders that were asked for.
#[derive(Drop)]
pub struct Projects {
    known: BTreeMap<String, usize>,
    projects: Vec<Project>,
}

// The paths of `paths`, which begin at a folder.
fn aliases_of(
    alloc: Global,
    paths: &Value,
    folder: &str,
    outer: &str,
) -> Result<BTreeMap<String, Vec<String>>, AllocError> {
    let mut made = BTreeMap::new(alloc);
    let Some(map) = paths.as_object() else {
        return Ok(made);
    };
    for (key, listed) in map.iter() {
        let mut targets = Vec::new(alloc);
        if let Some(list) = listed.as_array() {
            for each in list.iter() {
                if let Some(text) = each.as_str()
                    && let Some(path) = written(alloc, folder, outer, text)?
                {
                    targets.push(path)?;
                }
            }
        }
        let _ = made.insert(String::from_str(alloc, key.as_str())?, targets)?;
    }
    Ok(made)
}

fn or_none(alloc: Global, texts: Option<Vec<String>>) -> Vec<String> {
    match texts {
        Some(texts) => texts,
        None => Vec::new(alloc),
    }
}

// The project of a file, without those that it refers to.
fn project_of(files: &Files<'_>, file: &str) -> Result<Project, AllocError> {
    let alloc = files.alloc();
    let Options {
        base,
        paths,
        roots,
        suffixes,
        ..
    } = options_of(files, file)?;
    let has_aliases = base.is_some() || paths.is_some();
    let aliases = match paths {
        Some((paths, folder)) => {
            let from = match &base {
                Some(base) => base.as_str(),
                None => folder.as_str(),
            };
            aliases_of(alloc, &paths, from, folder_of(file))?
        }
        None => BTreeMap::new(alloc),
    };
    let mut patterns = Patterns::new(alloc);
    for key in aliases.keys() {
        patterns.note(key.as_str())?;
    }
    Ok(Project {
        base,
        aliases,
        patterns,
        has_aliases,
        roots: or_none(alloc, roots),
        suffixes: or_none(alloc, suffixes),
    })
}

/// The files of the projects that a file refers to.
pub fn references(files: &Files<'_>, file: &str) -> Result<Vec<String>, AllocError> {
    let alloc = files.alloc();
    let mut found = Vec::new(alloc);
    let Some(object) = object_of(files, file)? else {
        return Ok(found);
    };
    let Some(list) = object.get("references").and_then(Value::as_array) else {
        return Ok(found);
    };
    for each in list.iter() {
        if let Some(text) = each.get("path").and_then(Value::as_str)
            && let Some(path) = below(alloc, folder_of(file), text)?
        {
            if path.as_str().ends_with(".json") {
                found.push(path)?;
            } else if let Some(inner) = below(alloc, path.as_str(), NAME)? {
                found.push(inner)?;
            }
        }
    }
    Ok(found)
}

// A file's project, or where that has no aliases, the first that it refers to and that has some.
fn with_references(files: &Files<'_>, file: &str) -> Result<Project, AllocError> {
    let own = project_of(files, file)?;
    if own.has_aliases {
        return Ok(own);
    }
    for other in references(files, file)? {
        let project = project_of(files, other.as_str())?;
        if project.has_aliases {
            return Ok(project);
        }
    }
    Ok(own)
}

fn no_project(alloc: Global) -> Project {
    Project {
        base: None,
        aliases: BTreeMap::new(alloc),
        patterns: Patterns::new(alloc),
        has_aliases: false,
        roots: Vec::new(alloc),
        suffixes: Vec::new(alloc),
    }
}

// The nearest folder from one upwards that has a file, or the outermost one.
fn nearest<'a>(files: &Files<'_>, folder: &'a str) -> Result<&'a str, AllocError> {
    let alloc = files.alloc();
    let mut at = folder;
    for _turn in 0..folder.len() {
        if let Some(file) = below(alloc, at, NAME)?
            && files.is_file(file.as_str())?
        {
            break;
        }
        at = folder_of(at);
    }
    Ok(at)
}

// The project of the file of a folder, if it has one.
fn project_in(files: &Files<'_>, folder: &str) -> Result<Project, AllocError> {
    let alloc = files.alloc();
    if let Some(file) = below(alloc, folder, NAME)?
        && files.is_file(file.as_str())?
    {
        return with_references(files, file.as_str());
    }
    Ok(no_project(alloc))
}

impl Project {
    // The paths that the aliases make of a text.
    fn push_aliases(
        &self,
        alloc: Global,
        text: &str,
        out: &mut Vec<String>,
    ) -> Result<(), AllocError> {
        if let Some(Fit { target, rest }) = self.patterns.find(alloc, &self.aliases, text)? {
            for path in target.iter() {
                out.push(with_rest(alloc, path.as_str(), rest)?)?;
            }
        }
        if let Some(base) = &self.base
            && let Some(path) = below(alloc, base.as_str(), text)?
        {
            out.push(path)?;
        }
        Ok(())
    }

    // The paths that a path may stand for beside itself, since its folder is one of several that the compiler takes as one.
    fn push_beside(
        &self,
        alloc: Global,
        wanted: &str,
        out: &mut Vec<String>,
    ) -> Result<(), AllocError> {
        let mut best: Option<&str> = None;
        for root in self.roots.iter() {
            if let Some(rest) = behind(wanted, root.as_str()) {
                best = match best {
                    Some(before) if before.len() <= rest.len() => Some(before),
                    _ => Some(rest),
                };
            }
        }
        if let Some(rest) = best {
            for root in self.roots.iter() {
                if let Some(path) = below(alloc, root.as_str(), rest)? {
                    out.push(path)?;
                }
            }
        }
        Ok(())
    }
}

impl Projects {
    pub fn new(alloc: Global) -> Projects {
        Projects {
            known: BTreeMap::new(alloc),
            projects: Vec::new(alloc),
        }
    }

    // The place of the project of the file of a folder.
    fn of_file(&mut self, files: &Files<'_>, folder: &str) -> Result<usize, AllocError> {
        if let Some(found) = self.known.get(folder) {
            return Ok(*found);
        }
        let place = self.projects.len();
        self.projects.push(project_in(files, folder)?)?;
        let key = String::from_str(files.alloc(), folder)?;
        let _ = self.known.insert(key, place)?;
        Ok(place)
    }

    // The place of the project of the nearest file above those of a folder.
    fn of_folder(&mut self, files: &Files<'_>, folder: &str) -> Result<usize, AllocError> {
        if let Some(found) = self.known.get(folder) {
            return Ok(*found);
        }
        let place = self.of_file(files, nearest(files, folder)?)?;
        let key = String::from_str(files.alloc(), folder)?;
        let _ = self.known.insert(key, place)?;
        Ok(place)
    }

    /// The file that a path stands for in a module, as the compiler finds it.
    pub fn find(
        &mut self,
        files: &Files<'_>,
        from: &str,
        wanted: &str,
    ) -> Result<Option<String>, AllocError> {
        let place = self.of_folder(files, folder_of(from))?;
        match self.projects.get(place) {
            Some(project) => files.find(wanted, project.suffixes.as_slice()),
            None => files.find(wanted, &[]),
        }
    }

    /// The paths that a text in a module may stand for, which is no relative path.
    pub fn paths(
        &mut self,
        files: &Files<'_>,
        from: &str,
        text: &str,
    ) -> Result<Vec<String>, AllocError> {
        let mut found = Vec::new(files.alloc());
        let place = self.of_folder(files, folder_of(from))?;
        if let Some(project) = self.projects.get(place) {
            project.push_aliases(files.alloc(), text, &mut found)?;
        }
        Ok(found)
    }

    /// The paths that a path in a module may stand for.
    pub fn beside(
        &mut self,
        files: &Files<'_>,
        from: &str,
        wanted: String,
    ) -> Result<Vec<String>, AllocError> {
        let mut found = Vec::new(files.alloc());
        let place = self.of_folder(files, folder_of(from))?;
        if let Some(project) = self.projects.get(place) {
            project.push_beside(files.alloc(), wanted.as_str(), &mut found)?;
        }
        found.push(wanted)?;
        Ok(found)
    }
}
