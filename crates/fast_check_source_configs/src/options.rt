//! What a `tsconfig.json` says, with the files that it extends.
use crate::paths::behind;
use fast_check_source_files::files::{Files, Standing, below, folder_of, joined};
use fast_check_source_files::globs::fits;
use fast_check_source_files::jsonc::value_of;
use fast_check_source_files::languages::{Language, language_of};
use serde_json::Value;
use std::alloc::{AllocError, Global};
use std::collections::BTreeSet;

const CONFIG_DIR: &str = "${configDir}";

/// What a file says, and where it does not, those that it extends. Paths begin at the folder that was named.
#[derive(Drop)]
pub struct Options {
    pub base: Option<String>,
    /// `paths`, and the folder of the file that has them.
    pub paths: Option<(Value, String)>,
    pub roots: Option<Vec<String>>,
    pub suffixes: Option<Vec<String>>,
    pub scripts: Option<String>,
    pub declarations: Option<String>,
    pub root: Option<String>,
    pub files: Option<Vec<String>>,
    pub include: Option<Vec<String>>,
    pub exclude: Option<Vec<String>>,
}

// The file that is read, and the folder of the outermost one, for which `${configDir}` stands.
#[derive(Clone, Copy)]
struct At<'a> {
    alloc: Global,
    folder: &'a str,
    outer: &'a str,
}

/// The object of a configuration, if it is there.
pub fn object_of(files: &Files<'_>, path: &str) -> Result<Option<Value>, AllocError> {
    match files.read(path)? {
        Some(text) => value_of(files.alloc(), text.as_str()),
        None => Ok(None),
    }
}

/// A path that is written in a file of a folder.
pub fn written(
    alloc: Global,
    folder: &str,
    outer: &str,
    path: &str,
) -> Result<Option<String>, AllocError> {
    match path.strip_prefix(CONFIG_DIR) {
        Some(rest) => below(alloc, outer, rest),
        None => below(alloc, folder, path),
    }
}

// The file that a text behind `extends` names.
fn extended(files: &Files<'_>, folder: &str, text: &str) -> Result<Option<String>, AllocError> {
    let alloc = files.alloc();
    let is_path = text.starts_with("./") || text.starts_with("../") || text == "." || text == "..";
    let wanted = if is_path {
        below(alloc, folder, text)?
    } else {
        below(alloc, "node_modules", text)?
    };
    let Some(wanted) = wanted else {
        return Ok(None);
    };
    for ending in ["", ".json", "/tsconfig.json"] {
        let path = joined(alloc, wanted.as_str(), ending)?;
        if files.is_file(path.as_str())? {
            return Ok(Some(path));
        }
    }
    Ok(None)
}

// Pushes the files that a configuration extends, the one that counts most last.
fn push_extended(
    files: &Files<'_>,
    folder: &str,
    object: &Value,
    out: &mut Vec<String>,
) -> Result<(), AllocError> {
    let Some(extends) = object.get("extends") else {
        return Ok(());
    };
    if let Some(text) = extends.as_str() {
        if let Some(path) = extended(files, folder, text)? {
            out.push(path)?;
        }
    } else if let Some(list) = extends.as_array() {
        for each in list.iter() {
            if let Some(text) = each.as_str()
                && let Some(path) = extended(files, folder, text)?
            {
                out.push(path)?;
            }
        }
    }
    Ok(())
}

impl<'a> At<'a> {
    fn path(self, object: &Value, key: &str) -> Result<Option<String>, AllocError> {
        match object.get(key).and_then(Value::as_str) {
            Some(text) => written(self.alloc, self.folder, self.outer, text),
            None => Ok(None),
        }
    }

    fn paths(self, object: &Value, key: &str) -> Result<Option<Vec<String>>, AllocError> {
        let Some(list) = object.get(key).and_then(Value::as_array) else {
            return Ok(None);
        };
        let mut paths = Vec::new(self.alloc);
        for each in list.iter() {
            if let Some(text) = each.as_str()
                && let Some(path) = written(self.alloc, self.folder, self.outer, text)?
            {
                paths.push(path)?;
            }
        }
        Ok(Some(paths))
    }

    fn texts(self, object: &Value, key: &str) -> Result<Option<Vec<String>>, AllocError> {
        let Some(list) = object.get(key).and_then(Value::as_array) else {
            return Ok(None);
        };
        let mut texts = Vec::new(self.alloc);
        for each in list.iter() {
            if let Some(text) = each.as_str() {
                texts.push(String::from_str(self.alloc, text)?)?;
            }
        }
        Ok(Some(texts))
    }
}

impl Options {
    fn none() -> Options {
        Options {
            base: None,
            paths: None,
            roots: None,
            suffixes: None,
            scripts: None,
            declarations: None,
            root: None,
            files: None,
            include: None,
            exclude: None,
        }
    }

    // Takes the lists of sources that no file before says.
    fn take_sources(&mut self, at: At<'_>, object: &Value) -> Result<(), AllocError> {
        if self.files.is_none() {
            self.files = at.paths(object, "files")?;
        }
        if self.include.is_none() {
            self.include = at.paths(object, "include")?;
        }
        if self.exclude.is_none() {
            self.exclude = at.paths(object, "exclude")?;
        }
        Ok(())
    }

    // Takes the folders that no file before says.
    fn take_folders(&mut self, at: At<'_>, own: &Value) -> Result<(), AllocError> {
        if self.base.is_none() {
            self.base = at.path(own, "baseUrl")?;
        }
        if self.scripts.is_none() {
            self.scripts = at.path(own, "outDir")?;
        }
        if self.declarations.is_none() {
            self.declarations = at.path(own, "declarationDir")?;
        }
        if self.root.is_none() {
            self.root = at.path(own, "rootDir")?;
        }
        if self.roots.is_none() {
            self.roots = at.paths(own, "rootDirs")?;
        }
        Ok(())
    }

    // Takes what no file before says.
    fn take(&mut self, at: At<'_>, object: &Value) -> Result<(), AllocError> {
        self.take_sources(at, object)?;
        let Some(own) = object.get("compilerOptions") else {
            return Ok(());
        };
        self.take_folders(at, own)?;
        if self.suffixes.is_none() {
            self.suffixes = at.texts(own, "moduleSuffixes")?;
        }
        if self.paths.is_none()
            && let Some(paths) = own.get("paths")
        {
            self.paths = Some((paths.clone()?, String::from_str(at.alloc, at.folder)?));
        }
        Ok(())
    }

    /// Where the compiler writes scripts, and where their declarations.
    pub fn targets(&self) -> (Option<&str>, Option<&str>) {
        let scripts = match &self.scripts {
            Some(folder) => Some(folder.as_str()),
            None => None,
        };
        match &self.declarations {
            Some(folder) => (scripts, Some(folder.as_str())),
            None => (scripts, scripts),
        }
    }
}

// Takes what a file says, and pushes those that it extends.
fn read_file(
    files: &Files<'_>,
    outer: &str,
    path: &str,
    options: &mut Options,
    waiting: &mut Vec<String>,
) -> Result<(), AllocError> {
    let Some(object) = object_of(files, path)? else {
        return Ok(());
    };
    let alloc = files.alloc();
    let folder = folder_of(path);
    let at = At {
        alloc,
        folder,
        outer,
    };
    options.take(at, &object)?;
    push_extended(files, folder, &object, waiting)
}

// Takes what a file says, and then what those say that it extends.
fn read_files(files: &Files<'_>, file: &str, options: &mut Options) -> Result<(), AllocError> {
    let alloc = files.alloc();
    let mut seen = BTreeSet::new(alloc);
    let mut waiting = Vec::new(alloc);
    waiting.push(String::from_str(alloc, file)?)?;
    for _turn in 0..u64::MAX {
        let Some(path) = waiting.pop() else {
            break;
        };
        if !seen.contains(path.as_str()) {
            read_file(files, folder_of(file), path.as_str(), options, &mut waiting)?;
            let _ = seen.insert(path)?;
        }
    }
    Ok(())
}

/// The options of a configuration, without those of the ones that it refers to.
pub fn options_of(files: &Files<'_>, file: &str) -> Result<Options, AllocError> {
    let mut options = Options::none();
    read_files(files, file, &mut options)?;
    Ok(options)
}

// Whether a path fits a pattern, or lies in a folder that does.
fn lies_in(alloc: Global, patterns: &[String], path: &str) -> Result<bool, AllocError> {
    for pattern in patterns {
        if fits(alloc, pattern.as_str(), path)? {
            return Ok(true);
        }
        let inner = joined(alloc, pattern.as_str(), "/**")?;
        if fits(alloc, inner.as_str(), path)? {
            return Ok(true);
        }
    }
    Ok(false)
}

// Whether a configuration takes a file among its sources.
fn takes(alloc: Global, options: &Options, path: &str) -> Result<bool, AllocError> {
    if let Some(listed) = &options.files {
        if listed.iter().any(|it| it.as_str() == path) {
            return Ok(true);
        }
        if options.include.is_none() {
            return Ok(false);
        }
    }
    if let Some(include) = &options.include
        && !lies_in(alloc, include.as_slice(), path)?
    {
        return Ok(false);
    }
    if let Some(exclude) = &options.exclude {
        return Ok(!lies_in(alloc, exclude.as_slice(), path)?);
    }
    for target in [&options.scripts, &options.declarations] {
        if let Some(target) = target
            && behind(path, target.as_str()).is_some()
        {
            return Ok(false);
        }
    }
    Ok(true)
}

// The folder in which all files lie that fit a pattern.
fn top_of(pattern: &str) -> &str {
    let mut end = pattern.len();
    for sign in ["*", "?"] {
        if let Some(at) = pattern.find(sign) {
            end = end.min(at);
        }
    }
    match pattern.get(..end) {
        Some(fixed) => folder_of(fixed),
        None => "",
    }
}

// Adds the sources below a folder that a configuration takes.
fn push_sources(
    files: &Files<'_>,
    top: &str,
    options: &Options,
    out: &mut BTreeSet<String>,
) -> Result<(), AllocError> {
    for path in files.all_below(top, Standing::File)? {
        if language_of(path.as_str()) == Language::TypeScript
            && takes(files.alloc(), options, path.as_str())?
        {
            let _ = out.insert(path)?;
        }
    }
    Ok(())
}

// Adds the sources that a configuration names one by one.
fn push_listed(
    files: &Files<'_>,
    listed: &[String],
    out: &mut BTreeSet<String>,
) -> Result<(), AllocError> {
    for path in listed {
        if language_of(path.as_str()) == Language::TypeScript && files.is_file(path.as_str())? {
            let _ = out.insert(path.clone()?)?;
        }
    }
    Ok(())
}

// Adds the sources that the patterns of a configuration take.
fn push_included(
    files: &Files<'_>,
    include: &[String],
    options: &Options,
    out: &mut BTreeSet<String>,
) -> Result<(), AllocError> {
    let mut tops = BTreeSet::new(files.alloc());
    for pattern in include {
        let top = top_of(pattern.as_str());
        if tops.insert(top)? {
            push_sources(files, top, options, out)?;
        }
    }
    Ok(())
}

/// Adds the sources that a configuration in a folder takes.
pub fn add_sources(
    files: &Files<'_>,
    folder: &str,
    options: &Options,
    out: &mut BTreeSet<String>,
) -> Result<(), AllocError> {
    if let Some(listed) = &options.files {
        push_listed(files, listed.as_slice(), out)?;
    }
    if let Some(include) = &options.include {
        push_included(files, include.as_slice(), options, out)
    } else if options.files.is_none() {
        push_sources(files, folder, options, out)
    } else {
        Ok(())
    }
}
