//! Files below a folder, by their paths from it.
ghost use Rattle.std.specs.Prelude.{◌≡◌, ◌++◌, IfOk, string_bytes};

use std::alloc::{AllocError, Global};
use std::fs::{self, Metadata};
use std::io::{self, ErrorKind};

// What TypeScript looks for in place of an ending that is written.
const REPLACED: [(&str, &[&str]); 8] = [
    (".js", &[".ts", ".tsx", ".d.ts", ".js", ".jsx"]),
    (".ts", &[".ts", ".tsx", ".d.ts", ".js", ".jsx"]),
    (".mjs", &[".mts", ".d.mts", ".mjs"]),
    (".mts", &[".mts", ".d.mts", ".mjs"]),
    (".cjs", &[".cts", ".d.cts", ".cjs"]),
    (".cts", &[".cts", ".d.cts", ".cjs"]),
    (".jsx", &[".tsx", ".ts", ".d.ts", ".jsx", ".js"]),
    (".tsx", &[".tsx", ".ts", ".d.ts", ".jsx", ".js"]),
];

// A path without an ending that is replaced, and what TypeScript looks for in its place.
fn instead(name: &str) -> (&str, &'static [&'static str]) {
    for (ending, others) in REPLACED {
        if let Some(stem) = name.strip_suffix(ending) {
            return (stem, others);
        }
    }
    (name, &[])
}

const ADDED: [&str; 5] = [".ts", ".tsx", ".d.ts", ".js", ".jsx"];

// What the system gives, or none where it refuses. That memory ran out is no answer of the system's.
fn given<T: Drop>(asked: io::Result<T>) -> Result<Option<T>, AllocError> {
    match asked {
        Ok(value) => Ok(Some(value)),
        Err(error) if error.kind() == ErrorKind::OutOfMemory => Err(AllocError),
        Err(_) => Ok(None),
    }
}

/// What stands at a path.
#[derive(Clone, Copy, PartialEq, Eq)]
pub enum Standing {
    Nothing,
    Folder,
    File,
    /// What is no regular file, as a pipe.
    Other,
}

// What stands where something was found.
fn standing_of(found: &Metadata) -> Standing {
    if found.is_dir() {
        Standing::Folder
    } else if found.is_file() {
        Standing::File
    } else {
        Standing::Other
    }
}

/// One text behind another.
pub fn joined(alloc: Global, first: &str, second: &str) -> Result<String, AllocError>
    ensures { IfOk result (λ made. string_bytes made ≡ first.now ++ second.now) }
{
    let mut made = String::from_str(alloc, first)?;
    made.push_str(second)?;
    Ok(made)
}

/// A path that is written in a folder, as a path from the folder that was named. None where it leads out of that.
pub fn below(alloc: Global, folder: &str, path: &str) -> Result<Option<String>, AllocError> {
    let mut parts: Vec<&str> = Vec::new(alloc);
    for part in folder.split('/').chain(path.split('/')) {
        match part {
            "" | "." => {}
            ".." => {
                if parts.pop().is_none() {
                    return Ok(None);
                }
            }
            _ => parts.push(part)?,
        }
    }
    let mut made = String::new(alloc);
    for part in parts.iter() {
        if !made.is_empty() {
            made.push_str("/")?;
        }
        made.push_str(*part)?;
    }
    Ok(Some(made))
}

/// The folder of a file.
pub fn folder_of(path: &str) -> &str {
    match path.rfind("/") {
        Some(end) => match path.get(..end) {
            Some(folder) => folder,
            None => "",
        },
        None => "",
    }
}

/// The name of a file in its folder.
pub fn name_of(path: &str) -> &str {
    match path.rsplit_once('/') {
        Some((_, name)) => name,
        None => path,
    }
}

/// Where the text of a file lies that is read in place of its own.
#[derive(Drop)]
pub struct Text {
    /// The path of the file from the folder that was named.
    pub path: String,
    /// The path of the other one, as the system takes it.
    pub file: String,
}

/// The files of a folder.
#[derive(Drop)]
pub struct Files<'a> {
    pub rt: &'a HostRuntime,
    root: &'a str,
    // The folder behind all links.
    real: String,
    texts: &'a [Text],
}

impl<'a> Files<'a> {
    pub fn new(
        rt: &'a HostRuntime,
        root: &'a str,
        texts: &'a [Text],
    ) -> Result<Files<'a>, AllocError> {
        let real = match given(fs::canonicalize(rt, root))? {
            Some(path) => path.into_string(),
            None => String::from_str(rt.alloc(), root)?,
        };
        Ok(Files {
            rt,
            root,
            real,
            texts,
        })
    }

    pub fn alloc(&self) -> Global {
        self.rt.alloc()
    }

    /// The name of the folder that was named.
    pub fn name(&self) -> &str {
        name_of(self.real.as_str())
    }

    /// A path as the system takes it.
    pub fn whole(&self, path: &str) -> Result<String, AllocError> {
        let mut name = joined(self.alloc(), self.root, "/")?;
        name.push_str(path)?;
        Ok(name)
    }

    /// What stands at a path, behind links.
    pub fn standing(&self, path: &str) -> Result<Standing, AllocError> {
        let name = self.whole(path)?;
        Ok(match given(fs::metadata(self.rt, name.as_str()))? {
            Some(found) => standing_of(&found),
            None => Standing::Nothing,
        })
    }

    pub fn is_file(&self, path: &str) -> Result<bool, AllocError> {
        Ok(matches!(self.standing(path)?, Standing::File | Standing::Other))
    }

    /// The path behind links, if it lies in the folder.
    pub fn behind_links(&self, path: &str) -> Result<Option<String>, AllocError> {
        let name = self.whole(path)?;
        let Some(found) = given(fs::canonicalize(self.rt, name.as_str()))? else {
            return Ok(None);
        };
        let real = found.into_string();
        let Some(rest) = real.as_str().strip_prefix(self.real.as_str()) else {
            return Ok(None);
        };
        match rest.strip_prefix("/") {
            Some(own) => Ok(Some(String::from_str(self.alloc(), own)?)),
            None => Ok(None),
        }
    }

    /// Why a file that is there is not read.
    pub fn refusal(&self, path: &str) -> Result<Option<&'static str>, AllocError> {
        if self.standing(path)? == Standing::Other {
            return Ok(Some("this is no regular file"));
        }
        if self.behind_links(path)?.is_none() {
            return Ok(Some("this link leads out of the folder"));
        }
        Ok(None)
    }

    // The path, as the system takes it, of the file that has the text of a file.
    fn source(&self, path: &str) -> Result<String, AllocError> {
        for text in self.texts {
            if text.path.as_str() == path {
                return String::from_str(self.alloc(), text.file.as_str());
            }
        }
        self.whole(path)
    }

    /// The text of a file without its mark of byte order, if it is there and may be read.
    pub fn read(&self, path: &str) -> Result<Option<String>, AllocError> {
        if !self.is_file(path)? || self.refusal(path)?.is_some() {
            return Ok(None);
        }
        let name = self.source(path)?;
        let Some(text) = given(fs::read_to_string(self.rt, name.as_str()))? else {
            return Ok(None);
        };
        match text.as_str().strip_prefix("\u{feff}") {
            Some(rest) => Ok(Some(String::from_str(self.alloc(), rest)?)),
            None => Ok(Some(text)),
        }
    }

    fn first_of(
        &self,
        stem: &str,
        endings: &[&str],
        suffixes: &[String],
    ) -> Result<Option<String>, AllocError> {
        for ending in endings {
            for suffix in suffixes {
                let mut path = joined(self.alloc(), stem, suffix.as_str())?;
                path.push_str(*ending)?;
                if self.is_file(path.as_str())? {
                    return Ok(Some(path));
                }
            }
            if suffixes.is_empty() {
                let path = joined(self.alloc(), stem, *ending)?;
                if self.is_file(path.as_str())? {
                    return Ok(Some(path));
                }
            }
        }
        Ok(None)
    }

    // The declarations of a file with another ending than those of code: `a.d.css.ts` of `a.css`.
    fn declarations_of(
        &self,
        wanted: &str,
        suffixes: &[String],
    ) -> Result<Option<String>, AllocError> {
        let Some((stem, ending)) = wanted.rsplit_once('.') else {
            return Ok(None);
        };
        if ending.is_empty() || ending.contains("/") {
            return Ok(None);
        }
        let mut path = joined(self.alloc(), stem, ".d.")?;
        path.push_str(ending)?;
        self.first_of(path.as_str(), &[".ts"], suffixes)
    }

    /// The file that a path without or with an ending stands for, as TypeScript finds it. Before the ending stands one of the `suffixes`, if there are any.
    pub fn find(&self, wanted: &str, suffixes: &[String]) -> Result<Option<String>, AllocError> {
        let (stem, endings) = instead(wanted);
        if let Some(found) = self.first_of(stem, endings, suffixes)? {
            return Ok(Some(found));
        }
        if endings.is_empty()
            && let Some(found) = self.declarations_of(wanted, suffixes)?
        {
            return Ok(Some(found));
        }
        if self.is_file(wanted)? {
            return Ok(Some(String::from_str(self.alloc(), wanted)?));
        }
        if let Some(found) = self.first_of(wanted, &ADDED, suffixes)? {
            return Ok(Some(found));
        }
        let index = joined(self.alloc(), wanted, "/index")?;
        self.first_of(index.as_str(), &ADDED, suffixes)
    }

    // Pushes the paths of what lies in a folder, but for what is hidden and for `node_modules`.
    fn push_listed(&self, folder: &str, out: &mut Vec<String>) -> Result<(), AllocError> {
        let name = self.whole(folder)?;
        let Some(entries) = given(fs::read_dir(self.rt, name.as_str()))? else {
            return Ok(());
        };
        for entry in entries {
            let Some(entry) = given(entry)? else {
                break;
            };
            let own = entry.file_name();
            if !own.starts_with(".") && own != "node_modules" {
                let path = if folder.is_empty() {
                    String::from_str(self.alloc(), own)?
                } else {
                    let mut path = joined(self.alloc(), folder, "/")?;
                    path.push_str(own)?;
                    path
                };
                out.push(path)?;
            }
        }
        Ok(())
    }

    /// The paths of what lies in a folder, in order, but for what is hidden and for `node_modules`.
    pub fn listed(&self, folder: &str) -> Result<Vec<String>, AllocError> {
        let mut found = Vec::new(self.alloc());
        self.push_listed(folder, &mut found)?;
        found.sort()?;
        Ok(found)
    }

    /// The paths of the files (or of the folders) below a folder, in order.
    pub fn all_below(&self, folder: &str, wanted: Standing) -> Result<Vec<String>, AllocError> {
        let mut waiting = Vec::new(self.alloc());
        self.push_listed(folder, &mut waiting)?;
        let mut found = Vec::new(self.alloc());
        for _turn in 0..u64::MAX {
            let Some(path) = waiting.pop() else {
                break;
            };
            let own = self.own_standing(path.as_str())?;
            if own == Some(Standing::Folder) {
                self.push_listed(path.as_str(), &mut waiting)?;
            }
            let standing = match own {
                Some(standing) => standing,
                None => self.standing(path.as_str())?,
            };
            if standing == wanted {
                found.push(path)?;
            }
        }
        found.sort()?;
        Ok(found)
    }

    // What stands at a path itself, or none where it is a link.
    fn own_standing(&self, path: &str) -> Result<Option<Standing>, AllocError> {
        let name = self.whole(path)?;
        Ok(match given(fs::symlink_metadata(self.rt, name.as_str()))? {
            Some(found) if found.is_symlink() => None,
            Some(found) => Some(standing_of(&found)),
            None => Some(Standing::Nothing),
        })
    }
}
