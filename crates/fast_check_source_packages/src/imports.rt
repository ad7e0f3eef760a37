//! Maps of imports.
use fast_check_source_configs::paths::with_rest;
use fast_check_source_configs::patterns::{Fit, Patterns};
use fast_check_source_files::files::joined;
use std::alloc::{AllocError, Global};
use std::collections::{BTreeMap, BTreeSet};

/// What names of imports stand for: the path of a file, or nothing where they lead elsewhere.
#[derive(Drop)]
pub struct Imports {
    targets: BTreeMap<String, Option<String>>,
    patterns: Patterns,
    // The lengths of the keys for folders.
    folders: BTreeSet<usize>,
}

/// What a map of imports makes of a text: nothing where no entry fits, and no path where it leads elsewhere.
#[derive(Drop)]
pub enum Mapped {
    Unknown,
    Elsewhere,
    Path(String),
}

impl Imports {
    /// The map of these targets. A key that ends with `/` stands for a folder too.
    pub fn new(
        alloc: Global,
        targets: BTreeMap<String, Option<String>>,
    ) -> Result<Imports, AllocError> {
        let mut patterns = Patterns::new(alloc);
        let mut folders = BTreeSet::new(alloc);
        for key in targets.keys() {
            let key = key.as_str();
            patterns.note(key)?;
            if key.ends_with("/") {
                let _ = folders.insert(key.len())?;
            }
        }
        Ok(Imports {
            targets,
            patterns,
            folders,
        })
    }

    // The target of the longest key for a folder that a text lies in, and what stands behind it.
    fn by_folder<'a>(&'a self, text: &'a str) -> Option<Fit<'a, Option<String>>> {
        for length in self.folders.iter().rev() {
            if let Some(folder) = text.get(..*length)
                && folder.ends_with("/")
                && let Some(target) = self.targets.get(folder)
                && let Some(rest) = text.get(*length..)
            {
                return Some(Fit { target, rest });
            }
        }
        None
    }

    /// What the map makes of a text.
    pub fn find(&self, alloc: Global, text: &str) -> Result<Mapped, AllocError> {
        if let Some(Fit { target, rest }) = self.patterns.find(alloc, &self.targets, text)? {
            return match target {
                Some(target) => Ok(Mapped::Path(with_rest(alloc, target.as_str(), rest)?)),
                None => Ok(Mapped::Elsewhere),
            };
        }
        match self.by_folder(text) {
            Some(
                Fit {
                    target: Some(target),
                    rest,
                },
            ) => Ok(Mapped::Path(joined(alloc, target.as_str(), rest)?)),
            Some(Fit { target: None, .. }) => Ok(Mapped::Elsewhere),
            None => Ok(Mapped::Unknown),
        }
    }
}
