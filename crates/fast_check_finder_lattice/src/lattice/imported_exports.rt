//! What is demanded of a module, as the finder of public ranges of deno_graph keeps it.

ghost use Rattle.std.specs.Prelude.{◌≡◌, Some, ◌∷◌, [], IfOk, OnErr};
ghost use Rattle.std.specs.Str.{bytes_eq};
ghost use Rattle.fast_check_finder_lattice.specs.Names.{Touched, paths, path_of, part_of, whole, IsSame};
ghost use Rattle.fast_check_finder_lattice.specs.Imports.{default_name, imported, IsAdded, IsCopy, IsDepName};

use crate::lattice::named_subset::NamedSubset;
use fast_check_tables_symbols::FileDepName;
use std::alloc::{AllocError, Global};

/// What is demanded of a module: all names but `default`, all names, or a set of names.
#[derive(Debug, Drop)]
pub enum ImportedExports {
    /// All names but `default`.
    Star,
    /// All names.
    StarWithDefault,
    /// The names of the set.
    Subset(NamedSubset),
}

impl Clone for ImportedExports {
    ghost is_clone = { IsCopy };

    fn clone(&self) -> Result<ImportedExports, AllocError> {
        match self {
            ImportedExports::Star => Ok(ImportedExports::Star),
            ImportedExports::StarWithDefault => Ok(ImportedExports::StarWithDefault),
            ImportedExports::Subset(names) => Ok(ImportedExports::Subset(names.clone()?)),
        }
    }
}

/// The set of one name alone, whole.
fn name_alone(alloc: Global, name: &str) -> Result<NamedSubset, AllocError>
    ensures { IfOk result (λ subset. IsSame (paths subset) (whole name.now [])) }
{
    let mut names = NamedSubset::default(alloc);
    names.add(alloc, String::from_str(alloc, name)?)?;
    Ok(names)
}

/// Whether a name is `default`.
fn is_default(name: &str) -> bool
    ensures { result ≡ bytes_eq default_name name.now }
{
    "default" == name
}

/// Adds a set of names to another, and answers those that were lacking: None where nothing is new.
fn add_names(
    alloc: Global,
    names: &mut NamedSubset,
    new_subset: NamedSubset,
) -> Result<Option<ImportedExports>, AllocError>
    ensures added { IfOk result (λ answer. IsAdded (ImportedExports.Subset names.old) (ImportedExports.Subset new_subset)
        answer (ImportedExports.Subset names.new)) }
    ensures err { OnErr result (names.new ≡ names.old) }
{
    let rest = names.extend(alloc, new_subset)?;
    if rest.is_empty() {
        return Ok(None);
    }
    Ok(Some(ImportedExports::Subset(rest)))
}

impl ImportedExports {
    /// All names but `default`.
    pub fn star() -> ImportedExports
        ensures { result ≡ ImportedExports.Star }
    {
        Self::Star
    }

    /// All names.
    pub fn star_with_default() -> ImportedExports
        ensures { result ≡ ImportedExports.StarWithDefault }
    {
        Self::StarWithDefault
    }

    /// The names of a set.
    pub fn subset(named: NamedSubset) -> ImportedExports
        ensures { result ≡ ImportedExports.Subset named }
    {
        Self::Subset(named)
    }

    /// What a declaration that refers to a file demands of it.
    pub fn from_file_dep_name(
        alloc: Global,
        dep_name: &FileDepName,
    ) -> Result<ImportedExports, AllocError>
        ensures { IfOk result (IsDepName dep_name.now) }
    {
        match dep_name {
            FileDepName::Star => Ok(ImportedExports::Star),
            FileDepName::Name(name) => {
                Ok(ImportedExports::Subset(name_alone(alloc, name.as_str())?))
            }
        }
    }

    /// Whether a path is demanded: a name, and the names below it, whole or at least in part.
    pub fn demands_path(&self, first: &str, rest: &[String], is_whole: bool) -> bool
        ensures { result ≡ imported self.now (part_of is_whole) (first.now ∷ path_of rest.now) }
    {
        match self {
            ImportedExports::Star => !is_default(first),
            ImportedExports::StarWithDefault => true,
            ImportedExports::Subset(names) => names.demands_path(first, rest, is_whole),
        }
    }

    /// Whether `default` or something below it is demanded.
    fn names_default(&self) -> bool
        ensures { result ≡ imported self.now Touched (default_name ∷ []) }
    {
        match self {
            ImportedExports::Star => false,
            ImportedExports::StarWithDefault => true,
            ImportedExports::Subset(names) => names.contains_name("default"),
        }
    }

    /// What a set of names becomes when all names but `default` are added, and what was not demanded before.
    fn star_beside(names: &NamedSubset) -> (ImportedExports, ImportedExports)
        ensures { IsAdded (ImportedExports.Subset names.now) ImportedExports.Star (Some result.1) result.0 }
    {
        if !names.contains_name("default") {
            return (ImportedExports::Star, ImportedExports::Star);
        }
        if names.has_part_of("default") {
            return (
                ImportedExports::StarWithDefault,
                ImportedExports::StarWithDefault,
            );
        }
        (ImportedExports::StarWithDefault, ImportedExports::Star)
    }

    /// Adds what is demanded next, and answers what was not demanded before: None where nothing is new.
    ///
    /// Where `default` is demanded beside all other names, the answer may stand for more than was handed in: `default` is then demanded
    /// whole. A reader of the answers follows `default` and all names.
    pub fn add(
        &mut self,
        alloc: Global,
        exports_to_trace: ImportedExports,
    ) -> Result<Option<ImportedExports>, AllocError>
        ensures added { IfOk result (λ answer. IsAdded self.old exports_to_trace answer self.new) }
        ensures err { OnErr result (self.new ≡ self.old) }
    {
        match self {
            ImportedExports::StarWithDefault => Ok(None),
            ImportedExports::Star => {
                if !exports_to_trace.names_default() {
                    return Ok(None);
                }
                let default = name_alone(alloc, "default")?;
                *self = ImportedExports::StarWithDefault;
                Ok(Some(ImportedExports::Subset(default)))
            }
            ImportedExports::Subset(names) => match exports_to_trace {
                ImportedExports::Subset(new_subset) => add_names(alloc, names, new_subset),
                ImportedExports::StarWithDefault => {
                    *self = ImportedExports::StarWithDefault;
                    Ok(Some(ImportedExports::StarWithDefault))
                }
                ImportedExports::Star => {
                    let (state, answer) = ImportedExports::star_beside(names);
                    *self = state;
                    Ok(Some(answer))
                }
            },
        }
    }
}
