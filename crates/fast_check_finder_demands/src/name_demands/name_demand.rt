//! What is asked of another file, by the text that names it.
ghost use Rattle.std.specs.Prelude.{◌≡◌, ◌∷◌, string_bytes};
ghost use Rattle.fast_check_finder_lattice.specs.Names.{path_of};
ghost use Rattle.fast_check_finder_demands.specs.name_demands.Files.{names_of, path_demand, reference_demand, path_in_file, import_demand};

use crate::Extent;
use fast_check_tables_symbols::FileDepName;

/// A single thing that is demanded of a module.
#[derive(Clone, Copy)]
pub enum NameDemand<'a> {
    /// Each export but `default`.
    AllButDefault,
    /// Each export.
    All,
    /// No name: that the module is there.
    There,
    /// What a path leads to: the name of an export, and the names below it.
    Path(&'a str, &'a [String], Extent),
}

/// What is asked of another file.
#[derive(Clone, Copy)]
pub struct FileDependency<'a> {
    /// The text that names the file.
    pub specifier: &'a str,
    pub names: NameDemand<'a>,
}

/// What a path leads to; without names, that the module is there.
pub fn by_path(names: &[String], extent: Extent) -> NameDemand<'_>
    ensures { names_of result ≡ path_demand (path_of names.now) extent }
{
    match names.split_first() {
        None => NameDemand::There,
        Some((first, rest)) => NameDemand::Path(first.as_str(), rest, extent),
    }
}

/// What a reference to what a file exports asks of the file.
pub fn by_reference(name: &FileDepName) -> NameDemand<'_>
    ensures { names_of result ≡ reference_demand name.now }
{
    match name {
        FileDepName::Star => NameDemand::AllButDefault,
        FileDepName::Name(name) => NameDemand::Path(name.as_str(), &[], Extent::Whole),
    }
}

/// What a path below what a file exports asks of the file.
pub fn by_path_in_file<'a>(
    name: &'a FileDepName,
    names: &'a [String],
    extent: Extent,
) -> NameDemand<'a>
    ensures { names_of result ≡ path_in_file name.now (path_of names.now) extent }
{
    match name {
        FileDepName::Star => by_path(names, extent),
        FileDepName::Name(name) => NameDemand::Path(name.as_str(), names, extent),
    }
}

/// What `import("file").parts` asks of the file.
pub fn by_import(parts: &[String]) -> NameDemand<'_>
    ensures { names_of result ≡ import_demand (path_of parts.now) }
{
    match parts.split_first() {
        None => NameDemand::All,
        Some((first, rest)) => NameDemand::Path(first.as_str(), rest, Extent::Whole),
    }
}
