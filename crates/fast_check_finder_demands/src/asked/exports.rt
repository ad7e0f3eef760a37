//! What of a module's names is asked of another by a re-export.
ghost use Rattle.std.specs.Prelude.{◌≡◌, ◌∷◌, [], IfOk};
ghost use Rattle.fast_check_finder_lattice.specs.Names.{path_of, paths, paths_below, named, IsSame};
ghost use Rattle.fast_check_finder_lattice.specs.Imports.{subset_at, whole_at};
ghost use Rattle.fast_check_finder_demands.specs.name_demands.Files.{names_of, path_demand};
ghost use Rattle.fast_check_finder_demands.specs.asked.Demands.{asked, asked_by};
ghost use Rattle.fast_check_finder_demands.specs.asked.Exports.{touched_below};

use crate::Extent;
use crate::name_demands::NameDemand;
use fast_check_finder_lattice::{Exports, ImportedExports, NamedSubset};
use std::alloc::{AllocError, Global};

/// What is asked below a name, where a path goes on below it that is touched. The last name stands inmost.
fn exports_below(alloc: Global, parts: &[String]) -> Result<Exports, AllocError>
    ensures { IfOk result (λ below. IsSame (paths_below below) (touched_below (path_of parts.now))) }
{
    let mut below = Exports::subset(alloc);
    for place in (0..parts.len()).rev() {
        let names = one_name(alloc, parts[place].as_str(), below)?;
        below = Exports::Subset(names);
    }
    Ok(below)
}

/// The set of one name, and what is asked below it.
fn one_name(alloc: Global, name: &str, below: Exports) -> Result<NamedSubset, AllocError>
    ensures { IfOk result (λ names. IsSame (paths names) (named name.now (paths_below below))) }
{
    let mut names = NamedSubset::default(alloc);
    let name = String::from_str(alloc, name)?;
    names.add_named(alloc, name, below)?;
    Ok(names)
}

/// A path that is asked for whole.
fn whole_exports(alloc: Global, first: &str, rest: &[String]) -> Result<ImportedExports, AllocError>
    ensures { IfOk result (λ x. asked x ≡ asked_by (whole_at (first.now ∷ path_of rest.now))) }
{
    let mut names = NamedSubset::default(alloc);
    let name = String::from_str(alloc, first)?;
    names.add_qualified(alloc, name, rest)?;
    Ok(ImportedExports::Subset(names))
}

/// A path that is touched.
fn touched_exports(
    alloc: Global,
    first: &str,
    rest: &[String],
) -> Result<ImportedExports, AllocError>
    ensures { IfOk result (λ x. asked x ≡ asked_by (subset_at (first.now ∷ path_of rest.now))) }
{
    let below = exports_below(alloc, rest)?;
    Ok(ImportedExports::Subset(one_name(alloc, first, below)?))
}

/// A path, as far as it is asked for.
fn path_exports(
    alloc: Global,
    first: &str,
    rest: &[String],
    extent: Extent,
) -> Result<ImportedExports, AllocError>
    ensures { IfOk result (λ x. asked x ≡ asked_by (path_demand (first.now ∷ path_of rest.now) extent)) }
{
    match extent {
        Extent::Touched => touched_exports(alloc, first, rest),
        Extent::Whole => whole_exports(alloc, first, rest),
    }
}

/// No names: the module alone is asked for.
fn no_exports(alloc: Global) -> ImportedExports
    ensures { asked result ≡ asked_by (subset_at []) }
{
    ImportedExports::Subset(NamedSubset::default(alloc))
}

/// What is asked of a module, as the lists of what was asked keep it.
pub fn exports_to_ask(alloc: Global, demand: NameDemand<'_>) -> Result<ImportedExports, AllocError>
    ensures { IfOk result (λ x. asked x ≡ asked_by (names_of demand.entry)) }
{
    match demand {
        NameDemand::AllButDefault => Ok(ImportedExports::Star),
        NameDemand::All => Ok(ImportedExports::StarWithDefault),
        NameDemand::There => Ok(no_exports(alloc)),
        NameDemand::Path(first, rest, extent) => path_exports(alloc, first, rest, extent),
    }
}
