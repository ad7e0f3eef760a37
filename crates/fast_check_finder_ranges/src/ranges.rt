//! What is answered of each package.

ghost use Rattle.std.specs.Prelude.{◌≡◌, map, OnOk, IfOk};
ghost use Rattle.fast_check_tables_packages.specs.Package.{nv_of};
ghost use Rattle.fast_check_finder_ranges.specs.findings.Found.{found_yields};
ghost use Rattle.fast_check_finder_ranges.specs.Answers.{AreAnswers};
ghost use Rattle.fast_check_finder_ranges.specs.Parts.{IsAdded};

use crate::findings::{FoundPackage, PackageNv};
use crate::packages::{answer_of, is_known};
use fast_check_finder_demands::asked::copy_of;
use fast_check_tables_cache::PackagePublicRanges;
use indexmap::IndexMap;
use std::alloc::{AllocError, Global};
use std::collections::BTreeMap;

/// The packages that are found, each at its place.
fn names_of(
    alloc: Global,
    found: &IndexMap<PackageNv, FoundPackage<'_>>,
) -> Result<Vec<PackageNv>, AllocError>
    ensures { IfOk result (λ names. map nv_of names.items ≡ map (λ e. nv_of e.0) found.now.entries) }
{
    let mut names = Vec::new(alloc);
    for package in found.keys() {
        names.push(copy_of(package)?)?;
    }
    Ok(names)
}

/// Adds the answer of a package, if anything was found of it.
fn add_answer(
    alloc: Global,
    packages: &[PackageNv],
    package: PackageNv,
    found: FoundPackage<'_>,
    answers: &mut BTreeMap<PackageNv, PackagePublicRanges>,
) -> Result<(), AllocError>
    ensures { OnOk result (IsAdded (map nv_of packages.now) («package», found.entry) answers.old.entries answers.new.entries) }
{
    if !is_known(packages, &found) {
        return Ok(());
    }
    let answer = answer_of(alloc, packages, found)?;
    answers.insert(package, answer)?;
    Ok(())
}

/// What was found, by package and module. A package is there exactly if it was entered, or if anything was found of it.
///
/// No diagnostic is reported twice of a module. Those of the module as a whole come first, and then the faults of demands by their places in the text.
/// That the types of a module are not known is reported where nothing else is reported of it.
pub fn package_ranges(
    alloc: Global,
    found: IndexMap<PackageNv, FoundPackage<'_>>,
) -> Result<BTreeMap<PackageNv, PackagePublicRanges>, AllocError>
    ensures { IfOk result (AreAnswers (found_yields found.entry.entries)) }
{
    let packages = names_of(alloc, &found)?;
    let mut answers = BTreeMap::new(alloc);
    for (package, found) in found {
        add_answer(alloc, packages.as_slice(), package, found, &mut answers)?;
    }
    Ok(answers)
}
