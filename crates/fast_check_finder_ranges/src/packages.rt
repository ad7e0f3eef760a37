//! The answer of a package, by what was found of it.

ghost use Rattle.std.specs.Prelude.{◌≡◌, ◌||◌, map, option_to_list, nat_lt, slice_get, OnOk, IfOk};
ghost use Rattle.std.specs.List.{list_any};
ghost use Rattle.fast_check_tables_packages.specs.Package.{Nv, nv_of};
ghost use Rattle.fast_check_tables_cache.specs.Cache.{item_of};
ghost use Rattle.fast_check_finder_demands.specs.asked.Demands.{same_nv};
ghost use Rattle.fast_check_finder_ranges.specs.findings.Found.{entrance_yields, package_yields};
ghost use Rattle.fast_check_finder_ranges.specs.Answers.{is_filled, IsItemAnswer, IsPackageAnswer};
ghost use Rattle.fast_check_finder_ranges.specs.Parts.{is_package, Joins, urls_at, item_at, named_at};

use crate::findings::{Entrance, FoundPackage, PackageNv};
use crate::modules::{
    ModuleParts, add_all_followed, add_all_untyped, add_entry_faults, all_module_ranges,
};
use fast_check_finder_demands::asked::copy_of;
use fast_check_tables_cache::{FastCheckCacheItem, PackagePublicRanges};
use std::alloc::{AllocError, Global};
use std::collections::{BTreeMap, BTreeSet};
use url::Url;

/// Whether one of two is so. A call of it is one fact to the proof of its caller, where a `||` would be two tests, with ways of their own.
fn either(a: bool, b: bool) -> bool
    ensures { result ≡ (a || b) }
{
    a || b
}

/// Whether a place is among the first `count`.
fn any_within(places: &[usize], count: usize) -> bool
    ensures { result ≡ list_any (λ place. nat_lt place count) places.now }
{
    places.iter().any(|place| *place < count)
}

/// Whether modules were found of a package.
fn has_found(found: &FoundPackage<'_>) -> bool
    ensures { result ≡ (is_filled found.now.modules.items || is_filled found.now.untyped.items) }
{
    let has_followed = !found.modules.is_empty();
    let has_untyped = !found.untyped.is_empty();
    either(has_followed, has_untyped)
}

/// Whether anything was found of a package.
pub fn is_known(packages: &[PackageNv], found: &FoundPackage<'_>) -> bool
    ensures { (nv : Nv) → result ≡ is_filled (package_yields (map nv_of packages.now) nv found.now) }
{
    let depends = any_within(found.dependencies.as_slice(), packages.len());
    let is_entered = found.entrance.is_some();
    either(is_entered, either(depends, has_found(found)))
}

fn copy_of_set(urls: &BTreeSet<Url>) -> Result<BTreeSet<Url>, AllocError>
    ensures { IfOk result (λ copy. copy.keys ≡ urls.now.keys) }
{
    urls.clone()
}

/// What is answered of a package whose item is used.
fn cached_answer(
    alloc: Global,
    entry_points: &BTreeSet<Url>,
    item: FastCheckCacheItem,
) -> Result<PackagePublicRanges, AllocError>
    ensures { IfOk result (IsItemAnswer entry_points.now.keys (item_of item)) }
{
    let FastCheckCacheItem {
        dependencies,
        modules,
    } = item;
    Ok(PackagePublicRanges {
        entrypoints: copy_of_set(entry_points)?,
        module_ranges: BTreeMap::new(alloc),
        cache_items: modules,
        dependencies,
    })
}

/// The answer of a package by its entrance. The faults of its entry points are added to the findings of modules.
fn entered_answer(
    alloc: Global,
    entrance: Option<Entrance>,
    modules: &mut BTreeMap<Url, ModuleParts>,
) -> Result<PackagePublicRanges, AllocError>
    ensures answer { IfOk result (IsItemAnswer (urls_at entrance) (item_at entrance)) }
    ensures modules { OnOk result ((nv : Nv) → Joins (entrance_yields nv entrance) modules.old.entries modules.new.entries) }
{
    match entrance {
        None => Ok(PackagePublicRanges::new(alloc)),
        Some(Entrance::Cached { entry_points, item }) => cached_answer(alloc, &entry_points, item),
        Some(
            Entrance::Entered {
                entry_points,
                faults,
            },
        ) => {
            add_entry_faults(alloc, modules, faults)?;
            let mut answer = PackagePublicRanges::new(alloc);
            answer.entrypoints = copy_of_set(&entry_points)?;
            Ok(answer)
        }
    }
}

/// Adds the package at a place, if there is one.
fn add_dependency(
    packages: &[PackageNv],
    place: usize,
    dependencies: &mut BTreeSet<PackageNv>,
) -> Result<(), AllocError>
    ensures { OnOk result ((nv : Nv) → list_any (is_package nv) dependencies.new.keys
        ≡ (list_any (is_package nv) dependencies.old.keys || list_any (same_nv nv) (option_to_list (slice_get (map nv_of packages.now) place)))) }
{
    match packages.get(place) {
        None => Ok(()),
        Some(package) => {
            let copy = copy_of(package)?;
            dependencies.insert(copy)?;
            Ok(())
        }
    }
}

/// Adds the packages at these places.
fn add_dependencies(
    packages: &[PackageNv],
    places: &[usize],
    dependencies: &mut BTreeSet<PackageNv>,
) -> Result<(), AllocError>
    ensures { OnOk result ((nv : Nv) → list_any (is_package nv) dependencies.new.keys
        ≡ (list_any (is_package nv) dependencies.old.keys || list_any (same_nv nv) (named_at (map nv_of packages.now) places.now))) }
{
    for place in places {
        add_dependency(packages, *place, dependencies)?;
    }
    Ok(())
}

/// The answer of a package. One whose item is used and has modules is answered by its entry points and the item alone: the demands of other packages
/// on its modules go, as the item stands in place of the findings. An item without modules has the entry points and the dependencies, beside the
/// demands of other packages.
pub fn answer_of(
    alloc: Global,
    packages: &[PackageNv],
    found: FoundPackage<'_>,
) -> Result<PackagePublicRanges, AllocError>
    ensures { IfOk result (λ answer. (nv : Nv) → IsPackageAnswer (package_yields (map nv_of packages.now) nv found.entry) answer) }
{
    let FoundPackage {
        entrance,
        dependencies,
        modules: followed,
        untyped,
    } = found;
    let mut modules = BTreeMap::new(alloc);
    let mut answer = entered_answer(alloc, entrance, &mut modules)?;
    if !answer.cache_items.is_empty() {
        return Ok(answer);
    }
    add_dependencies(packages, dependencies.as_slice(), &mut answer.dependencies)?;
    add_all_followed(alloc, &mut modules, followed)?;
    add_all_untyped(alloc, &mut modules, untyped)?;
    answer.module_ranges = all_module_ranges(alloc, modules)?;
    Ok(answer)
}
