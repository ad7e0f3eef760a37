//! What was found, by package.

ghost use Rattle.std.specs.Prelude.{◌∷◌, ◌++◌, [], List, map, IfOk, OnOk};
ghost use Rattle.std.specs.List.{flat_map, Contains};
ghost use Rattle.fast_check_tables_packages.specs.Package.{nv_of};
ghost use Rattle.fast_check_finder_ranges.specs.findings.Found.{module_yields, untyped_yields, found_yields};
ghost use Rattle.fast_check_finder_loop.specs.Finder.{entered_nv, depends, followed_yields, untyped_yields_of, yields_in};
ghost use Rattle.fast_check_finder_loop.specs.Once.{AreApart};
ghost use Rattle.fast_check_finder_loop.specs.Packages.{Entered, IsNumbered, Adds, IsEntered};
ghost use Rattle.fast_check_finder_loop.specs.Turn.{AreSame};

use crate::demand::{Dependency, Place};
use crate::finder::{Finder, FollowedModule};
use fast_check_finder_ranges::findings::{Entrance, FoundModule, FoundPackage};
use fast_check_tables_packages::PackageNv;
use indexmap::IndexMap;
use std::alloc::{AllocError, Global};
use std::collections::BTreeSet;
use url::Url;

/// The place of a package among those that are found, which is new where nothing was found of it.
fn number_of(
    alloc: Global,
    nv: PackageNv,
    found: &mut IndexMap<PackageNv, FoundPackage<'_>>,
) -> Result<usize, AllocError>
    ensures { IfOk result (λ number. IsNumbered (nv_of nv) number found.old.entries found.new.entries) }
{
    if let Some(number) = found.get_index_of(&nv) {
        return Ok(number);
    }
    let number = found.len();
    found.insert(nv, FoundPackage::new(alloc))?;
    Ok(number)
}

/// Adds how a package was entered that is not among these.
fn add_entrance(
    alloc: Global,
    nv: PackageNv,
    entrance: Entrance,
    found: &mut IndexMap<PackageNv, FoundPackage<'_>>,
) -> Result<(), AllocError>
    ensures { OnOk result ((front : List Entered) → (Contains (map entered_nv front) (nv_of nv) → ⊥) → IsEntered front found.old.entries
        → IsEntered (front ++ (nv, entrance) ∷ []) found.new.entries) }
{
    let number = number_of(alloc, nv, found)?;
    if let Some(package) = found.get_index_mut(number) {
        package.entrance = Some(entrance);
    }
    Ok(())
}

/// Adds that a package depends on another.
fn add_dependency(
    alloc: Global,
    dependency: Dependency,
    found: &mut IndexMap<PackageNv, FoundPackage<'_>>,
) -> Result<(), AllocError>
    ensures { OnOk result (Adds (depends dependency ∷ []) found.old.entries found.new.entries) }
{
    let Dependency { package, on } = dependency;
    let on = number_of(alloc, on, found)?;
    let number = number_of(alloc, package, found)?;
    if let Some(package) = found.get_index_mut(number) {
        package.dependencies.push(on)?;
    }
    Ok(())
}

/// Adds a module that was followed for a package.
fn add_module<'a>(
    alloc: Global,
    nv: PackageNv,
    followed: FoundModule<'a>,
    found: &mut IndexMap<PackageNv, FoundPackage<'a>>,
) -> Result<(), AllocError>
    ensures { OnOk result (Adds (module_yields (nv_of nv) followed.entry) found.old.entries found.new.entries) }
{
    let number = number_of(alloc, nv, found)?;
    if let Some(package) = found.get_index_mut(number) {
        package.modules.push(followed)?;
    }
    Ok(())
}

/// Adds the name by which a module was asked for whose types are not known.
fn add_untyped(
    alloc: Global,
    nv: PackageNv,
    url: Url,
    found: &mut IndexMap<PackageNv, FoundPackage<'_>>,
) -> Result<(), AllocError>
    ensures { OnOk result (Adds (untyped_yields (nv_of nv) url) found.old.entries found.new.entries) }
{
    let number = number_of(alloc, nv, found)?;
    if let Some(package) = found.get_index_mut(number) {
        package.untyped.push(url)?;
    }
    Ok(())
}

/// How each package was entered.
fn entered<'a>(
    alloc: Global,
    entrances: Vec<(PackageNv, Entrance)>,
) -> Result<IndexMap<PackageNv, FoundPackage<'a>>, AllocError>
    ensures { IfOk result (λ found. AreApart (map entered_nv entrances.items) → IsEntered entrances.items found.entries) }
{
    let mut found = IndexMap::new(alloc);
    for (nv, entrance) in entrances {
        add_entrance(alloc, nv, entrance, &mut found)?;
    }
    Ok(found)
}

/// Adds on which packages each depends.
fn add_dependencies(
    alloc: Global,
    dependencies: BTreeSet<Dependency>,
    found: &mut IndexMap<PackageNv, FoundPackage<'_>>,
) -> Result<(), AllocError>
    ensures { OnOk result (Adds (map depends dependencies.keys) found.old.entries found.new.entries) }
{
    for dependency in dependencies {
        add_dependency(alloc, dependency, found)?;
    }
    Ok(())
}

/// Adds the modules that were followed for each package.
fn add_modules<'a>(
    alloc: Global,
    modules: IndexMap<Place<'a>, FollowedModule<'a>>,
    found: &mut IndexMap<PackageNv, FoundPackage<'a>>,
) -> Result<(), AllocError>
    ensures { OnOk result (Adds (flat_map followed_yields modules.entry.entries) found.old.entries found.new.entries) }
{
    for (place, module) in modules {
        add_module(alloc, place.package, module.found, found)?;
    }
    Ok(())
}

/// Adds the names by which modules were asked for whose types are not known.
fn add_all_untyped(
    alloc: Global,
    untyped: Vec<(PackageNv, Url)>,
    found: &mut IndexMap<PackageNv, FoundPackage<'_>>,
) -> Result<(), AllocError>
    ensures { OnOk result (Adds (flat_map untyped_yields_of untyped.items) found.old.entries found.new.entries) }
{
    for (nv, url) in untyped {
        add_untyped(alloc, nv, url, found)?;
    }
    Ok(())
}

impl<'a> Finder<'a> {
    /// What was found, by package.
    pub fn into_found(
        self,
        alloc: Global,
    ) -> Result<IndexMap<PackageNv, FoundPackage<'a>>, AllocError>
        ensures { IfOk result (λ found. AreApart (map entered_nv self.entry.entrances.items)
            → AreSame (found_yields found.entries) (yields_in self.entry)) }
    {
        let Finder {
            modules,
            entrances,
            dependencies,
            untyped,
            ..
        } = self;
        let mut found = entered(alloc, entrances)?;
        add_dependencies(alloc, dependencies, &mut found)?;
        add_modules(alloc, modules, &mut found)?;
        add_all_untyped(alloc, untyped, &mut found)?;
        Ok(found)
    }
}
