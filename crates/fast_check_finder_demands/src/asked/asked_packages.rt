//! The packages that were asked for.
ghost use Rattle.std.specs.Prelude.{◌≡◌, ◌<◌, [], length, map, slice_index_or, IfOk, OnOk, OnErr};
ghost use Rattle.fast_check_tables_packages.specs.Package.{nv_of};
ghost use Rattle.fast_check_finder_demands.specs.asked.Demands.{same_nv};
ghost use Rattle.fast_check_finder_demands.specs.asked.State.{AddsPackage};

use fast_check_tables_packages::PackageNv;
use std::alloc::{AllocError, Global};
use std::cmp::Ordering;
use std::collections::BTreeSet;
use std::marker::Model;

/// Whether two packages have the same name and version.
pub fn is_same_package(a: &PackageNv, b: &PackageNv) -> bool
    ensures { result ≡ same_nv (nv_of a.now) (nv_of b.now) }
{
    a.cmp(b).is_eq()
}

/// A copy of a package.
pub fn copy_of(nv: &PackageNv) -> Result<PackageNv, AllocError>
    ensures { IfOk result (λ copy. nv_of copy ≡ nv_of nv.now) }
{
    nv.clone()
}

/// The packages that were asked for, each once, in the order in which they came.
#[derive(Drop)]
pub struct AskedPackages {
    packages: Vec<PackageNv>,
    /// The same, by which they are told apart.
    known: BTreeSet<PackageNv>,
}

impl Model for AskedPackages {
    ghost use Rattle.std.specs.Prelude.{List};
    ghost use Rattle.fast_check_tables_packages.specs.declared.package.PackageNv.{PackageNv};

    ghost Value = { List PackageNv };

    ghost use Rattle.fast_check_finder_demands.specs.asked.Places.{HasPackages};

    ghost view = { λ asked. asked.packages.items };

    ghost invariant = { λ asked. HasPackages asked.packages.items asked.known };
}

impl AskedPackages {
    /// No package.
    pub fn new(alloc: Global) -> AskedPackages
        ensures { result ≡ [] }
    {
        AskedPackages {
            packages: Vec::new(alloc),
            known: BTreeSet::new(alloc),
        }
    }

    /// Asks for a package, once.
    pub fn add(&mut self, nv: &PackageNv) -> Result<(), AllocError>
        ensures added { OnOk result (AddsPackage (nv_of nv.now) (map nv_of self.old) (map nv_of self.new)) }
        ensures err { OnErr result (self.new ≡ self.old) }
    {
        if self.known.contains(nv) {
            return Ok(());
        }
        let package_nv = copy_of(nv)?;
        let key = copy_of(nv)?;
        // With this room the push is not refused, so nothing fails once the package is known.
        self.packages.reserve(1)?;
        self.known.insert(key)?;
        self.packages.push(package_nv)?;
        Ok(())
    }

    /// How many there are.
    pub fn len(&self) -> usize
        ensures { result ≡ length self.now }
    {
        self.packages.len()
    }

    /// The package at a place.
    pub fn at(&self, place: usize) -> &PackageNv
        requires { place < length self.now }
        ensures { result.now ≡ slice_index_or self.now place result.now }
    {
        &self.packages[place]
    }
}
