//! Packages that are listed with their URLs, found by an index.
ghost use Rattle.std.specs.Prelude.{◌≡◌, IfOk, map};
ghost use Rattle.std.specs.Option.{option_copied};
ghost use Rattle.url.specs.Parts.{serialize};
ghost use Rattle.fast_check_tables_packages.specs.Package.{nv_of};
ghost use Rattle.fast_check_tables_packages.specs.Listed.{row_of, row_at, url_in, nv_in};
ghost use Rattle.fast_check_tables_packages.specs.Packages.{IsPackageIndex, texts_of};
ghost use Rattle.fast_check_tables_packages.specs.Texts.{IsTextIndex};

use crate::listed::ListedPackages;
use crate::package::PackageNv;
use crate::provider::JsrUrlProvider;
use crate::texts::{TextIndex, TextPlaces};
use std::alloc::{AllocError, Global};
use std::collections::BTreeMap;
use std::marker::Model;
use url::Url;

/// Packages that are listed with their URLs, and the URL of all others, found without going through the list.
#[derive(Drop)]
pub struct IndexedPackages {
    listed: ListedPackages,
    /// The place of the last entry of each package.
    by_package: BTreeMap<PackageNv, usize>,
    /// The texts of the URLs, in the order of the entries.
    by_url: TextIndex,
}

impl Model for IndexedPackages {
    ghost use Rattle.fast_check_tables_packages.specs.declared.listed.ListedPackages.{ListedPackages};
    ghost use Rattle.fast_check_tables_packages.specs.Packages.{AreIndexed};

    ghost Value = { ListedPackages };

    ghost view = { λ packages. packages.listed };

    ghost invariant = { λ packages. AreIndexed packages.listed.packages.items packages.by_package packages.by_url };
}

/// The last place of each package.
fn package_index(
    alloc: Global,
    rows: &[(PackageNv, Url)],
) -> Result<BTreeMap<PackageNv, usize>, AllocError>
    ensures { IfOk result (IsPackageIndex rows.now) }
{
    let mut places = BTreeMap::new(alloc);
    for (place, row) in rows.iter().enumerate() {
        places.insert(row.0.clone()?, place)?;
    }
    Ok(places)
}

/// The texts of the URLs.
fn url_index(alloc: Global, rows: &[(PackageNv, Url)]) -> Result<TextIndex, AllocError>
    ensures { IfOk result (IsTextIndex (texts_of rows.now)) }
{
    let mut texts = TextPlaces::new(alloc);
    for (place, row) in rows.iter().enumerate() {
        texts.push(alloc, row.1.as_str().as_bytes(), place)?;
    }
    texts.indexed(alloc)
}

impl IndexedPackages {
    /// An index of these packages, which are found as they are in their list.
    pub fn new(alloc: Global, listed: ListedPackages) -> Result<IndexedPackages, AllocError>
        ensures { IfOk result (λ packages. packages ≡ listed) }
    {
        let by_package = package_index(alloc, listed.packages.as_slice())?;
        let by_url = url_index(alloc, listed.packages.as_slice())?;
        Ok(IndexedPackages {
            listed,
            by_package,
            by_url,
        })
    }

    fn row_of(&self, nv: &PackageNv) -> Option<&(PackageNv, Url)>
        ensures { option_copied result ≡ row_of self.now.packages.items (nv_of nv.now) }
    {
        let place = self.by_package.get(nv).copied()?;
        self.listed.packages.get(place)
    }

    fn row_at(&self, url: &Url) -> Option<&(PackageNv, Url)>
        ensures { option_copied result ≡ row_at self.now.packages.items (serialize url.now) }
    {
        let place = self.by_url.first_within(url.as_str().as_bytes())?;
        self.listed.packages.get(place)
    }

    fn fallback(&self) -> &Url
        ensures { result.now ≡ self.now.fallback }
    {
        &self.listed.fallback
    }
}

impl JsrUrlProvider for IndexedPackages {
    ghost url_of = { λ listed nv. url_in listed.fallback (row_of listed.packages.items nv) };

    ghost nv_at = { λ listed text. nv_in (row_at listed.packages.items text) };

    fn package_url(&self, nv: &PackageNv) -> Result<Url, AllocError> {
        match self.row_of(nv) {
            Some((_, url)) => url.clone(),
            None => self.fallback().clone(),
        }
    }

    fn package_url_to_nv(&self, url: &Url) -> Result<Option<PackageNv>, AllocError> {
        match self.row_at(url) {
            Some((nv, _)) => Ok(Some(nv.clone()?)),
            None => Ok(None),
        }
    }
}
