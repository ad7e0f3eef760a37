//! A provider by a list of packages with their URLs.
ghost use Rattle.std.specs.Prelude.{◌≡◌, option_map, IfOk};
ghost use Rattle.std.specs.Option.{option_copied};
ghost use Rattle.url.specs.Parts.{serialize};
ghost use Rattle.fast_check_tables_packages.specs.Package.{nv_of};
ghost use Rattle.fast_check_tables_packages.specs.Listed.{begins_with, row_of, row_at, url_in, nv_in};

use crate::package::PackageNv;
use crate::provider::JsrUrlProvider;
use std::alloc::AllocError;
use url::Url;

/// Packages that are listed with their URLs, and the URL of all others.
#[derive(Debug, Drop)]
pub struct ListedPackages {
    /// Of entries with one package the last has its URL. A URL belongs to the package of the first entry whose URL begins it.
    pub packages: Vec<(PackageNv, Url)>,
    /// The URL of a package that is not listed.
    pub fallback: Url,
}

fn is_within(url: &Url, base: &Url) -> bool
    ensures { result ≡ begins_with (serialize base.now) (serialize url.now) }
{
    url.as_str()
        .as_bytes()
        .starts_with(base.as_str().as_bytes())
}

fn row_of<'a>(rows: &'a [(PackageNv, Url)], nv: &PackageNv) -> Option<&'a (PackageNv, Url)>
    ensures { option_copied result ≡ row_of rows.now (nv_of nv.now) }
{
    rows.iter().rev().find(|row| nv.cmp(&row.0).is_eq())
}

fn row_at<'a>(rows: &'a [(PackageNv, Url)], url: &Url) -> Option<&'a (PackageNv, Url)>
    ensures { option_copied result ≡ row_at rows.now (serialize url.now) }
{
    rows.iter().find(|row| is_within(url, &row.1))
}

impl JsrUrlProvider for ListedPackages {
    ghost url_of = { λ listed nv. url_in listed.fallback (row_of listed.packages.items nv) };

    ghost nv_at = { λ listed text. nv_in (row_at listed.packages.items text) };

    fn package_url(&self, nv: &PackageNv) -> Result<Url, AllocError> {
        match row_of(self.packages.as_slice(), nv) {
            Some((_, url)) => url.clone(),
            None => self.fallback.clone(),
        }
    }

    fn package_url_to_nv(&self, url: &Url) -> Result<Option<PackageNv>, AllocError> {
        match row_at(self.packages.as_slice(), url) {
            Some((nv, _)) => Ok(Some(nv.clone()?)),
            None => Ok(None),
        }
    }
}
