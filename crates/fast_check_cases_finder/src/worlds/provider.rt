//! A provider whose calls are refused from one on.
ghost use Rattle.fast_check_tables_packages.specs.Listed.{row_of, row_at, url_in, nv_in};

use fast_check_tables_packages::{JsrUrlProvider, ListedPackages, PackageNv};
use std::alloc::AllocError;
use std::cell::Cell;
use url::Url;

/// Packages that are listed with their URLs. A caller may have their calls refused from one on, as if memory ran out.
#[derive(Drop)]
pub struct RefusingProvider {
    listed: ListedPackages,
    /// How many calls are answered before one is refused.
    left: Cell<u64>,
    has_refused: Cell<bool>,
}

impl RefusingProvider {
    /// A provider that refuses no call.
    pub fn new(listed: ListedPackages) -> RefusingProvider {
        RefusingProvider {
            listed,
            left: Cell::new(u64::MAX),
            has_refused: Cell::new(false),
        }
    }

    /// Answers so many calls from here on, and refuses all others.
    pub fn answer(&self, calls: u64) {
        self.left.set(calls);
        self.has_refused.set(false);
    }

    /// Whether a call was refused.
    pub fn has_refused(&self) -> bool {
        self.has_refused.get()
    }

    /// Counts a call.
    fn admit(&self) -> Result<(), AllocError> {
        match self.left.get() {
            0 => {
                self.has_refused.set(true);
                Err(AllocError)
            }
            calls => {
                self.left.set(calls - 1);
                Ok(())
            }
        }
    }
}

impl JsrUrlProvider for RefusingProvider {
    ghost url_of = { λ provider nv. url_in provider.listed.fallback (row_of provider.listed.packages.items nv) };

    ghost nv_at = { λ provider text. nv_in (row_at provider.listed.packages.items text) };

    fn package_url(&self, nv: &PackageNv) -> Result<Url, AllocError> {
        self.admit()?;
        self.listed.package_url(nv)
    }

    fn package_url_to_nv(&self, url: &Url) -> Result<Option<PackageNv>, AllocError> {
        self.admit()?;
        self.listed.package_url_to_nv(url)
    }
}
