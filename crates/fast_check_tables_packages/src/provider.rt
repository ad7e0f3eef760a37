//! The URLs of packages, as a caller lends them.
ghost use Rattle.std.specs.Prelude.{◌≡◌, List, ℕ, Option, option_map, IfOk};
ghost use Rattle.url.specs.Parts.{Parts, serialize};
ghost use Rattle.fast_check_tables_packages.specs.Package.{Nv, nv_of};

use crate::package::PackageNv;
use std::alloc::AllocError;
use url::Url;

/// Which URL a package stands under, and which package a URL belongs to. A caller lends it.
///
/// The answers go by values alone: a package has one URL, and a text of a URL one package, however often they are asked for.
pub trait JsrUrlProvider {
    /// The URL of a package.
    ghost url_of: { Self → Nv → Parts };

    /// The package that the text of a URL belongs to.
    ghost nv_at: { Self → List ℕ → Option Nv };

    /// The URL that the export texts of a package are joined to, with a `/` at its end. `AllocError` if memory runs out.
    fn package_url(&self, nv: &PackageNv) -> Result<Url, AllocError>
        ensures { IfOk result (λ url. url ≡ url_of self.now (nv_of nv.now)) };

    /// The package that a URL belongs to, None where that is no package. `AllocError` if memory runs out.
    fn package_url_to_nv(&self, url: &Url) -> Result<Option<PackageNv>, AllocError>
        ensures { IfOk result (λ found. option_map nv_of found ≡ nv_at self.now (serialize url.now)) };
}
