//! Packages by name and version, and the members of a workspace.

ghost use Rattle.std.specs.Prelude.{◌≡◌, Some, IfOk, string_bytes, refl};
ghost use Rattle.std.specs.Cmp.{on_total};
ghost use Rattle.fast_check_tables_packages.specs.Package.{nv_of, nv_cmp, nv_text, version_or_zero};
ghost use Rattle.fast_check_tables_packages.specs.PackageOrder.{nv_total, nv_po, nv_ties};

use indexmap::IndexMap;
use semver::Version;
use std::alloc::{AllocError, Global};
use std::cmp::Ordering;
use std::fmt;
use url::Url;

/// A package's name and version, ordered by the bytes of the name and then by the version.
#[derive(Clone, Debug, PartialEq, Eq, Hash, Drop)]
pub struct PackageNv {
    pub name: String,
    pub version: Version,
}

impl PartialOrd for PackageNv {
    ghost partial_cmp = { λ a b. Some (nv_cmp (nv_of a) (nv_of b)) };

    ghost laws = { nv_po };

    fn partial_cmp(&self, other: &PackageNv) -> Option<Ordering> {
        Some(self.cmp(other))
    }
}

impl Ord for PackageNv {
    ghost cmp = { λ a b. nv_cmp (nv_of a) (nv_of b) };

    ghost total = { on_total nv_of nv_total };

    ghost matches_partial_cmp = { λ a b. refl };

    ghost matches_eq = { nv_ties };

    /// Compares the names by their bytes, and then the versions.
    fn cmp(&self, other: &PackageNv) -> Ordering {
        match self.name.cmp(&other.name) {
            Ordering::Equal => self.version.cmp(&other.version),
            unequal => unequal,
        }
    }
}

/// Prints `name@version`.
impl fmt::Display for PackageNv {
    ghost output = { λ nv. Some (nv_text (nv_of nv)) };

    fn fmt<W: fmt::Write>(&self, f: &mut fmt::Formatter<W>) -> fmt::Result {
        write!(f, "{}@{}", self.name, self.version)
    }
}

/// A package of the workspace that a build runs in.
#[derive(Clone, Debug, Drop)]
pub struct WorkspaceMember {
    /// The URL that the export texts are joined to.
    pub base: Url,
    pub name: String,
    /// None where the member's configuration has no version.
    pub version: Option<Version>,
    /// The export texts by their export names, in the order of the configuration.
    pub exports: IndexMap<String, String>,
}

impl WorkspaceMember {
    /// The member's name and version, 0.0.0 where it has none. Answers `AllocError` if memory for the copies runs out.
    pub fn as_nv(&self, alloc: Global) -> Result<PackageNv, AllocError>
        ensures { IfOk result (λ nv. nv_of nv ≡ (string_bytes self.now.name, version_or_zero self.now.version)) }
    {
        let version = match &self.version {
            Some(version) => version.clone()?,
            None => Version::new(0, 0, 0),
        };
        Ok(PackageNv {
            name: String::from_str(alloc, self.name.as_str())?,
            version,
        })
    }
}
