//! Why a build stops.
ghost use Rattle.std.specs.Prelude.{◌≡◌};
ghost use Rattle.fast_check_tables_packages.specs.declared.fault.BuildFault.TheVariants.{OutOfMemory};

use crate::package::PackageNv;
use std::alloc::{AllocError, AllocFailed};
use thiserror::Error;

/// Why a build stops.
#[derive(Debug, PartialEq, Eq, Drop, Error)]
pub enum BuildFault {
    /// An export text of a package that cannot be joined to the URL of the package.
    #[error("invalid-export")]
    InvalidExport { package: PackageNv, export: String },
    #[error("out of memory")]
    OutOfMemory,
}

impl From<AllocError> for BuildFault {
    ghost from_gives = { λ _ fault. fault ≡ OutOfMemory };

    fn from(_: AllocError) -> BuildFault {
        BuildFault::OutOfMemory
    }
}

impl<T: Drop> From<AllocFailed<T>> for BuildFault {
    ghost from_gives = { λ _ fault. fault ≡ OutOfMemory };

    fn from(_: AllocFailed<T>) -> BuildFault {
        BuildFault::OutOfMemory
    }
}
