//! What waits in the loop, and where.

use fast_check_finder_demands::SymbolDemand;
use fast_check_finder_demands::name_demands::NameDemand;
use fast_check_tables_packages::PackageNv;
use url::Url;

/// A module by its own name, and the package for which it is followed.
#[derive(PartialEq, Eq, Hash, Drop)]
pub struct Place<'a> {
    pub package: PackageNv,
    pub specifier: &'a Url,
}

/// Names of a module that are demanded for a package, by the specifier by which the module is asked for.
#[derive(Drop)]
pub struct NamesAt<'a> {
    pub package: PackageNv,
    pub specifier: Url,
    pub names: NameDemand<'a>,
}

/// A demand of a symbol, by the place of its module among those that are followed.
#[derive(Clone, Copy)]
pub struct SymbolAt<'a> {
    pub place: usize,
    pub demand: SymbolDemand<'a>,
}

/// A package that depends on another.
#[derive(PartialEq, Eq, PartialOrd, Ord, Drop)]
pub struct Dependency {
    pub package: PackageNv,
    pub on: PackageNv,
}
