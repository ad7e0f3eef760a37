//! Follows demands of packages, of names of modules and of symbols in one loop, until none waits.
#![tactic(auto)]

mod asked;
mod demand;
mod enter;
mod find;
mod finder;
mod follow;
mod names;
mod options;
mod packages;

pub use asked::{AskedAlias, AskedAs, AskedSymbol, AskedSymbols, NamePath};
pub use demand::{Dependency, NamesAt, Place, SymbolAt};
pub use fast_check_finder_demands::facts::GraphFacts;
pub use fast_check_tables_packages::{BuildFault, PackageNv, WorkspaceMember};
pub use find::find_all;
pub use finder::{Finder, FollowedModule};
pub use names::ask_names;
pub use options::{FinderOptions, Lent};
