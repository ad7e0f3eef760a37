//! What is found of packages and their modules.

ghost use Rattle.std.specs.Prelude.{◌≡◌, [], None};

use fast_check_finder_demands::{SourceRange, SymbolFault};
use fast_check_tables_cache::FastCheckCacheItem;
use fast_check_tables_graph::AnyModuleInfo;
use std::alloc::Global;
use std::collections::BTreeSet;
use std::rc::Rc;
use url::Url;

/// What is wrong with an entry point of a package.
#[derive(Clone, Copy, Debug, PartialEq, Eq, PartialOrd, Ord)]
pub enum EntryFault {
    /// The graph does not have it.
    NotFound,
    /// The graph has it, and its types are not known.
    Untyped,
}

/// What is found of a module that was followed, for a package. Each range and fault may stand here more than once.
#[derive(Drop)]
pub struct FoundModule<'a> {
    pub info: &'a AnyModuleInfo,
    /// The ranges of declarations, and of re-exports of all.
    pub ranges: Vec<SourceRange>,
    /// The ranges of implementations of overloads.
    pub implementations: Vec<SourceRange>,
    /// The faults of its demands.
    pub faults: Vec<SymbolFault<'a>>,
}

impl<'a> FoundModule<'a> {
    /// Nothing but the module. It takes no memory.
    pub fn new(alloc: Global, info: &'a AnyModuleInfo) -> FoundModule<'a>
        ensures info { result.info.now ≡ info.entry.now }
        ensures ranges { result.ranges.items ≡ [] }
        ensures implementations { result.implementations.items ≡ [] }
        ensures faults { result.faults.items ≡ [] }
    {
        FoundModule {
            info,
            ranges: Vec::new(alloc),
            implementations: Vec::new(alloc),
            faults: Vec::new(alloc),
        }
    }
}

/// How a package was entered, with the modules that its exports name.
#[derive(Drop)]
pub enum Entrance {
    Entered {
        entry_points: Rc<BTreeSet<Url>>,
        /// The entry points with which something is wrong. Where there are any, no entry point of the package is followed.
        faults: Vec<(Url, EntryFault)>,
    },
    /// Its item in a cache is used.
    Cached {
        entry_points: Rc<BTreeSet<Url>>,
        /// What the cache keeps of it, in place of all that would be found.
        item: FastCheckCacheItem,
    },
}

/// What is found of a package.
#[derive(Drop)]
pub struct FoundPackage<'a> {
    /// None where it was not entered, or its exports are not known.
    pub entrance: Option<Entrance>,
    /// The packages that it depends on, by their places among those that are found.
    pub dependencies: Vec<usize>,
    /// The modules that were followed for it.
    pub modules: Vec<FoundModule<'a>>,
    /// The names by which modules were asked for whose types are not known.
    pub untyped: Vec<Url>,
}

impl<'a> FoundPackage<'a> {
    /// Nothing. It takes no memory.
    pub fn new(alloc: Global) -> FoundPackage<'a>
        ensures entrance { result.entrance ≡ None }
        ensures dependencies { result.dependencies.items ≡ [] }
        ensures modules { result.modules.items ≡ [] }
        ensures untyped { result.untyped.items ≡ [] }
    {
        FoundPackage {
            entrance: None,
            dependencies: Vec::new(alloc),
            modules: Vec::new(alloc),
            untyped: Vec::new(alloc),
        }
    }
}
