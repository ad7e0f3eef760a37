//! What is public in packages.

ghost use Rattle.std.specs.Prelude.{◌≡◌, ⊤, map, MatchOption};
ghost use Rattle.fast_check_tables_packages.specs.Package.{nv_of};
ghost use Rattle.fast_check_finder_loop.specs.Lent.{with_cache};
ghost use Rattle.fast_check_build.specs.Found.{known_of, Finds};

use fast_check_finder_loop::{FinderOptions, GraphFacts, find_all};
use fast_check_finder_ranges::package_ranges;
use fast_check_tables_cache::{FastCheckCache, PackagePublicRanges};
use fast_check_tables_graph::{ModuleGraph, RootSymbol};
use fast_check_tables_packages::{
    BuildFault, IndexedMembers, JsrUrlProvider, PackageNv, WorkspaceMember,
};
use std::alloc::Global;
use std::collections::{BTreeMap, VecDeque};

/// The seed of the keys, where a cache is lent.
fn seed_of(cache: Option<&dyn FastCheckCache>) -> &'static str
    ensures { MatchOption cache.entry ⊤ (λ c. result.now ≡ seed_text c.now) }
{
    match cache {
        Some(cache) => cache.hash_seed(),
        None => "",
    }
}

/// What is public in these packages, and in all that follow from them. A package that is handed in twice is followed once.
///
/// The cache is asked once for each package that is followed and has exports. Where the cache has an item under the package's key, and each module of the
/// item has the source that it was cached with, an item with modules is answered in place of findings, and the packages that the item depends on are
/// followed. `InvalidExport` has the first export text of a package that does not join to the package's URL. `OutOfMemory` if memory runs out, or a URL
/// comes to 4 GB.
pub fn find_public_ranges<'a>(
    alloc: Global,
    cache: Option<&dyn FastCheckCache>,
    jsr_url_provider: &dyn JsrUrlProvider,
    graph: &'a ModuleGraph,
    root_symbol: &'a RootSymbol,
    workspace_members: &'a [WorkspaceMember],
    pending_nvs: VecDeque<PackageNv>,
) -> Result<BTreeMap<PackageNv, PackagePublicRanges>, BuildFault>
    ensures { let k = known_of graph.now root_symbol.now workspace_members.now (url_of jsr_url_provider.now) (nv_at jsr_url_provider.now) in
        Finds (with_cache cache.entry (λ c. hash_of c.now (seed_text c.now)) (λ c. stored c.now) k) (map nv_of pending_nvs.items) result }
{
    let seed = seed_of(cache);
    let members = IndexedMembers::new(alloc, workspace_members)?;
    let facts = GraphFacts {
        graph,
        root_symbol,
        workspace_members: &members,
    };
    let lent = FinderOptions {
        alloc,
        facts,
        seed,
        provider: jsr_url_provider,
        cache,
    };
    // Each module is found by its own name.
    root_symbol.own_names_find();
    let roots = pending_nvs.into_vec();
    let found = find_all(lent, roots.as_slice())?;
    let answers = package_ranges(alloc, found)?;
    Ok(answers)
}

/// Finds what is public in the packages that are handed in.
#[derive(Drop)]
pub struct PublicRangeFinder<'a> {
    graph: &'a ModuleGraph,
    root_symbol: &'a RootSymbol,
    workspace_members: &'a [WorkspaceMember],
    pending_nvs: VecDeque<PackageNv>,
}

impl<'a> PublicRangeFinder<'a> {
    ghost use Rattle.fast_check_build.specs.Finder.{finder_of};

    /// A finder for these packages. It takes no memory.
    pub fn new(
        graph: &'a ModuleGraph,
        root_symbol: &'a RootSymbol,
        workspace_members: &'a [WorkspaceMember],
        pending_nvs: VecDeque<PackageNv>,
    ) -> PublicRangeFinder<'a>
        ensures graph { (finder_of result).graph ≡ graph.entry.now }
        ensures root_symbol { (finder_of result).root_symbol ≡ root_symbol.entry.now }
        ensures workspace_members { (finder_of result).workspace_members ≡ workspace_members.entry.now }
        ensures pending_nvs { (finder_of result).pending_nvs ≡ pending_nvs.items }
    {
        PublicRangeFinder {
            graph,
            root_symbol,
            workspace_members,
            pending_nvs,
        }
    }

    /// The answer of [`find_public_ranges`].
    pub fn find(
        self,
        alloc: Global,
        cache: Option<&dyn FastCheckCache>,
        jsr_url_provider: &dyn JsrUrlProvider,
    ) -> Result<BTreeMap<PackageNv, PackagePublicRanges>, BuildFault>
        ensures { let f = finder_of self.entry in
            let k = known_of f.graph f.root_symbol f.workspace_members (url_of jsr_url_provider.now) (nv_at jsr_url_provider.now) in
            Finds (with_cache cache.entry (λ c. hash_of c.now (seed_text c.now)) (λ c. stored c.now) k) (map nv_of f.pending_nvs) result }
    {
        let PublicRangeFinder {
            graph,
            root_symbol,
            workspace_members,
            pending_nvs,
        } = self;
        find_public_ranges(
            alloc,
            cache,
            jsr_url_provider,
            graph,
            root_symbol,
            workspace_members,
            pending_nvs,
        )
    }
}
