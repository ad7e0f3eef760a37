//! A package that is entered.

ghost use Rattle.std.specs.Prelude.{◌∷◌, [], None, map, OnOk, IfErr};
ghost use Rattle.fast_check_tables_packages.specs.Package.{nv_of};
ghost use Rattle.fast_check_tables_packages.specs.MembersIn.{members_in};
ghost use Rattle.fast_check_tables_graph.specs.declared.graph.ModuleGraph.{ModuleGraph as ModuleGraphSeen};
ghost use Rattle.fast_check_tables_graph.specs.declared.root_symbol.RootSymbol.{RootSymbol as RootSymbolSeen};
ghost use Rattle.fast_check_tables_cache.specs.Cache.{item_of};
ghost use Rattle.fast_check_tables_cache.specs.CachedPackages.{used_item};
ghost use Rattle.fast_check_finder_ranges.specs.findings.Yields.{cached};
ghost use Rattle.fast_check_finder_ranges.specs.entries.Entries.{entrance_seen, DiagnosesRefused};
ghost use Rattle.fast_check_finder_ranges.specs.entries.MemberEntries.{AreMemberEntries};
ghost use Rattle.fast_check_finder_demands.specs.asked.Demands.{of_package, to_package};
ghost use Rattle.fast_check_finder_demands.specs.facts.GraphFacts.{known};
ghost use Rattle.fast_check_finder_loop.specs.Finder.{IsSound, CanEnter, Goes, OnlyAsks, Follows};
ghost use Rattle.fast_check_finder_loop.specs.Lent.{used_of, known_with};
ghost use Rattle.fast_check_finder_loop.specs.Rules.{entry_demands, unless_faulty, entered_followers, entry_followers, entrance_at};
ghost use Rattle.fast_check_finder_loop.specs.Yields.{entered_yields, entry_yields};

use crate::finder::Finder;
use crate::options::Lent;
use fast_check_finder_demands::asked::copy_of;
use fast_check_finder_demands::facts::GraphFacts;
use fast_check_finder_demands::name_demands::NameDemand;
use fast_check_finder_ranges::entries::{MemberEntries, entry_faults, entry_points};
use fast_check_finder_ranges::findings::Entrance;
use fast_check_tables_cache::{FastCheckCacheItem, look_up};
use fast_check_tables_graph::ModuleGraph;
use fast_check_tables_packages::{BuildFault, PackageNv};
use std::alloc::{AllocError, Global};
use std::collections::BTreeSet;
use std::rc::Rc;
use url::Url;

impl<'a> Finder<'a> {
    /// Asks for packages.
    fn ask_packages(&mut self, packages: &BTreeSet<PackageNv>) -> Result<(), AllocError>
        ensures { OnOk result (OnlyAsks (map to_package (map nv_of packages.now.keys)) self.old self.new) }
    {
        for on in packages {
            self.ask_package(on)?;
        }
        Ok(())
    }

    /// Asks for all names of entry points.
    fn ask_entries(
        &mut self,
        alloc: Global,
        nv: &PackageNv,
        entry_points: &BTreeSet<Url>,
    ) -> Result<(), AllocError>
        ensures { OnOk result (OnlyAsks (map (entry_demands (nv_of nv.now)) entry_points.now.keys) self.old self.new) }
    {
        for url in entry_points {
            self.ask_names(alloc, nv, url, NameDemand::All)?;
        }
        Ok(())
    }

    /// Asks for what an item depends on that is used, in place of what would be found.
    fn enter_cached(
        &mut self,
        nv: &PackageNv,
        entry_points: Rc<BTreeSet<Url>>,
        item: FastCheckCacheItem,
    ) -> Result<(), AllocError>
        ensures { OnOk result ((g : ModuleGraphSeen) (r : RootSymbolSeen) → IsSound g r self.old → CanEnter (nv_of nv.now) self.old
            → Goes g r (map to_package (item_of item).0) (cached (nv_of nv.now) entry_points.value.keys (item_of item) ∷ []) self.old self.new) }
    {
        self.ask_packages(&item.dependencies)?;
        let package = copy_of(nv)?;
        let entrance = Entrance::Cached { entry_points, item };
        self.entrances.push((package, entrance))?;
        Ok(())
    }

    /// Notes the entry points of a package with what is wrong with them, and asks for all their names, unless something is wrong with one.
    fn enter_at(
        &mut self,
        alloc: Global,
        graph: &ModuleGraph,
        nv: &PackageNv,
        entry_points: Rc<BTreeSet<Url>>,
    ) -> Result<(), AllocError>
        ensures { OnOk result ((g : ModuleGraphSeen) (r : RootSymbolSeen) → IsSound g r self.old → CanEnter (nv_of nv.now) self.old
            → Goes g r (entered_followers graph.now (nv_of nv.now) entry_points.value.keys None)
            (entered_yields graph.now (nv_of nv.now) entry_points.value.keys None) self.old self.new) }
    {
        let faults = entry_faults(alloc, graph, &entry_points)?;
        if faults.is_empty() {
            self.ask_entries(alloc, nv, &entry_points)?;
        }
        let package = copy_of(nv)?;
        let entrance = Entrance::Entered {
            entry_points,
            faults,
        };
        self.entrances.push((package, entrance))?;
        Ok(())
    }

    /// Asks the cache for a package with these entry points, and enters it.
    fn enter_known(
        &mut self,
        lent: Lent<'a, '_>,
        nv: &PackageNv,
        entry_points: Rc<BTreeSet<Url>>,
    ) -> Result<(), AllocError>
        ensures { let i = lent.entry in
            let used = used_of lent.entry.cache (λ c. used_item (hash_of c.now i.seed.now) (stored c.now) i.facts.graph.now) in
            let urls = entry_points.value.keys in
            OnOk result ((g : ModuleGraphSeen) (r : RootSymbolSeen) → IsSound g r self.old → CanEnter (nv_of nv.now) self.old
            → Goes g r (entered_followers i.facts.graph.now (nv_of nv.now) urls (used (nv_of nv.now) urls))
            (entered_yields i.facts.graph.now (nv_of nv.now) urls (used (nv_of nv.now) urls))
            self.old self.new) }
    {
        let graph = lent.facts.graph;
        match look_up(lent.cache, lent.seed, graph, nv, &entry_points)? {
            None => self.enter_at(lent.alloc, graph, nv, entry_points),
            Some(item) => self.enter_cached(nv, entry_points, item),
        }
    }

    /// Enters a package: asks for its entry points, or for what its item in the cache depends on, where that is used. It is refused for the first
    /// export text that does not join, before the cache is asked. The entry points of members are kept from one package to the next.
    pub fn enter(
        &mut self,
        lent: Lent<'a, '_>,
        nv: &PackageNv,
        members: &mut MemberEntries,
    ) -> Result<(), BuildFault>
        ensures entered { let k = known_with lent.entry.facts lent.entry.seed.now (url_of lent.entry.provider.now) (nv_at lent.entry.provider.now)
            lent.entry.cache (λ c. hash_of c.now) (λ c. stored c.now) in
            OnOk result (AreMemberEntries k.workspace_members members.old → AreMemberEntries k.workspace_members members.new × (IsSound k.graph k.root_symbol self.old
            → CanEnter (nv_of nv.now) self.old → Follows k (of_package (nv_of nv.now)) self.old self.new)) }
        ensures refused { IfErr result (DiagnosesRefused (nv_of nv.now)
            (entrance_at (known lent.entry.facts (url_of lent.entry.provider.now) (nv_at lent.entry.provider.now)) (nv_of nv.now))) }
    {
        let GraphFacts {
            graph,
            workspace_members,
            ..
        } = lent.facts;
        match entry_points(
            lent.alloc,
            graph,
            workspace_members,
            lent.provider,
            nv,
            members,
        )? {
            None => Ok(()),
            Some(entry_points) => Ok(self.enter_known(lent, nv, entry_points)?),
        }
    }
}
