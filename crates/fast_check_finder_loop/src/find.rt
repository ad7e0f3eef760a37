//! The loop.

ghost use Rattle.std.specs.Prelude.{◌≡◌, [], map, IfOk, MatchResult};
ghost use Rattle.fast_check_tables_packages.specs.Package.{nv_of};
ghost use Rattle.fast_check_tables_graph.specs.declared.graph.ModuleGraph.{ModuleGraph as ModuleGraphSeen};
ghost use Rattle.fast_check_tables_graph.specs.declared.root_symbol.RootSymbol.{RootSymbol as RootSymbolSeen};
ghost use Rattle.fast_check_tables_packages.specs.MembersIn.{members_in};
ghost use Rattle.fast_check_finder_ranges.specs.findings.Found.{found_yields};
ghost use Rattle.fast_check_finder_ranges.specs.entries.MemberEntries.{AreMemberEntries};
ghost use Rattle.fast_check_finder_loop.specs.Account.{Account, HasHomes, IsAccount, IsYield};
ghost use Rattle.fast_check_finder_loop.specs.Finder.{IsSound, Begins, TurnsTo};
ghost use Rattle.fast_check_finder_loop.specs.Lent.{known_with};
ghost use Rattle.fast_check_finder_loop.specs.Refusals.{IsRefusal, IsRefusedOf, JoinAll};
ghost use Rattle.fast_check_finder_loop.specs.Rules.{followers};
ghost use Rattle.fast_check_finder_loop.specs.Yields.{demand_yields};

use crate::finder::Finder;
use crate::options::Lent;
use fast_check_finder_demands::asked::copy_of;
use fast_check_finder_ranges::entries::MemberEntries;
use fast_check_finder_ranges::findings::FoundPackage;
use fast_check_tables_packages::{BuildFault, PackageNv};
use indexmap::IndexMap;
use std::alloc::{AllocError, Global};

/// A finder of which these packages are asked.
fn begin<'a>(alloc: Global, roots: &[PackageNv]) -> Result<Finder<'a>, AllocError>
    ensures { IfOk result (λ finder. (g : ModuleGraphSeen) (r : RootSymbolSeen) → Begins g r (map nv_of roots.now) finder) }
{
    let mut finder = Finder::new(alloc);
    for nv in roots {
        finder.ask_package(nv)?;
    }
    Ok(finder)
}

impl<'a> Finder<'a> {
    /// Enters the next package, if there is one.
    fn enter_next(
        &mut self,
        lent: Lent<'a, '_>,
        members: &mut MemberEntries,
    ) -> Result<bool, BuildFault>
        requires sound { IsSound lent.facts.graph.now lent.facts.root_symbol.now self.old }
        requires no_symbols { self.old.symbols.items ≡ [] }
        requires no_names { self.old.names.items ≡ [] }
        ensures { let k = known_with lent.entry.facts lent.entry.seed.now (url_of lent.entry.provider.now) (nv_at lent.entry.provider.now)
            lent.entry.cache (λ c. hash_of c.now) (λ c. stored c.now) in
            MatchResult result (λ more. AreMemberEntries k.workspace_members members.old → TurnsTo k more self.old self.new ×
            AreMemberEntries k.workspace_members members.new) (IsRefusedOf k (map nv_of self.old.packages)) }
    {
        if self.entered >= self.packages.len() {
            return Ok(false);
        }
        let nv = copy_of(self.packages.at(self.entered))?;
        self.entered += 1;
        self.enter(lent, &nv, members)?;
        Ok(true)
    }
}

/// Follows the packages that are handed in, and all that follows from them, and answers what is found: what the demands of an account yield,
/// neither more nor less. In each turn a demand that waits is followed: those of symbols before names, and names before packages. Of
/// the symbols that wait the first is followed.
///
/// A package whose item in the cache is used is followed to the dependencies of the item alone. The search ends on every cache.
///
/// A package whose exports neither the graph nor a member of the workspace has is passed over. An export text that does not join refuses the
/// build: `InvalidExport` has the first one of its package. `OutOfMemory` if memory runs out, or a URL comes to 4 GB.
pub fn find_all<'a>(
    lent: Lent<'a, '_>,
    roots: &[PackageNv],
) -> Result<IndexMap<PackageNv, FoundPackage<'a>>, BuildFault>
    ensures { let k = known_with lent.entry.facts lent.entry.seed.now (url_of lent.entry.provider.now) (nv_at lent.entry.provider.now)
        lent.entry.cache (λ c. hash_of c.now) (λ c. stored c.now) in
        MatchResult result (λ found. (account : Account) × IsAccount (followers k) (map nv_of roots.now) account
        × IsYield (demand_yields k) account (found_yields found.entries) × JoinAll k account × HasHomes account)
        (IsRefusal k (map nv_of roots.now)) }
{
    let mut finder = begin(lent.alloc, roots)?;
    let mut members = MemberEntries::new(lent.alloc);
    'turns: loop {
        match finder.symbols.pop_front() {
            Some(at) => finder.follow_symbol(lent, at)?,
            None => match finder.names.pop() {
                Some(at) => finder.follow_names(lent, at)?,
                None => {
                    if !finder.enter_next(lent, &mut members)? {
                        break;
                    }
                }
            },
        }
    }
    Ok(finder.into_found(lent.alloc)?)
}
