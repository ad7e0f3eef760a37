//! What was asked for, what of it waits, and what was found so far.

ghost use Rattle.std.specs.Prelude.{◌≡◌, [], ◌∷◌, IfOk, OnOk};
ghost use Rattle.url.specs.Parts.{serialize};
ghost use Rattle.fast_check_tables_packages.specs.Package.{nv_of};
ghost use Rattle.fast_check_finder_demands.specs.symbol_demands.Demands.{demand_of};
ghost use Rattle.fast_check_finder_demands.specs.name_demands.Files.{names_of};
ghost use Rattle.fast_check_finder_ranges.specs.findings.Yields.{dependency};
ghost use Rattle.fast_check_finder_demands.specs.asked.Demands.{asked_by, to_package, to_module};
ghost use Rattle.fast_check_tables_graph.specs.declared.graph.ModuleGraph.{ModuleGraph as ModuleGraphSeen};
ghost use Rattle.fast_check_tables_graph.specs.declared.root_symbol.RootSymbol.{RootSymbol as RootSymbolSeen};
ghost use Rattle.fast_check_finder_loop.specs.Finder.{search_of, yields_in, AsksOne, AsksEach, IsNew, IsPlaced, IsSound, Goes, OnlyAsks};
ghost use Rattle.fast_check_finder_loop.specs.Search.{IsFresh};

use crate::asked::{AskedAlias, AskedSymbols};
use crate::demand::{Dependency, NamesAt, Place, SymbolAt};
use crate::names::ask_names;
use fast_check_finder_demands::asked::{AskedPackages, copy_of};
use fast_check_finder_demands::name_demands::NameDemand;
use fast_check_finder_demands::re_exports::ReExportIndex;
use fast_check_finder_demands::{Demands, SymbolDemand};
use fast_check_finder_lattice::HandledExports;
use fast_check_finder_ranges::findings::{Entrance, FoundModule};
use fast_check_tables_graph::AnyModuleInfo;
use fast_check_tables_packages::PackageNv;
use indexmap::IndexMap;
use std::alloc::{AllocError, Global};
use std::collections::{BTreeSet, VecDeque};
use url::Url;

/// A module that is followed for a package.
#[derive(Drop)]
pub struct FollowedModule<'a> {
    /// The demands of its symbols that were asked for.
    pub asked: AskedSymbols<'a>,
    /// The symbols of which a path was asked for: the names of the own paths of their aliases were asked for then.
    pub aliases: BTreeSet<AskedAlias>,
    /// The names behind its re-exports of all, once one was looked for there.
    pub index: Option<ReExportIndex<'a>>,
    /// Whether all its re-exports of all stand among the ranges.
    pub shows_all: bool,
    pub found: FoundModule<'a>,
}

/// What was asked for, what of it waits, and what was found.
#[derive(Drop)]
pub struct Finder<'a> {
    pub packages: AskedPackages,
    /// How many of the packages were entered.
    pub entered: usize,
    pub handled: HandledExports,
    /// The names that wait.
    pub names: Vec<NamesAt<'a>>,
    pub modules: IndexMap<Place<'a>, FollowedModule<'a>>,
    /// The demands of symbols that wait.
    pub symbols: VecDeque<SymbolAt<'a>>,
    pub entrances: Vec<(PackageNv, Entrance)>,
    pub dependencies: BTreeSet<Dependency>,
    /// The specifiers of modules whose types are not known, by which these were asked for.
    pub untyped: Vec<(PackageNv, Url)>,
}

impl<'a> FollowedModule<'a> {
    fn new(alloc: Global, info: &'a AnyModuleInfo) -> FollowedModule<'a>
        ensures { IsNew info.entry.now result }
    {
        FollowedModule {
            asked: AskedSymbols::new(alloc),
            aliases: BTreeSet::new(alloc),
            index: None,
            shows_all: false,
            found: FoundModule::new(alloc, info),
        }
    }
}

/// Asks for a demand of a symbol. What of it is new waits.
fn ask_one<'a>(
    place: usize,
    demand: SymbolDemand<'a>,
    asked: &mut AskedSymbols<'a>,
    symbols: &mut VecDeque<SymbolAt<'a>>,
) -> Result<(), AllocError>
    ensures { OnOk result (AsksOne place (demand_of demand.entry) asked.old asked.new symbols.old.items symbols.new.items) }
{
    if let Some(demand) = asked.add(demand)? {
        symbols.push_back(SymbolAt { place, demand })?;
    }
    Ok(())
}

/// Asks for each of these demands of symbols.
pub fn ask_each<'a>(
    place: usize,
    demands: &Demands<'a>,
    asked: &mut AskedSymbols<'a>,
    symbols: &mut VecDeque<SymbolAt<'a>>,
) -> Result<(), AllocError>
    ensures { OnOk result (AsksEach place demands.now asked.old asked.new symbols.old.items symbols.new.items) }
{
    for demand in demands.as_slice() {
        ask_one(place, *demand, asked, symbols)?;
    }
    Ok(())
}

/// The place of a module that is followed for a package, which is new where it was not followed.
pub fn place_of<'a>(
    alloc: Global,
    modules: &mut IndexMap<Place<'a>, FollowedModule<'a>>,
    owner: PackageNv,
    info: &'a AnyModuleInfo,
) -> Result<usize, AllocError>
    ensures { IfOk result (λ place. IsPlaced (nv_of owner) info.entry.now place modules.old.entries modules.new.entries) }
{
    let place = Place {
        package: owner,
        specifier: info.specifier(),
    };
    if let Some(number) = modules.get_index_of(&place) {
        return Ok(number);
    }
    let number = modules.len();
    modules.insert(place, FollowedModule::new(alloc, info))?;
    Ok(number)
}

impl<'a> Finder<'a> {
    pub fn new(alloc: Global) -> Finder<'a>
        ensures fresh { IsFresh (search_of result) }
        ensures found { yields_in result ≡ [] }
        ensures sound { (g : ModuleGraphSeen) (r : RootSymbolSeen) → IsSound g r result }
    {
        Finder {
            packages: AskedPackages::new(alloc),
            entered: 0,
            handled: HandledExports::default(alloc),
            names: Vec::new(alloc),
            modules: IndexMap::new(alloc),
            symbols: VecDeque::new(alloc),
            entrances: Vec::new(alloc),
            dependencies: BTreeSet::new(alloc),
            untyped: Vec::new(alloc),
        }
    }

    /// Asks for a package. It waits if it is new.
    pub fn ask_package(&mut self, nv: &PackageNv) -> Result<(), AllocError>
        ensures { OnOk result (OnlyAsks (to_package (nv_of nv.now) ∷ []) self.old self.new) }
    {
        self.packages.add(nv)
    }

    /// Asks for names of a module for a package. What of them is new waits.
    pub fn ask_names(
        &mut self,
        alloc: Global,
        owner: &PackageNv,
        specifier: &Url,
        names: NameDemand<'a>,
    ) -> Result<(), AllocError>
        ensures { OnOk result (OnlyAsks (to_module (nv_of owner.now) (serialize specifier.now) (asked_by (names_of names.entry)) ∷ []) self.old self.new) }
    {
        if let Some(names) = ask_names(alloc, &mut self.handled, specifier, names)? {
            self.names.push(NamesAt {
                package: copy_of(owner)?,
                specifier: specifier.clone()?,
                names,
            })?;
        }
        Ok(())
    }

    /// Asks for a package on which another depends.
    pub fn depend(&mut self, owner: &PackageNv, on: PackageNv) -> Result<(), AllocError>
        ensures { OnOk result ((g : ModuleGraphSeen) (r : RootSymbolSeen) → IsSound g r self.old → Goes g r (to_package (nv_of on) ∷ []) (dependency (nv_of owner.now) (nv_of on) ∷ []) self.old self.new) }
    {
        self.ask_package(&on)?;
        let dependency = Dependency {
            package: copy_of(owner)?,
            on,
        };
        self.dependencies.insert(dependency)?;
        Ok(())
    }
}
