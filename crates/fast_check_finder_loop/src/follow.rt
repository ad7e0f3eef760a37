//! What follows from names of a module, and from its symbols.

ghost use Rattle.std.specs.Prelude.{◌≡◌, ◌++◌, ◌<◌, List, Some, length, map, slice_get, IfOk, IfSome, OnOk};
ghost use Rattle.url.specs.Parts.{serialize};
ghost use Rattle.fast_check_tables_packages.specs.Package.{nv_of};
ghost use Rattle.fast_check_tables_graph.specs.Root.{specifier_of};
ghost use Rattle.fast_check_tables_graph.specs.declared.graph.ModuleGraph.{ModuleGraph as ModuleGraphSeen};
ghost use Rattle.fast_check_tables_graph.specs.declared.root_symbol.RootSymbol.{RootSymbol as RootSymbolSeen};
ghost use Rattle.fast_check_finder_demands.specs.symbol_demands.Demands.{demand_of};
ghost use Rattle.fast_check_finder_demands.specs.symbol_demands.Rules.{names};
ghost use Rattle.fast_check_finder_demands.specs.symbol_demands.Passed.{own_names, asked_own};
ghost use Rattle.fast_check_finder_demands.specs.Yields.{ranges, implementations, faults, fault_seen};
ghost use Rattle.fast_check_finder_demands.specs.name_demands.Files.{names_of, files, file_demand_of};
ghost use Rattle.fast_check_finder_demands.specs.re_exports.Modules.{tables_in, own_tables};
ghost use Rattle.fast_check_finder_demands.specs.re_exports.Origins.{IsIndexOf};
ghost use Rattle.fast_check_finder_demands.specs.re_exports.Roots.{roots};
ghost use Rattle.fast_check_finder_demands.specs.re_exports.ReExports.{module_followers, module_demand_of, shown_ranges, re_export_ranges};
ghost use Rattle.fast_check_finder_demands.specs.asked.Demands.{asked_by, of_symbol, to_symbol};
ghost use Rattle.fast_check_finder_demands.specs.facts.GraphFacts.{known, named_at, traced_as};
ghost use Rattle.fast_check_finder_demands.specs.facts.Followers.{file_at, behind, file_followers, re_export_followers};
ghost use Rattle.fast_check_finder_loop.specs.Finder.{Followed, place_nv, place_text, names_seen, traced_in, AsksEach, AreAliasesAsked, AsksOwn, AreShown, Shows, KeepsAsked, KeepsFound, IsSound, Goes, AsksFor, Follows};
ghost use Rattle.fast_check_finder_loop.specs.Rules.{own_text, names_followers};
ghost use Rattle.fast_check_finder_loop.specs.Yields.{public_at, implementing_at, faults_at, names_yields};

use crate::asked::AskedAlias;
use crate::demand::{NamesAt, SymbolAt};
use crate::finder::{Finder, FollowedModule, ask_each, place_of};
use crate::options::Lent;
use fast_check_finder_demands::asked::{copy_of, is_same_package};
use fast_check_finder_demands::facts::{GraphFacts, info_of, is_untyped, owner_of};
use fast_check_finder_demands::name_demands::{
    FileDependencies, FileDependency, NameDemand, files_of,
};
use fast_check_finder_demands::re_exports::{
    GraphModule, PublicReExports, ReExportDemand, ReExportDemands, push_all_ranges, re_exports_of,
    roots_of, tables_of,
};
use fast_check_finder_demands::{
    Ask, demands_of, fault_of, own_names_of, push_implementations, push_ranges,
};
use fast_check_tables_graph::AnyModuleInfo;
use fast_check_tables_packages::PackageNv;
use std::alloc::{AllocError, Global};
use std::collections::VecDeque;
use url::Url;

/// Adds what a demand of a symbol of a module yields.
fn add_yields<'a>(at: SymbolAt<'a>, followed: &mut FollowedModule<'a>) -> Result<(), AllocError>
    ensures ranges { OnOk result (followed.new.found.ranges.items
        ≡ followed.old.found.ranges.items ++ ranges (tables_in followed.old.found.info.now) (demand_of at.entry.demand)) }
    ensures implementations { OnOk result (followed.new.found.implementations.items
        ≡ followed.old.found.implementations.items ++ implementations (tables_in followed.old.found.info.now) (demand_of at.entry.demand)) }
    ensures faults { OnOk result (map fault_seen followed.new.found.faults.items
        ≡ map fault_seen followed.old.found.faults.items ++ faults (tables_in followed.old.found.info.now) (demand_of at.entry.demand)) }
    ensures info { followed.new.found.info ≡ followed.old.found.info }
    ensures shows_all { followed.new.shows_all ≡ followed.old.shows_all }
    ensures kept { KeepsAsked followed.old followed.new }
{
    let tables = tables_of(followed.found.info);
    push_ranges(tables, at.demand, &mut followed.found.ranges)?;
    push_implementations(tables, at.demand, &mut followed.found.implementations)?;
    if let Some(fault) = fault_of(tables, at.demand) {
        followed.found.faults.push(fault)?;
    }
    Ok(())
}

/// Asks for the names of the own path of an alias that is asked for a path, unless the same symbol asked for a path of it before.
fn ask_alias<'a>(
    alloc: Global,
    at: SymbolAt<'a>,
    followed: &mut FollowedModule<'a>,
    symbols: &mut VecDeque<SymbolAt<'a>>,
) -> Result<(), AllocError>
    ensures asks { OnOk result (AreAliasesAsked followed.old → AsksOwn at.entry.place (own_names (tables_in followed.old.found.info.now) at.entry.demand.symbol
        at.entry.demand.referrer) followed.old followed.new symbols.old.items symbols.new.items) }
    ensures kept { KeepsFound followed.old followed.new }
{
    let alias = AskedAlias {
        symbol: at.demand.symbol,
        referrer: at.demand.referrer,
    };
    if !followed.aliases.insert(alias)? {
        return Ok(());
    }
    let tables = tables_of(followed.found.info);
    let own = own_names_of(alloc, tables, at.demand)?;
    ask_each(at.place, &own, &mut followed.asked, symbols)
}

/// The same of a demand by a path. By reference and as a child an alias asks for no names of its own path.
fn ask_own<'a>(
    alloc: Global,
    at: SymbolAt<'a>,
    followed: &mut FollowedModule<'a>,
    symbols: &mut VecDeque<SymbolAt<'a>>,
) -> Result<(), AllocError>
    ensures asks { let d = demand_of at.entry.demand in OnOk result (AreAliasesAsked followed.old
        → AsksOwn at.entry.place (asked_own (tables_in followed.old.found.info.now) d d.asked) followed.old followed.new symbols.old.items symbols.new.items) }
    ensures kept { KeepsFound followed.old followed.new }
{
    match at.demand.ask {
        Ask::Path(_, _) => ask_alias(alloc, at, followed, symbols),
        Ask::Reference(_) | Ask::Child(_) => Ok(()),
    }
}

/// Adds what names make public of the re-exports of all of a module. All of these are added once.
fn show(followed: &mut FollowedModule<'_>, public: PublicReExports) -> Result<(), AllocError>
    ensures shows { OnOk result (AreShown followed.old → Shows (shown_ranges (tables_in followed.old.found.info.now).re_exports «public») followed.old followed.new) }
    ensures kept { KeepsAsked followed.old followed.new }
{
    match public {
        PublicReExports::Nothing => Ok(()),
        PublicReExports::First(range) => {
            followed.found.ranges.push(range)?;
            Ok(())
        }
        PublicReExports::All => {
            if followed.shows_all {
                return Ok(());
            }
            push_all_ranges(tables_of(followed.found.info), &mut followed.found.ranges)?;
            followed.shows_all = true;
            Ok(())
        }
    }
}

/// What names of a module give, and what follows from them within the module. Answers what they ask of other modules.
fn follow_names_in<'a>(
    alloc: Global,
    traced: GraphModule<'a>,
    place: usize,
    names: NameDemand<'a>,
    followed: &mut FollowedModule<'a>,
    symbols: &mut VecDeque<SymbolAt<'a>>,
) -> Result<ReExportDemands<'a>, AllocError>
    requires info { followed.old.found.info.now ≡ traced.info.now }
    requires index { IfSome followed.old.index (IsIndexOf traced) }
    ensures demands { IfOk result (λ out. out ≡ module_followers traced.entry (names_of names.entry)) }
    ensures asks { OnOk result (AsksEach place (roots (own_tables traced.entry) (names_of names.entry)) followed.old.asked followed.new.asked
        symbols.old.items symbols.new.items) }
    ensures shows { OnOk result (AreShown followed.old → Shows (re_export_ranges traced.entry (names_of names.entry)) followed.old followed.new) }
    ensures index_of { OnOk result (IfSome followed.new.index (IsIndexOf traced.entry)) }
    ensures aliases { OnOk result (followed.new.aliases ≡ followed.old.aliases) }
{
    let roots = roots_of(alloc, tables_of(traced.info), names)?;
    ask_each(place, &roots, &mut followed.asked, symbols)?;
    let re_exports = re_exports_of(alloc, traced, names, &mut followed.index)?;
    show(followed, re_exports.public)?;
    Ok(re_exports.demands)
}

impl<'a> Finder<'a> {
    /// Asks for names of the module at a URL, if it belongs to the package; for another package it belongs to, alone.
    fn ask_file(
        &mut self,
        lent: Lent<'a, '_>,
        nv: &PackageNv,
        url: &Url,
        names: NameDemand<'a>,
    ) -> Result<(), AllocError>
        ensures { let k = known lent.entry.facts (url_of lent.entry.provider.now) (nv_at lent.entry.provider.now) in let t = serialize url.now in
            OnOk result (AsksFor k (nv_of nv.now) (file_at (nv_of nv.now) t (asked_by (names_of names.entry)) (k.owner t)) self.old self.new) }
    {
        match owner_of(lent.facts, lent.provider, url)? {
            None => Ok(()),
            Some(owner) => {
                if is_same_package(nv, &owner) {
                    return self.ask_names(lent.alloc, &owner, url, names);
                }
                self.depend(nv, owner)
            }
        }
    }

    /// What a module asks of the file that a text names.
    fn ask_dependency(
        &mut self,
        lent: Lent<'a, '_>,
        nv: &PackageNv,
        info: &'a AnyModuleInfo,
        dependency: FileDependency<'a>,
    ) -> Result<(), AllocError>
        ensures { let k = known lent.entry.facts (url_of lent.entry.provider.now) (nv_at lent.entry.provider.now) in let m = traced_as k info.now in
            OnOk result (AsksFor k (nv_of nv.now) (file_followers k (nv_of nv.now) m (file_demand_of dependency.entry)) self.old self.new) }
    {
        let graph = lent.facts.graph;
        match graph.resolve_dependency(dependency.specifier, info.specifier()) {
            None => Ok(()),
            Some(url) => self.ask_file(lent, nv, url, dependency.names),
        }
    }

    /// Asks for names of the module at a URL behind a re-export, for whatever package it belongs to.
    fn ask_behind(
        &mut self,
        lent: Lent<'a, '_>,
        nv: &PackageNv,
        url: &Url,
        names: NameDemand<'a>,
    ) -> Result<(), AllocError>
        ensures { let k = known lent.entry.facts (url_of lent.entry.provider.now) (nv_at lent.entry.provider.now) in let t = serialize url.now in
            OnOk result (AsksFor k (nv_of nv.now) (behind (nv_of nv.now) t (asked_by (names_of names.entry)) (k.owner t)) self.old self.new) }
    {
        match owner_of(lent.facts, lent.provider, url)? {
            None => Ok(()),
            Some(owner) => {
                self.ask_names(lent.alloc, &owner, url, names)?;
                if is_same_package(nv, &owner) {
                    return Ok(());
                }
                self.depend(nv, owner)
            }
        }
    }

    /// What a module asks of another by what it exports again.
    fn ask_re_exported(
        &mut self,
        lent: Lent<'a, '_>,
        nv: &PackageNv,
        info: &'a AnyModuleInfo,
        demand: ReExportDemand<'a>,
    ) -> Result<(), AllocError>
        ensures { let k = known lent.entry.facts (url_of lent.entry.provider.now) (nv_at lent.entry.provider.now) in let m = traced_as k info.now in
            OnOk result (AsksFor k (nv_of nv.now) (re_export_followers k (nv_of nv.now) m (module_demand_of demand.entry)) self.old self.new) }
    {
        match demand {
            ReExportDemand::Answered(url, names) => self.ask_behind(lent, nv, url, names),
            ReExportDemand::ReExported(text) => {
                let graph = lent.facts.graph;
                match graph.resolve_dependency(text, info.specifier()) {
                    None => Ok(()),
                    Some(url) => self.ask_behind(lent, nv, url, NameDemand::AllButDefault),
                }
            }
        }
    }

    /// What a demand of a symbol yields, and what follows from it within its module. Answers what it asks of other files.
    fn follow_at(
        &mut self,
        alloc: Global,
        at: SymbolAt<'a>,
    ) -> Result<FileDependencies<'a>, AllocError>
        requires { at.place < length self.old.modules.entries }
        ensures { IfOk result (λ out. (g : ModuleGraphSeen) (r : RootSymbolSeen) (e : Followed) → slice_get self.old.modules.entries at.entry.place ≡ Some e
            → IsSound g r self.old → let m = traced_in g r e.1.found.info.now in let s = demand_of at.entry.demand in
            (out ≡ files (own_tables m) s) × Goes g r (map (to_symbol (place_nv e) (own_text m)) (names (own_tables m) s))
            (public_at (place_nv e) m (ranges (own_tables m) s) ++ (implementing_at (place_nv e) m (implementations (own_tables m) s)
            ++ faults_at (place_nv e) m (faults (own_tables m) s))) self.old self.new) }
    {
        let Some(followed) = self.modules.get_index_mut(at.place) else {
            return Ok(FileDependencies::new(alloc));
        };
        add_yields(at, followed)?;
        let tables = tables_of(followed.found.info);
        let demands = demands_of(alloc, tables, at.demand)?;
        ask_each(at.place, &demands, &mut followed.asked, &mut self.symbols)?;
        ask_own(alloc, at, followed, &mut self.symbols)?;
        files_of(alloc, tables, at.demand)
    }

    /// Follows a demand of a symbol.
    pub fn follow_symbol(&mut self, lent: Lent<'a, '_>, at: SymbolAt<'a>) -> Result<(), AllocError>
        requires { at.place < length self.old.modules.entries }
        ensures { let k = known lent.entry.facts (url_of lent.entry.provider.now) (nv_at lent.entry.provider.now) in
            OnOk result ((e : Followed) → slice_get self.old.modules.entries at.entry.place ≡ Some e → IsSound k.graph k.root_symbol self.old
            → Follows k (of_symbol (place_nv e) (place_text e) (demand_of at.entry.demand)) self.old self.new) }
    {
        let Some((place, followed)) = self.modules.get_index(at.place) else {
            return Ok(());
        };
        let nv = copy_of(&place.package)?;
        let info = followed.found.info;
        let dependencies = self.follow_at(lent.alloc, at)?;
        for dependency in dependencies.as_slice() {
            self.ask_dependency(lent, &nv, info, *dependency)?;
        }
        Ok(())
    }

    /// What names of the module at a place give, and what follows from them within the module. Answers what they ask of other modules.
    fn follow_names_at(
        &mut self,
        alloc: Global,
        facts: GraphFacts<'a>,
        place: usize,
        names: NameDemand<'a>,
    ) -> Result<ReExportDemands<'a>, AllocError>
        requires within { place < length self.old.modules.entries }
        requires sound { IsSound facts.graph.now facts.root_symbol.now self.old }
        ensures { IfOk result (λ out. (e : Followed) → slice_get self.old.modules.entries place ≡ Some e
            → let g = facts.entry.graph.now in let r = facts.entry.root_symbol.now in
            let m = traced_in g r e.1.found.info.now in let d = names_of names.entry in
            (out ≡ module_followers m d) × Goes g r (map (to_symbol (place_nv e) (own_text m)) (roots (own_tables m) d))
            (public_at (place_nv e) m (re_export_ranges m d)) self.old self.new) }
    {
        let Some(followed) = self.modules.get_index_mut(place) else {
            return Ok(ReExportDemands::new(alloc));
        };
        let traced = GraphModule {
            graph: facts.graph,
            root_symbol: facts.root_symbol,
            info: followed.found.info,
        };
        follow_names_in(alloc, traced, place, names, followed, &mut self.symbols)
    }

    /// Follows names of a module that has tables.
    fn follow_module(
        &mut self,
        lent: Lent<'a, '_>,
        info: &'a AnyModuleInfo,
        nv: PackageNv,
        names: NameDemand<'a>,
    ) -> Result<(), AllocError>
        requires sound { IsSound lent.facts.graph.now lent.facts.root_symbol.now self.old }
        requires own { named_at lent.facts.root_symbol.now (serialize (specifier_of info.now)) ≡ Some info.now }
        ensures { let k = known lent.entry.facts (url_of lent.entry.provider.now) (nv_at lent.entry.provider.now) in
            OnOk result (let m = traced_as k info.now in let d = names_of names.entry in
            Goes k.graph k.root_symbol (names_followers k (nv_of nv) d m) (names_yields k (nv_of nv) d m) self.old self.new) }
    {
        let place = place_of(lent.alloc, &mut self.modules, copy_of(&nv)?, info)?;
        let demands = self.follow_names_at(lent.alloc, lent.facts, place, names)?;
        for demand in demands.as_slice() {
            self.ask_re_exported(lent, &nv, info, *demand)?;
        }
        Ok(())
    }

    /// Follows names of a module, if it has tables. One whose types are not known is noted.
    pub fn follow_names(&mut self, lent: Lent<'a, '_>, at: NamesAt<'a>) -> Result<(), AllocError>
        requires { IsSound lent.facts.graph.now lent.facts.root_symbol.now self.old }
        ensures { let k = known lent.entry.facts (url_of lent.entry.provider.now) (nv_at lent.entry.provider.now) in
            OnOk result (Follows k (names_seen at.entry) self.old self.new) }
    {
        let NamesAt {
            package,
            specifier,
            names,
        } = at;
        let GraphFacts {
            graph,
            root_symbol,
            ..
        } = lent.facts;
        match info_of(graph, root_symbol, &specifier) {
            Some(info) => {
                // Each module is found by its own name.
                root_symbol.own_names_find();
                self.follow_module(lent, info, package, names)
            }
            None => {
                if is_untyped(graph, &specifier) {
                    self.untyped.push((package, specifier))?;
                }
                Ok(())
            }
        }
    }
}
