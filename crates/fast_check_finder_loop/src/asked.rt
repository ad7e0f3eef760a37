//! The demands of a module's symbols that were asked for.

ghost use Rattle.std.specs.Prelude.{◌≡◌, [], Some, true, IfOk, OnErr, option_map};
ghost use Rattle.std.proofs.Common.{refl};
ghost use Rattle.std.specs.List.{list_any};
ghost use Rattle.fast_check_finder_demands.specs.symbol_demands.Demands.{asked_of, demand_of};
ghost use Rattle.fast_check_finder_demands.specs.Account.{essence, referred, is_both, narrowed};
ghost use Rattle.fast_check_finder_loop.specs.Asked.{demand_at, covers, AddsSymbol, AddsDemand};
ghost use Rattle.fast_check_finder_loop.specs.NameOrder.{names_cmp, names_total, names_ties, names_po};

use fast_check_finder_demands::{Ask, Extent, Namespaces, SymbolDemand, SymbolId};
use std::alloc::{AllocError, Global};
use std::cmp::Ordering;
use std::collections::BTreeSet;
use std::marker::Model;

/// The names of a path. Paths are in the order of their lengths first, so that the rests of one path are told apart without a look at the names.
#[derive(Clone, Copy, PartialEq, Eq)]
pub struct NamePath<'a> {
    pub names: &'a [String],
}

impl PartialOrd for NamePath<'_> {
    ghost partial_cmp = { λ a b. Some (names_cmp a b) };

    ghost laws = { names_po };

    fn partial_cmp(&self, other: &Self) -> Option<Ordering> {
        Some(self.cmp(other))
    }
}

impl Ord for NamePath<'_> {
    ghost cmp = { names_cmp };

    ghost total = { names_total };

    ghost matches_partial_cmp = { λ a b. refl };

    ghost matches_eq = { names_ties };

    fn cmp(&self, other: &Self) -> Ordering {
        match self.names.len().cmp(&other.names.len()) {
            Ordering::Equal => self.names.cmp(other.names),
            unequal => unequal,
        }
    }
}

/// How a symbol is asked for. By whom plays a part for a path alone.
#[derive(Clone, Copy, PartialEq, Eq, PartialOrd, Ord)]
pub enum AskedAs<'a> {
    Reference(Namespaces),
    Child(Namespaces),
    Path(NamePath<'a>, Extent, SymbolId),
}

/// What tells a demand of a symbol from others.
#[derive(Clone, Copy, PartialEq, Eq, PartialOrd, Ord)]
pub struct AskedSymbol<'a> {
    pub symbol: SymbolId,
    pub asked: AskedAs<'a>,
}

/// What tells a demand from others.
fn key_of<'a>(demand: SymbolDemand<'a>) -> AskedSymbol<'a>
    ensures { demand_at result ≡ essence (demand_of demand.entry) }
{
    let asked = match demand.ask {
        Ask::Reference(namespaces) => AskedAs::Reference(namespaces),
        Ask::Child(namespaces) => AskedAs::Child(namespaces),
        Ask::Path(names, extent) => AskedAs::Path(NamePath { names }, extent, demand.referrer),
    };
    AskedSymbol {
        symbol: demand.symbol,
        asked,
    }
}

/// The same by reference, where it is asked for as a child.
fn by_reference<'a>(demand: SymbolDemand<'a>) -> SymbolDemand<'a>
    ensures { demand_of result ≡ referred (demand_of demand.entry) }
{
    match demand.ask {
        Ask::Child(namespaces) => SymbolDemand {
            ask: Ask::Reference(namespaces),
            ..demand
        },
        Ask::Reference(_) | Ask::Path(_, _) => demand,
    }
}

/// Whether something is asked for in both namespaces.
fn is_both(ask: Ask<'_>) -> bool
    ensures { result ≡ is_both (asked_of ask.entry) }
{
    match ask {
        Ask::Reference(Namespaces::Both) | Ask::Child(Namespaces::Both) => true,
        _ => false,
    }
}

/// The same in these namespaces.
fn narrowed<'a>(namespaces: Namespaces, demand: SymbolDemand<'a>) -> SymbolDemand<'a>
    ensures { demand_of result ≡ narrowed namespaces (demand_of demand.entry) }
{
    let ask = match demand.ask {
        Ask::Reference(_) => Ask::Reference(namespaces),
        Ask::Child(_) => Ask::Child(namespaces),
        Ask::Path(names, extent) => Ask::Path(names, extent),
    };
    SymbolDemand { ask, ..demand }
}

/// A symbol of which a path was asked for, and the symbol that asked.
#[derive(Clone, Copy, PartialEq, Eq, PartialOrd, Ord)]
pub struct AskedAlias {
    pub symbol: SymbolId,
    pub referrer: SymbolId,
}

/// The demands of a module's symbols that were asked for, each once, in one namespace.
#[derive(Drop)]
pub struct AskedSymbols<'a> {
    keys: BTreeSet<AskedSymbol<'a>>,
}

impl<'a> Model for AskedSymbols<'a> {
    ghost use Rattle.std.specs.Prelude.{List, map};
    ghost use Rattle.fast_check_finder_demands.specs.symbol_demands.Demands.{Demand};
    ghost use Rattle.fast_check_finder_loop.specs.Asked.{demand_at};

    ghost Value = { List Demand };

    ghost view = { λ asked. map demand_at asked.keys.keys };
}

impl<'a> AskedSymbols<'a> {
    /// None.
    pub fn new(alloc: Global) -> AskedSymbols<'a>
        ensures { result ≡ [] }
    {
        AskedSymbols {
            keys: BTreeSet::new(alloc),
        }
    }

    /// Whether what a demand asks for was asked for.
    fn has(&self, demand: SymbolDemand<'a>) -> bool
        ensures { result ≡ list_any (covers (demand_of demand.entry)) self.now }
    {
        self.keys.contains(&key_of(demand)) || self.keys.contains(&key_of(by_reference(demand)))
    }

    /// Asks for what a demand asks for in one namespace or by a path, and answers whether it is new.
    fn add_one(&mut self, demand: SymbolDemand<'a>) -> Result<bool, AllocError>
        ensures { IfOk result (λ is_new. AddsSymbol (demand_of demand.entry) is_new self.old self.new) }
    {
        if self.has(demand) {
            return Ok(false);
        }
        self.keys.insert(key_of(demand))?;
        Ok(true)
    }

    /// Asks for a demand in both namespaces, and answers what of it is new.
    fn add_both(&mut self, demand: SymbolDemand<'a>) -> Result<Option<SymbolDemand<'a>>, AllocError>
        requires { is_both (asked_of demand.ask) ≡ true }
        ensures { IfOk result (λ new. AddsDemand (demand_of demand.entry) (option_map demand_of new) self.old self.new) }
    {
        let value = narrowed(Namespaces::Value, demand);
        let type_ = narrowed(Namespaces::Type_, demand);
        let is_value_new = self.add_one(value)?;
        let is_type_new = self.add_one(type_)?;
        Ok(match (is_value_new, is_type_new) {
            (true, true) => Some(demand),
            (true, false) => Some(value),
            (false, true) => Some(type_),
            (false, false) => None,
        })
    }

    /// Asks for what a demand asks for, and answers what of it is new.
    pub fn add(&mut self, demand: SymbolDemand<'a>) -> Result<Option<SymbolDemand<'a>>, AllocError>
        ensures { IfOk result (λ new. AddsDemand (demand_of demand.entry) (option_map demand_of new) self.old self.new) }
    {
        if is_both(demand.ask) {
            return self.add_both(demand);
        }
        if self.add_one(demand)? {
            return Ok(Some(demand));
        }
        Ok(None)
    }
}
