//! A list of demands.
ghost use Rattle.std.specs.Prelude.{◌≡◌, [], ◌∷◌, ◌++◌, map, OnOk};
ghost use Rattle.fast_check_finder_demands.specs.symbol_demands.Demands.{demand_of};

use crate::symbol_demands::demand::SymbolDemand;
use std::alloc::{AllocError, Global};
use std::marker::Model;

/// Demands, in the order in which they came.
#[derive(Drop)]
pub struct Demands<'a> {
    items: Vec<SymbolDemand<'a>>,
}

impl<'a> Model for Demands<'a> {
    ghost use Rattle.std.specs.Prelude.{List, map};
    ghost use Rattle.fast_check_finder_demands.specs.symbol_demands.Demands.{Demand, demand_of};

    ghost Value = { List Demand };

    ghost view = { λ d. map demand_of d.items.items };
}

impl<'a> Demands<'a> {
    /// No demands.
    pub fn new(alloc: Global) -> Demands<'a>
        ensures { result ≡ [] }
    {
        Demands {
            items: Vec::new(alloc),
        }
    }

    /// One more.
    pub fn push(&mut self, demand: SymbolDemand<'a>) -> Result<(), AllocError>
        ensures { OnOk result (self.new ≡ self.old ++ demand_of demand.entry ∷ []) }
    {
        self.items.push(demand)?;
        Ok(())
    }

    /// All of them.
    pub fn as_slice(&self) -> &[SymbolDemand<'a>]
        ensures { map demand_of result.now ≡ self.now }
    {
        self.items.as_slice()
    }
}
