//! A list of what is asked of other modules.
ghost use Rattle.std.specs.Prelude.{◌≡◌, [], ◌∷◌, ◌++◌, map, OnOk};
ghost use Rattle.fast_check_finder_demands.specs.re_exports.ReExports.{module_demand_of};

use crate::name_demands::NameDemand;
use std::alloc::{AllocError, Global};
use std::marker::Model;
use url::Url;

/// What a module that is followed asks of another, of whatever package.
#[derive(Clone, Copy)]
pub enum ReExportDemand<'a> {
    /// Each export but `default` of the file that a text names, since all of it is exported again.
    ReExported(&'a str),
    /// A name of the module that answers it.
    Answered(&'a Url, NameDemand<'a>),
}

/// What is asked of other modules, in the order in which it came.
#[derive(Drop)]
pub struct ReExportDemands<'a> {
    items: Vec<ReExportDemand<'a>>,
}

impl<'a> Model for ReExportDemands<'a> {
    ghost use Rattle.std.specs.Prelude.{List, map};
    ghost use Rattle.fast_check_finder_demands.specs.re_exports.ReExports.{ModuleDemand, module_demand_of};

    ghost Value = { List ModuleDemand };

    ghost view = { λ w. map module_demand_of w.items.items };
}

impl<'a> ReExportDemands<'a> {
    /// Nothing.
    pub fn new(alloc: Global) -> ReExportDemands<'a>
        ensures { result ≡ [] }
    {
        ReExportDemands {
            items: Vec::new(alloc),
        }
    }

    /// One more.
    pub fn push(&mut self, demand: ReExportDemand<'a>) -> Result<(), AllocError>
        ensures { OnOk result (self.new ≡ self.old ++ module_demand_of demand.entry ∷ []) }
    {
        self.items.push(demand)?;
        Ok(())
    }

    /// All of it.
    pub fn as_slice(&self) -> &[ReExportDemand<'a>]
        ensures { map module_demand_of result.now ≡ self.now }
    {
        self.items.as_slice()
    }
}
