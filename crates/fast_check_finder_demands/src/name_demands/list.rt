//! A list of what is asked of other files.
ghost use Rattle.std.specs.Prelude.{◌≡◌, [], ◌∷◌, ◌++◌, map, OnOk};
ghost use Rattle.fast_check_finder_demands.specs.name_demands.Files.{file_demand_of};

use crate::name_demands::name_demand::{FileDependency, NameDemand};
use std::alloc::{AllocError, Global};
use std::marker::Model;

/// What is asked of other files, in the order in which it came.
#[derive(Drop)]
pub struct FileDependencies<'a> {
    items: Vec<FileDependency<'a>>,
}

impl<'a> Model for FileDependencies<'a> {
    ghost use Rattle.std.specs.Prelude.{List, map};
    ghost use Rattle.fast_check_finder_demands.specs.name_demands.Files.{FileDemand, file_demand_of};

    ghost Value = { List FileDemand };

    ghost view = { λ w. map file_demand_of w.items.items };
}

impl<'a> FileDependencies<'a> {
    ghost use Rattle.fast_check_finder_demands.specs.name_demands.Files.{file_demand, names_of};

    /// Nothing.
    pub fn new(alloc: Global) -> FileDependencies<'a>
        ensures { result ≡ [] }
    {
        FileDependencies {
            items: Vec::new(alloc),
        }
    }

    /// One more.
    pub fn push(&mut self, specifier: &'a str, names: NameDemand<'a>) -> Result<(), AllocError>
        ensures { OnOk result (self.new ≡ self.old ++ file_demand specifier.now (names_of names.entry) ∷ []) }
    {
        self.items.push(FileDependency { specifier, names })?;
        Ok(())
    }

    /// All of it.
    pub fn as_slice(&self) -> &[FileDependency<'a>]
        ensures { map file_demand_of result.now ≡ self.now }
    {
        self.items.as_slice()
    }
}
