//! The calls of what is demanded below a name.

ghost use Rattle.std.specs.Prelude.{◌≡◌, ◌∷◌, Some, IfOk, OnOk, OnErr};
ghost use Rattle.fast_check_finder_lattice.specs.Names.{paths, paths_below, nothing, subset_of, whole_below, path_of, IsSame, IsJoined, IsDifferenceBelow};

use crate::lattice::joins::copy_node;
use crate::lattice::named_subset::{Exports, NamedSubset};
use std::alloc::{AllocError, Global};
use std::fmt;

impl Exports {
    /// A subset without names.
    pub fn subset(alloc: Global) -> Self
        ensures { IsSame (paths_below result) (subset_of nothing) }
    {
        Exports::Subset(NamedSubset::default(alloc))
    }

    /// Demands a path whole below this name, if the name itself is not demanded whole.
    pub fn add_qualified(
        &mut self,
        alloc: Global,
        export_name: &str,
        qualified: &[String],
    ) -> Result<(), AllocError>
        ensures joined { OnOk result (IsJoined (paths_below self.old) (whole_below (export_name.now ∷ path_of qualified.now)) (paths_below self.new)) }
        ensures err { OnErr result (IsSame (paths_below self.new) (paths_below self.old)) }
    {
        match self {
            Exports::All => Ok(()),
            Exports::Subset(names) => {
                names.add_qualified(alloc, String::from_str(alloc, export_name)?, qualified)
            }
        }
    }

    /// Adds what `new_named` demands, and answers what was lacking, None where nothing was.
    pub fn extend(
        &mut self,
        alloc: Global,
        new_named: Exports,
    ) -> Result<Option<Exports>, AllocError>
        ensures joined { OnOk result (IsJoined (paths_below self.old) (paths_below new_named) (paths_below self.new)) }
        ensures difference { IfOk result (IsDifferenceBelow (Some self.old) (Some new_named)) }
        ensures err { OnErr result (self.new ≡ self.old) }
    {
        match self {
            Exports::All => Ok(None),
            Exports::Subset(names) => match new_named {
                Exports::All => {
                    *self = Exports::All;
                    Ok(Some(Exports::All))
                }
                Exports::Subset(new_subset) => {
                    let rest = names.extend(alloc, new_subset)?;
                    if rest.is_empty() {
                        return Ok(None);
                    }
                    Ok(Some(Exports::Subset(rest)))
                }
            },
        }
    }
}

impl fmt::Debug for NamedSubset {
    /// Tells of how many nodes the set is.
    fn fmt<W: fmt::Write>(&self, f: &mut fmt::Formatter<W>) -> fmt::Result {
        f.debug_struct("NamedSubset")
            .field("nodes", &self.nodes.len())
            .finish()
    }
}

impl Clone for Exports {
    ghost is_clone = { λ source copy. IsSame (paths_below copy) (paths_below source) };

    fn clone(&self) -> Result<Exports, AllocError> {
        match self {
            Exports::All => Ok(Exports::All),
            Exports::Subset(names) => Ok(Exports::Subset(names.clone()?)),
        }
    }
}

impl Clone for NamedSubset {
    ghost is_clone = { λ source copy. IsSame (paths copy) (paths source) };

    fn clone(&self) -> Result<NamedSubset, AllocError> {
        copy_node(*self.nodes.allocator(), self.nodes.as_slice(), 0)
    }
}
