//! The calls of sets of demanded names.

ghost use Rattle.std.specs.Prelude.{◌≡◌, ◌∷◌, [], false, None, IfOk, OnOk, OnErr, IsTrue, string_bytes, vec_len, ◌<◌};
ghost use Rattle.fast_check_finder_lattice.specs.Names.{Name, Touched, paths, paths_below, nothing, named, whole, whole_below, path_of};
ghost use Rattle.fast_check_finder_lattice.specs.Graph.{entry, IsTree, IsPut};
ghost use Rattle.fast_check_finder_lattice.specs.Names.{has_subset, IsSame, IsJoin, IsJoined, IsNodeCount, IsDifference};
ghost use Rattle.fast_check_finder_lattice.specs.Names.{whole_path, IsListed};

use crate::lattice::covers::cover;
use crate::lattice::differences::difference;
use crate::lattice::extends::{alone, joint};
use crate::lattice::joins::{NodeAt, copy_below, join_node};
use crate::lattice::named_subset::{Exports, NamedSubset};
use crate::lattice::node::{Below, Node};
use crate::lattice::nodes::{bare_node, find_at, graft, put_name, put_root};
use crate::lattice::path::nodes_of;
use std::alloc::{AllocError, Global};

impl NamedSubset {
    /// The set without names.
    pub fn default(alloc: Global) -> Self
        ensures { IsSame (paths result) nothing }
    {
        NamedSubset {
            nodes: Vec::new(alloc),
        }
    }

    /// One more than the number of paths at which a subset stands: the nodes, and one where there is none yet.
    pub fn node_count(&self) -> usize
        ensures { IsNodeCount (paths self.now) result }
    {
        if self.nodes.is_empty() {
            1
        } else {
            self.nodes.len()
        }
    }

    /// Whether no name is demanded.
    pub fn is_empty(&self) -> bool
        ensures none { IsTrue result → IsSame (paths self.now) nothing }
        ensures some { result ≡ false → (n : Name) × IsTrue (paths self.now Touched (n ∷ [])) }
    {
        match self.nodes.get(0) {
            None => true,
            Some(root) => root.names.is_empty(),
        }
    }

    /// Whether something is demanded at this first name.
    pub fn contains_name(&self, name: &str) -> bool
        ensures { result ≡ paths self.now Touched (name.now ∷ []) }
    {
        self.demands_path(name, &[], false)
    }

    /// Whether a part of what stands below this first name is demanded, and not all of it.
    pub(crate) fn has_part_of(&self, name: &str) -> bool
        ensures { result ≡ has_subset (paths self.now) (name.now ∷ []) }
    {
        self.contains_name(name) && !self.demands_path(name, &[], true)
    }

    /// The first names, each once, with what is demanded below it, in no promised order. If memory runs out, the set is dropped.
    pub fn into_names(self, alloc: Global) -> Result<Vec<(String, Exports)>, AllocError>
        ensures { IfOk result (λ names. IsListed (paths self) names.items) }
    {
        let nodes = self.nodes.as_slice();
        let mut names = Vec::new(alloc);
        let Some(root) = nodes.get(0) else {
            return Ok(names);
        };
        let listed = root.names.as_slice();
        for place in root.sorted.as_slice() {
            let (name, below) = &listed[*place as usize];
            let below = copy_below(alloc, nodes, *below)?;
            names.push((name.clone()?, below))?;
        }
        Ok(names)
    }

    /// The set of one path, demanded whole; of no parts the empty set.
    pub fn from_parts(alloc: Global, parts: &[String]) -> Result<Self, AllocError>
        ensures { IfOk result (λ subset. IsSame (paths subset) (whole_path (path_of parts.now))) }
    {
        let nodes = nodes_of(alloc, parts)?;
        Ok(NamedSubset { nodes })
    }

    /// Demands a name whole: it and everything below it.
    pub fn add(&mut self, alloc: Global, export: String) -> Result<(), AllocError>
        ensures joined { OnOk result (IsJoined (paths self.old) (whole (string_bytes export) []) (paths self.new)) }
        ensures err { OnErr result (IsSame (paths self.new) (paths self.old)) }
    {
        self.add_named(alloc, export, Exports::All)
    }

    /// Demands a path whole: the name, and below it the parts of `qualified`, each below the one before. Without parts this is `add`, and where
    /// a beginning of the path is demanded whole nothing changes.
    pub fn add_qualified(
        &mut self,
        alloc: Global,
        export_name: String,
        qualified: &[String],
    ) -> Result<(), AllocError>
        ensures joined { OnOk result (IsJoined (paths self.old) (whole (string_bytes export_name) (path_of qualified.now)) (paths self.new)) }
        ensures err { OnErr result (IsSame (paths self.new) (paths self.old)) }
    {
        let below = path_below(alloc, qualified)?;
        self.add_named(alloc, export_name, below)
    }

    /// Demands below a name what `exports` demands. What stands there already is joined with it.
    pub fn add_named(
        &mut self,
        alloc: Global,
        export: String,
        exports: Exports,
    ) -> Result<(), AllocError>
        ensures joined { OnOk result (IsJoined (paths self.old) (named (string_bytes export) (paths_below exports)) (paths self.new)) }
        ensures err { OnErr result (IsSame (paths self.new) (paths self.old)) }
    {
        let more = single(alloc, export, exports)?;
        self.extend(alloc, more)?;
        Ok(())
    }

    /// Adds the names of `new_subset`, and answers those that were lacking: the least set that brings all of it to what was here. The answer is
    /// empty where nothing is new. The rest is made first, in time by the length of the new set. A rest of one path is written in place, once
    /// there is room for the path; else this set is joined in a copy. So this set stays as it was if memory runs out.
    pub fn extend(
        &mut self,
        alloc: Global,
        new_subset: NamedSubset,
    ) -> Result<NamedSubset, AllocError>
        ensures joined { OnOk result (IsJoined (paths self.old) (paths new_subset) (paths self.new)) }
        ensures difference { IfOk result (λ answer. IsDifference (paths self.old) (paths new_subset) (paths answer)) }
        ensures err { OnErr result (self.new ≡ self.old) }
    {
        let old = self.nodes.as_slice();
        let difference = difference(alloc, old, new_subset)?;
        if difference.is_empty() {
            return Ok(difference);
        }
        self.join(alloc, &difference)?;
        Ok(difference)
    }

    /// Joins another set: in place where that is a path of which names are lacking, or one that covers a subset, and else in a copy.
    fn join(&mut self, alloc: Global, more: &NamedSubset) -> Result<(), AllocError>
        ensures joined { OnOk result (IsJoin (paths self.old) (paths more.now) (paths self.new)) }
        ensures err { OnErr result (self.new ≡ self.old) }
    {
        let old = self.nodes.as_slice();
        let more_nodes = more.nodes.as_slice();
        let Some((at, other)) = joint(old, more_nodes) else {
            return self.join_copy(alloc, more);
        };
        let Some(listed) = alone(more_nodes, other) else {
            return self.join_copy(alloc, more);
        };
        match (find_at(old, at, listed.0.as_str()), listed.1) {
            (None, below) => {
                let below = copy_below(alloc, more_nodes, below)?;
                put_below(&mut self.nodes, alloc, at, listed.0.clone()?, below)
            }
            (Some(Below::Subset(no)), Below::All) => {
                cover(&mut self.nodes, alloc, at, listed.0.as_str(), no.0)
            }
            _ => self.join_copy(alloc, more),
        }
    }

    /// Joins another set in a copy, which takes the place of this one.
    fn join_copy(&mut self, alloc: Global, more: &NamedSubset) -> Result<(), AllocError>
        ensures joined { OnOk result (IsJoin (paths self.old) (paths more.now) (paths self.new)) }
        ensures err { OnErr result (self.new ≡ self.old) }
    {
        let old = NodeAt {
            nodes: self.nodes.as_slice(),
            no: 0,
        };
        let new = NodeAt {
            nodes: more.nodes.as_slice(),
            no: 0,
        };
        let joined = join_node(alloc, old, new)?;
        *self = joined;
        Ok(())
    }
}

/// Puts what is demanded below a name that node `at` lacks.
fn put_below(
    nodes: &mut Vec<Node>,
    alloc: Global,
    at: usize,
    name: String,
    below: Exports,
) -> Result<(), AllocError>
    requires within { at < vec_len nodes.old }
    requires tree { IsTree (entry nodes.old.items) (vec_len nodes.old) }
    requires free { entry nodes.old.items at (string_bytes name) ≡ None }
    ensures put { OnOk result (IsPut (entry nodes.old.items) (vec_len nodes.old) at (string_bytes name) (paths_below below) (entry nodes.new.items)) }
    ensures tree { IsTree (entry nodes.new.items) (vec_len nodes.new) }
    ensures err { OnErr result (nodes.new ≡ nodes.old) }
{
    match below {
        Exports::All => put_name(nodes, alloc, at, name, Below::All),
        Exports::Subset(names) => {
            let mut tree = names.nodes;
            put_root(&mut tree, alloc)?;
            graft(nodes, alloc, at, name, tree)
        }
    }
}

/// The set of one name, and what is demanded below it.
fn single(alloc: Global, name: String, exports: Exports) -> Result<NamedSubset, AllocError>
    ensures { IfOk result (λ subset. IsSame (paths subset) (named (string_bytes name) (paths_below exports))) }
{
    let mut nodes = Vec::new(alloc);
    nodes.push(bare_node(alloc))?;
    put_below(&mut nodes, alloc, 0, name, exports)?;
    Ok(NamedSubset { nodes })
}

/// What a path demands below a name: all of it where the path is empty.
fn path_below(alloc: Global, parts: &[String]) -> Result<Exports, AllocError>
    ensures { IfOk result (λ exports. IsSame (paths_below exports) (whole_below (path_of parts.now))) }
{
    if parts.is_empty() {
        return Ok(Exports::All);
    }
    let names = NamedSubset::from_parts(alloc, parts)?;
    Ok(Exports::Subset(names))
}
