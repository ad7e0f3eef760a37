//! What the public face of a declaration refers to, each thing once: its types, heritage and signatures.
use crate::names::{Chain, bound_id, entity_chain, text_of};
use fast_check_tree_forms_programs::Str;
use fast_check_tree_syntax::{Id, Part};
use std::alloc::{AllocError, Global};
use std::collections::BTreeMap;

/// In which of TypeScript's two namespaces a name is looked up.
#[derive(Clone, Copy, PartialEq, Eq, PartialOrd, Ord)]
pub enum Space {
    Value,
    Type,
    Both,
}

/// What is referred to.
#[derive(PartialEq, Eq, PartialOrd, Ord, Drop)]
pub enum Dependency {
    Name(Id),
    /// A name with those behind its dots.
    Part(Id, Vec<String>),
    /// `import("a").b.c`
    Import(String, Vec<String>),
}

/// The references of a declaration, each with its place among them. Where memory runs out one is left out, and they say so.
#[derive(Drop)]
pub struct Dependencies {
    pub alloc: Global,
    pub lacks: bool,
    pub found: BTreeMap<(Dependency, Space), usize>,
}

fn push_owned(alloc: Global, names: &[&str], out: &mut Vec<String>) -> Result<(), AllocError> {
    for name in names {
        out.push(String::from_str(alloc, *name)?)?;
    }
    Ok(())
}

// A name with those behind it, where something may bind it.
fn chained(alloc: Global, chain: Chain<'_>) -> Result<Option<Dependency>, AllocError> {
    let Some(id) = bound_id(alloc, chain.first)? else {
        return Ok(None);
    };
    if chain.names.is_empty() {
        return Ok(Some(Dependency::Name(id)));
    }
    let mut names = Vec::new(alloc);
    push_owned(alloc, chain.names.as_slice(), &mut names)?;
    Ok(Some(Dependency::Part(id, names)))
}

// `import("a").b`, without its type arguments.
fn imported(alloc: Global, arg: Part<'_>, qualifier: Part<'_>) -> Result<Dependency, AllocError> {
    let specifier = String::from_str(alloc, Str::of(arg).value)?;
    let mut names = Vec::new(alloc);
    if !qualifier.is_absent() {
        let chain = entity_chain(alloc, qualifier)?;
        names.push(String::from_str(alloc, text_of(chain.first))?)?;
        push_owned(alloc, chain.names.as_slice(), &mut names)?;
    }
    Ok(Dependency::Import(specifier, names))
}

impl Dependencies {
    pub fn new(alloc: Global) -> Dependencies {
        Dependencies {
            alloc,
            lacks: false,
            found: BTreeMap::new(alloc),
        }
    }

    /// Adds a reference, if it is new.
    pub fn add(&mut self, dependency: Dependency, space: Space) {
        let key = (dependency, space);
        if self.found.get(&key).is_none() {
            let place = self.found.len();
            if self.found.insert(key, place).is_err() {
                self.lacks = true;
            }
        }
    }

    /// A name with those behind it, where something may bind it.
    pub fn chain(&mut self, chain: Chain<'_>, space: Space) {
        match chained(self.alloc, chain) {
            Ok(Some(dependency)) => self.add(dependency, space),
            Ok(None) => {}
            Err(_) => self.lacks = true,
        }
    }

    /// A name, where something may bind it.
    pub fn name(&mut self, part: Part<'_>, space: Space) {
        match bound_id(self.alloc, part) {
            Ok(Some(id)) => self.add(Dependency::Name(id), space),
            Ok(None) => {}
            Err(_) => self.lacks = true,
        }
    }

    /// `a.b.c` as a type.
    pub fn entity(&mut self, entity: Part<'_>, space: Space) {
        match entity_chain(self.alloc, entity) {
            Ok(chain) => self.chain(chain, space),
            Err(_) => self.lacks = true,
        }
    }

    /// `import("a").b`, without its type arguments.
    pub fn import(&mut self, arg: Part<'_>, qualifier: Part<'_>) {
        match imported(self.alloc, arg, qualifier) {
            Ok(dependency) => self.add(dependency, Space::Both),
            Err(_) => self.lacks = true,
        }
    }
}
