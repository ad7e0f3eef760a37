//! Scopes, and which of them binds a name.
use fast_check_tree_syntax::Atom;
use std::alloc::{AllocError, Global};
use std::collections::BTreeMap;

/// As what a name is bound, or looked up: as a value, as a type, or as a namespace.
#[derive(Clone, Copy, PartialEq, Eq)]
pub struct Meaning {
    pub value: bool,
    pub is_type: bool,
    pub namespace: bool,
}

pub const VALUE: Meaning = Meaning {
    value: true,
    is_type: false,
    namespace: false,
};

pub const TYPE: Meaning = Meaning {
    value: false,
    is_type: true,
    namespace: false,
};

pub const NAMESPACE: Meaning = Meaning {
    value: false,
    is_type: false,
    namespace: true,
};

pub const ANY: Meaning = Meaning {
    value: true,
    is_type: true,
    namespace: true,
};

impl Meaning {
    pub fn with(self, other: Meaning) -> Meaning {
        Meaning {
            value: self.value || other.value,
            is_type: self.is_type || other.is_type,
            namespace: self.namespace || other.namespace,
        }
    }

    fn meets(self, other: Meaning) -> bool {
        (self.value && other.value)
            || (self.is_type && other.is_type)
            || (self.namespace && other.namespace)
    }
}

/// The number of a scope among those of a module.
#[derive(Clone, Copy, PartialEq, Eq)]
pub struct ScopeNo(pub usize);

#[derive(Drop)]
struct Scope {
    parent: Option<ScopeNo>,
    names: BTreeMap<Atom, Meaning>,
    // What its block exports to the other blocks of the same namespace or enum, until it joins them.
    shown: BTreeMap<Atom, Meaning>,
    // The blocks of that namespace or enum, this one among them.
    joined: Option<GroupNo>,
}

// The first two blocks that show a name with one meaning. A block looks at what the others show, so a third one is never asked for.
#[derive(Clone, Copy)]
struct Blocks {
    first: Option<ScopeNo>,
    second: Option<ScopeNo>,
}

const NO_BLOCKS: Blocks = Blocks {
    first: None,
    second: None,
};

impl Blocks {
    // With a later block, if that shows the name.
    fn with(self, scope: ScopeNo, shows: bool) -> Blocks {
        match (shows, self.first, self.second) {
            (true, None, _) => Blocks {
                first: Some(scope),
                ..self
            },
            (true, Some(_), None) => Blocks {
                second: Some(scope),
                ..self
            },
            _ => self,
        }
    }

    // The first block other than one that asks.
    fn other(self, scope: ScopeNo) -> Option<ScopeNo> {
        if self.first == Some(scope) {
            self.second
        } else {
            self.first
        }
    }
}

// The blocks that show a name, by its meanings.
#[derive(Clone, Copy)]
struct Shown {
    values: Blocks,
    types: Blocks,
    namespaces: Blocks,
}

const NOT_SHOWN: Shown = Shown {
    values: NO_BLOCKS,
    types: NO_BLOCKS,
    namespaces: NO_BLOCKS,
};

// The earlier one of two blocks.
fn earlier(a: Option<ScopeNo>, b: Option<ScopeNo>) -> Option<ScopeNo> {
    match (a, b) {
        (Some(a), Some(b)) if b.0 < a.0 => Some(b),
        (Some(a), _) => Some(a),
        (None, b) => b,
    }
}

impl Shown {
    fn with(self, scope: ScopeNo, meaning: Meaning) -> Shown {
        Shown {
            values: self.values.with(scope, meaning.value),
            types: self.types.with(scope, meaning.is_type),
            namespaces: self.namespaces.with(scope, meaning.namespace),
        }
    }

    // The first block other than one that asks, which shows the name with one of these meanings.
    fn other(self, scope: ScopeNo, meaning: Meaning) -> Option<ScopeNo> {
        let mut found = None;
        if meaning.value {
            found = earlier(found, self.values.other(scope));
        }
        if meaning.is_type {
            found = earlier(found, self.types.other(scope));
        }
        if meaning.namespace {
            found = earlier(found, self.namespaces.other(scope));
        }
        found
    }
}

// What the blocks of a namespace or an enum show to one another.
type Group = BTreeMap<Atom, Shown>;

// Adds what a block shows, behind those that joined before it.
fn add_shown(
    group: &mut Group,
    scope: ScopeNo,
    shown: BTreeMap<Atom, Meaning>,
) -> Result<(), AllocError> {
    for (name, meaning) in shown {
        let before = match group.get(&name) {
            Some(before) => *before,
            None => NOT_SHOWN,
        };
        let _ = group.insert(name, before.with(scope, meaning))?;
    }
    Ok(())
}

/// The number of a namespace or an enum that is written in several blocks.
#[derive(Clone, Copy, PartialEq, Eq)]
pub struct GroupNo(pub usize);

/// The scopes of a module. The first one is that of its top. Where memory runs out something is left out, and they say so.
#[derive(Drop)]
pub struct Scopes {
    pub alloc: Global,
    pub lacks: bool,
    scopes: Vec<Scope>,
    groups: Vec<Group>,
}

fn holds(names: &BTreeMap<Atom, Meaning>, name: &Atom, meaning: Meaning) -> bool {
    match names.get(name) {
        Some(bound) => bound.meets(meaning),
        None => false,
    }
}

fn bind_in(
    names: &mut BTreeMap<Atom, Meaning>,
    alloc: Global,
    name: &str,
    meaning: Meaning,
) -> Result<(), AllocError> {
    let name = Atom::from_str(alloc, name)?;
    let bound = match names.get(&name) {
        Some(bound) => bound.with(meaning),
        None => meaning,
    };
    let _ = names.insert(name, bound)?;
    Ok(())
}

impl Scopes {
    pub fn new(alloc: Global) -> Scopes {
        Scopes {
            alloc,
            lacks: false,
            scopes: Vec::new(alloc),
            groups: Vec::new(alloc),
        }
    }

    pub fn open(&mut self, parent: Option<ScopeNo>) -> ScopeNo {
        let no = ScopeNo(self.scopes.len());
        let scope = Scope {
            parent,
            names: BTreeMap::new(self.alloc),
            shown: BTreeMap::new(self.alloc),
            joined: None,
        };
        if self.scopes.push(scope).is_err() {
            self.lacks = true;
        }
        no
    }

    pub fn bind(&mut self, scope: ScopeNo, name: &str, meaning: Meaning) {
        let alloc = self.alloc;
        if let Some(found) = self.scopes.get_mut(scope.0) {
            if bind_in(&mut found.names, alloc, name, meaning).is_err() {
                self.lacks = true;
            }
        }
    }

    /// Binds a name that a block shows to the other blocks of its namespace or enum.
    pub fn show(&mut self, scope: ScopeNo, name: &str, meaning: Meaning) {
        let alloc = self.alloc;
        if let Some(found) = self.scopes.get_mut(scope.0) {
            if bind_in(&mut found.shown, alloc, name, meaning).is_err() {
                self.lacks = true;
            }
        }
    }

    /// Shows what a scope binds.
    pub fn show_all(&mut self, scope: ScopeNo, from: ScopeNo) {
        let mut names: BTreeMap<Atom, Meaning> = BTreeMap::new(self.alloc);
        if let Some(found) = self.scopes.get_mut(from.0) {
            std::mem::swap(&mut names, &mut found.names);
        }
        if let Some(found) = self.scopes.get_mut(scope.0) {
            found.shown = names;
        }
    }

    pub fn group(&mut self) -> GroupNo {
        let no = GroupNo(self.groups.len());
        if self.groups.push(BTreeMap::new(self.alloc)).is_err() {
            self.lacks = true;
        }
        no
    }

    /// Joins the scope of a block with those of a group, which joined before. What the block shows is known by then.
    pub fn join(&mut self, group: GroupNo, scope: ScopeNo) {
        let mut shown: BTreeMap<Atom, Meaning> = BTreeMap::new(self.alloc);
        if let Some(found) = self.scopes.get_mut(scope.0) {
            std::mem::swap(&mut shown, &mut found.shown);
            found.joined = Some(group);
        }
        if let Some(found) = self.groups.get_mut(group.0)
            && add_shown(found, scope, shown).is_err()
        {
            self.lacks = true;
        }
    }

    // The scope, or one that it is joined with, where that binds the name.
    fn own(&self, scope: ScopeNo, name: &Atom, meaning: Meaning) -> Option<ScopeNo> {
        let found = self.scopes.get(scope.0)?;
        if holds(&found.names, name, meaning) {
            return Some(scope);
        }
        let group = found.joined?;
        self.groups.get(group.0)?.get(name)?.other(scope, meaning)
    }

    /// The number that a name has that is looked up from a scope on: 1 where nothing binds it.
    pub fn find(&self, scope: ScopeNo, name: &str, meaning: Meaning) -> Result<u32, AllocError> {
        let name = Atom::from_str(self.alloc, name)?;
        let mut at = Some(scope);
        for _turn in 0..self.scopes.len() {
            let Some(here) = at else {
                break;
            };
            if let Some(found) = self.own(here, &name, meaning) {
                return Ok(number_of(found));
            }
            at = match self.scopes.get(here.0) {
                Some(scope) => scope.parent,
                None => None,
            };
        }
        Ok(1)
    }

    pub fn parent(&self, scope: ScopeNo) -> ScopeNo {
        match self.scopes.get(scope.0) {
            Some(found) => match found.parent {
                Some(parent) => parent,
                None => scope,
            },
            None => scope,
        }
    }
}

/// The number of a scope as swc has it: 2 is that of the top.
pub fn number_of(scope: ScopeNo) -> u32 {
    (scope.0.min(4294967293) as u32).saturating_add(2)
}
