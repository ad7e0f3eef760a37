//! The symbols of a module while they are gathered.
ghost use Rattle.std.specs.Prelude.{◌≡◌, ◌+◌, IfOk, OnOk, vec_len};

use fast_check_source_references::dependencies::Dependencies;
use fast_check_source_references::names::id_of;
use fast_check_tables_symbols::{FileDepName, ReExportAllNode};
use fast_check_tree_syntax::{Atom, Id, Part, SourceRange};
use std::alloc::{AllocError, Global};
use std::collections::BTreeMap;

/// The number of a symbol, by its place among them.
#[derive(Clone, Copy, PartialEq, Eq)]
pub struct SymbolNo(pub usize);

/// The symbol of the module itself.
pub const MODULE: SymbolNo = SymbolNo(0);

/// As what a declaration binds its name.
#[derive(Clone, Copy, PartialEq, Eq)]
pub enum Binds {
    Value,
    Type,
    Both,
}

/// What is known of the node of a declaration.
#[derive(Clone, Copy)]
pub struct Flags {
    pub is_class: bool,
    pub is_member: bool,
    pub is_function: bool,
    pub is_ts_namespace: bool,
    pub is_default_class_expr: bool,
    pub is_plain_class_decl: bool,
    pub has_export_keyword: bool,
}

pub const PLAIN: Flags = Flags {
    is_class: false,
    is_member: false,
    is_function: false,
    is_ts_namespace: false,
    is_default_class_expr: false,
    is_plain_class_decl: false,
    has_export_keyword: false,
};

/// What a declaration binds its symbol to.
#[derive(Drop)]
pub enum Target {
    Name(Id),
    Part(Id, Vec<String>),
    File(String, FileDepName),
    Definition(Flags, Dependencies),
}

/// A declaration of a symbol.
#[derive(Drop)]
pub struct Declaration {
    pub range: SourceRange,
    pub binds: Binds,
    /// Of a function: whether it has a body.
    pub body: Option<bool>,
    pub target: Target,
}

#[derive(Drop)]
pub struct Draft {
    pub parent: Option<SymbolNo>,
    pub name: Option<String>,
    pub qualified: Option<String>,
    pub is_private: bool,
    /// Whether it is a function, or a constant that is one.
    pub is_function: bool,
    /// The enum that it is a member of.
    pub of_enum: Option<SymbolNo>,
    /// The symbol of what stands unnamed behind `export default` in it.
    pub unnamed: Option<SymbolNo>,
    /// The name that it was made for.
    pub ident: Option<Id>,
    /// Its exports in the order in which they came, and where each name stands there.
    pub exports: Vec<(Atom, SymbolNo)>,
    pub places: BTreeMap<Atom, usize>,
    pub members: Vec<SymbolNo>,
    pub member_names: BTreeMap<Atom, SymbolNo>,
    pub declarations: Vec<Declaration>,
}

/// The tables of a module while they are gathered. Where memory runs out something is left out, and they say so.
#[derive(Drop)]
pub struct Tables {
    pub alloc: Global,
    pub lacks: bool,
    pub drafts: Vec<Draft>,
    pub by_name: BTreeMap<Id, SymbolNo>,
    /// The names that were bound, in order.
    pub names: Vec<Id>,
    pub re_exports: Vec<ReExportAllNode>,
}

fn new_draft(
    alloc: Global,
    parent: Option<SymbolNo>,
    name: Option<String>,
    qualified: Option<String>,
) -> Draft {
    Draft {
        parent,
        name,
        qualified,
        is_private: false,
        is_function: false,
        of_enum: None,
        unnamed: None,
        ident: None,
        exports: Vec::new(alloc),
        places: BTreeMap::new(alloc),
        members: Vec::new(alloc),
        member_names: BTreeMap::new(alloc),
        declarations: Vec::new(alloc),
    }
}

impl Draft {
    // Exports a symbol by a name.
    fn export(&mut self, name: &Atom, symbol: SymbolNo) -> Result<(), AllocError> {
        match self.places.get(name).copied() {
            Some(place) => {
                if let Some(entry) = self.exports.get_mut(place) {
                    entry.1 = symbol;
                }
            }
            None => {
                let _ = self.places.insert(name.clone()?, self.exports.len())?;
                self.exports.push((name.clone()?, symbol))?;
            }
        }
        Ok(())
    }
}

impl Tables {
    /// With the symbol of the module alone.
    pub fn new(alloc: Global) -> Result<Tables, AllocError> {
        let mut drafts = Vec::new(alloc);
        drafts.push(new_draft(alloc, None, None, None))?;
        Ok(Tables {
            alloc,
            lacks: false,
            drafts,
            by_name: BTreeMap::new(alloc),
            names: Vec::new(alloc),
            re_exports: Vec::new(alloc),
        })
    }

    /// A name behind those from the module down to a symbol.
    pub fn qualified(&self, parent: SymbolNo, name: &str) -> Result<String, AllocError> {
        let before = match self.drafts.get(parent.0) {
            Some(found) => match &found.qualified {
                Some(before) => before.as_str(),
                None => return String::from_str(self.alloc, name),
            },
            None => return String::from_str(self.alloc, name),
        };
        let mut made = String::from_str(self.alloc, before)?;
        made.push_str(".")?;
        made.push_str(name)?;
        Ok(made)
    }

    /// A new symbol.
    pub fn push(
        &mut self,
        parent: SymbolNo,
        name: Option<String>,
        qualified: Option<String>,
    ) -> Result<SymbolNo, AllocError>
        ensures number { IfOk result (λ no. no.0 ≡ vec_len self.old.drafts) }
        ensures one_more { OnOk result (vec_len self.new.drafts ≡ vec_len self.old.drafts + 1) }
    {
        let no = SymbolNo(self.drafts.len());
        self.drafts
            .push(new_draft(self.alloc, Some(parent), name, qualified))?;
        Ok(no)
    }

    // A new symbol of a name, qualified by its parent's.
    fn new_named(&mut self, parent: SymbolNo, name: &str) -> Result<SymbolNo, AllocError> {
        let qualified = self.qualified(parent, name)?;
        let name = String::from_str(self.alloc, name)?;
        self.push(parent, Some(name), Some(qualified))
    }

    /// A symbol that was made, or that of the module where memory ran out.
    pub fn made(&mut self, symbol: Result<SymbolNo, AllocError>) -> SymbolNo {
        match symbol {
            Ok(symbol) => symbol,
            Err(_) => {
                self.lacks = true;
                MODULE
            }
        }
    }

    /// Notes whether memory ran out.
    pub fn note(&mut self, done: Result<(), AllocError>) {
        if done.is_err() {
            self.lacks = true;
        }
    }

    /// A name with its scope, if it is one.
    pub fn id(&mut self, part: Part<'_>) -> Option<Id> {
        match id_of(self.alloc, part) {
            Ok(found) => found,
            Err(_) => {
                self.lacks = true;
                None
            }
        }
    }

    /// A new symbol of a name, qualified by its parent's.
    pub fn push_named(&mut self, parent: SymbolNo, name: &str) -> SymbolNo {
        let symbol = self.new_named(parent, name);
        self.made(symbol)
    }

    fn bind_name(&mut self, id: &Id, symbol: SymbolNo) -> Result<(), AllocError> {
        if self.by_name.get(id).is_none() {
            self.names.push(id.clone()?)?;
        }
        let _ = self.by_name.insert(id.clone()?, symbol)?;
        Ok(())
    }

    // A new symbol for a name.
    fn symbol_for(&mut self, id: &Id, parent: SymbolNo) -> Result<SymbolNo, AllocError> {
        let symbol = self.new_named(parent, id.0.as_str())?;
        if let Some(draft) = self.drafts.get_mut(symbol.0) {
            draft.ident = Some(id.clone()?);
        }
        self.bind_name(id, symbol)?;
        Ok(symbol)
    }

    /// The symbol of a name, which is made at its first declaration.
    pub fn symbol_of(&mut self, id: &Id, parent: SymbolNo) -> SymbolNo {
        if let Some(found) = self.by_name.get(id).copied() {
            return found;
        }
        let symbol = self.symbol_for(id, parent);
        self.made(symbol)
    }

    pub fn export_of(&self, symbol: SymbolNo, name: &Atom) -> Option<SymbolNo> {
        let draft = self.drafts.get(symbol.0)?;
        let place = draft.places.get(name).copied()?;
        let entry = draft.exports.get(place)?;
        Some(entry.1)
    }

    /// Exports a symbol by a name: a new name goes last, and one that is there keeps its place.
    pub fn export(&mut self, from: SymbolNo, name: &Atom, symbol: SymbolNo) {
        if let Some(draft) = self.drafts.get_mut(from.0)
            && draft.export(name, symbol).is_err()
        {
            self.lacks = true;
        }
    }

    /// A name that a namespace exports has the symbol by which another block of it exports that name.
    pub fn join(&mut self, id: &Id, namespace: SymbolNo) {
        if let Some(before) = self.export_of(namespace, &id.0) {
            let done = self.bind_name(id, before);
            self.note(done);
        }
    }

    /// The symbol of what is exported as default without a name.
    pub fn unnamed_default(&mut self, parent: SymbolNo) -> SymbolNo {
        if let Some(draft) = self.drafts.get(parent.0)
            && let Some(found) = draft.unnamed
        {
            return found;
        }
        let made = self.push_named(parent, "default");
        if let Some(draft) = self.drafts.get_mut(parent.0) {
            draft.unnamed = Some(made);
        }
        made
    }

    pub fn declare(&mut self, symbol: SymbolNo, declaration: Declaration) {
        if let Some(draft) = self.drafts.get_mut(symbol.0)
            && draft.declarations.push(declaration).is_err()
        {
            self.lacks = true;
        }
    }

    /// A declaration with its own text.
    pub fn define(
        &mut self,
        symbol: SymbolNo,
        range: SourceRange,
        binds: Binds,
        flags: Flags,
        dependencies: Dependencies,
    ) {
        self.lacks |= dependencies.lacks;
        self.declare(
            symbol,
            Declaration {
                range,
                binds,
                body: None,
                target: Target::Definition(flags, dependencies),
            },
        );
    }

    /// A declaration that stands for something else.
    pub fn alias(&mut self, symbol: SymbolNo, range: SourceRange, target: Target) {
        self.declare(
            symbol,
            Declaration {
                range,
                binds: Binds::Both,
                body: None,
                target,
            },
        );
    }

    // The name of a symbol, and where its last declaration stands, if it was made for a name.
    fn named(&self, symbol: SymbolNo) -> Result<Option<(Id, SourceRange)>, AllocError> {
        let Some(draft) = self.drafts.get(symbol.0) else {
            return Ok(None);
        };
        match (&draft.ident, draft.declarations.last()) {
            (Some(id), Some(last)) => Ok(Some((id.clone()?, last.range))),
            _ => Ok(None),
        }
    }

    fn add_default(&mut self, parent: SymbolNo, symbol: SymbolNo) -> Result<(), AllocError> {
        let default = Atom::from_str(self.alloc, "default")?;
        let before = match self.export_of(parent, &default) {
            Some(before) if before != symbol => before,
            _ => {
                self.export(parent, &default, symbol);
                return Ok(());
            }
        };
        let both = self.unnamed_default(parent);
        for each in [before, symbol] {
            if each != both
                && let Some((id, range)) = self.named(each)?
            {
                self.alias(both, range, Target::Name(id));
            }
        }
        self.export(parent, &default, both);
        Ok(())
    }

    /// Exports a symbol as default. Beside another one, as a function beside an interface, both stand behind one symbol.
    pub fn export_default(&mut self, parent: SymbolNo, symbol: SymbolNo) {
        let done = self.add_default(parent, symbol);
        self.note(done);
    }
}
