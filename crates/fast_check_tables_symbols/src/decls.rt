//! The declarations of a symbol, and what they say together.
ghost use Rattle.std.specs.Prelude.{◌≡◌, slice_get, option_map, IfOk};
ghost use Rattle.std.specs.List.{list_any};
ghost use Rattle.std.specs.Option.{option_copied};

use crate::aliases::first_aliases;
use crate::decl::{SymbolDecl, SymbolDeclKind};
use std::alloc::{AllocError, Global};
use std::marker::Model;

/// What declarations say together: whether one of them is so.
#[derive(Clone, Copy)]
struct DeclFlags {
    has_export_keyword: bool,
    is_plain_class: bool,
    is_exported_value: bool,
    is_exported_type: bool,
    has_alias: bool,
    has_class: bool,
    is_closed: bool,
    has_implementation: bool,
}

ghost use Rattle.fast_check_tables_symbols.specs.Decls.{decl_has_export_keyword, decl_is_plain_class, has_alias, has_class, is_closed};
ghost use Rattle.fast_check_tables_symbols.specs.Decls.{is_exported_value, is_exported_type, has_implementation};
ghost use Rattle.fast_check_tables_symbols.specs.Aliases.{AreAliases};
ghost use Rattle.fast_check_tables_symbols.specs.DeclFlags.{flags_of};

fn has_export_keyword(decls: &[SymbolDecl]) -> bool
    ensures { result ≡ list_any decl_has_export_keyword decls.now }
{
    decls.iter().any(|decl| decl.has_export_keyword())
}

fn is_plain_class(decls: &[SymbolDecl]) -> bool
    ensures { result ≡ list_any decl_is_plain_class decls.now }
{
    decls.iter().any(|decl| decl.is_plain_class())
}

fn is_exported_value(decls: &[SymbolDecl]) -> bool
    ensures { result ≡ list_any is_exported_value decls.now }
{
    decls.iter().any(|decl| decl.is_exported_value())
}

fn is_exported_type(decls: &[SymbolDecl]) -> bool
    ensures { result ≡ list_any is_exported_type decls.now }
{
    decls.iter().any(|decl| decl.is_exported_type())
}

fn has_alias(decls: &[SymbolDecl]) -> bool
    ensures { result ≡ has_alias decls.now }
{
    decls.iter().any(|decl| decl.is_alias())
}

fn has_class(decls: &[SymbolDecl]) -> bool
    ensures { result ≡ has_class decls.now }
{
    decls.iter().any(|decl| decl.is_class())
}

fn is_closed(decls: &[SymbolDecl]) -> bool
    ensures { result ≡ is_closed decls.now }
{
    decls.iter().any(|decl| decl.is_closed())
}

fn has_implementation(decls: &[SymbolDecl]) -> bool
    ensures { result ≡ has_implementation decls.now }
{
    decls.iter().any(|decl| decl.is_implementation())
}

fn flags_of(decls: &[SymbolDecl]) -> DeclFlags
    ensures { result ≡ flags_of decls.now }
{
    DeclFlags {
        has_export_keyword: has_export_keyword(decls),
        is_plain_class: is_plain_class(decls),
        is_exported_value: is_exported_value(decls),
        is_exported_type: is_exported_type(decls),
        has_alias: has_alias(decls),
        has_class: has_class(decls),
        is_closed: is_closed(decls),
        has_implementation: has_implementation(decls),
    }
}

/// The declarations of a symbol, in order. What they say together is noted once.
#[derive(Drop)]
pub struct SymbolDecls {
    items: Vec<SymbolDecl>,
    flags: DeclFlags,
    /// The places of the aliases that stand for different things.
    aliases: Vec<usize>,
}

impl Model for SymbolDecls {
    ghost use Rattle.std.specs.Prelude.{◌≡◌, Vec};
    ghost use Rattle.std.specs.declared.alloc.Global.{Global};
    ghost use Rattle.fast_check_tables_symbols.specs.declared.decl.SymbolDecl.{SymbolDecl};
    ghost use Rattle.fast_check_tables_symbols.specs.DeclFlags.{AreNoted};

    ghost Value = { Vec SymbolDecl Global };

    ghost view = { λ decls. decls.items };

    ghost invariant = { λ decls. AreNoted decls.items.items decls.flags decls.aliases.items };
}

impl SymbolDecls {
    /// These declarations.
    pub fn new(alloc: Global, items: Vec<SymbolDecl>) -> Result<SymbolDecls, AllocError>
        ensures { IfOk result (λ decls. decls ≡ items) }
    {
        let flags = flags_of(items.as_slice());
        let aliases = first_aliases(alloc, items.as_slice())?;
        Ok(SymbolDecls {
            items,
            flags,
            aliases,
        })
    }

    /// The declarations, in order.
    pub fn as_slice(&self) -> &[SymbolDecl]
        ensures { result.now ≡ self.now.items }
    {
        self.items.as_slice()
    }

    /// Whether one of them stands behind the keyword `export`.
    pub fn has_export_keyword(&self) -> bool
        ensures { result ≡ list_any decl_has_export_keyword self.now.items }
    {
        self.flags.has_export_keyword
    }

    /// Whether one of them is of a class without type parameters.
    pub fn is_plain_class(&self) -> bool
        ensures { result ≡ list_any decl_is_plain_class self.now.items }
    {
        self.flags.is_plain_class
    }

    /// Whether one behind the keyword `export` binds the name as a value.
    pub fn is_exported_value(&self) -> bool
        ensures { result ≡ list_any is_exported_value self.now.items }
    {
        self.flags.is_exported_value
    }

    /// Whether one behind the keyword `export` binds the name as a type.
    pub fn is_exported_type(&self) -> bool
        ensures { result ≡ list_any is_exported_type self.now.items }
    {
        self.flags.is_exported_type
    }

    /// Whether one of them stands for something else: another symbol, a part of one, or what a file exports.
    pub fn has_alias(&self) -> bool
        ensures { result ≡ has_alias self.now.items }
    {
        self.flags.has_alias
    }

    /// The places of the aliases among them: of those that stand for one thing, the place of one.
    pub fn alias_places(&self) -> &[usize]
        ensures { AreAliases self.now.items result.now }
    {
        self.aliases.as_slice()
    }

    /// What the declaration at a place binds the symbol to.
    pub fn kind_at(&self, place: usize) -> Option<&SymbolDeclKind>
        ensures { option_copied result ≡ option_map (λ d. d.kind) (slice_get self.now.items place) }
    {
        let decl = self.items.get(place)?;
        Some(&decl.kind)
    }

    /// Whether one of them is of a class.
    pub fn has_class(&self) -> bool
        ensures { result ≡ has_class self.now.items }
    {
        self.flags.has_class
    }

    /// Whether one of them is of a class or a namespace, which have no more names than they list.
    pub fn is_closed(&self) -> bool
        ensures { result ≡ is_closed self.now.items }
    {
        self.flags.is_closed
    }

    /// Whether one of them is the implementation of overloads.
    pub fn has_implementation(&self) -> bool
        ensures { result ≡ has_implementation self.now.items }
    {
        self.flags.has_implementation
    }
}
