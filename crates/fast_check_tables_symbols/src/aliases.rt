//! What the aliases among declarations stand for, each thing once.
ghost use Rattle.std.specs.Prelude.{◌≡◌, Option, Some, option_map, IfOk};
ghost use Rattle.fast_check_tables_symbols.specs.Aliases.{alias_of as stands_for, file_alias as file_stands_for, AreAliases};
ghost use Rattle.fast_check_tables_symbols.specs.AliasKeys.{alias_seen};

use crate::decl::{SymbolDecl, SymbolDeclKind};
use crate::file_dep_name::FileDepName;
use fast_check_tree_syntax::Id;
use std::alloc::{AllocError, Global};
use std::collections::BTreeSet;

/// What an alias stands for.
#[derive(Clone, Copy, PartialEq, Eq, PartialOrd, Ord)]
enum Alias<'a> {
    Symbol(&'a Id),
    Part(&'a Id, &'a [String]),
    File(&'a str),
    Export(&'a str, &'a str),
}

fn file_alias<'a>(specifier: &'a str, name: &'a FileDepName) -> Alias<'a>
    ensures { alias_seen result ≡ file_stands_for specifier.now name.now }
{
    match name {
        FileDepName::Star => Alias::File(specifier),
        FileDepName::Name(name) => Alias::Export(specifier, name.as_str()),
    }
}

/// What a declaration stands for, if it is an alias.
fn alias_of(kind: &SymbolDeclKind) -> Option<Alias<'_>>
    ensures { option_map alias_seen result ≡ stands_for kind.now }
{
    match kind {
        SymbolDeclKind::Target(id) => Some(Alias::Symbol(id)),
        SymbolDeclKind::QualifiedTarget(id, parts) => Some(Alias::Part(id, parts.as_slice())),
        SymbolDeclKind::FileRef { specifier, name } => Some(file_alias(specifier.as_str(), name)),
        SymbolDeclKind::Definition(_) => None,
    }
}

/// The places of the aliases among declarations: of those that stand for one thing, the place of the first.
pub fn first_aliases(alloc: Global, decls: &[SymbolDecl]) -> Result<Vec<usize>, AllocError>
    ensures { IfOk result (λ places. AreAliases decls.now places.items) }
{
    let mut met = BTreeSet::new(alloc);
    let mut places = Vec::new(alloc);
    for (place, decl) in decls.iter().enumerate() {
        if let Some(alias) = alias_of(&decl.kind) {
            if met.insert(alias)? {
                places.push(place)?;
            }
        }
    }
    Ok(places)
}
