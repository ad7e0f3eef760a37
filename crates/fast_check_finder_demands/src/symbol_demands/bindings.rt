//! Demands by the names that a module binds.
ghost use Rattle.std.specs.Prelude.{◌≡◌, [], ◌∷◌, ◌++◌, OnOk};
ghost use Rattle.fast_check_finder_lattice.specs.Names.{path_of};
ghost use Rattle.fast_check_finder_demands.specs.symbol_demands.Rules.{bound, reference, child, namespaces_of, qualified, named};

use crate::symbol_demands::demand::{Ask, Extent, Namespaces, SymbolDemand};
use crate::symbol_demands::list::Demands;
use fast_check_tables_symbols::{CheckedTables, ReferenceNamespace, SymbolId};
use fast_check_tree_syntax::Id;
use std::alloc::AllocError;

/// The symbol that an identifier is bound to.
pub fn bound(tables: &CheckedTables, id: &Id) -> Option<SymbolId>
    ensures { result ≡ bound tables.now id.now }
{
    let symbol = tables.symbol_from_swc(id)?;
    Some(symbol.id)
}

/// The namespaces that a reference is looked up in.
pub fn namespaces_of(namespace: ReferenceNamespace) -> Namespaces
    ensures { result ≡ namespaces_of namespace }
{
    match namespace {
        ReferenceNamespace::Value => Namespaces::Value,
        ReferenceNamespace::Type_ => Namespaces::Type_,
        ReferenceNamespace::Both => Namespaces::Both,
    }
}

/// Demands a symbol in a set of namespaces.
pub fn push_reference(
    symbol: SymbolId,
    namespaces: Namespaces,
    referrer: SymbolId,
    out: &mut Demands<'_>,
) -> Result<(), AllocError>
    ensures { OnOk result (out.new ≡ out.old ++ reference symbol namespaces referrer ∷ []) }
{
    out.push(SymbolDemand {
        symbol,
        ask: Ask::Reference(namespaces),
        referrer,
    })
}

/// Demands a symbol as a child of another, in both namespaces.
pub fn push_child(
    symbol: SymbolId,
    parent: SymbolId,
    out: &mut Demands<'_>,
) -> Result<(), AllocError>
    ensures { OnOk result (out.new ≡ out.old ++ child symbol parent ∷ []) }
{
    out.push(SymbolDemand {
        symbol,
        ask: Ask::Child(Namespaces::Both),
        referrer: parent,
    })
}

/// Demands what a path below a symbol leads to.
pub fn push_path<'a>(
    symbol: SymbolId,
    names: &'a [String],
    extent: Extent,
    referrer: SymbolId,
    out: &mut Demands<'a>,
) -> Result<(), AllocError>
    ensures { OnOk result (out.new ≡ out.old ++ qualified symbol (path_of names.now) extent referrer ∷ []) }
{
    out.push(SymbolDemand {
        symbol,
        ask: Ask::Path(names, extent),
        referrer,
    })
}

/// Demands what a qualified name leads to.
pub fn push_named<'a>(
    symbol: SymbolId,
    parts: &'a [String],
    referrer: SymbolId,
    out: &mut Demands<'a>,
) -> Result<(), AllocError>
    ensures { OnOk result (out.new ≡ out.old ++ named symbol (path_of parts.now) referrer ∷ []) }
{
    if parts.is_empty() {
        return push_path(symbol, parts, Extent::Touched, referrer, out);
    }
    push_path(symbol, parts, Extent::Whole, referrer, out)
}
