//! What is asked of a declaration by its kind.
ghost use Rattle.std.specs.Prelude.{◌≡◌};
ghost use Rattle.fast_check_finder_demands.specs.symbol_demands.Decls.{binds, is_function};

use crate::symbol_demands::demand::Namespaces;
use fast_check_tables_symbols::{SymbolDecl, SymbolDeclKind};

/// Whether a declaration binds its name in one of these namespaces.
pub fn binds(decl: &SymbolDecl, namespaces: Namespaces) -> bool
    ensures { result ≡ binds decl.now namespaces }
{
    match namespaces {
        Namespaces::Value => decl.value,
        Namespaces::Type_ => decl.type_,
        Namespaces::Both => decl.value || decl.type_,
    }
}

/// Whether it defines a function.
pub fn is_function(decl: &SymbolDecl) -> bool
    ensures { result ≡ is_function decl.now }
{
    match &decl.kind {
        SymbolDeclKind::Definition(Some(node)) => node.is_function,
        _ => false,
    }
}
