//! A symbol of a module.
ghost use Rattle.std.specs.Prelude.{◌≡◌};

use crate::decls::SymbolDecls;
use crate::exports::SymbolExports;
use crate::symbol_id::SymbolId;

/// What the declarations of one name bind.
#[derive(Drop)]
pub struct Symbol {
    pub id: SymbolId,
    /// The symbol that it is an export or a member of.
    pub parent_id: Option<SymbolId>,
    pub is_private_member: bool,
    pub maybe_name: Option<String>,
    /// The names from the module down to it.
    pub qualified_name: Option<String>,
    pub exports: SymbolExports,
    pub members: Vec<SymbolId>,
    pub decls: SymbolDecls,
}

impl Symbol {
    ghost use Rattle.fast_check_tables_symbols.specs.Symbols.{has_export_keyword, is_plain_class};

    /// Whether one of its declarations stands behind the keyword `export`.
    pub fn has_export_keyword(&self) -> bool
        ensures { result ≡ has_export_keyword self.now }
    {
        self.decls.has_export_keyword()
    }

    /// Whether one of its declarations is of a class without type parameters.
    pub fn is_plain_class(&self) -> bool
        ensures { result ≡ is_plain_class self.now }
    {
        self.decls.is_plain_class()
    }
}
