//! What is known of the names of a module: which scope number nothing in it binds, and which names are of plain classes.
ghost use Rattle.std.specs.Prelude.{◌≡◌};

use fast_check_tables_modules::EsModuleInfo;
use fast_check_tables_symbols::CheckedTables;
use fast_check_tree_syntax::{Id, SyntaxContext};

/// What is known of the names of a module.
#[derive(Clone, Copy)]
pub struct Bindings<'a> {
    /// The scope number of the names that nothing in the module binds.
    pub unresolved: SyntaxContext,
    tables: &'a CheckedTables,
}

impl<'a> Bindings<'a> {
    ghost use Rattle.fast_check_transform_nodes.specs.Bindings.{bindings_of, names_of};

    /// What is known of the names of this module.
    pub fn of(info: &'a EsModuleInfo) -> Self
        ensures { names_of result ≡ bindings_of info.now }
    {
        Bindings {
            unresolved: info.source().unresolved_context,
            tables: info.tables(),
        }
    }

    /// Whether a name has a symbol that a class without type parameters declares (deno_graph's `is_class_without_type_params`).
    pub fn is_plain_class(self, id: &Id) -> bool
        ensures { result ≡ (names_of self.entry).is_plain_class id.now }
    {
        match self.tables.symbol_from_swc(id) {
            Some(symbol) => symbol.is_plain_class(),
            None => false,
        }
    }
}
