//! Members by their names, and where a qualified name begins.
ghost use Rattle.std.specs.Prelude.{◌≡◌, string_bytes, take, ◌<◌, length};
ghost use Rattle.fast_check_finder_lattice.specs.Names.{path_of};
ghost use Rattle.fast_check_finder_demands.specs.symbol_demands.Rules.{is_prototype};

use fast_check_tables_symbols::SymbolDecls;

/// Whether a name is `prototype`, of a class.
pub fn is_prototype(name: &str, decls: &SymbolDecls) -> bool
    ensures { result ≡ is_prototype name.now decls.now.items }
{
    name == "prototype" && decls.has_class()
}

/// The first of these names, so many of them, or all if there are fewer.
pub fn start_of(names: &[String], count: usize) -> &[String]
    ensures { path_of result.now ≡ take count (path_of names.now) }
{
    if count < names.len() {
        &names[..count]
    } else {
        names
    }
}
