//! A demand of a symbol of a module.
use fast_check_tables_symbols::SymbolId;

/// A set of TypeScript's two namespaces that is not empty.
#[derive(Clone, Copy, PartialEq, Eq, PartialOrd, Ord)]
pub enum Namespaces {
    Value,
    Type_,
    Both,
}

/// How much is demanded of what a path leads to.
#[derive(Clone, Copy, PartialEq, Eq, PartialOrd, Ord)]
pub enum Extent {
    /// That it is there, and no more.
    Touched,
    /// All of it.
    Whole,
}

/// What is demanded of a symbol.
#[derive(Clone, Copy, PartialEq, Eq, PartialOrd, Ord)]
pub enum Ask<'a> {
    /// The symbol in these namespaces, since something refers to it.
    Reference(Namespaces),
    /// The symbol in these namespaces, since the symbol that lists it is demanded.
    Child(Namespaces),
    /// What a path of names leads to, each name looked up below the one before.
    Path(&'a [String], Extent),
}

/// A demand of a symbol, and the symbol that demands it.
#[derive(Clone, Copy, PartialEq, Eq, PartialOrd, Ord)]
pub struct SymbolDemand<'a> {
    pub symbol: SymbolId,
    pub referrer: SymbolId,
    pub ask: Ask<'a>,
}
