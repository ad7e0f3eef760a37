//! What is wrong with a demand: its symbol, what refers to it, and the names below it.
ghost use Rattle.std.specs.Prelude.{◌≡◌, option_map};
ghost use Rattle.std.specs.Option.{option_and_then};
ghost use Rattle.fast_check_finder_lattice.specs.Names.{path_of};
ghost use Rattle.fast_check_tables_symbols.specs.Symbols.{symbol_of};
ghost use Rattle.fast_check_finder_demands.specs.symbol_demands.Demands.{demand_of};
ghost use Rattle.fast_check_finder_demands.specs.Yields.{fault_seen, fault_at as fault_there, private_fault, member_fault, prototype_fault, export_fault, first_fault, path_fault, fault_in};

use crate::names::{is_prototype, start_of};
use crate::symbol_demands::{Ask, SymbolDemand};
use fast_check_tables_symbols::{CheckedTables, Symbol, SymbolId};

/// What is wrong with a demand.
#[derive(Clone, Copy, Debug, PartialEq, Eq, PartialOrd, Ord)]
pub enum DemandFaultKind {
    /// A private member is referred to.
    PrivateMember,
    /// A class or a namespace has no such name.
    NotFound,
    /// A name below a member of a class.
    TooComplex,
}

/// A fault of a demand: at a symbol, with the names below it that were asked for, by another symbol.
#[derive(Clone, Copy, PartialEq, Eq, PartialOrd, Ord)]
pub struct SymbolFault<'a> {
    pub kind: DemandFaultKind,
    pub symbol: SymbolId,
    pub names: &'a [String],
    pub referrer: SymbolId,
}

fn fault_at<'a>(
    kind: DemandFaultKind,
    names: &'a [String],
    demand: SymbolDemand<'_>,
) -> SymbolFault<'a>
    ensures { fault_seen result ≡ fault_there kind (path_of names.now) (demand_of demand.entry) }
{
    SymbolFault {
        kind,
        symbol: demand.symbol,
        names,
        referrer: demand.referrer,
    }
}

fn private_fault<'a>(demand: SymbolDemand<'a>, symbol: &Symbol) -> Option<SymbolFault<'a>>
    ensures { option_map fault_seen result ≡ private_fault (demand_of demand.entry) symbol.now }
{
    if symbol.is_private_member && symbol.parent_id != Some(demand.referrer) {
        return Some(fault_at(DemandFaultKind::PrivateMember, &[], demand));
    }
    None
}

fn member_fault<'a>(
    demand: SymbolDemand<'_>,
    names: &'a [String],
    member: Option<SymbolId>,
) -> Option<SymbolFault<'a>>
    ensures { option_map fault_seen result ≡ member_fault (demand_of demand.entry) (path_of names.now) member }
{
    match member {
        None => Some(fault_at(DemandFaultKind::NotFound, start_of(names, 2), demand)),
        Some(_) => {
            if names.len() <= 2 {
                return None;
            }
            Some(fault_at(DemandFaultKind::TooComplex, start_of(names, 3), demand))
        }
    }
}

fn prototype_fault<'a>(
    tables: &CheckedTables,
    demand: SymbolDemand<'_>,
    names: &'a [String],
    below: &[String],
) -> Option<SymbolFault<'a>>
    ensures { option_map fault_seen result ≡ option_and_then (λ s. prototype_fault tables.now (demand_of demand.entry) (path_of names.now) (path_of below.now) s)
        (symbol_of demand.entry.symbol tables.now.symbols) }
{
    let _symbol = tables.symbol(demand.symbol)?;
    match below.split_first() {
        None => None,
        Some((name, _)) => {
            let member = tables.member_named(demand.symbol, name.as_str());
            member_fault(demand, names, member)
        }
    }
}

fn export_fault<'a>(
    demand: SymbolDemand<'_>,
    names: &'a [String],
    closed: bool,
    export: Option<SymbolId>,
) -> Option<SymbolFault<'a>>
    ensures { option_map fault_seen result ≡ export_fault (demand_of demand.entry) (path_of names.now) closed export }
{
    match export {
        None => {
            if closed {
                return Some(fault_at(DemandFaultKind::NotFound, start_of(names, 1), demand));
            }
            None
        }
        Some(_) => None,
    }
}

fn first_fault<'a>(
    tables: &CheckedTables,
    demand: SymbolDemand<'_>,
    names: &'a [String],
) -> Option<SymbolFault<'a>>
    ensures { option_map fault_seen result ≡ option_and_then (λ s. first_fault tables.now (demand_of demand.entry) (path_of names.now) (path_of names.now) s)
        (symbol_of demand.entry.symbol tables.now.symbols) }
{
    let symbol = tables.symbol(demand.symbol)?;
    match names.split_first() {
        None => None,
        Some((first, below)) => {
            if is_prototype(first.as_str(), &symbol.decls) {
                return prototype_fault(tables, demand, names, below);
            }
            let closed = symbol.decls.is_closed();
            export_fault(demand, names, closed, symbol.exports.get(first.as_str()))
        }
    }
}

fn path_fault<'a>(
    tables: &CheckedTables,
    demand: SymbolDemand<'_>,
    names: &'a [String],
) -> Option<SymbolFault<'a>>
    ensures { option_map fault_seen result ≡ option_and_then (λ s. path_fault tables.now (demand_of demand.entry) (path_of names.now) s)
        (symbol_of demand.entry.symbol tables.now.symbols) }
{
    let symbol = tables.symbol(demand.symbol)?;
    if symbol.decls.has_alias() {
        return None;
    }
    first_fault(tables, demand, names)
}

/// What is wrong with a demand, if anything is.
pub fn fault_of<'a>(tables: &CheckedTables, demand: SymbolDemand<'a>) -> Option<SymbolFault<'a>>
    ensures { option_map fault_seen result ≡ fault_in tables.now (demand_of demand.entry) (symbol_of demand.entry.symbol tables.now.symbols) }
{
    match demand.ask {
        Ask::Reference(_) | Ask::Child(_) => private_fault(demand, tables.symbol(demand.symbol)?),
        Ask::Path(names, _) => path_fault(tables, demand, names),
    }
}
