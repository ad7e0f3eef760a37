//! What is wrong with a module, each fault once.

ghost use Rattle.std.specs.Prelude.{◌≡◌, ◌≤◌, ◌∷◌, [], List, Some, map, AllPairs, OnOk, IfOk};
ghost use Rattle.std.specs.List.{flat_map, IsDistinct};
ghost use Rattle.std.specs.Rc.{rc_str_bytes};
ghost use Rattle.url.specs.Parts.{serialize};
ghost use Rattle.fast_check_finder_ranges.specs.findings.Faults.{source_of, placed_seen};
ghost use Rattle.fast_check_finder_ranges.specs.findings.Findings.{entry_fault};
ghost use Rattle.fast_check_finder_ranges.specs.findings.Found.{source_in};
ghost use Rattle.fast_check_finder_ranges.specs.findings.Yields.{ModuleFault, untyped_module, of_demand};
ghost use Rattle.fast_check_finder_ranges.specs.findings.Diagnostics.{fault_reported, same_report, place_of, AreDiagnosed};
ghost use Rattle.fast_check_finder_ranges.specs.findings.ModuleFaults.{fault_with, fault_of, AddsFaults, AreFaultsOf, AddsTo, reported_with};

use crate::findings::demand_fault::{DemandFault, placed};
use crate::findings::diagnostics::demand_diagnostic;
use crate::findings::faulty_module::{FaultyModule, faulty, text_of};
use crate::findings::found::EntryFault;
use fast_check_finder_demands::SymbolFault;
use fast_check_tables_diagnostics::FastCheckDiagnostic;
use fast_check_tables_graph::AnyModuleInfo;
use std::alloc::{AllocError, Global};
use std::collections::BTreeMap;
use std::rc::RcStr;
use url::Url;

/// What is wrong with a module, but that its types are not known. They come in the order in which they are reported.
#[derive(PartialEq, Eq, PartialOrd, Ord, Drop)]
pub(crate) enum ReportedFault {
    OfEntry(EntryFault),
    OfDemand(DemandFault),
}

/// What is wrong with a module, each fault once.
#[derive(Drop)]
pub struct ModuleFaults {
    /// Whether it was asked for, and its types are not known.
    is_untyped: bool,
    /// What else is wrong with it, with the source text.
    others: BTreeMap<ReportedFault, RcStr>,
}

/// Adds a fault, unless it is there.
fn add_fault(
    others: &mut BTreeMap<ReportedFault, RcStr>,
    fault: ReportedFault,
    text: RcStr,
) -> Result<(), AllocError>
    ensures { OnOk result (AddsFaults (fault_with fault (rc_str_bytes text) ∷ []) others.old.entries others.new.entries) }
{
    if others.contains_key(&fault) {
        return Ok(());
    }
    others.insert(fault, text)?;
    Ok(())
}

/// Adds a fault of a demand at its place, if its symbol has a declaration.
fn add_demand_fault(
    alloc: Global,
    faulty: FaultyModule<'_>,
    fault: SymbolFault<'_>,
    others: &mut BTreeMap<ReportedFault, RcStr>,
) -> Result<(), AllocError>
    ensures { OnOk result (AddsFaults (map of_demand (placed_seen (source_of faulty.entry) fault.entry)) others.old.entries others.new.entries) }
{
    match placed(alloc, faulty, fault)? {
        None => Ok(()),
        Some(placed) => add_fault(
            others,
            ReportedFault::OfDemand(placed),
            faulty.text.clone()?,
        ),
    }
}

/// Adds these faults of a module.
fn add_demand_faults(
    alloc: Global,
    faulty: FaultyModule<'_>,
    faults: &[SymbolFault<'_>],
    others: &mut BTreeMap<ReportedFault, RcStr>,
) -> Result<(), AllocError>
    ensures { OnOk result (AddsFaults (map of_demand (flat_map (placed_seen (source_of faulty.entry)) faults.now))
        others.old.entries others.new.entries) }
{
    for fault in faults {
        add_demand_fault(alloc, faulty, *fault, others)?;
    }
    Ok(())
}

/// The diagnostic of what is wrong with an entry point.
fn entry_diagnostic(specifier: Url, fault: EntryFault) -> FastCheckDiagnostic
    ensures { fault_reported (serialize specifier) result ≡ Some (entry_fault fault) }
{
    match fault {
        EntryFault::NotFound => FastCheckDiagnostic::ExportNotFound { specifier },
        EntryFault::Untyped => FastCheckDiagnostic::UnsupportedJavaScriptEntrypoint { specifier },
    }
}

/// The diagnostic of a fault.
fn diagnostic_of(
    specifier: &Url,
    fault: ReportedFault,
    text: RcStr,
) -> Result<FastCheckDiagnostic, AllocError>
    ensures { IfOk result (λ d. fault_reported (serialize specifier.now) d ≡ Some (fault_with fault (rc_str_bytes text))) }
{
    match fault {
        ReportedFault::OfEntry(fault) => Ok(entry_diagnostic(specifier.clone()?, fault)),
        ReportedFault::OfDemand(fault) => Ok(demand_diagnostic(fault, text)),
    }
}

/// The diagnostics of these faults, in order.
fn diagnostics_of(
    alloc: Global,
    specifier: &Url,
    others: BTreeMap<ReportedFault, RcStr>,
) -> Result<Vec<FastCheckDiagnostic>, AllocError>
    ensures reported { IfOk result (λ out. map (fault_reported (serialize specifier.now)) out.items ≡ map (λ e. Some (fault_of e)) others.entries) }
    ensures once { IfOk result (λ out. IsDistinct same_report (map fault_of others.entries)) }
    ensures by_place { IfOk result (λ out. AllPairs (λ f g. place_of f ≤ place_of g) (map fault_of others.entries)) }
{
    let mut out = Vec::new(alloc);
    for (fault, text) in others {
        out.push(diagnostic_of(specifier, fault, text)?)?;
    }
    Ok(out)
}

/// Adds that the types of the module are not known, if nothing else is reported.
fn push_untyped(
    specifier: &Url,
    is_untyped: bool,
    out: &mut Vec<FastCheckDiagnostic>,
) -> Result<(), AllocError>
    ensures { OnOk result (map (fault_reported (serialize specifier.now)) out.new.items
        ≡ reported_with is_untyped (map (fault_reported (serialize specifier.now)) out.old.items)) }
{
    if !is_untyped || !out.is_empty() {
        return Ok(());
    }
    let specifier = specifier.clone()?;
    out.push(FastCheckDiagnostic::UnsupportedNestedJavaScript { specifier })?;
    Ok(())
}

impl ModuleFaults {
    /// Nothing. It takes no memory.
    pub fn new(alloc: Global) -> ModuleFaults
        ensures { AreFaultsOf [] result }
    {
        ModuleFaults {
            is_untyped: false,
            others: BTreeMap::new(alloc),
        }
    }

    /// Adds that the module was asked for, and its types are not known.
    pub fn add_untyped(&mut self)
        ensures { AddsTo (untyped_module ∷ []) self.old self.new }
    {
        self.is_untyped = true;
    }

    /// Adds what is wrong with the module as an entry point.
    pub fn add_entry_fault(&mut self, alloc: Global, fault: EntryFault) -> Result<(), AllocError>
        ensures { OnOk result (AddsTo (entry_fault fault ∷ []) self.old self.new) }
    {
        let text = RcStr::from_str(alloc, "")?;
        add_fault(&mut self.others, ReportedFault::OfEntry(fault), text)
    }

    /// Adds the faults of the demands of the module. A fault stands at the first declaration of its symbol, and one whose symbol has none is
    /// left out.
    pub fn add_demand_faults(
        &mut self,
        alloc: Global,
        info: &AnyModuleInfo,
        faults: &[SymbolFault<'_>],
    ) -> Result<(), AllocError>
        ensures { OnOk result (AddsTo (map of_demand (flat_map (placed_seen (source_in info.now)) faults.now)) self.old self.new) }
    {
        let text = text_of(alloc, info)?;
        add_demand_faults(alloc, faulty(info, &text), faults, &mut self.others)
    }

    /// The diagnostics: first those of the module as a whole, then those of demands, by their places in the text. That the types of the module are not
    /// known is reported where nothing else is. `AllocError` if memory runs out.
    pub fn into_diagnostics(
        self,
        alloc: Global,
        specifier: &Url,
    ) -> Result<Vec<FastCheckDiagnostic>, AllocError>
        ensures { IfOk result (λ out. (fs : List ModuleFault) → AreFaultsOf fs self → AreDiagnosed (serialize specifier.now) fs out.items) }
    {
        let ModuleFaults { is_untyped, others } = self;
        let mut out = diagnostics_of(alloc, specifier, others)?;
        push_untyped(specifier, is_untyped, &mut out)?;
        Ok(out)
    }
}
