//! What is found of the modules of a package, by their names.

ghost use Rattle.std.specs.Prelude.{[], ◌++◌, List, OnOk, IfOk};
ghost use Rattle.std.specs.List.{flat_map};
ghost use Rattle.url.specs.Parts.{serialize};
ghost use Rattle.fast_check_tables_packages.specs.Package.{Nv};
ghost use Rattle.fast_check_finder_demands.specs.asked.Demands.{Text};
ghost use Rattle.fast_check_finder_ranges.specs.findings.Findings.{faulty_module, entry_fault};
ghost use Rattle.fast_check_finder_ranges.specs.findings.Found.{module_yields, entry_fault_yields, untyped_yields};
ghost use Rattle.fast_check_finder_ranges.specs.findings.Yields.{Yield, untyped_module};
ghost use Rattle.fast_check_finder_ranges.specs.Answers.{IsModuleAnswer};
ghost use Rattle.fast_check_finder_ranges.specs.Parts.{AreParts, AreModules, Joins, AreAnswered};

use crate::findings::{EntryFault, FoundModule, ModuleFaults};
use fast_check_tables_diagnostics::ModulePublicRanges;
use fast_check_tree_syntax::SourceRange;
use std::alloc::{AllocError, Global};
use std::collections::BTreeMap;
use url::Url;

/// What is found of a module. Each range may stand here more than once.
#[derive(Drop)]
pub struct ModuleParts {
    pub ranges: Vec<SourceRange>,
    pub implementations: Vec<SourceRange>,
    pub faults: ModuleFaults,
}

impl ModuleParts {
    /// Nothing. It takes no memory.
    fn new(alloc: Global) -> ModuleParts
        ensures { AreParts [] result }
    {
        ModuleParts {
            ranges: Vec::new(alloc),
            implementations: Vec::new(alloc),
            faults: ModuleFaults::new(alloc),
        }
    }

    /// Adds what was found of the module where it was followed.
    fn follow(&mut self, alloc: Global, found: FoundModule<'_>) -> Result<(), AllocError>
        ensures { OnOk result ((nv : Nv) (ys : List Yield) → AreParts ys self.old → AreParts (ys ++ module_yields nv found.entry) self.new) }
    {
        let FoundModule {
            info,
            mut ranges,
            mut implementations,
            faults,
        } = found;
        self.ranges.append(&mut ranges)?;
        self.implementations.append(&mut implementations)?;
        self.faults
            .add_demand_faults(alloc, info, faults.as_slice())
    }

    /// Adds what is wrong with the module as an entry point.
    fn enter(&mut self, alloc: Global, fault: EntryFault) -> Result<(), AllocError>
        ensures { OnOk result ((nv : Nv) (t : Text) (ys : List Yield) → AreParts ys self.old
            → AreParts (ys ++ faulty_module nv t (entry_fault fault)) self.new) }
    {
        self.faults.add_entry_fault(alloc, fault)
    }

    /// Adds that the types of the module are not known.
    fn ask(&mut self)
        ensures { (nv : Nv) (t : Text) (ys : List Yield) → AreParts ys self.old → AreParts (ys ++ faulty_module nv t untyped_module) self.new }
    {
        self.faults.add_untyped();
    }
}

fn add_followed(
    alloc: Global,
    modules: &mut BTreeMap<Url, ModuleParts>,
    found: FoundModule<'_>,
) -> Result<(), AllocError>
    ensures { OnOk result ((nv : Nv) → Joins (module_yields nv found.entry) modules.old.entries modules.new.entries) }
{
    let specifier = found.info.specifier().clone()?;
    let parts = modules.entry(specifier)?.or_insert(ModuleParts::new(alloc));
    parts.follow(alloc, found)
}

fn add_entry_fault(
    alloc: Global,
    modules: &mut BTreeMap<Url, ModuleParts>,
    specifier: Url,
    fault: EntryFault,
) -> Result<(), AllocError>
    ensures { OnOk result ((nv : Nv) → Joins (entry_fault_yields nv (specifier, fault)) modules.old.entries modules.new.entries) }
{
    let parts = modules.entry(specifier)?.or_insert(ModuleParts::new(alloc));
    parts.enter(alloc, fault)
}

fn add_untyped(
    alloc: Global,
    modules: &mut BTreeMap<Url, ModuleParts>,
    specifier: Url,
) -> Result<(), AllocError>
    ensures { OnOk result ((nv : Nv) → Joins (untyped_yields nv specifier) modules.old.entries modules.new.entries) }
{
    let parts = modules.entry(specifier)?.or_insert(ModuleParts::new(alloc));
    parts.ask();
    Ok(())
}

/// Adds modules that were followed.
pub fn add_all_followed(
    alloc: Global,
    modules: &mut BTreeMap<Url, ModuleParts>,
    followed: Vec<FoundModule<'_>>,
) -> Result<(), AllocError>
    ensures { OnOk result ((nv : Nv) → Joins (flat_map (module_yields nv) followed.entry.items) modules.old.entries modules.new.entries) }
{
    for found in followed {
        add_followed(alloc, modules, found)?;
    }
    Ok(())
}

/// Adds entry points with which something is wrong.
pub fn add_entry_faults(
    alloc: Global,
    modules: &mut BTreeMap<Url, ModuleParts>,
    faults: Vec<(Url, EntryFault)>,
) -> Result<(), AllocError>
    ensures { OnOk result ((nv : Nv) → Joins (flat_map (entry_fault_yields nv) faults.items) modules.old.entries modules.new.entries) }
{
    for (specifier, fault) in faults {
        add_entry_fault(alloc, modules, specifier, fault)?;
    }
    Ok(())
}

/// Adds modules that were asked for, and whose types are not known.
pub fn add_all_untyped(
    alloc: Global,
    modules: &mut BTreeMap<Url, ModuleParts>,
    untyped: Vec<Url>,
) -> Result<(), AllocError>
    ensures { OnOk result ((nv : Nv) → Joins (flat_map (untyped_yields nv) untyped.items) modules.old.entries modules.new.entries) }
{
    for specifier in untyped {
        add_untyped(alloc, modules, specifier)?;
    }
    Ok(())
}

/// The public ranges of a module, or its diagnostics.
fn module_ranges(
    alloc: Global,
    specifier: &Url,
    parts: ModuleParts,
) -> Result<ModulePublicRanges, AllocError>
    ensures { IfOk result (λ made. (ys : List Yield) → AreParts ys parts → IsModuleAnswer (serialize specifier.now) ys made) }
{
    let ModuleParts {
        ranges,
        implementations,
        faults,
    } = parts;
    let diagnostics = faults.into_diagnostics(alloc, specifier)?;
    let made = ModulePublicRanges::from_parts(alloc, ranges, implementations, diagnostics)?;
    Ok(made)
}

/// The public ranges of modules, or their diagnostics.
pub fn all_module_ranges(
    alloc: Global,
    modules: BTreeMap<Url, ModuleParts>,
) -> Result<BTreeMap<Url, ModulePublicRanges>, AllocError>
    ensures { IfOk result (λ made. (ys : List Yield) → AreModules ys modules.entries → AreAnswered ys made.entries) }
{
    let mut made = BTreeMap::new(alloc);
    for (specifier, parts) in modules {
        let ranges = module_ranges(alloc, &specifier, parts)?;
        made.insert(specifier, ranges)?;
    }
    Ok(made)
}
