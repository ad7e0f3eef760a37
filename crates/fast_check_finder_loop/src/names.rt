//! Names that are asked of a module: what was asked of it so far, and what of them is new.
ghost use Rattle.std.specs.Prelude.{◌≡◌, ◌∷◌, Option, IfOk, option_map};
ghost use Rattle.std.specs.Option.{option_copied};
ghost use Rattle.fast_check_finder_lattice.specs.Names.{path_of};
ghost use Rattle.fast_check_finder_lattice.specs.Imports.{NameDemand as NamesSeen};
ghost use Rattle.fast_check_finder_lattice.specs.Traces.{handled};
ghost use Rattle.fast_check_finder_lattice.specs.declared.lattice.imported_exports.ImportedExports.{ImportedExports as ExportsSeen};
ghost use Rattle.fast_check_finder_demands.specs.name_demands.Files.{names_of, path_demand};
ghost use Rattle.fast_check_finder_loop.specs.Search.{has_path, was_told, new_beside, new_names, AddsNames};

use fast_check_finder_demands::Extent;
use fast_check_finder_demands::asked::exports_to_ask;
use fast_check_finder_demands::name_demands::NameDemand;
use fast_check_finder_lattice::{HandledExports, ImportedExports};
use std::alloc::{AllocError, Global};
use url::Url;

/// Whether a path is among what was demanded, as far as it is demanded.
fn has_part(exports: &ImportedExports, first: &str, rest: &[String], extent: Extent) -> bool
    ensures { result ≡ has_path exports.now (path_demand (first.now ∷ path_of rest.now) extent) }
{
    match extent {
        Extent::Touched => exports.demands_path(first, rest, false),
        Extent::Whole => exports.demands_path(first, rest, true),
    }
}

/// Whether a demand is a path that was demanded of a module before. Other demands cost no more to ask for than to look up.
fn was_asked(before: Option<&ImportedExports>, names: NameDemand<'_>) -> bool
    ensures { result ≡ was_told (option_copied before.entry) (names_of names.entry) }
{
    match (before, names) {
        (Some(exports), NameDemand::Path(first, rest, extent)) => {
            has_part(exports, first, rest, extent)
        }
        _ => false,
    }
}

/// What is new of names of which a part was not asked: `default`, where all other names were asked.
fn new_beside<'a>(before: Option<&ImportedExports>, names: NameDemand<'a>) -> NameDemand<'a>
    ensures { names_of result ≡ new_beside (option_copied before.entry) (names_of names.entry) }
{
    match before {
        Some(ImportedExports::Star) => NameDemand::Path("default", &[], Extent::Whole),
        _ => names,
    }
}

/// What is new of names, where this was answered of what is asked of the module.
fn new_names<'a>(beside: NameDemand<'a>, answer: &ImportedExports) -> NameDemand<'a>
    ensures { (before : Option ExportsSeen) (d : NamesSeen) → names_of beside.entry ≡ new_beside before d → names_of result ≡ new_names before d answer.now }
{
    match answer {
        ImportedExports::Star => NameDemand::AllButDefault,
        ImportedExports::StarWithDefault => NameDemand::All,
        ImportedExports::Subset(_) => beside,
    }
}

/// Asks for names of a module, and answers what of them is new. Of a path that was demanded before no set is made.
pub fn ask_names<'a>(
    alloc: Global,
    modules: &mut HandledExports,
    specifier: &Url,
    names: NameDemand<'a>,
) -> Result<Option<NameDemand<'a>>, AllocError>
    ensures { IfOk result (λ new. AddsNames specifier.now (names_of names.entry) (option_map names_of new) (handled modules.old) (handled modules.new)) }
{
    let before = modules.exports_of(specifier);
    if was_asked(before, names) {
        return Ok(None);
    }
    let beside = new_beside(before, names);
    let exports = exports_to_ask(alloc, names)?;
    match modules.add(alloc, specifier, exports)? {
        None => Ok(None),
        Some(answer) => Ok(Some(new_names(beside, &answer))),
    }
}
