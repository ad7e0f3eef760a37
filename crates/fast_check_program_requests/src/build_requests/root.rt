//! The modules by their names.

ghost use Rattle.std.specs.Prelude.{◌≡◌, IfOk, IfErr, OnOk};
ghost use Rattle.std.specs.BTreeMap.{IsFromIterResult};
ghost use Rattle.fast_check_program_requests.specs.build_requests.Root.{IsRootOfParts, IsBuildFault, StandUnderNames, url_cmp};

use crate::build_requests::module_parts::ModuleParts;
use crate::build_requests::modules::modules_of;
use fast_check_tables_graph::{AnyModuleInfo, RootSymbol};
use fast_check_tables_modules::TableFault;
use fast_check_tables_symbols::map_of;
use std::alloc::{AllocError, Global};
use std::collections::BTreeMap;
use url::Url;

/// The modules by their names. Of entries with one name the last counts.
fn modules_by_name(
    alloc: Global,
    modules: Vec<(Url, AnyModuleInfo)>,
) -> Result<BTreeMap<Url, AnyModuleInfo>, AllocError>
    ensures { IfOk result (IsFromIterResult url_cmp modules.items) }
{
    let by_name = map_of(alloc, modules)?;
    Ok(by_name)
}

/// The modules of these parts, and the names that stand for others. The modules are made in order, and of entries with one name the last counts.
/// The first fault of a module's tables is answered, and where there is none but a module stands under another name than its own,
/// `ModuleNotUnderOwnName`. What was handed in is dropped then.
pub fn root_symbol_of(
    alloc: Global,
    modules: Vec<(Url, ModuleParts)>,
    aliases: Vec<(Url, Url)>,
) -> Result<RootSymbol, TableFault>
    ensures made { IfOk result (IsRootOfParts modules.items aliases.items) }
    ensures own_names { OnOk result (StandUnderNames modules.items) }
    ensures fault { IfErr result (IsBuildFault modules.items) }
{
    let modules = modules_by_name(alloc, modules_of(alloc, modules)?)?;
    let aliases = map_of(alloc, aliases)?;
    RootSymbol::new(modules, aliases)
}
