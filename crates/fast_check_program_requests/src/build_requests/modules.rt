//! Modules of the parts that are handed in.

ghost use Rattle.std.specs.Prelude.{IfOk, IfErr, OnOk};
ghost use Rattle.fast_check_program_requests.specs.build_requests.Modules.{AreModulesOf, AreSound, IsFaultOf, IsFirstFault, IsModuleOf};

use crate::build_requests::module_parts::ModuleParts;
use fast_check_tables_graph::AnyModuleInfo;
use fast_check_tables_modules::{EsModuleInfo, JsonModuleInfo, TableFault};
use std::alloc::Global;
use url::Url;

/// The module of these parts. Of several faults of its tables the first is answered.
fn module_of(alloc: Global, parts: ModuleParts) -> Result<AnyModuleInfo, TableFault>
    ensures made { IfOk result (IsModuleOf parts) }
    ensures sound { OnOk result (AreSound parts) }
    ensures fault { IfErr result (IsFaultOf parts) }
{
    match parts {
        ModuleParts::Esm(esm) => Ok(AnyModuleInfo::Esm(EsModuleInfo::new(
            alloc,
            esm.specifier,
            esm.source,
            esm.tables,
        )?)),
        ModuleParts::Json(json) => Ok(AnyModuleInfo::Json(JsonModuleInfo::new(
            alloc,
            json.specifier,
            json.tables,
        )?)),
    }
}

/// The modules of these parts, made in order: the first fault ends it.
pub fn modules_of(
    alloc: Global,
    modules: Vec<(Url, ModuleParts)>,
) -> Result<Vec<(Url, AnyModuleInfo)>, TableFault>
    ensures made { IfOk result (λ made. AreModulesOf modules.items made.items) }
    ensures fault { IfErr result (IsFirstFault modules.items) }
{
    let mut made = Vec::with_capacity(alloc, modules.len())?;
    for (name, parts) in modules {
        let module = module_of(alloc, parts)?;
        made.push((name, module))?;
    }
    Ok(made)
}
