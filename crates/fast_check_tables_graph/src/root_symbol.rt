//! The modules that were analysed, by their names and aliases.
ghost use Rattle.std.specs.Prelude.{◌≡◌, false, IfOk, IfErr, OnOk};
ghost use Rattle.std.specs.Option.{option_copied};
ghost use Rattle.std.specs.List.{list_any};
ghost use Rattle.fast_check_tables_graph.specs.ModuleNames.{specifier_of, is_misplaced};

use fast_check_tables_modules::{EsModuleInfo, JsonModuleInfo, TableFault};
use std::collections::BTreeMap;
use url::Url;

/// A module with its tables.
#[derive(Drop)]
pub enum AnyModuleInfo {
    Esm(EsModuleInfo),
    Json(JsonModuleInfo),
}

impl AnyModuleInfo {
    /// Its name.
    pub fn specifier(&self) -> &Url
        ensures { result.now ≡ specifier_of self.now }
    {
        match self {
            AnyModuleInfo::Esm(module) => module.specifier(),
            AnyModuleInfo::Json(module) => module.specifier(),
        }
    }
}

/// The modules of a program by name, and the names that stand for others.
#[derive(Drop)]
pub struct RootSymbol {
    modules: BTreeMap<Url, AnyModuleInfo>,
    aliases: BTreeMap<Url, Url>,
    ghost own_names: { list_any is_misplaced modules.entries ≡ false },
}

impl RootSymbol {
    ghost use Rattle.fast_check_tables_graph.specs.ModuleNames.{StandUnderOwnNames, IsRootFault, module_named, module_aliased};
    ghost use Rattle.fast_check_tables_graph.specs.Root.{IsRootOf, AreFoundByOwnNames, found_module};

    /// These modules and aliases, where each module stands under its own name; else `ModuleNotUnderOwnName`, and what was handed in is dropped.
    /// It takes no memory.
    pub fn new(
        modules: BTreeMap<Url, AnyModuleInfo>,
        aliases: BTreeMap<Url, Url>,
    ) -> Result<RootSymbol, TableFault>
        ensures made { IfOk result (IsRootOf modules aliases) }
        ensures own_names { OnOk result (StandUnderOwnNames modules) }
        ensures fault { IfErr result (IsRootFault modules) }
    {
        if has_misplaced(&modules) {
            return Err(TableFault::ModuleNotUnderOwnName);
        }
        Ok(RootSymbol { modules, aliases })
    }

    /// The law of names: each module is found by its own. It holds of every value, and does nothing when it is called.
    pub fn own_names_find(&self)
        ensures { AreFoundByOwnNames self.now }
    {
        // What the map says of its length says too that its keys are in order, so that each stands once: from that the law follows.
        let _ = self.modules.len();
    }

    /// The module of a name, or else that of the name that it stands for.
    pub fn module_from_specifier(&self, specifier: &Url) -> Option<&AnyModuleInfo>
        ensures { option_copied result ≡ found_module self.now specifier.now }
    {
        match self.own_module(specifier) {
            Some(module) => Some(module),
            None => self.aliased_module(specifier),
        }
    }

    /// The module of a name.
    fn own_module(&self, specifier: &Url) -> Option<&AnyModuleInfo>
        ensures { option_copied result ≡ module_named self.now.modules.entries specifier.now }
    {
        self.modules.get(specifier)
    }

    /// The module of the name that a name stands for.
    fn aliased_module(&self, specifier: &Url) -> Option<&AnyModuleInfo>
        ensures { option_copied result ≡ module_aliased self.now.modules.entries self.now.aliases.entries specifier.now }
    {
        self.own_module(self.aliases.get(specifier)?)
    }
}

/// Whether a module stands under another name than its own.
fn has_misplaced(modules: &BTreeMap<Url, AnyModuleInfo>) -> bool
    ensures { result ≡ list_any is_misplaced modules.now.entries }
{
    modules
        .iter()
        .any(|(key, module)| key != module.specifier())
}
