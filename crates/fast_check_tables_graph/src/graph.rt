//! The graph: modules by their names, what a text in a module resolves to, and the exports of packages.
ghost use Rattle.std.specs.Prelude.{◌≡◌, IsOkAnd, option_map};
ghost use Rattle.std.specs.Option.{option_copied};
ghost use Rattle.fast_check_tables_packages.specs.Package.{nv_of};
ghost use Rattle.fast_check_tables_graph.specs.Graph.{IsGraphOf, module_at, resolutions_of, resolved_to, exports_of};

use crate::module::Module;
use fast_check_tables_packages::PackageNv;
use indexmap::IndexMap;
use std::alloc::{AllocError, Global};
use std::collections::BTreeMap;
use url::Url;

/// The modules that were loaded, what the texts of their imports resolve to, and the exports of packages.
#[derive(Drop)]
pub struct ModuleGraph {
    modules: BTreeMap<Url, Module>,
    /// What the texts in each module resolve to, where types are preferred.
    resolutions: BTreeMap<Url, BTreeMap<String, Url>>,
    packages: BTreeMap<PackageNv, IndexMap<String, String>>,
}

impl ModuleGraph {
    /// The graph of these parts: the modules by specifier, what the texts in each module resolve to, and the export texts of packages by their
    /// export names. It takes no memory.
    pub fn from_parts(
        _alloc: Global,
        modules: BTreeMap<Url, Module>,
        resolutions: BTreeMap<Url, BTreeMap<String, Url>>,
        packages: BTreeMap<PackageNv, IndexMap<String, String>>,
    ) -> Result<ModuleGraph, AllocError>
        ensures { IsOkAnd result (IsGraphOf modules resolutions packages) }
    {
        Ok(ModuleGraph {
            modules,
            resolutions,
            packages,
        })
    }

    /// The module of a specifier.
    pub fn get(&self, specifier: &Url) -> Option<&Module>
        ensures { option_copied result ≡ module_at self.now specifier.now }
    {
        self.modules.get(specifier)
    }

    /// What the texts in the module `referrer` resolve to.
    pub fn resolutions_of(&self, referrer: &Url) -> Option<&BTreeMap<String, Url>>
        ensures { option_copied result ≡ resolutions_of self.now referrer.now }
    {
        self.resolutions.get(referrer)
    }

    /// What a text in the module `referrer` resolves to.
    pub fn resolve_dependency(&self, specifier_text: &str, referrer: &Url) -> Option<&Url>
        ensures { option_copied result ≡ resolved_to self.now specifier_text.now referrer.now }
    {
        self.resolutions_of(referrer)?.get(specifier_text)
    }

    /// The export texts of a package by their export names.
    pub fn package_exports(&self, nv: &PackageNv) -> Option<&IndexMap<String, String>>
        ensures { option_map (λ m. m.entries) (option_copied result) ≡ exports_of self.now (nv_of nv.now) }
    {
        self.packages.get(nv)
    }
}
