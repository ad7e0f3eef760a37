//! The modules that were followed, and those that wait to be, as the finder of public ranges of deno_graph keeps them.

ghost use Rattle.std.specs.Prelude.{◌≡◌, ◌++◌, [], ◌<◌, ◌↔◌, length, IfOk, OnOk, OnErr, IsSome, option_map, option_to_list};
ghost use Rattle.std.specs.Map.{lookup};
ghost use Rattle.std.specs.Option.{option_copied};
ghost use Rattle.fast_check_finder_lattice.specs.Traces.{is_module, handled, pending, entry_of, Handles, Waits};

use crate::lattice::ImportedExports;
use fast_check_tables_packages::PackageNv;
use indexmap::IndexMap;
use std::alloc::{AllocError, Global};
use std::marker::Model;
use url::Url;

/// What was demanded so far of each module, in the order in which the modules came.
#[derive(Drop)]
pub struct HandledExports {
    modules: IndexMap<Url, ImportedExports>,
}

impl Model for HandledExports {
    ghost use Rattle.std.specs.Prelude.{List};
    ghost use Rattle.std.specs.Coded.{codes};
    ghost use Rattle.url.specs.Parts.{Parts};
    ghost use Rattle.fast_check_finder_lattice.specs.contracts.lattice.imported_exports.ImportedExports as exports;
    ghost use Rattle.fast_check_finder_lattice.specs.declared.lattice.imported_exports.ImportedExports.{ImportedExports};

    ghost Value = { List (Parts × ImportedExports) };

    ghost coded = { Prim.hlevel (codes, exports.the_row.coded) };

    ghost view = { λ handled. handled.modules.entries };
}

impl HandledExports {
    /// No module.
    pub fn default(alloc: Global) -> Self
        ensures { handled result ≡ [] }
    {
        HandledExports {
            modules: IndexMap::new(alloc),
        }
    }

    /// What was demanded so far of a module, if it is known.
    pub fn exports_of(&self, specifier: &Url) -> Option<&ImportedExports>
        ensures { option_copied result ≡ lookup (is_module specifier.now) (handled self.now) }
    {
        self.modules.get(specifier)
    }

    /// Adds what is demanded of a module, and answers what was not demanded before: all of it where the module is new, and None where
    /// nothing is new.
    pub fn add(
        &mut self,
        alloc: Global,
        dep_specifier: &Url,
        traced_exports: ImportedExports,
    ) -> Result<Option<ImportedExports>, AllocError>
        ensures added { IfOk result (λ answer. Handles (handled self.old) dep_specifier.now traced_exports answer (handled self.new)) }
        ensures err { OnErr result (handled self.new ≡ handled self.old) }
    {
        if let Some(held) = self.modules.get_mut(dep_specifier) {
            return held.add(alloc, traced_exports);
        }
        let copy = traced_exports.clone()?;
        self.modules.insert(dep_specifier.clone()?, copy)?;
        Ok(Some(traced_exports))
    }
}

/// A module that waits to be followed.
#[derive(Debug, Drop)]
pub struct PendingTrace {
    /// The package that asked first.
    pub package_nv: PackageNv,
    pub specifier: Url,
    pub exports_to_trace: ImportedExports,
}

/// The modules that wait to be followed, in the order in which they came.
#[derive(Drop)]
pub struct PendingTraces {
    traces: IndexMap<Url, (PackageNv, ImportedExports)>,
}

impl Model for PendingTraces {
    ghost use Rattle.std.specs.Prelude.{List};
    ghost use Rattle.std.specs.Coded.{codes};
    ghost use Rattle.url.specs.Parts.{Parts};
    ghost use Rattle.fast_check_finder_lattice.specs.contracts.lattice.imported_exports.ImportedExports as exports;
    ghost use Rattle.fast_check_tables_packages.specs.declared.package.PackageNv.{PackageNv};
    ghost use Rattle.fast_check_finder_lattice.specs.declared.lattice.imported_exports.ImportedExports.{ImportedExports};

    ghost Value = { List (Parts × (PackageNv × ImportedExports)) };

    ghost coded = { Prim.hlevel (codes, exports.the_row.coded) };

    ghost view = { λ pending. pending.traces.entries };
}

impl PendingTraces {
    /// No module.
    pub fn default(alloc: Global) -> Self
        ensures { pending result ≡ [] }
    {
        PendingTraces {
            traces: IndexMap::new(alloc),
        }
    }

    /// Demands exports of a module for a package. A module that waits already keeps its place and the package that asked first.
    pub fn add(
        &mut self,
        alloc: Global,
        package_nv: PackageNv,
        dep_specifier: Url,
        exports_to_trace: ImportedExports,
    ) -> Result<(), AllocError>
        ensures added { OnOk result (Waits (pending self.old) package_nv dep_specifier exports_to_trace (pending self.new)) }
        ensures err { OnErr result (pending self.new ≡ pending self.old) }
    {
        if let Some(waiting) = self.traces.get_mut(&dep_specifier) {
            let _ = waiting.1.add(alloc, exports_to_trace)?;
            return Ok(());
        }
        self.traces
            .insert(dep_specifier, (package_nv, exports_to_trace))?;
        Ok(())
    }

    /// Takes the module that came last.
    pub fn pop(&mut self) -> Option<PendingTrace>
        ensures taken { pending self.old ≡ pending self.new ++ option_to_list (option_map entry_of result) }
        ensures found { IsSome result ↔ (0 < length (pending self.old)) }
    {
        let (specifier, (package_nv, exports_to_trace)) = self.traces.pop()?;
        Some(PendingTrace {
            package_nv,
            specifier,
            exports_to_trace,
        })
    }
}
