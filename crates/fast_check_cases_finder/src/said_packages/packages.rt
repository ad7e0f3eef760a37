//! Says what is found of packages.

use crate::said_answers::say_diagnostic;
use fast_check_cases::Said;
use fast_check_tables_cache::PackagePublicRanges;
use fast_check_tables_diagnostics::{
    Diagnostic, FastCheckDiagnostic, FastCheckDiagnosticRange, ModulePublicRanges,
};
use fast_check_tables_packages::PackageNv;
use fast_check_tree_syntax::SourceRange;
use std::alloc::Global;
use std::collections::{BTreeMap, BTreeSet};
use url::Url;

fn say_range(alloc: Global, range: &SourceRange, said: &mut Said) {
    said.say_made(format!(in alloc; " {}-{}", range.start.0, range.end.0));
}

/// Says which of these ranges are public.
fn say_ranges(alloc: Global, module: &ModulePublicRanges, ranges: &[SourceRange], said: &mut Said) {
    said.say("\n    ranges");
    for range in ranges {
        if module.contains(range) {
            say_range(alloc, range, said);
        }
    }
}

/// Says which of these ranges are those of public implementations of overloads.
fn say_implementations(
    alloc: Global,
    module: &ModulePublicRanges,
    ranges: &[SourceRange],
    said: &mut Said,
) {
    said.say("\n    implementations");
    for range in ranges {
        if module.is_impl_with_overloads(range) {
            say_range(alloc, range, said);
        }
    }
}

fn say_place(alloc: Global, place: &FastCheckDiagnosticRange, said: &mut Said) {
    say_range(alloc, &place.range, said);
    said.say_made(format!(in alloc; " of {} bytes", place.text_info.as_str().len()));
}

fn say_found(alloc: Global, diagnostic: &FastCheckDiagnostic, said: &mut Said) {
    said.say_path("\n    ", diagnostic.code(), " at ");
    said.say(diagnostic.specifier().as_str());
    if let Some(place) = diagnostic.range() {
        say_place(alloc, place, said);
    }
    say_diagnostic(alloc, diagnostic, said);
}

fn say_diagnostics(alloc: Global, diagnostics: Vec<FastCheckDiagnostic>, said: &mut Said) {
    for diagnostic in &diagnostics {
        say_found(alloc, diagnostic, said);
    }
}

fn say_module(
    alloc: Global,
    specifier: &Url,
    mut module: ModulePublicRanges,
    ranges: &[SourceRange],
    said: &mut Said,
) {
    said.say_path("\n  module ", specifier.as_str(), "");
    say_ranges(alloc, &module, ranges, said);
    say_implementations(alloc, &module, ranges, said);
    say_diagnostics(alloc, module.take_diagnostics(), said);
}

fn say_modules(
    alloc: Global,
    modules: BTreeMap<Url, ModulePublicRanges>,
    ranges: &[SourceRange],
    said: &mut Said,
) {
    for (specifier, module) in modules {
        say_module(alloc, &specifier, module, ranges, said);
    }
}

fn say_entry_points(entry_points: &BTreeSet<Url>, said: &mut Said) {
    for specifier in entry_points {
        said.say_path("\n  entry point ", specifier.as_str(), "");
    }
}

fn say_dependencies(alloc: Global, dependencies: &BTreeSet<PackageNv>, said: &mut Said) {
    for nv in dependencies {
        said.say_made(format!(in alloc; "\n  depends on {nv}"));
    }
}

fn say_package(
    alloc: Global,
    nv: &PackageNv,
    package: PackagePublicRanges,
    ranges: &[SourceRange],
    said: &mut Said,
) {
    said.say_made(format!(in alloc; "\npackage {nv}"));
    say_entry_points(&package.entrypoints, said);
    say_dependencies(alloc, &package.dependencies, said);
    say_modules(alloc, package.module_ranges, ranges, said);
}

/// Says of each package its entry points, its dependencies, and of its modules which of these ranges are public and what is wrong.
pub fn say_packages(
    alloc: Global,
    ranges: &[SourceRange],
    found: BTreeMap<PackageNv, PackagePublicRanges>,
    said: &mut Said,
) {
    for (nv, package) in found {
        say_package(alloc, &nv, package, ranges, said);
    }
}
