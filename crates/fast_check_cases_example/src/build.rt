//! Builds a package that is made by hand, and prints what it is answered. The package has one module: `export const hello = "world";`, and then
//! `export let hello;`, which shows no type.
//!
//! The module `hello` makes the module of the package. docs/LIBRARY.md goes through both.
mod answers;

use crate::build::answers::print_answer;
use crate::hello::{Line, hello_alone, hello_world, root_symbol};
use anyhow::Result;
use fast_check::build::{ModuleAnswer, build_fast_check_type_graph};
use fast_check::provider::ListedPackages;
use fast_check::tables::{MediaType, Module, ModuleGraph, PackageNv, RootSymbol};
use fast_check::transform::TransformOptions;
use indexmap::IndexMap;
use semver::Version;
use std::alloc::{AllocError, Global};
use std::collections::{BTreeMap, VecDeque};
use url::Url;

/// What is known of modules without their sources: there is one, which is written in TypeScript.
fn known_modules(alloc: Global, specifier: &Url) -> Result<BTreeMap<Url, Module>, AllocError> {
    let name = specifier.clone()?;
    let module = Module::Js {
        media_type: MediaType::TypeScript,
        has_types_dependency: false,
        source_hash: None,
    };
    let mut modules = BTreeMap::new(alloc);
    modules.insert(name, module)?;
    Ok(modules)
}

/// What the package exports: the module alone.
fn package_exports(alloc: Global) -> Result<IndexMap<String, String>> {
    let name = String::from_str(alloc, ".")?;
    let text = String::from_str(alloc, "./mod.ts")?;
    let mut exports = IndexMap::new(alloc);
    exports.insert(name, text)?;
    Ok(exports)
}

/// The packages that are known.
fn known_packages(
    alloc: Global,
    package: &PackageNv,
) -> Result<BTreeMap<PackageNv, IndexMap<String, String>>> {
    let package = package.clone()?;
    let exports = package_exports(alloc)?;
    let mut packages = BTreeMap::new(alloc);
    packages.insert(package, exports)?;
    Ok(packages)
}

/// The graph: the module, and the package that exports it.
fn module_graph(alloc: Global, specifier: &Url, package: &PackageNv) -> Result<ModuleGraph> {
    let modules = known_modules(alloc, specifier)?;
    let packages = known_packages(alloc, package)?;
    Ok(ModuleGraph::from_parts(alloc, modules, BTreeMap::new(alloc), packages)?)
}

/// Which package stands under which URL.
fn provider(alloc: Global, package: &PackageNv) -> Result<ListedPackages> {
    let fallback = Url::parse(alloc, "https://host.example/other/")?;
    let url = Url::parse(alloc, "https://host.example/hello/")?;
    let package = package.clone()?;
    let packages = Vec::from_array(alloc, [(package, url)])?;
    Ok(ListedPackages { packages, fallback })
}

/// What the package is answered: it is followed, and all that it asks of others.
fn follow(
    alloc: Global,
    provider: &ListedPackages,
    graph: &ModuleGraph,
    root_symbol: &RootSymbol,
    package: PackageNv,
) -> Result<Vec<ModuleAnswer>> {
    let pending = Vec::from_array(alloc, [package])?;
    let options = TransformOptions {
        workspace_members: Vec::new(alloc),
        should_error_on_first_diagnostic: false,
    };
    let answers = build_fast_check_type_graph(
        alloc,
        None,
        provider,
        graph,
        root_symbol,
        VecDeque::from(pending),
        &options,
    );
    Ok(answers?)
}

/// What the package is answered whose one module has these symbols.
fn build_package(
    alloc: Global,
    specifier: &Url,
    root_symbol: &RootSymbol,
) -> Result<Vec<ModuleAnswer>> {
    let package = PackageNv {
        name: String::from_str(alloc, "@example/hello")?,
        version: Version::new(1, 0, 0),
    };
    let provider = provider(alloc, &package)?;
    let graph = module_graph(alloc, specifier, &package)?;
    follow(alloc, &provider, &graph, root_symbol, package)
}

/// What the package of this module is answered.
fn build(alloc: Global, line: Line) -> Result<Vec<ModuleAnswer>> {
    let specifier = Url::parse(alloc, "https://host.example/hello/mod.ts")?;
    let root_symbol = root_symbol(alloc, &specifier, line)?;
    build_package(alloc, &specifier, &root_symbol)
}

fn print_answers(rt: &HostRuntime, answers: &[ModuleAnswer]) -> Result<()> {
    for answer in answers {
        print_answer(rt, answer)?;
    }
    Ok(())
}

/// Builds the package of this module, and prints what it is answered.
fn run(rt: &HostRuntime, line: Line) -> Result<()> {
    println!(rt; "{}", line.text)?;
    let answers = build(rt.alloc(), line)?;
    print_answers(rt, answers.as_slice())
}

pub fn run_example(rt: &HostRuntime) -> Result<()> {
    run(rt, hello_world())?;
    run(rt, hello_alone())
}
