//! Two versions of a module whose public declarations are known: the skeleton of one, and those of both beside each other. docs/LIBRARY.md shows both calls.

use crate::hello::{Line, es_module, hello_alone, hello_world};
use anyhow::Result;
use fast_check::diagnostics::{FastCheckDiagnostic, ModulePublicRanges};
use fast_check::tables::{EsModuleInfo, ModuleGraph};
use fast_check::transform::{FastCheckModule, TransformOptions, transform, transform_pair};
use std::alloc::{AllocError, Global};
use std::collections::BTreeMap;
use url::Url;

/// A skeleton with its comments and sources, or the errors of the module.
type Skeleton = Result<FastCheckModule, Vec<FastCheckDiagnostic>>;

/// A version of a module, with its public ranges.
#[derive(Drop)]
struct Version {
    module: EsModuleInfo,
    public_ranges: ModulePublicRanges,
}

/// The skeleton of a version, None where its tables do not admit its ranges.
fn skeleton_of(
    alloc: Global,
    graph: &ModuleGraph,
    version: &Version,
    options: &TransformOptions,
) -> Result<Option<Skeleton>, AllocError> {
    if !version.module.admits(&version.public_ranges) {
        return Ok(None);
    }
    let answer = transform(
        alloc,
        graph,
        &version.module,
        &version.public_ranges,
        options,
    )?;
    Ok(Some(answer))
}

/// The skeletons of two versions, None where the tables of one do not admit its ranges.
fn both_skeletons(
    alloc: Global,
    graph: &ModuleGraph,
    old: &Version,
    new: &Version,
    options: &TransformOptions,
) -> Result<Option<(Skeleton, Skeleton)>, AllocError> {
    if !old.module.admits(&old.public_ranges) || !new.module.admits(&new.public_ranges) {
        return Ok(None);
    }
    let answers = transform_pair(
        alloc,
        graph,
        &old.module,
        &old.public_ranges,
        &new.module,
        &new.public_ranges,
        options,
    )?;
    Ok(Some(answers))
}

/// The module of this line, whose one declaration is public.
fn make_version(alloc: Global, specifier: &Url, line: Line) -> Result<Version> {
    let public = Vec::from_array(alloc, [line.declarator])?;
    let public_ranges = ModulePublicRanges::from_parts(
        alloc,
        public,
        Vec::new(alloc),
        Vec::new(alloc),
    )?;
    let module = es_module(alloc, specifier, line)?;
    Ok(Version {
        module,
        public_ranges,
    })
}

fn word(answer: &Skeleton) -> &'static str {
    if answer.is_ok() {
        "a skeleton"
    } else {
        "errors"
    }
}

/// Prints the answer to one version, and then those to both.
fn print_versions(
    rt: &HostRuntime,
    graph: &ModuleGraph,
    old: &Version,
    new: &Version,
) -> Result<()> {
    let options = TransformOptions {
        workspace_members: Vec::new(rt.alloc()),
        should_error_on_first_diagnostic: false,
    };
    if let Some(answer) = skeleton_of(rt.alloc(), graph, old, &options)? {
        println!(rt; "one version: {}", word(&answer))?;
    }
    if let Some(answers) = both_skeletons(rt.alloc(), graph, old, new, &options)? {
        println!(rt; "two versions: {}, {}", word(&answers.0), word(&answers.1))?;
    }
    Ok(())
}

pub fn run_versions(rt: &HostRuntime) -> Result<()> {
    let alloc = rt.alloc();
    let specifier = Url::parse(alloc, "https://host.example/hello/mod.ts")?;
    let old = make_version(alloc, &specifier, hello_world())?;
    let new = make_version(alloc, &specifier, hello_alone())?;
    let graph = ModuleGraph::from_parts(
        alloc,
        BTreeMap::new(alloc),
        BTreeMap::new(alloc),
        BTreeMap::new(alloc),
    )?;
    print_versions(rt, &graph, &old, &new)
}
