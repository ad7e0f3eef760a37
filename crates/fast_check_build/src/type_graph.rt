//! The skeletons of packages, or what is wrong with them: `build_fast_check_type_graph`.
ghost use Rattle.std.specs.Prelude.{⊤, map, MatchOption};
ghost use Rattle.fast_check_tables_packages.specs.Package.{nv_of};
ghost use Rattle.fast_check_build_answers.specs.Input.{first_alone, KeepsKeys};
ghost use Rattle.fast_check_build.specs.Found.{known_of};
ghost use Rattle.fast_check_build.specs.Build.{Builds, BuildsOnce, BuildsWith};
ghost use Rattle.fast_check_build.specs.Lent.{OldNew};

use crate::finder::find_public_ranges;
use fast_check_build_answers::transform_module::TransformOptions;
use fast_check_build_answers::{
    BuildInput, ModuleAnswer, PackageAnswer, answer_all, answer_all_once, answer_and_set_all,
};
use fast_check_tables_cache::FastCheckCache;
use fast_check_tables_graph::{ModuleGraph, RootSymbol};
use fast_check_tables_packages::{BuildFault, JsrUrlProvider, PackageNv};
use std::alloc::Global;
use std::collections::VecDeque;

/// The build where a cache is lent. All its items are looked up before the first is set.
fn build_with(
    alloc: Global,
    cache: &mut dyn FastCheckCache,
    jsr_url_provider: &dyn JsrUrlProvider,
    input: BuildInput<'_>,
    pending_nvs: VecDeque<PackageNv>,
) -> Result<Vec<ModuleAnswer>, BuildFault>
    ensures built { let i = input.entry in let key = hash_of cache.old (seed_text cache.old) in
        let k = known_of i.graph.now i.root_symbol.now i.options.now.workspace_members.items (url_of jsr_url_provider.now) (nv_at jsr_url_provider.now) in
        BuildsWith k (map nv_of pending_nvs.items) (first_alone i) key (stored cache.old) (stored cache.new) result }
    ensures keys { KeepsKeys (seed_text cache.old) (seed_text cache.new) (hash_of cache.old) (hash_of cache.new) }
{
    let ranges = find_public_ranges(
        alloc,
        Some(&*cache),
        jsr_url_provider,
        input.graph,
        input.root_symbol,
        input.options.workspace_members.as_slice(),
        pending_nvs,
    )?;
    // The map is in order.
    let _ = ranges.len();
    let seed = cache.hash_seed();
    let answers = answer_and_set_all(alloc, cache, seed, input, ranges)?;
    Ok(answers)
}

/// The build where no cache is lent.
fn build_without(
    alloc: Global,
    jsr_url_provider: &dyn JsrUrlProvider,
    input: BuildInput<'_>,
    pending_nvs: VecDeque<PackageNv>,
) -> Result<Vec<ModuleAnswer>, BuildFault>
    ensures { let i = input.entry in
        let k = known_of i.graph.now i.root_symbol.now i.options.now.workspace_members.items (url_of jsr_url_provider.now) (nv_at jsr_url_provider.now) in
        Builds k (map nv_of pending_nvs.items) (first_alone i) result }
{
    let members = input.options.workspace_members.as_slice();
    let ranges = find_public_ranges(
        alloc,
        None,
        jsr_url_provider,
        input.graph,
        input.root_symbol,
        members,
        pending_nvs,
    )?;
    // The map is in order.
    let _ = ranges.len();
    let answers = answer_all(alloc, input, ranges)?;
    Ok(answers)
}

/// Builds what type checkers, documentation generators and graph builders read of packages: `build_fast_check_type_graph` of deno_graph.
///
/// What is public is found in the packages that are handed in and in all that follow from them. These are answered in the order of their names
/// and versions. Where nothing is wrong with a package, each of its modules that has something public and a syntax tree is answered by its
/// skeleton, in the order of their specifiers. Else each of its entry points, in order, is answered by all that is wrong with its modules, and no
/// module by a skeleton; with `should_error_on_first_diagnostic` by what the finder found wrong with the first faulty module, or by the first
/// fault of its transform.
///
/// Where a cache is lent, a package is answered by its item, if the cache has one and each module of the item has the source that it was cached with;
/// the item of each other package is set, when all items have been looked up. `InvalidExport` has the first export text of a package that does not
/// join to the package's URL; nothing is set then. `OutOfMemory` if memory runs out, or a URL comes to 4 GB; what was set before stays.
pub fn build_fast_check_type_graph(
    alloc: Global,
    cache: Option<&mut dyn FastCheckCache>,
    jsr_url_provider: &dyn JsrUrlProvider,
    graph: &ModuleGraph,
    root_symbol: &RootSymbol,
    pending_nvs: VecDeque<PackageNv>,
    options: &TransformOptions,
) -> Result<Vec<ModuleAnswer>, BuildFault>
    ensures built { let k = known_of graph.now root_symbol.now options.now.workspace_members.items (url_of jsr_url_provider.now) (nv_at jsr_url_provider.now) in
        MatchOption cache.entry (Builds k (map nv_of pending_nvs.items) options.now.should_error_on_first_diagnostic result) (λ _. ⊤) }
    ensures built_with { let k = known_of graph.now root_symbol.now options.now.workspace_members.items (url_of jsr_url_provider.now) (nv_at jsr_url_provider.now) in
        OldNew (λ old new. BuildsWith k (map nv_of pending_nvs.items) options.now.should_error_on_first_diagnostic
        (hash_of old (seed_text old)) (stored old) (stored new) result) cache.entry cache.exit }

    // The cache has the seed and the hash that it had.
    ensures keys { OldNew (λ old new. KeepsKeys (seed_text old) (seed_text new) (hash_of old) (hash_of new)) cache.entry cache.exit }
{
    let input = BuildInput {
        graph,
        root_symbol,
        options,
    };
    match cache {
        Some(cache) => build_with(alloc, cache, jsr_url_provider, input, pending_nvs),
        None => build_without(alloc, jsr_url_provider, input, pending_nvs),
    }
}

/// The build without a cache, package by package, with the diagnostics of each package once. Written out at each entry point, these are the answers of
/// `build_fast_check_type_graph`, which holds a copy of them for each entry point. `InvalidExport` and `OutOfMemory` are as there.
pub fn build_packages(
    alloc: Global,
    jsr_url_provider: &dyn JsrUrlProvider,
    graph: &ModuleGraph,
    root_symbol: &RootSymbol,
    pending_nvs: VecDeque<PackageNv>,
    options: &TransformOptions,
) -> Result<Vec<PackageAnswer>, BuildFault>
    ensures { let k = known_of graph.now root_symbol.now options.now.workspace_members.items (url_of jsr_url_provider.now) (nv_at jsr_url_provider.now) in
        BuildsOnce k (map nv_of pending_nvs.items) options.now.should_error_on_first_diagnostic result }
{
    let input = BuildInput {
        graph,
        root_symbol,
        options,
    };
    let members = options.workspace_members.as_slice();
    let ranges = find_public_ranges(
        alloc,
        None,
        jsr_url_provider,
        graph,
        root_symbol,
        members,
        pending_nvs,
    )?;
    // The map is in order.
    let _ = ranges.len();
    let packages = answer_all_once(alloc, input, ranges)?;
    Ok(packages)
}
