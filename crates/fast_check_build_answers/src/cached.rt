//! A package answered where a cache is lent.
ghost use Rattle.std.specs.Prelude.{◌≡◌, map, IfOk, OnOk, OnErr};
ghost use Rattle.url.specs.Parts.{serialize};
ghost use Rattle.fast_check_tables_packages.specs.Package.{nv_of};
ghost use Rattle.fast_check_tables_cache.specs.Cache.{item_of, with_item};
ghost use Rattle.fast_check_build_answers.specs.Input.{first_alone, KeepsKeys};
ghost use Rattle.fast_check_build_answers.specs.Kept.{item_for, with_package};
ghost use Rattle.fast_check_build_answers.specs.PackageAnswer.{IsFoundAnswer, IsPackageAnswer, OwnsAll};

use crate::answer::{ModuleAnswer, answer_modules, skeletons_or_diagnostics};
use crate::input::BuildInput;
use crate::kept::keep_modules;
use crate::used::used_answers;
use fast_check_tables_cache::{FastCheckCache, FastCheckCacheItem, PackagePublicRanges, key_of};
use fast_check_tables_packages::PackageNv;
use std::alloc::{AllocError, Global};

/// The answer of a package that no cache answers, and what is to be cached of it.
fn answer_and_keep(
    alloc: Global,
    input: BuildInput<'_>,
    package_ranges: PackagePublicRanges,
) -> Result<(Vec<ModuleAnswer>, FastCheckCacheItem), AllocError>
    requires own { OwnsAll input.root_symbol.now package_ranges.module_ranges.entries }
    ensures answered { let i = input.entry in IfOk result (λ made. IsFoundAnswer i.graph.now i.root_symbol.now package_ranges (first_alone i) made.0.items) }
    ensures kept { let i = input.entry in IfOk result (λ made. item_of made.1 ≡ item_for (first_alone i) i.graph.now i.root_symbol.now package_ranges) }
{
    let PackagePublicRanges {
        entrypoints,
        module_ranges,
        cache_items: _,
        dependencies,
    } = package_ranges;
    let mut skeletons = Vec::new(alloc);
    let diagnostics = answer_modules(alloc, input, module_ranges, &mut skeletons)?;
    let modules = keep_modules(alloc, input.graph, &skeletons, &diagnostics)?;
    let answers = skeletons_or_diagnostics(alloc, entrypoints, skeletons, &diagnostics)?;
    let item = FastCheckCacheItem {
        dependencies,
        modules,
    };
    Ok((answers, item))
}

/// The answer of a package that no cache answers. Its item is set.
fn answer_found_and_set(
    alloc: Global,
    cache: &mut dyn FastCheckCache,
    seed: &str,
    input: BuildInput<'_>,
    nv: &PackageNv,
    package_ranges: PackagePublicRanges,
) -> Result<Vec<ModuleAnswer>, AllocError>
    requires own { OwnsAll input.root_symbol.now package_ranges.module_ranges.entries }
    ensures answered { let i = input.entry in IfOk result (λ made. IsFoundAnswer i.graph.now i.root_symbol.now package_ranges (first_alone i) made.items) }
    ensures set { let i = input.entry in let item = item_for (first_alone i) i.graph.now i.root_symbol.now package_ranges in
        let key = hash_of cache.old seed.now (nv_of nv.now) (map serialize package_ranges.entrypoints.keys) in
        OnOk result (stored cache.new ≡ with_item key item (stored cache.old)) }
    ensures err { OnErr result (stored cache.new ≡ stored cache.old) }
    ensures keys { KeepsKeys (seed_text cache.old) (seed_text cache.new) (hash_of cache.old) (hash_of cache.new) }
{
    let key = key_of(&*cache, seed, nv, &package_ranges.entrypoints);
    let (answers, item) = answer_and_keep(alloc, input, package_ranges)?;
    cache.set(key, item)?;
    Ok(answers)
}

/// The answer of a package as by `answer_package`, where a cache is lent, with the seed of its keys. An item is set of a package that has no
/// cached module: its dependencies, and then its modules. Where nothing is wrong, these are the ones that are answered, by their skeletons;
/// else those before the first with something wrong, and that of each diagnostic, all without skeletons. Each goes with the hash that the graph has
/// of its source, or 0. If memory runs out, nothing is set.
#[tactic(auto, using(crate::proofs::Turns::by_found, crate::proofs::Turns::by_used, crate::proofs::Sets::found_set, crate::proofs::Sets::used_set))]
pub fn answer_and_set(
    alloc: Global,
    cache: &mut dyn FastCheckCache,
    seed: &str,
    input: BuildInput<'_>,
    nv: &PackageNv,
    package_ranges: PackagePublicRanges,
) -> Result<Vec<ModuleAnswer>, AllocError>
    requires own { OwnsAll input.root_symbol.now package_ranges.module_ranges.entries }
    ensures answered { let i = input.entry in IfOk result (λ made. IsPackageAnswer i.graph.now i.root_symbol.now package_ranges (first_alone i) made.items) }
    ensures set { let i = input.entry in OnOk result (stored cache.new
        ≡ with_package (hash_of cache.old seed.now) (first_alone i) i.graph.now i.root_symbol.now (nv_of nv.now) package_ranges (stored cache.old)) }
    ensures err { OnErr result (stored cache.new ≡ stored cache.old) }
    ensures keys { KeepsKeys (seed_text cache.old) (seed_text cache.new) (hash_of cache.old) (hash_of cache.new) }
{
    if package_ranges.cache_items.is_empty() {
        let answers = answer_found_and_set(alloc, cache, seed, input, nv, package_ranges)?;
        return Ok(answers);
    }
    let answers = used_answers(alloc, package_ranges.cache_items)?;
    Ok(answers)
}
