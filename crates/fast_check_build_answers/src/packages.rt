//! Packages answered one after the other.
ghost use Rattle.std.specs.Prelude.{◌≡◌, ℕ, take, IfOk, OnOk, OnErr};
ghost use Rattle.fast_check_tables_packages.specs.Package.{nv_of};
ghost use Rattle.fast_check_build_answers.specs.Answered.{IsAnswered, AreAnswered, sets};
ghost use Rattle.fast_check_build_answers.specs.Input.{first_alone, KeepsKeys};
ghost use Rattle.fast_check_build_answers.specs.Kept.{with_package};
ghost use Rattle.fast_check_build_answers.specs.Owned.{IsOwned, AreOwned};

use crate::answer::{ModuleAnswer, answer_package};
use crate::cached::answer_and_set;
use crate::input::BuildInput;
use fast_check_tables_cache::{FastCheckCache, PackagePublicRanges};
use fast_check_tables_packages::PackageNv;
use std::alloc::{AllocError, Global};
use std::collections::BTreeMap;

/// The answer of a package, of which it is known what is public.
fn answer_one(
    alloc: Global,
    input: BuildInput<'_>,
    package_ranges: PackagePublicRanges,
) -> Result<Vec<ModuleAnswer>, AllocError>
    requires { IsOwned input.root_symbol.now package_ranges }
    ensures { let i = input.entry in IfOk result (λ made. IsAnswered i.graph.now i.root_symbol.now (first_alone i) package_ranges made.items) }
{
    // Maps and sets are in order.
    let _ = package_ranges.module_ranges.len();
    let _ = package_ranges.entrypoints.len();
    let answers = answer_package(alloc, input, package_ranges)?;
    Ok(answers)
}

/// The answers of packages, one after the other.
pub fn answer_all(
    alloc: Global,
    input: BuildInput<'_>,
    ranges: BTreeMap<PackageNv, PackagePublicRanges>,
) -> Result<Vec<ModuleAnswer>, AllocError>
    requires { AreOwned input.root_symbol.now ranges.entries }
    ensures { let i = input.entry in IfOk result (λ made. AreAnswered i.graph.now i.root_symbol.now (first_alone i) ranges.entries made.items) }
{
    let mut answers = Vec::new(alloc);
    for (_, package_ranges) in ranges {
        let mut more = answer_one(alloc, input, package_ranges)?;
        answers.append(&mut more)?;
    }
    Ok(answers)
}

/// The answer of a package, where a cache is lent.
fn answer_and_set_one(
    alloc: Global,
    cache: &mut dyn FastCheckCache,
    seed: &str,
    input: BuildInput<'_>,
    nv: &PackageNv,
    package_ranges: PackagePublicRanges,
) -> Result<Vec<ModuleAnswer>, AllocError>
    requires { IsOwned input.root_symbol.now package_ranges }
    ensures answered { let i = input.entry in IfOk result (λ made. IsAnswered i.graph.now i.root_symbol.now (first_alone i) package_ranges made.items) }
    ensures set { let i = input.entry in OnOk result (stored cache.new
        ≡ with_package (hash_of cache.old seed.now) (first_alone i) i.graph.now i.root_symbol.now (nv_of nv.now) package_ranges (stored cache.old)) }
    ensures err { OnErr result (stored cache.new ≡ stored cache.old) }
    ensures keys { KeepsKeys (seed_text cache.old) (seed_text cache.new) (hash_of cache.old) (hash_of cache.new) }
{
    // Maps and sets are in order.
    let _ = package_ranges.module_ranges.len();
    let _ = package_ranges.entrypoints.len();
    answer_and_set(alloc, cache, seed, input, nv, package_ranges)
}

/// The answers of packages as by `answer_all`, where a cache is lent, with the seed of its keys. The item of each package of which no module is
/// used from the cache is set, in their order. If memory runs out, those of the packages before are set.
pub fn answer_and_set_all(
    alloc: Global,
    cache: &mut dyn FastCheckCache,
    seed: &str,
    input: BuildInput<'_>,
    ranges: BTreeMap<PackageNv, PackagePublicRanges>,
) -> Result<Vec<ModuleAnswer>, AllocError>
    requires { AreOwned input.root_symbol.now ranges.entries }
    ensures answered { let i = input.entry in IfOk result (λ made. AreAnswered i.graph.now i.root_symbol.now (first_alone i) ranges.entries made.items) }
    ensures set { let i = input.entry in OnOk result (stored cache.new
        ≡ sets (hash_of cache.old seed.now) (first_alone i) i.graph.now i.root_symbol.now ranges.entries (stored cache.old)) }
    ensures err { let i = input.entry in OnErr result ((n : ℕ) × (stored cache.new
        ≡ sets (hash_of cache.old seed.now) (first_alone i) i.graph.now i.root_symbol.now (take n ranges.entries) (stored cache.old))) }
    ensures keys { KeepsKeys (seed_text cache.old) (seed_text cache.new) (hash_of cache.old) (hash_of cache.new) }
{
    let mut answers = Vec::new(alloc);
    for (nv, package_ranges) in ranges {
        let mut more = answer_and_set_one(alloc, cache, seed, input, &nv, package_ranges)?;
        answers.append(&mut more)?;
    }
    Ok(answers)
}
