//! Packages answered with their diagnostics once.
ghost use Rattle.std.specs.Prelude.{IfOk, List};
ghost use Rattle.fast_check_build_answers.specs.Input.{first_alone};
ghost use Rattle.fast_check_build_answers.specs.Once.{IsWrittenOut, IsAnsweredOnce, AreAnsweredOnce};
ghost use Rattle.fast_check_build_answers.specs.Owned.{IsOwned, AreOwned};
ghost use Rattle.fast_check_build_answers.specs.PackageAnswer.{Answer, IsFoundAnswer, OwnsAll};

use crate::answer::{ModuleAnswer, answer_modules};
use crate::input::BuildInput;
use crate::used::used_answers;
use fast_check_tables_cache::PackagePublicRanges;
use fast_check_tables_modules::diagnostics::FastCheckDiagnostic;
use fast_check_tables_packages::PackageNv;
use std::alloc::{AllocError, Global};
use std::collections::{BTreeMap, BTreeSet};
use url::Url;

/// What a package is answered by, with its diagnostics once, however many entry points it has.
#[derive(Drop)]
pub struct PackageAnswer {
    /// The entry points of the package, in order. Where there are diagnostics, each is answered by all of them.
    pub entrypoints: BTreeSet<Url>,
    /// The skeletons of the package's modules. Where there are diagnostics, they play no part.
    pub skeletons: Vec<ModuleAnswer>,
    pub diagnostics: Vec<FastCheckDiagnostic>,
}

/// The answer of a package that no cache answers.
fn found_once(
    alloc: Global,
    input: BuildInput<'_>,
    package_ranges: PackagePublicRanges,
) -> Result<PackageAnswer, AllocError>
    requires own { OwnsAll input.root_symbol.now package_ranges.module_ranges.entries }
    ensures { let i = input.entry in IfOk result (λ made. (answers : List Answer) → IsWrittenOut made answers →
        IsFoundAnswer i.graph.now i.root_symbol.now package_ranges (first_alone i) answers) }
{
    let PackagePublicRanges {
        entrypoints,
        module_ranges,
        cache_items: _,
        dependencies: _,
    } = package_ranges;
    let mut skeletons = Vec::new(alloc);
    let diagnostics = answer_modules(alloc, input, module_ranges, &mut skeletons)?;
    Ok(PackageAnswer {
        entrypoints,
        skeletons,
        diagnostics,
    })
}

/// The answer of a package, of which it is known what is public.
fn answer_once(
    alloc: Global,
    input: BuildInput<'_>,
    package_ranges: PackagePublicRanges,
) -> Result<PackageAnswer, AllocError>
    requires { IsOwned input.root_symbol.now package_ranges }
    ensures { let i = input.entry in IfOk result (IsAnsweredOnce i.graph.now i.root_symbol.now (first_alone i) package_ranges) }
{
    // Maps and sets are in order.
    let _ = package_ranges.module_ranges.len();
    let _ = package_ranges.entrypoints.len();
    if package_ranges.cache_items.is_empty() {
        let found = found_once(alloc, input, package_ranges)?;
        return Ok(found);
    }
    let skeletons = used_answers(alloc, package_ranges.cache_items)?;
    Ok(PackageAnswer {
        entrypoints: package_ranges.entrypoints,
        skeletons,
        diagnostics: Vec::new(alloc),
    })
}

/// The answers of packages, one after the other, each with its diagnostics once. Written out at each entry point they are the answers of `answer_all`.
pub fn answer_all_once(
    alloc: Global,
    input: BuildInput<'_>,
    ranges: BTreeMap<PackageNv, PackagePublicRanges>,
) -> Result<Vec<PackageAnswer>, AllocError>
    requires { AreOwned input.root_symbol.now ranges.entries }
    ensures { let i = input.entry in IfOk result (λ made. AreAnsweredOnce i.graph.now i.root_symbol.now (first_alone i) ranges.entries made.items) }
{
    let mut answers = Vec::new(alloc);
    for (_, package_ranges) in ranges {
        answers.push(answer_once(alloc, input, package_ranges)?)?;
    }
    Ok(answers)
}
