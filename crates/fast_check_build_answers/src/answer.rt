//! The answer of a package by its public ranges: skeletons or diagnostics.
ghost use Rattle.std.specs.Prelude.{◌≡◌, ◌≢◌, ◌==◌, ◌&&◌, not, [], ◌++◌, length, take, IfOk, OnOk};
ghost use Rattle.std.specs.List.{AllZip};
ghost use Rattle.fast_check_tables_modules.specs.EsModule.{AreOwnRanges};
ghost use Rattle.fast_check_tables_graph.specs.Root.{found_module};
ghost use Rattle.fast_check_build_answers.specs.Input.{first_alone};
ghost use Rattle.fast_check_build_answers.specs.ModuleAnswer.{IsModuleAnswer};
ghost use Rattle.fast_check_build_answers.specs.PackageFaults.{PublicModule, Diagnoses, faults_in_tree, module_faults, package_faults, sound_front};
ghost use Rattle.fast_check_build_answers.specs.PackageAnswer.{ShowsMore, with_tree, tree_modules, OwnsModule, OwnsAll};
ghost use Rattle.fast_check_build_answers.specs.PackageAnswer.{IsRefused, IsFoundAnswer, IsPackageAnswer};

use crate::input::BuildInput;
use crate::used::used_answers;
use fast_check_tables_cache::PackagePublicRanges;
use fast_check_tables_diagnostics::parsed_source::{FastCheckModule, ModuleSpecifier};
use fast_check_tables_graph::AnyModuleInfo;
use fast_check_tables_modules::EsModuleInfo;
use fast_check_tables_modules::diagnostics::{FastCheckDiagnostic, ModulePublicRanges};
use fast_check_transform_module::{TransformOptions, transform};
use std::alloc::{AllocError, Global};
use std::collections::{BTreeMap, BTreeSet};
use url::Url;

/// A specifier, and the skeleton or the diagnostics that it is answered by.
pub type ModuleAnswer = (
    ModuleSpecifier,
    Result<FastCheckModule, Vec<FastCheckDiagnostic>>,
);

/// What the transform finds wrong with a module. Where that is nothing, its skeleton goes to the answers.
#[tactic(auto, using(crate::proofs::Lists::stays_pushed, crate::proofs::Lists::stays_same))]
fn answer_tree(
    alloc: Global,
    input: BuildInput<'_>,
    es_module_info: &EsModuleInfo,
    specifier: Url,
    public_ranges: &ModulePublicRanges,
    answers: &mut Vec<ModuleAnswer>,
) -> Result<Vec<FastCheckDiagnostic>, AllocError>
    requires { AreOwnRanges es_module_info.now.tables public_ranges.now }
    ensures { let i = input.entry in let m = Some (AnyModuleInfo.Esm es_module_info.now) in IfOk result (λ diagnostics. IsModuleAnswer i.graph.now
        (faults_in_tree (first_alone i) i.graph.now public_ranges.now m) (with_tree (specifier, public_ranges.now) m)
        diagnostics.items answers.old.items answers.new.items) }
{
    es_module_info.own_ranges_are_admitted();
    match transform(
        alloc,
        input.graph,
        es_module_info,
        public_ranges,
        input.options,
    )? {
        Ok(made) => {
            answers.push((specifier, Ok(made)))?;
            Ok(Vec::new(alloc))
        }
        Err(diagnostics) => Ok(diagnostics),
    }
}

/// The same of a module that may have no syntax tree: without one, nothing is wrong, and nothing goes to the answers.
#[tactic(auto, using(crate::proofs::Lists::stays_pushed, crate::proofs::Lists::stays_same))]
fn answer_if_tree(
    alloc: Global,
    input: BuildInput<'_>,
    specifier: Url,
    public_ranges: &ModulePublicRanges,
    answers: &mut Vec<ModuleAnswer>,
) -> Result<Vec<FastCheckDiagnostic>, AllocError>
    requires { OwnsModule input.root_symbol.now (specifier, public_ranges.now) }
    ensures { let i = input.entry in let m = found_module i.root_symbol.now specifier in IfOk result (λ diagnostics. IsModuleAnswer i.graph.now
        (faults_in_tree (first_alone i) i.graph.now public_ranges.now m) (with_tree (specifier, public_ranges.now) m)
        diagnostics.items answers.old.items answers.new.items) }
{
    match input.root_symbol.module_from_specifier(&specifier) {
        Some(AnyModuleInfo::Esm(info)) => answer_tree(
            alloc,
            input,
            info,
            specifier,
            public_ranges,
            answers,
        ),
        _ => Ok(Vec::new(alloc)),
    }
}

/// The diagnostics of a module: those of the finder, or else those of the transform. Where there are none, the skeleton of a module
/// with a syntax tree goes to the answers.
#[tactic(auto, using(crate::proofs::Lists::stays_pushed, crate::proofs::Lists::stays_same))]
fn answer_module(
    alloc: Global,
    input: BuildInput<'_>,
    specifier: Url,
    mut public_ranges: ModulePublicRanges,
    answers: &mut Vec<ModuleAnswer>,
) -> Result<Vec<FastCheckDiagnostic>, AllocError>
    requires { OwnsModule input.root_symbol.now (specifier, public_ranges) }
    ensures { let i = input.entry in let m : PublicModule = (specifier, public_ranges) in IfOk result (λ diagnostics. IsModuleAnswer i.graph.now
        (module_faults (first_alone i) i.graph.now i.root_symbol.now m) (with_tree m (found_module i.root_symbol.now specifier))
        diagnostics.items answers.old.items answers.new.items) }
{
    let found = public_ranges.take_diagnostics();
    if found.is_empty() {
        return answer_if_tree(alloc, input, specifier, &public_ranges, answers);
    }
    Ok(found)
}

/// Adds what is wrong with one module more. Where anything is wrong, its skeleton goes, if it has one; so those stay that stand before the
/// first module with something wrong.
fn add_diagnostics(
    mut more: Vec<FastCheckDiagnostic>,
    diagnostics: &mut Vec<FastCheckDiagnostic>,
    answered: usize,
    answers: &mut Vec<ModuleAnswer>,
) -> Result<(), AllocError>
    ensures added { OnOk result (diagnostics.new.items ≡ diagnostics.old.items ++ more.items) }
    ensures kept { OnOk result (diagnostics.new.items ≡ [] → answers.new.items ≡ answers.old.items) }
    ensures cut { OnOk result (diagnostics.new.items ≢ [] → answers.new.items ≡ take answered answers.old.items) }
{
    diagnostics.append(&mut more)?;
    if !diagnostics.is_empty() {
        answers.truncate(answered);
    }
    Ok(())
}

/// Whether nothing more is to be reported of a package.
fn ends_early(options: &TransformOptions, diagnostics: &[FastCheckDiagnostic]) -> bool
    ensures { result ≡ (options.now.should_error_on_first_diagnostic && not (length diagnostics.now == 0)) }
{
    options.should_error_on_first_diagnostic && !diagnostics.is_empty()
}

/// What is wrong with the modules of a package, or under the option with the first that has something wrong. The skeletons of the modules before
/// that one, or of all where nothing is wrong, go to the answers, in order.
pub(crate) fn answer_modules(
    alloc: Global,
    input: BuildInput<'_>,
    module_ranges: BTreeMap<Url, ModulePublicRanges>,
    answers: &mut Vec<ModuleAnswer>,
) -> Result<Vec<FastCheckDiagnostic>, AllocError>
    requires { OwnsAll input.root_symbol.now module_ranges.entries }
    ensures faults { let i = input.entry in IfOk result (λ diagnostics.
        AllZip Diagnoses (package_faults (first_alone i) i.graph.now i.root_symbol.now module_ranges.entries) diagnostics.items) }
    ensures shown { let i = input.entry in let sound = sound_front (first_alone i) i.graph.now i.root_symbol.now module_ranges.entries in
        OnOk result (ShowsMore i.graph.now (tree_modules i.root_symbol.now sound) answers.old.items answers.new.items) }
{
    let mut diagnostics = Vec::new(alloc);
    for (specifier, public_ranges) in module_ranges {
        let answered = answers.len();
        let more = answer_module(alloc, input, specifier, public_ranges, answers)?;
        add_diagnostics(more, &mut diagnostics, answered, answers)?;
        if ends_early(input.options, &diagnostics) {
            return Ok(diagnostics);
        }
    }
    Ok(diagnostics)
}

/// An entry point, answered by a copy of what is wrong with its package.
fn refused(
    alloc: Global,
    entrypoint: Url,
    diagnostics: &[FastCheckDiagnostic],
) -> Result<ModuleAnswer, AllocError>
    ensures { IfOk result (IsRefused diagnostics.now entrypoint) }
{
    Ok((entrypoint, Err(diagnostics.to_vec(alloc)?)))
}

/// Each entry point, in order, answered by what is wrong with the package.
fn refuse(
    alloc: Global,
    entrypoints: BTreeSet<Url>,
    diagnostics: &[FastCheckDiagnostic],
) -> Result<Vec<ModuleAnswer>, AllocError>
    ensures { IfOk result (λ answers. AllZip (IsRefused diagnostics.now) entrypoints.keys answers.items) }
{
    let mut answers = Vec::new(alloc);
    for entrypoint in entrypoints {
        answers.push(refused(alloc, entrypoint, diagnostics)?)?;
    }
    Ok(answers)
}

/// The answer of a package: the skeletons of its modules where nothing is wrong, and else the diagnostics at each entry point.
pub(crate) fn skeletons_or_diagnostics(
    alloc: Global,
    entrypoints: BTreeSet<Url>,
    skeletons: Vec<ModuleAnswer>,
    diagnostics: &[FastCheckDiagnostic],
) -> Result<Vec<ModuleAnswer>, AllocError>
    ensures skeletons { IfOk result (λ answers. diagnostics.now ≡ [] → answers.items ≡ skeletons.items) }
    ensures diagnostics { IfOk result (λ answers. diagnostics.now ≢ [] → AllZip (IsRefused diagnostics.now) entrypoints.keys answers.items) }
{
    if diagnostics.is_empty() {
        return Ok(skeletons);
    }
    let answers = refuse(alloc, entrypoints, diagnostics)?;
    Ok(answers)
}

/// The answer of a package that no cache answers.
fn answer_found(
    alloc: Global,
    input: BuildInput<'_>,
    package_ranges: PackagePublicRanges,
) -> Result<Vec<ModuleAnswer>, AllocError>
    requires own { OwnsAll input.root_symbol.now package_ranges.module_ranges.entries }
    ensures { let i = input.entry in IfOk result (λ made. IsFoundAnswer i.graph.now i.root_symbol.now package_ranges (first_alone i) made.items) }
{
    let PackagePublicRanges {
        entrypoints,
        module_ranges,
        cache_items: _,
        dependencies: _,
    } = package_ranges;
    let mut skeletons = Vec::new(alloc);
    let diagnostics = answer_modules(alloc, input, module_ranges, &mut skeletons)?;
    let answers = skeletons_or_diagnostics(alloc, entrypoints, skeletons, &diagnostics)?;
    Ok(answers)
}

/// The answer of a package by its public ranges, or by its item of a cache. In the second case each cached module is answered by its cached
/// skeleton, or else by `Cached`, in their order, and nothing goes to the entry points. In the first, where nothing is wrong with it, each module
/// with a syntax tree is answered by its skeleton, in the order of the specifiers. Else each entry point, in order, is answered by all that is
/// wrong with the modules, and no module by a skeleton; with `should_error_on_first_diagnostic` by what the finder found wrong with the first
/// faulty module, or by its first fault.
///
/// This is what `build_fast_check_type_graph` of deno_graph does with each package where no cache is lent. The public ranges of a module with a
/// syntax tree have to be of its own declarations, as those that the finder answers are. An `Err` says that memory ran out.
#[tactic(auto, using(crate::proofs::Turns::by_found, crate::proofs::Turns::by_used))]
pub fn answer_package(
    alloc: Global,
    input: BuildInput<'_>,
    package_ranges: PackagePublicRanges,
) -> Result<Vec<ModuleAnswer>, AllocError>
    requires own { OwnsAll input.root_symbol.now package_ranges.module_ranges.entries }
    ensures { let i = input.entry in IfOk result (λ made. IsPackageAnswer i.graph.now i.root_symbol.now package_ranges (first_alone i) made.items) }
{
    if package_ranges.cache_items.is_empty() {
        let answers = answer_found(alloc, input, package_ranges)?;
        return Ok(answers);
    }
    let answers = used_answers(alloc, package_ranges.cache_items)?;
    Ok(answers)
}
