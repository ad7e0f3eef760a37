//! Two modules of one graph, each answered, with the law of two worlds.

ghost use Rattle.std.specs.Prelude.{IfOk};
ghost use Rattle.fast_check_tables_modules.specs.EsModule.{Admits};
ghost use Rattle.fast_check_transform_pair.specs.Transformed.{IsTransformed};
ghost use Rattle.fast_check_transform_pair.specs.Worlds.{KeepsHidden};
ghost use Rattle.fast_check_transform_pair.specs.Apart.{Compares};
ghost use Rattle.fast_check_transform_pair.specs.Examples.{PrivateClasses, SilentAssignments, AllChanges, ParsedChanges};

use fast_check_tables_graph::ModuleGraph;
use fast_check_tables_modules::EsModuleInfo;
use fast_check_tables_modules::diagnostics::{FastCheckDiagnostic, ModulePublicRanges};
use fast_check_transform_module::{FastCheckModule, TransformOptions, transform};
use std::alloc::{AllocError, Global};

/// The answer to a module: its skeleton, or what is wrong with it.
type TransformResult = Result<FastCheckModule, Vec<FastCheckDiagnostic>>;

/// The skeletons of two modules of one graph, as `transform` answers each: so two versions of one file are compared. Either module has to admit
/// its public ranges. An `Err` outside says that memory ran out.
///
/// Where the modules agree but for what is hidden, under a renaming of positions and scope numbers, the answers are the same under it: two
/// skeletons of the same items, but for the module's own span, with the same comments at renamed positions and the same sources, or as many
/// diagnostics, one by one of the same kind, flags and names, at renamed ranges of modules of one name. The source text that a diagnostic carries is not
/// compared. Which renaming that is, is not looked for: what is said holds of each.
///
/// There are such modules: one with a class that is not public and one without it, which agree as long as the class is not public; the same with
/// an assignment; and two that differ by hidden changes of all kinds, at the place of no text, and at the positions that a parser gives.
pub fn transform_pair(
    alloc: Global,
    graph: &ModuleGraph,
    a: &EsModuleInfo,
    ranges_a: &ModulePublicRanges,
    b: &EsModuleInfo,
    ranges_b: &ModulePublicRanges,
    options: &TransformOptions,
) -> Result<(TransformResult, TransformResult), AllocError>
    requires first_admitted { Admits a.now ranges_a.now }
    requires second_admitted { Admits b.now ranges_b.now }
    ensures first { IfOk result (λ answers. IsTransformed graph.now a.now ranges_a.now options.now.should_error_on_first_diagnostic answers.0) }
    ensures second { IfOk result (λ answers. IsTransformed graph.now b.now ranges_b.now options.now.should_error_on_first_diagnostic answers.1) }
    ensures two_worlds { IfOk result (λ answers. KeepsHidden graph.now a.now ranges_a.now b.now ranges_b.now answers.0 answers.1) }
    ensures compared { Compares }
    ensures of_private_classes { PrivateClasses }
    ensures of_silent_assignments { SilentAssignments }
    ensures of_all_changes { AllChanges }
    ensures of_parsed_changes { ParsedChanges }
{
    let first = transform(alloc, graph, a, ranges_a, options)?;
    let second = transform(alloc, graph, b, ranges_b, options)?;
    Ok((first, second))
}
