//! What a build writes of a package to a cache.
ghost use Rattle.std.specs.Prelude.{◌≡◌, map, IfOk};
ghost use Rattle.fast_check_build_answers.specs.Kept.{entry_of, kept_info, kept_diagnostic};
ghost use Rattle.fast_check_build_answers.specs.KeptAnswers.{kept_answer, kept_answers, named_in};

use crate::answer::ModuleAnswer;
use fast_check_tables_cache::{
    FastCheckCacheModuleItem, FastCheckCacheModuleItemDiagnostic, FastCheckCacheModuleItemInfo,
    source_hash,
};
use fast_check_tables_diagnostics::parsed_source::FastCheckModule;
use fast_check_tables_graph::ModuleGraph;
use fast_check_tables_modules::diagnostics::FastCheckDiagnostic;
use fast_check_tree_syntax::clone_tree;
use std::alloc::{AllocError, Global};
use url::Url;

/// A cached module.
type KeptModule = (Url, FastCheckCacheModuleItem);

/// What is cached of a module with a skeleton: a copy of it, with the hash of the source.
fn keep_skeleton(
    alloc: Global,
    graph: &ModuleGraph,
    specifier: &Url,
    made: &FastCheckModule,
) -> Result<KeptModule, AllocError>
    ensures { IfOk result (λ kept. entry_of kept
        ≡ kept_info graph.now specifier.now made.now.module_info.sources.items made.now.program made.now.comments) }
{
    let info = FastCheckCacheModuleItemInfo {
        source_hash: source_hash(graph, specifier),
        module_info: made.module_info.clone()?,
        program: clone_tree(alloc, &made.program)?,
        comments: made.comments.clone()?,
    };
    Ok((specifier.clone()?, FastCheckCacheModuleItem::Info(info)))
}

/// What is cached of a module without a skeleton: the hash of the source.
fn keep_diagnostic(graph: &ModuleGraph, specifier: &Url) -> Result<KeptModule, AllocError>
    ensures { IfOk result (λ kept. entry_of kept ≡ kept_diagnostic graph.now specifier.now) }
{
    let diagnostic = FastCheckCacheModuleItemDiagnostic {
        source_hash: source_hash(graph, specifier),
    };
    Ok((
        specifier.clone()?,
        FastCheckCacheModuleItem::Diagnostic(diagnostic),
    ))
}

/// What is cached of a module that is answered.
fn keep_answer(
    alloc: Global,
    graph: &ModuleGraph,
    answer: &ModuleAnswer,
) -> Result<KeptModule, AllocError>
    ensures { IfOk result (λ kept. entry_of kept ≡ kept_answer graph.now answer.now) }
{
    let (specifier, made) = answer;
    match made {
        Ok(made) => keep_skeleton(alloc, graph, specifier, made),
        Err(_) => keep_diagnostic(graph, specifier),
    }
}

/// What is cached of modules that are answered.
fn keep_answers(
    alloc: Global,
    graph: &ModuleGraph,
    answers: &[ModuleAnswer],
) -> Result<Vec<KeptModule>, AllocError>
    ensures { IfOk result (λ kept. map entry_of kept.items ≡ map (kept_answer graph.now) answers.now) }
{
    let mut kept = Vec::new(alloc);
    for answer in answers {
        kept.push(keep_answer(alloc, graph, answer)?)?;
    }
    Ok(kept)
}

/// What is cached of a package with which something is wrong: that the modules before the first wrong one, and those that something is wrong with,
/// have no skeletons.
fn keep_faulty(
    alloc: Global,
    graph: &ModuleGraph,
    answers: &[ModuleAnswer],
    diagnostics: &[FastCheckDiagnostic],
) -> Result<Vec<KeptModule>, AllocError>
    ensures { IfOk result (λ kept. map entry_of kept.items ≡ map (kept_diagnostic graph.now) (named_in answers.now diagnostics.now)) }
{
    let mut kept = Vec::new(alloc);
    for (specifier, _) in answers {
        kept.push(keep_diagnostic(graph, specifier)?)?;
    }
    for diagnostic in diagnostics {
        kept.push(keep_diagnostic(graph, diagnostic.specifier())?)?;
    }
    Ok(kept)
}

/// What is cached of the modules of a package.
pub(crate) fn keep_modules(
    alloc: Global,
    graph: &ModuleGraph,
    answers: &[ModuleAnswer],
    diagnostics: &[FastCheckDiagnostic],
) -> Result<Vec<KeptModule>, AllocError>
    ensures { IfOk result (λ kept. map entry_of kept.items ≡ kept_answers graph.now answers.now diagnostics.now) }
{
    if diagnostics.is_empty() {
        return keep_answers(alloc, graph, answers);
    }
    keep_faulty(alloc, graph, answers, diagnostics)
}
