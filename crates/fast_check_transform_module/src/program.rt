//! What stays of a whole module.
ghost use Rattle.std.specs.Prelude.{◌≡◌, IfOk};
ghost use Rattle.fast_check_transform_imports.specs.module_facts.ModuleFacts.{facts_of};
ghost use Rattle.fast_check_transform_module.specs.Transform.{facts_of_module, skeleton, comments, faults};

use crate::context::TransformContext;
use crate::items::transform_items;
use fast_check_meaning_signatures::Fault;
use fast_check_tables_graph::ModuleGraph;
use fast_check_tables_modules::EsModuleInfo;
use fast_check_tables_modules::diagnostics::ModulePublicRanges;
use fast_check_transform_statements::ModuleFacts;
use fast_check_tree_comments::Comments;
use fast_check_tree_forms_programs::Module;
use fast_check_tree_syntax::Tree;
use std::alloc::{AllocError, Global};

/// The skeleton of a module, the comments that stay with it, and the faults in reading order.
#[derive(Drop)]
pub struct KeptModule {
    pub program: Tree,
    pub comments: Comments,
    pub faults: Vec<Fault>,
}

/// What is asked of a module of this graph beside its tree.
fn facts_of_module<'a>(
    graph: &'a ModuleGraph,
    es_module_info: &'a EsModuleInfo,
    public_ranges: &'a ModulePublicRanges,
) -> ModuleFacts<'a>
    ensures { facts_of result ≡ facts_of_module graph.now es_module_info.now public_ranges.now }
{
    let resolutions = graph.resolutions_of(es_module_info.specifier());
    ModuleFacts::of(resolutions, es_module_info, public_ranges)
}

/// The skeleton of the module with these tables, the comments that stay with it, and the faults: of a module with faults the tree is
/// not to be used. `transform` and `FastCheckTransformer` answer by this call. An `Err` says that memory ran out.
pub fn transform_es_module(
    alloc: Global,
    graph: &ModuleGraph,
    es_module_info: &EsModuleInfo,
    public_ranges: &ModulePublicRanges,
) -> Result<KeptModule, AllocError>
    ensures skeleton { IfOk result (λ kept. kept.program ≡ skeleton graph.now es_module_info.now public_ranges.now) }
    ensures comments { IfOk result (λ kept. kept.comments ≡ comments graph.now es_module_info.now public_ranges.now) }
    ensures faults { IfOk result (λ kept. kept.faults.items ≡ faults graph.now es_module_info.now public_ranges.now) }
{
    let facts = facts_of_module(graph, es_module_info, public_ranges);
    let source = es_module_info.source();
    let Module {
        span,
        body,
        shebang,
    } = Module::of(source.program.read());
    let mut context = TransformContext::new(alloc, source.comments.clone()?);
    let items = transform_items(alloc, facts, body, &mut context)?;
    let module = Module {
        span,
        body: Tree::list(items),
        shebang: shebang.to_tree(alloc)?,
    };
    let TransformContext {
        comments,
        faults,
        ..
    } = context;
    Ok(KeptModule {
        program: module.into_tree(alloc)?,
        comments: comments.into_comments(),
        faults,
    })
}
