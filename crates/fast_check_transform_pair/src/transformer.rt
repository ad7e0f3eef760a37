//! A transformer that keeps what is wrong.
ghost use Rattle.std.specs.Prelude.{◌≡◌, ◌↔◌, [], true, IfOk, IsOk, IfErr, IsTrue};
ghost use Rattle.fast_check_meaning_skeleton.specs.Grammar.{IsSkeleton};
ghost use Rattle.fast_check_tables_diagnostics.specs.parsed_source.MediaType.{is_declaration};
ghost use Rattle.fast_check_tables_modules.specs.EsModule.{Admits};
ghost use Rattle.fast_check_transform_nodes.specs.Bindings.{bindings_of};
ghost use Rattle.fast_check_transform_module.specs.transform_faults.Diagnostics.{AreDiagnosticsOf, diagnosed};

use fast_check_tables_graph::ModuleGraph;
use fast_check_tables_modules::EsModuleInfo;
use fast_check_tables_modules::diagnostics::{FastCheckDiagnostic, ModulePublicRanges};
use fast_check_transform_module::transform_faults::diagnose;
use fast_check_transform_module::{KeptModule, transform_es_module};
use fast_check_tree_comments::Comments;
use fast_check_tree_syntax::Tree;
use std::alloc::{AllocError, Global};

/// Transforms a module, and keeps its diagnostics beside its skeleton. `transform` answers the one or the other.
#[derive(Drop)]
pub struct FastCheckTransformer<'a> {
    graph: &'a ModuleGraph,
    es_module_info: &'a EsModuleInfo,
    public_ranges: &'a ModulePublicRanges,
    should_error_on_first_diagnostic: bool,
    /// The list of the last call, None before the first one.
    diagnostics: Option<Vec<FastCheckDiagnostic>>,
}

impl<'a> FastCheckTransformer<'a> {
    ghost use Rattle.fast_check_transform_pair.specs.Transformer.{transformer_of, own_skeleton, own_comments, own_faults, kept_faults};

    /// A transformer of a module of this graph, which has reported nothing so far. The module has to admit the public ranges. It takes no memory.
    pub fn new(
        graph: &'a ModuleGraph,
        es_module_info: &'a EsModuleInfo,
        public_ranges: &'a ModulePublicRanges,
        should_error_on_first_diagnostic: bool,
    ) -> Self
        requires admitted { Admits es_module_info.now public_ranges.now }
        ensures graph { (transformer_of result).graph ≡ graph.now }
        ensures es_module_info { (transformer_of result).es_module_info ≡ es_module_info.now }
        ensures public_ranges { (transformer_of result).public_ranges ≡ public_ranges.now }
        ensures first_alone { (transformer_of result).first_alone ≡ should_error_on_first_diagnostic }
        ensures diagnostics { (transformer_of result).diagnostics ≡ [] }
    {
        FastCheckTransformer {
            graph,
            es_module_info,
            public_ranges,
            should_error_on_first_diagnostic,
            diagnostics: None,
        }
    }

    /// What is public of the module, and the comments that stay with it. What is wrong with it are the `diagnostics` from then on, and those of an
    /// earlier call go. The skeleton of a module with faults is not to be used. Under the option the first fault is answered in its place, and no
    /// diagnostics are kept.
    ///
    /// An `Err` outside says that memory ran out, after which the diagnostics may be any.
    pub fn transform(
        &mut self,
        alloc: Global,
    ) -> Result<Result<(Tree, Comments), Vec<FastCheckDiagnostic>>, AllocError>
        ensures ok { let t = transformer_of self.old in
            IfOk result (λ answer. IsOk answer ↔ (IsTrue t.first_alone → own_faults t ≡ [])) }
        ensures skeleton { let t = transformer_of self.old in
            IfOk result (λ answer. IfOk answer (λ made. own_faults t ≡ [] → made.0 ≡ own_skeleton t)) }
        ensures grammar { let t = transformer_of self.old in
            IfOk result (λ answer. IfOk answer (λ made. own_faults t ≡ [] →
            IsSkeleton (bindings_of t.es_module_info) (is_declaration t.es_module_info.source.media_type) made.0)) }
        ensures comments { let t = transformer_of self.old in
            IfOk result (λ answer. IfOk answer (λ made. own_faults t ≡ [] → made.1 ≡ own_comments t)) }
        ensures first_fault { let t = transformer_of self.old in
            IfOk result (λ answer. IfErr answer (λ diagnostics. AreDiagnosticsOf t.es_module_info (diagnosed true (own_faults t)) diagnostics.items)) }
        ensures diagnostics { let t = transformer_of self.old in
            IfOk result (λ _. AreDiagnosticsOf t.es_module_info (kept_faults t) (transformer_of self.new).diagnostics) }
        ensures unchanged { transformer_of self.new ≡ record (transformer_of self.old) { diagnostics = (transformer_of self.new).diagnostics } }
    {
        self.diagnostics = None;
        let KeptModule {
            program,
            comments,
            faults,
        } = transform_es_module(alloc, self.graph, self.es_module_info, self.public_ranges)?;
        if self.should_error_on_first_diagnostic && !faults.is_empty() {
            return Ok(Err(diagnose(alloc, self.es_module_info, faults, true)?));
        }
        self.diagnostics = Some(diagnose(alloc, self.es_module_info, faults, false)?);
        Ok(Ok((program, comments)))
    }

    /// What is wrong with the module by the last call of `transform`, in reading order.
    pub fn diagnostics(&self) -> &[FastCheckDiagnostic]
        ensures { result.now ≡ (transformer_of self.now).diagnostics }
    {
        match &self.diagnostics {
            Some(diagnostics) => diagnostics.as_slice(),
            None => &[],
        }
    }
}
