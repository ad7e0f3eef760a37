//! What is asked of a module beside its tree, as the code is lent it.
ghost use Rattle.std.specs.Prelude.{◌≡◌};
ghost use Rattle.std.specs.Option.{option_copied};

use fast_check_tables_modules::EsModuleInfo;
use fast_check_tables_modules::diagnostics::ModulePublicRanges;
use fast_check_transform_nodes::Bindings;
use fast_check_tree_forms_statements::TsModuleDecl;
use fast_check_tree_syntax::Part;
use std::collections::BTreeMap;
use url::Url;

/// What the transform asks beside the tree.
#[derive(Clone, Copy)]
pub struct ModuleFacts<'a> {
    /// What the texts of its imports resolve to, where the graph has some.
    pub resolutions: Option<&'a BTreeMap<String, Url>>,
    pub es_module_info: &'a EsModuleInfo,
    pub bindings: Bindings<'a>,
    pub public_ranges: &'a ModulePublicRanges,
    /// Whether all that stands here is ambient: in a declaration file, or inside of a namespace with `declare`.
    pub is_ambient: bool,
}

impl<'a> ModuleFacts<'a> {
    ghost use Rattle.fast_check_tree_syntax.specs.Part.{seen};
    ghost use Rattle.fast_check_meaning_skeleton.specs.ModuleFacts.{inside};
    ghost use Rattle.fast_check_transform_imports.specs.module_facts.ModuleFacts.{facts_of, facts_by};

    /// What is asked of a module whose texts resolve to these, with these public ranges.
    pub fn of(
        resolutions: Option<&'a BTreeMap<String, Url>>,
        es_module_info: &'a EsModuleInfo,
        public_ranges: &'a ModulePublicRanges,
    ) -> Self
        ensures { facts_of result ≡ facts_by (option_copied resolutions.entry) es_module_info.now public_ranges.now }
    {
        ModuleFacts {
            resolutions,
            es_module_info,
            bindings: Bindings::of(es_module_info),
            public_ranges,
            is_ambient: es_module_info.source().media_type.is_declaration(),
        }
    }

    /// What is asked of the items of a namespace: inside of one with `declare` all is ambient.
    pub fn inside(self, decl: Part<'_>) -> Self
        ensures { facts_of result ≡ inside (facts_of self.entry) (seen decl.entry) }
    {
        ModuleFacts {
            resolutions: self.resolutions,
            es_module_info: self.es_module_info,
            bindings: self.bindings,
            public_ranges: self.public_ranges,
            is_ambient: self.is_ambient || TsModuleDecl::of(decl).declare,
        }
    }
}
