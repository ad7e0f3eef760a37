//! A module of the graph, as far as fast check asks of it.
ghost use Rattle.std.specs.Prelude.{◌≡◌};
ghost use Rattle.fast_check_tables_graph.specs.Modules.{is_typed_module, is_external, hash_of};

use fast_check_tables_modules::MediaType;

/// A module of the graph, by what is known of it without its source.
#[derive(Clone, Copy, Debug, PartialEq, Eq)]
pub enum Module {
    /// A module with a syntax tree.
    Js {
        media_type: MediaType,
        /// Whether another file has its types.
        has_types_dependency: bool,
        source_hash: Option<u64>,
    },
    Json {
        source_hash: Option<u64>,
    },
    Wasm {
        source_hash: Option<u64>,
    },
    /// A module of an npm package.
    Npm,
    /// A module that is built into Node.
    Node,
    /// A module that is not loaded.
    External,
}

impl Module {
    /// Whether the types of the module are known: by its media type, by a file that has its types, or since it is JSON or WebAssembly.
    pub fn is_typed(self) -> bool
        ensures { result ≡ is_typed_module self }
    {
        match self {
            Module::Js {
                media_type,
                has_types_dependency,
                ..
            } => media_type.is_typed() || has_types_dependency,
            Module::Json { .. } | Module::Wasm { .. } => true,
            Module::Npm | Module::Node | Module::External => false,
        }
    }

    /// Whether it is of an npm package, built into Node, or not loaded.
    pub fn is_external(self) -> bool
        ensures { result ≡ is_external self }
    {
        matches!(self, Module::Npm | Module::Node | Module::External)
    }

    /// The hash of its source, where it has one.
    pub fn source_hash(self) -> Option<u64>
        ensures { result ≡ hash_of self }
    {
        match self {
            Module::Js { source_hash, .. }
            | Module::Json { source_hash }
            | Module::Wasm { source_hash } => source_hash,
            Module::Npm | Module::Node | Module::External => None,
        }
    }
}
