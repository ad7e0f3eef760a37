//! What a declaration depends on.
ghost use Rattle.std.specs.Prelude.{◌≡◌};

use fast_check_tree_syntax::Id;

/// In which of TypeScript's two namespaces a name is referred to.
#[derive(Clone, Copy, Debug, PartialEq, Eq)]
pub enum ReferenceNamespace {
    Value,
    Type_,
    Both,
}

/// What the source text of a declaration refers to.
#[derive(Drop)]
pub enum SymbolDep {
    /// `name`.
    Id(Id),
    /// `name.part.part`.
    QualifiedId(Id, Vec<String>),
    /// `import("specifier").part.part`.
    ImportType(String, Vec<String>),
}

/// A reference of a declaration, with the namespaces that it is looked up in.
#[derive(Drop)]
pub struct SymbolNodeDep {
    pub dep: SymbolDep,
    pub namespace: ReferenceNamespace,
}

/// What is known of the node that defines a symbol.
#[derive(Drop)]
pub struct SymbolNode {
    pub is_class: bool,
    /// A member of a class, an interface or an enum.
    pub is_member: bool,
    pub is_function: bool,
    pub is_ts_namespace: bool,
    pub is_default_class_expr: bool,
    /// A class declaration without type parameters, exported by keyword or not.
    pub is_plain_class_decl: bool,
    pub has_export_keyword: bool,
    pub deps: Vec<SymbolNodeDep>,
}

impl SymbolNode {
    ghost use Rattle.fast_check_tables_symbols.specs.Decls.{is_closed_node};

    /// Whether it is of a class or a namespace, which have no more names than they list.
    pub fn is_closed(&self) -> bool
        ensures { result ≡ is_closed_node self.now }
    {
        self.is_class || self.is_ts_namespace || self.is_default_class_expr
    }
}
