//! A declaration of a symbol.
ghost use Rattle.std.specs.Prelude.{◌≡◌};

use crate::file_dep_name::FileDepName;
use crate::node::SymbolNode;
use fast_check_tree_syntax::{Id, SourceRange};

/// What a declaration binds its symbol to.
#[derive(Drop)]
pub enum SymbolDeclKind {
    /// Another symbol of the module, as in `export { a as b }`.
    Target(Id),
    /// A part of another symbol, as in `import B = A.part.part`.
    QualifiedTarget(Id, Vec<String>),
    /// What another file exports, as in `import { a } from "./a.ts"`.
    FileRef {
        specifier: String,
        name: FileDepName,
    },
    /// The declaration itself. None where it has no node of its own.
    Definition(Option<SymbolNode>),
}

/// One declaration of a symbol.
#[derive(Drop)]
pub struct SymbolDecl {
    pub range: SourceRange,
    /// Whether it binds the name as a value.
    pub value: bool,
    /// Whether it binds the name as a type.
    pub type_: bool,
    pub has_overloads: bool,
    pub has_body: bool,
    pub kind: SymbolDeclKind,
}

impl SymbolDecl {
    ghost use Rattle.fast_check_tables_symbols.specs.Decls.{decl_has_export_keyword, decl_is_plain_class, is_class_decl, is_closed_decl, is_alias};
    ghost use Rattle.fast_check_tables_symbols.specs.Decls.{is_exported_value, is_exported_type, is_implementation};

    /// Whether it stands behind the keyword `export`.
    pub fn has_export_keyword(&self) -> bool
        ensures { result ≡ decl_has_export_keyword self.now }
    {
        match &self.kind {
            SymbolDeclKind::Definition(Some(node)) => node.has_export_keyword,
            _ => false,
        }
    }

    /// Whether it is of a class without type parameters.
    pub fn is_plain_class(&self) -> bool
        ensures { result ≡ decl_is_plain_class self.now }
    {
        match &self.kind {
            SymbolDeclKind::Definition(Some(node)) => node.is_plain_class_decl,
            _ => false,
        }
    }

    /// Whether it is of a class.
    pub fn is_class(&self) -> bool
        ensures { result ≡ is_class_decl self.now }
    {
        match &self.kind {
            SymbolDeclKind::Definition(Some(node)) => node.is_class,
            _ => false,
        }
    }

    /// Whether it is of a class or a namespace, which have no more names than they list.
    pub fn is_closed(&self) -> bool
        ensures { result ≡ is_closed_decl self.now }
    {
        match &self.kind {
            SymbolDeclKind::Definition(Some(node)) => node.is_closed(),
            _ => false,
        }
    }

    /// Whether it stands for something else: another symbol, a part of one, or what a file exports.
    pub fn is_alias(&self) -> bool
        ensures { result ≡ is_alias self.now.kind }
    {
        !matches!(&self.kind, SymbolDeclKind::Definition(_))
    }

    /// Whether it stands behind the keyword `export` and binds the name as a value.
    pub fn is_exported_value(&self) -> bool
        ensures { result ≡ is_exported_value self.now }
    {
        self.has_export_keyword() && self.value
    }

    /// Whether it stands behind the keyword `export` and binds the name as a type.
    pub fn is_exported_type(&self) -> bool
        ensures { result ≡ is_exported_type self.now }
    {
        self.has_export_keyword() && self.type_
    }

    /// Whether it is the implementation of overloads.
    pub fn is_implementation(&self) -> bool
        ensures { result ≡ is_implementation self.now }
    {
        self.has_overloads && self.has_body
    }
}
