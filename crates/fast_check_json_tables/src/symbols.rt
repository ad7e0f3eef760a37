//! Symbols, with their declarations and what these refer to.

ghost use Rattle.serde_json.specs.View.{view};
ghost use Rattle.fast_check_json_tables.specs.graph.Reads.{Reads};
ghost use Rattle.fast_check_json_tables.specs.Seen as seen;
ghost use Rattle.fast_check_json_tables.specs.Symbols as symbols;

use crate::graph::{
    FromJson, Gather, both, gather_all, read_flag, read_list, read_member, read_member_or,
    read_option, read_variant,
};
use fast_check_read::{ReadError, read_members, read_pair, read_text};
use fast_check_tables_symbols::{
    FileDepName, ReferenceNamespace, Symbol, SymbolDecl, SymbolDeclKind, SymbolDecls, SymbolDep,
    SymbolExports, SymbolId, SymbolNode, SymbolNodeDep,
};
use fast_check_tree_syntax::DUMMY_SP;
use serde_json::Value;
use std::alloc::Global;

/// An object of one member: `Id`, `QualifiedId` or `ImportType`.
fn read_dep(alloc: Global, value: &Value) -> Result<SymbolDep, ReadError>
    ensures { Reads seen.dep (symbols.dep_of (view value.now)) result }
{
    let (name, content) = read_variant(value)?;
    match name {
        "Id" => Ok(SymbolDep::Id(FromJson::from_json(alloc, content)?)),
        "QualifiedId" => {
            let (id, parts) = FromJson::from_json(alloc, content)?;
            Ok(SymbolDep::QualifiedId(id, parts))
        }
        "ImportType" => {
            let (specifier, parts) = FromJson::from_json(alloc, content)?;
            Ok(SymbolDep::ImportType(specifier, parts))
        }
        _ => Err(ReadError::BadForm),
    }
}

/// `Value`, `Type_` or `Both`.
fn read_namespace(value: &Value) -> Result<ReferenceNamespace, ReadError>
    ensures { Reads (λ namespace. namespace) (symbols.namespace_of (view value.now)) result }
{
    match read_text(value)? {
        "Value" => Ok(ReferenceNamespace::Value),
        "Type_" => Ok(ReferenceNamespace::Type_),
        "Both" => Ok(ReferenceNamespace::Both),
        _ => Err(ReadError::BadForm),
    }
}

/// An array of what is referred to and its namespaces.
impl FromJson for SymbolNodeDep {
    ghost use Rattle.fast_check_tables_symbols.specs.declared.node.ReferenceNamespace.{ReferenceNamespace};

    ghost Seen = { seen.Dep × ReferenceNamespace };

    ghost seen = { seen.node_dep };

    ghost read_of = { symbols.node_dep_of };

    fn from_json(alloc: Global, value: &Value) -> Result<SymbolNodeDep, ReadError> {
        let (dep, namespace) = read_pair(value)?;
        let (dep, namespace) = both(read_dep(alloc, dep), read_namespace(namespace))?;
        Ok(SymbolNodeDep { dep, namespace })
    }
}

/// An object of flags and `deps`.
impl FromJson for SymbolNode {
    ghost Seen = { seen.Node };

    ghost seen = { seen.node };

    ghost read_of = { symbols.node_of };

    fn from_json(alloc: Global, value: &Value) -> Result<SymbolNode, ReadError> {
        read_members(value)?;
        Ok(SymbolNode {
            is_class: read_flag(value, "is_class")?,
            is_member: read_flag(value, "is_member")?,
            is_function: read_flag(value, "is_function")?,
            is_ts_namespace: read_flag(value, "is_ts_namespace")?,
            is_default_class_expr: read_flag(value, "is_default_class_expr")?,
            is_plain_class_decl: read_flag(value, "is_plain_class_decl")?,
            has_export_keyword: read_flag(value, "has_export_keyword")?,
            deps: read_list(alloc, value, "deps")?,
        })
    }
}

/// `"Star"`, or an object of one member `Name`.
impl FromJson for FileDepName {
    ghost Seen = { seen.FileName };

    ghost seen = { seen.file_name };

    ghost read_of = { symbols.file_name_of };

    fn from_json(alloc: Global, value: &Value) -> Result<FileDepName, ReadError> {
        if let Ok(text) = read_text(value) {
            return match text {
                "Star" => Ok(FileDepName::Star),
                _ => Err(ReadError::BadForm),
            };
        }
        let (name, content) = read_variant(value)?;
        match name {
            "Name" => Ok(FileDepName::Name(FromJson::from_json(alloc, content)?)),
            _ => Err(ReadError::BadForm),
        }
    }
}

/// An object of one member: `Target`, `QualifiedTarget`, `FileRef` or `Definition`.
impl FromJson for SymbolDeclKind {
    ghost Seen = { seen.DeclKind };

    ghost seen = { seen.decl_kind };

    ghost read_of = { symbols.decl_kind_of };

    fn from_json(alloc: Global, value: &Value) -> Result<SymbolDeclKind, ReadError> {
        let (name, content) = read_variant(value)?;
        match name {
            "Target" => Ok(SymbolDeclKind::Target(FromJson::from_json(alloc, content)?)),
            "QualifiedTarget" => {
                let (id, parts) = FromJson::from_json(alloc, content)?;
                Ok(SymbolDeclKind::QualifiedTarget(id, parts))
            }
            "FileRef" => read_file_ref(alloc, content),
            "Definition" => Ok(SymbolDeclKind::Definition(FromJson::from_json(alloc, content)?)),
            _ => Err(ReadError::BadForm),
        }
    }
}

/// What another file exports: an object of `specifier` and `name`.
fn read_file_ref(alloc: Global, value: &Value) -> Result<SymbolDeclKind, ReadError>
    ensures { Reads seen.decl_kind (symbols.file_ref_of (view value.now)) result }
{
    Ok(SymbolDeclKind::FileRef {
        specifier: read_member(alloc, value, "specifier")?,
        name: read_member(alloc, value, "name")?,
    })
}

/// An object of a declaration's range, its flags and its kind.
impl FromJson for SymbolDecl {
    ghost Seen = { seen.Decl };

    ghost seen = { seen.decl };

    ghost read_of = { symbols.decl_of };

    fn from_json(alloc: Global, value: &Value) -> Result<SymbolDecl, ReadError> {
        Ok(SymbolDecl {
            range: read_member_or(alloc, value, "range", DUMMY_SP)?,
            value: read_flag(value, "value")?,
            type_: read_flag(value, "type_")?,
            has_overloads: read_flag(value, "has_overloads")?,
            has_body: read_flag(value, "has_body")?,
            kind: read_member(alloc, value, "kind")?,
        })
    }
}

impl Gather for SymbolExports {
    ghost use Rattle.std.specs.Prelude.{List, ℕ};
    ghost use Rattle.fast_check_tables_symbols.specs.declared.symbol_id.SymbolId.{SymbolId};
    ghost use Rattle.fast_check_tables_symbols.specs.Exports.{put_export};

    ghost Gathered = { List (List ℕ × SymbolId) };

    ghost Item = { List ℕ × SymbolId };

    ghost gathered = { λ exports. exports };

    ghost with = { λ exports item. put_export item.0 item.1 exports };

    ghost item_of = { symbols.export_of };

    fn gather(&mut self, alloc: Global, value: &Value) -> Result<(), ReadError> {
        let (name, id) = FromJson::from_json(alloc, value)?;
        self.put(name, id)?;
        Ok(())
    }
}

/// An array of names with the symbols that they stand for. Of entries with one name the last counts.
impl FromJson for SymbolExports {
    ghost use Rattle.std.specs.Prelude.{List, ℕ};
    ghost use Rattle.fast_check_tables_symbols.specs.declared.symbol_id.SymbolId.{SymbolId};

    ghost Seen = { List (List ℕ × SymbolId) };

    ghost seen = { λ exports. exports };

    ghost read_of = { symbols.exports_of };

    fn from_json(alloc: Global, value: &Value) -> Result<SymbolExports, ReadError> {
        gather_all(alloc, value, SymbolExports::new(alloc))
    }
}

/// An object of what is known of a symbol.
impl FromJson for Symbol {
    ghost Seen = { seen.SeenSymbol };

    ghost seen = { seen.symbol };

    ghost read_of = { symbols.symbol_of };

    fn from_json(alloc: Global, value: &Value) -> Result<Symbol, ReadError> {
        let id = read_member(alloc, value, "id")?;
        let parent_id = read_option(alloc, value, "parent_id")?;
        let is_private_member = read_flag(value, "is_private_member")?;
        let names = both(
            read_option(alloc, value, "maybe_name"),
            read_option(alloc, value, "qualified_name"),
        );
        let exports = read_member_or(alloc, value, "exports", SymbolExports::new(alloc));
        let lists = both(
            read_list(alloc, value, "members"),
            read_list(alloc, value, "decls"),
        );
        let (names, (exports, (members, decls))) = both(names, both(exports, lists))?;
        let (maybe_name, qualified_name) = names;
        let decls = SymbolDecls::new(alloc, decls)?;
        Ok(Symbol {
            id,
            parent_id,
            is_private_member,
            maybe_name,
            qualified_name,
            exports,
            members,
            decls,
        })
    }
}
