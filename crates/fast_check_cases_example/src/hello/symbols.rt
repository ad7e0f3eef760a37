//! The symbols of the module, as their analysis gives them: the module itself, and `hello`, which it declares and exports.

use crate::hello::source::MODULE;
use fast_check::tables::{
    ModuleTables, Symbol, SymbolDecl, SymbolDeclKind, SymbolDecls, SymbolExports, SymbolId,
    SymbolNode,
};
use fast_check::tree::{Atom, Id, SourceRange};
use std::alloc::{AllocError, Global};
use url::Url;

const ROOT: SymbolId = SymbolId(0);

const HELLO: SymbolId = SymbolId(1);

/// A symbol without declarations.
fn symbol(alloc: Global, id: SymbolId) -> Result<Symbol, AllocError> {
    Ok(Symbol {
        id,
        parent_id: None,
        is_private_member: false,
        maybe_name: None,
        qualified_name: None,
        exports: SymbolExports::new(alloc),
        members: Vec::new(alloc),
        decls: SymbolDecls::new(alloc, Vec::new(alloc))?,
    })
}

/// The symbol of the module, which exports `hello`.
fn module_symbol(alloc: Global) -> Result<Symbol, AllocError> {
    let name = String::from_str(alloc, "hello")?;
    let mut module = symbol(alloc, ROOT)?;
    module.exports.put(name, HELLO)?;
    Ok(module)
}

/// The declaration of `hello`, by the range of its declarator: a value that refers to no other name.
fn declaration(alloc: Global, range: SourceRange) -> SymbolDecl {
    let node = SymbolNode {
        is_class: false,
        is_member: false,
        is_function: false,
        is_ts_namespace: false,
        is_default_class_expr: false,
        is_plain_class_decl: false,
        has_export_keyword: true,
        deps: Vec::new(alloc),
    };
    SymbolDecl {
        range,
        value: true,
        type_: false,
        has_overloads: false,
        has_body: false,
        kind: SymbolDeclKind::Definition(Some(node)),
    }
}

/// The symbol of `hello`.
fn hello_symbol(alloc: Global, range: SourceRange) -> Result<Symbol, AllocError> {
    let name = String::from_str(alloc, "hello")?;
    let qualified_name = String::from_str(alloc, "hello")?;
    let decls = Vec::from_array(alloc, [declaration(alloc, range)])?;
    Ok(Symbol {
        parent_id: Some(ROOT),
        maybe_name: Some(name),
        qualified_name: Some(qualified_name),
        decls: SymbolDecls::new(alloc, decls)?,
        ..symbol(alloc, HELLO)?
    })
}

/// Both symbols.
fn symbols(alloc: Global, range: SourceRange) -> Result<Vec<Symbol>, AllocError> {
    let module = module_symbol(alloc)?;
    let hello = hello_symbol(alloc, range)?;
    Ok(Vec::from_array(alloc, [module, hello])?)
}

/// Which symbol an identifier stands for.
fn identifiers(alloc: Global) -> Result<Vec<(Id, SymbolId)>, AllocError> {
    let hello = Id(Atom::from_str(alloc, "hello")?, MODULE);
    Ok(Vec::from_array(alloc, [(hello, HELLO)])?)
}

/// Which module an exported name leads to: its own.
fn resolved_exports(alloc: Global, specifier: &Url) -> Result<Vec<(String, Url)>, AllocError> {
    let name = String::from_str(alloc, "hello")?;
    let specifier = specifier.clone()?;
    Ok(Vec::from_array(alloc, [(name, specifier)])?)
}

/// The tables of the module of this name, where the declarator of `hello` has this range.
pub fn module_tables(
    alloc: Global,
    specifier: &Url,
    range: SourceRange,
) -> Result<ModuleTables, AllocError> {
    let swc_ids = identifiers(alloc)?;
    let resolved_exports = resolved_exports(alloc, specifier)?;
    let symbols = symbols(alloc, range)?;
    Ok(ModuleTables {
        symbols,
        module_symbol: ROOT,
        swc_ids,
        re_export_all_nodes: Vec::new(alloc),
        resolved_exports,
    })
}
