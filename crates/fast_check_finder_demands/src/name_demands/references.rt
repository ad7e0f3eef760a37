//! What a demand of a module asks of other files: by file references, import types and aliases.
ghost use Rattle.std.specs.Prelude.{◌≡◌, ◌++◌, OnOk, IfOk};
ghost use Rattle.std.specs.List.{flat_map};
ghost use Rattle.fast_check_finder_lattice.specs.Names.{path_of};
ghost use Rattle.fast_check_finder_demands.specs.symbol_demands.Demands.{asked_of, demand_of};
ghost use Rattle.fast_check_finder_demands.specs.name_demands.Files.{dep_files, deps_files, kind_files, decl_files, symbol_files, alias_files, asked_files, files};

use crate::name_demands::list::FileDependencies;
use crate::name_demands::name_demand::{by_import, by_path_in_file, by_reference};
use crate::{Ask, CheckedTables, Extent, Namespaces, SymbolDemand, binds};
use fast_check_tables_symbols::{
    Symbol, SymbolDecl, SymbolDeclKind, SymbolDecls, SymbolDep, SymbolNodeDep,
};
use std::alloc::{AllocError, Global};

fn push_dep<'a>(dep: &'a SymbolDep, out: &mut FileDependencies<'a>) -> Result<(), AllocError>
    ensures { OnOk result (out.new ≡ out.old ++ dep_files dep.now) }
{
    match dep {
        SymbolDep::ImportType(specifier, parts) => {
            out.push(specifier.as_str(), by_import(parts.as_slice()))
        }
        SymbolDep::Id(_) | SymbolDep::QualifiedId(_, _) => Ok(()),
    }
}

fn push_deps<'a>(
    deps: &'a [SymbolNodeDep],
    out: &mut FileDependencies<'a>,
) -> Result<(), AllocError>
    ensures { OnOk result (out.new ≡ out.old ++ deps_files deps.now) }
{
    for dep in deps {
        push_dep(&dep.dep, out)?;
    }
    Ok(())
}

fn push_kind<'a>(kind: &'a SymbolDeclKind, out: &mut FileDependencies<'a>) -> Result<(), AllocError>
    ensures { OnOk result (out.new ≡ out.old ++ kind_files kind.now) }
{
    match kind {
        SymbolDeclKind::FileRef { specifier, name } => {
            out.push(specifier.as_str(), by_reference(name))
        }
        SymbolDeclKind::Definition(Some(node)) => push_deps(node.deps.as_slice(), out),
        SymbolDeclKind::Target(_)
        | SymbolDeclKind::QualifiedTarget(_, _)
        | SymbolDeclKind::Definition(None) => Ok(()),
    }
}

fn push_decl<'a>(
    namespaces: Namespaces,
    decl: &'a SymbolDecl,
    out: &mut FileDependencies<'a>,
) -> Result<(), AllocError>
    ensures { OnOk result (out.new ≡ out.old ++ decl_files namespaces decl.now) }
{
    if binds(decl, namespaces) && !decl.is_implementation() {
        push_kind(&decl.kind, out)
    } else {
        Ok(())
    }
}

fn push_decls<'a>(
    namespaces: Namespaces,
    decls: &'a [SymbolDecl],
    out: &mut FileDependencies<'a>,
) -> Result<(), AllocError>
    ensures { OnOk result (out.new ≡ out.old ++ flat_map (decl_files namespaces) decls.now) }
{
    for decl in decls {
        push_decl(namespaces, decl, out)?;
    }
    Ok(())
}

fn push_symbol<'a>(
    namespaces: Namespaces,
    symbol: &'a Symbol,
    out: &mut FileDependencies<'a>,
) -> Result<(), AllocError>
    ensures { OnOk result (out.new ≡ out.old ++ symbol_files namespaces symbol.now) }
{
    if symbol.is_private_member {
        return Ok(());
    }
    push_decls(namespaces, symbol.decls.as_slice(), out)
}

fn push_alias<'a>(
    names: &'a [String],
    extent: Extent,
    kind: &'a SymbolDeclKind,
    out: &mut FileDependencies<'a>,
) -> Result<(), AllocError>
    ensures { OnOk result (out.new ≡ out.old ++ alias_files (path_of names.now) extent kind.now) }
{
    match kind {
        SymbolDeclKind::FileRef { specifier, name } => {
            out.push(specifier.as_str(), by_path_in_file(name, names, extent))
        }
        SymbolDeclKind::Target(_)
        | SymbolDeclKind::QualifiedTarget(_, _)
        | SymbolDeclKind::Definition(_) => Ok(()),
    }
}

fn push_aliases<'a>(
    names: &'a [String],
    extent: Extent,
    decls: &'a [SymbolDecl],
    out: &mut FileDependencies<'a>,
) -> Result<(), AllocError>
    ensures { OnOk result (out.new ≡ out.old ++ flat_map (λ d. alias_files (path_of names.now) extent d.kind) decls.now) }
{
    for decl in decls {
        push_alias(names, extent, &decl.kind, out)?;
    }
    Ok(())
}

/// Pushes what a path below a symbol asks of other files by its aliases.
fn push_path<'a>(
    names: &'a [String],
    extent: Extent,
    decls: &'a SymbolDecls,
    out: &mut FileDependencies<'a>,
) -> Result<(), AllocError>
    ensures { OnOk result (out.new ≡ out.old ++ flat_map (λ d. alias_files (path_of names.now) extent d.kind) decls.now.items) }
{
    if decls.has_alias() {
        return push_aliases(names, extent, decls.as_slice(), out);
    }
    Ok(())
}

fn push_asked<'a>(
    ask: Ask<'a>,
    symbol: &'a Symbol,
    out: &mut FileDependencies<'a>,
) -> Result<(), AllocError>
    ensures { OnOk result (out.new ≡ out.old ++ asked_files (asked_of ask.entry) symbol.now) }
{
    match ask {
        Ask::Reference(namespaces) | Ask::Child(namespaces) => push_symbol(namespaces, symbol, out),
        Ask::Path(names, extent) => push_path(names, extent, &symbol.decls, out),
    }
}

/// What a demand asks of other files.
pub fn files_of<'a>(
    alloc: Global,
    tables: &'a CheckedTables,
    demand: SymbolDemand<'a>,
) -> Result<FileDependencies<'a>, AllocError>
    ensures { IfOk result (λ out. out ≡ files tables.now (demand_of demand.entry)) }
{
    let mut out = FileDependencies::new(alloc);
    if let Some(symbol) = tables.symbol(demand.symbol) {
        push_asked(demand.ask, symbol, &mut out)?;
    }
    Ok(out)
}
