//! The names by which modules ask for what others export.
use fast_check_source_input::Parsed;
use fast_check_tables_symbols::{FileDepName, ModuleTables, SymbolDeclKind, SymbolDep};
use std::alloc::{AllocError, Global};
use std::collections::{BTreeMap, BTreeSet};
use url::Url;

fn add_parts<'a>(parts: &'a [String], out: &mut BTreeSet<&'a str>) -> Result<(), AllocError> {
    for part in parts {
        let _ = out.insert(part.as_str())?;
    }
    Ok(())
}

fn add_dep<'a>(dep: &'a SymbolDep, out: &mut BTreeSet<&'a str>) -> Result<(), AllocError> {
    match dep {
        SymbolDep::Id(_) => Ok(()),
        SymbolDep::QualifiedId(_, parts) => add_parts(parts.as_slice(), out),
        SymbolDep::ImportType(_, parts) => add_parts(parts.as_slice(), out),
    }
}

fn add_kind<'a>(kind: &'a SymbolDeclKind, out: &mut BTreeSet<&'a str>) -> Result<(), AllocError> {
    match kind {
        SymbolDeclKind::QualifiedTarget(_, parts) => add_parts(parts.as_slice(), out)?,
        SymbolDeclKind::FileRef {
            name: FileDepName::Name(name),
            ..
        } => {
            let _ = out.insert(name.as_str())?;
        }
        SymbolDeclKind::Definition(Some(node)) => {
            for dep in node.deps.iter() {
                add_dep(&dep.dep, out)?;
            }
        }
        _ => {}
    }
    Ok(())
}

fn add_tables<'a>(tables: &'a ModuleTables, out: &mut BTreeSet<&'a str>) -> Result<(), AllocError> {
    for symbol in tables.symbols.iter() {
        for decl in symbol.decls.as_slice() {
            add_kind(&decl.kind, out)?;
        }
    }
    Ok(())
}

/// All names by which a module may be asked for one export: those of imports and re-exports, those below other names, and `default`.
pub fn asked_names<'a>(
    alloc: Global,
    modules: &'a BTreeMap<Url, Parsed>,
) -> Result<BTreeSet<&'a str>, AllocError> {
    let mut names = BTreeSet::new(alloc);
    let _ = names.insert("default")?;
    for module in modules.values() {
        add_tables(&module.tables, &mut names)?;
    }
    Ok(names)
}
