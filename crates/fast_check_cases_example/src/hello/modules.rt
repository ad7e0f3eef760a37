//! The module under its name.

use crate::hello::source::{Line, parsed_source};
use crate::hello::symbols::module_tables;
use anyhow::Result;
use fast_check::tables::{AnyModuleInfo, EsModuleInfo, RootSymbol};
use std::alloc::{AllocError, Global};
use std::collections::BTreeMap;
use url::Url;

/// The module with its symbols. What does not fit is refused here, by the fault of its tables.
pub fn es_module(alloc: Global, specifier: &Url, line: Line) -> Result<EsModuleInfo> {
    let name = specifier.clone()?;
    let source = parsed_source(alloc, line)?;
    let tables = module_tables(alloc, specifier, line.declarator)?;
    Ok(EsModuleInfo::new(alloc, name, source, tables)?)
}

/// The module under its name.
fn modules_by_name(
    alloc: Global,
    name: Url,
    module: EsModuleInfo,
) -> Result<BTreeMap<Url, AnyModuleInfo>, AllocError> {
    let mut modules = BTreeMap::new(alloc);
    modules.insert(name, AnyModuleInfo::Esm(module))?;
    Ok(modules)
}

/// The modules of a program by their names: the one of this line alone, under this name.
pub fn root_symbol(alloc: Global, specifier: &Url, line: Line) -> Result<RootSymbol> {
    let name = specifier.clone()?;
    let module = es_module(alloc, specifier, line)?;
    let modules = modules_by_name(alloc, name, module)?;
    Ok(RootSymbol::new(modules, BTreeMap::new(alloc))?)
}
