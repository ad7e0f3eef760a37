//! The module of a request.

use fast_check_program_requests::EsModuleParts;
use fast_check_tables_modules::{EsModuleInfo, TableFault};
use std::alloc::Global;

/// The module of these parts, or what is wrong with its tables.
pub fn module_of(alloc: Global, parts: EsModuleParts) -> Result<EsModuleInfo, TableFault> {
    let EsModuleParts {
        specifier,
        source,
        tables,
    } = parts;
    EsModuleInfo::new(alloc, specifier, source, tables)
}
