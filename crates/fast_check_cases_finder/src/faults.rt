//! What each fault prints.

use fast_check_cases::Said;
use fast_check_read::InputFault;
use fast_check_tables_modules::TableFault;
use fast_check_tables_packages::{BuildFault, PackageNv};
use semver::Version;
use std::alloc::{AllocError, Global};
use std::io;

/// Every fault of tables, in the order in which they are reported.
const TABLE_FAULTS: [TableFault; 5] = [
    TableFault::MissingSymbol,
    TableFault::SymbolWithoutDecl,
    TableFault::ModuleNotUnderOwnName,
    TableFault::ExpandoWithoutSymbol,
    TableFault::OutOfMemory,
];

/// An export text that does not join.
fn invalid_export(alloc: Global) -> Result<BuildFault, AllocError> {
    let name = String::from_str(alloc, "@p/p")?;
    let export = String::from_str(alloc, "http://[")?;
    let version = Version::new(1, 0, 0);
    let package = PackageNv { name, version };
    Ok(BuildFault::InvalidExport { package, export })
}

fn say_build_fault(alloc: Global, made: Result<BuildFault, AllocError>, said: &mut Said) {
    match made {
        Ok(fault) => said.say_made(format!(in alloc; "build: {fault}\n")),
        Err(_) => said.lack(),
    }
}

/// Says each fault of tables, of a build and of an input.
fn say_faults(alloc: Global, said: &mut Said) {
    for fault in TABLE_FAULTS {
        said.say_made(format!(in alloc; "tables: {fault}\n"));
    }
    say_build_fault(alloc, invalid_export(alloc), said);
    say_build_fault(alloc, Ok(BuildFault::OutOfMemory), said);
    said.say_made(format!(in alloc; "input: {}\n", InputFault::NotJson));
    said.say_made(format!(in alloc; "input: {}\n", InputFault::OutOfMemory));
}

/// Prints each fault of tables, of a build and of an input.
pub fn run_fault_cases(rt: &HostRuntime) -> io::Result<()> {
    let mut said = Said::new(rt.alloc());
    say_faults(rt.alloc(), &mut said);
    print!(rt; "{}", said.text().unwrap_or("out of memory\n"))
}
