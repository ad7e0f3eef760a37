//! The packages that a build is handed with their URLs.

ghost use Rattle.std.specs.Prelude.{◌≡◌, map, IfOk};
ghost use Rattle.serde_json.specs.View.{view};
ghost use Rattle.fast_check_tables_packages.specs.Package.{nv_of};
ghost use Rattle.fast_check_json_tables.specs.graph.Reads.{Reads};
ghost use Rattle.fast_check_program_requests.specs.build_requests.Provider.{provider, provider_of, last_rows};

use fast_check_json_tables::{read_list, read_member};
use fast_check_read::ReadError;
use fast_check_tables_packages::{ListedPackages, PackageNv};
use serde_json::Value;
use std::alloc::{AllocError, Global};
use std::collections::BTreeSet;
use url::Url;

/// The rows that no later one of their package replaces, in their order.
fn last_rows(
    alloc: Global,
    mut rows: Vec<(PackageNv, Url)>,
) -> Result<Vec<(PackageNv, Url)>, AllocError>
    ensures { IfOk result (λ last. map (λ e. (nv_of e.0, e.1)) last.items ≡ last_rows (map (λ e. (nv_of e.0, e.1)) rows.items)) }
{
    let mut packages = BTreeSet::new(alloc);
    let mut last = Vec::new(alloc);
    while let Some(row) = rows.pop() {
        if packages.insert(row.0.clone()?)? {
            last.push(row)?;
        }
    }
    last.reverse();
    Ok(last)
}

/// The packages of an object with the members `packages` and `fallback`.
pub fn read_listed_packages(alloc: Global, value: &Value) -> Result<ListedPackages, ReadError>
    ensures { Reads provider (provider_of (view value.now)) result }
{
    Ok(ListedPackages {
        packages: last_rows(alloc, read_list(alloc, value, "packages")?)?,
        fallback: read_member(alloc, value, "fallback")?,
    })
}
