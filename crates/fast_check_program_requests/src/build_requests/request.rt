//! What `build` is asked, read from JSON.

ghost use Rattle.std.specs.Prelude.{◌≡◌};
ghost use Rattle.serde_json.specs.View.{view};
ghost use Rattle.fast_check_json_tables.specs.graph.Reads.{Reads};
ghost use Rattle.fast_check_program_requests.specs.build_requests.Request.{build, build_of, members_of_build};

use crate::build_requests::module_parts::ModuleParts;
use crate::build_requests::provider::read_listed_packages;
use crate::request::member;
use fast_check_json_tables::{read_flag, read_graph, read_list};
use fast_check_read::{ReadError, had_float, has_float};
use fast_check_tables_graph::ModuleGraph;
use fast_check_tables_packages::{ListedPackages, PackageNv, WorkspaceMember};
use serde_json::Value;
use std::alloc::Global;
use url::Url;

/// What `build` is asked: modules in the graph of modules, the packages that are followed, and whether the first fault of each is answered alone.
#[derive(Drop)]
pub struct BuildRequest {
    pub graph: ModuleGraph,
    /// The modules with the names under which they stand, in order.
    pub modules: Vec<(Url, ModuleParts)>,
    /// Names with the names that they stand for, in order.
    pub aliases: Vec<(Url, Url)>,
    pub workspace_members: Vec<WorkspaceMember>,
    /// Which URL a package stands under.
    pub provider: ListedPackages,
    /// The packages that are followed.
    pub pending: Vec<PackageNv>,
    pub should_error_on_first_diagnostic: bool,
}

/// Reads `{"graph": {..}, "modules": [..], "aliases": [..], "workspace_members": [..], "provider": {..}, "pending": [..], "first": false}`. All may be
/// left out but `graph` and `provider`. Other members are passed over, but no number anywhere may have a fraction or an exponent.
pub fn read_build_request(alloc: Global, value: &Value) -> Result<BuildRequest, ReadError>
    ensures { Reads build (build_of (view value.now)) result }
{
    if has_float(value) {
        return Err(ReadError::BadForm);
    }
    read_build_members(alloc, value)
}

/// The same of a value that is dropped. Floats are looked for behind the members, since to drop the value is to go over all of it.
pub(crate) fn read_build_value(alloc: Global, value: Value) -> Result<BuildRequest, ReadError>
    ensures { Reads build (build_of (view value)) result }
{
    let request = read_build_members(alloc, &value)?;
    if had_float(value) {
        return Err(ReadError::BadForm);
    }
    Ok(request)
}

fn read_build_members(alloc: Global, value: &Value) -> Result<BuildRequest, ReadError>
    ensures { Reads build (members_of_build (view value.now)) result }
{
    Ok(BuildRequest {
        graph: read_graph(alloc, value)?,
        modules: read_list(alloc, value, "modules")?,
        aliases: read_list(alloc, value, "aliases")?,
        workspace_members: read_list(alloc, value, "workspace_members")?,
        provider: read_listed_packages(alloc, member(value, "provider")?)?,
        pending: read_list(alloc, value, "pending")?,
        should_error_on_first_diagnostic: read_flag(value, "first")?,
    })
}
