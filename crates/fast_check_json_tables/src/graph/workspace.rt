//! Members of a workspace.

ghost use Rattle.fast_check_json_tables.specs.graph.Workspace as workspace;

use crate::graph::from_json::FromJson;
use crate::graph::gather::both;
use crate::graph::members::{read_member, read_member_or, read_option};
use fast_check_read::ReadError;
use fast_check_tables_packages::WorkspaceMember;
use indexmap::IndexMap;
use serde_json::Value;
use std::alloc::Global;

/// An object of the members `base`, `name`, `version` and `exports`. Without the last two it has no version, and no exports.
impl FromJson for WorkspaceMember {
    ghost Seen = { workspace.SeenMember };

    ghost seen = { workspace.workspace_member };

    ghost read_of = { workspace.workspace_member_of };

    fn from_json(alloc: Global, value: &Value) -> Result<WorkspaceMember, ReadError> {
        let names = both(
            read_member(alloc, value, "base"),
            read_member(alloc, value, "name"),
        );
        let rest = both(
            read_option(alloc, value, "version"),
            read_member_or(alloc, value, "exports", IndexMap::new(alloc)),
        );
        let ((base, name), (version, exports)) = both(names, rest)?;
        Ok(WorkspaceMember {
            base,
            name,
            version,
            exports,
        })
    }
}
