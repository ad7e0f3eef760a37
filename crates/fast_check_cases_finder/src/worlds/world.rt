//! A world: the input of `build`, beside its modules.

use crate::worlds::provider::RefusingProvider;
use fast_check_tables_graph::ModuleGraph;
use fast_check_tables_packages::{PackageNv, WorkspaceMember};

/// What is followed beside the modules themselves: their graph, members of the workspace, where packages stand, and the packages that are handed in.
#[derive(Drop)]
pub struct World {
    pub graph: ModuleGraph,
    pub workspace_members: Vec<WorkspaceMember>,
    pub provider: RefusingProvider,
    pub pending: Vec<PackageNv>,
}
