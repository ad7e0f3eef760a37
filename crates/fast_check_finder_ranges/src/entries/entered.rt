//! The entry points of a package: its export texts joined to its base.
ghost use Rattle.std.specs.Prelude.{◌≡◌, Some, None, IfOk, OnOk, IfErr};
ghost use Rattle.std.specs.Option.{option_copied, option_or};
ghost use Rattle.fast_check_tables_packages.specs.Package.{nv_of};
ghost use Rattle.fast_check_tables_packages.specs.Members.{member_named};
ghost use Rattle.fast_check_tables_packages.specs.MembersIn.{members_in};
ghost use Rattle.fast_check_finder_ranges.specs.entries.Entries.{base_or, entrance_by, entered, entrance_of, entrance_seen, DiagnosesRefused};
ghost use Rattle.fast_check_finder_ranges.specs.entries.MemberEntries.{AreMemberEntries};

use crate::entries::joined::join_exports;
use crate::entries::members::MemberEntries;
use fast_check_tables_graph::ModuleGraph;
use fast_check_tables_packages::{
    BuildFault, IndexedMembers, JsrUrlProvider, PackageNv, WorkspaceMember,
};
use indexmap::IndexMap;
use std::alloc::Global;
use std::collections::BTreeSet;
use std::rc::Rc;
use url::Url;

/// The entry points of a package of which the graph has the exports.
fn graph_entries(
    alloc: Global,
    member: Option<&WorkspaceMember>,
    provider: &dyn JsrUrlProvider,
    nv: &PackageNv,
    exports: &IndexMap<String, String>,
) -> Result<Rc<BTreeSet<Url>>, BuildFault>
    ensures entered { let base = base_or (url_of provider.now (nv_of nv.now)) (option_copied member.entry) in
        IfOk result (λ urls. entrance_by base (Some exports.now.entries) ≡ entered urls.value.keys) }
    ensures refused { let base = base_or (url_of provider.now (nv_of nv.now)) (option_copied member.entry) in
        IfErr result (DiagnosesRefused (nv_of nv.now) (entrance_by base (Some exports.now.entries))) }
{
    match member {
        None => {
            let base = provider.package_url(nv)?;
            join_exports(alloc, nv, &base, exports)
        }
        Some(member) => join_exports(alloc, nv, &member.base, exports),
    }
}

/// The entry points of a package: what its export texts are joined to, in order and each once. None where neither the graph nor a member
/// of the workspace has its exports.
///
/// The first text, in the order of the exports, that does not join is answered as `InvalidExport`. `OutOfMemory` if memory runs out, or a
/// URL comes to 4 GB.
pub fn entry_points(
    alloc: Global,
    graph: &ModuleGraph,
    members: &IndexedMembers<'_>,
    provider: &dyn JsrUrlProvider,
    nv: &PackageNv,
    member_entries: &mut MemberEntries,
) -> Result<Option<Rc<BTreeSet<Url>>>, BuildFault>
    ensures entered { IfOk result (λ urls. AreMemberEntries (members_in members.now) member_entries.old
        → entrance_of graph.now (members_in members.now) (url_of provider.now) (nv_of nv.now) ≡ entrance_seen urls) }
    ensures kept { OnOk result (AreMemberEntries (members_in members.now) member_entries.old → AreMemberEntries (members_in members.now) member_entries.new) }
    ensures refused { IfErr result (DiagnosesRefused (nv_of nv.now) (entrance_of graph.now (members_in members.now) (url_of provider.now) (nv_of nv.now))) }
{
    let member = members.named(nv);
    match (graph.package_exports(nv), member) {
        (Some(exports), _) => Ok(Some(graph_entries(alloc, member, provider, nv, exports)?)),
        (None, Some(member)) => Ok(Some(member_entries.of_member(alloc, nv, member)?)),
        (None, None) => Ok(None),
    }
}
