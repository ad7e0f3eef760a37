//! The entry points of members of the workspace.
ghost use Rattle.std.specs.Prelude.{◌≡◌, List, Some, OnOk, IfOk, IfErr};
ghost use Rattle.fast_check_tables_packages.specs.Package.{nv_of};
ghost use Rattle.fast_check_tables_packages.specs.Members.{member_named};
ghost use Rattle.fast_check_tables_packages.specs.declared.package.WorkspaceMember.{WorkspaceMember};
ghost use Rattle.fast_check_finder_ranges.specs.entries.Entries.{member_exports, entrance_by, entered, DiagnosesRefused};
ghost use Rattle.fast_check_finder_ranges.specs.entries.MemberEntries.{AreMemberEntries};

use crate::entries::joined::join_exports;
use fast_check_tables_packages::{BuildFault, PackageNv, WorkspaceMember};
use std::alloc::{AllocError, Global};
use std::collections::{BTreeMap, BTreeSet};
use std::rc::Rc;
use url::Url;

/// The entry points of members that have no version, by their names, as far as they were asked for. Every version of such a member has these entry points.
#[derive(Drop)]
pub struct MemberEntries {
    by_name: BTreeMap<String, Rc<BTreeSet<Url>>>,
}

impl MemberEntries {
    /// Nothing was asked for. It takes no memory.
    pub fn new(alloc: Global) -> MemberEntries
        ensures { (members : List WorkspaceMember) → AreMemberEntries members result }
    {
        MemberEntries {
            by_name: BTreeMap::new(alloc),
        }
    }

    /// Adds the entry points of the member without version that a package is.
    fn insert(
        &mut self,
        alloc: Global,
        nv: &PackageNv,
        member: &WorkspaceMember,
        urls: Rc<BTreeSet<Url>>,
    ) -> Result<(), AllocError>
        ensures { OnOk result ((members : List WorkspaceMember) → member_named members (nv_of nv.now) ≡ Some member.now
            → member.now.version ≡ None
            → entrance_by member.now.base (Some (member_exports member.now)) ≡ entered urls.value.keys
            → AreMemberEntries members self.old → AreMemberEntries members self.new) }
    {
        let name = String::from_str(alloc, nv.name.as_str())?;
        self.by_name.insert(name, urls)?;
        Ok(())
    }

    /// The entry points of the member that a package is. Those of a member without version are worked out where they were not before.
    pub fn of_member(
        &mut self,
        alloc: Global,
        nv: &PackageNv,
        member: &WorkspaceMember,
    ) -> Result<Rc<BTreeSet<Url>>, BuildFault>
        ensures entered { IfOk result (λ urls. (members : List WorkspaceMember) → member_named members (nv_of nv.now) ≡ Some member.now
            → AreMemberEntries members self.old → entrance_by member.now.base (Some (member_exports member.now)) ≡ entered urls.value.keys) }
        ensures kept { OnOk result ((members : List WorkspaceMember) → member_named members (nv_of nv.now) ≡ Some member.now
            → AreMemberEntries members self.old → AreMemberEntries members self.new) }
        ensures refused { IfErr result (DiagnosesRefused (nv_of nv.now) (entrance_by member.now.base (Some (member_exports member.now)))) }
    {
        if member.version.is_some() {
            return join_exports(alloc, nv, &member.base, &member.exports);
        }
        if let Some(urls) = self.by_name.get(&nv.name) {
            return Ok(urls.clone()?);
        }
        let urls = join_exports(alloc, nv, &member.base, &member.exports)?;
        self.insert(alloc, nv, member, urls.clone()?)?;
        Ok(urls)
    }
}
