//! The places of members by their names and versions.
ghost use Rattle.std.specs.Prelude.{◌≡◌, ◌++◌, ◌∷◌, [], Option, Some, None, List, cond, length, IfOk, OnOk};
ghost use Rattle.std.specs.Option.{option_or};
ghost use Rattle.std.specs.BTreeMap.{get};
ghost use Rattle.std.specs.Ordering.{is_eq};
ghost use Rattle.fast_check_tables_packages.specs.Package.{nv_of};
ghost use Rattle.fast_check_tables_packages.specs.declared.package.PackageNv.{PackageNv};
ghost use Rattle.fast_check_tables_packages.specs.declared.package.WorkspaceMember.{WorkspaceMember};
ghost use Rattle.fast_check_tables_packages.specs.First.{first_place};
ghost use Rattle.fast_check_tables_packages.specs.Members.{IsMemberIndex, is_member};
ghost use Rattle.fast_check_tables_packages.specs.Packages.{package_cmp};

use crate::package::{PackageNv, WorkspaceMember};
use crate::texts::{earlier, put_first};
use std::alloc::{AllocError, Global};
use std::collections::BTreeMap;

/// Members by name and version: of those without version the first of each name, of the others the first of each name and version.
#[derive(Drop)]
pub(crate) struct MemberPlaces {
    by_name: BTreeMap<Vec<u8>, usize>,
    by_package: BTreeMap<PackageNv, usize>,
}

/// Puts the place of a package, unless the package has one.
fn put_package(
    places: &mut BTreeMap<PackageNv, usize>,
    nv: PackageNv,
    place: usize,
) -> Result<(), AllocError>
    ensures { OnOk result ((asked : PackageNv) → get package_cmp places.new asked ≡
        option_or (get package_cmp places.old asked) (cond (is_eq (package_cmp asked nv)) (Some place) None)) }
{
    if places.contains_key(&nv) {
        return Ok(());
    }
    places.insert(nv, place)?;
    Ok(())
}

impl MemberPlaces {
    fn new(alloc: Global) -> MemberPlaces
        ensures { IsMemberIndex [] result }
    {
        MemberPlaces {
            by_name: BTreeMap::new(alloc),
            by_package: BTreeMap::new(alloc),
        }
    }

    /// Adds the member that follows the others, by its place among them.
    fn push(
        &mut self,
        alloc: Global,
        member: &WorkspaceMember,
        place: usize,
    ) -> Result<(), AllocError>
        ensures { OnOk result ((members : List WorkspaceMember) → place ≡ length members → IsMemberIndex members self.old
            → IsMemberIndex (members ++ member.now ∷ []) self.new) }
    {
        match &member.version {
            None => put_first(
                alloc,
                &mut self.by_name,
                member.name.as_str().as_bytes(),
                place,
            ),
            Some(_) => put_package(&mut self.by_package, member.as_nv(alloc)?, place),
        }
    }

    /// The place of the first member that a package is.
    pub(crate) fn first(&self, nv: &PackageNv) -> Option<usize>
        ensures { (members : List WorkspaceMember) → IsMemberIndex members self.now
            → result ≡ first_place (is_member (nv_of nv.now)) members }
    {
        let named = self.by_name.get(nv.name.as_str().as_bytes()).copied();
        let versioned = self.by_package.get(nv).copied();
        earlier(named, versioned)
    }
}

/// The places of members.
pub(crate) fn member_places(
    alloc: Global,
    members: &[WorkspaceMember],
) -> Result<MemberPlaces, AllocError>
    ensures { IfOk result (IsMemberIndex members.now) }
{
    let mut places = MemberPlaces::new(alloc);
    for (place, member) in members.iter().enumerate() {
        places.push(alloc, member, place)?;
    }
    Ok(places)
}
