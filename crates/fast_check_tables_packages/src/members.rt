//! Members of a workspace, found by an index.
ghost use Rattle.std.specs.Prelude.{◌≡◌, map, IfOk, option_map, slice_get};
ghost use Rattle.std.specs.Option.{option_copied};
ghost use Rattle.fast_check_tables_packages.specs.Package.{nv_of};
ghost use Rattle.fast_check_tables_packages.specs.Members.{AreMembersIndexed, member_nv, member_named, place_around, bases_of};
ghost use Rattle.fast_check_tables_packages.specs.Texts.{IsTextIndex};

use crate::member_places::{MemberPlaces, member_places};
use crate::package::{PackageNv, WorkspaceMember};
use crate::texts::{TextIndex, TextPlaces};
use std::alloc::{AllocError, Global};
use std::rc::Rc;

/// The texts of the bases of members.
fn base_index(alloc: Global, members: &[WorkspaceMember]) -> Result<TextIndex, AllocError>
    ensures { IfOk result (IsTextIndex (bases_of members.now)) }
{
    let mut texts = TextPlaces::new(alloc);
    for (place, member) in members.iter().enumerate() {
        texts.push(alloc, member.base.as_str().as_bytes(), place)?;
    }
    texts.indexed(alloc)
}

/// The packages of members, in their order. Their names may be long: who has one shares it.
fn packages_of(alloc: Global, members: &[WorkspaceMember]) -> Result<Vec<Rc<PackageNv>>, AllocError>
    ensures { IfOk result (λ packages. map (λ p. nv_of p.value) packages.items ≡ map member_nv members.now) }
{
    let mut packages = Vec::new(alloc);
    for member in members {
        packages.push(Rc::new(alloc, member.as_nv(alloc)?)?)?;
    }
    Ok(packages)
}

/// Members of a workspace, found without going through their list.
#[derive(Drop)]
pub struct IndexedMembers<'a> {
    members: &'a [WorkspaceMember],
    by_nv: MemberPlaces,
    /// The texts of the bases, in the order of the members.
    by_base: TextIndex,
    /// Their packages, in the same order.
    packages: Vec<Rc<PackageNv>>,
    ghost indexed: { AreMembersIndexed members.now by_nv by_base },
    ghost packages_are: { map (λ p. nv_of p.value) packages.items ≡ map member_nv members.now },
}

impl<'a> IndexedMembers<'a> {
    ghost use Rattle.fast_check_tables_packages.specs.MembersIn.{members_in};

    /// An index of these members. Answers `AllocError` if memory runs out.
    pub fn new(
        alloc: Global,
        members: &'a [WorkspaceMember],
    ) -> Result<IndexedMembers<'a>, AllocError>
        ensures { IfOk result (λ indexed. members_in indexed ≡ members.entry.now) }
    {
        let by_nv = member_places(alloc, members)?;
        let by_base = base_index(alloc, members)?;
        let packages = packages_of(alloc, members)?;
        Ok(IndexedMembers {
            members,
            by_nv,
            by_base,
            packages,
        })
    }

    /// The first member that a package is.
    pub fn named(&self, nv: &PackageNv) -> Option<&'a WorkspaceMember>
        ensures { option_copied result ≡ member_named (members_in self.now) (nv_of nv.now) }
    {
        let place = self.by_nv.first(nv)?;
        self.members.get(place)
    }

    /// The place of the first member whose base begins a text.
    pub fn place_around(&self, text: &str) -> Option<usize>
        ensures { result ≡ place_around (members_in self.now) text.now }
    {
        self.by_base.first_within(text.as_bytes())
    }

    /// The package of the member at a place.
    pub fn package_at(&self, place: usize) -> Option<&Rc<PackageNv>>
        ensures { option_map (λ p. nv_of p.now.value) result ≡ option_map member_nv (slice_get (members_in self.now) place) }
    {
        self.packages.get(place)
    }
}
