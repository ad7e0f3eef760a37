//! The package that a module belongs to.
ghost use Rattle.std.specs.Prelude.{◌≡◌, slice_get, option_map, IfOk};
ghost use Rattle.url.specs.Parts.{serialize};
ghost use Rattle.fast_check_tables_packages.specs.Package.{nv_of};
ghost use Rattle.fast_check_tables_packages.specs.Members.{member_nv, member_of};
ghost use Rattle.fast_check_tables_packages.specs.MembersIn.{members_in};
ghost use Rattle.fast_check_finder_demands.specs.facts.GraphFacts.{owner_by};

use crate::asked::copy_of;
use crate::facts::graph_facts::GraphFacts;
use fast_check_tables_packages::{IndexedMembers, JsrUrlProvider, PackageNv};
use std::alloc::AllocError;
use url::Url;

/// The package of the first member whose base begins the text.
fn member_owner(members: &IndexedMembers<'_>, text: &str) -> Result<Option<PackageNv>, AllocError>
    ensures { IfOk result (λ owner. option_map nv_of owner ≡ option_map member_nv (member_of (members_in members.now) text.now)) }
{
    let Some(place) = members.place_around(text) else {
        return Ok(None);
    };
    let Some(nv) = members.package_at(place) else {
        return Ok(None);
    };
    Ok(Some(copy_of(nv)?))
}

/// The package that a URL belongs to: that of a member of the workspace for a file, and else what the provider says.
pub fn owner_of(
    facts: GraphFacts<'_>,
    provider: &dyn JsrUrlProvider,
    url: &Url,
) -> Result<Option<PackageNv>, AllocError>
    ensures { let members = members_in facts.entry.workspace_members.now in
        IfOk result (λ owner. option_map nv_of owner ≡ owner_by members (nv_at provider.now) (serialize url.now)) }
{
    let text = url.as_str();
    if text.as_bytes().starts_with(b"file:") {
        return member_owner(facts.workspace_members, text);
    }
    provider.package_url_to_nv(url)
}
