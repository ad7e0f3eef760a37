//! Calls on packages and members of a workspace.

use crate::names::sets::name_and_rest;
use crate::said::Said;
use fast_check_tables_packages::{PackageNv, WorkspaceMember};
use indexmap::IndexMap;
use semver::Version;
use std::alloc::{AllocError, Global};
use url::Url;

/// The first version under a major number, 0 where it is none.
fn version_of(major: &str) -> Version {
    Version::new(major.parse::<u64>().unwrap_or(0), 0, 0)
}

/// The package of this name, and of the first version under this major number.
pub fn package_of(alloc: Global, name: &str, major: &str, said: &mut Said) -> PackageNv {
    PackageNv {
        name: said.copy(alloc, name),
        version: version_of(major),
    }
}

/// Says the package of a workspace member, by its base, its name, and its major number if it has a version.
pub fn as_nv(alloc: Global, words: &[String], said: &mut Said) {
    let (base, words) = name_and_rest(words);
    let (name, version) = name_and_rest(words);
    match Url::parse(alloc, base) {
        Ok(base) => {
            let member = WorkspaceMember {
                base,
                name: said.copy(alloc, name),
                version: version.first().map(|major| version_of(major.as_str())),
                exports: IndexMap::new(alloc),
            };
            say_nv(alloc, &member, said);
        }
        Err(_) => said.say("no URL"),
    }
}

fn say_nv(alloc: Global, member: &WorkspaceMember, said: &mut Said) {
    match copied_nv(alloc, member) {
        Ok(nv) => said.say_made(format!(in alloc; "{nv}")),
        Err(_) => said.lack(),
    }
}

/// The package of a copy of a member.
fn copied_nv(alloc: Global, member: &WorkspaceMember) -> Result<PackageNv, AllocError> {
    member.clone()?.as_nv(alloc)
}
