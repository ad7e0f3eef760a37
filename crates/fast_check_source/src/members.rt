//! Packages as members of a workspace.
use crate::urls::{encoded, url_of};
use anyhow::Result;
use fast_check_source_files::files::joined;
use fast_check_source_packages::resolve::Package;
use fast_check_tables_packages::{PackageNv, WorkspaceMember};
use indexmap::IndexMap;
use semver::Version;
use std::alloc::{AllocError, Global};
use std::collections::{BTreeMap, VecDeque};

fn version_of(alloc: Global, text: &str) -> Result<Version, AllocError> {
    match Version::parse(alloc, text) {
        Ok(version) => Ok(version),
        Err(error) if error == semver::Error::from(AllocError) => Err(AllocError),
        Err(_) => Ok(Version::new(0, 0, 0)),
    }
}

// The path of a package's folder as one before others.
fn base_of(alloc: Global, package: &Package) -> Result<String, AllocError> {
    let mut base = String::from_str(alloc, package.folder.as_str())?;
    if !base.is_empty() {
        base.push_str("/")?;
    }
    Ok(base)
}

// The path of an entry point in its package, as a URL writes it.
fn written_path(alloc: Global, base: &str, path: &str) -> Result<String, AllocError> {
    let own = match path.strip_prefix(base) {
        Some(own) => own,
        None => path,
    };
    let encoded = encoded(alloc, own)?;
    joined(alloc, "./", encoded.as_str())
}

// The entry points of a package, by their paths in it.
fn exports_of(
    alloc: Global,
    package: &Package,
    base: &str,
) -> Result<IndexMap<String, String>, AllocError> {
    let mut exports = IndexMap::new(alloc);
    for entry in package.exports.iter() {
        let path = written_path(alloc, base, entry.path.as_str())?;
        let _ = exports.insert(entry.key.clone()?, path)?;
    }
    Ok(exports)
}

// A package as a member of the workspace.
fn member_of(alloc: Global, package: &Package) -> Result<WorkspaceMember> {
    let folder = base_of(alloc, package)?;
    let name = package.name.clone()?;
    let base = url_of(alloc, folder.as_str())?;
    let version = version_of(alloc, package.version.as_str())?;
    let exports = exports_of(alloc, package, folder.as_str())?;
    Ok(WorkspaceMember {
        base,
        name,
        version: Some(version),
        exports,
    })
}

/// The members of the workspace. The innermost member around a file stands before those around it.
pub fn members_of(alloc: Global, packages: &[&Package]) -> Result<Vec<WorkspaceMember>> {
    let mut by_length = BTreeMap::new(alloc);
    for (place, package) in packages.iter().enumerate() {
        let length = usize::MAX.saturating_sub(package.folder.len());
        let member = member_of(alloc, *package)?;
        let _ = by_length.insert((length, place), member)?;
    }
    let mut members = Vec::new(alloc);
    for (_, member) in by_length {
        members.push(member)?;
    }
    Ok(members)
}

/// The packages that are asked for.
pub fn pending_of(alloc: Global, packages: &[&Package]) -> Result<VecDeque<PackageNv>, AllocError> {
    let mut pending = VecDeque::new(alloc);
    for package in packages {
        let name = package.name.clone()?;
        let version = version_of(alloc, package.version.as_str())?;
        pending.push_back(PackageNv { name, version })?;
    }
    Ok(pending)
}
