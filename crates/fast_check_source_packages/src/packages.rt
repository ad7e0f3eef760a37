//! What a folder says of its packages: names, versions, entry points, and the map of imports.
use crate::entries::{Entries, entry_points};
use crate::exports::{Entry, push_entry};
use crate::imports::Imports;
use crate::resolve::{Package, behind_links, typed};
use fast_check_source_configs::config::{Config, add_imports, configs_of, member, text_of};
use fast_check_source_configs::messages::{MessageList, Messages};
use fast_check_source_configs::paths::behind;
use fast_check_source_configs::tsconfig::Projects;
use fast_check_source_configs::workspace::{MemberList, listed_members, members_of};
use fast_check_source_files::files::{Files, name_of};
use fast_check_source_files::messages::Message;
use std::alloc::{AllocError, Global};
use std::collections::BTreeMap;

// Where a package is read.
#[derive(Clone, Copy)]
struct Place<'a> {
    folder: &'a str,
    top: &'a [Config],
    is_npm: bool,
}

// Makes warnings of what is wrong with a package that has no entry point: a member of npm's workspace may be anything.
fn push_passed(from: &mut MessageList, warnings: &mut MessageList) {
    for each in from.items.iter_mut() {
        each.code = "no-entry-point";
        let why = ": this member of the workspace is passed over";
        if each.text.push_str(why).is_err() {
            warnings.lacks = true;
        }
    }
    warnings.append(from);
}

impl<'a> Place<'a> {
    // Says why a package has no entry points. Answers whether it is one all the same.
    fn refuse(
        self,
        alloc: Global,
        own: &mut MessageList,
        entries: &mut Entries,
        messages: &mut Messages,
    ) -> bool {
        own.append(&mut entries.errors);
        own.append(&mut entries.wrong);
        own.append(&mut entries.passed);
        if own.is_empty() {
            let why = "no entry point: neither `exports`, nor mod.ts, index.ts or src/index.ts";
            own.push(Message::of_file(alloc, self.folder, "no-entry-point", why));
        }
        if self.is_npm && !self.folder.is_empty() {
            push_passed(own, &mut messages.warnings);
            return false;
        }
        messages.errors.append(own);
        true
    }

    // Says what is wrong with a package. Answers whether it is one.
    fn tell(
        self,
        alloc: Global,
        own: &mut MessageList,
        entries: &mut Entries,
        messages: &mut Messages,
    ) -> bool {
        if entries.found.is_empty() {
            return self.refuse(alloc, own, entries, messages);
        }
        messages.errors.append(own);
        messages.errors.append(&mut entries.errors);
        messages.faults.append(&mut entries.wrong);
        messages.warnings.append(&mut entries.passed);
        true
    }

    fn imports(self, alloc: Global, configs: &[Config]) -> Result<Imports, AllocError> {
        let mut imports = BTreeMap::new(alloc);
        add_imports(alloc, "", self.top, &mut imports)?;
        add_imports(alloc, self.folder, configs, &mut imports)?;
        Imports::new(alloc, imports)
    }

    // A file behind links, where these do not lead out of the package.
    fn own_file(self, files: &Files<'_>, path: &str) -> Result<String, AllocError> {
        let real = behind_links(files, path)?;
        if behind(real.as_str(), self.folder).is_some() {
            return Ok(real);
        }
        String::from_str(files.alloc(), path)
    }

    // The entry points by the files that they lead to.
    fn exports(
        self,
        files: &Files<'_>,
        projects: &mut Projects,
        found: &[Entry],
    ) -> Result<Vec<Entry>, AllocError> {
        let mut exports = Vec::new(files.alloc());
        for entry in found {
            let own = self.own_file(files, entry.path.as_str())?;
            let path = typed(files, projects, own.as_str())?;
            push_entry(
                files.alloc(),
                entry.key.as_str(),
                path.as_str(),
                &mut exports,
            )?;
        }
        Ok(exports)
    }

    // The name of a package, or else of its folder.
    fn name(self, files: &Files<'_>, configs: &[Config]) -> Result<String, AllocError> {
        let name = match text_of(configs, "name") {
            Some(name) => name,
            None => if self.folder.is_empty() {
                files.name()
            } else {
                name_of(self.folder)
            },
        };
        String::from_str(files.alloc(), name)
    }

    fn package(
        self,
        files: &Files<'_>,
        projects: &mut Projects,
        configs: &[Config],
        entries: Entries,
    ) -> Result<Package, AllocError> {
        let alloc = files.alloc();
        let version = match text_of(configs, "version") {
            Some(version) => version,
            None => "0.0.0",
        };
        let folder = String::from_str(alloc, self.folder)?;
        let version = String::from_str(alloc, version)?;
        let name = self.name(files, configs)?;
        let Entries { found, taken, .. } = entries;
        let exports = self.exports(files, projects, found.as_slice())?;
        let imports = self.imports(alloc, configs)?;
        Ok(Package {
            folder,
            name,
            version,
            exports,
            taken,
            imports,
        })
    }

    // Adds the package of the folder, or says what is wrong with it.
    fn push_package(
        self,
        files: &Files<'_>,
        projects: &mut Projects,
        messages: &mut Messages,
        out: &mut Vec<Package>,
    ) -> Result<(), AllocError> {
        let alloc = files.alloc();
        let mut own = MessageList::new(alloc);
        let configs = configs_of(files, self.folder, &mut own)?;
        let mut entries = entry_points(files, projects, self.folder, configs.as_slice())?;
        if self.tell(alloc, &mut own, &mut entries, messages) {
            let made = self.package(files, projects, configs.as_slice(), entries)?;
            out.push(made)?;
        }
        Ok(())
    }
}

// The folders of packages: the one that was named, and those of its workspace.
fn folders_of(
    files: &Files<'_>,
    top: &[Config],
    listed: &MemberList,
    messages: &mut Messages,
) -> Result<Vec<String>, AllocError> {
    let mut folders = members_of(files, listed, messages)?;
    if listed.texts.is_empty() || member(top, "exports").is_some() {
        folders.push(String::new(files.alloc()))?;
    }
    Ok(folders)
}

// Adds the packages of a folder by its configurations.
fn push_packages(
    files: &Files<'_>,
    projects: &mut Projects,
    top: &[Config],
    messages: &mut Messages,
    out: &mut Vec<Package>,
) -> Result<(), AllocError> {
    let listed = listed_members(files, top)?;
    let folders = folders_of(files, top, &listed, messages)?;
    if !messages.errors.is_empty() {
        return Ok(());
    }
    for folder in folders.iter() {
        let place = Place {
            folder: folder.as_str(),
            top,
            is_npm: listed.is_npm,
        };
        place.push_package(files, projects, messages, out)?;
    }
    Ok(())
}

/// The packages of a folder: itself, and the members of its workspace. One that something keeps from being read has no entry points.
pub fn packages_of(
    files: &Files<'_>,
    projects: &mut Projects,
    messages: &mut Messages,
) -> Result<Vec<Package>, AllocError> {
    let mut packages = Vec::new(files.alloc());
    let top = configs_of(files, "", &mut messages.errors)?;
    if messages.errors.is_empty() {
        push_packages(files, projects, top.as_slice(), messages, &mut packages)?;
    }
    Ok(packages)
}
