//! The members of a workspace.
use crate::config::{Config, NAMES, member, path_in};
use crate::messages::Messages;
use fast_check_source_files::files::{Files, Standing, below, joined};
use fast_check_source_files::globs::{fits, is_pattern, without_braces};
use fast_check_source_files::messages::Message;
use fast_check_source_files::pnpm::listed;
use serde_json::Value;
use std::alloc::{AllocError, Global};

fn push_texts(
    alloc: Global,
    listed: Option<&Value>,
    inner: &str,
    out: &mut Vec<String>,
) -> Result<(), AllocError> {
    let Some(listed) = listed else {
        return Ok(());
    };
    let list = match listed.as_array() {
        Some(list) => Some(list),
        None => listed.get(inner).and_then(Value::as_array),
    };
    if let Some(list) = list {
        for each in list.iter() {
            if let Some(path) = each.as_str() {
                out.push(String::from_str(alloc, path)?)?;
            }
        }
    }
    Ok(())
}

/// The paths that the workspace of a folder lists.
#[derive(Drop)]
pub struct MemberList {
    pub texts: Vec<String>,
    /// Whether it is npm's or pnpm's, whose members may be anything.
    pub is_npm: bool,
    /// Whether it is Deno's, whose members have to be there.
    pub is_deno: bool,
}

/// The paths that the workspace of a folder lists: those of Deno's and npm's, or else those of pnpm's.
pub fn listed_members(files: &Files<'_>, top: &[Config]) -> Result<MemberList, AllocError> {
    let alloc = files.alloc();
    let mut texts = Vec::new(alloc);
    let (deno, npm) = (member(top, "workspace"), member(top, "workspaces"));
    push_texts(alloc, deno, "members", &mut texts)?;
    push_texts(alloc, npm, "packages", &mut texts)?;
    let mut is_npm = npm.is_some();
    if deno.is_none()
        && npm.is_none()
        && let Some(text) = files.read("pnpm-workspace.yaml")?
    {
        texts = listed(alloc, text.as_str())?;
        is_npm = true;
    }
    Ok(MemberList {
        texts,
        is_npm,
        is_deno: deno.is_some(),
    })
}

fn has_config(files: &Files<'_>, folder: &str) -> Result<bool, AllocError> {
    for name in NAMES {
        let path = path_in(files.alloc(), folder, name)?;
        if files.is_file(path.as_str())? {
            return Ok(true);
        }
    }
    Ok(false)
}

fn fits_one(alloc: Global, patterns: &[String], folder: &str) -> Result<bool, AllocError> {
    for pattern in patterns {
        if fits(alloc, pattern.as_str(), folder)? {
            return Ok(true);
        }
    }
    Ok(false)
}

// What the paths behind `!` leave out of a workspace.
fn left_out(alloc: Global, texts: &[String]) -> Result<Vec<String>, AllocError> {
    let mut without = Vec::new(alloc);
    for text in texts {
        if let Some(left) = text.as_str().strip_prefix("!") {
            for each in without_braces(alloc, left)? {
                without.push(each)?;
            }
        }
    }
    Ok(without)
}

// A workspace while its members are gathered.
#[derive(Drop)]
struct Members {
    // All folders of the workspace, where a pattern asks for them.
    folders: Vec<String>,
    without: Vec<String>,
    found: Vec<String>,
}

impl Members {
    // Adds a folder, if it is new and none of those that are left out.
    fn add(&mut self, alloc: Global, folder: &str) -> Result<(), AllocError> {
        let is_known = self.found.iter().any(|it| it.as_str() == folder);
        if !is_known && !fits_one(alloc, self.without.as_slice(), folder)? {
            self.found.push(String::from_str(alloc, folder)?)?;
        }
        Ok(())
    }

    // The folders with a configuration that fit a pattern. Says whether there are any.
    fn add_fitting(&mut self, files: &Files<'_>, pattern: &str) -> Result<bool, AllocError> {
        let alloc = files.alloc();
        let mut fitting = Vec::new(alloc);
        for folder in self.folders.iter() {
            if fits(alloc, pattern, folder.as_str())? && has_config(files, folder.as_str())? {
                fitting.push(folder.clone()?)?;
            }
        }
        let has_some = !fitting.is_empty();
        for folder in fitting {
            self.add(alloc, folder.as_str())?;
        }
        Ok(has_some)
    }

    // A folder by its path, if it lies within the one that was named.
    fn add_named(
        &mut self,
        files: &Files<'_>,
        path: &str,
        is_deno: bool,
        messages: &mut Messages,
    ) -> Result<(), AllocError> {
        let alloc = files.alloc();
        let code = "no-entry-point";
        let Some(folder) = below(alloc, "", path)? else {
            let why = "this member of the workspace lies outside of the folder";
            messages
                .errors
                .push(Message::of_file(alloc, path, code, why));
            return Ok(());
        };
        if files.standing(folder.as_str())? != Standing::Nothing {
            return self.add(alloc, folder.as_str());
        }
        let why = "this member of the workspace is not there";
        let absence = Message::of_file(alloc, folder.as_str(), code, why);
        if is_deno {
            messages.errors.push(absence);
        } else {
            messages.warnings.push(absence);
        }
        Ok(())
    }

    // The folders of a path of the list.
    fn add_written(
        &mut self,
        files: &Files<'_>,
        text: &str,
        is_deno: bool,
        messages: &mut Messages,
    ) -> Result<(), AllocError> {
        let alloc = files.alloc();
        let mut has_pattern = false;
        let mut has_some = false;
        for path in without_braces(alloc, text)? {
            if is_pattern(path.as_str()) {
                has_pattern = true;
                has_some = self.add_fitting(files, path.as_str())? || has_some;
            } else {
                self.add_named(files, path.as_str(), is_deno, messages)?;
            }
        }
        if has_pattern && !has_some {
            let why = joined(
                alloc,
                text,
                " of the workspace fits no folder with a package",
            )?;
            let code = "no-entry-point";
            messages
                .warnings
                .push(Message::of_file(alloc, "", code, why.as_str()));
        }
        Ok(())
    }
}

/// The folders of a workspace's members.
pub fn members_of(
    files: &Files<'_>,
    list: &MemberList,
    messages: &mut Messages,
) -> Result<Vec<String>, AllocError> {
    let alloc = files.alloc();
    let texts = list.texts.as_slice();
    let folders = if texts.iter().any(|it| is_pattern(it.as_str())) {
        files.all_below("", Standing::Folder)?
    } else {
        Vec::new(alloc)
    };
    let mut members = Members {
        folders,
        without: left_out(alloc, texts)?,
        found: Vec::new(alloc),
    };
    for text in texts.iter().filter(|it| !it.as_str().starts_with("!")) {
        members.add_written(files, text.as_str(), list.is_deno, messages)?;
    }
    let Members { found, .. } = members;
    Ok(found)
}
