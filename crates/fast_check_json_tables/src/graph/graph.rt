//! The graph of modules.

ghost use Rattle.std.specs.Str.{bytes_eq};
ghost use Rattle.indexmap.specs.IndexMap.{insert_entry};
ghost use Rattle.semver.specs.Identifiers.{parts_of};
ghost use Rattle.serde_json.specs.View.{view};
ghost use Rattle.fast_check_tables_packages.specs.Package.{Nv, nv_of};
ghost use Rattle.fast_check_json_tables.specs.graph.Reads.{Reads};
ghost use Rattle.fast_check_json_tables.specs.graph.Graph as graph;

use crate::graph::from_json::FromJson;
use crate::graph::gather::{Gather, gather_all};
use crate::graph::members::{read_list, read_member, read_member_or};
use fast_check_read::{ReadError, read_members, read_text};
use fast_check_tables_graph::ModuleGraph;
use fast_check_tables_packages::PackageNv;
use fast_check_tables_symbols::map_of;
use indexmap::IndexMap;
use semver::{Error, Version};
use serde_json::Value;
use std::alloc::{AllocError, Global};
use std::collections::BTreeMap;
use url::Url;

/// The version of a text.
fn read_version(alloc: Global, text: &str) -> Result<Version, ReadError>
    ensures { Reads parts_of (graph.version_of text.now) result }
{
    match Version::parse(alloc, text) {
        Ok(version) => Ok(version),
        Err(error) if error == Error::from(AllocError) => Err(ReadError::OutOfMemory),
        Err(_) => Err(ReadError::BadForm),
    }
}

/// A text that is a version.
impl FromJson for Version {
    ghost use Rattle.fast_check_tables_packages.specs.Package.{VersionParts};

    ghost Seen = { VersionParts };

    ghost seen = { parts_of };

    ghost read_of = { graph.version_text_of };

    fn from_json(alloc: Global, value: &Value) -> Result<Version, ReadError> {
        read_version(alloc, read_text(value)?)
    }
}

/// A text `name@version`, which is parted at its last `@`.
impl FromJson for PackageNv {
    ghost Seen = { Nv };

    ghost seen = { nv_of };

    ghost read_of = { graph.package_of };

    fn from_json(alloc: Global, value: &Value) -> Result<PackageNv, ReadError> {
        let text = read_text(value)?;
        let (name, version) = text.rsplit_once('@').ok_or(ReadError::BadForm)?;
        Ok(PackageNv {
            name: String::from_str(alloc, name)?,
            version: read_version(alloc, version)?,
        })
    }
}

/// Export texts by their names: a new name goes last, and one that is there keeps its place.
impl Gather for IndexMap<String, String> {
    ghost use Rattle.std.specs.Prelude.{List, ℕ};
    ghost use Rattle.serde_json.specs.Find.{as_str};
    ghost use Rattle.fast_check_json_tables.specs.graph.Reads.{both_of};

    ghost Gathered = { graph.Exports };

    ghost Item = { List ℕ × List ℕ };

    ghost gathered = { λ exports. graph.seen_exports exports.entries };

    ghost with = { λ exports item. insert_entry bytes_eq exports item.0 item.1 };

    ghost item_of = { both_of as_str as_str };

    fn gather(&mut self, alloc: Global, value: &Value) -> Result<(), ReadError> {
        let (name, text) = FromJson::from_json(alloc, value)?;
        self.insert(name, text)?;
        Ok(())
    }
}

/// An array of export names with their export texts. Of entries with one name the last counts.
impl FromJson for IndexMap<String, String> {
    ghost Seen = { graph.Exports };

    ghost seen = { λ exports. graph.seen_exports exports.entries };

    ghost read_of = { graph.package_exports_of };

    fn from_json(alloc: Global, value: &Value) -> Result<Self, ReadError> {
        gather_all(alloc, value, IndexMap::new(alloc))
    }
}

/// What a text in a module resolves to, by module and text.
impl Gather for BTreeMap<Url, BTreeMap<String, Url>> {
    ghost use Rattle.std.specs.Prelude.{List, ℕ};
    ghost use Rattle.serde_json.specs.Find.{as_str};
    ghost use Rattle.url.specs.Parts.{Parts};
    ghost use Rattle.fast_check_json_tables.specs.graph.Reads.{three_of, url_of};

    ghost Gathered = { graph.Resolutions };

    ghost Item = { Parts × List ℕ × Parts };

    ghost gathered = { graph.seen_resolutions };

    ghost with = { graph.resolved_also };

    ghost item_of = { three_of url_of as_str url_of };

    fn gather(&mut self, alloc: Global, value: &Value) -> Result<(), ReadError> {
        let (referrer, text, url) = FromJson::from_json(alloc, value)?;
        let texts = self.entry(referrer)?.or_insert(BTreeMap::new(alloc));
        texts.insert(text, url)?;
        Ok(())
    }
}

/// An array of arrays of three: the module in which a text stands, the text, and what it resolves to. Of entries with one module and one text the
/// last counts.
impl FromJson for BTreeMap<Url, BTreeMap<String, Url>> {
    ghost Seen = { graph.Resolutions };

    ghost seen = { graph.seen_resolutions };

    ghost read_of = { graph.resolutions_of };

    fn from_json(alloc: Global, value: &Value) -> Result<Self, ReadError> {
        gather_all(alloc, value, BTreeMap::new(alloc))
    }
}

/// An object of the members `modules`, `resolutions` and `packages`, which may all be left out. Of entries with one key the last counts.
impl FromJson for ModuleGraph {
    ghost Seen = { graph.SeenGraph };

    ghost seen = { graph.graph };

    ghost read_of = { graph.graph_of };

    fn from_json(alloc: Global, value: &Value) -> Result<ModuleGraph, ReadError> {
        read_members(value)?;
        let modules = map_of(alloc, read_list(alloc, value, "modules")?)?;
        let resolutions = read_member_or(alloc, value, "resolutions", BTreeMap::new(alloc))?;
        let packages = map_of(alloc, read_list(alloc, value, "packages")?)?;
        Ok(ModuleGraph::from_parts(alloc, modules, resolutions, packages)?)
    }
}

/// The graph of the member `graph`, which has to stand.
pub fn read_graph(alloc: Global, value: &Value) -> Result<ModuleGraph, ReadError>
    ensures { Reads graph.graph (graph.graph_member_of (view value.now)) result }
{
    read_member(alloc, value, "graph")
}
