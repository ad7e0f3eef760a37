//! The request of `fast-check build`.
use crate::graph::print_graph;
use crate::modules::print_module;
use crate::pieces::Json;
use fast_check_tables_diagnostics::parsed_source::ParsedSource;
use fast_check_tables_graph::Module;
use fast_check_tables_packages::{PackageNv, WorkspaceMember};
use fast_check_tables_symbols::ModuleTables;
use indexmap::IndexMap;
use json::Writer;
use std::alloc::{AllocError, Global};
use std::collections::{BTreeMap, VecDeque};
use url::Url;

/// A module with its tables.
#[derive(Drop)]
pub struct Parsed {
    pub source: ParsedSource,
    pub tables: ModuleTables,
}

/// What `fast-check build` is asked of the packages of a folder.
#[derive(Drop)]
pub struct Input {
    pub modules: BTreeMap<Url, Parsed>,
    pub graph: BTreeMap<Url, Module>,
    pub resolutions: BTreeMap<Url, BTreeMap<String, Url>>,
    pub members: Vec<WorkspaceMember>,
    pub pending: VecDeque<PackageNv>,
}

/// Where modules of packages would lie that are no members.
pub const FALLBACK: &str = "https://package.test/";

fn print_modules(out: &mut Json, modules: &BTreeMap<Url, Parsed>) {
    out.begin_array();
    for (url, module) in modules.iter() {
        print_module(out, url.as_str(), &module.source, &module.tables);
    }
    out.end_array();
}

fn print_exports(out: &mut Json, exports: &IndexMap<String, String>) {
    out.begin_array();
    for (name, path) in exports.iter() {
        out.begin_array();
        out.text(name.as_str());
        out.text(path.as_str());
        out.end_array();
    }
    out.end_array();
}

fn print_members(alloc: Global, out: &mut Json, members: &[WorkspaceMember]) {
    out.begin_array();
    for member in members {
        out.begin_object();
        out.named("name", member.name.as_str());
        if let Some(version) = &member.version {
            out.key("version");
            out.made(format!(in alloc; "{version}"));
        }
        out.named("base", member.base.as_str());
        out.key("exports");
        print_exports(out, &member.exports);
        out.end_object();
    }
    out.end_array();
}

fn print_pending(alloc: Global, out: &mut Json, pending: &VecDeque<PackageNv>) {
    out.begin_array();
    for package in pending.iter() {
        out.made(format!(in alloc; "{package}"));
    }
    out.end_array();
}

/// Writes the request, without members that have their defaults.
pub fn print_input(alloc: Global, out: Writer, input: &Input) -> Result<Writer, AllocError> {
    let mut out = Json::new(out);
    out.begin_object();
    out.key("graph");
    print_graph(&mut out, &input.graph, &input.resolutions);
    out.key("modules");
    print_modules(&mut out, &input.modules);
    out.key("workspace_members");
    print_members(alloc, &mut out, input.members.as_slice());
    out.key("provider");
    out.begin_object();
    out.named("fallback", FALLBACK);
    out.end_object();
    out.key("pending");
    print_pending(alloc, &mut out, &input.pending);
    out.end_object();
    out.finish()
}
