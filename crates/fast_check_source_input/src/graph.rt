//! The graph of modules.
use crate::pieces::Json;
use fast_check_tables_diagnostics::parsed_source::MediaType;
use fast_check_tables_graph::Module;
use std::collections::BTreeMap;
use url::Url;

/// The word of a media type.
pub fn media_type_text(media_type: MediaType) -> &'static str {
    match media_type {
        MediaType::TypeScript => "TypeScript",
        MediaType::Mts => "Mts",
        MediaType::Cts => "Cts",
        MediaType::Tsx => "Tsx",
        MediaType::Dts => "Dts",
        MediaType::Dmts => "Dmts",
        MediaType::Dcts => "Dcts",
        MediaType::JavaScript => "JavaScript",
        MediaType::Mjs => "Mjs",
        MediaType::Cjs => "Cjs",
        MediaType::Jsx => "Jsx",
        MediaType::Unknown => "Unknown",
    }
}

// A module with a source, of which no hash is known.
fn print_with_source(out: &mut Json, name: &str, media_type: Option<MediaType>) {
    out.begin_object();
    out.key(name);
    out.begin_object();
    if let Some(media_type) = media_type {
        out.named("media_type", media_type_text(media_type));
    }
    out.end_object();
    out.end_object();
}

fn print_graph_module(out: &mut Json, module: Module) {
    match module {
        Module::Js { media_type, .. } => print_with_source(out, "Js", Some(media_type)),
        Module::Json { .. } => print_with_source(out, "Json", None),
        Module::Wasm { .. } => print_with_source(out, "Wasm", None),
        Module::Npm => out.text("Npm"),
        Module::Node => out.text("Node"),
        Module::External => out.text("External"),
    }
}

fn print_graph_modules(out: &mut Json, modules: &BTreeMap<Url, Module>) {
    out.begin_array();
    for (url, module) in modules.iter() {
        out.begin_array();
        out.text(url.as_str());
        print_graph_module(out, *module);
        out.end_array();
    }
    out.end_array();
}

// Where the texts of a module lead.
fn print_targets(out: &mut Json, url: &Url, targets: &BTreeMap<String, Url>) {
    for (text, target) in targets.iter() {
        out.begin_array();
        out.text(url.as_str());
        out.text(text.as_str());
        out.text(target.as_str());
        out.end_array();
    }
}

/// The modules, and where their texts lead.
pub fn print_graph(
    out: &mut Json,
    modules: &BTreeMap<Url, Module>,
    resolutions: &BTreeMap<Url, BTreeMap<String, Url>>,
) {
    out.begin_object();
    out.key("modules");
    print_graph_modules(out, modules);
    out.key("resolutions");
    out.begin_array();
    for (url, targets) in resolutions.iter() {
        print_targets(out, url, targets);
    }
    out.end_array();
    out.end_object();
}
