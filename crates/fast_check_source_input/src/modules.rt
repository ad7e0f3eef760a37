//! Modules with their sources and tables.
use crate::graph::media_type_text;
use crate::pieces::Json;
use crate::symbols::{print_id, print_symbol};
use fast_check_tables_diagnostics::parsed_source::ParsedSource;
use fast_check_tables_symbols::{ModuleTables, ReExportAllNode, Symbol, SymbolId};
use fast_check_tree_syntax::Id;
use url::Url;

fn print_source(out: &mut Json, source: &ParsedSource) {
    out.begin_object();
    out.named("media_type", media_type_text(source.media_type));
    out.named("text", source.text.as_str());
    out.key("program");
    out.program(&source.program);
    out.key("comments");
    out.comments(&source.comments);
    out.key("unresolved_context");
    out.number(source.unresolved_context.0 as u64);
    out.end_object();
}

fn print_symbols(out: &mut Json, symbols: &[Symbol]) {
    out.begin_array();
    for symbol in symbols {
        print_symbol(out, symbol);
    }
    out.end_array();
}

fn print_swc_ids(out: &mut Json, ids: &[(Id, SymbolId)]) {
    out.begin_array();
    for (id, symbol) in ids {
        out.begin_array();
        print_id(out, id);
        out.number(symbol.0 as u64);
        out.end_array();
    }
    out.end_array();
}

fn print_re_exports(out: &mut Json, nodes: &[ReExportAllNode]) {
    out.begin_array();
    for node in nodes {
        out.begin_array();
        out.range(node.range);
        out.text(node.specifier.as_str());
        out.end_array();
    }
    out.end_array();
}

fn print_resolved(out: &mut Json, exports: &[(String, Url)]) {
    out.begin_array();
    for (name, module) in exports {
        out.begin_array();
        out.text(name.as_str());
        out.text(module.as_str());
        out.end_array();
    }
    out.end_array();
}

fn print_tables(out: &mut Json, tables: &ModuleTables) {
    out.key("module_symbol");
    out.number(tables.module_symbol.0 as u64);
    out.key("symbols");
    print_symbols(out, tables.symbols.as_slice());
    out.key("swc_ids");
    print_swc_ids(out, tables.swc_ids.as_slice());
    out.key("re_export_all_nodes");
    print_re_exports(out, tables.re_export_all_nodes.as_slice());
    out.key("resolved_exports");
    print_resolved(out, tables.resolved_exports.as_slice());
}

/// A module under its URL.
pub fn print_module(out: &mut Json, url: &str, source: &ParsedSource, tables: &ModuleTables) {
    out.begin_array();
    out.text(url);
    out.begin_object();
    out.key("Esm");
    out.begin_object();
    out.named("specifier", url);
    out.key("source");
    print_source(out, source);
    print_tables(out, tables);
    out.end_object();
    out.end_object();
    out.end_array();
}
