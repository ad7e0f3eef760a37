//! What a build answers modules by.
use fast_check_tables_graph::{ModuleGraph, RootSymbol};
use fast_check_transform_module::TransformOptions;

/// What a build answers modules by: the graph, the tables of its modules, and the options.
#[derive(Clone, Copy)]
pub struct BuildInput<'a> {
    pub graph: &'a ModuleGraph,
    pub root_symbol: &'a RootSymbol,
    pub options: &'a TransformOptions,
}
