//! The law that the list under the option is a front of the full one.
ghost use Rattle.fast_check_build_answers.specs.PackageAnswer.{IsFrontAlone};

use fast_check_tables_cache::PackagePublicRanges;
use fast_check_tables_graph::{ModuleGraph, RootSymbol};

/// The law of the option `should_error_on_first_diagnostic`: the diagnostics of a package under the option are a front of those without, and
/// the same packages are refused. The law holds of the definitions, and so of the answers of `answer_package`; a call of this function does nothing.
pub fn first_alone(
    graph: &ModuleGraph,
    root_symbol: &RootSymbol,
    package_ranges: &PackagePublicRanges,
)
    ensures law { IsFrontAlone graph.now root_symbol.now package_ranges.now.module_ranges.entries }
{
    let _ = graph;
    let _ = root_symbol;
    let _ = package_ranges;
}
