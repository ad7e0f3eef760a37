//! What `pair` is asked, read from JSON.

ghost use Rattle.serde_json.specs.View.{view};
ghost use Rattle.fast_check_program_requests.specs.Request.{Makes};
ghost use Rattle.fast_check_program_commands.specs.pair_command.Request.{side_of, pair_of, members_of_pair, IsSide, IsPair};

use fast_check_json_tables::{read_flag, read_graph, read_list};
use fast_check_program_requests::{EsModuleParts, member, read_es_module};
use fast_check_read::{ReadError, has_float};
use fast_check_tables_graph::ModuleGraph;
use fast_check_tables_modules::diagnostics::ModulePublicRanges;
use serde_json::Value;
use std::alloc::Global;

/// A module as it is handed in, with its public ranges.
#[derive(Drop)]
pub struct Side {
    pub es_module: EsModuleParts,
    pub public_ranges: ModulePublicRanges,
}

/// What `pair` is asked: two modules in one graph of modules, and whether the first fault of each is answered alone.
#[derive(Drop)]
pub struct PairRequest {
    pub graph: ModuleGraph,
    pub a: Side,
    pub b: Side,
    pub should_error_on_first_diagnostic: bool,
}

/// Reads `{"graph": {..}, "a": {..}, "ranges_a": [..], "impls_a": [..], "b": {..}, "ranges_b": [..], "impls_b": [..], "first": false}`. Ranges,
/// implementations and `first` may be left out. Other members are passed over, but no number anywhere may have a fraction or an exponent.
pub fn read_pair_request(alloc: Global, value: &Value) -> Result<PairRequest, ReadError>
    ensures { Makes IsPair (pair_of (view value.now)) result }
{
    if has_float(value) {
        return Err(ReadError::BadForm);
    }
    read_pair_members(alloc, value)
}

fn read_pair_members(alloc: Global, value: &Value) -> Result<PairRequest, ReadError>
    ensures { Makes IsPair (members_of_pair (view value.now)) result }
{
    let should_error_on_first_diagnostic = read_flag(value, "first")?;
    let graph = read_graph(alloc, value)?;
    let a = read_side(alloc, value, "a", "ranges_a", "impls_a")?;
    let b = read_side(alloc, value, "b", "ranges_b", "impls_b")?;
    Ok(PairRequest {
        graph,
        a,
        b,
        should_error_on_first_diagnostic,
    })
}

/// One of both modules, by the names of its members.
fn read_side(
    alloc: Global,
    value: &Value,
    name: &str,
    ranges_name: &str,
    implementations_name: &str,
) -> Result<Side, ReadError>
    ensures { Makes IsSide (side_of name.now ranges_name.now implementations_name.now (view value.now)) result }
{
    let ranges = read_list(alloc, value, ranges_name)?;
    let implementations = read_list(alloc, value, implementations_name)?;
    let es_module = read_es_module(alloc, member(value, name)?)?;
    let public_ranges = ModulePublicRanges::from_parts(
        alloc,
        ranges,
        implementations,
        Vec::new(alloc),
    )?;
    Ok(Side {
        es_module,
        public_ranges,
    })
}
