//! The tables of a module.

ghost use Rattle.serde_json.specs.View.{view};
ghost use Rattle.fast_check_json_tables.specs.graph.Reads.{Reads};
ghost use Rattle.fast_check_json_tables.specs.Seen as seen;
ghost use Rattle.fast_check_json_tables.specs.Tables as tables;

use crate::graph::{FromJson, both, read_list, read_member};
use fast_check_read::ReadError;
use fast_check_tables_modules::{ModuleTables, ReExportAllNode};
use serde_json::Value;
use std::alloc::Global;

/// An array of a range and a source text.
impl FromJson for ReExportAllNode {
    ghost use Rattle.std.specs.Prelude.{List, ℕ};
    ghost use Rattle.fast_check_tree_syntax.specs.declared.source.SourceRange.{SourceRange};

    ghost Seen = { SourceRange × List ℕ };

    ghost seen = { seen.re_export };

    ghost read_of = { tables.re_export_of };

    fn from_json(alloc: Global, value: &Value) -> Result<ReExportAllNode, ReadError> {
        let (range, specifier) = FromJson::from_json(alloc, value)?;
        Ok(ReExportAllNode { range, specifier })
    }
}

/// The tables of a module, of an object whose member `module_symbol` has to stand. The other members are lists, and are empty where they are
/// left out.
pub fn read_module_tables(alloc: Global, value: &Value) -> Result<ModuleTables, ReadError>
    ensures { Reads seen.tables (tables.tables_of (view value.now)) result }
{
    let module_symbol = read_member(alloc, value, "module_symbol")?;
    let names = both(
        read_list(alloc, value, "symbols"),
        read_list(alloc, value, "swc_ids"),
    );
    let exports = both(
        read_list(alloc, value, "re_export_all_nodes"),
        read_list(alloc, value, "resolved_exports"),
    );
    let ((symbols, swc_ids), (re_export_all_nodes, resolved_exports)) = both(names, exports)?;
    Ok(ModuleTables {
        symbols,
        module_symbol,
        swc_ids,
        re_export_all_nodes,
        resolved_exports,
    })
}
