//! All ranges that the tables of a module have.
ghost use Rattle.std.specs.Prelude.{◌≡◌, ◌++◌, flat_map, map, IfOk, OnOk};
ghost use Rattle.std.specs.List.{list_any};
ghost use Rattle.fast_check_tables_diagnostics.specs.PublicRanges.{same_range};
ghost use Rattle.fast_check_tables_symbols.specs.Tables.{table_ranges};

use fast_check_tables_diagnostics::range_set;
use fast_check_tables_symbols::{CheckedTables, ReExportAllNode, Symbol, SymbolDecl};
use fast_check_tree_syntax::SourceRange;
use std::alloc::{AllocError, Global};
use std::collections::BTreeSet;

/// The ranges of the declarations of tables and of their re-exports of all.
pub fn ranges_of(alloc: Global, tables: &CheckedTables) -> Result<BTreeSet<SourceRange>, AllocError>
    ensures { IfOk result (λ set. (r : _)
        → list_any (same_range r) set.keys ≡ list_any (same_range r) (table_ranges tables.now.symbols tables.now.re_exports)) }
{
    let mut ranges = Vec::new(alloc);
    push_declarations(tables.symbols(), &mut ranges)?;
    push_re_exports(tables.re_export_all_nodes(), &mut ranges)?;
    range_set(alloc, ranges)
}

/// Pushes the ranges of the declarations of symbols.
fn push_declarations(symbols: &[Symbol], out: &mut Vec<SourceRange>) -> Result<(), AllocError>
    ensures { OnOk result (out.new.items ≡ out.old.items ++ flat_map (λ s. map (λ d. d.range) s.decls.items) symbols.now) }
{
    for symbol in symbols {
        push_decls(symbol.decls.as_slice(), out)?;
    }
    Ok(())
}

fn push_decls(decls: &[SymbolDecl], out: &mut Vec<SourceRange>) -> Result<(), AllocError>
    ensures { OnOk result (out.new.items ≡ out.old.items ++ map (λ d. d.range) decls.now) }
{
    for decl in decls {
        out.push(decl.range)?;
    }
    Ok(())
}

/// Pushes the ranges of re-exports of all.
fn push_re_exports(nodes: &[ReExportAllNode], out: &mut Vec<SourceRange>) -> Result<(), AllocError>
    ensures { OnOk result (out.new.items ≡ out.old.items ++ map (λ n. n.range) nodes.now) }
{
    for node in nodes {
        out.push(node.range)?;
    }
    Ok(())
}
