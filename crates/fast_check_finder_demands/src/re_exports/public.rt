//! Re-exports of all: which are public, and what they ask of other modules.
ghost use Rattle.std.specs.Prelude.{◌≡◌, [], ◌++◌, map, option_map, OnOk, IfOk, IfSome, string_bytes};
ghost use Rattle.fast_check_finder_demands.specs.name_demands.Files.{names_of};
ghost use Rattle.fast_check_finder_demands.specs.declared.re_exports.public.PublicReExports.TheVariants.{Nothing};
ghost use Rattle.fast_check_finder_demands.specs.re_exports.Modules.{own_tables as tables_at};
ghost use Rattle.fast_check_finder_demands.specs.re_exports.ReExports.{node_ranges, shown_ranges, first_range, path_ranges, re_export_ranges};
ghost use Rattle.fast_check_finder_demands.specs.re_exports.ReExports.{answered_at, path_followers, all_re_exported, module_followers};
ghost use Rattle.fast_check_finder_demands.specs.re_exports.Origins.{origin_of, IsIndexOf};

use crate::name_demands::NameDemand;
use crate::re_exports::list::{ReExportDemand, ReExportDemands};
use crate::re_exports::modules::{GraphModule, own_export, own_tables};
use crate::re_exports::origins::{Origin, ReExportIndex, origin_by};
use crate::{CheckedTables, SourceRange};
use fast_check_tables_modules::ReExportAllNode;
use std::alloc::{AllocError, Global};

/// Which re-exports of all of a module are public.
#[derive(Clone, Copy)]
pub enum PublicReExports {
    Nothing,
    /// The one at this range: the first that has a name.
    First(SourceRange),
    All,
}

/// What a demand of a module makes public of its re-exports of all, and asks of other modules by them.
#[derive(Drop)]
pub struct ReExports<'a> {
    pub public: PublicReExports,
    pub demands: ReExportDemands<'a>,
}

fn push_ranges(nodes: &[ReExportAllNode], out: &mut Vec<SourceRange>) -> Result<(), AllocError>
    ensures { OnOk result (out.new.items ≡ out.old.items ++ node_ranges nodes.now) }
{
    for node in nodes {
        out.push(node.range)?;
    }
    Ok(())
}

/// Pushes the ranges of all re-exports of all of a module.
pub fn push_all_ranges(tables: &CheckedTables, out: &mut Vec<SourceRange>) -> Result<(), AllocError>
    ensures { OnOk result (out.new.items ≡ out.old.items ++ node_ranges tables.now.re_exports) }
{
    push_ranges(tables.re_export_all_nodes(), out)
}

fn push_all_re_exported<'a>(
    nodes: &'a [ReExportAllNode],
    out: &mut ReExportDemands<'a>,
) -> Result<(), AllocError>
    ensures { OnOk result (out.new ≡ out.old ++ all_re_exported nodes.now) }
{
    for node in nodes {
        out.push(ReExportDemand::ReExported(node.specifier.as_str()))?;
    }
    Ok(())
}

/// A star makes all of them public, and asks for what is behind each.
fn star_re_exports<'a>(
    alloc: Global,
    tables: &'a CheckedTables,
) -> Result<ReExports<'a>, AllocError>
    ensures public { IfOk result (λ r. shown_ranges tables.now.re_exports r.public ≡ node_ranges tables.now.re_exports) }
    ensures demands { IfOk result (λ r. r.demands ≡ all_re_exported tables.now.re_exports) }
{
    let mut demands = ReExportDemands::new(alloc);
    push_all_re_exported(tables.re_export_all_nodes(), &mut demands)?;
    Ok(ReExports {
        public: PublicReExports::All,
        demands,
    })
}

fn no_re_exports<'a>(alloc: Global) -> ReExports<'a>
    ensures public { result.public ≡ Nothing }
    ensures demands { result.demands ≡ [] }
{
    ReExports {
        public: PublicReExports::Nothing,
        demands: ReExportDemands::new(alloc),
    }
}

/// What a name asks for by where it comes from. One that comes from nowhere makes all of them public.
fn re_exports_at<'a>(
    alloc: Global,
    tables: &CheckedTables,
    origin: Option<Origin<'a>>,
    demand: NameDemand<'a>,
) -> Result<ReExports<'a>, AllocError>
    ensures public { IfOk result (λ r. shown_ranges tables.now.re_exports r.public
        ≡ first_range tables.now.re_exports (option_map (λ a. a.0) (option_map origin_of origin.entry))) }
    ensures demands { IfOk result (λ r. r.demands ≡ answered_at (names_of demand.entry) (option_map (λ a. a.1) (option_map origin_of origin.entry))) }
{
    let mut found = no_re_exports(alloc);
    match origin {
        None => found.public = PublicReExports::All,
        Some(origin) => {
            found.public = PublicReExports::First(origin.node.range);
            found
                .demands
                .push(ReExportDemand::Answered(origin.module, demand))?;
        }
    }
    Ok(found)
}

/// What a name asks for, unless the module exports it itself.
fn named_re_exports<'a, 'm: 'a>(
    alloc: Global,
    traced: GraphModule<'m>,
    first: &str,
    demand: NameDemand<'a>,
    index: &mut Option<ReExportIndex<'m>>,
) -> Result<ReExports<'a>, AllocError>
    requires { IfSome index.old (IsIndexOf traced) }
    ensures index { OnOk result (IfSome index.new (IsIndexOf traced.entry)) }
    ensures public { IfOk result (λ r. shown_ranges (tables_at traced.entry).re_exports r.public ≡ path_ranges traced.entry first.now) }
    ensures demands { IfOk result (λ r. r.demands ≡ path_followers traced.entry first.now (names_of demand.entry)) }
{
    let tables = own_tables(traced);
    match own_export(tables, first) {
        Some(_) => Ok(no_re_exports(alloc)),
        None => {
            let origin = origin_by(alloc, traced, first, index)?;
            re_exports_at(alloc, tables, origin, demand)
        }
    }
}

/// What a demand of a module makes public of its re-exports of all, and asks of other modules by them. The index of the names behind them is made where a
/// name is first looked for, and handed on for the next one.
pub fn re_exports_of<'a, 'm: 'a>(
    alloc: Global,
    traced: GraphModule<'m>,
    demand: NameDemand<'a>,
    index: &mut Option<ReExportIndex<'m>>,
) -> Result<ReExports<'a>, AllocError>
    requires { IfSome index.old (IsIndexOf traced) }
    ensures index { OnOk result (IfSome index.new (IsIndexOf traced.entry)) }
    ensures public { IfOk result (λ r. shown_ranges (tables_at traced.entry).re_exports r.public ≡ re_export_ranges traced.entry (names_of demand.entry)) }
    ensures demands { IfOk result (λ r. r.demands ≡ module_followers traced.entry (names_of demand.entry)) }
{
    match demand {
        NameDemand::AllButDefault | NameDemand::All => star_re_exports(alloc, own_tables(traced)),
        NameDemand::There => Ok(no_re_exports(alloc)),
        NameDemand::Path(first, _, _) => named_re_exports(alloc, traced, first, demand, index),
    }
}
