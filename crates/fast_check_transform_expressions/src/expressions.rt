//! What stays of an expression.
ghost use Rattle.std.specs.Prelude.{None, map};
ghost use Rattle.fast_check_tree_syntax.specs.Part.{seen};
ghost use Rattle.fast_check_tree_syntax.specs.Shape.{kind_of, parts};
ghost use Rattle.fast_check_meaning_signatures.specs.Seen.{round, seens};
ghost use Rattle.fast_check_meaning_signatures.specs.Expressions.{expr_seen, slot_seen, slots_seen};
ghost use Rattle.fast_check_meaning_signatures.specs.Answers.{answer_to, demanded};
ghost use Rattle.fast_check_transform_nodes.specs.Bindings.{names_of};
ghost use Rattle.fast_check_transform_nodes.specs.Gives.{Gives};

use crate::functions::{transform_arrow, transform_fn};
use fast_check_meaning_signatures::{Fault, FunctionKind, Slot, is_compound, is_plain};
use fast_check_transform_nodes::{Bindings, never_in_parens, row_of};
use fast_check_tree_forms_classes::Function;
use fast_check_tree_syntax::{Items, Kind, Part, SourceRange, Tree};
use std::alloc::{AllocError, Global};

/// The expression as it stays, or `None` where it may not (deno_graph's `maybe_transform_expr_if_leavable`). A fault of a
/// function or an arrow stands at `place`, that of the parent that names it, or else at itself. The faults are added in
/// reading order.
#[cycle(transform)]
pub fn transform_expr(
    alloc: Global,
    bindings: Bindings<'_>,
    expr: Part<'_>,
    place: Option<SourceRange>,
    faults: &mut Vec<Fault>,
) -> Result<Option<Tree>, AllocError>
    ensures { Gives result (answer_to (expr_seen (names_of bindings.entry) (seen expr.entry) place)) faults.old faults.new }
{
    let kind = expr.kind();
    if is_compound(kind) {
        return transform_parts(alloc, bindings, expr, faults);
    }
    if is_plain(kind) {
        return Ok(Some(expr.to_tree(alloc)?));
    }
    if kind == Kind::ArrowExpr {
        return Ok(Some(transform_arrow(alloc, bindings, expr, place, faults)?));
    }
    match row_of(alloc, bindings, expr)? {
        Some(row) => transform_slots(alloc, bindings, expr, row, place, faults),
        None => Ok(None),
    }
}

/// A node whose parts all stay, round them as they stay.
#[cycle(transform)]
fn transform_parts(
    alloc: Global,
    bindings: Bindings<'_>,
    expr: Part<'_>,
    faults: &mut Vec<Fault>,
) -> Result<Option<Tree>, AllocError>
    ensures { let seen_parts = map (λ p. expr_seen (names_of bindings.entry) p None) (parts (seen expr.entry)) in
        Gives result (answer_to (round (kind_of (seen expr.entry)) (seens seen_parts))) faults.old faults.new }
{
    let mut items = Items::new(alloc);
    for part in expr.parts() {
        match transform_expr(alloc, bindings, part.read(), None, faults)? {
            Some(tree) => items.push(tree)?,
            None => return Ok(None),
        }
    }
    Ok(Some(Tree::Node(expr.kind(), items)))
}

/// A node whose parts stay as the slots of this row say, round them.
#[cycle(transform)]
fn transform_slots(
    alloc: Global,
    bindings: Bindings<'_>,
    expr: Part<'_>,
    row: &[Slot],
    place: Option<SourceRange>,
    faults: &mut Vec<Fault>,
) -> Result<Option<Tree>, AllocError>
    ensures { let names = names_of bindings.entry in let seen_parts = slots_seen names row.now 0 (seen expr.entry) (expr_seen names) place in
        Gives result (answer_to (round (kind_of (seen expr.entry)) (seens seen_parts))) faults.old faults.new }
{
    let mut stay = Items::new(alloc);
    for (index, slot) in row.iter().enumerate() {
        match transform_slot(alloc, bindings, expr.part(index), *slot, place, faults)? {
            Some(tree) => stay.push(tree)?,
            None => return Ok(None),
        }
    }
    Ok(Some(Tree::Node(expr.kind(), stay)))
}

/// A part of an expression, as its slot says.
#[cycle(transform)]
fn transform_slot(
    alloc: Global,
    bindings: Bindings<'_>,
    part: Part<'_>,
    slot: Slot,
    place: Option<SourceRange>,
    faults: &mut Vec<Fault>,
) -> Result<Option<Tree>, AllocError>
    ensures { let names = names_of bindings.entry in
        Gives result (answer_to (slot_seen names slot (seen part.entry) (expr_seen names) place)) faults.old faults.new }
{
    match slot {
        Slot::Span => Ok(Some(Tree::Range(part.range()))),
        Slot::Scope => Ok(Some(Tree::Context(part.context()))),
        Slot::Written => Ok(Some(part.to_tree(alloc)?)),
        Slot::Never => Ok(Some(never_in_parens(alloc)?)),
        Slot::Value => transform_expr(alloc, bindings, part, None, faults),
        Slot::Function => {
            let place = place.unwrap_or(Function::of(part).span);
            let kind = FunctionKind::ExpressionLike;
            Ok(Some(transform_fn(alloc, bindings, kind, place, part, faults)?))
        }
    }
}

/// A value that has to stay; where it may not, this fault and an empty option.
#[cycle(transform)]
pub fn transform_value(
    alloc: Global,
    bindings: Bindings<'_>,
    value: Part<'_>,
    place: Option<SourceRange>,
    fault: Fault,
    faults: &mut Vec<Fault>,
) -> Result<Tree, AllocError>
    ensures { Gives result (demanded fault (answer_to (expr_seen (names_of bindings.entry) (seen value.entry) place))) faults.old faults.new }
{
    match transform_expr(alloc, bindings, value, place, faults)? {
        Some(tree) => Ok(tree),
        None => {
            faults.push(fault)?;
            Ok(Tree::Absent)
        }
    }
}
