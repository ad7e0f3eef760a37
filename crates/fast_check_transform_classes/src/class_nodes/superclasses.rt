//! What stays of the superclass of a class.
ghost use Rattle.std.specs.Prelude.{◌≡◌};
ghost use Rattle.fast_check_tree_syntax.specs.Part.{seen};
ghost use Rattle.fast_check_meaning_signatures.specs.Answers.{answer_to};
ghost use Rattle.fast_check_tree_syntax.specs.Shape.{kind_of};
ghost use Rattle.fast_check_meaning_signatures.specs.Classes.{is_reference, property_of_kind, superclass_seen};
ghost use Rattle.fast_check_transform_expressions.specs.nodes.Gives.{GivesTree};

use fast_check_meaning_signatures::{Fault, FaultKind};
use fast_check_tree_forms_expressions::{ComputedPropName, MemberExpr};
use fast_check_tree_helpers::ranges::range_of_node;
use fast_check_tree_syntax::{Kind, Part, Tree};
use std::alloc::{AllocError, Global};

/// Whether an expression is an identifier, or a chain of members on one, each plain or computed by such an expression again
/// (deno_graph's `is_expr_ident_or_member_idents`).
#[cycle(reference)]
fn is_reference(expr: Part<'_>) -> bool
    ensures { result ≡ is_reference (seen expr.entry) }
{
    match expr.kind() {
        Kind::Ident => true,
        Kind::MemberExpr => {
            let MemberExpr { obj, prop, .. } = MemberExpr::of(expr);
            is_reference(obj) && is_reference_property(prop)
        }
        _ => false,
    }
}

/// Whether a member is plain, or computed by such an expression.
#[cycle(reference)]
fn is_reference_property(prop: Part<'_>) -> bool
    ensures { result ≡ property_of_kind (kind_of (seen prop.entry)) (seen prop.entry) is_reference }
{
    match prop.kind() {
        Kind::IdentName => true,
        Kind::ComputedPropName => is_reference(ComputedPropName::of(prop).expr),
        _ => false,
    }
}

/// The superclass as it stays, or absent where there is none.
pub fn transform_superclass(
    alloc: Global,
    superclass: Part<'_>,
    faults: &mut Vec<Fault>,
) -> Result<Tree, AllocError>
    ensures { GivesTree result (answer_to (superclass_seen (seen superclass.entry))) faults.old faults.new }
{
    if superclass.is_absent() {
        return Ok(Tree::Absent);
    }
    if is_reference(superclass) {
        return superclass.to_tree(alloc);
    }
    faults.push(Fault {
        kind: FaultKind::UnsupportedSuperClassExpr,
        range: range_of_node(superclass),
    })?;
    Ok(Tree::Absent)
}
