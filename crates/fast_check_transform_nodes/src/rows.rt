//! The rows of expressions that stay slot by slot, two of them by what is known of names: `Object.freeze(x)` and `new C(x)`.
ghost use Rattle.std.specs.Prelude.{◌≡◌, option_copied, IfOk};
ghost use Rattle.fast_check_tree_syntax.specs.Part.{seen};
ghost use Rattle.fast_check_tree_syntax.specs.Shape.{kind_of};
ghost use Rattle.fast_check_meaning_signatures.specs.Expressions.{freezes, makes_plain, is_known};
ghost use Rattle.fast_check_transform_nodes.specs.Bindings.{names_of};
ghost use Rattle.fast_check_transform_nodes.specs.Rows as rows;

use crate::names::Bindings;
use fast_check_meaning_signatures::Slot;
use fast_check_tree_forms_expressions::{CallExpr, NewExpr};
use fast_check_tree_forms_programs::Ident;
use fast_check_tree_helpers::object_freeze_call_arg;
use fast_check_tree_syntax::{Atom, Id, Kind, Part};
use std::alloc::{AllocError, Global};

/// `value satisfies type`: the value as it stays. A row has a slot for each field of its form, in their order.
const SATISFIES: [Slot; 3] = [Slot::Span, Slot::Value, Slot::Written];

/// `value as type`, `<type>value`: the value does not count.
const ASSERTION: [Slot; 3] = [Slot::Span, Slot::Never, Slot::Written];

/// A function expression.
const FN_EXPR: [Slot; 2] = [Slot::Written, Slot::Function];

/// `Object.freeze(x)`, and `new C(x)` of a class without type parameters: the arguments as they stay.
const ARGUMENTS: [Slot; 5] = [
    Slot::Span,
    Slot::Scope,
    Slot::Written,
    Slot::Value,
    Slot::Written,
];

/// Whether a call is `Object.freeze(x)`.
fn freezes(bindings: Bindings<'_>, expr: Part<'_>) -> bool
    ensures { result ≡ freezes (names_of bindings.entry) (seen expr.entry) }
{
    object_freeze_call_arg(&CallExpr::of(expr), bindings.unresolved).is_some()
}

/// Whether `new` without type arguments makes an object of a class without type parameters.
fn makes_plain(alloc: Global, bindings: Bindings<'_>, expr: Part<'_>) -> Result<bool, AllocError>
    ensures { IfOk result (λ made. made ≡ makes_plain (names_of bindings.entry) (seen expr.entry)) }
{
    let form = NewExpr::of(expr);
    if form.callee.kind() != Kind::Ident {
        return Ok(false);
    }
    if !form.type_args.is_absent() {
        return Ok(false);
    }
    let class = Ident::of(form.callee);
    let id = Id(Atom::from_str(alloc, class.sym)?, class.ctxt);
    Ok(bindings.is_plain_class(&id))
}

/// Whether an expression is one of these, by its kind.
fn is_known(alloc: Global, bindings: Bindings<'_>, expr: Part<'_>) -> Result<bool, AllocError>
    ensures { IfOk result (λ known. known ≡ is_known (names_of bindings.entry) (seen expr.entry)) }
{
    match expr.kind() {
        Kind::CallExpr => Ok(freezes(bindings, expr)),
        Kind::NewExpr => makes_plain(alloc, bindings, expr),
        _ => Ok(false),
    }
}

/// The row of a kind, where it is known whether a call or `new` may stay.
fn row_of_kind(kind: Kind, known: bool) -> Option<&'static [Slot]>
    ensures { option_copied result ≡ rows.row_of kind known }
{
    match kind {
        Kind::TsSatisfiesExpr => Some(&SATISFIES),
        Kind::TsAsExpr | Kind::TsTypeAssertion => Some(&ASSERTION),
        Kind::FnExpr => Some(&FN_EXPR),
        Kind::CallExpr | Kind::NewExpr => { if known { Some(&ARGUMENTS) } else { None } }
        _ => None,
    }
}

/// The row of an expression that stays slot by slot, as its kind says; of a call only where it is `Object.freeze(x)`, and of
/// `new` only where it names a class without type parameters, and no type arguments.
pub fn row_of(
    alloc: Global,
    bindings: Bindings<'_>,
    expr: Part<'_>,
) -> Result<Option<&'static [Slot]>, AllocError>
    ensures { IfOk result (λ row. option_copied row ≡ rows.row_of (kind_of (seen expr.entry)) (is_known (names_of bindings.entry) (seen expr.entry))) }
{
    let known = is_known(alloc, bindings, expr)?;
    Ok(row_of_kind(expr.kind(), known))
}
