//! The type that a value shows by itself.
ghost use Rattle.std.specs.Prelude.{◌≡◌, IfOk, Some, IsTrue, is_some};
ghost use Rattle.fast_check_tree_syntax.specs.declared.tree.Tree.{Tree};
ghost use Rattle.fast_check_tree_syntax.specs.Part.{seen};
ghost use Rattle.fast_check_tree_helpers.specs.LiteralType.{type_of_literal};
ghost use Rattle.fast_check_tree_helpers.specs.declared.literal_type.DeclMutabilityKind.TheVariants.{Mutable};
ghost use Rattle.fast_check_tree_helpers.specs.SimpleType.{is_simple_type};
ghost use Rattle.fast_check_tree_helpers.specs.InferredType.{inferred_type, value_in, shows_type, asserted_type, symbol_type, Asserts};

use crate::builders::unique_symbol;
use crate::fields::SECOND;
use crate::global_calls::is_symbol_call;
use crate::literal_type::{DeclMutabilityKind, maybe_lit_to_ts_type};
use crate::simple_type::is_simple_type;
use crate::template_type::tpl_to_ts_type;
use fast_check_tree_forms_expressions::{CallExpr, TsAsExpr, TsTypeAssertion};
use fast_check_tree_syntax::{Kind, Part, SyntaxContext, Tree};
use std::alloc::{AllocError, Global};

/// The type of an assertion, if that is simple.
fn asserted_type(alloc: Global, ty: Part<'_>) -> Result<Option<Tree>, AllocError>
    ensures { IfOk result (λ found. found ≡ asserted_type (seen ty.entry)) }
{
    if is_simple_type(ty) {
        Ok(Some(ty.to_tree(alloc)?))
    } else {
        Ok(None)
    }
}

/// `unique symbol` for a call that makes a symbol.
fn symbol_type(
    alloc: Global,
    call: &CallExpr<Part<'_>>,
    unresolved: SyntaxContext,
) -> Result<Option<Tree>, AllocError>
    ensures { IfOk result (λ found. found ≡ symbol_type unresolved (seen call.now.callee) (seen call.now.args)) }
{
    if is_symbol_call(call, unresolved) {
        Ok(Some(unique_symbol(alloc)?))
    } else {
        Ok(None)
    }
}

/// The field with the value in parentheses, or before `satisfies`; none of another kind.
pub(crate) fn value_in(kind: Kind) -> Option<usize>
    ensures { result ≡ value_in kind }
{
    match kind {
        Kind::ParenExpr | Kind::TsSatisfiesExpr => Some(SECOND),
        _ => None,
    }
}

/// The type that a value shows by itself, with no checking of types; `None` where it shows none. `unresolved` is the
/// scope number of the names that nothing in the module binds. An assertion to a simple type shows that type itself.
pub fn maybe_infer_type(
    alloc: Global,
    value: Part<'_>,
    mutability: DeclMutabilityKind,
    unresolved: SyntaxContext,
) -> Result<Option<Tree>, AllocError>
    ensures inferred { IfOk result (λ found. found ≡ inferred_type mutability unresolved (seen value.entry)) }
    ensures asserted { (type : Tree) → Asserts type (seen value.entry) → IsTrue (is_simple_type type) → IfOk result (λ found. found ≡ Some type) }
{
    let kind = value.kind();
    match kind {
        Kind::TsAsExpr => asserted_type(alloc, TsAsExpr::of(value).type_ann),
        Kind::TsTypeAssertion => asserted_type(alloc, TsTypeAssertion::of(value).type_ann),
        Kind::CallExpr => symbol_type(alloc, &CallExpr::of(value), unresolved),
        Kind::Tpl => Ok(Some(tpl_to_ts_type(alloc, value, mutability)?)),
        _ => {
            match value_in(kind) {
                Some(place) => maybe_infer_type(alloc, value.part(place), mutability, unresolved),
                None => maybe_lit_to_ts_type(alloc, value, mutability),
            }
        }
    }
}

/// Whether an expression is a literal that shows its type.
pub(crate) fn is_typed_literal(lit: Part<'_>) -> bool
    ensures { result ≡ is_some (type_of_literal Mutable (seen lit.entry)) }
{
    match lit.kind() {
        Kind::Str => true,
        Kind::Bool => true,
        Kind::Number => true,
        Kind::BigInt => true,
        Kind::Null => true,
        Kind::Regex => true,
        _ => false,
    }
}

/// Whether `maybe_infer_type` infers a type from a value, whatever it is declared as. It takes no memory.
pub fn shows_type(value: Part<'_>, unresolved: SyntaxContext) -> bool
    ensures { result ≡ shows_type unresolved (seen value.entry) }
{
    let kind = value.kind();
    match kind {
        Kind::TsAsExpr => is_simple_type(TsAsExpr::of(value).type_ann),
        Kind::TsTypeAssertion => is_simple_type(TsTypeAssertion::of(value).type_ann),
        Kind::CallExpr => is_symbol_call(&CallExpr::of(value), unresolved),
        Kind::Tpl => true,
        _ => {
            match value_in(kind) {
                Some(place) => shows_type(value.part(place), unresolved),
                None => is_typed_literal(value),
            }
        }
    }
}
