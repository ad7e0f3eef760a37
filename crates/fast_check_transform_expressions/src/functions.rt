//! What stays of a function and of an arrow.
ghost use Rattle.std.specs.Prelude.{◌≡◌, IfOk, Some};
ghost use Rattle.fast_check_tree_syntax.specs.Part.{seen};
ghost use Rattle.fast_check_tree_syntax.specs.Shape.{parts};
ghost use Rattle.fast_check_meaning_signatures.specs.Answers.{answer_to, answer_of, faultless};
ghost use Rattle.fast_check_meaning_signatures.specs.Expressions.{expr_seen};
ghost use Rattle.fast_check_meaning_signatures.specs.Functions.{class_seen, body_seen, return_type_seen, function_seen, arrow_seen, implementation_seen};
ghost use Rattle.fast_check_meaning_signatures.specs.Functions.{any_params_from};
ghost use Rattle.fast_check_transform_expressions.specs.Looked.{known_type, known_answer};
ghost use Rattle.fast_check_transform_nodes.specs.Bindings.{names_of};
ghost use Rattle.fast_check_transform_nodes.specs.Gives.{Gives, GivesTree};

use crate::expressions::transform_value;
use crate::parameters::{transform_params, transform_pats};
use fast_check_meaning_signatures::{Fault, FaultKind, FunctionKind};
use fast_check_transform_nodes::{
    Bindings, any_param, kept_arrow, promised, signed_arrow, signed_function, void_or_promise_void,
};
use fast_check_tree_forms_classes::{Function, Param};
use fast_check_tree_forms_expressions::ArrowExpr;
use fast_check_tree_helpers::{
    DeclMutabilityKind, ReturnStatementAnalysis, analyze_return_stmts_in_function_body,
    any_type_ann, maybe_infer_type, named_return, type_ann,
};
use fast_check_tree_syntax::{Items, Kind, Part, SourceRange, SyntaxContext, Tree};
use std::alloc::{AllocError, Global};

/// The body of a function, a `BlockStmt`, with the marks of the function.
#[derive(Clone, Copy)]
struct Body<'a> {
    is_async: bool,
    is_generator: bool,
    block: Part<'a>,
}

/// The return type that a body shows by its class; where it shows none, a fault.
fn type_by_class(
    alloc: Global,
    kind: FunctionKind,
    is_async: bool,
    place: SourceRange,
    class: ReturnStatementAnalysis,
    faults: &mut Vec<Fault>,
) -> Result<Tree, AllocError>
    ensures { GivesTree result (answer_to (class_seen kind is_async place class)) faults.old faults.new }
{
    let is_definitely_void_or_never = match class {
        ReturnStatementAnalysis::Void => match kind {
            FunctionKind::Getter => false,
            _ => return type_ann(alloc, void_or_promise_void(alloc, is_async)?),
        },
        ReturnStatementAnalysis::None => match kind {
            FunctionKind::DeclarationLike => {
                return type_ann(alloc, void_or_promise_void(alloc, is_async)?);
            }
            FunctionKind::ExpressionLike => true,
            _ => false,
        },
        ReturnStatementAnalysis::Single => false,
        ReturnStatementAnalysis::Multiple => false,
    };
    faults.push(Fault {
        kind: FaultKind::MissingExplicitReturnType {
            is_definitely_void_or_never,
            is_async,
        },
        range: place,
    })?;
    Ok(Tree::Absent)
}

/// The return type that the body of a function shows, as `: type`: the type that it names, in a promise where the function
/// is async, or else that of its class; where it shows none, a fault. The body of a generator names none.
fn type_by_body(
    alloc: Global,
    unresolved: SyntaxContext,
    kind: FunctionKind,
    place: SourceRange,
    body: Body<'_>,
    faults: &mut Vec<Fault>,
) -> Result<Tree, AllocError>
    ensures { GivesTree result (answer_to (body_seen unresolved kind body.entry.is_async body.entry.is_generator place (seen body.entry.block)))
        faults.old faults.new }
{
    match named_return(alloc, unresolved, body.is_generator, body.block)? {
        Some(ty) => {
            let ty = promised(alloc, unresolved, body.is_async, ty)?;
            type_ann(alloc, ty)
        }
        None => {
            let class = analyze_return_stmts_in_function_body(body.block);
            type_by_class(alloc, kind, body.is_async, place, class, faults)
        }
    }
}

/// The return type of a function, as `: type`: the written one, or that its body shows. Of a generator it must be written,
/// and a setter has none.
fn return_type(
    alloc: Global,
    unresolved: SyntaxContext,
    kind: FunctionKind,
    place: SourceRange,
    function: Part<'_>,
    faults: &mut Vec<Fault>,
) -> Result<Tree, AllocError>
    ensures { GivesTree result (answer_to (return_type_seen unresolved kind place (seen function.entry))) faults.old faults.new }
{
    let function = Function::of(function);
    if !function.return_type.is_absent() {
        return function.return_type.to_tree(alloc);
    }
    if matches!(kind, FunctionKind::Setter) {
        return Ok(Tree::Absent);
    }
    if function.is_generator {
        faults.push(Fault {
            kind: FaultKind::MissingExplicitReturnType {
                is_definitely_void_or_never: false,
                is_async: function.is_async,
            },
            range: place,
        })?;
        return Ok(Tree::Absent);
    }
    if function.body.is_absent() {
        return Ok(Tree::Absent);
    }
    let body = Body {
        is_async: function.is_async,
        is_generator: function.is_generator,
        block: function.body,
    };
    type_by_body(alloc, unresolved, kind, place, body, faults)
}

/// The return type of an arrow where it is known, as `: type`: written, or shown by its body; none where its value is to
/// give it. An empty option stands for a type that is missing.
fn arrow_type(
    alloc: Global,
    unresolved: SyntaxContext,
    place: SourceRange,
    arrow: Part<'_>,
    faults: &mut Vec<Fault>,
) -> Result<Option<Tree>, AllocError>
    ensures { Gives result (known_answer (known_type unresolved place (seen arrow.entry))) faults.old faults.new }
{
    let arrow = ArrowExpr::of(arrow);
    if !arrow.return_type.is_absent() {
        return Ok(Some(arrow.return_type.to_tree(alloc)?));
    }
    if arrow.body.kind() == Kind::BlockStmt {
        let kind = FunctionKind::ExpressionLike;
        let body = Body {
            is_async: arrow.is_async,
            is_generator: arrow.is_generator,
            block: arrow.body,
        };
        return Ok(Some(type_by_body(alloc, unresolved, kind, place, body, faults)?));
    }
    match maybe_infer_type(alloc, arrow.body, DeclMutabilityKind::Mutable, unresolved)? {
        Some(ty) => {
            let ty = promised(alloc, unresolved, arrow.is_async, ty)?;
            Ok(Some(type_ann(alloc, ty)?))
        }
        None => Ok(None),
    }
}

/// An implementation behind overloads, a `Function`: its parameters are `paramN?: any`, or `...paramN: any` for a rest, and
/// it returns `any`. It has no fault.
pub fn transform_implementation(alloc: Global, function: Part<'_>) -> Result<Tree, AllocError>
    ensures { IfOk result (λ tree. answer_to (implementation_seen (seen function.entry)) ≡ faultless (Some tree)) }
{
    let params = any_params(alloc, Function::of(function).params)?;
    signed_function(alloc, function, any_type_ann(alloc)?, params)
}

/// The parameters of an implementation behind overloads: `paramN?: any`, or `...paramN: any` for a rest, for each `Param`.
pub fn any_params(alloc: Global, params: Part<'_>) -> Result<Items<Tree>, AllocError>
    ensures { IfOk result (λ items. answer_of (any_params_from 0 (parts (seen params.entry))) ≡ faultless items) }
{
    let mut items = Items::new(alloc);
    for (place, param) in params.parts().iter().enumerate() {
        let is_rest = Param::of(param.read()).pat.kind() == Kind::RestPat;
        items.push(any_param(alloc, place, is_rest)?)?;
    }
    Ok(items)
}

/// A function, a `Function`: its return type is the written one, or that its body shows, and its body stands for that.
/// A fault of the return type stands at `place`, and comes before those of the parameters.
#[cycle(transform)]
pub fn transform_fn(
    alloc: Global,
    bindings: Bindings<'_>,
    kind: FunctionKind,
    place: SourceRange,
    function: Part<'_>,
    faults: &mut Vec<Fault>,
) -> Result<Tree, AllocError>
    ensures { let names = names_of bindings.entry in
        GivesTree result (answer_to (function_seen names (expr_seen names) kind place (seen function.entry))) faults.old faults.new }
{
    let return_type = return_type(alloc, bindings.unresolved, kind, place, function, faults)?;
    let params = transform_params(alloc, bindings, Function::of(function).params, faults)?;
    signed_function(alloc, function, return_type, params)
}

/// An arrow: its return type is the written one, or that its body shows; else its value gives it, if it may stay. A fault
/// of the return type stands at `place`, that of the parent that names the arrow, or else at the arrow, and comes before
/// those of the parameters.
#[cycle(transform)]
pub fn transform_arrow(
    alloc: Global,
    bindings: Bindings<'_>,
    arrow: Part<'_>,
    place: Option<SourceRange>,
    faults: &mut Vec<Fault>,
) -> Result<Tree, AllocError>
    ensures { let names = names_of bindings.entry in
        GivesTree result (answer_to (arrow_seen names (expr_seen names) place (seen arrow.entry))) faults.old faults.new }
{
    let form = ArrowExpr::of(arrow);
    let place = place.unwrap_or(form.span);
    match arrow_type(alloc, bindings.unresolved, place, arrow, faults)? {
        Some(return_type) => {
            let params = transform_pats(alloc, bindings, form.params, faults)?;
            signed_arrow(alloc, arrow, return_type, params)
        }
        None => {
            let kind = FaultKind::MissingExplicitReturnType {
                is_definitely_void_or_never: false,
                is_async: form.is_async,
            };
            let fault = Fault { kind, range: place };
            let value = transform_value(alloc, bindings, form.body, None, fault, faults)?;
            let params = transform_pats(alloc, bindings, form.params, faults)?;
            kept_arrow(alloc, arrow, value, params)
        }
    }
}
