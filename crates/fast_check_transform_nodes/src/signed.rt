//! Functions and arrows with a signature and no code.
ghost use Rattle.std.specs.Prelude.{◌≡◌, IfOk, if◌then◌else◌};
ghost use Rattle.fast_check_tree_syntax.specs.Part.{seen};
ghost use Rattle.fast_check_tree_syntax.specs.Shape.{is_absent, list};
ghost use Rattle.fast_check_tree_syntax.specs.declared.tree.Tree.{Absent};
ghost use Rattle.fast_check_tree_forms_expressions.specs.Expressions.{ArrowExpr-span, ArrowExpr-ctxt, ArrowExpr-is_async, ArrowExpr-is_generator};
ghost use Rattle.fast_check_tree_forms_expressions.specs.Expressions.{ArrowExpr-type_params, arrow_expr};
ghost use Rattle.fast_check_meaning_signatures.specs.Answers as answers;
ghost use Rattle.fast_check_meaning_signatures.specs.Functions.{function_head, arrow_head};
ghost use Rattle.fast_check_meaning_signatures.specs.NewNodes as new;

use crate::nodes::{arrow_body, function_body};
use fast_check_tree_forms_classes::Function;
use fast_check_tree_forms_expressions::ArrowExpr;
use fast_check_tree_syntax::{Items, Part, Tree};
use std::alloc::{AllocError, Global};

/// The body that stands for a function's own, if there is one.
fn new_body(alloc: Global, body: Part<'_>, return_type: Part<'_>) -> Result<Tree, AllocError>
    ensures { IfOk result (λ tree. tree ≡ (if is_absent (seen body.entry) then Absent else new.function_body (seen return_type.entry))) }
{
    if body.is_absent() {
        return Ok(Tree::Absent);
    }
    function_body(alloc, return_type)
}

/// The body that stands for a function's own, if there is one, and its type parameters.
fn lower_parts(
    alloc: Global,
    body: Part<'_>,
    type_params: Part<'_>,
    return_type: Part<'_>,
) -> Result<(Tree, Tree), AllocError>
    ensures { IfOk result (λ trees. trees ≡
        ((if is_absent (seen body.entry) then Absent else new.function_body (seen return_type.entry)), seen type_params.entry)) }
{
    let body = new_body(alloc, body, return_type)?;
    let type_params = type_params.to_tree(alloc)?;
    Ok((body, type_params))
}

/// A function of this return type and these parameters, with a body that stands for its own.
pub fn signed_function(
    alloc: Global,
    function: Part<'_>,
    return_type: Tree,
    params: Items<Tree>,
) -> Result<Tree, AllocError>
    ensures { IfOk result (λ tree. tree ≡ answers.signed_function (function_head (seen function.entry)) return_type params) }
{
    let function = Function::of(function);
    let (body, type_params) = lower_parts(
        alloc,
        function.body,
        function.type_params,
        return_type.read(),
    )?;
    Function {
        span: function.span,
        params: Tree::list(params),
        decorators: Tree::list(Items::new(alloc)),
        ctxt: function.ctxt,
        body,
        is_generator: false,
        is_async: false,
        type_params,
        return_type,
    }
    .into_tree(alloc)
}

/// An arrow with other parameters, another body, mark and return type.
fn retyped_arrow(
    alloc: Global,
    arrow: Part<'_>,
    params: Items<Tree>,
    body: Tree,
    is_async: bool,
    return_type: Tree,
) -> Result<Tree, AllocError>
    ensures { IfOk result (λ tree. tree ≡
        arrow_expr (ArrowExpr-span (seen arrow.entry)) (ArrowExpr-ctxt (seen arrow.entry)) (list params) body is_async
        (ArrowExpr-is_generator (seen arrow.entry)) (ArrowExpr-type_params (seen arrow.entry)) return_type) }
{
    let arrow = ArrowExpr::of(arrow);
    let type_params = arrow.type_params.to_tree(alloc)?;
    ArrowExpr {
        span: arrow.span,
        ctxt: arrow.ctxt,
        params: Tree::list(params),
        body,
        is_async,
        is_generator: arrow.is_generator,
        type_params,
        return_type,
    }
    .into_tree(alloc)
}

/// An arrow of this return type and these parameters, with a body that stands for its own.
pub fn signed_arrow(
    alloc: Global,
    arrow: Part<'_>,
    return_type: Tree,
    params: Items<Tree>,
) -> Result<Tree, AllocError>
    ensures { IfOk result (λ tree. tree ≡ answers.signed_arrow (arrow_head (seen arrow.entry)) return_type params) }
{
    let body = arrow_body(alloc, return_type.read())?;
    retyped_arrow(alloc, arrow, params, body, false, return_type)
}

/// An arrow with this value, which gives its return type.
pub fn kept_arrow(
    alloc: Global,
    arrow: Part<'_>,
    value: Tree,
    params: Items<Tree>,
) -> Result<Tree, AllocError>
    ensures { IfOk result (λ tree. tree ≡ answers.kept_arrow (arrow_head (seen arrow.entry)) (ArrowExpr-is_async (seen arrow.entry)) value params) }
{
    let is_async = ArrowExpr::of(arrow).is_async;
    retyped_arrow(alloc, arrow, params, value, is_async, Tree::Absent)
}
