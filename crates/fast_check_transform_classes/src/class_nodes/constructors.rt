//! Private constructors: their parameters without properties, and the call of `super` that stands in them.
ghost use Rattle.std.specs.Prelude.{◌≡◌, IfOk, map, if◌then◌else◌};
ghost use Rattle.std.specs.List.{filter};
ghost use Rattle.fast_check_tree_syntax.specs.Part.{seen};
ghost use Rattle.fast_check_tree_syntax.specs.Shape.{parts, list, is_absent, none_range};
ghost use Rattle.fast_check_tree_forms_expressions.specs.Calls.{call_expr, CallExpr-span, CallExpr-ctxt, CallExpr-callee, CallExpr-args, CallExpr-type_args};
ghost use Rattle.fast_check_meaning_signatures.specs.Classes as classes;
ghost use Rattle.fast_check_tree_syntax.specs.declared.kind.Word.TheVariants.{TsNeverKeyword};
ghost use Rattle.fast_check_tree_helpers.specs.Builders.{ts_keyword_type, never_value};
ghost use Rattle.fast_check_meaning_signatures.specs.NewNodes as new;
ghost use Rattle.fast_check_meaning_signatures.specs.NewNodes.{ts_array_type};

use crate::class_nodes::copies::two_trees;
use fast_check_tree_forms_classes::{Param, TsParamProp};
use fast_check_tree_forms_expressions::{ArrayLit, CallExpr, ExprOrSpread, ParenExpr, TsAsExpr};
use fast_check_tree_forms_statements::{BlockStmt, ExprStmt};
use fast_check_tree_helpers::{TsKeywordTypeKind, never_value, ts_keyword_type};
use fast_check_tree_syntax::{DUMMY_SP, Items, Kind, Part, SyntaxContext, Tree};
use std::alloc::{AllocError, Global};

/// A parameter of a constructor, a `Param`, without the modifiers that make it a property too.
fn plain_param(alloc: Global, param: Part<'_>) -> Result<Tree, AllocError>
    ensures { IfOk result (λ tree. tree ≡ classes.plain_param (seen param.entry)) }
{
    if param.kind() == Kind::TsParamProp {
        let TsParamProp { span, param, .. } = TsParamProp::of(param);
        let pat = param.to_tree(alloc)?;
        let decorators = Tree::list(Items::new(alloc));
        let plain = Param {
            span,
            decorators,
            pat,
        };
        return plain.into_tree(alloc);
    }
    param.to_tree(alloc)
}

/// The parameters of a constructor, as a list of `Param`.
pub fn plain_params(alloc: Global, params: Part<'_>) -> Result<Tree, AllocError>
    ensures { IfOk result (λ tree. tree ≡ list (map (λ p. classes.plain_param p) (parts (seen params.entry)))) }
{
    let mut items = Items::new(alloc);
    for param in params.parts() {
        items.push(plain_param(alloc, param.read())?)?;
    }
    Ok(Tree::list(items))
}

/// `never[]`.
fn never_array_type(alloc: Global) -> Result<Tree, AllocError>
    ensures { IfOk result (λ tree. tree ≡ ts_array_type none_range (ts_keyword_type TsNeverKeyword)) }
{
    let never = ts_keyword_type(TsKeywordTypeKind::TsNeverKeyword).into_tree(alloc)?;
    Tree::node(alloc, Kind::TsArrayType, [Tree::Range(DUMMY_SP), never])
}

/// `([] as never[])`, which is spread in place of another list.
fn never_array_in_parens(alloc: Global) -> Result<Tree, AllocError>
    ensures { IfOk result (λ tree. tree ≡ new.never_array_in_parens) }
{
    let type_ann = never_array_type(alloc)?;
    let array = ArrayLit {
        span: DUMMY_SP,
        elems: Tree::list(Items::new(alloc)),
    };
    let expr = array.into_tree(alloc)?;
    let span = DUMMY_SP;
    let asserted = TsAsExpr {
        span,
        expr,
        type_ann,
    };
    let expr = asserted.into_tree(alloc)?;
    ParenExpr { span, expr }.into_tree(alloc)
}

/// What stands for the value of an argument: `{} as never`, or `([] as never[])` where it is spread.
fn never_argument_value(alloc: Global, spread: Part<'_>) -> Result<Tree, AllocError>
    ensures { IfOk result (λ tree. tree ≡ (if is_absent (seen spread.entry) then never_value else new.never_array_in_parens)) }
{
    if spread.is_absent() {
        never_value(alloc)
    } else {
        never_array_in_parens(alloc)
    }
}

/// An argument of a call of the superclass: `{} as never`, or `...([] as never[])`.
fn never_argument(alloc: Global, arg: Part<'_>) -> Result<Tree, AllocError>
    ensures { IfOk result (λ tree. tree ≡ classes.never_argument (seen arg.entry)) }
{
    let spread = ExprOrSpread::of(arg).spread;
    let expr = never_argument_value(alloc, spread)?;
    let spread = spread.to_tree(alloc)?;
    ExprOrSpread { spread, expr }.into_tree(alloc)
}

/// The arguments of a call of the superclass.
fn never_arguments(alloc: Global, args: Part<'_>) -> Result<Tree, AllocError>
    ensures { IfOk result (λ tree. tree ≡ list (map (λ a. classes.never_argument a) (parts (seen args.entry)))) }
{
    let mut items = Items::new(alloc);
    for arg in args.parts() {
        items.push(never_argument(alloc, arg.read())?)?;
    }
    Ok(Tree::list(items))
}

/// Whether a statement is `super(..);`.
fn is_super_call(stmt: Part<'_>) -> bool
    ensures { result ≡ classes.is_super_call (seen stmt.entry) }
{
    if stmt.kind() == Kind::ExprStmt {
        let expr = ExprStmt::of(stmt).expr;
        return expr.kind() == Kind::CallExpr && CallExpr::of(expr).callee.kind() == Kind::Super;
    }
    false
}

/// A call with arguments that are never looked at.
fn never_call(alloc: Global, call: Part<'_>) -> Result<Tree, AllocError>
    ensures { IfOk result (λ tree. tree ≡
        call_expr (CallExpr-span (seen call.entry)) (CallExpr-ctxt (seen call.entry)) (CallExpr-callee (seen call.entry))
        (list (map (λ a. classes.never_argument a) (parts (CallExpr-args (seen call.entry))))) (CallExpr-type_args (seen call.entry))) }
{
    let call = CallExpr::of(call);
    let args = never_arguments(alloc, call.args)?;
    let (callee, type_args) = two_trees(alloc, call.callee, call.type_args)?;
    CallExpr {
        span: call.span,
        ctxt: call.ctxt,
        callee,
        args,
        type_args,
    }
    .into_tree(alloc)
}

/// `super(..);` with arguments that are never looked at.
fn super_call(alloc: Global, stmt: Part<'_>) -> Result<Tree, AllocError>
    ensures { IfOk result (λ tree. tree ≡ classes.super_call (seen stmt.entry)) }
{
    let ExprStmt { span, expr } = ExprStmt::of(stmt);
    let call = never_call(alloc, expr)?;
    Tree::node(alloc, Kind::ExprStmt, [Tree::Range(span), call])
}

/// The calls of the superclass at the top of a body, a list of statements.
fn super_calls(alloc: Global, stmts: Part<'_>) -> Result<Tree, AllocError>
    ensures { IfOk result (λ tree. tree ≡ list (map (λ s. classes.super_call s) (filter (λ s. classes.is_super_call s) (parts (seen stmts.entry))))) }
{
    let mut items = Items::new(alloc);
    for stmt in stmts.parts() {
        let stmt = stmt.read();
        if is_super_call(stmt) {
            items.push(super_call(alloc, stmt)?)?;
        }
    }
    Ok(Tree::list(items))
}

/// The body of a constructor, a block of the calls of the superclass; absent where there is none.
pub fn constructor_body(alloc: Global, body: Part<'_>) -> Result<Tree, AllocError>
    ensures { IfOk result (λ tree. tree ≡ classes.constructor_body (seen body.entry)) }
{
    if body.is_absent() {
        return Ok(Tree::Absent);
    }
    let stmts = super_calls(alloc, BlockStmt::of(body).stmts)?;
    BlockStmt {
        span: DUMMY_SP,
        ctxt: SyntaxContext(0),
        stmts,
    }
    .into_tree(alloc)
}
