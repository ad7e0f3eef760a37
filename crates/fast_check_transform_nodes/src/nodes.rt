//! New nodes: `{} as never`, emptied bodies, and what returns a value of type never.
ghost use Rattle.std.specs.Prelude.{◌≡◌, IfOk, ◌∷◌, [], codes, true, false, if◌then◌else◌};
ghost use Rattle.fast_check_tree_syntax.specs.Part.{seen};
ghost use Rattle.fast_check_tree_syntax.specs.Shape.{list, none_range};
ghost use Rattle.fast_check_tree_syntax.specs.declared.tree.Tree.{Absent};
ghost use Rattle.fast_check_tree_forms_expressions.specs.Patterns.{rest_pat};
ghost use Rattle.fast_check_tree_forms_programs.specs.Names.{binding_ident};
ghost use Rattle.fast_check_tree_syntax.specs.declared.kind.Word.TheVariants.{TsUndefinedKeyword};
ghost use Rattle.fast_check_tree_forms_statements.specs.Statements.{return_stmt};
ghost use Rattle.fast_check_tree_forms_types.specs.TypeParams.{ts_type_param_instantiation};
ghost use Rattle.fast_check_tree_helpers.specs.Builders.{any_type_ann, never_value, new_ident, ts_keyword_type};
ghost use Rattle.fast_check_meaning_signatures.specs.NewNodes as new;

use fast_check_tree_forms_classes::Param;
use fast_check_tree_forms_expressions::{
    ArrayLit, ObjectLit, ParenExpr, PatExpr, RestPat, TsAsExpr,
};
use fast_check_tree_forms_programs::{BindingIdent, Ident};
use fast_check_tree_forms_statements::{BlockStmt, ReturnStmt};
use fast_check_tree_forms_types::{TsTypeAnn, TsTypeParamInstantiation, TsTypeRef, TsUnionType};
use fast_check_tree_helpers::{
    TsKeywordTypeKind, any_type_ann, is_global, is_void_type, never_value, new_ident,
    ts_keyword_type,
};
use fast_check_tree_syntax::{Atom, DUMMY_SP, Items, Kind, Part, SyntaxContext, Tree};
use std::alloc::{AllocError, Global};

/// `[] as never`, the default of an array pattern that has a type.
pub fn never_array(alloc: Global) -> Result<Tree, AllocError>
    ensures { IfOk result (λ tree. tree ≡ new.never_array) }
{
    let type_ann = ts_keyword_type(TsKeywordTypeKind::TsNeverKeyword).into_tree(alloc)?;
    let array = ArrayLit {
        span: DUMMY_SP,
        elems: Tree::list(Items::new(alloc)),
    };
    TsAsExpr {
        span: DUMMY_SP,
        expr: array.into_tree(alloc)?,
        type_ann,
    }
    .into_tree(alloc)
}

/// `({} as never)`, what an assertion asserts a type of, and the body of an arrow that gives a value.
pub fn never_in_parens(alloc: Global) -> Result<Tree, AllocError>
    ensures { IfOk result (λ tree. tree ≡ new.never_in_parens) }
{
    ParenExpr {
        span: DUMMY_SP,
        expr: never_value(alloc)?,
    }
    .into_tree(alloc)
}

/// `{}`, where a pattern stands.
pub fn empty_object_pat(alloc: Global) -> Result<Tree, AllocError>
    ensures { IfOk result (λ tree. tree ≡ new.empty_object_pat) }
{
    let object = ObjectLit {
        span: DUMMY_SP,
        props: Tree::list(Items::new(alloc)),
    };
    PatExpr {
        expr: object.into_tree(alloc)?,
    }
    .into_tree(alloc)
}

/// `{ stmts }`.
fn new_block(alloc: Global, stmts: Items<Tree>) -> Result<Tree, AllocError>
    ensures { IfOk result (λ tree. tree ≡ new.new_block stmts) }
{
    BlockStmt {
        span: DUMMY_SP,
        ctxt: SyntaxContext(0),
        stmts: Tree::list(stmts),
    }
    .into_tree(alloc)
}

/// Whether a return type is there and is not `void`.
fn returns_value(return_type: Part<'_>) -> bool
    ensures { result ≡ new.returns_value (seen return_type.entry) }
{
    !return_type.is_absent() && !is_void_type(TsTypeAnn::of(return_type).type_ann)
}

/// `return {} as never;`.
fn return_never(alloc: Global) -> Result<Tree, AllocError>
    ensures { IfOk result (λ tree. tree ≡ return_stmt none_range never_value) }
{
    ReturnStmt {
        span: DUMMY_SP,
        arg: never_value(alloc)?,
    }
    .into_tree(alloc)
}

/// The body of a function of this return type, a `TsTypeAnn` or absent: `{ return {} as never; }`, or `{}` where nothing
/// is returned.
pub fn function_body(alloc: Global, return_type: Part<'_>) -> Result<Tree, AllocError>
    ensures { IfOk result (λ tree. tree ≡ new.function_body (seen return_type.entry)) }
{
    if !returns_value(return_type) {
        return new_block(alloc, Items::new(alloc));
    }
    let statement = return_never(alloc)?;
    let stmts = one(alloc, statement)?;
    new_block(alloc, stmts)
}

/// The body of an arrow of this return type, a `TsTypeAnn` or absent: `({} as never)`, or `{}` where nothing is returned.
pub fn arrow_body(alloc: Global, return_type: Part<'_>) -> Result<Tree, AllocError>
    ensures { IfOk result (λ tree. tree ≡ new.arrow_body (seen return_type.entry)) }
{
    if returns_value(return_type) {
        never_in_parens(alloc)
    } else {
        new_block(alloc, Items::new(alloc))
    }
}

/// The list of one tree.
fn one(alloc: Global, tree: Tree) -> Result<Items<Tree>, AllocError>
    ensures { IfOk result (λ items. items ≡ tree ∷ []) }
{
    let mut items = Items::new(alloc);
    items.push(tree)?;
    Ok(items)
}

/// The identifier `Promise`.
fn promise_name(alloc: Global) -> Result<Tree, AllocError>
    ensures { IfOk result (λ tree. tree ≡ new_ident (codes "Promise")) }
{
    new_ident(Atom::from_str(alloc, "Promise")?).into_tree(alloc)
}

/// `<ty>`, the arguments of a type.
fn type_argument(alloc: Global, ty: Tree) -> Result<Tree, AllocError>
    ensures { IfOk result (λ tree. tree ≡ ts_type_param_instantiation none_range (list (ty ∷ []))) }
{
    let params = one(alloc, ty)?;
    TsTypeParamInstantiation {
        span: DUMMY_SP,
        params: Tree::list(params),
    }
    .into_tree(alloc)
}

/// `Promise<ty>`.
pub fn promise_of(alloc: Global, ty: Tree) -> Result<Tree, AllocError>
    ensures { IfOk result (λ tree. tree ≡ new.promise_of ty) }
{
    let type_params = type_argument(alloc, ty)?;
    let type_name = promise_name(alloc)?;
    TsTypeRef {
        span: DUMMY_SP,
        type_name,
        type_params,
    }
    .into_tree(alloc)
}

/// Whether a type is `Promise` of one type, the global one.
fn is_promise(unresolved: SyntaxContext, ty: Part<'_>) -> bool
    ensures { result ≡ new.is_promise unresolved (seen ty.entry) }
{
    if ty.kind() == Kind::TsTypeRef {
        let reference = TsTypeRef::of(ty);
        let arguments = TsTypeParamInstantiation::of(reference.type_params).params;
        return is_global("Promise", unresolved, reference.type_name) && is_one(arguments.parts());
    }
    false
}

fn is_one(trees: &[Tree]) -> bool
    ensures { result ≡ new.is_one trees.now }
{
    match trees {
        [_] => true,
        _ => false,
    }
}

/// The return type of an arrow that gives a value of this type: in a promise where the arrow is async, unless it is one.
/// `unresolved` is the scope number of the names that nothing in the module binds.
pub fn promised(
    alloc: Global,
    unresolved: SyntaxContext,
    is_async: bool,
    ty: Tree,
) -> Result<Tree, AllocError>
    ensures { IfOk result (λ tree. tree ≡ new.promised unresolved is_async ty) }
{
    if is_async && !is_promise(unresolved, ty.read()) {
        promise_of(alloc, ty)
    } else {
        Ok(ty)
    }
}

/// The return type of a function that returns nothing: `void`, or `Promise<void>` where it is async.
pub fn void_or_promise_void(alloc: Global, is_async: bool) -> Result<Tree, AllocError>
    ensures { IfOk result (λ tree. tree ≡ new.void_or_promise_void is_async) }
{
    let nothing = ts_keyword_type(TsKeywordTypeKind::TsVoidKeyword).into_tree(alloc)?;
    if is_async {
        promise_of(alloc, nothing)
    } else {
        Ok(nothing)
    }
}

/// A type and `undefined`.
fn with_undefined(alloc: Global, ty: Part<'_>) -> Result<Items<Tree>, AllocError>
    ensures { IfOk result (λ types. types ≡ seen ty.entry ∷ ts_keyword_type TsUndefinedKeyword ∷ []) }
{
    let undefined = ts_keyword_type(TsKeywordTypeKind::TsUndefinedKeyword).into_tree(alloc)?;
    let ty = ty.to_tree(alloc)?;
    Ok(Items::from_vec(Vec::from_array(alloc, [ty, undefined])?))
}

/// `: ty | undefined`, from `: ty`, a `TsTypeAnn`.
pub fn or_undefined(alloc: Global, type_ann: Part<'_>) -> Result<Tree, AllocError>
    ensures { IfOk result (λ tree. tree ≡ new.or_undefined (seen type_ann.entry)) }
{
    let TsTypeAnn { span, type_ann } = TsTypeAnn::of(type_ann);
    let types = with_undefined(alloc, type_ann)?;
    let union = TsUnionType {
        span: DUMMY_SP,
        types: Tree::list(types),
    };
    let type_ann = union.into_tree(alloc)?;
    TsTypeAnn { span, type_ann }.into_tree(alloc)
}

/// `paramN`, or `paramN?`, for the parameter at place N.
fn param_ident(alloc: Global, place: usize, optional: bool) -> Result<Tree, AllocError>
    ensures { IfOk result (λ tree. tree ≡ new.param_ident place optional) }
{
    let name = format!(in alloc; "param{place}")?;
    Ident {
        span: DUMMY_SP,
        ctxt: SyntaxContext(0),
        sym: Atom::from_str(alloc, name.as_str())?,
        optional,
    }
    .into_tree(alloc)
}

/// `paramN?: any`, or `...paramN: any` for a rest, as a pattern.
fn any_pat(alloc: Global, place: usize, is_rest: bool) -> Result<Tree, AllocError>
    ensures { IfOk result (λ pat. pat ≡
        (if is_rest then rest_pat none_range none_range (binding_ident (new.param_ident place false) Absent) any_type_ann
        else binding_ident (new.param_ident place true) any_type_ann)) }
{
    let id = param_ident(alloc, place, !is_rest)?;
    if is_rest {
        return any_rest(alloc, id);
    }
    let type_ann = any_type_ann(alloc)?;
    BindingIdent { id, type_ann }.into_tree(alloc)
}

/// `paramN?: any`, or `...paramN: any` for a rest: the parameter at place N of an implementation behind overloads.
pub fn any_param(alloc: Global, place: usize, is_rest: bool) -> Result<Tree, AllocError>
    ensures { IfOk result (λ tree. tree ≡ new.any_param place is_rest) }
{
    let pat = any_pat(alloc, place, is_rest)?;
    Param {
        span: DUMMY_SP,
        decorators: Tree::list(Items::new(alloc)),
        pat,
    }
    .into_tree(alloc)
}

/// `...id: any`.
fn any_rest(alloc: Global, id: Tree) -> Result<Tree, AllocError>
    ensures { IfOk result (λ tree. tree ≡ rest_pat none_range none_range (binding_ident id Absent) any_type_ann) }
{
    let name = BindingIdent {
        id,
        type_ann: Tree::Absent,
    };
    let arg = name.into_tree(alloc)?;
    let type_ann = any_type_ann(alloc)?;
    RestPat {
        span: DUMMY_SP,
        dot3_token: DUMMY_SP,
        arg,
        type_ann,
    }
    .into_tree(alloc)
}
