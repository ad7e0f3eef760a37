//! Patterns that are emptied, lose their default, or get a type.
ghost use Rattle.std.specs.Prelude.{◌≡◌, IfOk, []};
ghost use Rattle.fast_check_tree_syntax.specs.Part.{seen};
ghost use Rattle.fast_check_tree_syntax.specs.Shape.{list};
ghost use Rattle.fast_check_tree_forms_classes.specs.Functions.{param, Param-span};
ghost use Rattle.fast_check_tree_forms_expressions.specs.Patterns.{AssignPat-span, assign_pat};
ghost use Rattle.fast_check_tree_forms_programs.specs.Names.{BindingIdent-id, Ident-span, Ident-ctxt, Ident-sym, ident};
ghost use Rattle.fast_check_meaning_signatures.specs.Parameters.{emptied_array, emptied_object, rest_arg, without_default, default_typing};
ghost use Rattle.fast_check_meaning_signatures.specs.Typing.{type_of};

use crate::nodes::{empty_object_pat, or_undefined};
use crate::typing::Typing;
use fast_check_tree_forms_classes::Param;
use fast_check_tree_forms_expressions::{ArrayPat, AssignPat, ObjectPat};
use fast_check_tree_forms_programs::{BindingIdent, Ident};
use fast_check_tree_helpers::DeclMutabilityKind;
use fast_check_tree_syntax::{Atom, Items, Kind, Part, SyntaxContext, Tree};
use std::alloc::{AllocError, Global};

/// An array pattern, emptied.
pub fn emptied_array(alloc: Global, pat: Part<'_>) -> Result<Tree, AllocError>
    ensures { IfOk result (λ tree. tree ≡ emptied_array (seen pat.entry)) }
{
    let pat = ArrayPat::of(pat);
    let type_ann = pat.type_ann.to_tree(alloc)?;
    ArrayPat {
        span: pat.span,
        elems: Tree::list(Items::new(alloc)),
        optional: pat.optional,
        type_ann,
    }
    .into_tree(alloc)
}

/// An object pattern, emptied.
pub fn emptied_object(alloc: Global, pat: Part<'_>) -> Result<Tree, AllocError>
    ensures { IfOk result (λ tree. tree ≡ emptied_object (seen pat.entry)) }
{
    let pat = ObjectPat::of(pat);
    let type_ann = pat.type_ann.to_tree(alloc)?;
    ObjectPat {
        span: pat.span,
        props: Tree::list(Items::new(alloc)),
        optional: pat.optional,
        type_ann,
    }
    .into_tree(alloc)
}

/// The target that a rest is gathered in: patterns are emptied, and `{}` stands in place of a target that cannot be there.
pub fn rest_arg(alloc: Global, arg: Part<'_>) -> Result<Tree, AllocError>
    ensures { IfOk result (λ tree. tree ≡ rest_arg (seen arg.entry)) }
{
    match arg.kind() {
        Kind::ArrayPat => emptied_array(alloc, arg),
        Kind::ObjectPat => emptied_object(alloc, arg),
        Kind::RestPat | Kind::AssignPat | Kind::PatExpr => empty_object_pat(alloc),
        _ => arg.to_tree(alloc),
    }
}

/// An identifier that is marked by `?`, or is not.
fn marked_ident(alloc: Global, is_optional: bool, id: Part<'_>) -> Result<Tree, AllocError>
    ensures { IfOk result (λ tree. tree ≡ ident (Ident-span (seen id.entry)) (Ident-ctxt (seen id.entry)) (Ident-sym (seen id.entry)) is_optional) }
{
    let Ident {
        span,
        ctxt,
        sym,
        ..
    } = Ident::of(id);
    let sym = Atom::from_str(alloc, sym)?;
    Ident {
        span,
        ctxt,
        sym,
        optional: is_optional,
    }
    .into_tree(alloc)
}

/// An identifier of a type that had a default: it may be left out where all parameters from it on may, and else takes
/// `undefined` as well.
pub fn without_default(
    alloc: Global,
    is_optional: bool,
    name: Part<'_>,
    ty: Tree,
) -> Result<Tree, AllocError>
    ensures { IfOk result (λ tree. tree ≡ without_default is_optional (BindingIdent-id (seen name.entry)) ty) }
{
    let type_ann = if is_optional {
        ty
    } else {
        or_undefined(alloc, ty.read())?
    };
    let id = marked_ident(alloc, is_optional, BindingIdent::of(name).id)?;
    BindingIdent { id, type_ann }.into_tree(alloc)
}

/// The type of an identifier with a default, as `: type`, where it is written, or shown by the default.
pub fn default_type(
    alloc: Global,
    unresolved: SyntaxContext,
    pat: Part<'_>,
) -> Result<Option<Tree>, AllocError>
    ensures { IfOk result (λ ty. ty ≡ type_of unresolved (default_typing (seen pat.entry))) }
{
    let AssignPat { left, right, .. } = AssignPat::of(pat);
    Typing {
        is_private: false,
        type_ann: BindingIdent::of(left).type_ann,
        value: right,
        mutability: DeclMutabilityKind::Mutable,
    }
    .type_of(alloc, unresolved)
}

/// A parameter with this pattern, and without decorators.
pub fn with_pattern(alloc: Global, old: Part<'_>, pat: Tree) -> Result<Tree, AllocError>
    ensures { IfOk result (λ tree. tree ≡ param (Param-span (seen old.entry)) (list []) pat) }
{
    Param {
        span: Param::of(old).span,
        decorators: Tree::list(Items::new(alloc)),
        pat,
    }
    .into_tree(alloc)
}

/// A pattern with this default, round what is left of it.
pub fn with_default(
    alloc: Global,
    pat: Part<'_>,
    left: Tree,
    right: Tree,
) -> Result<Tree, AllocError>
    ensures { IfOk result (λ tree. tree ≡ assign_pat (AssignPat-span (seen pat.entry)) left right) }
{
    let span = AssignPat::of(pat).span;
    AssignPat { span, left, right }.into_tree(alloc)
}
