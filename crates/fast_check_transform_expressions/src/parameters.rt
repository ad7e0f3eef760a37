//! What stays of parameters and their patterns.
ghost use Rattle.fast_check_tree_syntax.specs.Part.{seen};
ghost use Rattle.fast_check_tree_syntax.specs.Shape.{parts};
ghost use Rattle.fast_check_tree_helpers.specs.OptionalParams.{IsOptionalStart};
ghost use Rattle.fast_check_meaning_signatures.specs.Answers.{answer_to, answer_of};
ghost use Rattle.fast_check_meaning_signatures.specs.Seen.{faulty};
ghost use Rattle.fast_check_meaning_signatures.specs.declared.fault.FaultKind.TheVariants.{UnsupportedDestructuring};
ghost use Rattle.fast_check_meaning_signatures.specs.Expressions.{expr_seen};
ghost use Rattle.fast_check_meaning_signatures.specs.Parameters.{typed, rest_seen, assign_seen, pat_seen, pats_seen};
ghost use Rattle.fast_check_transform_expressions.specs.Looked.{IsStartOfParams, params_looked};
ghost use Rattle.fast_check_transform_nodes.specs.Bindings.{names_of};
ghost use Rattle.fast_check_transform_nodes.specs.Gives.{Gives, GivesTree};

use crate::expressions::transform_value;
use fast_check_meaning_signatures::{Fault, FaultKind};
use fast_check_transform_nodes::{
    Bindings, default_type, emptied_array, emptied_object, never_array, rest_arg, with_default,
    with_pattern, without_default,
};
use fast_check_tree_forms_classes::Param;
use fast_check_tree_forms_expressions::{ArrayPat, AssignPat, ObjectPat, RestPat};
use fast_check_tree_forms_programs::{BindingIdent, Ident};
use fast_check_tree_helpers::ranges::range_of_node;
use fast_check_tree_helpers::{ParamsOptionalStartIndex, never_value};
use fast_check_tree_syntax::{Items, Kind, Part, SourceRange, Tree};
use std::alloc::{AllocError, Global};

/// A parameter that stands if its type is written; else a fault at this place.
fn typed(
    ty: Part<'_>,
    place: SourceRange,
    pat: Tree,
    faults: &mut Vec<Fault>,
) -> Result<Tree, AllocError>
    ensures { GivesTree result (answer_to (typed (seen ty.entry) place pat)) faults.old faults.new }
{
    if ty.is_absent() {
        faults.push(Fault {
            kind: FaultKind::MissingExplicitType,
            range: place,
        })?;
        return Ok(Tree::Absent);
    }
    Ok(pat)
}

/// A pattern that can't stand: an empty option, and a fault at this place.
fn unsupported(place: SourceRange, faults: &mut Vec<Fault>) -> Result<Tree, AllocError>
    ensures { GivesTree result (answer_to (faulty UnsupportedDestructuring place)) faults.old faults.new }
{
    faults.push(Fault {
        kind: FaultKind::UnsupportedDestructuring,
        range: place,
    })?;
    Ok(Tree::Absent)
}

/// A rest.
fn transform_rest(alloc: Global, pat: Part<'_>, faults: &mut Vec<Fault>) -> Result<Tree, AllocError>
    ensures { GivesTree result (answer_to (rest_seen (seen pat.entry))) faults.old faults.new }
{
    let rest = RestPat::of(pat);
    let emptied = RestPat {
        span: rest.span,
        dot3_token: rest.dot3_token,
        arg: rest_arg(alloc, rest.arg)?,
        type_ann: rest.type_ann.to_tree(alloc)?,
    };
    typed(rest.type_ann, rest.span, emptied.into_tree(alloc)?, faults)
}

/// From where on all parameters of an arrow may be left out.
fn start_of_patterns(pats: &[Tree]) -> ParamsOptionalStartIndex
    ensures { IsOptionalStart result pats.now }
{
    ParamsOptionalStartIndex::build(pats.iter().map(|pat| pat.read()))
}

/// From where on all parameters of a function may be left out.
fn start_of_params(params: &[Tree]) -> ParamsOptionalStartIndex
    ensures { IsStartOfParams result params.now }
{
    ParamsOptionalStartIndex::build(params.iter().map(|param| Param::of(param.read()).pat))
}

/// The patterns of an arrow's parameters, in order.
#[cycle(transform)]
pub fn transform_pats(
    alloc: Global,
    bindings: Bindings<'_>,
    params: Part<'_>,
    faults: &mut Vec<Fault>,
) -> Result<Items<Tree>, AllocError>
    ensures { let names = names_of bindings.entry in
        Gives result (answer_of (pats_seen names (expr_seen names) (parts (seen params.entry)))) faults.old faults.new }
{
    let pats = params.parts();
    let start = start_of_patterns(pats);
    let mut items = Items::new(alloc);
    for (index, pat) in pats.iter().enumerate() {
        let is_optional = start.is_optional_at_index(index);
        items.push(transform_param_pat(alloc, bindings, is_optional, pat.read(), faults)?)?;
    }
    Ok(items)
}

/// The parameters of a function, in order.
#[cycle(transform)]
pub fn transform_params(
    alloc: Global,
    bindings: Bindings<'_>,
    params: Part<'_>,
    faults: &mut Vec<Fault>,
) -> Result<Items<Tree>, AllocError>
    ensures { Gives result (answer_of (params_looked (names_of bindings.entry) (parts (seen params.entry)))) faults.old faults.new }
{
    let params = params.parts();
    let start = start_of_params(params);
    let mut items = Items::new(alloc);
    for (index, param) in params.iter().enumerate() {
        let param = param.read();
        let is_optional = start.is_optional_at_index(index);
        let pat = Param::of(param).pat;
        let pat = transform_param_pat(alloc, bindings, is_optional, pat, faults)?;
        items.push(with_pattern(alloc, param, pat)?)?;
    }
    Ok(items)
}

/// The pattern of a parameter (deno_graph's `handle_param_pat`). `is_optional` says whether all parameters from it on may
/// be left out. One without a type that is written or shown is a fault; in its place stands an empty option.
#[cycle(transform)]
pub fn transform_param_pat(
    alloc: Global,
    bindings: Bindings<'_>,
    is_optional: bool,
    pat: Part<'_>,
    faults: &mut Vec<Fault>,
) -> Result<Tree, AllocError>
    ensures { let names = names_of bindings.entry in
        GivesTree result (answer_to (pat_seen names (expr_seen names) is_optional (seen pat.entry))) faults.old faults.new }
{
    match pat.kind() {
        Kind::BindingIdent => {
            let BindingIdent { id, type_ann } = BindingIdent::of(pat);
            typed(type_ann, Ident::of(id).span, pat.to_tree(alloc)?, faults)
        }
        Kind::AssignPat => transform_assign_pat(alloc, bindings, is_optional, pat, faults),
        Kind::RestPat => transform_rest(alloc, pat, faults),
        Kind::ArrayPat => {
            let ArrayPat { span, type_ann, .. } = ArrayPat::of(pat);
            typed(type_ann, span, emptied_array(alloc, pat)?, faults)
        }
        Kind::ObjectPat => {
            let ObjectPat { span, type_ann, .. } = ObjectPat::of(pat);
            typed(type_ann, span, emptied_object(alloc, pat)?, faults)
        }
        _ => unsupported(range_of_node(pat), faults),
    }
}

/// A parameter's pattern with a default. Where neither the left side nor the default shows a type, the default has to stay; where it may
/// not, the type is missing at the left side.
#[cycle(transform)]
fn transform_assign_pat(
    alloc: Global,
    bindings: Bindings<'_>,
    is_optional: bool,
    pat: Part<'_>,
    faults: &mut Vec<Fault>,
) -> Result<Tree, AllocError>
    ensures { let names = names_of bindings.entry in
        GivesTree result (answer_to (assign_seen names (expr_seen names) is_optional (seen pat.entry))) faults.old faults.new }
{
    let AssignPat { span, left, right } = AssignPat::of(pat);
    let (name, range, left) = match left.kind() {
        Kind::BindingIdent => {
            if let Some(ty) = default_type(alloc, bindings.unresolved, pat)? {
                return without_default(alloc, is_optional, left, ty);
            }
            let name = Ident::of(BindingIdent::of(left).id).span;
            (Some(name), name, left.to_tree(alloc)?)
        }
        Kind::ArrayPat => {
            let array = ArrayPat::of(left);
            let left = emptied_array(alloc, left)?;
            if !array.type_ann.is_absent() {
                return with_default(alloc, pat, left, never_array(alloc)?);
            }
            (None, array.span, left)
        }
        Kind::ObjectPat => {
            let object = ObjectPat::of(left);
            let left = emptied_object(alloc, left)?;
            if !object.type_ann.is_absent() {
                return with_default(alloc, pat, left, never_value(alloc)?);
            }
            (None, object.span, left)
        }
        _ => return unsupported(span, faults),
    };
    let kind = FaultKind::MissingExplicitType;
    let right = transform_value(alloc, bindings, right, name, Fault { kind, range }, faults)?;
    with_default(alloc, pat, left, right)
}
