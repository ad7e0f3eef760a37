//! What stays of a constructor, and the properties that its parameters declare.
ghost use Rattle.std.specs.Prelude.{◌≡◌, ◌&&◌, IfOk};
ghost use Rattle.fast_check_tree_syntax.specs.Part.{seen};
ghost use Rattle.fast_check_tree_syntax.specs.Shape.{parts};
ghost use Rattle.fast_check_meaning_signatures.specs.Answers.{answer_to, answer_of};
ghost use Rattle.fast_check_meaning_signatures.specs.Classes.{is_param_property, takes_apart, constructor_params_seen, constructor_seen};
ghost use Rattle.fast_check_tables_modules.specs.diagnostics.PublicRanges.{is_implementation};
ghost use Rattle.fast_check_transform_classes.specs.Parts.{first_pattern, signed_constructor};
ghost use Rattle.fast_check_transform_expressions.specs.nodes.Bindings.{names_of};
ghost use Rattle.fast_check_transform_expressions.specs.nodes.Gives.{Gives, GivesTree};

use crate::class_nodes::{
    constructor_body, is_private, param_target, plain_params, takes_apart, two_trees,
};
use fast_check_meaning_signatures::{Fault, FaultKind};
use fast_check_tables_modules::diagnostics::ModulePublicRanges;
use fast_check_transform_expressions::nodes::Bindings;
use fast_check_transform_expressions::{any_params, transform_params};
use fast_check_tree_forms_classes::Constructor;
use fast_check_tree_helpers::ranges::range_of_node;
use fast_check_tree_syntax::{Items, Kind, Part, SourceRange, Tree};
use std::alloc::{AllocError, Global};

/// Whether a parameter of a constructor is a property too.
pub fn is_param_property(param: Part<'_>) -> bool
    ensures { result ≡ is_param_property (seen param.entry) }
{
    param.kind() == Kind::TsParamProp
}

/// Whether a parameter is a property that takes its value apart.
fn is_pattern_property(param: Part<'_>) -> bool
    ensures { result ≡ is_param_property (seen param.entry) && takes_apart (seen param.entry) }
{
    is_param_property(param) && takes_apart(param)
}

/// The place of the first parameter property that takes its value apart.
pub fn pattern_among(params: &[Tree]) -> Option<SourceRange>
    ensures { result ≡ first_pattern params.now }
{
    for param in params {
        let param = param.read();
        if is_pattern_property(param) {
            return Some(range_of_node(param_target(param)));
        }
    }
    None
}

/// The parameters of a constructor: none of a private one.
fn constructor_params(
    alloc: Global,
    public_ranges: &ModulePublicRanges,
    bindings: Bindings<'_>,
    member: Part<'_>,
    faults: &mut Vec<Fault>,
) -> Result<Items<Tree>, AllocError>
    ensures { Gives result (answer_of (constructor_params_seen (names_of bindings.entry) (is_implementation public_ranges.now) (seen member.entry)))
        faults.old faults.new }
{
    let Constructor {
        span,
        params,
        accessibility,
        ..
    } = Constructor::of(member);
    if is_private(accessibility) {
        return Ok(Items::new(alloc));
    }
    let params = plain_params(alloc, params)?;
    if public_ranges.is_impl_with_overloads(&span) {
        return any_params(alloc, params.read());
    }
    transform_params(alloc, bindings, params.read(), faults)
}

/// A constructor with its parameters, and of its body the calls of the superclass.
fn signed_constructor(
    alloc: Global,
    member: Part<'_>,
    params: Items<Tree>,
) -> Result<Tree, AllocError>
    ensures { IfOk result (λ tree. tree ≡ signed_constructor (seen member.entry) params) }
{
    let constructor = Constructor::of(member);
    let (key, accessibility) = two_trees(alloc, constructor.key, constructor.accessibility)?;
    let body = constructor_body(alloc, constructor.body)?;
    Constructor {
        span: constructor.span,
        ctxt: constructor.ctxt,
        key,
        params: Tree::list(params),
        body,
        accessibility,
        is_optional: constructor.is_optional,
    }
    .into_tree(alloc)
}

/// A constructor. A parameter property that is a pattern is a fault, and the constructor has no other.
pub fn transform_constructor(
    alloc: Global,
    public_ranges: &ModulePublicRanges,
    bindings: Bindings<'_>,
    member: Part<'_>,
    faults: &mut Vec<Fault>,
) -> Result<Tree, AllocError>
    ensures { GivesTree result (answer_to (constructor_seen (names_of bindings.entry) (is_implementation public_ranges.now) (seen member.entry)))
        faults.old faults.new }
{
    if let Some(range) = pattern_among(Constructor::of(member).params.parts()) {
        faults.push(Fault {
            kind: FaultKind::UnsupportedDestructuring,
            range,
        })?;
        return Ok(Tree::Absent);
    }
    let params = constructor_params(alloc, public_ranges, bindings, member, faults)?;
    signed_constructor(alloc, member, params)
}
