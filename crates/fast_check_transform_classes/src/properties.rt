//! What stays of a property and of an accessor.
ghost use Rattle.std.specs.Prelude.{◌≡◌, IfOk};
ghost use Rattle.fast_check_tree_syntax.specs.Part.{seen};
ghost use Rattle.fast_check_meaning_signatures.specs.Classes as classes;
ghost use Rattle.fast_check_meaning_signatures.specs.Typing.{type_of};
ghost use Rattle.fast_check_transform_classes.specs.Parts.{value_answer, property_answer, accessor_answer};
ghost use Rattle.fast_check_transform_expressions.specs.nodes.Bindings.{names_of};
ghost use Rattle.fast_check_transform_expressions.specs.nodes.Gives.{Gives, GivesTree};

use crate::class_nodes::{accessor_head, is_private, mutability_of_property, property_head};
use fast_check_meaning_signatures::{Fault, FaultKind};
use fast_check_transform_expressions::nodes::{Bindings, Typing};
use fast_check_transform_expressions::transform_value;
use fast_check_tree_forms_classes::{AutoAccessor, ClassProp};
use fast_check_tree_helpers::DeclMutabilityKind;
use fast_check_tree_helpers::ranges::range_of_node;
use fast_check_tree_syntax::{Part, SyntaxContext, Tree};
use std::alloc::{AllocError, Global};

/// The value of a property as it stays, where it is to give the type; where there is none that may stay, that is a fault at
/// the key.
fn transform_property_value(
    alloc: Global,
    bindings: Bindings<'_>,
    member: Part<'_>,
    faults: &mut Vec<Fault>,
) -> Result<Tree, AllocError>
    ensures { Gives result (value_answer (names_of bindings.entry) (seen member.entry)) faults.old faults.new }
{
    let ClassProp { key, value, .. } = ClassProp::of(member);
    let place = range_of_node(key);
    let fault = Fault {
        kind: FaultKind::MissingExplicitType,
        range: place,
    };
    if value.is_absent() {
        faults.push(fault)?;
        return Ok(Tree::Absent);
    }
    transform_value(alloc, bindings, value, Some(place), fault, faults)
}

/// The type of a property, as `: type`, if it is private, or if what is written or the value gives it.
fn property_type(
    alloc: Global,
    unresolved: SyntaxContext,
    member: Part<'_>,
) -> Result<Option<Tree>, AllocError>
    ensures { IfOk result (λ ty. ty ≡ type_of unresolved (classes.property_typing (seen member.entry))) }
{
    let prop = ClassProp::of(member);
    Typing {
        is_private: is_private(prop.accessibility),
        type_ann: prop.type_ann,
        value: prop.value,
        mutability: mutability_of_property(prop.readonly),
    }
    .type_of(alloc, unresolved)
}

/// A property, with its type, or else with its value as it stays.
pub fn transform_property(
    alloc: Global,
    bindings: Bindings<'_>,
    member: Part<'_>,
    faults: &mut Vec<Fault>,
) -> Result<Tree, AllocError>
    ensures { GivesTree result (property_answer (names_of bindings.entry) (seen member.entry)) faults.old faults.new }
{
    match property_type(alloc, bindings.unresolved, member)? {
        Some(ty) => property_head(alloc, member)?.declared(alloc, ty),
        None => {
            let value = transform_property_value(alloc, bindings, member, faults)?;
            property_head(alloc, member)?.valued(alloc, value)
        }
    }
}

/// The type of an accessor, likewise.
fn accessor_type(
    alloc: Global,
    unresolved: SyntaxContext,
    member: Part<'_>,
) -> Result<Option<Tree>, AllocError>
    ensures { IfOk result (λ ty. ty ≡ type_of unresolved (classes.accessor_typing (seen member.entry))) }
{
    let accessor = AutoAccessor::of(member);
    Typing {
        is_private: is_private(accessor.accessibility),
        type_ann: accessor.type_ann,
        value: accessor.value,
        mutability: DeclMutabilityKind::Mutable,
    }
    .type_of(alloc, unresolved)
}

/// An accessor with a public key, which becomes a property; where it shows no type, that is a fault at the key.
pub fn transform_accessor(
    alloc: Global,
    bindings: Bindings<'_>,
    member: Part<'_>,
    faults: &mut Vec<Fault>,
) -> Result<Tree, AllocError>
    ensures { GivesTree result (accessor_answer (names_of bindings.entry) (seen member.entry)) faults.old faults.new }
{
    match accessor_type(alloc, bindings.unresolved, member)? {
        Some(ty) => accessor_head(alloc, member)?.declared(alloc, ty),
        None => {
            faults.push(Fault {
                kind: FaultKind::MissingExplicitType,
                range: range_of_node(AutoAccessor::of(member).key),
            })?;
            Ok(Tree::Absent)
        }
    }
}
