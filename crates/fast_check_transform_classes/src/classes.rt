//! What stays of a class, and of one that is ambient.
ghost use Rattle.std.specs.Prelude.{◌≡◌, IfOk};
ghost use Rattle.fast_check_tree_syntax.specs.Part.{seen};
ghost use Rattle.fast_check_tree_syntax.specs.Shape.{parts, list};
ghost use Rattle.fast_check_meaning_signatures.specs.Answers.{answer_to};
ghost use Rattle.fast_check_tree_forms_classes.specs.Classes as forms;
ghost use Rattle.fast_check_tree_forms_classes.specs.Classes.{Class-span, Class-ctxt, Class-is_abstract, Class-type_params, Class-super_type_params, Class-implements};
ghost use Rattle.fast_check_meaning_signatures.specs.Answers as answers;
ghost use Rattle.fast_check_meaning_signatures.specs.Classes.{class_head, plain_class_seen, ambient_class};
ghost use Rattle.fast_check_meaning_signatures.specs.Members.{ambient_members, is_private_computed};
ghost use Rattle.fast_check_tables_modules.specs.diagnostics.PublicRanges.{is_implementation};
ghost use Rattle.fast_check_transform_expressions.specs.nodes.Bindings.{names_of};
ghost use Rattle.fast_check_transform_expressions.specs.nodes.Gives.{GivesTree};

use crate::class_nodes::{is_computed, is_private, transform_superclass, two_trees};
use crate::copies::three_trees;
use crate::members::transform_members;
use fast_check_meaning_signatures::Fault;
use fast_check_tables_modules::diagnostics::ModulePublicRanges;
use fast_check_transform_expressions::nodes::Bindings;
use fast_check_tree_forms_classes::{AutoAccessor, Class, ClassMethod, ClassProp};
use fast_check_tree_syntax::{Items, Kind, Part, Tree};
use std::alloc::{AllocError, Global};

/// A class of this superclass and these members, without decorators.
fn class_of(
    alloc: Global,
    class: Part<'_>,
    super_class: Tree,
    members: Items<Tree>,
) -> Result<Tree, AllocError>
    ensures { IfOk result (λ tree. tree ≡ answers.class_of (class_head (seen class.entry)) super_class members) }
{
    let decorators = Tree::list(Items::new(alloc));
    class_with(alloc, class, decorators, super_class, members)
}

/// A class of these decorators, this superclass and these members.
fn class_with(
    alloc: Global,
    class: Part<'_>,
    decorators: Tree,
    super_class: Tree,
    members: Items<Tree>,
) -> Result<Tree, AllocError>
    ensures { IfOk result (λ tree. tree ≡
        forms.class (Class-span (seen class.entry)) (Class-ctxt (seen class.entry)) decorators (list members) super_class (Class-is_abstract (seen class.entry))
        (Class-type_params (seen class.entry)) (Class-super_type_params (seen class.entry)) (Class-implements (seen class.entry))) }
{
    let class = Class::of(class);
    let (type_params, super_type_params, implements) = three_trees(
        alloc,
        class.type_params,
        class.super_type_params,
        class.implements,
    )?;
    Class {
        span: class.span,
        ctxt: class.ctxt,
        decorators,
        body: Tree::list(members),
        super_class,
        is_abstract: class.is_abstract,
        type_params,
        super_type_params,
        implements,
    }
    .into_tree(alloc)
}

/// A class that is not ambient, a `Class` (deno_graph's `transform_class`). A superclass that is no name and no chain of
/// members on one is a fault at it, before those of the members.
pub fn transform_class(
    alloc: Global,
    public_ranges: &ModulePublicRanges,
    bindings: Bindings<'_>,
    class: Part<'_>,
    faults: &mut Vec<Fault>,
) -> Result<Tree, AllocError>
    ensures { GivesTree result (answer_to (plain_class_seen (names_of bindings.entry) (is_implementation public_ranges.now) (seen class.entry)))
        faults.old faults.new }
{
    let Class {
        body,
        super_class,
        ..
    } = Class::of(class);
    let super_class = transform_superclass(alloc, super_class, faults)?;
    let members = transform_members(alloc, public_ranges, bindings, body, faults)?;
    class_of(alloc, class, super_class, members)
}

/// Whether a member is a private method, property or accessor with a computed key.
fn is_private_computed(member: Part<'_>) -> bool
    ensures { result ≡ is_private_computed (seen member.entry) }
{
    match member.kind() {
        Kind::ClassMethod => {
            let ClassMethod {
                key,
                accessibility,
                ..
            } = ClassMethod::of(member);
            is_private(accessibility) && is_computed(key)
        }
        Kind::ClassProp => {
            let ClassProp {
                key,
                accessibility,
                ..
            } = ClassProp::of(member);
            is_private(accessibility) && is_computed(key)
        }
        Kind::AutoAccessor => {
            let AutoAccessor {
                key,
                accessibility,
                ..
            } = AutoAccessor::of(member);
            is_private(accessibility) && is_computed(key)
        }
        _ => false,
    }
}

/// The members of an ambient class that stay, as they are written.
fn ambient_members(alloc: Global, body: Part<'_>) -> Result<Items<Tree>, AllocError>
    ensures { IfOk result (λ items. items ≡ ambient_members (parts (seen body.entry))) }
{
    let mut items = Items::new(alloc);
    for member in body.parts() {
        let member = member.read();
        if is_private_computed(member) {
            continue;
        }
        items.push(member.to_tree(alloc)?)?;
    }
    Ok(items)
}

/// An ambient class, a `Class`: it loses private members with computed keys, and no more.
pub fn ambient_class(alloc: Global, class: Part<'_>) -> Result<Tree, AllocError>
    ensures { IfOk result (λ tree. tree ≡ ambient_class (seen class.entry)) }
{
    let Class {
        body,
        decorators,
        super_class,
        ..
    } = Class::of(class);
    let members = ambient_members(alloc, body)?;
    let (decorators, super_class) = two_trees(alloc, decorators, super_class)?;
    class_with(alloc, class, decorators, super_class, members)
}
