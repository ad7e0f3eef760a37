//! What stays of the members of a class, in order.
ghost use Rattle.std.specs.Prelude.{◌≡◌, ◌++◌, IfOk, List, map, flat_map};
ghost use Rattle.std.specs.List.{list_any};
ghost use Rattle.fast_check_tree_syntax.specs.Part.{seen};
ghost use Rattle.fast_check_tree_syntax.specs.Shape.{◌is◌, kind_of, parts};
ghost use Rattle.fast_check_tree_syntax.specs.declared.kind.Kind.TheVariants as kinds;
ghost use Rattle.fast_check_meaning_signatures.specs.Answers.{answer_to, answer_of, made};
ghost use Rattle.fast_check_meaning_signatures.specs.Classes.{declared_by_params, method_kind, method_function_seen, method_seen, member_seen, members_seen};
ghost use Rattle.fast_check_meaning_signatures.specs.Members.{is_hash_named, hash_mark};
ghost use Rattle.fast_check_tables_modules.specs.diagnostics.PublicRanges.{is_implementation};
ghost use Rattle.fast_check_transform_classes.specs.Parts.{signed_method, declared_params, kept_answer};
ghost use Rattle.fast_check_transform_expressions.specs.nodes.Bindings.{names_of};
ghost use Rattle.fast_check_transform_expressions.specs.nodes.Gives.{Gives, GivesTree};

use crate::class_nodes::{
    hash_private, is_hash_named, is_private, kept_members, param_property, private_method_head,
};
use crate::constructors::{is_param_property, pattern_among, transform_constructor};
use crate::copies::three_trees;
use crate::properties::{transform_accessor, transform_property};
use fast_check_meaning_signatures::{Fault, FunctionKind};
use fast_check_tables_modules::diagnostics::ModulePublicRanges;
use fast_check_transform_expressions::nodes::Bindings;
use fast_check_transform_expressions::{transform_fn, transform_implementation};
use fast_check_tree_forms_classes::{ClassMethod, Constructor};
use fast_check_tree_helpers::any_type_ann;
use fast_check_tree_helpers::ranges::range_of_node;
use fast_check_tree_syntax::{Items, Kind, Part, SyntaxContext, Tree, Word};
use std::alloc::{AllocError, Global};

/// What a method is, by the word for its kind.
fn method_kind(kind: Part<'_>) -> FunctionKind
    ensures { result ≡ method_kind (seen kind.entry) }
{
    if kind.has_word(Word::Getter) {
        return FunctionKind::Getter;
    }
    if kind.has_word(Word::Setter) {
        return FunctionKind::Setter;
    }
    FunctionKind::DeclarationLike
}

/// The function of a method, a getter or a setter, by its signature: of an implementation behind overloads the count of its
/// parameters. A fault of the return type stands at the key.
fn method_function(
    alloc: Global,
    public_ranges: &ModulePublicRanges,
    bindings: Bindings<'_>,
    member: Part<'_>,
    faults: &mut Vec<Fault>,
) -> Result<Tree, AllocError>
    ensures { GivesTree result (answer_to (method_function_seen (names_of bindings.entry) (is_implementation public_ranges.now) (seen member.entry)))
        faults.old faults.new }
{
    let ClassMethod {
        span,
        key,
        function,
        kind,
        ..
    } = ClassMethod::of(member);
    if public_ranges.is_impl_with_overloads(&span) {
        return transform_implementation(alloc, function);
    }
    let kind = method_kind(kind);
    transform_fn(alloc, bindings, kind, range_of_node(key), function, faults)
}

/// A method of this function.
fn signed_method(alloc: Global, member: Part<'_>, function: Tree) -> Result<Tree, AllocError>
    ensures { IfOk result (λ tree. tree ≡ signed_method (seen member.entry) function) }
{
    let method = ClassMethod::of(member);
    let (key, kind, accessibility) = three_trees(
        alloc,
        method.key,
        method.kind,
        method.accessibility,
    )?;
    ClassMethod {
        span: method.span,
        key,
        function,
        kind,
        is_static: method.is_static,
        accessibility,
        is_abstract: method.is_abstract,
        is_optional: method.is_optional,
        is_override: method.is_override,
    }
    .into_tree(alloc)
}

/// A method, a getter or a setter; a private one becomes a property of any type.
fn transform_method(
    alloc: Global,
    public_ranges: &ModulePublicRanges,
    bindings: Bindings<'_>,
    member: Part<'_>,
    faults: &mut Vec<Fault>,
) -> Result<Tree, AllocError>
    ensures { GivesTree result (answer_to (method_seen (names_of bindings.entry) (is_implementation public_ranges.now) (seen member.entry)))
        faults.old faults.new }
{
    if is_private(ClassMethod::of(member).accessibility) {
        let any = any_type_ann(alloc)?;
        return private_method_head(alloc, member)?.declared(alloc, any);
    }
    let function = method_function(alloc, public_ranges, bindings, member, faults)?;
    signed_method(alloc, member, function)
}

/// A member that stays. An index signature stands as it is written.
fn transform_member(
    alloc: Global,
    public_ranges: &ModulePublicRanges,
    bindings: Bindings<'_>,
    member: Part<'_>,
    faults: &mut Vec<Fault>,
) -> Result<Tree, AllocError>
    ensures { GivesTree result (answer_to (member_seen (names_of bindings.entry) (is_implementation public_ranges.now) (seen member.entry)))
        faults.old faults.new }
{
    match member.kind() {
        Kind::Constructor => {
            transform_constructor(alloc, public_ranges, bindings, member, faults)
        }
        Kind::ClassMethod => transform_method(alloc, public_ranges, bindings, member, faults),
        Kind::ClassProp => transform_property(alloc, bindings, member, faults),
        Kind::AutoAccessor => transform_accessor(alloc, bindings, member, faults),
        _ => member.to_tree(alloc),
    }
}

/// Whether a member has a hash name.
fn has_hash_name(members: &[Tree]) -> bool
    ensures { result ≡ list_any is_hash_named members.now }
{
    members.iter().any(|member| is_hash_named(member.read()))
}

/// `#private!: unknown`, where a member has a hash name.
fn hash_mark(alloc: Global, members: &[Tree]) -> Result<Items<Tree>, AllocError>
    ensures { IfOk result (λ items. items ≡ hash_mark members.now) }
{
    if has_hash_name(members) {
        let mark = hash_private(alloc)?;
        return Ok(Items::from_vec(Vec::from_array(alloc, [mark])?));
    }
    Ok(Items::new(alloc))
}

/// Adds the properties that parameters declare.
fn declare_params(
    alloc: Global,
    unresolved: SyntaxContext,
    params: &[Tree],
    items: &mut Items<Tree>,
) -> Result<(), AllocError>
    ensures { IfOk result (λ _. items.new ≡ items.old ++ declared_params unresolved params.now) }
{
    for param in params {
        let param = param.read();
        if !is_param_property(param) {
            continue;
        }
        items.push(param_property(alloc, unresolved, param)?)?;
    }
    Ok(())
}

/// Whether a member is a constructor.
fn is_constructor(member: Part<'_>) -> bool
    ensures { result ≡ kind_of (seen member.entry) is kinds.Constructor }
{
    member.kind() == Kind::Constructor
}

/// Adds the properties that a constructor declares by its parameters, if it is not at fault; none for another member.
fn declare_by_params(
    alloc: Global,
    unresolved: SyntaxContext,
    member: Part<'_>,
    items: &mut Items<Tree>,
) -> Result<(), AllocError>
    ensures { IfOk result (λ _. items.new ≡ items.old ++ declared_by_params unresolved (seen member.entry)) }
{
    if !is_constructor(member) {
        return Ok(());
    }
    let params = Constructor::of(member).params.parts();
    match pattern_among(params) {
        Some(_) => Ok(()),
        None => declare_params(alloc, unresolved, params, items),
    }
}

/// The members of a class that are made: the mark for hash names, and the properties that parameters declare.
fn made_members(
    alloc: Global,
    unresolved: SyntaxContext,
    members: &[Tree],
    kept: &[Part<'_>],
) -> Result<Items<Tree>, AllocError>
    ensures { IfOk result (λ items. items ≡ hash_mark members.now ++ flat_map (λ m. declared_by_params unresolved m) (map seen kept.now)) }
{
    let mut items = hash_mark(alloc, members)?;
    for member in kept {
        declare_by_params(alloc, unresolved, *member, &mut items)?;
    }
    Ok(items)
}

/// The members that stay, behind others.
fn transform_kept(
    alloc: Global,
    public_ranges: &ModulePublicRanges,
    bindings: Bindings<'_>,
    kept: &[Part<'_>],
    mut items: Items<Tree>,
    faults: &mut Vec<Fault>,
) -> Result<Items<Tree>, AllocError>
    ensures { Gives result (made (λ ts. items ++ ts) (kept_answer (names_of bindings.entry) (is_implementation public_ranges.now) (map seen kept.now)))
        faults.old faults.new }
{
    for member in kept {
        items.push(transform_member(alloc, public_ranges, bindings, *member, faults)?)?;
    }
    Ok(items)
}

/// The members of a class that is not ambient.
pub fn transform_members(
    alloc: Global,
    public_ranges: &ModulePublicRanges,
    bindings: Bindings<'_>,
    body: Part<'_>,
    faults: &mut Vec<Fault>,
) -> Result<Items<Tree>, AllocError>
    ensures { Gives result (answer_of (members_seen (names_of bindings.entry) (is_implementation public_ranges.now) (parts (seen body.entry))))
        faults.old faults.new }
{
    let members = body.parts();
    let kept = kept_members(alloc, members)?;
    let items = made_members(alloc, bindings.unresolved, members, kept.as_slice())?;
    transform_kept(
        alloc,
        public_ranges,
        bindings,
        kept.as_slice(),
        items,
        faults,
    )
}
