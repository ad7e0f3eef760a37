//! What stays of the items of a body, a module's or a namespace's, level by level.
ghost use Rattle.std.specs.Prelude.{◌≡◌, false, IfOk};
ghost use Rattle.fast_check_tree_syntax.specs.Part.{seen};
ghost use Rattle.fast_check_tree_syntax.specs.Shape.{parts};
ghost use Rattle.fast_check_transform_statements.specs.skeleton.KeptComments.{removed_from, start_look};
ghost use Rattle.fast_check_transform_statements.specs.skeleton.KeptComments.{starts_in_body, starts_in_namespace};
ghost use Rattle.fast_check_transform_statements.specs.skeleton.KeptComments.{starts_below};
ghost use Rattle.fast_check_transform_statements.specs.skeleton.Rules.{is_assigned, item_rule};
ghost use Rattle.fast_check_transform_imports.specs.module_facts.ModuleFacts.{facts_of};
ghost use Rattle.fast_check_transform_imports.specs.module_facts.Kept.{GivesItem, as_list};
ghost use Rattle.fast_check_transform_imports.specs.Relative.{AreRelative};
ghost use Rattle.fast_check_transform_module.specs.Gathers.{Gathers};
ghost use Rattle.fast_check_transform_module.specs.PartAnswers.{namespace_answer, decl_answer, refused_answer, item_answer};
ghost use Rattle.fast_check_transform_module.specs.PartAnswers.{items_answer};

use crate::context::TransformContext;
use fast_check_meaning_signatures::{Fault, FaultKind};
use fast_check_transform_imports::transform_import_export;
use fast_check_transform_statements::expandos::{ExpandoProperty, keep_namespaces};
use fast_check_transform_statements::skeleton::{DeclRule, ItemRule, item_rule};
use fast_check_transform_statements::{
    ModuleFacts, items_inside, module_fault, namespace_with, remove_inside, transform_assignment,
    transform_default_export, transform_public_class, transform_public_function,
    transform_standing, transform_statement, transform_using,
};
use fast_check_tree_forms_programs::ExportDecl;
use fast_check_tree_forms_statements::ExprStmt;
use fast_check_tree_helpers::ranges::range_of_node;
use fast_check_tree_syntax::{Items, Part, SourceRange, Tree};
use std::alloc::{AllocError, Global};

/// What is public of the items of a body, that of a module or of a namespace, and behind it the namespaces for the expando properties
/// that its assignments declare. The comments before the others go.
#[cycle(items)]
pub fn transform_items(
    alloc: Global,
    facts: ModuleFacts<'_>,
    body: Part<'_>,
    context: &mut TransformContext,
) -> Result<Items<Tree>, AllocError>
    requires sources { AreRelative (facts_of facts) context.old.sources }
    ensures { let asked = facts_of facts.entry in let all = parts (seen body.entry) in
        IfOk result (λ items. Gathers asked (items_answer asked all) (removed_from asked all) items context.old context.new) }
{
    let mut items = Items::new(alloc);
    let mut properties = Vec::new(alloc);
    for item in body.parts() {
        let item = item.read();
        if is_assigned(item) {
            let expr = ExprStmt::of(item).expr;
            let faults = &mut context.faults;
            transform_assignment(alloc, facts, expr, &mut properties, faults)?;
            context.comments.remove_leading(range_of_node(item).start);
            continue;
        }
        match transform_item(alloc, facts, item, context)? {
            None => {
                context.comments.remove_leading(range_of_node(item).start);
                remove_inside(alloc, facts, item, &mut context.comments)?;
                continue;
            }
            Some(tree) => {
                remove_inside(alloc, facts, item, &mut context.comments)?;
                items.push(tree)?;
            }
        }
    }
    items.append(keep_namespaces(alloc, properties, &mut context.faults)?)?;
    Ok(items)
}

/// The public part of a namespace, which is public by `place`: the items in its innermost block are those of a body, and
/// all else stands as it is written. None where it is not public. What no skeleton has is a fault, public or not.
#[cycle(items)]
fn transform_namespace(
    alloc: Global,
    facts: ModuleFacts<'_>,
    place: SourceRange,
    decl: Part<'_>,
    context: &mut TransformContext,
) -> Result<Option<Tree>, AllocError>
    requires sources { AreRelative (facts_of facts) context.old.sources }
    ensures { let asked = facts_of facts.entry in let starts = starts_in_namespace start_look asked place (seen decl.entry) in
        IfOk result (λ tree. Gathers asked (namespace_answer asked place (seen decl.entry)) starts (as_list tree) context.old context.new) }
{
    if let Some(fault) = module_fault(decl) {
        context.faults.push(fault)?;
        return Ok(Some(Tree::Absent));
    }
    if !facts.public_ranges.contains(&place) {
        return Ok(None);
    }
    let items = transform_items(alloc, facts.inside(decl), items_inside(decl), context)?;
    Ok(Some(namespace_with(alloc, decl, items)?))
}

/// What is public of a declaration with which this is done, by `place` where it is no variable statement; none where nothing is.
#[cycle(items)]
fn transform_decl(
    alloc: Global,
    facts: ModuleFacts<'_>,
    place: SourceRange,
    decl: Part<'_>,
    rule: DeclRule,
    context: &mut TransformContext,
) -> Result<Option<Tree>, AllocError>
    requires sources { AreRelative (facts_of facts) context.old.sources }
    ensures { let asked = facts_of facts.entry in let starts = starts_in_body start_look asked place (seen decl.entry) rule in
        IfOk result (λ tree. Gathers asked (decl_answer asked place (seen decl.entry) rule) starts (as_list tree) context.old context.new) }
{
    let faults = &mut context.faults;
    match rule {
        DeclRule::Variables => transform_statement(alloc, facts, decl, faults),
        DeclRule::Function => transform_public_function(alloc, facts, place, decl, faults),
        DeclRule::Class => transform_public_class(alloc, facts, place, decl, faults),
        DeclRule::Standing => transform_standing(alloc, facts, place, decl),
        DeclRule::Namespace => transform_namespace(alloc, facts, place, decl, context),
        DeclRule::Using => transform_using(facts, place, decl, faults),
        DeclRule::NoDeclaration => Ok(None),
    }
}

/// The fault of an item that no skeleton has.
fn refuse(
    item: Part<'_>,
    kind: FaultKind,
    faults: &mut Vec<Fault>,
) -> Result<Option<Tree>, AllocError>
    ensures { GivesItem result (refused_answer (seen item.entry) kind) faults.old faults.new }
{
    let range = range_of_node(item);
    faults.push(Fault { kind, range })?;
    Ok(Some(Tree::Absent))
}

/// Whether an item is an assignment that is a statement.
fn is_assigned(item: Part<'_>) -> bool
    ensures { result ≡ is_assigned (item_rule (seen item.entry)) }
{
    matches!(item_rule(item), ItemRule::Assigned)
}

/// What is public of an item of a body that is no assignment; none where nothing is. Of a namespace the comments before the items that
/// go, go too.
#[cycle(items)]
fn transform_item(
    alloc: Global,
    facts: ModuleFacts<'_>,
    item: Part<'_>,
    context: &mut TransformContext,
) -> Result<Option<Tree>, AllocError>
    requires no_assignment { is_assigned (item_rule (seen item)) ≡ false }
    requires sources { AreRelative (facts_of facts) context.old.sources }
    ensures { let asked = facts_of facts.entry in let starts = starts_below start_look asked (seen item.entry) (item_rule (seen item.entry)) in
        IfOk result (λ tree. Gathers asked (item_answer asked (seen item.entry)) starts (as_list tree) context.old context.new) }
{
    match item_rule(item) {
        ItemRule::Declared(rule) => {
            transform_decl(alloc, facts, range_of_node(item), item, rule, context)
        }
        ItemRule::Exported(rule) => {
            let ExportDecl { span, decl } = ExportDecl::of(item);
            match transform_decl(alloc, facts, span, decl, rule, context)? {
                Some(decl) => Ok(Some(ExportDecl { span, decl }.into_tree(alloc)?)),
                None => Ok(None),
            }
        }
        ItemRule::ImportExport(rule) => transform_import_export(
            alloc,
            facts,
            item,
            rule,
            &mut context.sources,
        ),
        ItemRule::Default(rule) => {
            let faults = &mut context.faults;
            transform_default_export(alloc, facts, item, rule, faults)
        }
        ItemRule::Refused(kind) => refuse(item, kind, &mut context.faults),
        ItemRule::Assigned => Ok(None),
        ItemRule::Silent => Ok(None),
    }
}
