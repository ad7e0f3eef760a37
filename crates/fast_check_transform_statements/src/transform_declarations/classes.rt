//! Classes that are declared, and the comments before their members that go.
ghost use Rattle.std.specs.Prelude.{◌≡◌, IfOk};
ghost use Rattle.fast_check_tree_syntax.specs.Part.{seen};
ghost use Rattle.fast_check_tree_syntax.specs.Shape.{parts};
ghost use Rattle.fast_check_transform_imports.specs.skeleton.KeptComments.{starts_of_removed, starts_in_decl, starts_in_default, starts_inside};
ghost use Rattle.fast_check_transform_imports.specs.skeleton.KeptComments.{without_all_leading};
ghost use Rattle.fast_check_transform_imports.specs.skeleton.Rules.{item_rule};
ghost use Rattle.fast_check_transform_imports.specs.skeleton.Visible.{is_ambient_class};
ghost use Rattle.fast_check_transform_imports.specs.module_facts.ModuleFacts.{facts_of};
ghost use Rattle.fast_check_transform_imports.specs.module_facts.Kept.{GivesItem};
ghost use Rattle.fast_check_transform_statements.specs.transform_declarations.ClassAnswers.{public_class_answer};

use fast_check_meaning_signatures::Fault;
use fast_check_transform_classes::class_nodes::Earlier;
use fast_check_transform_classes::{ambient_class, transform_class};
use fast_check_transform_imports::ModuleFacts;
use fast_check_transform_imports::skeleton::{DeclRule, DefaultRule, ItemRule, item_rule};
use fast_check_tree_comments::CommentsMut;
use fast_check_tree_forms_classes::Class;
use fast_check_tree_forms_expressions::{AssignExpr, ClassExpr};
use fast_check_tree_forms_programs::{ExportDecl, ExportDefaultDecl};
use fast_check_tree_forms_statements::{ClassDecl, ExprStmt};
use fast_check_tree_helpers::ranges::range_of_node;
use fast_check_tree_syntax::{Part, SourceRange, Tree};
use std::alloc::{AllocError, Global};

/// Whether a class is ambient.
fn is_ambient_class(facts: ModuleFacts<'_>, decl: Part<'_>) -> bool
    ensures { result ≡ is_ambient_class (facts_of facts.entry) (seen decl.entry) }
{
    facts.is_ambient || ClassDecl::of(decl).declare
}

/// A class declaration, which is public by `place`; none where it is not. An ambient one stands as it is written, but for private
/// members with computed keys.
pub fn transform_public_class(
    alloc: Global,
    facts: ModuleFacts<'_>,
    place: SourceRange,
    decl: Part<'_>,
    faults: &mut Vec<Fault>,
) -> Result<Option<Tree>, AllocError>
    ensures { GivesItem result (public_class_answer (facts_of facts.entry) place (seen decl.entry)) faults.old faults.new }
{
    if !facts.public_ranges.contains(&place) {
        return Ok(None);
    }
    let ClassDecl {
        ident,
        declare,
        class,
    } = ClassDecl::of(decl);
    let class = if is_ambient_class(facts, decl) {
        ambient_class(alloc, class)?
    } else {
        let ranges = facts.public_ranges;
        transform_class(alloc, ranges, facts.bindings, class, faults)?
    };
    let made = ClassDecl {
        ident: ident.to_tree(alloc)?,
        declare,
        class,
    };
    Ok(Some(made.into_tree(alloc)?))
}

/// Removes the comments before the members of a class that go.
fn remove_before_members(
    alloc: Global,
    class: Part<'_>,
    comments: &mut CommentsMut,
) -> Result<(), AllocError>
    ensures { IfOk result (λ _. comments.new ≡ without_all_leading (starts_of_removed (seen class.entry)) comments.old) }
{
    let mut earlier = Earlier::new(alloc);
    for member in Class::of(class).body.parts() {
        let member = member.read();
        if earlier.stays(member)? {
            continue;
        }
        comments.remove_leading(range_of_node(member).start);
    }
    Ok(())
}

/// Removes the comments before what goes inside of a declaration that stays and with which this is done.
fn remove_in_decl(
    alloc: Global,
    facts: ModuleFacts<'_>,
    place: SourceRange,
    decl: Part<'_>,
    rule: DeclRule,
    comments: &mut CommentsMut,
) -> Result<(), AllocError>
    ensures { IfOk result (λ _. comments.new ≡ without_all_leading (starts_in_decl (facts_of facts.entry) place (seen decl.entry) rule) comments.old) }
{
    match rule {
        DeclRule::Class => {
            if !facts.public_ranges.contains(&place) || is_ambient_class(facts, decl) {
                return Ok(());
            }
            remove_before_members(alloc, ClassDecl::of(decl).class, comments)
        }
        DeclRule::Variables
        | DeclRule::Function
        | DeclRule::Standing
        | DeclRule::Namespace
        | DeclRule::Using
        | DeclRule::NoDeclaration => Ok(()),
    }
}

/// Removes the comments before what goes inside of a default export with which this is done.
fn remove_in_default(
    alloc: Global,
    facts: ModuleFacts<'_>,
    item: Part<'_>,
    rule: DefaultRule,
    comments: &mut CommentsMut,
) -> Result<(), AllocError>
    ensures { IfOk result (λ _. comments.new ≡ without_all_leading (starts_in_default (facts_of facts.entry) (seen item.entry) rule) comments.old) }
{
    match rule {
        DefaultRule::Class => {
            let ExportDefaultDecl { span, decl } = ExportDefaultDecl::of(item);
            if !facts.public_ranges.contains(&span) {
                return Ok(());
            }
            remove_before_members(alloc, ClassExpr::of(decl).class, comments)
        }
        DefaultRule::Value | DefaultRule::Function | DefaultRule::Interface => Ok(()),
    }
}

/// Removes the comments before what goes inside of an item.
pub fn remove_inside(
    alloc: Global,
    facts: ModuleFacts<'_>,
    item: Part<'_>,
    comments: &mut CommentsMut,
) -> Result<(), AllocError>
    ensures { IfOk result (λ _.
        comments.new ≡ without_all_leading (starts_inside (facts_of facts.entry) (seen item.entry) (item_rule (seen item.entry))) comments.old) }
{
    match item_rule(item) {
        ItemRule::Declared(rule) => {
            remove_in_decl(alloc, facts, range_of_node(item), item, rule, comments)
        }
        ItemRule::Exported(rule) => {
            let ExportDecl { span, decl } = ExportDecl::of(item);
            remove_in_decl(alloc, facts, span, decl, rule, comments)
        }
        ItemRule::Default(rule) => remove_in_default(alloc, facts, item, rule, comments),
        ItemRule::Assigned => {
            let assignment = AssignExpr::of(ExprStmt::of(item).expr);
            if facts.public_ranges.contains(&assignment.span) {
                comments.remove_leading(range_of_node(item).start);
            }
            Ok(())
        }
        ItemRule::ImportExport(_) | ItemRule::Refused(_) | ItemRule::Silent => Ok(()),
    }
}
