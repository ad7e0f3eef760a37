//! Default exports: of a class, a function, an interface or a value.
ghost use Rattle.std.specs.Prelude.{◌≡◌};
ghost use Rattle.fast_check_tree_syntax.specs.Part.{seen};
ghost use Rattle.fast_check_transform_imports.specs.skeleton.Defaults.{default_place, is_public_value};
ghost use Rattle.fast_check_transform_imports.specs.module_facts.ModuleFacts.{facts_of};
ghost use Rattle.fast_check_transform_imports.specs.module_facts.Kept.{GivesItem};
ghost use Rattle.fast_check_transform_imports.specs.nodes.Gives.{GivesTree};
ghost use Rattle.fast_check_transform_statements.specs.transform_declarations.ClassAnswers.{is_public_default, default_value_answer, default_class_answer};
ghost use Rattle.fast_check_transform_statements.specs.transform_declarations.ClassAnswers.{default_function_answer, default_decl_answer, default_answer};

use fast_check_meaning_signatures::{Fault, FaultKind, FunctionKind};
use fast_check_transform_classes::expressions::{
    transform_expr, transform_fn, transform_implementation,
};
use fast_check_transform_classes::transform_class;
use fast_check_transform_imports::ModuleFacts;
use fast_check_transform_imports::skeleton::DefaultRule;
use fast_check_tree_forms_classes::Function;
use fast_check_tree_forms_expressions::{ClassExpr, FnExpr};
use fast_check_tree_forms_programs::{ExportDefaultDecl, ExportDefaultExpr, Ident};
use fast_check_tree_helpers::ranges::range_of_node;
use fast_check_tree_syntax::{Part, SourceRange, Tree};
use std::alloc::{AllocError, Global};

/// Whether the default export of an expression is public: by its own range, or by that of the expression.
fn is_public_value(facts: ModuleFacts<'_>, item: Part<'_>) -> bool
    ensures { result ≡ is_public_value (facts_of facts.entry) (seen item.entry) }
{
    let ExportDefaultExpr { span, expr } = ExportDefaultExpr::of(item);
    facts.public_ranges.contains(&span) || facts.public_ranges.contains(&range_of_node(expr))
}

/// Whether a default export with which this is done is public.
fn is_public_default(facts: ModuleFacts<'_>, item: Part<'_>, rule: DefaultRule) -> bool
    ensures { result ≡ is_public_default (facts_of facts.entry) (seen item.entry) rule }
{
    match rule {
        DefaultRule::Value => is_public_value(facts, item),
        DefaultRule::Class | DefaultRule::Function | DefaultRule::Interface => {
            facts
                .public_ranges
                .contains(&ExportDefaultDecl::of(item).span)
        }
    }
}

/// The default export of an expression. Where the expression may not stay, that is a fault.
fn transform_default_value(
    alloc: Global,
    facts: ModuleFacts<'_>,
    item: Part<'_>,
    faults: &mut Vec<Fault>,
) -> Result<Tree, AllocError>
    ensures { GivesTree result (default_value_answer (facts_of facts.entry) (seen item.entry)) faults.old faults.new }
{
    let ExportDefaultExpr { span, expr } = ExportDefaultExpr::of(item);
    match transform_expr(alloc, facts.bindings, expr, None, faults)? {
        Some(expr) => ExportDefaultExpr { span, expr }.into_tree(alloc),
        None => {
            faults.push(Fault {
                kind: FaultKind::UnsupportedDefaultExportExpr,
                range: span,
            })?;
            let expr = Tree::Absent;
            ExportDefaultExpr { span, expr }.into_tree(alloc)
        }
    }
}

/// A class that is exported by default. It is never ambient.
fn transform_class_decl(
    alloc: Global,
    facts: ModuleFacts<'_>,
    decl: Part<'_>,
    faults: &mut Vec<Fault>,
) -> Result<Tree, AllocError>
    ensures { GivesTree result (default_class_answer (facts_of facts.entry) (seen decl.entry)) faults.old faults.new }
{
    let ClassExpr { ident, class } = ClassExpr::of(decl);
    let made = ClassExpr {
        ident: ident.to_tree(alloc)?,
        class: transform_class(alloc, facts.public_ranges, facts.bindings, class, faults)?,
    };
    made.into_tree(alloc)
}

/// Where the return type of a function would be missing: at its name, or else at the function.
fn default_place(decl: Part<'_>) -> SourceRange
    ensures { result ≡ default_place (seen decl.entry) }
{
    let FnExpr { ident, function } = FnExpr::of(decl);
    if ident.is_absent() {
        Function::of(function).span
    } else {
        Ident::of(ident).span
    }
}

/// A function that is exported by default: where all is ambient as it is written; an implementation behind overloads by the count of
/// its parameters; another function by its signature.
fn transform_default_function(
    alloc: Global,
    facts: ModuleFacts<'_>,
    place: SourceRange,
    decl: Part<'_>,
    faults: &mut Vec<Fault>,
) -> Result<Tree, AllocError>
    ensures { GivesTree result (default_function_answer (facts_of facts.entry) place (seen decl.entry)) faults.old faults.new }
{
    if facts.is_ambient {
        return decl.to_tree(alloc);
    }
    let FnExpr { ident, function } = FnExpr::of(decl);
    let function = if facts.public_ranges.is_impl_with_overloads(&place) {
        transform_implementation(alloc, function)?
    } else {
        let kind = FunctionKind::DeclarationLike;
        let name = default_place(decl);
        transform_fn(alloc, facts.bindings, kind, name, function, faults)?
    };
    let made = FnExpr {
        ident: ident.to_tree(alloc)?,
        function,
    };
    made.into_tree(alloc)
}

/// A public default export with which this is done.
fn transform_public_default(
    alloc: Global,
    facts: ModuleFacts<'_>,
    item: Part<'_>,
    rule: DefaultRule,
    faults: &mut Vec<Fault>,
) -> Result<Tree, AllocError>
    ensures { GivesTree result (default_decl_answer (facts_of facts.entry) (seen item.entry) rule) faults.old faults.new }
{
    let ExportDefaultDecl { span, decl } = ExportDefaultDecl::of(item);
    match rule {
        DefaultRule::Value => transform_default_value(alloc, facts, item, faults),
        DefaultRule::Class => {
            let decl = transform_class_decl(alloc, facts, decl, faults)?;
            ExportDefaultDecl { span, decl }.into_tree(alloc)
        }
        DefaultRule::Function => {
            let decl = transform_default_function(alloc, facts, span, decl, faults)?;
            ExportDefaultDecl { span, decl }.into_tree(alloc)
        }
        DefaultRule::Interface => {
            let decl = decl.to_tree(alloc)?;
            ExportDefaultDecl { span, decl }.into_tree(alloc)
        }
    }
}

/// What is public of a default export with which this is done; none where nothing is.
pub fn transform_default_export(
    alloc: Global,
    facts: ModuleFacts<'_>,
    item: Part<'_>,
    rule: DefaultRule,
    faults: &mut Vec<Fault>,
) -> Result<Option<Tree>, AllocError>
    ensures { GivesItem result (default_answer (facts_of facts.entry) (seen item.entry) rule) faults.old faults.new }
{
    if !is_public_default(facts, item, rule) {
        return Ok(None);
    }
    Ok(Some(transform_public_default(alloc, facts, item, rule, faults)?))
}
