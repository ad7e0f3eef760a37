//! Assignments that are statements.
ghost use Rattle.std.specs.Prelude.{◌≡◌, ◌∷◌, ◌++◌, [], true, IfOk, OnOk, if◌then◌else◌};
ghost use Rattle.std.specs.Option.{option_copied};
ghost use Rattle.fast_check_tree_syntax.specs.Part.{seen};
ghost use Rattle.fast_check_tree_forms_expressions.specs.Calls.{MemberExpr-span};
ghost use Rattle.fast_check_tree_forms_expressions.specs.Operators.{AssignExpr-span, AssignExpr-left};
ghost use Rattle.fast_check_tables_modules.specs.Expandos.{is_expando_assignment};
ghost use Rattle.fast_check_tables_modules.specs.symbols.Tables.{symbol_of_swc};
ghost use Rattle.fast_check_meaning_signatures.specs.declared.fault.FaultKind.TheVariants as kinds;
ghost use Rattle.fast_check_meaning_signatures.specs.Answers.{Adds, fault_at};
ghost use Rattle.fast_check_meaning_expandos.specs.Assignments.{missing_place, kept_property};
ghost use Rattle.fast_check_meaning_expandos.specs.Expandos.{object_of, property_name};
ghost use Rattle.fast_check_meaning_expandos.specs.ModuleObjects.{objects_of};
ghost use Rattle.fast_check_meaning_expandos.specs.Objects.{exports_name};
ghost use Rattle.fast_check_transform_imports.specs.module_facts.ModuleFacts.{facts_of};
ghost use Rattle.fast_check_transform_statements.specs.Assigned.{assignment_answer, assignment_properties, missing_at};

use crate::declarations::transform_init;
use fast_check_meaning_expandos::{ExpandoProperty, expando_property, exports_property, object_of};
use fast_check_meaning_signatures::{Fault, FaultKind};
use fast_check_tables_modules::{Symbol, is_expando_assignment};
use fast_check_transform_imports::ModuleFacts;
use fast_check_tree_forms_expressions::{AssignExpr, MemberExpr};
use fast_check_tree_helpers::ranges::range_of_node;
use fast_check_tree_syntax::{Part, Tree};
use std::alloc::{AllocError, Global};

/// An assignment that is a statement. Nothing of it stays. Where it is public, by its own range, its right side is tested, and what
/// is wrong there is pushed to the faults. Of expando form it declares a property if the right side may stay; if not, the type is missing
/// at the target, unless the object exports a property of this name.
pub fn transform_assignment(
    alloc: Global,
    facts: ModuleFacts<'_>,
    assignment: Part<'_>,
    properties: &mut Vec<ExpandoProperty>,
    faults: &mut Vec<Fault>,
) -> Result<(), AllocError>
    ensures answer { OnOk result (Adds (assignment_answer (facts_of facts.entry) (seen assignment.entry)) [] faults.old.items faults.new.items) }
    ensures properties { OnOk result (properties.new.items ≡
        properties.old.items ++ assignment_properties (facts_of facts.entry) (seen assignment.entry)) }
{
    let AssignExpr { span, right, .. } = AssignExpr::of(assignment);
    if !facts.public_ranges.contains(&span) {
        return Ok(());
    }
    let value = transform_init(alloc, facts, range_of_node(right), right, faults)?;
    if !is_expando_assignment(assignment) {
        return Ok(());
    }
    transform_expando(alloc, facts, assignment, value, properties, faults)
}

/// The property that an assignment of expando form declares, if its right side may stay.
fn transform_expando(
    alloc: Global,
    facts: ModuleFacts<'_>,
    assignment: Part<'_>,
    value: Option<Tree>,
    properties: &mut Vec<ExpandoProperty>,
    faults: &mut Vec<Fault>,
) -> Result<(), AllocError>
    requires { is_expando_assignment (seen assignment) ≡ true }
    ensures properties { OnOk result (properties.new.items ≡ properties.old.items ++
        kept_property (objects_of facts.entry.es_module_info.now) (AssignExpr-span (seen assignment.entry)) (AssignExpr-left (seen assignment.entry)) value) }
    ensures faults { OnOk result (faults.new.items ≡ faults.old.items ++
        missing_at (missing_place (objects_of facts.entry.es_module_info.now) (seen assignment.entry)) value) }
{
    let target = AssignExpr::of(assignment).left;
    let symbol = symbol_of_object(alloc, facts, target)?;
    match value {
        Some(value) => {
            let property = expando_property(alloc, symbol, assignment, value)?;
            properties.push(property)?;
            Ok(())
        }
        None => push_missing(symbol, target, faults),
    }
}

/// The symbol of the object of a target `object.name`, if there is one.
fn symbol_of_object<'a>(
    alloc: Global,
    facts: ModuleFacts<'a>,
    target: Part<'_>,
) -> Result<Option<&'a Symbol>, AllocError>
    ensures { IfOk result (λ symbol. option_copied symbol ≡ symbol_of_swc facts.entry.es_module_info.now.tables (object_of (seen target.entry))) }
{
    let object = object_of(alloc, target)?;
    Ok(facts.es_module_info.symbol_from_swc(&object))
}

/// The type of a property is missing at its target, unless the symbol of the object exports it.
fn push_missing(
    symbol: Option<&Symbol>,
    target: Part<'_>,
    faults: &mut Vec<Fault>,
) -> Result<(), AllocError>
    ensures { OnOk result (faults.new.items ≡ faults.old.items ++ (if exports_name (option_copied symbol.entry) (property_name (seen target.entry)) then []
        else fault_at kinds.MissingExplicitType (MemberExpr-span (seen target.entry)) ∷ [])) }
{
    if exports_property(symbol, target) {
        return Ok(());
    }
    let kind = FaultKind::MissingExplicitType;
    let range = MemberExpr::of(target).span;
    faults.push(Fault { kind, range })?;
    Ok(())
}
