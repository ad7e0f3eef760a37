//! Variable statements and `using`, declarator by declarator.
ghost use Rattle.std.specs.Prelude.{◌≡◌, IfOk};
ghost use Rattle.std.specs.List.{list_any};
ghost use Rattle.fast_check_tree_syntax.specs.Part.{seen};
ghost use Rattle.fast_check_tree_syntax.specs.Shape.{parts};
ghost use Rattle.fast_check_tree_forms_statements.specs.Declarations.{VarDecl-decls};
ghost use Rattle.fast_check_tree_helpers.specs.Builders.{never_value};
ghost use Rattle.fast_check_meaning_signatures.specs.Answers.{faultless};
ghost use Rattle.fast_check_meaning_signatures.specs.Typing.{type_of};
ghost use Rattle.fast_check_transform_imports.specs.skeleton.Mutability.{mutability_of};
ghost use Rattle.fast_check_transform_imports.specs.skeleton.Visible.{declarator_typing, is_ambient_statement, is_public_declarator, is_public_using, using_place};
ghost use Rattle.fast_check_transform_imports.specs.module_facts.ModuleFacts.{facts_of};
ghost use Rattle.fast_check_transform_imports.specs.module_facts.Kept.{GivesItem, as_list};
ghost use Rattle.fast_check_transform_imports.specs.nodes.Gives.{Gives, GivesTree};
ghost use Rattle.fast_check_transform_statements.specs.PartAnswers.{retyped, value_answer, valued_answer, ident_answer};
ghost use Rattle.fast_check_transform_statements.specs.PartAnswers.{declarator_answer, public_answer, declarators_answer, statement_answer, standing_answer};
ghost use Rattle.fast_check_transform_statements.specs.PartAnswers.{using_answer};

use fast_check_meaning_signatures::{Fault, FaultKind};
use fast_check_transform_expressions::nodes::Typing;
use fast_check_transform_expressions::transform_expr;
use fast_check_transform_imports::ModuleFacts;
use fast_check_tree_forms_programs::{BindingIdent, Ident};
use fast_check_tree_forms_statements::{UsingDecl, VarDecl, VarDeclarator};
use fast_check_tree_helpers::ranges::range_of_node;
use fast_check_tree_helpers::{DeclMutabilityKind, never_value};
use fast_check_tree_syntax::{Items, Kind, Part, SourceRange, Tree, Word};
use std::alloc::{AllocError, Global};

/// Whether what a statement of this kind declares keeps its value.
fn mutability_of(kind: Part<'_>) -> DeclMutabilityKind
    ensures { result ≡ mutability_of (seen kind.entry) }
{
    if kind.has_word(Word::Const) {
        DeclMutabilityKind::Const
    } else {
        DeclMutabilityKind::Mutable
    }
}

/// Whether a variable statement stands as it is written, since it is ambient.
fn is_ambient_statement(facts: ModuleFacts<'_>, statement: Part<'_>) -> bool
    ensures { result ≡ is_ambient_statement (facts_of facts.entry) (seen statement.entry) }
{
    facts.is_ambient || VarDecl::of(statement).declare
}

/// A declarator with this type and this value.
fn retyped(alloc: Global, declarator: Part<'_>, ty: Tree, value: Tree) -> Result<Tree, AllocError>
    ensures { IfOk result (λ tree. tree ≡ retyped (seen declarator.entry) ty value) }
{
    let declarator = VarDeclarator::of(declarator);
    let id = BindingIdent::of(declarator.name).id.to_tree(alloc)?;
    let name = BindingIdent { id, type_ann: ty };
    let name = name.into_tree(alloc)?;
    VarDeclarator {
        span: declarator.span,
        name,
        init: value,
        definite: declarator.definite,
    }
    .into_tree(alloc)
}

/// A declarator with this type, and the value of what has one.
fn declared(alloc: Global, declarator: Part<'_>, ty: Tree) -> Result<Tree, AllocError>
    ensures { IfOk result (λ tree. tree ≡ retyped (seen declarator.entry) ty never_value) }
{
    let value = never_value(alloc)?;
    retyped(alloc, declarator, ty, value)
}

/// The value that stays of a declarator without a type; none where the value may not stay or is absent. The
/// declarator has the identifier at `place`.
pub fn transform_init(
    alloc: Global,
    facts: ModuleFacts<'_>,
    place: SourceRange,
    value: Part<'_>,
    faults: &mut Vec<Fault>,
) -> Result<Option<Tree>, AllocError>
    ensures { Gives result (value_answer (facts_of facts.entry) place (seen value.entry)) faults.old faults.new }
{
    if value.is_absent() {
        return Ok(None);
    }
    transform_expr(alloc, facts.bindings, value, Some(place), faults)
}

/// A declarator without type, with the value that gives it. Where there is none that may stay, that is a fault at the
/// identifier.
fn valued_declarator(
    alloc: Global,
    facts: ModuleFacts<'_>,
    declarator: Part<'_>,
    faults: &mut Vec<Fault>,
) -> Result<Tree, AllocError>
    ensures { GivesTree result (valued_answer (facts_of facts.entry) (seen declarator.entry)) faults.old faults.new }
{
    let VarDeclarator { name, init, .. } = VarDeclarator::of(declarator);
    let place = Ident::of(BindingIdent::of(name).id).span;
    match transform_init(alloc, facts, place, init, faults)? {
        Some(value) => retyped(alloc, declarator, Tree::Absent, value),
        None => {
            faults.push(Fault {
                kind: FaultKind::MissingExplicitType,
                range: place,
            })?;
            retyped(alloc, declarator, Tree::Absent, Tree::Absent)
        }
    }
}

/// The type of a declarator of an identifier, as `: type`, if it is written or the value shows it.
fn declarator_type(
    alloc: Global,
    facts: ModuleFacts<'_>,
    mutability: DeclMutabilityKind,
    declarator: Part<'_>,
) -> Result<Option<Tree>, AllocError>
    ensures { IfOk result (λ ty. ty ≡ type_of (facts_of facts.entry).bindings.unresolved (declarator_typing mutability (seen declarator.entry))) }
{
    let VarDeclarator { name, init, .. } = VarDeclarator::of(declarator);
    Typing {
        is_private: false,
        type_ann: BindingIdent::of(name).type_ann,
        value: init,
        mutability,
    }
    .type_of(alloc, facts.bindings.unresolved)
}

/// A declarator of an identifier, with its type, or else with a value that may stay.
fn ident_declarator(
    alloc: Global,
    facts: ModuleFacts<'_>,
    mutability: DeclMutabilityKind,
    declarator: Part<'_>,
    faults: &mut Vec<Fault>,
) -> Result<Tree, AllocError>
    ensures { GivesTree result (ident_answer (facts_of facts.entry) mutability (seen declarator.entry)) faults.old faults.new }
{
    match declarator_type(alloc, facts, mutability, declarator)? {
        Some(ty) => declared(alloc, declarator, ty),
        None => valued_declarator(alloc, facts, declarator, faults),
    }
}

/// A declarator with the type that is written or that its value shows, or with a value that gives it. Where there is
/// none, or where a pattern stands for the identifier, that is a fault.
fn typed_declarator(
    alloc: Global,
    facts: ModuleFacts<'_>,
    mutability: DeclMutabilityKind,
    declarator: Part<'_>,
    faults: &mut Vec<Fault>,
) -> Result<Tree, AllocError>
    ensures { GivesTree result (declarator_answer (facts_of facts.entry) mutability (seen declarator.entry)) faults.old faults.new }
{
    let name = VarDeclarator::of(declarator).name;
    if name.kind() == Kind::BindingIdent {
        return ident_declarator(alloc, facts, mutability, declarator, faults);
    }
    faults.push(Fault {
        kind: FaultKind::UnsupportedDestructuring,
        range: range_of_node(name),
    })?;
    Ok(Tree::Absent)
}

/// A declarator of a statement, that of an ambient one as it is written; none where it is not public.
fn transform_declarator(
    alloc: Global,
    facts: ModuleFacts<'_>,
    statement: Part<'_>,
    declarator: Part<'_>,
    faults: &mut Vec<Fault>,
) -> Result<Option<Tree>, AllocError>
    ensures { GivesItem result (public_answer (facts_of facts.entry) (seen statement.entry) (seen declarator.entry)) faults.old faults.new }
{
    let span = VarDeclarator::of(declarator).span;
    if !facts.public_ranges.contains(&span) {
        return Ok(None);
    }
    if is_ambient_statement(facts, statement) {
        return Ok(Some(declarator.to_tree(alloc)?));
    }
    let mutability = mutability_of(VarDecl::of(statement).kind);
    Ok(Some(typed_declarator(alloc, facts, mutability, declarator, faults)?))
}

/// The public declarators of a statement.
fn public_declarators(
    alloc: Global,
    facts: ModuleFacts<'_>,
    statement: Part<'_>,
    faults: &mut Vec<Fault>,
) -> Result<Items<Tree>, AllocError>
    ensures { Gives result (declarators_answer (facts_of facts.entry) (seen statement.entry) (parts (VarDecl-decls (seen statement.entry))))
        faults.old faults.new }
{
    let mut items = Items::new(alloc);
    for declarator in VarDecl::of(statement).decls.parts() {
        match transform_declarator(alloc, facts, statement, declarator.read(), faults)? {
            None => continue,
            Some(declarator) => items.push(declarator)?,
        }
    }
    Ok(items)
}

/// A variable statement with its public declarators; none where it has none.
pub fn transform_statement(
    alloc: Global,
    facts: ModuleFacts<'_>,
    statement: Part<'_>,
    faults: &mut Vec<Fault>,
) -> Result<Option<Tree>, AllocError>
    ensures { GivesItem result (statement_answer (facts_of facts.entry) (seen statement.entry)) faults.old faults.new }
{
    let decls = public_declarators(alloc, facts, statement, faults)?;
    if decls.is_empty() {
        return Ok(None);
    }
    let VarDecl {
        span,
        ctxt,
        kind,
        declare,
        ..
    } = VarDecl::of(statement);
    let kind = kind.to_tree(alloc)?;
    let statement = VarDecl {
        span,
        ctxt,
        kind,
        declare,
        decls: Tree::list(decls),
    };
    Ok(Some(statement.into_tree(alloc)?))
}

/// Whether a declarator is public.
fn is_public_declarator(facts: ModuleFacts<'_>, declarator: Part<'_>) -> bool
    ensures { result ≡ is_public_declarator (facts_of facts.entry) (seen declarator.entry) }
{
    facts
        .public_ranges
        .contains(&VarDeclarator::of(declarator).span)
}

/// Whether one of some declarators is public.
fn has_public_declarator(facts: ModuleFacts<'_>, decls: Part<'_>) -> bool
    ensures { result ≡ list_any (is_public_declarator (facts_of facts.entry)) (parts (seen decls.entry)) }
{
    decls.parts().iter().any(|declarator| is_public_declarator(facts, declarator.read()))
}

/// Whether `using` is public: by `place`, or by one of its declarators.
fn is_public_using(facts: ModuleFacts<'_>, place: SourceRange, decl: Part<'_>) -> bool
    ensures { result ≡ is_public_using (facts_of facts.entry) place (seen decl.entry) }
{
    facts.public_ranges.contains(&place) || has_public_declarator(facts, UsingDecl::of(decl).decls)
}

/// Where `using` is refused: at its first declarator, or at itself where it has none.
fn using_place(decl: Part<'_>) -> SourceRange
    ensures { result ≡ using_place (seen decl.entry) }
{
    let UsingDecl { span, decls, .. } = UsingDecl::of(decl);
    match decls.parts().first() {
        Some(declarator) => VarDeclarator::of(declarator.read()).span,
        None => span,
    }
}

/// The fault of `using`, if it is public; no skeleton has its declarations.
pub fn transform_using(
    facts: ModuleFacts<'_>,
    place: SourceRange,
    decl: Part<'_>,
    faults: &mut Vec<Fault>,
) -> Result<Option<Tree>, AllocError>
    ensures { GivesItem result (using_answer (facts_of facts.entry) place (seen decl.entry)) faults.old faults.new }
{
    if !is_public_using(facts, place, decl) {
        return Ok(None);
    }
    faults.push(Fault {
        kind: FaultKind::UnsupportedUsing,
        range: using_place(decl),
    })?;
    Ok(Some(Tree::Absent))
}

/// A declaration that stands as it is written, which is public by `place`; none where it is not.
pub fn transform_standing(
    alloc: Global,
    facts: ModuleFacts<'_>,
    place: SourceRange,
    decl: Part<'_>,
) -> Result<Option<Tree>, AllocError>
    ensures { IfOk result (λ tree. standing_answer (facts_of facts.entry) place (seen decl.entry) ≡ faultless (as_list tree)) }
{
    if !facts.public_ranges.contains(&place) {
        return Ok(None);
    }
    Ok(Some(decl.to_tree(alloc)?))
}
