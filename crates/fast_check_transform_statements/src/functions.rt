//! Functions that are declared.
ghost use Rattle.fast_check_tree_syntax.specs.Part.{seen};
ghost use Rattle.fast_check_transform_imports.specs.module_facts.ModuleFacts.{facts_of};
ghost use Rattle.fast_check_transform_imports.specs.module_facts.Kept.{GivesItem};
ghost use Rattle.fast_check_transform_statements.specs.PartAnswers.{public_function_answer};

use fast_check_meaning_signatures::{Fault, FunctionKind};
use fast_check_transform_expressions::{transform_fn, transform_implementation};
use fast_check_transform_imports::ModuleFacts;
use fast_check_tree_forms_programs::Ident;
use fast_check_tree_forms_statements::FnDecl;
use fast_check_tree_syntax::{Part, SourceRange, Tree};
use std::alloc::{AllocError, Global};

/// A function, which is public by `place`; none where it is not. Where all is ambient the function stands as it is written; an
/// implementation behind overloads by the count of its parameters; another function by its signature.
pub fn transform_public_function(
    alloc: Global,
    facts: ModuleFacts<'_>,
    place: SourceRange,
    decl: Part<'_>,
    faults: &mut Vec<Fault>,
) -> Result<Option<Tree>, AllocError>
    ensures { GivesItem result (public_function_answer (facts_of facts.entry) place (seen decl.entry)) faults.old faults.new }
{
    if !facts.public_ranges.contains(&place) {
        return Ok(None);
    }
    if facts.is_ambient {
        return Ok(Some(decl.to_tree(alloc)?));
    }
    let FnDecl {
        ident,
        declare,
        function,
    } = FnDecl::of(decl);
    let name = Ident::of(ident).span;
    let function = if facts.public_ranges.is_impl_with_overloads(&place) {
        transform_implementation(alloc, function)?
    } else {
        let kind = FunctionKind::DeclarationLike;
        transform_fn(alloc, facts.bindings, kind, name, function, faults)?
    };
    let made = FnDecl {
        ident: ident.to_tree(alloc)?,
        declare,
        function,
    };
    Ok(Some(made.into_tree(alloc)?))
}
