//! The property that an assignment declares for a function, as `f.a = 1;`.
ghost use Rattle.std.specs.Prelude.{◌≡◌, IfOk};
ghost use Rattle.std.specs.Option.{option_copied};
ghost use Rattle.fast_check_tree_syntax.specs.Part.{seen};
ghost use Rattle.fast_check_tree_forms_expressions.specs.Operators.{AssignExpr-span, AssignExpr-left};
ghost use Rattle.fast_check_meaning_expandos.specs.Objects.{exports_name, stands_exported};
ghost use Rattle.fast_check_meaning_expandos.specs.Expandos.{object_of, property_name, property_declarator, property_of};

use crate::references::{Reference, conflicts, exports_name};
use fast_check_tables_symbols::Symbol;
use fast_check_tree_forms_expressions::{AssignExpr, MemberExpr};
use fast_check_tree_forms_programs::{BindingIdent, Ident, IdentName};
use fast_check_tree_forms_statements::VarDeclarator;
use fast_check_tree_helpers::new_ident;
use fast_check_tree_syntax::{Atom, Id, Items, Part, SourceRange, Tree};
use std::alloc::{AllocError, Global};

/// A property that `object.name = value;` declares for a function.
#[derive(Drop)]
pub struct ExpandoProperty {
    pub object: Id,
    /// Whether a declaration of the object stands behind the keyword `export`.
    pub is_exported: bool,
    /// `name = value` as it stands in the namespace of the object.
    pub declarator: Tree,
    /// What the value mentions of the names that the object exports.
    pub conflicts: Items<Reference>,
}

/// The property that an assignment of expando form declares, with its value as it stays. `symbol` is the symbol of the object.
pub fn expando_property(
    alloc: Global,
    symbol: Option<&Symbol>,
    assignment: Part<'_>,
    value: Tree,
) -> Result<ExpandoProperty, AllocError>
    ensures { IfOk result (λ made. made ≡
        property_of (exports_name (option_copied symbol.entry)) (stands_exported (option_copied symbol.entry))
        (AssignExpr-span (seen assignment.entry)) (AssignExpr-left (seen assignment.entry)) value) }
{
    let AssignExpr { span, left, .. } = AssignExpr::of(assignment);
    let object = object_of(alloc, left)?;
    let conflicts = conflicts(alloc, object.1, symbol, value.read())?;
    let is_exported = stands_exported(symbol);
    let declarator = property_declarator(alloc, span, left, value)?;
    Ok(ExpandoProperty {
        object,
        is_exported,
        declarator,
        conflicts,
    })
}

/// The object of a target `object.name`.
pub fn object_of(alloc: Global, target: Part<'_>) -> Result<Id, AllocError>
    ensures { IfOk result (λ object. object ≡ object_of (seen target.entry)) }
{
    let Ident { ctxt, sym, .. } = Ident::of(MemberExpr::of(target).obj);
    Ok(Id(Atom::from_str(alloc, sym)?, ctxt))
}

/// `name = value` at this place, with the name of a target `object.name`.
fn property_declarator(
    alloc: Global,
    place: SourceRange,
    target: Part<'_>,
    value: Tree,
) -> Result<Tree, AllocError>
    ensures { IfOk result (λ tree. tree ≡ property_declarator place (seen target.entry) value) }
{
    let property = IdentName::of(MemberExpr::of(target).prop);
    let id = new_ident(Atom::from_str(alloc, property.sym)?).into_tree(alloc)?;
    let name = BindingIdent {
        id,
        type_ann: Tree::Absent,
    };
    let name = name.into_tree(alloc)?;
    VarDeclarator {
        span: place,
        name,
        init: value,
        definite: false,
    }
    .into_tree(alloc)
}

/// Whether a declaration of a symbol, if there is one, stands behind the keyword `export`.
fn stands_exported(symbol: Option<&Symbol>) -> bool
    ensures { result ≡ stands_exported (option_copied symbol.entry) }
{
    match symbol {
        Some(symbol) => symbol.has_export_keyword(),
        None => false,
    }
}

/// Whether a symbol, if there is one, exports the name of a target `object.name`.
pub fn exports_property(symbol: Option<&Symbol>, target: Part<'_>) -> bool
    ensures { result ≡ exports_name (option_copied symbol.entry) (property_name (seen target.entry)) }
{
    exports_name(symbol, IdentName::of(MemberExpr::of(target).prop).sym)
}
