//! Names as trees have them.
ghost use Rattle.std.specs.Prelude.{◌≡◌, ◌↔◌, IfOk, IsSome};
ghost use Rattle.fast_check_tree_syntax.specs.Part.{seen};
ghost use Rattle.fast_check_tree_syntax.specs.Shape.{kind_of};
ghost use Rattle.fast_check_tree_syntax.specs.declared.kind.Kind.TheVariants as kinds;

use fast_check_tree_forms_expressions::{ComputedPropName, MemberExpr};
use fast_check_tree_forms_programs::{BigInt, Ident, IdentName, Number, Str};
use fast_check_tree_forms_types::TsQualifiedName;
use fast_check_tree_syntax::{Atom, Id, Kind, Part, SyntaxContext};
use std::alloc::{AllocError, Global};

/// The number of the scope of a name that nothing binds.
pub const UNRESOLVED: SyntaxContext = SyntaxContext(1);

/// A part that is absent.
pub fn nothing(part: Part<'_>) -> Part<'_> {
    part.part(part.parts().len())
}

/// A name with a scope, if it is one.
pub fn id_of(alloc: Global, part: Part<'_>) -> Result<Option<Id>, AllocError>
    ensures { IfOk result (λ found. IsSome found ↔ (kind_of (seen part.entry) ≡ kinds.Ident)) }
{
    if part.kind() != Kind::Ident {
        return Ok(None);
    }
    let Ident { sym, ctxt, .. } = Ident::of(part);
    Ok(Some(Id(Atom::from_str(alloc, sym)?, ctxt)))
}

/// The same, where something may bind the name.
pub fn bound_id(alloc: Global, part: Part<'_>) -> Result<Option<Id>, AllocError> {
    let found = id_of(alloc, part)?;
    Ok(found.filter(|id| id.1 != UNRESOLVED && id.1 != SyntaxContext(0)))
}

/// The text of a name or of a string.
pub fn text_of(part: Part<'_>) -> &str {
    match part.kind() {
        Kind::Ident => Ident::of(part).sym,
        Kind::IdentName => IdentName::of(part).sym,
        Kind::Str => Str::of(part).value,
        Kind::Number => Number::of(part).raw,
        Kind::BigInt => BigInt::of(part).raw,
        _ => "",
    }
}

/// A name with those behind its dots.
#[derive(Drop)]
pub struct Chain<'a> {
    pub first: Part<'a>,
    pub names: Vec<&'a str>,
}

fn reversed<'a>(
    alloc: Global,
    first: Part<'a>,
    names: Vec<&'a str>,
) -> Result<Chain<'a>, AllocError> {
    let mut made = Vec::new(alloc);
    for name in names.iter().rev() {
        made.push(*name)?;
    }
    Ok(Chain { first, names: made })
}

/// `a.b.c` as a type.
pub fn entity_chain<'a>(alloc: Global, entity: Part<'a>) -> Result<Chain<'a>, AllocError> {
    let mut names = Vec::new(alloc);
    let mut at = entity;
    for _turn in 0..u64::MAX {
        if at.kind() != Kind::TsQualifiedName {
            break;
        }
        let TsQualifiedName { left, right, .. } = TsQualifiedName::of(at);
        names.push(text_of(right))?;
        at = left;
    }
    reversed(alloc, at, names)
}

/// `a.b.c` as a value, if it is a name with names behind it.
pub fn value_chain<'a>(alloc: Global, value: Part<'a>) -> Result<Option<Chain<'a>>, AllocError> {
    let mut names = Vec::new(alloc);
    let mut at = value;
    for _turn in 0..u64::MAX {
        if at.kind() != Kind::MemberExpr {
            break;
        }
        let MemberExpr { obj, prop, .. } = MemberExpr::of(at);
        if prop.kind() != Kind::IdentName {
            return Ok(None);
        }
        names.push(text_of(prop))?;
        at = obj;
    }
    if at.kind() == Kind::Ident {
        Ok(Some(reversed(alloc, at, names)?))
    } else {
        Ok(None)
    }
}

/// The value of a computed name of a property.
pub fn computed_of(key: Part<'_>) -> Option<Part<'_>>
    ensures { IsSome result ↔ (kind_of (seen key.entry) ≡ kinds.ComputedPropName) }
{
    if key.kind() == Kind::ComputedPropName {
        Some(ComputedPropName::of(key).expr)
    } else {
        None
    }
}

/// The name that a key is, if it is known.
pub fn key_name(key: Part<'_>) -> Option<&str> {
    match key.kind() {
        Kind::Ident | Kind::IdentName | Kind::Str | Kind::Number | Kind::BigInt => Some(text_of(
            key,
        )),
        Kind::ComputedPropName => {
            let expr = ComputedPropName::of(key).expr;
            if expr.kind() == Kind::Str {
                Some(text_of(expr))
            } else {
                None
            }
        }
        _ => None,
    }
}
