//! Types that an assertion may show: without functions, and of simple parts.
ghost use Rattle.std.specs.Prelude.{◌≡◌};
ghost use Rattle.std.specs.List.{list_all};
ghost use Rattle.fast_check_tree_syntax.specs.Part.{seen};
ghost use Rattle.fast_check_tree_syntax.specs.Shape.{parts};
ghost use Rattle.fast_check_tree_helpers.specs.SimpleType.{is_simple_type, types_in};

use crate::fields::{SECOND, THIRD};
use fast_check_tree_forms_types::{TsLitType, TsTypeRef};
use fast_check_tree_syntax::{Kind, Part};

/// The field with the type, or the list of types, that a type holds; none of another kind.
fn types_in(kind: Kind) -> Option<usize>
    ensures { result ≡ types_in kind }
{
    match kind {
        Kind::TsArrayType | Kind::TsTupleType | Kind::TsUnionType => Some(SECOND),
        Kind::TsIntersectionType | Kind::TsParenthesizedType => Some(SECOND),
        Kind::TsOptionalType | Kind::TsRestType => Some(SECOND),
        Kind::TsTypeParamInstantiation => Some(SECOND),
        Kind::TsTupleElement | Kind::TsTypeOperator => Some(THIRD),
        _ => None,
    }
}

/// Whether an assertion to a type shows that type as it is written: a keyword, `this`, a type literal, a literal but a
/// template, and references to types, tuples, arrays, optional, rest, union, intersection and parenthesised types and
/// operators on types, where the types in them are simple. It takes no memory.
#[cycle(simple)]
pub fn is_simple_type(ty: Part<'_>) -> bool
    ensures { result ≡ is_simple_type (seen ty.entry) }
{
    let kind = ty.kind();
    match kind {
        Kind::TsKeywordType => true,
        Kind::TsThisType => true,
        Kind::TsTypeLit => true,
        Kind::TsLitType => TsLitType::of(ty).lit.kind() != Kind::TsTplLitType,
        Kind::TsTypeRef => {
            let type_params = TsTypeRef::of(ty).type_params;
            type_params.is_absent() || is_simple_type(type_params)
        }
        Kind::List => are_simple_types(ty),
        _ => {
            match types_in(kind) {
                Some(place) => is_simple_type(ty.part(place)),
                None => false,
            }
        }
    }
}

/// Whether each item of a list of types is simple.
#[cycle(simple)]
#[tactic(auto, using(fast_check_tree_syntax::specs::Height::height_read, std::proofs::lemmas::List::Folds::list_all_at))]
fn are_simple_types(types: Part<'_>) -> bool
    ensures { result ≡ list_all is_simple_type (parts (seen types.entry)) }
{
    for ty in types.parts() {
        if !is_simple_type(ty.read()) {
            return false;
        }
    }
    true
}
