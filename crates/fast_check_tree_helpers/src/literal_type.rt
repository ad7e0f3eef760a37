//! The type of a literal, as a constant and as what may change.
ghost use Rattle.std.specs.Prelude.{◌≡◌, IfOk};
ghost use Rattle.fast_check_tree_syntax.specs.Part.{seen};
ghost use Rattle.fast_check_tree_helpers.specs.Keywords.{word_of};
ghost use Rattle.fast_check_tree_helpers.specs.LiteralType.{type_of_literal, literal_or_keyword};

use crate::builders::{regex_type, ts_keyword_type, ts_lit_type};
use crate::keywords::TsKeywordTypeKind;
use fast_check_tree_syntax::{Kind, Part, Tree};
use std::alloc::{AllocError, Global};

/// Whether a declared name keeps its value, as under `const` and `readonly`.
#[derive(Clone, Copy, PartialEq, Eq, Debug)]
pub enum DeclMutabilityKind {
    Const,
    Mutable,
}

/// The type of a literal itself where it is constant, else that of the keyword.
fn literal_or_keyword(
    alloc: Global,
    mutability: DeclMutabilityKind,
    keyword: TsKeywordTypeKind,
    lit: Part<'_>,
) -> Result<Tree, AllocError>
    ensures { IfOk result (λ ty. ty ≡ literal_or_keyword mutability (word_of keyword) (seen lit.entry)) }
{
    match mutability {
        DeclMutabilityKind::Const => ts_lit_type(lit.to_tree(alloc)?).into_tree(alloc),
        DeclMutabilityKind::Mutable => ts_keyword_type(keyword).into_tree(alloc),
    }
}

/// The type that a literal shows: `"a"` for a constant text and `string` for another, and so for booleans, numbers and
/// big integers; `null` and `RegExp` either way. None for a JSX text, and for an expression that is no literal.
pub fn maybe_lit_to_ts_type(
    alloc: Global,
    lit: Part<'_>,
    mutability: DeclMutabilityKind,
) -> Result<Option<Tree>, AllocError>
    ensures { IfOk result (λ ty. ty ≡ type_of_literal mutability (seen lit.entry)) }
{
    let keyword = match lit.kind() {
        Kind::Null => return Ok(Some(ts_keyword_type(TsKeywordTypeKind::TsNullKeyword).into_tree(
            alloc,
        )?)),
        Kind::Regex => return Ok(Some(regex_type(alloc)?)),
        Kind::Str => TsKeywordTypeKind::TsStringKeyword,
        Kind::Bool => TsKeywordTypeKind::TsBooleanKeyword,
        Kind::Number => TsKeywordTypeKind::TsNumberKeyword,
        Kind::BigInt => TsKeywordTypeKind::TsBigIntKeyword,
        _ => return Ok(None),
    };
    Ok(Some(literal_or_keyword(alloc, mutability, keyword, lit)?))
}
