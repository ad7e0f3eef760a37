//! The type of a template.
ghost use Rattle.std.specs.Prelude.{◌≡◌, IfOk};
ghost use Rattle.fast_check_tree_syntax.specs.Part.{seen};
ghost use Rattle.fast_check_tree_helpers.specs.TemplateType.{cooked_text, text_or_string, type_of_template};

use crate::builders::{ts_keyword_type, ts_lit_type};
use crate::keywords::TsKeywordTypeKind;
use crate::literal_type::DeclMutabilityKind;
use fast_check_tree_forms_expressions::{Tpl, TplElement};
use fast_check_tree_forms_programs::Str;
use fast_check_tree_syntax::{Atom, DUMMY_SP, Part, Tree};
use std::alloc::{AllocError, Global};

/// The text that the first part of a template stands for. Absent where its escapes have no meaning.
fn cooked_text<'a>(tpl: Part<'a>) -> Part<'a>
    ensures { seen result ≡ cooked_text (seen tpl.entry) }
{
    TplElement::of(Tpl::of(tpl).quasis.part(0)).cooked
}

/// The type of a text, as `"a"`; `string` where there is no text.
fn text_or_string(alloc: Global, text: Part<'_>) -> Result<Tree, AllocError>
    ensures { IfOk result (λ ty. ty ≡ text_or_string (seen text.entry)) }
{
    if text.is_absent() {
        return ts_keyword_type(TsKeywordTypeKind::TsStringKeyword).into_tree(alloc);
    }
    let literal = Str {
        span: DUMMY_SP,
        value: Atom::from_str(alloc, text.text())?,
        raw: Tree::Absent,
    };
    ts_lit_type(literal.into_tree(alloc)?).into_tree(alloc)
}

/// The type that an untagged template, a `Tpl`, shows: that of its text where it is constant and nothing is substituted,
/// else `string`. The text's literal type has no raw form.
pub fn tpl_to_ts_type(
    alloc: Global,
    tpl: Part<'_>,
    mutability: DeclMutabilityKind,
) -> Result<Tree, AllocError>
    ensures { IfOk result (λ ty. ty ≡ type_of_template mutability (seen tpl.entry)) }
{
    match (mutability, Tpl::of(tpl).exprs.parts()) {
        (DeclMutabilityKind::Const, []) => text_or_string(alloc, cooked_text(tpl)),
        _ => ts_keyword_type(TsKeywordTypeKind::TsStringKeyword).into_tree(alloc),
    }
}
