//! When a piece is written.
ghost use Rattle.std.specs.Prelude.{◌≡◌};
ghost use Rattle.fast_check_tree_syntax.specs.Part.{seen};
ghost use Rattle.fast_check_syntax_table.specs.Guards.{holds, is_set as it_is_set, start_of as its_start};
ghost use Rattle.fast_check_syntax_table.specs.Written.{is_lone as it_is_lone};

use fast_check_syntax_table::When;
use fast_check_tree_syntax::{Kind, Part, Tree};

fn is_set(part: Part<'_>) -> bool
    ensures { result ≡ it_is_set (seen part.entry) }
{
    let kind = part.kind();
    if kind == Kind::List {
        !part.parts().is_empty()
    } else if kind == Kind::Leaf {
        part.flag() || !part.text().is_empty()
    } else {
        true
    }
}

fn start_of(part: Part<'_>) -> u32
    ensures { result ≡ its_start (seen part.entry) }
{
    part.part(0).range().start.0
}

/// Whether a piece is written.
pub(crate) fn is_so(when: When, tree: Part<'_>) -> bool
    ensures { result ≡ holds when (seen tree.entry) }
{
    match when {
        When::Always => true,
        When::Has(place) => is_set(tree.part(place)),
        When::Lacks(place) => !is_set(tree.part(place)),
        When::There(place) => !tree.part(place).is_absent(),
        When::Gone(place) => tree.part(place).is_absent(),
        When::Says(place, word) => tree.part(place).has_word(word),
        When::Reads(place, phrase) => tree.part(place).text() == phrase.text(),
        When::Is(place, kind) => tree.part(place).kind() == kind,
        When::IsNot(place, kind) => tree.part(place).kind() != kind,
        When::Neither(one, other) => !tree.part(one).flag() && !tree.part(other).flag(),
        When::Starts(place) => start_of(tree.part(place)) == start_of(tree),
        When::Follows(place) => start_of(tree.part(place)) != start_of(tree),
    }
}

/// Whether parameters are one name without a type.
pub(crate) fn is_lone(params: &[Tree]) -> bool
    ensures { result ≡ it_is_lone params.now }
{
    match params {
        [param] => {
            let param = param.read();
            param.kind() == Kind::BindingIdent && param.part(1).is_absent()
        }
        _ => false,
    }
}
