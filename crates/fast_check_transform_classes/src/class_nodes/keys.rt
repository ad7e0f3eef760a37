//! The keys of members: whether a member is private, computed or of a hash name, and its text.
ghost use Rattle.std.specs.Prelude.{◌≡◌};
ghost use Rattle.fast_check_tree_syntax.specs.Part.{seen};
ghost use Rattle.fast_check_meaning_signatures.specs.Members as members;

use fast_check_tree_forms_classes::AutoAccessor;
use fast_check_tree_forms_programs::{BigInt, IdentName, Number, Str};
use fast_check_tree_syntax::{Kind, Part, Word};

/// Whether a member is declared `private`, by its accessibility.
pub fn is_private(accessibility: Part<'_>) -> bool
    ensures { result ≡ members.is_private (seen accessibility.entry) }
{
    accessibility.has_word(Word::Private)
}

/// Whether a key is computed, as `[key]`.
pub fn is_computed(key: Part<'_>) -> bool
    ensures { result ≡ members.is_computed (seen key.entry) }
{
    key.kind() == Kind::ComputedPropName
}

/// The text of a key: a name, the value of a text, or a number as it is written; of any other the empty text.
pub fn key_text<'a>(key: Part<'a>) -> &'a str
    ensures { result.now ≡ members.key_text (seen key.entry) }
{
    match key.kind() {
        Kind::IdentName => IdentName::of(key).sym,
        Kind::Str => Str::of(key).value,
        Kind::Number => Number::of(key).raw,
        Kind::BigInt => BigInt::of(key).raw,
        _ => "",
    }
}

/// Whether a member is a method, a property or an accessor with a hash name.
pub fn is_hash_named(member: Part<'_>) -> bool
    ensures { result ≡ members.is_hash_named (seen member.entry) }
{
    match member.kind() {
        Kind::PrivateMethod | Kind::PrivateProp => true,
        Kind::AutoAccessor => AutoAccessor::of(member).key.kind() == Kind::PrivateName,
        _ => false,
    }
}
