//! Look-ups in the tables of the tree's JSON.
ghost use Rattle.std.specs.Prelude.{◌≡◌, option_map};
ghost use Rattle.std.specs.List.{list_any};
ghost use Rattle.fast_check_read.specs.schema.Lookup.{variant_by_name, variant_by_kind, word_by_text, row_of_word, is_admitted, marked_choice};
ghost use Rattle.fast_check_read.specs.schema.Rows.{variant_row, word_row};
ghost use Rattle.fast_check_read.specs.schema.Schema.{variants_of, words_of};

use crate::schema::form::{Choice, Form, Named, Variant, Words};
use crate::schema::tables::{variants, words};
use fast_check_tree_syntax::{Kind, Word};

/// The variant of a choice by its name.
pub fn variant_named(choice: Choice, name: &str) -> Option<Variant>
    ensures { option_map variant_row result ≡ variant_by_name name.now (variants_of choice) }
{
    for variant in variants(choice) {
        if variant.0 == name {
            return Some(*variant);
        }
    }
    None
}

/// The variant of a choice under which a node of a kind stands.
pub fn variant_of(choice: Choice, kind: Kind) -> Option<Variant>
    ensures { option_map variant_row result ≡ variant_by_kind kind (variants_of choice) }
{
    for variant in variants(choice) {
        if admits(2, kind, variant.1) {
            return Some(*variant);
        }
    }
    None
}

/// Whether a node of the kind may stand where the form does, through at most so many choices.
#[cycle(admits)]
fn admits(levels: u8, kind: Kind, form: Form) -> bool
    ensures { result ≡ is_admitted levels kind form }
{
    match form {
        Form::Struct(own) => own == kind,
        Form::Marked(own) => own == kind,
        Form::Choice(choice) => levels > 0 && admits_variant(levels - 1, kind, choice),
        _ => false,
    }
}

/// The same of one of a choice's variants.
#[cycle(admits)]
fn admits_variant(levels: u8, kind: Kind, choice: Choice) -> bool
    ensures { result ≡ list_any (λ v. is_admitted levels kind v.form) (variants_of choice) }
{
    for variant in variants(choice) {
        if admits(levels, kind, variant.1) {
            return true;
        }
    }
    false
}

/// The word of a list by its text.
pub fn word_named(list: Words, text: &str) -> Option<Word>
    ensures { result ≡ option_map (λ row. row.word) (word_by_text text.now (words_of list)) }
{
    for named in words(list) {
        if named.0 == text {
            return Some(named.1);
        }
    }
    None
}

/// The text of a word of a list.
pub fn word_text(list: Words, word: Word) -> Option<&'static str>
    ensures { option_map (λ text. text.now) result ≡ option_map (λ row. row.name) (row_of_word word (words_of list)) }
{
    for named in words(list) {
        if named.1 == word {
            return Some(named.0);
        }
    }
    None
}

/// The choice that a mark stands round: a pattern that is assigned to, or an expression that is a pattern.
pub fn marked(kind: Kind) -> Option<Choice>
    ensures { result ≡ marked_choice kind }
{
    match kind {
        Kind::TargetPat => Some(Choice::Pat),
        Kind::PatExpr => Some(Choice::Expr),
        _ => None,
    }
}
