//! From which parameter on all may be left out.
ghost use Rattle.std.specs.Prelude.{◌≡◌, ℕ, ◌+◌, List, map};
ghost use Rattle.std.specs.Iterator.{Drains, IsFinite};
ghost use Rattle.fast_check_tree_syntax.specs.Part.{seen};
ghost use Rattle.fast_check_tree_syntax.specs.declared.part.Part.{Part};
ghost use Rattle.fast_check_tree_helpers.specs.OptionalParams.{is_optional_param, next_start, IsPlace, IsOptionalStart};

use fast_check_tree_forms_expressions::{ArrayPat, ObjectPat};
use fast_check_tree_forms_programs::{BindingIdent, Ident};
use fast_check_tree_syntax::{Kind, Part};
use std::marker::Model;

/// Whether a call may leave out a parameter: an identifier or a pattern with `?`, one with a default, or a rest.
fn is_optional_param(pat: Part<'_>) -> bool
    ensures { result ≡ is_optional_param (seen pat.entry) }
{
    match pat.kind() {
        Kind::BindingIdent => Ident::of(BindingIdent::of(pat).id).optional,
        Kind::ArrayPat => ArrayPat::of(pat).optional,
        Kind::ObjectPat => ObjectPat::of(pat).optional,
        Kind::AssignPat => true,
        Kind::RestPat => true,
        _ => false,
    }
}

/// The start of the optional parameters, once the one at `place` is read too. A place that no `usize` names is none.
fn next_start(start: Option<usize>, place: Option<usize>, is_optional: bool) -> Option<usize>
    ensures { result ≡ next_start start place is_optional }
{
    if is_optional { start.or(place) } else { None }
}

/// The place behind another, if a `usize` names it.
fn next_place(place: Option<usize>) -> Option<usize>
    ensures { (n : ℕ) → IsPlace place n → IsPlace result (n + 1) }
{
    place?.checked_add(1)
}

/// From where on all parameters of a function may be left out. Contracts see the place of the first, if there is one.
#[derive(Debug, Drop)]
pub struct ParamsOptionalStartIndex {
    start: Option<usize>,
}

impl Model for ParamsOptionalStartIndex {
    ghost use Rattle.std.specs.Prelude.{Option, ℕ};

    ghost Value = { Option ℕ };

    ghost view = { λ index. index.start };
}

impl ParamsOptionalStartIndex {
    ghost use Rattle.fast_check_tree_helpers.specs.OptionalParams.{is_from};

    /// The start among parameters, which are given by their patterns in order, by any iterator that ends. It takes no memory.
    pub fn build<'a, I: Iterator<Item = Part<'a>> + Drop>(params: I) -> ParamsOptionalStartIndex
        requires can { I.can_next params }
        requires ends { IsFinite (I.remaining params) }
        ensures { (pats : List Part) × Drains I.next_gives params pats × IsOptionalStart result (map seen pats) }
    {
        let mut start = None;
        let mut place = Some(0usize);
        for pat in params {
            start = next_start(start, place, is_optional_param(pat));
            place = next_place(place);
        }
        ParamsOptionalStartIndex { start }
    }

    /// Whether all parameters from `index` on may be left out, for an `index` below their count. It takes no memory.
    pub fn is_optional_at_index(&self, index: usize) -> bool
        ensures { result ≡ is_from self.now index }
    {
        match self.start {
            Some(start) => start <= index,
            None => false,
        }
    }
}
