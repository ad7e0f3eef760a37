//! What is public of a module, by ranges.
ghost use Rattle.std.specs.Prelude.{◌≡◌, [], IfOk};
ghost use Rattle.std.specs.List.{list_any};
ghost use Rattle.fast_check_tables_diagnostics.specs.PublicRanges.{is_public, is_implementation, same_range};

use crate::diagnostics::FastCheckDiagnostic;
use fast_check_tree_syntax::SourceRange;
use std::alloc::{AllocError, Global};
use std::collections::BTreeSet;
use std::marker::Model;
use std::mem;

/// What is public in a module, by ranges of its source text, with the diagnostics that were found with it.
#[derive(Debug, Drop)]
pub struct ModulePublicRanges {
    ranges: BTreeSet<SourceRange>,
    impl_with_overload_ranges: BTreeSet<SourceRange>,
    diagnostics: Vec<FastCheckDiagnostic>,
}

impl Model for ModulePublicRanges {
    ghost use Rattle.fast_check_tables_diagnostics.specs.PublicRanges.{PublicRanges};

    ghost Value = { PublicRanges };

    ghost view = { λ a. record { ranges = a.ranges.keys; implementations = a.impl_with_overload_ranges.keys; diagnostics = a.diagnostics.items } };
}

impl ModulePublicRanges {
    /// The public ranges of a module: those of its public declarations, and those of the implementations that have overloads. A range that
    /// is given twice counts once.
    pub fn from_parts(
        alloc: Global,
        ranges: Vec<SourceRange>,
        impl_with_overload_ranges: Vec<SourceRange>,
        diagnostics: Vec<FastCheckDiagnostic>,
    ) -> Result<ModulePublicRanges, AllocError>
        ensures public { IfOk result (λ made. (r : _) → is_public made r ≡ list_any (same_range r) ranges.items) }
        ensures implementations { IfOk result (λ made. (r : _) → is_implementation made r ≡ list_any (same_range r) impl_with_overload_ranges.items) }
        ensures diagnostics { IfOk result (λ made. made.diagnostics ≡ diagnostics.items) }
    {
        Ok(ModulePublicRanges {
            ranges: range_set(alloc, ranges)?,
            impl_with_overload_ranges: range_set(alloc, impl_with_overload_ranges)?,
            diagnostics,
        })
    }

    /// Whether a declaration is public, by its range.
    pub fn contains(&self, range: &SourceRange) -> bool
        ensures { result ≡ is_public self.now range.now }
    {
        self.ranges.contains(range)
    }

    /// Whether a declaration is an implementation that has overloads, by its range.
    pub fn is_impl_with_overloads(&self, range: &SourceRange) -> bool
        ensures { result ≡ is_implementation self.now range.now }
    {
        self.impl_with_overload_ranges.contains(range)
    }

    /// Takes the diagnostics out, and leaves none. It takes no memory.
    pub fn take_diagnostics(&mut self) -> Vec<FastCheckDiagnostic>
        ensures taken { result.items ≡ self.old.diagnostics }
        ensures left { self.new ≡ record self.old { diagnostics = [] } }
    {
        let none = Vec::new(*self.diagnostics.allocator());
        mem::replace(&mut self.diagnostics, none)
    }
}

/// The set of these ranges. A range that stands twice is in it once.
pub fn range_set(
    alloc: Global,
    ranges: Vec<SourceRange>,
) -> Result<BTreeSet<SourceRange>, AllocError>
    ensures { IfOk result (λ set. (r : _) → list_any (same_range r) set.keys ≡ list_any (same_range r) ranges.items) }
{
    ranges.into_iter().collect(alloc)
}
