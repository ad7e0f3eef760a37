//! A place that a diagnostic tells: a module, its source text, and a range in it.
ghost use Rattle.std.specs.Cmp.{partial_equiv_from_equiv};
ghost use Rattle.std.specs.Cmp.Rules.{hashing};
ghost use Rattle.std.proofs.Common.{rules};

use fast_check_tree_syntax::SourceRange;
use std::alloc::AllocError;
use std::fmt;
use std::hash::{Hash, Hasher};
use std::rc::RcStr;
use url::Url;

/// A part of a module's source text. Two of them are equal where module, start and end are: the text isn't compared.
#[derive(Drop)]
pub struct FastCheckDiagnosticRange {
    /// The module.
    pub specifier: Url,
    pub range: SourceRange,
    /// The module's whole source text, for a reader who is shown the part.
    pub text_info: RcStr,
}

impl Clone for FastCheckDiagnosticRange {
    ghost use Rattle.fast_check_tables_diagnostics.specs.DiagnosticRange.{IsCopy};

    ghost is_clone = { IsCopy };

    fn clone(&self) -> Result<FastCheckDiagnosticRange, AllocError> {
        Ok(FastCheckDiagnosticRange {
            specifier: self.specifier.clone()?,
            range: self.range,
            text_info: self.text_info.clone()?,
        })
    }
}

impl fmt::Debug for FastCheckDiagnosticRange {
    fn fmt<W: fmt::Write>(&self, f: &mut fmt::Formatter<W>) -> fmt::Result {
        f.debug_struct("FastCheckDiagnosticRange")
            .field("specifier", &self.specifier)
            .field("range", &self.range)
            .field("text_info", &"<omitted>")
            .finish()
    }
}

impl PartialEq for FastCheckDiagnosticRange {
    ghost use Rattle.fast_check_tables_diagnostics.specs.DiagnosticRange.{same_place, same_place-equiv};

    ghost eq = { same_place };

    ghost laws = { partial_equiv_from_equiv same_place-equiv };

    fn eq(&self, other: &FastCheckDiagnosticRange) -> bool {
        self.specifier == other.specifier && self.range == other.range
    }
}

impl Eq for FastCheckDiagnosticRange {
    ghost use Rattle.fast_check_tables_diagnostics.specs.DiagnosticRange.{same_place-equiv};

    ghost laws = { same_place-equiv };
}

impl Hash for FastCheckDiagnosticRange {
    ghost use Rattle.fast_check_tables_diagnostics.specs.DiagnosticRange.{place_writes};

    ghost hash_input = { place_writes };

    ghost respects_eq = { Prim.search (hashing, rules) };

    fn hash<H: Hasher>(&self, state: &mut H) {
        self.specifier.hash(state);
        self.range.hash(state);
    }
}
