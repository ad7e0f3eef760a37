//! Texts that their clones share.
ghost use Rattle.std.specs.Prelude.{◌≡◌, IfOk, IsTrue, ◌↔◌, Some, nat_eq, refl};
ghost use Rattle.std.specs.Ordering.{nat_cmp};
ghost use Rattle.std.specs.Hash as fed;
ghost use Rattle.std.specs.Cmp.Lexicographic.{pointwise, slice_cmp, nat_list_eq_equiv, nat_list_cmp_total, texts_ties, texts_po};
ghost use Rattle.std.specs.Cmp.{partial_equiv_from_equiv};
ghost use Rattle.std.specs.Cmp.Rules.{hashing};
ghost use Rattle.std.specs.Rc.{rc_str_bytes};
ghost use Rattle.std.proofs.Common.{rules};

use crate::source::SyntaxContext;
use std::alloc::{AllocError, Global};
use std::cmp::Ordering;
use std::hash::{Hash, Hasher};
use std::marker::Model;
use std::rc::RcStr;

/// A text that its clones share. Contracts see it as its bytes.
#[derive(Debug, Drop)]
pub struct Atom {
    text: RcStr,
}

impl Model for Atom {
    ghost use Rattle.std.specs.Prelude.{List, ℕ};
    ghost use Rattle.std.specs.Rc.{rc_str_bytes};

    ghost Value = { List ℕ };

    ghost view = { λ atom. rc_str_bytes atom.text };
}

impl Atom {
    /// The atom of a text.
    pub fn from_str(alloc: Global, text: &str) -> Result<Atom, AllocError>
        ensures { IfOk result (λ atom. atom ≡ text.now) }
    {
        Ok(Atom {
            text: RcStr::from_str(alloc, text)?,
        })
    }

    /// Its text.
    pub fn as_str(&self) -> &str
        ensures { result.now ≡ self.now }
    {
        &self.text
    }

    /// Whether it has this text.
    pub fn is(&self, text: &str) -> bool
        ensures { IsTrue result ↔ (self.now ≡ text.now) }
    {
        self.as_str() == text
    }
}

impl Clone for Atom {
    ghost is_clone = { λ atom copy. copy ≡ atom };

    fn clone(&self) -> Result<Atom, AllocError> {
        Ok(Atom {
            text: self.text.clone()?,
        })
    }
}

/// Atoms are equal where their bytes are.
impl PartialEq for Atom {
    ghost eq = { pointwise nat_eq };

    ghost laws = { partial_equiv_from_equiv nat_list_eq_equiv };

    fn eq(&self, other: &Atom) -> bool {
        self.as_str() == other.as_str()
    }
}

impl Eq for Atom {
    ghost laws = { nat_list_eq_equiv };
}

impl PartialOrd for Atom {
    ghost partial_cmp = { λ a b. Some (slice_cmp nat_cmp a b) };

    ghost laws = { texts_po };

    fn partial_cmp(&self, other: &Atom) -> Option<Ordering> {
        Some(self.cmp(other))
    }
}

/// Atoms are ordered by their bytes.
impl Ord for Atom {
    ghost cmp = { slice_cmp nat_cmp };

    ghost total = { nat_list_cmp_total };

    ghost matches_partial_cmp = { λ a b. refl };

    ghost matches_eq = { texts_ties };

    fn cmp(&self, other: &Atom) -> Ordering {
        self.as_str().cmp(other.as_str())
    }
}

impl Hash for Atom {
    ghost hash_input = { fed.str };

    ghost respects_eq = { Prim.search (hashing, rules) };

    fn hash<H: Hasher>(&self, state: &mut H) {
        self.as_str().hash(state);
    }
}

/// The atom of a shared text. It takes no memory.
impl From<RcStr> for Atom {
    ghost from_gives = { λ text atom. atom ≡ rc_str_bytes text };

    fn from(text: RcStr) -> Atom {
        Atom { text }
    }
}

/// The text of an atom, as it is shared. It takes no memory.
impl From<Atom> for RcStr {
    ghost from_gives = { λ atom text. rc_str_bytes text ≡ atom };

    fn from(atom: Atom) -> RcStr {
        let Atom { text } = atom;
        text
    }
}

/// An identifier as it is resolved: its text, and the number of its scope (swc's `Id`). Ids are ordered by text, and then by scope.
#[derive(Debug, PartialEq, Eq, PartialOrd, Ord, Hash, Drop)]
pub struct Id(pub Atom, pub SyntaxContext);

impl Clone for Id {
    ghost is_clone = { λ id copy. copy ≡ id };

    fn clone(&self) -> Result<Id, AllocError> {
        Ok(Id(self.0.clone()?, self.1))
    }
}
