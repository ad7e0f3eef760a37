//! Texts that come again and again, as those of names, of which one atom is made.
ghost use Rattle.std.specs.Prelude.{◌≡◌, IfOk};

use fast_check_tree_syntax::Atom;
use std::alloc::{AllocError, Global};

// How many texts are known at most.
const ROOM: usize = 1024;

/// The texts that came last. Each has a place by its bytes, where it follows the one before it: texts that are chosen to share their places take no longer
/// than others.
#[derive(Drop)]
pub struct Shared {
    known: Vec<Option<Atom>>,
}

fn place_of(text: &str) -> usize {
    let mut place: u32 = 0;
    for b in text.as_bytes() {
        place = place.wrapping_mul(31).wrapping_add(*b as u32);
    }
    (place as usize) % ROOM
}

impl Shared {
    pub fn new(alloc: Global) -> Shared {
        Shared {
            known: Vec::new(alloc),
        }
    }

    /// The atom of a text.
    pub fn atom(&mut self, alloc: Global, text: &str) -> Result<Atom, AllocError>
        ensures { IfOk result (λ atom. atom ≡ text.now) }
    {
        let place = place_of(text);
        if let Some(Some(known)) = self.known.get(place)
            && known.is(text)
        {
            return known.clone();
        }
        let atom = Atom::from_str(alloc, text)?;
        for _turn in self.known.len()..ROOM {
            self.known.push(None)?;
        }
        if let Some(known) = self.known.get_mut(place) {
            *known = Some(atom.clone()?);
        }
        Ok(atom)
    }
}
