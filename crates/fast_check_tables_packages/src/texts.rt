//! Texts, of which the first that begins another is found.
ghost use Rattle.std.specs.Prelude.{◌≡◌, ◌++◌, ◌∷◌, [], ℕ, List, Some, None, cond, length, slice_get, option_map, option_and_then, OnOk, IfOk};
ghost use Rattle.std.specs.Option.{option_or};
ghost use Rattle.std.specs.Str.{bytes_eq};
ghost use Rattle.fast_check_tables_packages.specs.Listed.{begins_with};
ghost use Rattle.fast_check_tables_packages.specs.First.{first_place, earlier};
ghost use Rattle.fast_check_tables_packages.specs.Texts.{place_of, common, keys_in, IsAscending, IsLastUpTo, IsLongestOf, AreNoted, AreFirsts};
ghost use Rattle.fast_check_tables_packages.specs.Texts.{IsAppended, HasTextPlaces, IsTextIndex};

use std::alloc::{AllocError, Global};
use std::collections::BTreeMap;

/// A text of an index, with what is known of those that begin it.
#[derive(Drop)]
struct Entry {
    text: Vec<u8>,
    /// The place of the first text that begins it, among those that the index is made of.
    first: usize,
    /// Where the longest of the other texts that begin it stands in the index.
    longest_before: Option<usize>,
}

/// Texts in the order of their bytes, each with the place of the first text that begins it.
///
/// What begins a text begins the last text of this order that is not above it, too, and one binary search finds that one.
/// From there what the entries note leads to the longest that begins both, in no more steps than texts begin that one.
#[derive(Drop)]
pub struct TextIndex {
    entries: Vec<Entry>,
}

/// Texts as they are put together for an index: each with its first place among them.
#[derive(Drop)]
pub(crate) struct TextPlaces {
    places: BTreeMap<Vec<u8>, usize>,
}

/// The earlier of two places.
pub(crate) fn earlier(place: Option<usize>, other: Option<usize>) -> Option<usize>
    ensures { result ≡ earlier place other }
{
    match (place, other) {
        (None, _) => other,
        (_, None) => place,
        (Some(at), Some(other_at)) => {
            if other_at < at {
                return other;
            }
            place
        }
    }
}

/// Puts the place of a text, unless the text has one.
pub(crate) fn put_first(
    alloc: Global,
    places: &mut BTreeMap<Vec<u8>, usize>,
    text: &[u8],
    place: usize,
) -> Result<(), AllocError>
    ensures { OnOk result ((asked : List ℕ) → place_of asked places.new ≡
        option_or (place_of asked places.old) (cond (bytes_eq text.now asked) (Some place) None)) }
{
    places.entry(text.to_vec(alloc)?)?.or_insert(place);
    Ok(())
}

/// How many bytes two texts have in common at their beginnings.
fn common_length(text: &[u8], other: &[u8]) -> usize
    ensures { result ≡ common text.now other.now }
{
    let shorter = text.len().min(other.len());
    for place in 0..shorter {
        if text[place] != other[place] {
            return place;
        }
    }
    shorter
}

impl TextIndex {
    /// Where in the order the last of its texts stands that is not above another.
    fn last_up_to(&self, text: &[u8]) -> Option<usize>
        ensures { IsAscending self.now.entries.items → IsLastUpTo text.now self.now.entries.items result }
    {
        self.entries
            .partition_point(|entry| entry.text.as_slice().cmp(&text).is_le())
            .checked_sub(1)
    }

    /// Where in the order the longest of its texts stands that begins another.
    fn longest_of(&self, text: &[u8]) -> Option<usize>
        ensures { IsAscending self.now.entries.items → AreNoted self.now.entries.items
            → IsLongestOf text.now self.now.entries.items result }
    {
        let mut place = self.last_up_to(text)?;
        let common = common_length(self.entries.get(place)?.text.as_slice(), text);
        while let Some(entry) = self.entries.get(place) {
            if entry.text.as_slice().len() <= common {
                return Some(place);
            }
            let before = entry.longest_before?;
            // This does not come, since an entry notes one that is before it.
            if before >= place {
                return None;
            }
            place = before;
        }
        None
    }

    /// The place of the first text that begins the one that stands here.
    fn first_at(&self, place: Option<usize>) -> Option<usize>
        ensures { result ≡ option_map (λ e. e.first) (option_and_then (slice_get self.now.entries.items) place) }
    {
        Some(self.entries.get(place?)?.first)
    }

    /// Adds a text that is above the others, by its first place.
    fn append(&mut self, text: Vec<u8>, place: usize) -> Result<(), AllocError>
        ensures keys { OnOk result (keys_in self.new.entries.items ≡ keys_in self.old.entries.items ++ text ∷ []) }
        ensures firsts { OnOk result ((texts : List (List ℕ)) → first_place (bytes_eq text.items) texts ≡ Some place
            → IsAppended text.items self.old.entries.items → AreFirsts texts self.old.entries.items
            → AreFirsts texts self.new.entries.items) }
    {
        let longest_before = self.longest_of(text.as_slice());
        let first = earlier(self.first_at(longest_before), Some(place)).unwrap_or(place);
        self.entries.push(Entry {
            text,
            first,
            longest_before,
        })?;
        Ok(())
    }

    /// The place of the first text that begins another.
    pub fn first_within(&self, text: &[u8]) -> Option<usize>
        ensures { (texts : List (List ℕ)) → IsTextIndex texts self.now
            → result ≡ first_place (λ t. begins_with t text.now) texts }
    {
        self.first_at(self.longest_of(text))
    }
}

impl TextPlaces {
    /// No texts.
    pub(crate) fn new(alloc: Global) -> TextPlaces
        ensures { HasTextPlaces [] result }
    {
        TextPlaces {
            places: BTreeMap::new(alloc),
        }
    }

    /// Adds the text that follows the others, by its place among them.
    pub(crate) fn push(
        &mut self,
        alloc: Global,
        text: &[u8],
        place: usize,
    ) -> Result<(), AllocError>
        ensures { OnOk result ((texts : List (List ℕ)) → place ≡ length texts → HasTextPlaces texts self.old
            → HasTextPlaces (texts ++ text.now ∷ []) self.new) }
    {
        put_first(alloc, &mut self.places, text, place)
    }

    /// An index of these texts.
    pub(crate) fn indexed(self, alloc: Global) -> Result<TextIndex, AllocError>
        ensures { IfOk result (λ index. (texts : List (List ℕ)) → HasTextPlaces texts self → IsTextIndex texts index) }
    {
        let mut index = TextIndex {
            entries: Vec::new(alloc),
        };
        for (text, place) in self.places {
            index.append(text, place)?;
        }
        Ok(index)
    }
}
