//! The order by which a name is found: the places of the names, sorted by name.

ghost use Rattle.std.specs.Prelude.{◌≡◌, ◌<◌, [], IfOk, MatchResult, get_or, length};
ghost use Rattle.std.specs.Ordering.{nat_cmp};
ghost use Rattle.std.specs.Cmp.Lexicographic.{slice_cmp};
ghost use Rattle.fast_check_finder_lattice.specs.Order.{name_at, names_in, keys, IsAbsent, IsCount, IsGap, IsOnce, IsSorted};

use crate::lattice::node::Below;
use std::alloc::{AllocError, Global};
use std::cmp::Ordering;

/// How the name at a place of the order compares with a name.
fn compare(names: &[(String, Below)], sorted: &[u32], at: usize, name: &str) -> Ordering
    requires order { IsSorted (names_in names.now) sorted.now }
    requires within { at < length sorted.now }
    ensures { result ≡ slice_cmp nat_cmp (get_or (keys (names_in names.now) sorted.now) at []) name.now }
{
    let place = sorted[at] as usize;
    names[place].0.as_str().cmp(name)
}

/// The place of a name among the names, or where it would stand in the order.
pub(crate) fn search(names: &[(String, Below)], sorted: &[u32], name: &str) -> Result<usize, usize>
    requires { IsSorted (names_in names.now) sorted.now }
    ensures { MatchResult result (λ i. (i < length names.now) × (name_at names.now i ≡ name.now))
        (λ at. IsGap (keys (names_in names.now) sorted.now) name.now at) }
{
    let mut low = 0;
    let mut high = sorted.len();
    'search: while low < high {
        let middle = low + (high - low) / 2;
        match compare(names, sorted, middle, name) {
            Ordering::Less => low = middle + 1,
            Ordering::Equal => return Ok(sorted[middle] as usize),
            Ordering::Greater => high = middle,
        }
    }
    Err(low)
}

/// Where a name that is not listed would stand in the order.
pub(crate) fn slot(names: &[(String, Below)], sorted: &[u32], name: &str) -> usize
    requires order { IsSorted (names_in names.now) sorted.now }
    requires absent { IsAbsent names.now name.now }
    ensures { IsGap (keys (names_in names.now) sorted.now) name.now result }
{
    match search(names, sorted, name) {
        Ok(place) => place,
        Err(at) => at,
    }
}

/// The name at a place.
fn name_of(names: &[(String, Below)], place: usize) -> &str
    ensures { result.now ≡ name_at names.now place }
{
    match names.get(place) {
        None => "",
        Some((name, _)) => name.as_str(),
    }
}

/// How the names at two places compare.
fn compare_places(names: &[(String, Below)], first: u32, second: u32) -> Ordering
    ensures { result ≡ slice_cmp nat_cmp (name_at names.now first) (name_at names.now second) }
{
    name_of(names, first as usize).cmp(name_of(names, second as usize))
}

/// The places of so many names, which are refused where there are more than their type has numbers.
fn places_of(alloc: Global, count: usize) -> Result<Vec<u32>, AllocError>
    ensures { IfOk result (λ places. IsCount places.items count) }
{
    let mut places = Vec::with_capacity(alloc, count)?;
    for number in 0..count {
        let Ok(place) = u32::try_from(number) else {
            return Err(AllocError);
        };
        places.push(place)?;
    }
    Ok(places)
}

/// The places of names, sorted by name.
pub(crate) fn sort_places(alloc: Global, names: &[(String, Below)]) -> Result<Vec<u32>, AllocError>
    requires { IsOnce names.now }
    ensures { IfOk result (λ places. IsSorted (names_in names.now) places.items) }
{
    let mut places = places_of(alloc, names.len())?;
    places.sort_by(|first, second| compare_places(names, *first, *second))?;
    Ok(places)
}
