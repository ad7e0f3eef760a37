//! Keys with at most one `*`, by which a text finds the one that fits it best.
use crate::paths::rest_of;
use std::alloc::{AllocError, Global};
use std::collections::{BTreeMap, BTreeSet};

/// Which keys of a map have a `*`, as far as a look-up has to know: how long the texts before it and after it are. The keys of one text have few
/// such pairs of lengths, so few keys are looked up for a text, however many there are.
#[derive(Drop)]
pub struct Patterns {
    lengths: BTreeSet<(usize, usize)>,
}

/// What a key stands for, and what stands in the text in place of its `*`.
#[derive(Clone, Copy)]
pub struct Fit<'a, T> {
    pub target: &'a T,
    pub rest: &'a str,
}

// The key with a `*` that fits a text, with so much of the text before it and after it.
fn key_of(
    alloc: Global,
    text: &str,
    before: usize,
    after: usize,
) -> Result<Option<String>, AllocError> {
    let Some(end) = text.len().checked_sub(after) else {
        return Ok(None);
    };
    if before > end {
        return Ok(None);
    }
    match (text.get(..before), text.get(end..)) {
        (Some(before), Some(after)) => {
            let mut key = String::from_str(alloc, before)?;
            key.push_str("*")?;
            key.push_str(after)?;
            Ok(Some(key))
        }
        _ => Ok(None),
    }
}

impl Patterns {
    pub fn new(alloc: Global) -> Patterns {
        Patterns {
            lengths: BTreeSet::new(alloc),
        }
    }

    /// Notes a key.
    pub fn note(&mut self, key: &str) -> Result<(), AllocError> {
        if let Some((before, after)) = key.split_once('*') {
            let _ = self.lengths.insert((before.len(), after.len()))?;
        }
        Ok(())
    }

    // The key with a `*` that fits a text best: the one with the longest text before it, and among these the first one in order.
    fn best<T>(
        &self,
        alloc: Global,
        map: &BTreeMap<String, T>,
        text: &str,
    ) -> Result<Option<String>, AllocError> {
        let mut length = 0;
        let mut best: Option<String> = None;
        for (before, after) in self.lengths.iter().rev() {
            if best.is_some() && length != *before {
                break;
            }
            if let Some(key) = key_of(alloc, text, *before, *after)?
                && map.contains_key(key.as_str())
            {
                length = *before;
                best = match best {
                    Some(other) if other < key => Some(other),
                    _ => Some(key),
                };
            }
        }
        Ok(best)
    }

    /// What the key of a map stands for that fits a text best: the text itself, or else the key with the longest text before its `*`. The keys of the map
    /// have to be those that were noted.
    pub fn find<'a, T>(
        &self,
        alloc: Global,
        map: &'a BTreeMap<String, T>,
        text: &'a str,
    ) -> Result<Option<Fit<'a, T>>, AllocError> {
        if !text.contains("*")
            && let Some(target) = map.get(text)
        {
            return Ok(Some(Fit { target, rest: "" }));
        }
        let Some(key) = self.best(alloc, map, text)? else {
            return Ok(None);
        };
        let found = match (map.get(key.as_str()), rest_of(key.as_str(), text)) {
            (Some(target), Some(rest)) => Some(Fit { target, rest }),
            _ => None,
        };
        Ok(found)
    }
}
