//! Each comment before the token that follows it, or behind the one that it follows in its line.
use crate::bytes::{blank, byte, has_break, past_block, past_line, past_plain};
use crate::leaves::{Leaf, push_leaves};
use fast_check_tree_comments::{Comment, CommentKind, CommentList, CommentMap, Comments};
use fast_check_tree_syntax::{Atom, SourcePos, SourceRange, Tree};
use std::alloc::{AllocError, Global};
use std::collections::BTreeMap;

fn position(place: usize) -> SourcePos {
    SourcePos((place.min(4294967294) + 1) as u32)
}

// What is known of a text while its comments are attached.
#[derive(Drop)]
struct Attaching<'a> {
    alloc: Global,
    text: &'a str,
    // Where opaque leaves begin and end, the first one last.
    opaque: Vec<(usize, usize)>,
    // Where names and literals end, the first one last.
    ends: Vec<usize>,
    leading: BTreeMap<usize, Vec<Comment>>,
    trailing: BTreeMap<usize, Vec<Comment>>,
    // The comments before the next token.
    waiting: Vec<Comment>,
    // Where the last token ends.
    last: Option<usize>,
}

fn add(
    alloc: Global,
    places: &mut BTreeMap<usize, Vec<Comment>>,
    place: usize,
    comment: Comment,
) -> Result<(), AllocError> {
    if let Some(there) = places.get_mut(&place) {
        there.push(comment)?;
        return Ok(());
    }
    let mut first = Vec::new(alloc);
    first.push(comment)?;
    let _ = places.insert(place, first)?;
    Ok(())
}

fn map_of(alloc: Global, places: BTreeMap<usize, Vec<Comment>>) -> Result<CommentMap, AllocError> {
    let mut made = CommentMap::new(alloc);
    for (place, comments) in places {
        made.insert(position(place), CommentList::from_vec(comments))?;
    }
    Ok(made)
}

impl<'a> Attaching<'a> {
    // A comment from a place to another, with its mark of two bytes and of `last` ones.
    fn comment(
        &self,
        kind: CommentKind,
        start: usize,
        end: usize,
        last: usize,
    ) -> Result<Comment, AllocError> {
        let text = match self
            .text
            .get(start.saturating_add(2)..end.saturating_sub(last))
        {
            Some(text) => text,
            None => "",
        };
        Ok(Comment {
            kind,
            span: SourceRange {
                start: position(start),
                end: position(end),
            },
            text: Atom::from_str(self.alloc, text)?,
        })
    }

    // Whether a name or a literal ends at a place, which lies behind all that were asked for.
    fn is_end(&mut self, at: usize) -> bool {
        for _turn in 0..self.ends.len() {
            let Some(end) = self.ends.last().copied() else {
                break;
            };
            if end >= at {
                return end == at;
            }
            let _ = self.ends.pop();
        }
        false
    }

    // The next opaque leaf from a place on, which lies behind all that were asked for.
    fn next_opaque(&mut self, at: usize) -> Option<(usize, usize)> {
        for _turn in 0..self.opaque.len() {
            let next = self.opaque.last().copied()?;
            if next.0 >= at {
                return Some(next);
            }
            let _ = self.opaque.pop();
        }
        None
    }

    // The place of the last token, if a comment that begins at a place stands behind it, and it allows that.
    fn trails(&mut self, kind: CommentKind, start: usize) -> Option<usize> {
        let last = self.last?;
        let z = self.text.as_bytes();
        if !self.waiting.is_empty() || has_break(z, last, start) {
            return None;
        }
        let ends = kind == CommentKind::Line
            || self.is_end(last)
            || matches!(byte(z, last.saturating_sub(1)), b'}' | b'{' | b';');
        if ends { Some(last) } else { None }
    }

    fn attach(
        &mut self,
        kind: CommentKind,
        start: usize,
        end: usize,
        last: usize,
    ) -> Result<(), AllocError> {
        let comment = self.comment(kind, start, end, last)?;
        match self.trails(kind, start) {
            Some(place) => add(self.alloc, &mut self.trailing, place, comment),
            None => Ok(self.waiting.push(comment)?),
        }
    }

    // A piece of text that is no comment.
    fn token(&mut self, start: usize, end: usize) -> Result<(), AllocError> {
        if !self.waiting.is_empty() {
            let mut waiting = Vec::new(self.alloc);
            std::mem::swap(&mut waiting, &mut self.waiting);
            for comment in waiting {
                add(self.alloc, &mut self.leading, start, comment)?;
            }
        }
        self.last = Some(end);
        Ok(())
    }

    // What begins at a place: a leaf, a comment, white space or another byte. It answers where that ends.
    fn step(&mut self, at: usize) -> Result<usize, AllocError> {
        let z = self.text.as_bytes();
        let next = match self.next_opaque(at) {
            Some((start, end)) if start == at && end > at => {
                self.token(at, end)?;
                return Ok(end);
            }
            Some((start, _)) if start > at => start,
            Some(_) | None => self.text.len(),
        };
        if byte(z, at) == b'/' && byte(z, at.saturating_add(1)) == b'/' {
            let end = past_line(z, at);
            self.attach(CommentKind::Line, at, end, 0)?;
            return Ok(end);
        }
        if byte(z, at) == b'/' && byte(z, at.saturating_add(1)) == b'*' {
            let end = past_block(z, at.saturating_add(2));
            self.attach(CommentKind::Block, at, end, 2)?;
            return Ok(end);
        }
        let width = blank(z, at);
        if width > 0 {
            return Ok(at.saturating_add(width));
        }
        let end = past_plain(z, at.saturating_add(1), next);
        self.token(at, end)?;
        Ok(end)
    }
}

/// The comments of a text whose tree is this one.
pub fn comments_of(alloc: Global, text: &str, tree: &Tree) -> Result<Comments, AllocError> {
    let mut leaves: Vec<Leaf> = Vec::new(alloc);
    push_leaves(tree.read(), &mut leaves)?;
    let mut attaching = Attaching {
        alloc,
        text,
        opaque: Vec::new(alloc),
        ends: Vec::new(alloc),
        leading: BTreeMap::new(alloc),
        trailing: BTreeMap::new(alloc),
        waiting: Vec::new(alloc),
        last: None,
    };
    for leaf in leaves {
        if leaf.is_opaque {
            attaching.opaque.push((leaf.start, leaf.end))?;
        }
        attaching.ends.push(leaf.end)?;
    }
    attaching.opaque.sort()?;
    attaching.opaque.reverse();
    attaching.ends.sort()?;
    attaching.ends.reverse();
    let mut at = if text.starts_with("#!") {
        past_line(text.as_bytes(), 0)
    } else {
        0
    };
    for _turn in 0..text.len() {
        if at >= text.len() {
            break;
        }
        at = attaching.step(at)?;
    }
    let Attaching {
        leading,
        mut trailing,
        waiting,
        last,
        ..
    } = attaching;
    let place = match last {
        Some(end) => end,
        None => 0,
    };
    for comment in waiting {
        add(alloc, &mut trailing, place, comment)?;
    }
    Ok(Comments {
        leading: map_of(alloc, leading)?,
        trailing: map_of(alloc, trailing)?,
    })
}
