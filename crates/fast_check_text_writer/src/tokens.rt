//! A text before its lines are chosen: its tokens in order, and the groups that may be broken into lines.
use fast_check_tree_comments::Comment;
use std::alloc::Global;

/// The most characters that a group on one line has.
const WIDE: usize = 80;

/// How a group is laid out.
#[derive(Clone, Copy)]
pub(crate) enum Group {
    /// On one line.
    Flat,
    /// Broken into lines, since it is too long for one. A line whose errors the compiler ignores stays whole.
    Wide,
    /// Broken into lines, however long it is.
    Broken,
}

/// A part of a text.
#[derive(Clone, Copy)]
pub(crate) enum Token<'a> {
    Text(&'a str),
    Line,
    /// A line in a broken group, else a text.
    SoftLine(&'a str),
    /// A text in a broken group, else nothing.
    IfBroken(&'a str),
    /// Moves the lines of a broken group to the right.
    Indent,
    Outdent,
    Open(Group),
    Close,
    /// A comment before a token.
    Leading(&'a Comment),
    /// A comment after a token.
    Trailing(&'a Comment),
}

// A group that is not closed yet: its place among the tokens, and how many characters stand before it.
#[derive(Clone, Copy)]
struct Opened {
    place: usize,
    column: usize,
    is_forced: bool,
}

/// The tokens of a text. If memory runs out, they are incomplete.
#[derive(Drop)]
pub(crate) struct Tokens<'a> {
    all: Vec<Token<'a>>,
    opened: Vec<Opened>,
    // The characters so far, all on one line, and without comments.
    column: usize,
    lacks: bool,
}

impl<'a> Tokens<'a> {
    pub fn new(alloc: Global) -> Tokens<'a> {
        Tokens {
            all: Vec::new(alloc),
            opened: Vec::new(alloc),
            column: 0,
            lacks: false,
        }
    }

    fn advance(&mut self, text: &str) {
        self.column = self.column.saturating_add(text.chars().count());
    }

    /// Adds a token. Groups are opened and closed by `open` and `close`.
    pub fn push(&mut self, token: Token<'a>) {
        match token {
            Token::Text(text) | Token::SoftLine(text) => self.advance(text),
            _ => (),
        }
        if self.all.push(token).is_err() {
            self.lacks = true;
        }
    }

    /// Opens a group, which is broken into lines if `is_forced`, or where it is too long for one.
    pub fn open(&mut self, is_forced: bool) {
        let opened = Opened {
            place: self.all.len(),
            column: self.column,
            is_forced,
        };
        if self.opened.push(opened).is_err() {
            self.lacks = true;
        }
        self.push(Token::Open(Group::Flat))
    }

    /// Closes the innermost group.
    pub fn close(&mut self) {
        if let Some(opened) = self.opened.pop() {
            let Opened {
                place,
                column,
                is_forced,
            } = opened;
            let is_wide = self.column.saturating_sub(column) > WIDE;
            if let Some(token) = self.all.get_mut(place) {
                if is_forced {
                    *token = Token::Open(Group::Broken);
                } else if is_wide {
                    *token = Token::Open(Group::Wide);
                }
            }
        }
        self.push(Token::Close)
    }

    /// The tokens in order; `None` where memory ran out.
    pub fn finish(self) -> Option<Vec<Token<'a>>> {
        let Tokens { all, lacks, .. } = self;
        if lacks { None } else { Some(all) }
    }
}
