//! What is wrong with a file, and where.
ghost use Rattle.std.specs.Prelude.{◌≤◌};

use std::alloc::{AllocError, Global};

/// What keeps a file from being read.
#[derive(Drop)]
pub struct Message {
    /// The path from the folder that was named.
    pub path: String,
    /// From 1, or 0 where it is said of the whole file.
    pub line: usize,
    pub column: usize,
    pub code: &'static str,
    pub text: String,
}

/// A place in a text: its line and its column, both from 1, in UTF-16 units.
#[derive(Clone, Copy, PartialEq, Eq)]
pub struct Place {
    pub line: usize,
    pub column: usize,
}

/// A walk through a text that tells the places of its bytes. It goes on from the last one, so that places in order take one walk.
#[derive(Clone, Copy)]
pub struct Places<'a> {
    text: &'a str,
    // The byte that comes next, and its line and column from 0.
    at: usize,
    line: usize,
    column: usize,
    is_behind_return: bool,
}

// How many UTF-16 units a character has that a byte begins.
fn units(first: u8) -> usize {
    match first {
        0x80..=0xBF => 0,
        0xF0..=0xFF => 2,
        _ => 1,
    }
}

impl<'a> Places<'a> {
    /// A walk that begins at the start of a text.
    pub fn new(text: &'a str) -> Places<'a> {
        Places {
            text,
            at: 0,
            line: 0,
            column: 0,
            is_behind_return: false,
        }
    }

    fn pass(&mut self, each: u8) {
        let ends_return = each == b'\n' && self.is_behind_return;
        self.is_behind_return = each == b'\r';
        if ends_return {
            return;
        }
        if each == b'\n' || each == b'\r' {
            self.line = self.line.saturating_add(1);
            self.column = 0;
        } else {
            self.column = self.column.saturating_add(units(each));
        }
    }

    /// The place of a byte of the text, or that of the text's end.
    pub fn place_of(&mut self, offset: usize) -> Place
        ensures line { 1 ≤ result.line }
        ensures column { 1 ≤ result.column }
    {
        if offset < self.at {
            *self = Places::new(self.text);
        }
        let end = offset.min(self.text.len());
        if let Some(passed) = self.text.as_bytes().get(self.at..end) {
            for each in passed {
                self.pass(*each);
            }
            self.at = end;
        }
        Place {
            line: self.line.saturating_add(1),
            column: self.column.saturating_add(1),
        }
    }
}

impl Message {
    /// A message of a whole file or folder.
    pub fn of_file(
        alloc: Global,
        path: &str,
        code: &'static str,
        text: &str,
    ) -> Result<Message, AllocError> {
        Ok(Message {
            path: String::from_str(alloc, path)?,
            line: 0,
            column: 0,
            code,
            text: String::from_str(alloc, text)?,
        })
    }

    /// A message at a place of a file.
    pub fn at_place(
        alloc: Global,
        path: &str,
        place: Place,
        code: &'static str,
        text: &str,
    ) -> Result<Message, AllocError> {
        let Place { line, column } = place;
        let mut made = Message::of_file(alloc, path, code, text)?;
        made.line = line;
        made.column = column;
        Ok(made)
    }

    /// A message at a byte of a file's text.
    pub fn at(
        alloc: Global,
        path: &str,
        source: &str,
        offset: usize,
        code: &'static str,
        text: &str,
    ) -> Result<Message, AllocError> {
        let place = Places::new(source).place_of(offset);
        Message::at_place(alloc, path, place, code, text)
    }
}
