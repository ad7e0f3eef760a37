//! JSON that is written piece by piece.
use fast_check_print::{print_comments, print_range, print_tree};
use fast_check_read::schema::{Choice, Form};
use fast_check_tree_comments::Comments;
use fast_check_tree_syntax::{SourceRange, Tree};
use json::Writer;
use std::alloc::AllocError;

/// JSON while it is written. Where memory runs out a piece is left out, and there is none in the end.
#[derive(Drop)]
pub struct Json {
    out: Writer,
    lacks: bool,
}

impl Json {
    /// What is written behind what a writer has.
    pub fn new(out: Writer) -> Json {
        Json { out, lacks: false }
    }

    /// The writer with all that was written.
    pub fn finish(self) -> Result<Writer, AllocError> {
        let Json { out, lacks } = self;
        if lacks { Err(AllocError) } else { Ok(out) }
    }

    fn note(&mut self, done: Result<(), AllocError>) {
        if done.is_err() {
            self.lacks = true;
        }
    }

    pub fn begin_object(&mut self) {
        let done = self.out.begin_object();
        self.note(done);
    }

    pub fn end_object(&mut self) {
        let done = self.out.end_object();
        self.note(done);
    }

    pub fn begin_array(&mut self) {
        let done = self.out.begin_array();
        self.note(done);
    }

    pub fn end_array(&mut self) {
        let done = self.out.end_array();
        self.note(done);
    }

    pub fn key(&mut self, name: &str) {
        let done = self.out.key(name);
        self.note(done);
    }

    pub fn text(&mut self, text: &str) {
        let done = self.out.string(text);
        self.note(done);
    }

    /// A text that was made, if it was.
    pub fn made(&mut self, made: Result<String, AllocError>) {
        match made {
            Ok(text) => self.text(text.as_str()),
            Err(_) => self.lacks = true,
        }
    }

    pub fn number(&mut self, number: u64) {
        let done = self.out.u64(number);
        self.note(done);
    }

    pub fn boolean(&mut self, flag: bool) {
        let done = self.out.boolean(flag);
        self.note(done);
    }

    pub fn null(&mut self) {
        let done = self.out.null();
        self.note(done);
    }

    /// A member that is a text.
    pub fn named(&mut self, name: &str, text: &str) {
        self.key(name);
        self.text(text);
    }

    /// A member that is left out where it is not so.
    pub fn flag(&mut self, name: &str, flag: bool) {
        if flag {
            self.key(name);
            self.boolean(true);
        }
    }

    /// Texts, as an array.
    pub fn texts(&mut self, texts: &[String]) {
        self.begin_array();
        for text in texts {
            self.text(text.as_str());
        }
        self.end_array();
    }

    pub fn range(&mut self, range: SourceRange) {
        let done = print_range(&mut self.out, range);
        self.note(done);
    }

    pub fn program(&mut self, program: &Tree) {
        let done = print_tree(&mut self.out, program, Form::Choice(Choice::Program));
        self.note(done);
    }

    pub fn comments(&mut self, comments: &Comments) {
        let done = print_comments(&mut self.out, comments);
        self.note(done);
    }
}
