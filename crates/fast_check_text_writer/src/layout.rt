//! From tokens to text: chooses the lines.
use crate::comments::{
    expected_in_block, expected_in_line, ignores_errors, is_movable, split_line,
};
use crate::tokens::{Group, Token};
use fast_check_tree_comments::{Comment, CommentKind};
use std::alloc::{AllocError, Global};

const STEP: &str = "  ";

// A text that grows line by line. If memory runs out, it is incomplete.
#[derive(Drop)]
struct Layout {
    out: String,
    lacks: bool,
    // Whether each group that is open is broken into lines, the innermost last.
    broken: Vec<bool>,
    depth: u32,
    is_line_start: bool,
    // Whether a comment ends the line.
    wants_line: bool,
    // After a comment that has the compiler ignore the errors of the next line, 2; in that line 1, else 0.
    ignored: u8,
}

impl Layout {
    fn new(alloc: Global) -> Layout {
        Layout {
            out: String::new(alloc),
            lacks: false,
            broken: Vec::new(alloc),
            depth: 0,
            is_line_start: true,
            wants_line: false,
            ignored: 0,
        }
    }

    fn push(&mut self, text: &str) {
        if self.out.push_str(text).is_err() {
            self.lacks = true;
        }
    }

    fn push_indentation(&mut self) {
        for _step in 0..self.depth {
            self.push(STEP);
        }
    }

    // Writes a part of a line.
    fn write(&mut self, text: &str) {
        let mut rest = text;
        if self.wants_line && !text.is_empty() {
            self.line();
            rest = text.trim_start();
        }
        if rest.is_empty() {
            return;
        }
        if self.is_line_start {
            self.push_indentation();
        }
        self.is_line_start = false;
        self.push(rest)
    }

    // Ends a line, if anything is written in it.
    fn line(&mut self) {
        self.wants_line = false;
        if !self.is_line_start {
            self.push("\n");
            self.ignored = self.ignored.saturating_sub(1);
        }
        self.is_line_start = true
    }

    // Whether the innermost group is broken into lines. Outside of all groups there are lines.
    fn is_broken(&self) -> bool {
        match self.broken.last() {
            Some(is_broken) => *is_broken,
            None => true,
        }
    }

    fn open(&mut self, group: Group) {
        let is_broken = match group {
            Group::Flat => false,
            Group::Wide => self.ignored != 1,
            Group::Broken => true,
        };
        if self.broken.push(is_broken).is_err() {
            self.lacks = true;
        }
    }

    // Writes a line of a comment. A skeleton allows an error where its source expects one: it may lie in code that the skeleton leaves out.
    fn comment_line(&mut self, line: &str, expected: Option<(&str, &str)>) {
        match expected {
            Some((before, after)) => {
                self.push(before);
                self.push("@ts-ignore");
                self.push(after)
            }
            None => self.push(line),
        }
    }

    // Writes the lines of a block comment, the later ones at the indentation if they are to be moved.
    fn block(&mut self, text: &str) {
        let is_moved = is_movable(text);
        let (first, mut rest) = split_line(text);
        let is_only = rest.is_none();
        self.comment_line(
            first,
            if is_only {
                expected_in_block(first)
            } else {
                None
            },
        );
        for _turn in 0..u64::MAX {
            let Some(lines) = rest else {
                break;
            };
            let (line, more) = split_line(lines);
            self.push("\n");
            let shown = if is_moved { line.trim() } else { line };
            if is_moved {
                self.push_indentation();
                self.push(" ");
            }
            self.comment_line(
                shown,
                if more.is_none() {
                    expected_in_block(shown)
                } else {
                    None
                },
            );
            rest = more;
        }
    }

    fn comment(&mut self, comment: &Comment) {
        let text = comment.text.as_str();
        if ignores_errors(text) {
            self.ignored = 2;
        }
        match comment.kind {
            CommentKind::Line => {
                self.write("//");
                self.comment_line(text, expected_in_line(text))
            }
            CommentKind::Block => {
                self.write("/*");
                self.block(text);
                self.push("*/")
            }
        }
    }

    fn leading(&mut self, comment: &Comment) {
        let has_own_line = self.is_line_start || self.wants_line;
        self.comment(comment);
        if has_own_line || comment.kind == CommentKind::Line {
            self.line()
        } else {
            self.write(" ")
        }
    }

    fn trailing(&mut self, comment: &Comment) {
        self.write(" ");
        self.comment(comment);
        self.wants_line = self.wants_line || comment.kind == CommentKind::Line
    }

    fn token(&mut self, token: Token<'_>) {
        match token {
            Token::Text(text) => self.write(text),
            Token::Line => self.line(),
            Token::SoftLine(text) => {
                if self.is_broken() {
                    self.line()
                } else {
                    self.write(text)
                }
            }
            Token::IfBroken(text) => {
                if self.is_broken() {
                    self.write(text)
                }
            }
            Token::Indent => {
                if self.is_broken() {
                    self.depth = self.depth.saturating_add(1)
                }
            }
            Token::Outdent => {
                if self.is_broken() {
                    self.depth = self.depth.saturating_sub(1)
                }
            }
            Token::Open(group) => self.open(group),
            Token::Close => {
                let _ = self.broken.pop();
            }
            Token::Leading(comment) => self.leading(comment),
            Token::Trailing(comment) => self.trailing(comment),
        }
    }

    fn finish(mut self) -> Result<String, AllocError> {
        self.line();
        let Layout { out, lacks, .. } = self;
        if lacks { Err(AllocError) } else { Ok(out) }
    }
}

/// The text of tokens.
pub(crate) fn laid_out(alloc: Global, tokens: &[Token<'_>]) -> Result<String, AllocError> {
    let mut layout = Layout::new(alloc);
    for token in tokens {
        layout.token(*token);
    }
    layout.finish()
}
