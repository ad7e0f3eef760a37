//! The nodes that are still to be printed, in a work list, so that a deep tree needs no deep stack.
use crate::layout::laid_out;
use crate::tokens::{Token, Tokens};
use fast_check_tree_comments::Comments;
use fast_check_tree_syntax::{DUMMY_SP, Kind, Part, SourcePos, SourceRange};
use std::alloc::{AllocError, Global};
use std::collections::BTreeSet;

// What is still to be printed.
#[derive(Clone, Copy)]
enum Piece<'a> {
    Token(Token<'a>),
    Open(bool),
    Close,
    /// A node, with a token between it and the comments after it.
    Node(Part<'a>, Token<'a>),
    /// The comments before the token at a position.
    Leading(SourcePos),
    /// The comments after the token that ends at a position.
    Trailing(SourcePos),
    /// Whether the declarations that follow are ambient.
    Ambient(bool),
}

/// A text while it is printed from a tree. A caller takes node after node, and prints the parts of each:
///
/// ```text
/// printer.node(root);
/// while let Some(node) = printer.next_node() { /* prints the parts of node */ }
/// printer.finish()
/// ```
///
/// If memory runs out, `finish` says so.
#[derive(Drop)]
pub struct Printer<'a> {
    tokens: Tokens<'a>,
    comments: &'a Comments,
    // The positions whose comments are printed.
    led: BTreeSet<u32>,
    trailed: BTreeSet<u32>,
    // What waits, the next one last, and what was printed of the node at hand, in order.
    waiting: Vec<Piece<'a>>,
    put: Vec<Piece<'a>>,
    is_ambient: bool,
    is_angle_reserved: bool,
    lacks: bool,
}

/// The range of a node, in byte positions; `DUMMY_SP` for a form without a range of its own.
pub fn range_of(part: Part<'_>) -> SourceRange {
    match part.kind() {
        Kind::SpreadElement | Kind::ExprOrSpread => DUMMY_SP,
        _ => part.part(0).range(),
    }
}

impl<'a> Printer<'a> {
    /// An empty text, for a tree with these comments. In an ambient module all declarations are ambient. In a file where angles are reserved, `<T>` before an arrow function
    /// would be an element.
    pub fn new(
        alloc: Global,
        comments: &'a Comments,
        is_ambient: bool,
        is_angle_reserved: bool,
    ) -> Printer<'a> {
        Printer {
            tokens: Tokens::new(alloc),
            comments,
            led: BTreeSet::new(alloc),
            trailed: BTreeSet::new(alloc),
            waiting: Vec::new(alloc),
            put: Vec::new(alloc),
            is_ambient,
            is_angle_reserved,
            lacks: false,
        }
    }

    /// Whether declarations are ambient here.
    pub fn is_ambient(&self) -> bool {
        self.is_ambient
    }

    /// Whether `<T>` before an arrow function would be an element.
    pub fn is_angle_reserved(&self) -> bool {
        self.is_angle_reserved
    }

    fn piece(&mut self, piece: Piece<'a>) {
        if self.put.push(piece).is_err() {
            self.lacks = true;
        }
    }

    pub fn text(&mut self, text: &'a str) {
        self.piece(Piece::Token(Token::Text(text)))
    }

    pub fn text_if(&mut self, holds: bool, text: &'a str) {
        if holds {
            self.text(text)
        }
    }

    /// A node with the comments around it.
    pub fn node(&mut self, node: Part<'a>) {
        self.piece(Piece::Node(node, Token::Text("")))
    }

    /// A node, with a text between it and the comments after it.
    pub fn node_then(&mut self, node: Part<'a>, text: &'a str) {
        self.piece(Piece::Node(node, Token::Text(text)))
    }

    /// The same with a text that stands there where the group is broken into lines.
    pub fn node_if_broken(&mut self, node: Part<'a>, text: &'a str) {
        self.piece(Piece::Node(node, Token::IfBroken(text)))
    }

    /// A text and the node after it, if there is one.
    pub fn prefixed(&mut self, text: &'a str, node: Part<'a>) {
        if !node.is_absent() {
            self.text(text);
            self.node(node)
        }
    }

    /// A node, in parentheses where it is of one of these kinds, which bind looser than what stands around it.
    pub fn operand(&mut self, node: Part<'a>, looser: &[Kind]) {
        let needs = looser.contains(&node.kind());
        self.text_if(needs, "(");
        self.node(node);
        self.text_if(needs, ")")
    }

    /// Ends a line, if anything is written in it.
    pub fn line(&mut self) {
        self.piece(Piece::Token(Token::Line))
    }

    /// A line where the group is broken into lines, else a text.
    pub fn soft_line(&mut self, text: &'a str) {
        self.piece(Piece::Token(Token::SoftLine(text)))
    }

    /// A text where the group is broken into lines.
    pub fn if_broken(&mut self, text: &'a str) {
        self.piece(Piece::Token(Token::IfBroken(text)))
    }

    /// Moves the lines that follow to the right, where the group is broken into lines.
    pub fn indent(&mut self) {
        self.piece(Piece::Token(Token::Indent))
    }

    pub fn outdent(&mut self) {
        self.piece(Piece::Token(Token::Outdent))
    }

    /// Opens a group. It is broken into lines if `is_forced`, or where on one line, and without comments, it is longer than 80 characters.
    pub fn open(&mut self, is_forced: bool) {
        self.piece(Piece::Open(is_forced))
    }

    /// Closes the innermost group.
    pub fn close(&mut self) {
        self.piece(Piece::Close)
    }

    /// The comments before the token at a position, once.
    pub fn leading(&mut self, position: SourcePos) {
        self.piece(Piece::Leading(position))
    }

    /// The comments after the token that ends at a position, once.
    pub fn trailing(&mut self, position: SourcePos) {
        self.piece(Piece::Trailing(position))
    }

    /// Says whether the declarations that follow are ambient.
    pub fn ambient(&mut self, is_ambient: bool) {
        self.piece(Piece::Ambient(is_ambient))
    }

    /// Whether comments stand before the token at a position, and are not printed yet.
    pub fn has_leading(&self, position: SourcePos) -> bool {
        position.0 > 0
            && !self.led.contains(&position.0)
            && self.comments.leading.get(position).is_some()
    }

    /// Whether comments stand after the token that ends at a position, and are not printed yet.
    pub fn has_trailing(&self, position: SourcePos) -> bool {
        position.0 > 0
            && !self.trailed.contains(&position.0)
            && self.comments.trailing.get(position).is_some()
    }

    fn take_leading(&mut self, position: SourcePos) {
        if !self.has_leading(position) {
            return;
        }
        if self.led.insert(position.0).is_err() {
            self.lacks = true;
        }
        let comments = self.comments;
        if let Some(found) = comments.leading.get(position) {
            for comment in found.as_slice() {
                self.tokens.push(Token::Leading(comment));
            }
        }
    }

    fn take_trailing(&mut self, position: SourcePos) {
        if !self.has_trailing(position) {
            return;
        }
        if self.trailed.insert(position.0).is_err() {
            self.lacks = true;
        }
        let comments = self.comments;
        if let Some(found) = comments.trailing.get(position) {
            for comment in found.as_slice() {
                self.tokens.push(Token::Trailing(comment));
            }
        }
    }

    fn wait(&mut self, piece: Piece<'a>) {
        if self.waiting.push(piece).is_err() {
            self.lacks = true;
        }
    }

    // Has what was printed of a node wait in its order.
    fn settle(&mut self) {
        for _turn in 0..u64::MAX {
            let Some(piece) = self.put.pop() else {
                break;
            };
            self.wait(piece);
        }
    }

    // Begins a node with the comments before it. What follows it waits until its parts are printed.
    fn begin(&mut self, node: Part<'a>, ending: Token<'a>) {
        let SourceRange { start, end } = range_of(node);
        self.take_leading(start);
        self.wait(Piece::Trailing(end));
        self.wait(Piece::Token(ending))
    }

    fn take(&mut self, piece: Piece<'a>) {
        match piece {
            Piece::Token(token) => self.tokens.push(token),
            Piece::Open(is_forced) => self.tokens.open(is_forced),
            Piece::Close => self.tokens.close(),
            Piece::Node(node, ending) => self.begin(node, ending),
            Piece::Leading(position) => self.take_leading(position),
            Piece::Trailing(position) => self.take_trailing(position),
            Piece::Ambient(is_ambient) => self.is_ambient = is_ambient,
        }
    }

    /// The next node, whose parts the caller prints before it asks again; `None` where all are printed.
    pub fn next_node(&mut self) -> Option<Part<'a>> {
        self.settle();
        for _turn in 0..u64::MAX {
            let Some(piece) = self.waiting.pop() else {
                break;
            };
            self.take(piece);
            if let Piece::Node(node, _) = piece {
                return Some(node);
            }
        }
        None
    }

    /// The text of what was printed. It ends with the end of a line.
    pub fn finish(self, alloc: Global) -> Result<String, AllocError> {
        let Printer { tokens, lacks, .. } = self;
        match tokens.finish() {
            Some(all) if !lacks => laid_out(alloc, all.as_slice()),
            _ => Err(AllocError),
        }
    }
}
