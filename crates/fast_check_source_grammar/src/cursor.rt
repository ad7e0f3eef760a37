//! A cursor over the tokens of a text.
ghost use Rattle.std.specs.Prelude.{◌≤◌, length};

use fast_check_source_lexer::{Keyword, Source, Token, TokenKind, keyword_of};
use fast_check_tree_syntax::{Atom, SourcePos, SourceRange};
use std::alloc::{AllocError, Global};

/// What a token stands in.
#[derive(Clone, Copy, PartialEq, Eq)]
pub struct Within {
    /// A function, of whatever kind.
    pub function: bool,
    /// A place where `await` is an operator and names nothing.
    pub is_async: bool,
    pub is_generator: bool,
    /// A place where no conditional type stands, as behind its `extends`.
    pub plain_type: bool,
    /// The head of a `for`, where `in` is no operator.
    pub no_in: bool,
    /// A file that may hold JSX.
    pub jsx: bool,
}

/// The next token, and how far the text is read. A copy looks ahead.
#[derive(Clone, Copy)]
pub struct Cursor<'a> {
    source: Source<'a>,
    token: Token,
    word: Keyword,
    // The end of the token before the next one.
    before: usize,
    within: Within,
    // How many nodes stand upon one another in what the rule at hand has made, but for its own.
    high: usize,
    ghost ready: { (before ≤ length source.text.now) × (token.start ≤ token.end) × (token.end ≤ length source.text.now) },
}

fn word_in(source: Source<'_>, token: Token) -> Keyword {
    if token.kind != TokenKind::Name {
        return Keyword::Other;
    }
    match source.text().as_bytes().get(token.start..token.end) {
        Some(text) => keyword_of(text),
        None => Keyword::Other,
    }
}

impl<'a> Cursor<'a> {
    /// At the first token of a text, if it is not too long. `awaits` says whether `await` is an operator outside of functions, as in modules.
    pub fn new(text: &'a str, jsx: bool, awaits: bool) -> Option<Cursor<'a>> {
        let source = Source::new(text)?;
        let token = source.scan(0);
        Some(Cursor {
            source,
            token,
            word: word_in(source, token),
            before: 0,
            high: 0,
            within: Within {
                function: false,
                is_async: awaits,
                is_generator: false,
                plain_type: false,
                no_in: false,
                jsx,
            },
        })
    }

    pub fn kind(&self) -> TokenKind {
        self.token.kind
    }

    pub fn word(&self) -> Keyword {
        self.word
    }

    /// Whether a line ends before the next token.
    pub fn newline(&self) -> bool {
        self.token.newline
    }

    pub fn within(&self) -> Within {
        self.within
    }

    /// Says what the tokens from here on stand in, and answers what they stood in.
    pub fn enter(&mut self, within: Within) -> Within {
        let outer = self.within;
        self.within = within;
        outer
    }

    /// How high the tree of the rule at hand is, but for its own nodes.
    pub fn high(&self) -> usize {
        self.high
    }

    /// Says how high it is, and answers how high it was.
    pub fn set_high(&mut self, high: usize) -> usize {
        let before = self.high;
        self.high = high;
        before
    }

    /// Goes on behind the next token.
    pub fn advance(&mut self) {
        let token = self.source.scan(self.token.end);
        *self = Cursor {
            source: self.source,
            token,
            word: word_in(self.source, token),
            before: self.token.end,
            within: self.within,
            high: self.high,
        };
    }

    /// The token behind the next one.
    pub fn second(&self) -> Cursor<'a> {
        let mut ahead = *self;
        ahead.advance();
        ahead
    }

    pub fn is(&self, kind: TokenKind) -> bool {
        self.token.kind == kind
    }

    pub fn is_word(&self, word: Keyword) -> bool {
        self.word == word
    }

    /// Goes on behind the next token if it is of a kind, and says whether it is.
    pub fn eat(&mut self, kind: TokenKind) -> bool {
        let found = self.is(kind);
        if found {
            self.advance();
        }
        found
    }

    /// The same of a word.
    pub fn eat_word(&mut self, word: Keyword) -> bool {
        let found = self.is_word(word);
        if found {
            self.advance();
        }
        found
    }

    /// Whether a statement may end before the next token, with no `;`.
    pub fn can_end(&self) -> bool {
        self.newline() || matches!(self.kind(), TokenKind::RBrace | TokenKind::End)
    }

    /// Whether a closing mark or the end of the text comes next.
    pub fn closes(&self, close: TokenKind) -> bool {
        self.is(close) || self.is(TokenKind::End)
    }

    /// Goes on to the end of the text.
    pub fn pass_all(&mut self) {
        let end = self.source.text().len();
        let token = self.source.scan(end);
        *self = Cursor {
            source: self.source,
            token,
            word: word_in(self.source, token),
            before: end,
            within: self.within,
            high: self.high,
        };
    }

    /// Where the next token begins.
    pub fn start(&self) -> SourcePos {
        SourcePos((self.token.start + 1) as u32)
    }

    /// Where the next token begins, from 0.
    pub fn place(&self) -> usize {
        self.token.start
    }

    /// Where the token before the next one ends.
    pub fn end(&self) -> SourcePos {
        SourcePos((self.before + 1) as u32)
    }

    /// From a place to the end of the token before the next one.
    pub fn from(&self, start: SourcePos) -> SourceRange {
        SourceRange {
            start,
            end: self.end(),
        }
    }

    /// The range of the next token.
    pub fn here(&self) -> SourceRange {
        SourceRange {
            start: self.start(),
            end: SourcePos((self.token.end + 1) as u32),
        }
    }

    /// How many bytes are left, which bounds how many tokens are.
    pub fn left(&self) -> usize {
        self.source.text().len() - self.before
    }

    /// The text of the next token without so many bytes at its start and its end.
    pub fn inside(&self, first: usize, last: usize) -> &'a str {
        let whole = self.source.text();
        let (start, end) = (self.token.start, self.token.end);
        if first <= end - start && last <= end - start - first {
            match whole.get(start + first..end - last) {
                Some(text) => text,
                None => "",
            }
        } else {
            ""
        }
    }

    /// The text from a position to the end of the token before the next one.
    pub fn text_from(&self, start: SourcePos) -> &'a str {
        let first = (start.0 as usize).saturating_sub(1);
        match self.source.text().get(first..self.before) {
            Some(text) => text,
            None => "",
        }
    }

    /// The text of the next token, as it is written.
    pub fn written(&self, alloc: Global) -> Result<Atom, AllocError> {
        Atom::from_str(alloc, self.inside(0, 0))
    }

    /// Reads the next token, a `/`, as a regular expression.
    pub fn rescan_regex(&mut self) {
        if self.token.start < self.source.text().len() {
            self.token = self.source.rescan_regex(self.token);
        }
    }

    /// Reads the next token, a `}`, as what goes on with a template.
    pub fn rescan_template(&mut self) {
        if self.token.start < self.source.text().len() {
            self.token = self.source.rescan_template(self.token);
        }
    }

    /// Reads the next token, where it is a `>`, with what makes one operator with it.
    pub fn rescan_operator(&mut self) {
        if self.is(TokenKind::Greater) && self.token.start < self.source.text().len() {
            self.token = self.source.rescan_greater(self.token);
        }
    }

    /// Reads the next token, a `<<`, as a `<`.
    pub fn rescan_less(&mut self) {
        if self.is(TokenKind::LeftShift) && self.token.start < self.source.text().len() {
            self.token = self.source.rescan_less(self.token);
        }
    }

    /// Reads the next token as a name in a tag of JSX.
    pub fn rescan_jsx_name(&mut self) {
        if self.token.start < self.source.text().len() {
            self.token = self.source.rescan_jsx_name(self.token);
        }
    }

    /// Reads the next token as a string in a tag of JSX.
    pub fn rescan_jsx_string(&mut self) {
        if self.token.start < self.source.text().len() {
            self.token = self.source.rescan_jsx_string(self.token);
        }
    }

    /// Goes on behind the next token and the text of JSX behind it.
    pub fn pass_jsx_text(&mut self) {
        let text = self.source.jsx_text(self.token.end);
        let token = self.source.scan(text.end);
        *self = Cursor {
            source: self.source,
            token,
            word: word_in(self.source, token),
            before: text.end,
            within: self.within,
            high: self.high,
        };
    }
}
