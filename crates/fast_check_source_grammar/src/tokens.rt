//! The cursor that the rules move, with what is remembered of places and heights, and why the text is not parsed.
use crate::cooked::{cooked, means_itself};
use crate::cursor::Cursor;
use crate::error::ParseError;
use crate::shared::Shared;
use crate::trees::Trees;
use fast_check_source_lexer::{Keyword, TokenKind};
use fast_check_tree_syntax::{Atom, Tree};
use std::alloc::{AllocError, Global};
use std::collections::BTreeSet;

/// What is remembered of a place, so that a rule is tried in vain there but once.
#[derive(Clone, Copy, PartialEq, Eq)]
pub enum Note {
    /// No arrow function begins here.
    NoArrow,
    /// No type arguments of a value stand here.
    NoArgs,
    /// An `extends` here begins no constraint of what `infer` names.
    NoConstraint,
    /// A literal here is a pattern, since something is assigned to it.
    Target,
    /// `of` or `in` stands behind what begins here, in the head of a `for`.
    Walked,
}

/// A place that a rule may go back to.
#[derive(Clone, Copy)]
pub struct Saved<'a> {
    pub at: Cursor<'a>,
    fault: Option<ParseError>,
}

/// The tokens that the rules move over.
#[derive(Drop)]
pub struct Tokens<'a> {
    /// The next token.
    pub at: Cursor<'a>,
    // Why the text is not parsed, once that is known.
    fault: Option<ParseError>,
    // Whether something was read that stands in modules alone.
    module: bool,
    // Whether `await` was read as a name outside of functions.
    names_await: bool,
    no_arrows: BTreeSet<usize>,
    no_args: BTreeSet<usize>,
    no_constraints: BTreeSet<usize>,
    targets: BTreeSet<usize>,
    walked: BTreeSet<usize>,
    // Texts of names and operators.
    shared: Shared,
}

impl<'a> Tokens<'a> {
    /// At the first token of a text, if it is not too long. `awaits` says whether `await` is an operator outside of functions.
    pub fn new(alloc: Global, text: &'a str, jsx: bool, awaits: bool) -> Option<Tokens<'a>> {
        Some(Tokens {
            at: Cursor::new(text, jsx, awaits)?,
            fault: None,
            module: false,
            names_await: false,
            no_arrows: BTreeSet::new(alloc),
            no_args: BTreeSet::new(alloc),
            no_constraints: BTreeSet::new(alloc),
            targets: BTreeSet::new(alloc),
            walked: BTreeSet::new(alloc),
            shared: Shared::new(alloc),
        })
    }

    /// Whether this was noted of the place of the next token.
    pub fn is_noted(&self, note: Note) -> bool {
        let place = self.at.place();
        match note {
            Note::NoArrow => self.no_arrows.contains(&place),
            Note::NoArgs => self.no_args.contains(&place),
            Note::NoConstraint => self.no_constraints.contains(&place),
            Note::Target => self.targets.contains(&place),
            Note::Walked => self.walked.contains(&place),
        }
    }

    /// Notes something of a place.
    pub fn note(&mut self, note: Note, place: usize) {
        let noted = match note {
            Note::NoArrow => self.no_arrows.insert(place),
            Note::NoArgs => self.no_args.insert(place),
            Note::NoConstraint => self.no_constraints.insert(place),
            Note::Target => self.targets.insert(place),
            Note::Walked => self.walked.insert(place),
        };
        if noted.is_err() {
            self.stop(ParseError::Memory);
        }
    }

    /// Notes why the text is not parsed, if nothing is noted yet, and goes on to its end, so that all rules end there. What they answer is of no account. That
    /// memory ran out is noted in any case.
    pub fn stop(&mut self, why: ParseError) {
        if self.fault.is_none() || why == ParseError::Memory {
            self.fault = Some(why);
        }
        self.at.pass_all();
    }

    /// Why the text is not parsed, if that is known.
    pub fn fault(&self) -> Option<ParseError> {
        self.fault
    }

    pub fn is_stopped(&self) -> bool {
        self.fault.is_some()
    }

    /// Notes that the next token cannot stand here.
    pub fn refuse(&mut self) -> Tree {
        let at = self.at.start();
        self.stop(ParseError::Unexpected(at));
        Tree::Absent
    }

    /// Notes that what was read since a place cannot stand there.
    pub fn refuse_from(&mut self, saved: Saved<'a>) -> Tree {
        self.go_back(saved);
        self.refuse()
    }

    /// Notes that rules nest too deep here, or that the tree is too high.
    pub fn refuse_depth(&mut self) {
        let at = self.at.start();
        self.stop(ParseError::TooDeep(at));
    }

    /// Passes a token of a kind.
    pub fn expect(&mut self, kind: TokenKind) {
        if !self.at.eat(kind) {
            let _ = self.refuse();
        }
    }

    /// Passes a word.
    pub fn expect_word(&mut self, word: Keyword) {
        if !self.at.eat_word(word) {
            let _ = self.refuse();
        }
    }

    /// Passes what ends a statement: a `;`, a `}` or the end that comes next, or a line's end.
    pub fn end_statement(&mut self) {
        if !self.at.eat(TokenKind::Semicolon) && !self.at.can_end() {
            let _ = self.refuse();
        }
    }

    /// The place of the next token.
    pub fn save(&self) -> Saved<'a> {
        Saved {
            at: self.at,
            fault: self.fault,
        }
    }

    /// Goes back to a place, as if nothing had been read since. That memory ran out stays noted.
    pub fn go_back(&mut self, saved: Saved<'a>) {
        if self.fault != Some(ParseError::Memory) {
            self.at = saved.at;
            self.fault = saved.fault;
        }
    }

    /// A tree that was made. Where memory ran out that is noted.
    pub fn made(&mut self, tree: Result<Tree, AllocError>) -> Tree {
        match tree {
            Ok(tree) => tree,
            Err(_) => {
                self.stop(ParseError::Memory);
                Tree::Absent
            }
        }
    }

    /// The same of a text.
    pub fn text(&mut self, text: Result<Atom, AllocError>) -> Option<Atom> {
        match text {
            Ok(text) => Some(text),
            Err(_) => {
                self.stop(ParseError::Memory);
                None
            }
        }
    }

    /// The same of a list.
    pub fn list(&mut self, trees: Trees) -> Tree {
        let Trees { items, lacks } = trees;
        if lacks {
            self.stop(ParseError::Memory);
        }
        Tree::list(items)
    }

    /// Notes that something was read that stands in modules alone: `import.meta`, or an `await` outside of functions.
    pub fn note_module(&mut self) {
        self.module = true;
    }

    pub fn is_module(&self) -> bool {
        self.module
    }

    /// Notes that the next token is read as a name, where it is `await` outside of functions.
    pub fn note_name(&mut self) {
        if self.at.is_word(Keyword::Await) && !self.at.within().function {
            self.names_await = true;
        }
    }

    /// Whether `await` was read as a name outside of functions, which in a module it is not.
    pub fn names_await(&self) -> bool {
        self.names_await
    }

    /// The name that the next token is, with its escapes read, without so many bytes at its start.
    pub fn name(&mut self, alloc: Global, first: usize) -> Option<Atom> {
        let text = self.at.inside(first, 0);
        if means_itself(text) {
            let name = self.shared.atom(alloc, text);
            return self.text(name);
        }
        match cooked(alloc, text) {
            Ok(Some(name)) => Some(name),
            Ok(None) => {
                let _ = self.refuse();
                None
            }
            Err(_) => {
                self.stop(ParseError::Memory);
                None
            }
        }
    }

    /// The operator that the next token is.
    pub fn operator(&mut self, alloc: Global) -> Option<Atom> {
        let operator = self.shared.atom(alloc, self.at.inside(0, 0));
        self.text(operator)
    }

    /// Whether the next token is an `in` that is no operator.
    pub fn stops_at_in(&self) -> bool {
        self.at.within().no_in && self.at.is_word(Keyword::In)
    }
}
