//! A text that is written piece by piece.
ghost use Rattle.std.specs.Prelude.{◌≡◌, [], ◌++◌, Some, None, OnSome, MatchResult, is_ok, if◌then◌else◌};
ghost use Rattle.std.specs.Option.{option_copied};
ghost use Rattle.std.specs.String.{string_bytes};
ghost use Rattle.fast_check_cases.specs.Says.{Says, text_of_flag};

use std::alloc::{AllocError, Global};
use std::marker::Model;

/// A text that is written piece by piece. If memory runs out, a piece is left out, and the text is no answer.
/// Contracts see it as its bytes, or as `None` once a piece was left out.
#[derive(Drop)]
pub struct Said {
    text: String,
    lacks: bool,
}

impl Model for Said {
    ghost use Rattle.std.specs.Prelude.{ℕ, List, Option, Some, None, if◌then◌else◌};
    ghost use Rattle.std.specs.String.{string_bytes};

    ghost Value = { Option (List ℕ) };

    ghost view = { λ said. if said.lacks then None else Some (string_bytes said.text) };
}

impl Said {
    /// The text of no piece.
    pub fn new(alloc: Global) -> Said
        ensures { result ≡ Some [] }
    {
        Said {
            text: String::new(alloc),
            lacks: false,
        }
    }

    /// Says a text.
    pub fn say(&mut self, text: &str)
        ensures { Says text.now self.old self.new }
    {
        let done = self.text.push_str(text);
        self.note(done);
    }

    /// Says a text that was made, if it was.
    pub fn say_made(&mut self, made: Result<String, AllocError>)
        ensures { MatchResult made (λ text. Says (string_bytes text) self.old self.new) (λ _. self.new ≡ None) }
    {
        match made {
            Ok(text) => self.say(text.as_str()),
            Err(_) => self.lack(),
        }
    }

    /// Says a path of three pieces.
    pub fn say_path(&mut self, before: &str, name: &str, after: &str)
        ensures { Says (before.now ++ (name.now ++ after.now)) self.old self.new }
    {
        self.say(before);
        self.say(name);
        self.say(after);
    }

    /// Says a flag, as `true` or `false`.
    pub fn say_flag(&mut self, flag: bool)
        ensures { Says (text_of_flag flag) self.old self.new }
    {
        self.say(if flag { "true" } else { "false" });
    }

    /// A copy of a text. If memory runs out, nothing is a text any more.
    pub fn copy(&mut self, alloc: Global, text: &str) -> String
        ensures kept { OnSome self.new (self.new ≡ self.old) }
        ensures copied { OnSome self.new (string_bytes result ≡ text.now) }
    {
        match String::from_str(alloc, text) {
            Ok(copy) => copy,
            Err(_) => {
                self.lack();
                String::new(alloc)
            }
        }
    }

    /// Notes whether a call had memory. The text is kept if it had.
    pub fn note(&mut self, done: Result<(), AllocError>)
        ensures { self.new ≡ (if is_ok done then self.old else None) }
    {
        if done.is_err() {
            self.lack();
        }
    }

    /// Notes that memory ran out.
    pub fn lack(&mut self)
        ensures { self.new ≡ None }
    {
        self.lacks = true;
    }

    /// The text, if nothing was left out.
    pub fn text(&self) -> Option<&str>
        ensures { option_copied result ≡ self.now }
    {
        if self.lacks {
            None
        } else {
            Some(self.text.as_str())
        }
    }
}
