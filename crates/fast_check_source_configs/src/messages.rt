//! What is said of the files of a folder.
ghost use Rattle.std.specs.Prelude.{◌≡◌, ◌++◌, ◌∷◌, [], IfOk, IsFalse, IsOk, IsTrue};

use fast_check_source_files::messages::Message;
use std::alloc::{AllocError, Global};

/// Messages in the order in which they came. Where memory runs out one is left out, and they say so.
#[derive(Drop)]
pub struct MessageList {
    pub lacks: bool,
    pub items: Vec<Message>,
}

impl MessageList {
    pub fn new(alloc: Global) -> MessageList {
        MessageList {
            lacks: false,
            items: Vec::new(alloc),
        }
    }

    pub fn is_empty(&self) -> bool {
        self.items.is_empty()
    }

    /// Adds a message, if it was made: it stands last, or the list notes that memory ran out.
    pub fn push(&mut self, made: Result<Message, AllocError>)
        ensures added { IsFalse self.new.lacks → IsOk made }
        ensures last { IfOk made (λ message. IsFalse self.new.lacks → self.new.items.items ≡ self.old.items.items ++ message ∷ []) }
        ensures noted { IsTrue self.old.lacks → IsTrue self.new.lacks }
    {
        match made {
            Ok(message) => if self.items.push(message).is_err() {
                self.lacks = true;
            },
            Err(_) => self.lacks = true,
        }
    }

    /// Takes all from another list: they stand last, in order, or the list notes that memory ran out.
    pub fn append(&mut self, from: &mut MessageList)
        ensures last { IsFalse self.new.lacks → self.new.items.items ≡ self.old.items.items ++ from.old.items.items }
        ensures noted { IsTrue self.old.lacks → IsTrue self.new.lacks }
        ensures also { IsTrue from.old.lacks → IsTrue self.new.lacks }
    {
        self.lacks |= from.lacks;
        if self.items.append(&mut from.items).is_err() {
            self.lacks = true;
        }
    }
}

/// What is said of the files of a folder.
#[derive(Drop)]
pub struct Messages {
    /// What keeps a package from being read.
    pub errors: MessageList,
    /// What is wrong with a package that is read.
    pub faults: MessageList,
    pub warnings: MessageList,
}

impl Messages {
    pub fn new(alloc: Global) -> Messages {
        Messages {
            errors: MessageList::new(alloc),
            faults: MessageList::new(alloc),
            warnings: MessageList::new(alloc),
        }
    }

    /// Whether memory ran out for one of them.
    pub fn lacks(&self) -> bool {
        self.errors.lacks || self.faults.lacks || self.warnings.lacks
    }
}
