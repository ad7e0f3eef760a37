//! What is still to be looked at.
use fast_check_tree_syntax::Part;
use std::alloc::Global;

/// What waits, the next one last. Where memory runs out one is left out, and it says so.
#[derive(Drop)]
pub struct Waiting<T> {
    pub lacks: bool,
    items: Vec<T>,
}

impl<T: Drop> Waiting<T> {
    pub fn new(alloc: Global) -> Waiting<T> {
        Waiting {
            lacks: false,
            items: Vec::new(alloc),
        }
    }

    pub fn push(&mut self, item: T) {
        if self.items.push(item).is_err() {
            self.lacks = true;
        }
    }

    pub fn pop(&mut self) -> Option<T> {
        self.items.pop()
    }
}

impl<'a> Waiting<Part<'a>> {
    /// Pushes the parts of a part, the first one last.
    pub fn push_parts(&mut self, part: Part<'a>) {
        for inner in part.parts().iter().rev() {
            self.push(inner.read());
        }
    }
}
