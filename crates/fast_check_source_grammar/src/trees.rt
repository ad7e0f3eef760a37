//! Lists of trees.
use fast_check_tree_syntax::{Items, Tree};
use std::alloc::Global;

/// A list of trees that grows. Where memory runs out a tree is left out, and it says so.
#[derive(Drop)]
pub struct Trees {
    pub(crate) items: Items<Tree>,
    pub(crate) lacks: bool,
}

impl Trees {
    pub fn new(alloc: Global) -> Trees {
        Trees {
            items: Items::new(alloc),
            lacks: false,
        }
    }

    pub fn push(&mut self, tree: Tree) {
        if self.items.push(tree).is_err() {
            self.lacks = true;
        }
    }
}
