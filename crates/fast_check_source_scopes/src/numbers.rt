//! Which number each node has, and the tree with these numbers.
use fast_check_tree_syntax::{Items, Kind, SyntaxContext, Tree};
use std::alloc::{AllocError, Global};
use std::collections::BTreeMap;

/// What has a number of a scope.
#[derive(Clone, Copy, PartialEq, Eq, PartialOrd, Ord)]
pub enum Numbered {
    Ident,
    Function,
    Arrow,
    Constructor,
    Block,
    Class,
}

/// The numbers of nodes, by what they are and where they begin. Where memory runs out one is left out, and it says so.
#[derive(Drop)]
pub struct Numbers {
    pub lacks: bool,
    found: BTreeMap<(Numbered, u32), u32>,
}

impl Numbers {
    pub fn new(alloc: Global) -> Numbers {
        Numbers {
            lacks: false,
            found: BTreeMap::new(alloc),
        }
    }

    pub fn set(&mut self, what: Numbered, start: u32, number: u32) {
        if self.found.insert((what, start), number).is_err() {
            self.lacks = true;
        }
    }

    fn get(&self, kind: Kind, parts: &[Tree]) -> u32 {
        let what = match kind {
            Kind::Ident => Numbered::Ident,
            Kind::Function => Numbered::Function,
            Kind::ArrowExpr => Numbered::Arrow,
            Kind::Constructor => Numbered::Constructor,
            Kind::BlockStmt => Numbered::Block,
            Kind::Class => Numbered::Class,
            _ => return 0,
        };
        let start = match parts.first() {
            Some(Tree::Range(range)) => range.start.0,
            _ => return 0,
        };
        match self.found.get(&(what, start)) {
            Some(number) => *number,
            None => 0,
        }
    }
}

/// A copy of a tree with these numbers.
#[cycle(copies)]
#[tactic(auto, using(fast_check_source_walks::proofs::Heights::node_height))]
pub fn with_numbers(
    alloc: Global,
    tree: &Tree,
    numbers: &Numbers,
    own: u32,
) -> Result<Tree, AllocError> {
    match tree {
        Tree::Absent => Ok(Tree::Absent),
        Tree::Flag(flag) => Ok(Tree::Flag(*flag)),
        Tree::Context(_) => Ok(Tree::Context(SyntaxContext(own))),
        Tree::Text(text) => Ok(Tree::Text(text.clone()?)),
        Tree::Range(range) => Ok(Tree::Range(*range)),
        Tree::Word(word) => Ok(Tree::Word(*word)),
        Tree::Node(kind, parts) => {
            let own = numbers.get(*kind, parts.as_slice());
            Ok(Tree::Node(
                *kind,
                all_with_numbers(alloc, parts.as_slice(), numbers, own)?,
            ))
        }
    }
}

#[cycle(copies)]
#[tactic(auto, using(fast_check_source_walks::proofs::Heights::one_height))]
fn all_with_numbers(
    alloc: Global,
    trees: &[Tree],
    numbers: &Numbers,
    own: u32,
) -> Result<Items<Tree>, AllocError> {
    let mut copies = Items::new(alloc);
    for tree in trees {
        copies.push(with_numbers(alloc, tree, numbers, own)?)?;
    }
    Ok(copies)
}
