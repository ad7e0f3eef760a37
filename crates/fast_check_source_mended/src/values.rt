//! A tree with its edits.
use crate::edits::{Edits, edited};
use crate::members::put_static_names;
use crate::statements::put_statements;
use crate::unsaid::Unsaid;
use fast_check_source_walks::Waiting;
use fast_check_tree_forms_classes::Class;
use fast_check_tree_forms_expressions::{ArrowExpr, AssignPat};
use fast_check_tree_syntax::{Kind, Part, Tree};
use std::alloc::{AllocError, Global};

// A tree while the values are looked for that name another type than they have.
#[derive(Drop)]
struct Values {
    unsaid: Unsaid,
    edits: Edits,
}

impl Values {
    fn told(&mut self, value: Part<'_>) {
        match self.unsaid.stands_in(value) {
            Ok(true) => self.edits.hide(value),
            Ok(false) => {}
            Err(_) => self.edits.lacks = true,
        }
    }

    fn part(&mut self, part: Part<'_>) {
        match part.kind() {
            Kind::ArrowExpr => {
                let ArrowExpr {
                    body,
                    return_type,
                    ..
                } = ArrowExpr::of(part);
                if body.kind() != Kind::BlockStmt && return_type.is_absent() {
                    self.told(body);
                }
            }
            Kind::AssignPat => self.told(AssignPat::of(part).right),
            Kind::Class => put_static_names(&mut self.edits, Class::of(part).body),
            _ => {}
        }
    }
}

// The edits of values. What stands in the body of a function is not looked at.
fn edits_of_values(alloc: Global, program: Part<'_>) -> Result<Edits, AllocError> {
    let mut values = Values {
        unsaid: Unsaid::of(alloc, program)?,
        edits: Edits::new(alloc),
    };
    let mut waiting = Waiting::new(alloc);
    waiting.push(program);
    for _turn in 0..u64::MAX {
        let Some(next) = waiting.pop() else {
            break;
        };
        if next.kind() != Kind::BlockStmt {
            values.part(next);
            waiting.push_parts(next);
        }
    }
    let Values { mut edits, .. } = values;
    edits.lacks |= waiting.lacks;
    Ok(edits)
}

/// A tree in which the names have the numbers of their scopes, without what the program would take for something else.
pub fn mended(alloc: Global, tree: Tree) -> Result<Tree, AllocError> {
    let mut statements = Edits::new(alloc);
    put_statements(&mut statements, tree.read());
    let tree = edited(alloc, tree, &statements)?;
    let values = edits_of_values(alloc, tree.read())?;
    edited(alloc, tree, &values)
}
