//! A tree without what no rule looks at.
use crate::edits::{Edits, range_of, with_edits};
use crate::members::put_accessors;
use crate::returns::{Body, put_body, put_constructor};
use fast_check_source_walks::Waiting;
use fast_check_tree_forms_classes::{Class, ClassMethod, Constructor, Function, StaticBlock};
use fast_check_tree_forms_expressions::{ArrowExpr, GetterProp, ObjectLit, SetterProp};
use fast_check_tree_syntax::{Kind, Part, Tree, Word};
use std::alloc::{AllocError, Global};
use std::collections::BTreeSet;

// A tree while its bodies are cut.
#[derive(Drop)]
struct Bodies<'a> {
    text: &'a str,
    // Where the bodies begin of getters that have the types of their setters.
    of_setters: BTreeSet<u32>,
    // Where those of setters begin.
    setters: BTreeSet<u32>,
    edits: Edits,
}

impl<'a> Bodies<'a> {
    fn body(&mut self, block: Part<'_>, has_type: bool, is_generator: bool) {
        let start = range_of(block).start.0;
        let is_of_setter = self.of_setters.contains(&start);
        let body = Body {
            block,
            has_type: has_type || self.setters.contains(&start),
            is_generator,
            is_of_setter,
        };
        put_body(&mut self.edits, body)
    }

    // A setter returns nothing, whatever its body says.
    fn method(&mut self, part: Part<'_>) {
        let ClassMethod { function, kind, .. } = ClassMethod::of(part);
        if kind.has_word(Word::Setter) {
            let body = Function::of(function).body;
            if self.setters.insert(range_of(body).start.0).is_err() {
                self.edits.lacks = true;
            }
        }
    }

    fn accessors(&mut self, members: Part<'_>) {
        let done = put_accessors(self.edits.alloc, self.text, members, &mut self.of_setters);
        if done.is_err() {
            self.edits.lacks = true;
        }
    }

    fn part(&mut self, part: Part<'_>) {
        match part.kind() {
            Kind::Function => {
                let Function {
                    body,
                    is_generator,
                    return_type,
                    ..
                } = Function::of(part);
                self.body(body, !return_type.is_absent(), is_generator)
            }
            Kind::GetterProp => {
                let GetterProp { type_ann, body, .. } = GetterProp::of(part);
                self.body(body, !type_ann.is_absent(), false)
            }
            Kind::ArrowExpr => {
                let ArrowExpr {
                    body,
                    return_type,
                    ..
                } = ArrowExpr::of(part);
                self.body(body, !return_type.is_absent(), false)
            }
            Kind::ClassMethod => self.method(part),
            Kind::SetterProp => self.body(SetterProp::of(part).body, true, false),
            Kind::StaticBlock => self.body(StaticBlock::of(part).body, true, false),
            Kind::Constructor => put_constructor(&mut self.edits, Constructor::of(part).body),
            Kind::ObjectLit => self.accessors(ObjectLit::of(part).props),
            Kind::Class => self.accessors(Class::of(part).body),
            _ => {}
        }
    }
}

/// A copy of the tree of a text in which the bodies of functions are cut to what says how they return.
pub fn short_tree(alloc: Global, text: &str, tree: &Tree) -> Result<Tree, AllocError> {
    let mut bodies = Bodies {
        text,
        of_setters: BTreeSet::new(alloc),
        setters: BTreeSet::new(alloc),
        edits: Edits::new(alloc),
    };
    let mut waiting = Waiting::new(alloc);
    waiting.push(tree.read());
    for _turn in 0..u64::MAX {
        let Some(next) = waiting.pop() else {
            break;
        };
        if next.kind() != Kind::BlockStmt {
            bodies.part(next);
            waiting.push_parts(next);
        }
    }
    if bodies.edits.lacks || waiting.lacks {
        return Err(AllocError);
    }
    with_edits(alloc, tree, &bodies.edits)
}
