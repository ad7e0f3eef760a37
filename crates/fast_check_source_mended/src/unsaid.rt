//! Names whose type no skeleton says: those of parameters with a default, which may be left out there, and those in patterns, of which a skeleton has no names.
use fast_check_source_references::declared::BoundNames;
use fast_check_source_references::names::id_of;
use fast_check_source_walks::Waiting;
use fast_check_tree_forms_classes::{Constructor, Function, Param, TsParamProp};
use fast_check_tree_forms_expressions::{
    ArrowExpr, AssignPat, RestPat, SetterProp, TsAsExpr, TsNonNullExpr, TsTypeAssertion,
};
use fast_check_tree_forms_programs::BindingIdent;
use fast_check_tree_syntax::{Id, Kind, Part};
use std::alloc::{AllocError, Global};
use std::collections::BTreeMap;

/// The names of a tree whose type no skeleton says.
#[derive(Drop)]
pub struct Unsaid {
    alloc: Global,
    // Whether memory ran out for one of them.
    lacks: bool,
    // Whether an assertion says the type.
    names: BTreeMap<Id, bool>,
}

// A part of a value.
#[derive(Clone, Copy)]
struct Look<'a> {
    part: Part<'a>,
    is_asserted: bool,
}

// The pattern of a parameter.
fn pattern_of(param: Part<'_>) -> Part<'_> {
    match param.kind() {
        Kind::Param => Param::of(param).pat,
        Kind::TsParamProp => TsParamProp::of(param).param,
        _ => param,
    }
}

// A value whose type an assertion says.
fn asserted(part: Part<'_>) -> Option<(Part<'_>, Part<'_>)> {
    match part.kind() {
        Kind::TsAsExpr => {
            let TsAsExpr { expr, type_ann, .. } = TsAsExpr::of(part);
            Some((expr, type_ann))
        }
        Kind::TsTypeAssertion => {
            let TsTypeAssertion { expr, type_ann, .. } = TsTypeAssertion::of(part);
            Some((expr, type_ann))
        }
        Kind::TsNonNullExpr => {
            let TsNonNullExpr { expr, .. } = TsNonNullExpr::of(part);
            Some((expr, expr))
        }
        _ => None,
    }
}

// Pushes the parts of a part of a value that are not judged by themselves.
fn push_looks<'a>(look: Look<'a>, waiting: &mut Waiting<Look<'a>>) {
    let Look { part, is_asserted } = look;
    if let Some((expr, type_ann)) = asserted(part) {
        for part in [expr, type_ann] {
            waiting.push(Look {
                part,
                is_asserted: true,
            });
        }
        return;
    }
    match part.kind() {
        Kind::BlockStmt => {}
        Kind::BindingIdent => {
            let part = BindingIdent::of(part).type_ann;
            waiting.push(Look { part, is_asserted });
        }
        Kind::AssignPat => {
            let part = AssignPat::of(part).left;
            waiting.push(Look { part, is_asserted });
        }
        Kind::ArrowExpr => {
            let ArrowExpr {
                params,
                type_params,
                return_type,
                ..
            } = ArrowExpr::of(part);
            for part in [params, type_params, return_type] {
                waiting.push(Look { part, is_asserted });
            }
        }
        _ => {
            for inner in part.parts() {
                waiting.push(Look {
                    part: inner.read(),
                    is_asserted,
                });
            }
        }
    }
}

impl Unsaid {
    fn add_name(&mut self, name: Part<'_>, is_name: bool) -> Result<(), AllocError> {
        if let Some(id) = id_of(self.alloc, name)? {
            let _ = self.names.insert(id, is_name)?;
        }
        Ok(())
    }

    // The names of a parameter.
    fn add(&mut self, pattern: Part<'_>) {
        let mut inner = pattern;
        let mut has_default = false;
        if inner.kind() == Kind::AssignPat {
            inner = AssignPat::of(inner).left;
            has_default = true;
        }
        if inner.kind() == Kind::RestPat {
            inner = RestPat::of(inner).arg;
        }
        let is_name = inner.kind() == Kind::BindingIdent;
        if is_name && !has_default {
            return;
        }
        let mut names = BoundNames::of(self.alloc, inner);
        for _turn in 0..u64::MAX {
            let Some(name) = names.next() else {
                break;
            };
            if self.add_name(name, is_name).is_err() {
                self.lacks = true;
            }
        }
        self.lacks |= names.lacks();
    }

    fn add_all(&mut self, params: Part<'_>) {
        for param in params.parts() {
            self.add(pattern_of(param.read()));
        }
    }

    // The names of the parameters of what a part is.
    fn add_of(&mut self, part: Part<'_>) {
        match part.kind() {
            Kind::Function => self.add_all(Function::of(part).params),
            Kind::ArrowExpr => self.add_all(ArrowExpr::of(part).params),
            Kind::Constructor => self.add_all(Constructor::of(part).params),
            Kind::SetterProp => self.add(SetterProp::of(part).param),
            _ => {}
        }
    }

    /// Those of a tree.
    pub fn of(alloc: Global, program: Part<'_>) -> Result<Unsaid, AllocError> {
        let mut unsaid = Unsaid {
            alloc,
            lacks: false,
            names: BTreeMap::new(alloc),
        };
        let mut waiting = Waiting::new(alloc);
        waiting.push(program);
        for _turn in 0..u64::MAX {
            let Some(next) = waiting.pop() else {
                break;
            };
            if next.kind() != Kind::BlockStmt {
                unsaid.add_of(next);
                waiting.push_parts(next);
            }
        }
        if unsaid.lacks || waiting.lacks {
            return Err(AllocError);
        }
        Ok(unsaid)
    }

    /// Whether such a name stands in a value.
    pub fn stands_in(&self, value: Part<'_>) -> Result<bool, AllocError> {
        if self.names.is_empty() {
            return Ok(false);
        }
        let mut waiting = Waiting::new(self.alloc);
        waiting.push(Look {
            part: value,
            is_asserted: false,
        });
        for _turn in 0..u64::MAX {
            let Some(look) = waiting.pop() else {
                break;
            };
            if let Some(id) = id_of(self.alloc, look.part)? {
                match self.names.get(&id) {
                    Some(is_said) if !(look.is_asserted && *is_said) => return Ok(true),
                    _ => {}
                }
            } else {
                push_looks(look, &mut waiting);
            }
        }
        if waiting.lacks {
            Err(AllocError)
        } else {
            Ok(false)
        }
    }
}
