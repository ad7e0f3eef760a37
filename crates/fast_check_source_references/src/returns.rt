//! The type that the only return of a function asserts.
use fast_check_source_walks::{Waiting, holds_statements};
use fast_check_tree_forms_expressions::{ParenExpr, TsAsExpr, TsSatisfiesExpr, TsTypeAssertion};
use fast_check_tree_forms_statements::{BlockStmt, ReturnStmt};
use fast_check_tree_syntax::{Kind, Part};
use std::alloc::{AllocError, Global};

/// What stands in parentheses, or before `satisfies`.
pub fn inner(value: Part<'_>) -> Part<'_> {
    let mut at = value;
    for _turn in 0..u64::MAX {
        at = match at.kind() {
            Kind::ParenExpr => ParenExpr::of(at).expr,
            Kind::TsSatisfiesExpr => TsSatisfiesExpr::of(at).expr,
            _ => break,
        };
    }
    at
}

/// The type that a value asserts, in parentheses and behind `satisfies` too.
pub fn asserted(value: Part<'_>) -> Option<Part<'_>> {
    let at = inner(value);
    match at.kind() {
        Kind::TsAsExpr => Some(TsAsExpr::of(at).type_ann),
        Kind::TsTypeAssertion => Some(TsTypeAssertion::of(at).type_ann),
        _ => None,
    }
}

// Whether one statement of a list returns, and no other.
fn returns_once(alloc: Global, stmts: Part<'_>) -> Result<bool, AllocError> {
    let mut waiting = Waiting::new(alloc);
    waiting.push(stmts);
    let mut has_one = false;
    for _turn in 0..u64::MAX {
        let Some(next) = waiting.pop() else {
            break;
        };
        if next.kind() == Kind::ReturnStmt {
            if has_one {
                return Ok(false);
            }
            has_one = true;
        }
        if holds_statements(next.kind()) {
            waiting.push_parts(next);
        }
    }
    if waiting.lacks {
        Err(AllocError)
    } else {
        Ok(has_one)
    }
}

/// The type that the only return of a function asserts, where that is its last statement.
pub fn asserted_result(
    alloc: Global,
    body: Part<'_>,
    is_generator: bool,
) -> Result<Option<Part<'_>>, AllocError> {
    if is_generator || body.kind() != Kind::BlockStmt {
        return Ok(None);
    }
    let stmts = BlockStmt::of(body).stmts;
    let Some(last) = stmts.parts().last() else {
        return Ok(None);
    };
    let last = last.read();
    if last.kind() != Kind::ReturnStmt || !returns_once(alloc, stmts)? {
        return Ok(None);
    }
    Ok(asserted(ReturnStmt::of(last).arg))
}
