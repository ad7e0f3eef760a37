//! Bodies of functions, cut to what says how they return.
use crate::edits::{Edits, range_of};
use crate::local::is_local;
use fast_check_source_references::returns::{asserted, inner};
use fast_check_source_walks::{Waiting, holds_statements};
use fast_check_tree_forms_expressions::{CallExpr, ThisExpr};
use fast_check_tree_forms_statements::{BlockStmt, EmptyStmt, ExprStmt, ReturnStmt};
use fast_check_tree_syntax::{Items, Kind, Part, SourcePos, SourceRange, Tree};
use std::alloc::{AllocError, Global};

/// The body of a function.
#[derive(Clone, Copy)]
pub struct Body<'a> {
    pub block: Part<'a>,
    pub has_type: bool,
    pub is_generator: bool,
    /// Whether it is the one of a getter that has the type of its setter.
    pub is_of_setter: bool,
}

fn names_type(value: Part<'_>) -> bool {
    matches!(
        inner(value).kind(),
        Kind::Str
            | Kind::Number
            | Kind::BigInt
            | Kind::Bool
            | Kind::Null
            | Kind::Regex
            | Kind::Tpl
            | Kind::TsAsExpr
            | Kind::TsTypeAssertion
            | Kind::TsConstAssertion
    )
}

// The statements by which a body returns, in the order of the text.
fn returns<'a>(alloc: Global, block: Part<'a>) -> Result<Vec<Part<'a>>, AllocError> {
    let mut found = Vec::new(alloc);
    let mut waiting = Waiting::new(alloc);
    waiting.push(block);
    for _turn in 0..u64::MAX {
        let Some(next) = waiting.pop() else {
            break;
        };
        if next.kind() == Kind::ReturnStmt {
            found.push(next)?;
        } else if holds_statements(next.kind()) {
            waiting.push_parts(next);
        }
    }
    if waiting.lacks {
        Err(AllocError)
    } else {
        Ok(found)
    }
}

/// The only value that a body returns, by its last statement, where it names a type.
pub fn naming<'a>(alloc: Global, block: Part<'a>) -> Result<Option<Part<'a>>, AllocError> {
    let Some(last) = BlockStmt::of(block).stmts.parts().last() else {
        return Ok(None);
    };
    let last = last.read();
    if last.kind() != Kind::ReturnStmt || returns(alloc, block)?.len() != 1 {
        return Ok(None);
    }
    let arg = ReturnStmt::of(last).arg;
    Ok(if names_type(arg) { Some(arg) } else { None })
}

// The returned value that stays: the one by which the body names its type.
fn kept<'a>(alloc: Global, body: Body<'a>) -> Result<Option<Part<'a>>, AllocError> {
    if body.is_generator || body.is_of_setter {
        return Ok(None);
    }
    let Some(value) = naming(alloc, body.block)? else {
        return Ok(None);
    };
    match asserted(value) {
        Some(type_ann) => if is_local(alloc, body.block, type_ann)? {
            Ok(None)
        } else {
            Ok(Some(value))
        },
        None => Ok(Some(value)),
    }
}

// A return with the value that stays, or with one that names no type.
fn short_return(
    alloc: Global,
    statement: Part<'_>,
    kept: Option<Part<'_>>,
) -> Result<Tree, AllocError> {
    let ReturnStmt { span, arg } = ReturnStmt::of(statement);
    let arg = if arg.is_absent() {
        Tree::Absent
    } else {
        match kept {
            Some(value) => value.to_tree(alloc)?,
            None => {
                let span = range_of(arg);
                ThisExpr { span }.into_tree(alloc)?
            }
        }
    };
    ReturnStmt { span, arg }.into_tree(alloc)
}

// Pushes the statements that say how a body returns.
fn push_short(alloc: Global, body: Body<'_>, out: &mut Items<Tree>) -> Result<(), AllocError> {
    let kept = kept(alloc, body)?;
    let all = returns(alloc, body.block)?;
    for statement in all.iter() {
        out.push(short_return(alloc, *statement, kept)?)?;
    }
    if all.is_empty()
        && let Some(first) = BlockStmt::of(body.block).stmts.parts().first()
    {
        let span = range_of(first.read());
        out.push(EmptyStmt { span }.into_tree(alloc)?)?;
    }
    Ok(())
}

fn short_block(
    alloc: Global,
    block: Part<'_>,
    span: SourceRange,
    stmts: Items<Tree>,
) -> Result<Tree, AllocError> {
    BlockStmt {
        span,
        ctxt: BlockStmt::of(block).ctxt,
        stmts: Tree::list(stmts),
    }
    .into_tree(alloc)
}

fn short_body(alloc: Global, body: Body<'_>) -> Result<Tree, AllocError> {
    let mut stmts = Items::new(alloc);
    if !body.has_type {
        push_short(alloc, body, &mut stmts)?;
    }
    // No text stands in its place.
    let span = SourceRange {
        start: SourcePos(0),
        end: SourcePos(0),
    };
    short_block(alloc, body.block, span, stmts)
}

/// Cuts a body: behind a written type nothing of it is seen, and else how it returns, and the value by which it names the type.
pub fn put_body(edits: &mut Edits, body: Body<'_>) {
    if body.block.kind() == Kind::BlockStmt {
        edits.put(body.block, short_body(edits.alloc, body));
    }
}

fn is_super_call(statement: Part<'_>) -> bool {
    if statement.kind() != Kind::ExprStmt {
        return false;
    }
    let call = ExprStmt::of(statement).expr;
    call.kind() == Kind::CallExpr && CallExpr::of(call).callee.kind() == Kind::Super
}

fn short_constructor(alloc: Global, block: Part<'_>) -> Result<Tree, AllocError> {
    let mut stmts = Items::new(alloc);
    for statement in BlockStmt::of(block).stmts.parts() {
        if is_super_call(statement.read()) {
            stmts.push(statement.read().to_tree(alloc)?)?;
        }
    }
    short_block(alloc, block, range_of(block), stmts)
}

/// Cuts the body of a constructor to its calls of the superclass.
pub fn put_constructor(edits: &mut Edits, block: Part<'_>) {
    if block.kind() == Kind::BlockStmt {
        edits.put(block, short_constructor(edits.alloc, block));
    }
}
