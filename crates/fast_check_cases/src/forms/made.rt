//! Types that calls make, and that no transform makes, and an identifier of a copied id.

use fast_check_tree_forms_programs::Ident;
use fast_check_tree_helpers::{TsKeywordTypeKind, ts_keyword_type, ts_readonly, ts_tuple_element};
use fast_check_tree_syntax::{Atom, Id, SourcePos, SourceRange, SyntaxContext, Tree};
use std::alloc::{AllocError, Global};

/// The range of each form that is made here.
const SPAN: SourceRange = SourceRange {
    start: SourcePos(1),
    end: SourcePos(3),
};

/// The text of each form that has one.
fn text(alloc: Global) -> Result<Atom, AllocError> {
    Atom::from_str(alloc, "text")
}

/// What the call of this name makes, or nothing.
pub fn made(alloc: Global, name: &str) -> Result<Tree, AllocError> {
    match name {
        "Ident" => identifier(alloc),
        _ => made_of_types(alloc, name),
    }
}

/// The identifier of a copied id.
fn identifier(alloc: Global) -> Result<Tree, AllocError> {
    let id = Id(text(alloc)?, SyntaxContext(2));
    let Id(sym, ctxt) = id.clone()?;
    Ident {
        span: SPAN,
        ctxt,
        sym,
        optional: false,
    }
    .into_tree(alloc)
}

/// The same of what holds a type.
fn made_of_types(alloc: Global, name: &str) -> Result<Tree, AllocError> {
    let void = ts_keyword_type(TsKeywordTypeKind::TsVoidKeyword).into_tree(alloc)?;
    match name {
        "ts_readonly" => ts_readonly(alloc, void),
        "ts_tuple_element" => ts_tuple_element(alloc, void),
        _ => Ok(Tree::Absent),
    }
}
