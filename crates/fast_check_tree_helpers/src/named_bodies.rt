//! Bodies that name their return type: the last statement returns a value that shows its type, and no other statement returns.

ghost use Rattle.std.specs.Prelude.{◌≡◌, IfOk};
ghost use Rattle.std.specs.Option.{option_map};
ghost use Rattle.fast_check_tree_syntax.specs.Part.{seen};
ghost use Rattle.fast_check_tree_helpers.specs.NamedBodies as named;

use crate::infer_type::{is_typed_literal, maybe_infer_type, value_in};
use crate::literal_type::DeclMutabilityKind;
use crate::return_class::{ReturnStatementAnalysis, analyze_return_stmts};
use fast_check_tree_forms_statements::{BlockStmt, ReturnStmt};
use fast_check_tree_syntax::{Kind, Part, SyntaxContext, Tree};
use std::alloc::{AllocError, Global};

/// The argument of a return statement that has one; `None` for every other statement.
fn return_arg<'a>(stmt: Part<'a>) -> Option<Part<'a>>
    ensures { option_map seen result ≡ named.return_arg (seen stmt.entry) }
{
    if stmt.kind() != Kind::ReturnStmt {
        return None;
    }
    let arg = ReturnStmt::of(stmt).arg;
    if arg.is_absent() { None } else { Some(arg) }
}

/// Whether no return statement is reached from a statement.
fn returns_nowhere(stmt: Part<'_>) -> bool
    ensures { result ≡ named.returns_nowhere (seen stmt.entry) }
{
    let analysis = analyze_return_stmts(stmt, ReturnStatementAnalysis::None);
    matches!(analysis, ReturnStatementAnalysis::None)
}

/// The argument of the only return statement of the body of a function, a `BlockStmt`, where that is the last statement of
/// the body and has an argument; `None` for every other body. Return statements are reached as the return class reaches
/// them: through blocks, `with`, labels, both branches of `if`, cases, the three parts of `try`, and loops; nested functions
/// are not entered. It takes no memory.
pub fn single_return_arg<'a>(body: Part<'a>) -> Option<Part<'a>>
    ensures { option_map seen result ≡ named.single_return_arg (seen body.entry) }
{
    let stmts = BlockStmt::of(body).stmts.parts();
    for (index, stmt) in stmts.iter().enumerate() {
        if index + 1 == stmts.len() {
            return return_arg(stmt.read());
        }
        if !returns_nowhere(stmt.read()) {
            return None;
        }
    }
    None
}

/// Whether an argument may name the type of a function: a literal that shows its type, a template without a tag or an
/// assertion, through parentheses and `satisfies`. It takes no memory.
fn names_type(value: Part<'_>) -> bool
    ensures { result ≡ named.names_type (seen value.entry) }
{
    let kind = value.kind();
    match kind {
        Kind::TsAsExpr => true,
        Kind::TsTypeAssertion => true,
        Kind::Tpl => true,
        _ => {
            match value_in(kind) {
                Some(place) => names_type(value.part(place)),
                None => is_typed_literal(value),
            }
        }
    }
}

/// The type that the body of a function, a `BlockStmt`, names: that of its `single_return_arg`, where this is a literal, a
/// template without a tag or an assertion, through parentheses and `satisfies`, and shows its type. A generator's body names
/// none. `unresolved` is the scope number of the names that nothing in the module binds. deno_graph 0.111.1 has the rule as
/// a TODO.
pub fn named_return(
    alloc: Global,
    unresolved: SyntaxContext,
    is_generator: bool,
    body: Part<'_>,
) -> Result<Option<Tree>, AllocError>
    ensures { IfOk result (λ found. found ≡ named.named_return unresolved is_generator (seen body.entry)) }
{
    if is_generator {
        return Ok(None);
    }
    match single_return_arg(body) {
        Some(arg) if names_type(arg) => {
            maybe_infer_type(alloc, arg, DeclMutabilityKind::Mutable, unresolved)
        }
        _ => Ok(None),
    }
}
