//! How a body returns: not at all, with nothing, once, or more than once with a value.
ghost use Rattle.std.specs.Prelude.{◌≡◌, fold, flat_map};
ghost use Rattle.fast_check_tree_syntax.specs.Part.{seen};
ghost use Rattle.fast_check_tree_syntax.specs.Shape.{kind_of, part, parts};
ghost use Rattle.fast_check_tree_helpers.specs.ReturnClass.{entered, returns, return_class};
ghost use Rattle.fast_check_tree_helpers.specs.ReturnStep.{after_return};

use crate::fields::{FIFTH, FOURTH, SECOND, THIRD};
use fast_check_tree_forms_statements::{BlockStmt, ReturnStmt};
use fast_check_tree_syntax::{Kind, Part};

/// How the body of a function returns.
#[derive(Clone, Copy, PartialEq, Eq, Debug)]
pub enum ReturnStatementAnalysis {
    /// No statement returns.
    None,
    /// No return statement has an argument, or the body is empty.
    Void,
    /// The last return statement is the only one with an argument.
    Single,
    /// Several return statements, and one with an argument before the last.
    Multiple,
}

/// The class after one more return statement.
fn after_return(analysis: ReturnStatementAnalysis, has_argument: bool) -> ReturnStatementAnalysis
    ensures { result ≡ after_return analysis has_argument }
{
    match analysis {
        ReturnStatementAnalysis::None | ReturnStatementAnalysis::Void => {
            if has_argument {
                ReturnStatementAnalysis::Single
            } else {
                ReturnStatementAnalysis::Void
            }
        }
        ReturnStatementAnalysis::Single | ReturnStatementAnalysis::Multiple => {
            ReturnStatementAnalysis::Multiple
        }
    }
}

/// The fields of a statement in which further statements stand, in text order.
fn entered(kind: Kind) -> &'static [usize]
    ensures { result.now ≡ entered kind }
{
    match kind {
        Kind::TryStmt => &[SECOND, THIRD, FOURTH],
        Kind::IfStmt => &[THIRD, FOURTH],
        Kind::BlockStmt | Kind::WithStmt | Kind::LabeledStmt | Kind::CatchClause => &[THIRD],
        Kind::SwitchStmt | Kind::SwitchCase => &[THIRD],
        Kind::WhileStmt | Kind::DoWhileStmt => &[THIRD],
        Kind::ForInStmt => &[FOURTH],
        Kind::ForStmt | Kind::ForOfStmt => &[FIFTH],
        _ => &[],
    }
}

/// The class after the return statements reached from a statement.
#[cycle(returns)]
pub(crate) fn analyze_return_stmts(
    stmt: Part<'_>,
    analysis: ReturnStatementAnalysis,
) -> ReturnStatementAnalysis
    ensures { result ≡ fold after_return analysis (returns (seen stmt.entry)) }
{
    match stmt.kind() {
        Kind::ReturnStmt => after_return(analysis, !ReturnStmt::of(stmt).arg.is_absent()),
        Kind::List => analyze_each(stmt, analysis),
        _ => analyze_fields(stmt, analysis),
    }
}

/// The class after the return statements reached from the fields of a statement that are entered.
#[cycle(returns)]
fn analyze_fields(stmt: Part<'_>, analysis: ReturnStatementAnalysis) -> ReturnStatementAnalysis
    ensures { result ≡ fold after_return analysis
        (flat_map (λ place. returns (part place (seen stmt.entry))) (entered (kind_of (seen stmt.entry)))) }
{
    let mut analysis = analysis;
    for place in entered(stmt.kind()) {
        analysis = analyze_return_stmts(stmt.part(*place), analysis);
    }
    analysis
}

/// The class after the return statements reached from each of a list of statements.
#[cycle(returns)]
#[tactic(auto, using(fast_check_tree_syntax::specs::Height::height_read))]
fn analyze_each(stmts: Part<'_>, analysis: ReturnStatementAnalysis) -> ReturnStatementAnalysis
    ensures { result ≡ fold after_return analysis (flat_map returns (parts (seen stmts.entry))) }
{
    let mut analysis = analysis;
    for stmt in stmts.parts() {
        analysis = analyze_return_stmts(stmt.read(), analysis);
    }
    analysis
}

/// The return class of the body of a function, a `BlockStmt`. Return statements are reached through blocks, `with`, labels,
/// both branches of `if`, cases, the three parts of `try`, and loops; nested functions are not entered. It takes no memory.
#[tactic(auto, using(crate::proofs::Returns::class_from_none))]
pub fn analyze_return_stmts_in_function_body(body: Part<'_>) -> ReturnStatementAnalysis
    ensures { result ≡ return_class (seen body.entry) }
{
    if BlockStmt::of(body).stmts.parts().is_empty() {
        return ReturnStatementAnalysis::Void;
    }
    analyze_return_stmts(body, ReturnStatementAnalysis::None)
}
