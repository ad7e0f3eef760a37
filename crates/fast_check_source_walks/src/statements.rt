//! Which nodes statements stand in.
use fast_check_tree_syntax::Kind;

/// Whether a node is a statement, or a part of one, in which statements of the same function may stand.
pub fn holds_statements(kind: Kind) -> bool {
    matches!(
        kind,
        Kind::List
            | Kind::BlockStmt
            | Kind::WithStmt
            | Kind::LabeledStmt
            | Kind::IfStmt
            | Kind::SwitchStmt
            | Kind::SwitchCase
            | Kind::TryStmt
            | Kind::CatchClause
            | Kind::WhileStmt
            | Kind::DoWhileStmt
            | Kind::ForStmt
            | Kind::ForInStmt
            | Kind::ForOfStmt
    )
}
