//! How expressions stay, kind by kind: which stay whole, which if their parts do, and what becomes of a part of the others.
ghost use Rattle.std.specs.Prelude.{◌≡◌};
ghost use Rattle.fast_check_meaning_signatures.specs.Expressions.{is_plain, is_compound};

use fast_check_tree_syntax::Kind;

/// What becomes of a part of an expression that stays slot by slot.
#[derive(Clone, Copy, PartialEq, Eq, Debug)]
pub enum Slot {
    /// A range, as it is.
    Span,
    /// A scope number, as it is.
    Scope,
    /// A tree, as it is written.
    Written,
    /// `({} as never)`, whatever is written.
    Never,
    /// An expression, or a list of such, as it stays.
    Value,
    /// A function expression's function, by its signature.
    Function,
}

/// Whether an expression of this kind stays as it is, or is a name or a text inside of another.
pub fn is_plain(kind: Kind) -> bool
    ensures { result ≡ is_plain kind }
{
    matches!(
        kind,
        Kind::Leaf
            | Kind::ThisExpr
            | Kind::Ident
            | Kind::IdentName
            | Kind::Str
            | Kind::Bool
            | Kind::Null
            | Kind::Number
            | Kind::BigInt
            | Kind::Regex
            | Kind::TplElement
    )
}

/// Whether one stays if its parts do, or is a list, an element, a property or a computed name inside of one.
pub fn is_compound(kind: Kind) -> bool
    ensures { result ≡ is_compound kind }
{
    matches!(
        kind,
        Kind::List
            | Kind::ArrayLit
            | Kind::ExprOrSpread
            | Kind::ObjectLit
            | Kind::SpreadElement
            | Kind::KeyValueProp
            | Kind::AssignProp
            | Kind::ComputedPropName
            | Kind::UnaryExpr
            | Kind::UpdateExpr
            | Kind::AwaitExpr
            | Kind::ParenExpr
            | Kind::TsNonNullExpr
            | Kind::TsConstAssertion
            | Kind::BinExpr
            | Kind::CondExpr
            | Kind::MemberExpr
            | Kind::Tpl
    )
}
