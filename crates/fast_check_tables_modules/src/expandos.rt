//! The statements of a module that assign to a property of an identifier.
ghost use Rattle.std.specs.Prelude.{◌≡◌, ◌++◌, flat_map, IfOk, OnOk, MatchOption};
ghost use Rattle.fast_check_tree_syntax.specs.Part.{seen};
ghost use Rattle.fast_check_tree_syntax.specs.Shape.{parts};
ghost use Rattle.fast_check_tables_modules.specs.Expandos.{expandos, own_expando, expando_of, is_expando, is_expando_assignment, is_expando_target};

use fast_check_tree_forms_expressions::{AssignExpr, MemberExpr};
use fast_check_tree_forms_programs::Ident;
use fast_check_tree_forms_statements::ExprStmt;
use fast_check_tree_syntax::{Atom, Id, Kind, Part, SourceRange, Tree};
use std::alloc::{AllocError, Global};

/// An expando statement `object.name = value;`.
#[derive(Drop)]
pub struct Expando {
    /// The identifier that the property is of.
    pub object: Id,
    /// The range of the assignment.
    pub range: SourceRange,
}

/// The expando statements of a tree, wherever they stand in it, in order.
pub fn expandos_of(alloc: Global, tree: &Tree) -> Result<Vec<Expando>, AllocError>
    ensures { IfOk result (λ found. found.items ≡ expandos tree.now) }
{
    let mut found = Vec::new(alloc);
    push_expandos(alloc, tree.read(), &mut found)?;
    Ok(found)
}

/// Pushes those of a tree.
#[cycle(expandos)]
#[tactic(auto, using(crate::proofs::ExpandosOut::expandos_out, std::proofs::Common::append_assoc))]
fn push_expandos(alloc: Global, part: Part<'_>, out: &mut Vec<Expando>) -> Result<(), AllocError>
    ensures { OnOk result (out.new.items ≡ out.old.items ++ expandos (seen part.entry)) }
{
    push_own(alloc, part, out)?;
    push_each(alloc, part, out)
}

/// Pushes those of the parts of a tree.
#[cycle(expandos)]
#[tactic(auto, using(fast_check_tree_syntax::specs::Height::height_read))]
fn push_each(alloc: Global, part: Part<'_>, out: &mut Vec<Expando>) -> Result<(), AllocError>
    ensures { OnOk result (out.new.items ≡ out.old.items ++ flat_map expandos (parts (seen part.entry))) }
{
    for inner in part.parts() {
        push_expandos(alloc, inner.read(), out)?;
    }
    Ok(())
}

/// Pushes the statement, if it is an expando.
fn push_own(alloc: Global, part: Part<'_>, out: &mut Vec<Expando>) -> Result<(), AllocError>
    ensures { OnOk result (out.new.items ≡ out.old.items ++ own_expando (seen part.entry)) }
{
    if !is_expando(part) {
        return Ok(());
    }
    out.push(read_expando(alloc, ExprStmt::of(part).expr)?)?;
    Ok(())
}

/// What an assignment of expando form assigns to, and where.
fn read_expando(alloc: Global, assignment: Part<'_>) -> Result<Expando, AllocError>
    ensures { IfOk result (λ made. made ≡ expando_of (seen assignment.entry)) }
{
    let assignment = AssignExpr::of(assignment);
    let object = Ident::of(MemberExpr::of(assignment.left).obj);
    Ok(Expando {
        object: Id(Atom::from_str(alloc, object.sym)?, object.ctxt),
        range: assignment.span,
    })
}

fn is_expando(part: Part<'_>) -> bool
    ensures { result ≡ is_expando (seen part.entry) }
{
    part.kind() == Kind::ExprStmt && is_expando_assignment(ExprStmt::of(part).expr)
}

/// Whether an expression is an assignment `object.name = value` of a plain identifier property of an identifier.
pub fn is_expando_assignment(part: Part<'_>) -> bool
    ensures { result ≡ is_expando_assignment (seen part.entry) }
{
    if part.kind() != Kind::AssignExpr {
        return false;
    }
    let assignment = AssignExpr::of(part);
    assignment.op == "=" && is_expando_target(assignment.left)
}

fn is_expando_target(part: Part<'_>) -> bool
    ensures { result ≡ is_expando_target (seen part.entry) }
{
    if part.kind() != Kind::MemberExpr {
        return false;
    }
    let target = MemberExpr::of(part);
    target.obj.kind() == Kind::Ident && target.prop.kind() == Kind::IdentName
}
