//! Variables in the blocks of a module's statements, which the module declares, and properties that are assigned to functions under a text.
use crate::edits::{Edits, hidden, range_of};
use fast_check_source_walks::{Waiting, holds_statements};
use fast_check_tree_forms_expressions::{
    AssignExpr, ComputedPropName, MemberExpr, Tpl, TplElement,
};
use fast_check_tree_forms_programs::{IdentName, Str};
use fast_check_tree_forms_statements::{ExprStmt, ForInStmt, ForOfStmt, VarDecl, VarDeclarator};
use fast_check_tree_syntax::{Atom, Items, Kind, Part, SourceRange, SyntaxContext, Tree, Word};
use std::alloc::{AllocError, Global};

/// A variable of a list behind `var`.
#[derive(Clone, Copy)]
pub struct Variable<'a> {
    pub declarator: Part<'a>,
    /// The list, where a loop gives it values.
    pub given: Option<Part<'a>>,
}

fn is_var(part: Part<'_>) -> bool {
    part.kind() == Kind::VarDecl && VarDecl::of(part).kind.has_word(Word::Var)
}

fn push_variables<'a>(
    list: Part<'a>,
    given: Option<Part<'a>>,
    out: &mut Vec<Variable<'a>>,
) -> Result<(), AllocError> {
    for each in VarDecl::of(list).decls.parts() {
        out.push(Variable {
            declarator: each.read(),
            given,
        })?;
    }
    Ok(())
}

fn head_of(statement: Part<'_>) -> Option<Part<'_>> {
    match statement.kind() {
        Kind::ForInStmt => Some(ForInStmt::of(statement).left),
        Kind::ForOfStmt => Some(ForOfStmt::of(statement).left),
        _ => None,
    }
}

// Pushes the parts of a loop, but for a list of variables.
fn push_loop<'a>(statement: Part<'a>, waiting: &mut Waiting<Part<'a>>) {
    for inner in statement.parts().iter().rev() {
        if !is_var(inner.read()) {
            waiting.push(inner.read());
        }
    }
}

/// The variables behind `var` in a statement, however deep in blocks, but not in functions, classes or namespaces.
pub fn variables_of<'a>(
    alloc: Global,
    statement: Part<'a>,
) -> Result<Vec<Variable<'a>>, AllocError> {
    let mut found = Vec::new(alloc);
    let mut waiting = Waiting::new(alloc);
    waiting.push(statement);
    for _turn in 0..u64::MAX {
        let Some(next) = waiting.pop() else {
            break;
        };
        if is_var(next) {
            push_variables(next, None, &mut found)?;
        } else if let Some(head) = head_of(next) {
            if is_var(head) {
                push_variables(head, Some(head), &mut found)?;
            }
            push_loop(next, &mut waiting);
        } else if holds_statements(next.kind()) {
            waiting.push_parts(next);
        }
    }
    if waiting.lacks {
        Err(AllocError)
    } else {
        Ok(found)
    }
}

// A variable as its module declares it. What a loop gives has no value there.
fn declared(alloc: Global, variable: Variable<'_>) -> Result<Tree, AllocError> {
    let VarDeclarator {
        span,
        name,
        init,
        definite,
    } = VarDeclarator::of(variable.declarator);
    let name = name.to_tree(alloc)?;
    let init = match variable.given {
        Some(list) => hidden(alloc, range_of(list))?,
        None => init.to_tree(alloc)?,
    };
    VarDeclarator {
        span,
        name,
        init,
        definite,
    }
    .into_tree(alloc)
}

// The list of variables that stands in place of a statement.
fn list_of(
    alloc: Global,
    statement: Part<'_>,
    variables: &[Variable<'_>],
) -> Result<Tree, AllocError> {
    let mut decls = Items::new(alloc);
    for variable in variables {
        decls.push(declared(alloc, *variable)?)?;
    }
    VarDecl {
        span: range_of(statement),
        ctxt: SyntaxContext(0),
        kind: Tree::Word(Word::Var),
        declare: false,
        decls: Tree::list(decls),
    }
    .into_tree(alloc)
}

fn put_variables(edits: &mut Edits, statement: Part<'_>) {
    match variables_of(edits.alloc, statement) {
        Ok(variables) => if !variables.is_empty() {
            edits.put(
                statement,
                list_of(edits.alloc, statement, variables.as_slice()),
            );
        },
        Err(_) => edits.lacks = true,
    }
}

// The text that stands in the brackets of a member, if it may stand behind a dot.
fn name_in(expr: Part<'_>) -> Option<&str> {
    let text = match expr.kind() {
        Kind::Str => Str::of(expr).value,
        Kind::Tpl => {
            let quasis = Tpl::of(expr).quasis.parts();
            if quasis.len() != 1 {
                return None;
            }
            TplElement::of(quasis.first()?.read()).cooked.text()
        }
        _ => return None,
    };
    if is_name(text) { Some(text) } else { None }
}

fn is_name(text: &str) -> bool {
    for (at, each) in text.char_indices() {
        let is_right = each == '$'
            || each == '_'
            || (if at == 0 {
                unicode_ident::is_xid_start(each)
            } else {
                each == '\u{200C}' || each == '\u{200D}' || unicode_ident::is_xid_continue(each)
            });
        if !is_right {
            return false;
        }
    }
    !text.is_empty()
}

// The member to which a statement assigns, if it does.
fn assigned(statement: Part<'_>) -> Option<MemberExpr<Part<'_>>> {
    let expr = ExprStmt::of(statement).expr;
    if expr.kind() != Kind::AssignExpr {
        return None;
    }
    let AssignExpr { op, left, .. } = AssignExpr::of(expr);
    if op == "=" && left.kind() == Kind::MemberExpr {
        Some(MemberExpr::of(left))
    } else {
        None
    }
}

/// A name as another one says it.
pub fn name_tree(alloc: Global, span: SourceRange, name: &str) -> Result<Tree, AllocError> {
    let sym = Atom::from_str(alloc, name)?;
    IdentName { span, sym }.into_tree(alloc)
}

// `object["name"] = value;` is `object.name = value;`.
fn put_property(edits: &mut Edits, statement: Part<'_>) {
    if let Some(MemberExpr { obj, prop, .. }) = assigned(statement)
        && obj.kind() == Kind::Ident
        && prop.kind() == Kind::ComputedPropName
    {
        let ComputedPropName { expr: key, .. } = ComputedPropName::of(prop);
        if let Some(name) = name_in(key) {
            edits.put(prop, name_tree(edits.alloc, range_of(key), name));
        }
    }
}

/// The edits of the statements of a module and of its namespaces.
pub fn put_statements(edits: &mut Edits, program: Part<'_>) {
    let mut waiting = Waiting::new(edits.alloc);
    waiting.push(program);
    for _turn in 0..u64::MAX {
        let Some(next) = waiting.pop() else {
            break;
        };
        match next.kind() {
            Kind::Module
            | Kind::Script
            | Kind::ExportDecl
            | Kind::TsModuleDecl
            | Kind::TsNamespaceDecl
            | Kind::TsModuleBlock
            | Kind::List => waiting.push_parts(next),
            Kind::ExprStmt => put_property(edits, next),
            kind => {
                if holds_statements(kind) {
                    put_variables(edits, next);
                }
            }
        }
    }
    edits.lacks |= waiting.lacks;
}
