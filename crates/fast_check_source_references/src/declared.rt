//! What items declare, and the names that patterns bind.
ghost use Rattle.std.specs.Prelude.{◌≡◌, ◌↔◌, IsSome};
ghost use Rattle.fast_check_tree_syntax.specs.Part.{seen};
ghost use Rattle.fast_check_tree_syntax.specs.Shape.{kind_of};
ghost use Rattle.fast_check_tree_syntax.specs.declared.kind.Kind.TheVariants as kinds;

use crate::names::id_of;
use fast_check_source_walks::Waiting;
use fast_check_tree_forms_expressions::{AssignPat, AssignPatProp};
use fast_check_tree_forms_programs::{BindingIdent, ExportDecl};
use fast_check_tree_forms_statements::{
    ClassDecl, FnDecl, TsEnumDecl, TsInterfaceDecl, TsModuleDecl, TsTypeAliasDecl, UsingDecl,
    VarDecl, VarDeclarator,
};
use fast_check_tree_syntax::{Id, Kind, Part, SourceRange};
use std::alloc::{AllocError, Global};

/// The names that a pattern, a parameter, a variable or a list of these binds, from the first one on.
#[derive(Drop)]
pub struct BoundNames<'a> {
    waiting: Waiting<Part<'a>>,
}

impl<'a> BoundNames<'a> {
    pub fn of(alloc: Global, pattern: Part<'a>) -> BoundNames<'a> {
        let mut waiting = Waiting::new(alloc);
        waiting.push(pattern);
        BoundNames { waiting }
    }

    /// The next one.
    pub fn next(&mut self) -> Option<Part<'a>> {
        for _turn in 0..u64::MAX {
            let next = self.waiting.pop()?;
            match next.kind() {
                Kind::BindingIdent => return Some(BindingIdent::of(next).id),
                Kind::AssignPat => self.waiting.push(AssignPat::of(next).left),
                Kind::AssignPatProp => self.waiting.push(AssignPatProp::of(next).key),
                Kind::VarDeclarator => self.waiting.push(VarDeclarator::of(next).name),
                Kind::ArrayPat
                | Kind::ObjectPat
                | Kind::RestPat
                | Kind::KeyValuePatProp
                | Kind::Param
                | Kind::TsParamProp
                | Kind::List => self.waiting.push_parts(next),
                _ => {}
            }
        }
        None
    }

    /// Whether memory ran out, so that some are left out.
    pub fn lacks(&self) -> bool {
        self.waiting.lacks
    }
}

/// The variables of a list, if a declaration is one.
pub fn declarators(decl: Part<'_>) -> Option<Part<'_>> {
    match decl.kind() {
        Kind::VarDecl => Some(VarDecl::of(decl).decls),
        Kind::UsingDecl => Some(UsingDecl::of(decl).decls),
        _ => None,
    }
}

/// The name that a declaration has, where it is no list of variables.
pub fn name_of(decl: Part<'_>) -> Option<Part<'_>> {
    match decl.kind() {
        Kind::FnDecl => Some(FnDecl::of(decl).ident),
        Kind::ClassDecl => Some(ClassDecl::of(decl).ident),
        Kind::TsInterfaceDecl => Some(TsInterfaceDecl::of(decl).id),
        Kind::TsTypeAliasDecl => Some(TsTypeAliasDecl::of(decl).id),
        Kind::TsEnumDecl => Some(TsEnumDecl::of(decl).id),
        Kind::TsModuleDecl => Some(TsModuleDecl::of(decl).id),
        _ => None,
    }
}

/// Pushes the names that a pattern, a variable or a list of these binds, with their scopes.
pub fn push_bound(alloc: Global, pattern: Part<'_>, out: &mut Vec<Id>) -> Result<(), AllocError> {
    let mut names = BoundNames::of(alloc, pattern);
    for _turn in 0..u64::MAX {
        let Some(name) = names.next() else {
            break;
        };
        if let Some(id) = id_of(alloc, name)? {
            out.push(id)?;
        }
    }
    if names.lacks() {
        Err(AllocError)
    } else {
        Ok(())
    }
}

/// The names that a declaration declares.
pub fn declared_names(alloc: Global, decl: Part<'_>) -> Result<Vec<Id>, AllocError> {
    let mut names = Vec::new(alloc);
    if let Some(decls) = declarators(decl) {
        push_bound(alloc, decls, &mut names)?;
    } else if let Some(name) = name_of(decl)
        && let Some(id) = id_of(alloc, name)?
    {
        names.push(id)?;
    }
    Ok(names)
}

/// Whether a body says itself what it exports.
pub fn says_exports(items: Part<'_>) -> bool {
    items.parts().iter().any(|item| {
        matches!(
            item.read().kind(),
            Kind::NamedExport | Kind::ExportAll | Kind::TsExportAssignment | Kind::ExportDefaultExpr
        )
    })
}

/// The declaration that an item is, with the range of the export that it stands in.
pub fn declaration_of(item: Part<'_>) -> (Part<'_>, Option<SourceRange>)
    ensures { IsSome result.1 ↔ (kind_of (seen item.entry) ≡ kinds.ExportDecl) }
{
    if item.kind() == Kind::ExportDecl {
        let ExportDecl { span, decl } = ExportDecl::of(item);
        (decl, Some(span))
    } else {
        (item, None)
    }
}

pub fn is_declaration(item: Part<'_>) -> bool {
    matches!(
        item.kind(),
        Kind::VarDecl
            | Kind::UsingDecl
            | Kind::FnDecl
            | Kind::ClassDecl
            | Kind::TsInterfaceDecl
            | Kind::TsTypeAliasDecl
            | Kind::TsEnumDecl
            | Kind::TsModuleDecl
    )
}
