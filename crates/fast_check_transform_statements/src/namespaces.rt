//! The blocks of namespaces, and what is wrong with ambient modules.
ghost use Rattle.std.specs.Prelude.{◌≡◌, IfOk};
ghost use Rattle.fast_check_tree_syntax.specs.Part.{seen};
ghost use Rattle.fast_check_tree_forms_statements.specs.TsDeclarations.{TsModuleDecl-body, TsModuleBlock-body};
ghost use Rattle.fast_check_transform_imports.specs.skeleton.Namespaces.{is_ambient_module, innermost, inner_namespace, body_with, namespace_with};
ghost use Rattle.fast_check_transform_statements.specs.PartAnswers.{module_fault};

use fast_check_meaning_signatures::{Fault, FaultKind};
use fast_check_tree_forms_statements::{TsModuleBlock, TsModuleDecl, TsNamespaceDecl};
use fast_check_tree_helpers::ranges::range_of_node;
use fast_check_tree_syntax::{Items, Kind, Part, Tree};
use std::alloc::{AllocError, Global};

/// Whether a module has a text for its name, as `declare module "x" {}`, or no body.
fn is_ambient_module(decl: Part<'_>) -> bool
    ensures { result ≡ is_ambient_module (seen decl.entry) }
{
    let TsModuleDecl { id, body, .. } = TsModuleDecl::of(decl);
    id.kind() == Kind::Str || body.is_absent()
}

/// What is wrong with a module that no skeleton has, public or not: `declare global`, one with a text for its name, or one
/// without a body. None where it is a namespace.
pub fn module_fault(decl: Part<'_>) -> Option<Fault>
    ensures { result ≡ module_fault (seen decl.entry) }
{
    let TsModuleDecl {
        span,
        global,
        id,
        ..
    } = TsModuleDecl::of(decl);
    if global {
        return Some(Fault {
            kind: FaultKind::UnsupportedGlobalModule,
            range: span,
        });
    }
    if !is_ambient_module(decl) {
        return None;
    }
    Some(Fault {
        kind: FaultKind::UnsupportedAmbientModule,
        range: range_of_node(id),
    })
}

/// The block of what follows the first name of a namespace: that of `A.B.C {}` stands behind all names.
fn innermost(body: Part<'_>) -> Part<'_>
    ensures { seen result ≡ innermost (seen body.entry) }
{
    if body.kind() == Kind::TsNamespaceDecl {
        return innermost(TsNamespaceDecl::of(body).body);
    }
    body
}

/// The list of the items of a namespace, which stand in its innermost block.
pub fn items_inside(decl: Part<'_>) -> Part<'_>
    ensures { seen result ≡ TsModuleBlock-body (innermost (TsModuleDecl-body (seen decl.entry))) }
{
    TsModuleBlock::of(innermost(TsModuleDecl::of(decl).body)).body
}

/// What follows a name of a namespace.
fn inner_namespace(alloc: Global, form: TsNamespaceDecl<Tree>) -> Result<Tree, AllocError>
    ensures { IfOk result (λ tree. tree ≡ inner_namespace form.span form.declare form.global form.id form.body) }
{
    let TsNamespaceDecl {
        span,
        declare,
        global,
        id,
        body,
    } = form;
    Tree::node(
        alloc,
        Kind::TsNamespaceDecl,
        [
            Tree::Range(span),
            Tree::Flag(declare),
            Tree::Flag(global),
            id,
            body,
        ],
    )
}

/// What follows the first name of a namespace, with these items in its block.
fn body_with(alloc: Global, body: Part<'_>, items: Items<Tree>) -> Result<Tree, AllocError>
    ensures { IfOk result (λ tree. tree ≡ body_with items (seen body.entry)) }
{
    if body.kind() == Kind::TsNamespaceDecl {
        let form = TsNamespaceDecl::of(body);
        let body = body_with(alloc, form.body, items)?;
        let made = TsNamespaceDecl {
            span: form.span,
            declare: form.declare,
            global: form.global,
            id: form.id.to_tree(alloc)?,
            body,
        };
        return inner_namespace(alloc, made);
    }
    let made = TsModuleBlock {
        span: TsModuleBlock::of(body).span,
        body: Tree::list(items),
    };
    made.into_tree(alloc)
}

/// A namespace with these items in its innermost block. All else of it stands as it is written.
pub fn namespace_with(alloc: Global, decl: Part<'_>, items: Items<Tree>) -> Result<Tree, AllocError>
    ensures { IfOk result (λ tree. tree ≡ namespace_with items (seen decl.entry)) }
{
    let form = TsModuleDecl::of(decl);
    let body = body_with(alloc, form.body, items)?;
    let made = TsModuleDecl {
        span: form.span,
        declare: form.declare,
        global: form.global,
        namespace: form.namespace,
        id: form.id.to_tree(alloc)?,
        body,
    };
    made.into_tree(alloc)
}
