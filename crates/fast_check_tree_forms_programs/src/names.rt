//! Names. Each form with its fields by their names.
// Written by forms/write.py from forms/forms.txt.

ghost use Rattle.std.specs.Prelude.{◌≡◌, IfOk};
ghost use Rattle.fast_check_tree_syntax.specs.Part.{seen};
ghost use Rattle.fast_check_tree_forms_programs.specs.Names.{
  ReadsIdent,
  ident,
  ReadsIdentName,
  ident_name,
  ReadsBindingIdent,
  binding_ident,
  ReadsPrivateName,
  private_name,
};

use fast_check_tree_syntax::{Atom, Kind, Part, SourceRange, SyntaxContext, Tree};
use std::alloc::{AllocError, Global};

/// An identifier: `sym`. As a parameter that may be left out, `sym?`.
#[derive(Drop)]
pub struct Ident<T> {
    pub span: SourceRange,
    /// The scope that the name is resolved in.
    pub ctxt: SyntaxContext,
    pub sym: T,
    /// Whether a `?` stands behind it.
    pub optional: bool,
}

impl<'a> Ident<&'a str> {
    /// The fields of a node.
    pub fn of(node: Part<'a>) -> Self
        ensures { ReadsIdent result (seen node.entry) }
    {
        Ident {
            span: node.part(0).range(),
            ctxt: node.part(1).context(),
            sym: node.part(2).text(),
            optional: node.part(3).flag(),
        }
    }
}

impl Ident<Atom> {
    /// The node of these fields.
    pub fn into_tree(self, alloc: Global) -> Result<Tree, AllocError>
        ensures { IfOk result (λ tree. tree ≡ ident self.span self.ctxt self.sym self.optional) }
    {
        let Ident {
            span,
            ctxt,
            sym,
            optional,
        } = self;
        Tree::node(
            alloc,
            Kind::Ident,
            [
                Tree::Range(span),
                Tree::Context(ctxt),
                Tree::Text(sym),
                Tree::Flag(optional),
            ],
        )
    }
}

/// A name that is not resolved, as `b` in `a.b`: `sym`.
#[derive(Drop)]
pub struct IdentName<T> {
    pub span: SourceRange,
    pub sym: T,
}

impl<'a> IdentName<&'a str> {
    /// The fields of a node.
    pub fn of(node: Part<'a>) -> Self
        ensures { ReadsIdentName result (seen node.entry) }
    {
        IdentName {
            span: node.part(0).range(),
            sym: node.part(1).text(),
        }
    }
}

impl IdentName<Atom> {
    /// The node of these fields.
    pub fn into_tree(self, alloc: Global) -> Result<Tree, AllocError>
        ensures { IfOk result (λ tree. tree ≡ ident_name self.span self.sym) }
    {
        let IdentName { span, sym } = self;
        Tree::node(alloc, Kind::IdentName, [Tree::Range(span), Tree::Text(sym)])
    }
}

/// An identifier as a pattern: `id: type_ann`.
#[derive(Drop)]
pub struct BindingIdent<N> {
    /// An `Ident`.
    pub id: N,
    /// A `TsTypeAnn`, or absent.
    pub type_ann: N,
}

impl<'a> BindingIdent<Part<'a>> {
    /// The fields of a node.
    pub fn of(node: Part<'a>) -> Self
        ensures { ReadsBindingIdent result (seen node.entry) }
    {
        BindingIdent {
            id: node.part(0),
            type_ann: node.part(1),
        }
    }
}

impl BindingIdent<Tree> {
    /// The node of these fields.
    pub fn into_tree(self, alloc: Global) -> Result<Tree, AllocError>
        ensures { IfOk result (λ tree. tree ≡ binding_ident self.id self.type_ann) }
    {
        let BindingIdent { id, type_ann } = self;
        Tree::node(alloc, Kind::BindingIdent, [id, type_ann])
    }
}

/// A hash name: `#name`.
#[derive(Drop)]
pub struct PrivateName<T> {
    pub span: SourceRange,
    /// The text behind the `#`.
    pub name: T,
}

impl<'a> PrivateName<&'a str> {
    /// The fields of a node.
    pub fn of(node: Part<'a>) -> Self
        ensures { ReadsPrivateName result (seen node.entry) }
    {
        PrivateName {
            span: node.part(0).range(),
            name: node.part(1).text(),
        }
    }
}

impl PrivateName<Atom> {
    /// The node of these fields.
    pub fn into_tree(self, alloc: Global) -> Result<Tree, AllocError>
        ensures { IfOk result (λ tree. tree ≡ private_name self.span self.name) }
    {
        let PrivateName { span, name } = self;
        Tree::node(
            alloc,
            Kind::PrivateName,
            [Tree::Range(span), Tree::Text(name)],
        )
    }
}
