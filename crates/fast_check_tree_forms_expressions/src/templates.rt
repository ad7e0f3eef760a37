//! Templates. Each form with its fields by their names.
// Written by forms/write.py from forms/forms.txt.

ghost use Rattle.std.specs.Prelude.{◌≡◌, IfOk};
ghost use Rattle.fast_check_tree_syntax.specs.Part.{seen};
ghost use Rattle.fast_check_tree_forms_expressions.specs.Templates.{
  ReadsTpl,
  tpl,
  ReadsTplElement,
  tpl_element,
  ReadsTaggedTpl,
  tagged_tpl,
};

use fast_check_tree_syntax::{Atom, Kind, Part, SourceRange, SyntaxContext, Tree};
use std::alloc::{AllocError, Global};

/// A template, its substitutions `exprs` between its texts `quasis`.
#[derive(Drop)]
pub struct Tpl<N> {
    pub span: SourceRange,
    /// A list of `Expr`.
    pub exprs: N,
    /// A list of `TplElement`, one more than `exprs`.
    pub quasis: N,
}

impl<'a> Tpl<Part<'a>> {
    /// The fields of a node.
    pub fn of(node: Part<'a>) -> Self
        ensures { ReadsTpl result (seen node.entry) }
    {
        Tpl {
            span: node.part(0).range(),
            exprs: node.part(1),
            quasis: node.part(2),
        }
    }
}

impl Tpl<Tree> {
    /// The node of these fields.
    pub fn into_tree(self, alloc: Global) -> Result<Tree, AllocError>
        ensures { IfOk result (λ tree. tree ≡ tpl self.span self.exprs self.quasis) }
    {
        let Tpl {
            span,
            exprs,
            quasis,
        } = self;
        Tree::node(alloc, Kind::Tpl, [Tree::Range(span), exprs, quasis])
    }
}

/// A text of a template.
#[derive(Drop)]
pub struct TplElement<N, T> {
    pub span: SourceRange,
    /// Whether it is the last one.
    pub tail: bool,
    /// The text that it means, or absent where it means none.
    pub cooked: N,
    /// The text as it is written.
    pub raw: T,
}

impl<'a> TplElement<Part<'a>, &'a str> {
    /// The fields of a node.
    pub fn of(node: Part<'a>) -> Self
        ensures { ReadsTplElement result (seen node.entry) }
    {
        TplElement {
            span: node.part(0).range(),
            tail: node.part(1).flag(),
            cooked: node.part(2),
            raw: node.part(3).text(),
        }
    }
}

impl TplElement<Tree, Atom> {
    /// The node of these fields.
    pub fn into_tree(self, alloc: Global) -> Result<Tree, AllocError>
        ensures { IfOk result (λ tree. tree ≡
            tpl_element self.span self.tail self.cooked self.raw) }
    {
        let TplElement {
            span,
            tail,
            cooked,
            raw,
        } = self;
        Tree::node(
            alloc,
            Kind::TplElement,
            [Tree::Range(span), Tree::Flag(tail), cooked, Tree::Text(raw)],
        )
    }
}

/// A template behind a function: `tag<type_params>tpl`.
#[derive(Drop)]
pub struct TaggedTpl<N> {
    pub span: SourceRange,
    pub ctxt: SyntaxContext,
    /// An `Expr`.
    pub tag: N,
    /// A `TsTypeParamInstantiation`, or absent.
    pub type_params: N,
    /// A `Tpl`.
    pub tpl: N,
}

impl<'a> TaggedTpl<Part<'a>> {
    /// The fields of a node.
    pub fn of(node: Part<'a>) -> Self
        ensures { ReadsTaggedTpl result (seen node.entry) }
    {
        TaggedTpl {
            span: node.part(0).range(),
            ctxt: node.part(1).context(),
            tag: node.part(2),
            type_params: node.part(3),
            tpl: node.part(4),
        }
    }
}

impl TaggedTpl<Tree> {
    /// The node of these fields.
    pub fn into_tree(self, alloc: Global) -> Result<Tree, AllocError>
        ensures { IfOk result (λ tree. tree ≡
            tagged_tpl self.span self.ctxt self.tag self.type_params self.tpl) }
    {
        let TaggedTpl {
            span,
            ctxt,
            tag,
            type_params,
            tpl,
        } = self;
        Tree::node(
            alloc,
            Kind::TaggedTpl,
            [
                Tree::Range(span),
                Tree::Context(ctxt),
                tag,
                type_params,
                tpl,
            ],
        )
    }
}
