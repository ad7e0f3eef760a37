//! JSX, held as it is written. Each form with its fields by their names.
// Written by forms/write.py from forms/forms.txt.

ghost use Rattle.std.specs.Prelude.{◌≡◌, IfOk};
ghost use Rattle.fast_check_tree_syntax.specs.Part.{seen};
ghost use Rattle.fast_check_tree_forms_expressions.specs.Jsx.{
  ReadsJSXMember,
  jsx_member,
  ReadsJSXNamespacedName,
  jsx_namespaced_name,
  ReadsJSXEmpty,
  jsx_empty,
  ReadsJSXElement,
  jsx_element,
  ReadsJSXFragment,
  jsx_fragment,
};

use fast_check_tree_syntax::{Atom, Kind, Part, SourceRange, Tree};
use std::alloc::{AllocError, Global};

/// `a.b` as the name of a JSX tag.
#[derive(Drop)]
pub struct JSXMember<T> {
    pub span: SourceRange,
    /// The text as it is written.
    pub raw: T,
}

impl<'a> JSXMember<&'a str> {
    /// The fields of a node.
    pub fn of(node: Part<'a>) -> Self
        ensures { ReadsJSXMember result (seen node.entry) }
    {
        JSXMember {
            span: node.part(0).range(),
            raw: node.part(1).text(),
        }
    }
}

impl JSXMember<Atom> {
    /// The node of these fields.
    pub fn into_tree(self, alloc: Global) -> Result<Tree, AllocError>
        ensures { IfOk result (λ tree. tree ≡ jsx_member self.span self.raw) }
    {
        let JSXMember { span, raw } = self;
        Tree::node(alloc, Kind::JSXMember, [Tree::Range(span), Tree::Text(raw)])
    }
}

/// `a:b` as a name in JSX.
#[derive(Drop)]
pub struct JSXNamespacedName<T> {
    pub span: SourceRange,
    /// The text as it is written.
    pub raw: T,
}

impl<'a> JSXNamespacedName<&'a str> {
    /// The fields of a node.
    pub fn of(node: Part<'a>) -> Self
        ensures { ReadsJSXNamespacedName result (seen node.entry) }
    {
        JSXNamespacedName {
            span: node.part(0).range(),
            raw: node.part(1).text(),
        }
    }
}

impl JSXNamespacedName<Atom> {
    /// The node of these fields.
    pub fn into_tree(self, alloc: Global) -> Result<Tree, AllocError>
        ensures { IfOk result (λ tree. tree ≡ jsx_namespaced_name self.span self.raw) }
    {
        let JSXNamespacedName { span, raw } = self;
        Tree::node(
            alloc,
            Kind::JSXNamespacedName,
            [Tree::Range(span), Tree::Text(raw)],
        )
    }
}

/// What stands between the braces of `{}` in JSX.
#[derive(Drop)]
pub struct JSXEmpty<T> {
    pub span: SourceRange,
    /// The text as it is written.
    pub raw: T,
}

impl<'a> JSXEmpty<&'a str> {
    /// The fields of a node.
    pub fn of(node: Part<'a>) -> Self
        ensures { ReadsJSXEmpty result (seen node.entry) }
    {
        JSXEmpty {
            span: node.part(0).range(),
            raw: node.part(1).text(),
        }
    }
}

impl JSXEmpty<Atom> {
    /// The node of these fields.
    pub fn into_tree(self, alloc: Global) -> Result<Tree, AllocError>
        ensures { IfOk result (λ tree. tree ≡ jsx_empty self.span self.raw) }
    {
        let JSXEmpty { span, raw } = self;
        Tree::node(alloc, Kind::JSXEmpty, [Tree::Range(span), Tree::Text(raw)])
    }
}

/// `<a>..</a>` or `<a />`.
#[derive(Drop)]
pub struct JSXElement<T> {
    pub span: SourceRange,
    /// The text as it is written.
    pub raw: T,
}

impl<'a> JSXElement<&'a str> {
    /// The fields of a node.
    pub fn of(node: Part<'a>) -> Self
        ensures { ReadsJSXElement result (seen node.entry) }
    {
        JSXElement {
            span: node.part(0).range(),
            raw: node.part(1).text(),
        }
    }
}

impl JSXElement<Atom> {
    /// The node of these fields.
    pub fn into_tree(self, alloc: Global) -> Result<Tree, AllocError>
        ensures { IfOk result (λ tree. tree ≡ jsx_element self.span self.raw) }
    {
        let JSXElement { span, raw } = self;
        Tree::node(
            alloc,
            Kind::JSXElement,
            [Tree::Range(span), Tree::Text(raw)],
        )
    }
}

/// `<>..</>`.
#[derive(Drop)]
pub struct JSXFragment<T> {
    pub span: SourceRange,
    /// The text as it is written.
    pub raw: T,
}

impl<'a> JSXFragment<&'a str> {
    /// The fields of a node.
    pub fn of(node: Part<'a>) -> Self
        ensures { ReadsJSXFragment result (seen node.entry) }
    {
        JSXFragment {
            span: node.part(0).range(),
            raw: node.part(1).text(),
        }
    }
}

impl JSXFragment<Atom> {
    /// The node of these fields.
    pub fn into_tree(self, alloc: Global) -> Result<Tree, AllocError>
        ensures { IfOk result (λ tree. tree ≡ jsx_fragment self.span self.raw) }
    {
        let JSXFragment { span, raw } = self;
        Tree::node(
            alloc,
            Kind::JSXFragment,
            [Tree::Range(span), Tree::Text(raw)],
        )
    }
}
