//! Literals. Each form with its fields by their names.
// Written by forms/write.py from forms/forms.txt.

ghost use Rattle.std.specs.Prelude.{◌≡◌, IfOk};
ghost use Rattle.fast_check_tree_syntax.specs.Part.{seen};
ghost use Rattle.fast_check_tree_forms_programs.specs.Literals.{
  ReadsStr,
  str,
  ReadsBool,
  bool,
  ReadsNull,
  null,
  ReadsNumber,
  number,
  ReadsBigInt,
  big_int,
  ReadsRegex,
  regex,
  ReadsJSXText,
  jsx_text,
};

use fast_check_tree_syntax::{Atom, Kind, Part, SourceRange, Tree};
use std::alloc::{AllocError, Global};

/// A string: `"value"`.
#[derive(Drop)]
pub struct Str<N, T> {
    pub span: SourceRange,
    /// The text that the string means.
    pub value: T,
    /// The text as it is written, with its quotes, or absent.
    pub raw: N,
}

impl<'a> Str<Part<'a>, &'a str> {
    /// The fields of a node.
    pub fn of(node: Part<'a>) -> Self
        ensures { ReadsStr result (seen node.entry) }
    {
        Str {
            span: node.part(0).range(),
            value: node.part(1).text(),
            raw: node.part(2),
        }
    }
}

impl Str<Tree, Atom> {
    /// The node of these fields.
    pub fn into_tree(self, alloc: Global) -> Result<Tree, AllocError>
        ensures { IfOk result (λ tree. tree ≡ str self.span self.value self.raw) }
    {
        let Str { span, value, raw } = self;
        Tree::node(
            alloc,
            Kind::Str,
            [Tree::Range(span), Tree::Text(value), raw],
        )
    }
}

/// `true` or `false`.
#[derive(Drop)]
pub struct Bool {
    pub span: SourceRange,
    pub value: bool,
}

impl Bool {
    /// The fields of a node.
    pub fn of(node: Part<'_>) -> Self
        ensures { ReadsBool result (seen node.entry) }
    {
        Bool {
            span: node.part(0).range(),
            value: node.part(1).flag(),
        }
    }

    /// The node of these fields.
    pub fn into_tree(self, alloc: Global) -> Result<Tree, AllocError>
        ensures { IfOk result (λ tree. tree ≡ bool self.span self.value) }
    {
        let Bool { span, value } = self;
        Tree::node(alloc, Kind::Bool, [Tree::Range(span), Tree::Flag(value)])
    }
}

/// `null`.
#[derive(Drop)]
pub struct Null {
    pub span: SourceRange,
}

impl Null {
    /// The fields of a node.
    pub fn of(node: Part<'_>) -> Self
        ensures { ReadsNull result (seen node.entry) }
    {
        Null {
            span: node.part(0).range(),
        }
    }

    /// The node of these fields.
    pub fn into_tree(self, alloc: Global) -> Result<Tree, AllocError>
        ensures { IfOk result (λ tree. tree ≡ null self.span) }
    {
        let Null { span } = self;
        Tree::node(alloc, Kind::Null, [Tree::Range(span)])
    }
}

/// A number, as `1` or `0x10`.
#[derive(Drop)]
pub struct Number<T> {
    pub span: SourceRange,
    /// The number as it is written.
    pub raw: T,
}

impl<'a> Number<&'a str> {
    /// The fields of a node.
    pub fn of(node: Part<'a>) -> Self
        ensures { ReadsNumber result (seen node.entry) }
    {
        Number {
            span: node.part(0).range(),
            raw: node.part(1).text(),
        }
    }
}

impl Number<Atom> {
    /// The node of these fields.
    pub fn into_tree(self, alloc: Global) -> Result<Tree, AllocError>
        ensures { IfOk result (λ tree. tree ≡ number self.span self.raw) }
    {
        let Number { span, raw } = self;
        Tree::node(alloc, Kind::Number, [Tree::Range(span), Tree::Text(raw)])
    }
}

/// A big integer, as `1n`.
#[derive(Drop)]
pub struct BigInt<T> {
    pub span: SourceRange,
    /// The number as it is written.
    pub raw: T,
}

impl<'a> BigInt<&'a str> {
    /// The fields of a node.
    pub fn of(node: Part<'a>) -> Self
        ensures { ReadsBigInt result (seen node.entry) }
    {
        BigInt {
            span: node.part(0).range(),
            raw: node.part(1).text(),
        }
    }
}

impl BigInt<Atom> {
    /// The node of these fields.
    pub fn into_tree(self, alloc: Global) -> Result<Tree, AllocError>
        ensures { IfOk result (λ tree. tree ≡ big_int self.span self.raw) }
    {
        let BigInt { span, raw } = self;
        Tree::node(alloc, Kind::BigInt, [Tree::Range(span), Tree::Text(raw)])
    }
}

/// A regular expression: `/exp/flags`.
#[derive(Drop)]
pub struct Regex<T> {
    pub span: SourceRange,
    pub exp: T,
    pub flags: T,
}

impl<'a> Regex<&'a str> {
    /// The fields of a node.
    pub fn of(node: Part<'a>) -> Self
        ensures { ReadsRegex result (seen node.entry) }
    {
        Regex {
            span: node.part(0).range(),
            exp: node.part(1).text(),
            flags: node.part(2).text(),
        }
    }
}

impl Regex<Atom> {
    /// The node of these fields.
    pub fn into_tree(self, alloc: Global) -> Result<Tree, AllocError>
        ensures { IfOk result (λ tree. tree ≡ regex self.span self.exp self.flags) }
    {
        let Regex { span, exp, flags } = self;
        Tree::node(
            alloc,
            Kind::Regex,
            [Tree::Range(span), Tree::Text(exp), Tree::Text(flags)],
        )
    }
}

/// The text between JSX tags.
#[derive(Drop)]
pub struct JSXText<T> {
    pub span: SourceRange,
    /// The text as it is written.
    pub raw: T,
}

impl<'a> JSXText<&'a str> {
    /// The fields of a node.
    pub fn of(node: Part<'a>) -> Self
        ensures { ReadsJSXText result (seen node.entry) }
    {
        JSXText {
            span: node.part(0).range(),
            raw: node.part(1).text(),
        }
    }
}

impl JSXText<Atom> {
    /// The node of these fields.
    pub fn into_tree(self, alloc: Global) -> Result<Tree, AllocError>
        ensures { IfOk result (λ tree. tree ≡ jsx_text self.span self.raw) }
    {
        let JSXText { span, raw } = self;
        Tree::node(alloc, Kind::JSXText, [Tree::Range(span), Tree::Text(raw)])
    }
}
