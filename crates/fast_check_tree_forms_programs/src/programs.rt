//! A whole file. Each form with its fields by their names.
// Written by forms/write.py from forms/forms.txt.

ghost use Rattle.std.specs.Prelude.{◌≡◌, IfOk};
ghost use Rattle.fast_check_tree_syntax.specs.Part.{seen};
ghost use Rattle.fast_check_tree_forms_programs.specs.Programs.{
  ReadsModule,
  module',
  ReadsScript,
  script,
};

use fast_check_tree_syntax::{Kind, Part, SourceRange, Tree};
use std::alloc::{AllocError, Global};

/// A file with imports or exports: its items, after a line `#!shebang`.
#[derive(Drop)]
pub struct Module<N> {
    pub span: SourceRange,
    /// A list of `ModuleItem`.
    pub body: N,
    /// A text, or absent.
    pub shebang: N,
}

impl<'a> Module<Part<'a>> {
    /// The fields of a node.
    pub fn of(node: Part<'a>) -> Self
        ensures { ReadsModule result (seen node.entry) }
    {
        Module {
            span: node.part(0).range(),
            body: node.part(1),
            shebang: node.part(2),
        }
    }
}

impl Module<Tree> {
    /// The node of these fields.
    pub fn into_tree(self, alloc: Global) -> Result<Tree, AllocError>
        ensures { IfOk result (λ tree. tree ≡ module' self.span self.body self.shebang) }
    {
        let Module {
            span,
            body,
            shebang,
        } = self;
        Tree::node(alloc, Kind::Module, [Tree::Range(span), body, shebang])
    }
}

/// A file without imports and exports: its statements, after a line `#!shebang`.
#[derive(Drop)]
pub struct Script<N> {
    pub span: SourceRange,
    /// A list of `Stmt`.
    pub body: N,
    /// A text, or absent.
    pub shebang: N,
}

impl<'a> Script<Part<'a>> {
    /// The fields of a node.
    pub fn of(node: Part<'a>) -> Self
        ensures { ReadsScript result (seen node.entry) }
    {
        Script {
            span: node.part(0).range(),
            body: node.part(1),
            shebang: node.part(2),
        }
    }
}

impl Script<Tree> {
    /// The node of these fields.
    pub fn into_tree(self, alloc: Global) -> Result<Tree, AllocError>
        ensures { IfOk result (λ tree. tree ≡ script self.span self.body self.shebang) }
    {
        let Script {
            span,
            body,
            shebang,
        } = self;
        Tree::node(alloc, Kind::Script, [Tree::Range(span), body, shebang])
    }
}
