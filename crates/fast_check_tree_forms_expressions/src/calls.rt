//! Members and calls. Each form with its fields by their names.
// Written by forms/write.py from forms/forms.txt.

ghost use Rattle.std.specs.Prelude.{◌≡◌, IfOk};
ghost use Rattle.fast_check_tree_syntax.specs.Part.{seen};
ghost use Rattle.fast_check_tree_forms_expressions.specs.Calls.{
  ReadsMemberExpr,
  member_expr,
  ReadsSuperPropExpr,
  super_prop_expr,
  ReadsCallExpr,
  call_expr,
  ReadsSuper,
  super,
  ReadsImport,
  import,
  ReadsNewExpr,
  new_expr,
  ReadsOptChainExpr,
  opt_chain_expr,
  ReadsOptCall,
  opt_call,
};

use fast_check_tree_syntax::{Atom, Kind, Part, SourceRange, SyntaxContext, Tree};
use std::alloc::{AllocError, Global};

/// `obj.prop`, `obj.#prop` or `obj[prop]`.
#[derive(Drop)]
pub struct MemberExpr<N> {
    pub span: SourceRange,
    /// An `Expr`.
    pub obj: N,
    /// A `MemberProp`.
    pub prop: N,
}

impl<'a> MemberExpr<Part<'a>> {
    /// The fields of a node.
    pub fn of(node: Part<'a>) -> Self
        ensures { ReadsMemberExpr result (seen node.entry) }
    {
        MemberExpr {
            span: node.part(0).range(),
            obj: node.part(1),
            prop: node.part(2),
        }
    }
}

impl MemberExpr<Tree> {
    /// The node of these fields.
    pub fn into_tree(self, alloc: Global) -> Result<Tree, AllocError>
        ensures { IfOk result (λ tree. tree ≡ member_expr self.span self.obj self.prop) }
    {
        let MemberExpr { span, obj, prop } = self;
        Tree::node(alloc, Kind::MemberExpr, [Tree::Range(span), obj, prop])
    }
}

/// `super.prop` or `super[prop]`.
#[derive(Drop)]
pub struct SuperPropExpr<N> {
    pub span: SourceRange,
    /// A `MemberProp`.
    pub prop: N,
}

impl<'a> SuperPropExpr<Part<'a>> {
    /// The fields of a node.
    pub fn of(node: Part<'a>) -> Self
        ensures { ReadsSuperPropExpr result (seen node.entry) }
    {
        SuperPropExpr {
            span: node.part(0).range(),
            prop: node.part(1),
        }
    }
}

impl SuperPropExpr<Tree> {
    /// The node of these fields.
    pub fn into_tree(self, alloc: Global) -> Result<Tree, AllocError>
        ensures { IfOk result (λ tree. tree ≡ super_prop_expr self.span self.prop) }
    {
        let SuperPropExpr { span, prop } = self;
        Tree::node(alloc, Kind::SuperPropExpr, [Tree::Range(span), prop])
    }
}

/// `callee<type_args>(args)`.
#[derive(Drop)]
pub struct CallExpr<N> {
    pub span: SourceRange,
    pub ctxt: SyntaxContext,
    /// A `Callee`.
    pub callee: N,
    /// A list of `ExprOrSpread`.
    pub args: N,
    /// A `TsTypeParamInstantiation`, or absent.
    pub type_args: N,
}

impl<'a> CallExpr<Part<'a>> {
    /// The fields of a node.
    pub fn of(node: Part<'a>) -> Self
        ensures { ReadsCallExpr result (seen node.entry) }
    {
        CallExpr {
            span: node.part(0).range(),
            ctxt: node.part(1).context(),
            callee: node.part(2),
            args: node.part(3),
            type_args: node.part(4),
        }
    }
}

impl CallExpr<Tree> {
    /// The node of these fields.
    pub fn into_tree(self, alloc: Global) -> Result<Tree, AllocError>
        ensures { IfOk result (λ tree. tree ≡
            call_expr self.span self.ctxt self.callee self.args self.type_args) }
    {
        let CallExpr {
            span,
            ctxt,
            callee,
            args,
            type_args,
        } = self;
        Tree::node(
            alloc,
            Kind::CallExpr,
            [
                Tree::Range(span),
                Tree::Context(ctxt),
                callee,
                args,
                type_args,
            ],
        )
    }
}

/// `super`, as what is called.
#[derive(Drop)]
pub struct Super {
    pub span: SourceRange,
}

impl Super {
    /// The fields of a node.
    pub fn of(node: Part<'_>) -> Self
        ensures { ReadsSuper result (seen node.entry) }
    {
        Super {
            span: node.part(0).range(),
        }
    }

    /// The node of these fields.
    pub fn into_tree(self, alloc: Global) -> Result<Tree, AllocError>
        ensures { IfOk result (λ tree. tree ≡ super self.span) }
    {
        let Super { span } = self;
        Tree::node(alloc, Kind::Super, [Tree::Range(span)])
    }
}

/// `import`, as what is called.
#[derive(Drop)]
pub struct Import<T> {
    pub span: SourceRange,
    /// The phase as a text, as `source` or `defer`.
    pub phase: T,
}

impl<'a> Import<&'a str> {
    /// The fields of a node.
    pub fn of(node: Part<'a>) -> Self
        ensures { ReadsImport result (seen node.entry) }
    {
        Import {
            span: node.part(0).range(),
            phase: node.part(1).text(),
        }
    }
}

impl Import<Atom> {
    /// The node of these fields.
    pub fn into_tree(self, alloc: Global) -> Result<Tree, AllocError>
        ensures { IfOk result (λ tree. tree ≡ import self.span self.phase) }
    {
        let Import { span, phase } = self;
        Tree::node(alloc, Kind::Import, [Tree::Range(span), Tree::Text(phase)])
    }
}

/// `new callee<type_args>(args)`.
#[derive(Drop)]
pub struct NewExpr<N> {
    pub span: SourceRange,
    pub ctxt: SyntaxContext,
    /// An `Expr`.
    pub callee: N,
    /// A list of `ExprOrSpread`, or absent where no parentheses stand.
    pub args: N,
    /// A `TsTypeParamInstantiation`, or absent.
    pub type_args: N,
}

impl<'a> NewExpr<Part<'a>> {
    /// The fields of a node.
    pub fn of(node: Part<'a>) -> Self
        ensures { ReadsNewExpr result (seen node.entry) }
    {
        NewExpr {
            span: node.part(0).range(),
            ctxt: node.part(1).context(),
            callee: node.part(2),
            args: node.part(3),
            type_args: node.part(4),
        }
    }
}

impl NewExpr<Tree> {
    /// The node of these fields.
    pub fn into_tree(self, alloc: Global) -> Result<Tree, AllocError>
        ensures { IfOk result (λ tree. tree ≡
            new_expr self.span self.ctxt self.callee self.args self.type_args) }
    {
        let NewExpr {
            span,
            ctxt,
            callee,
            args,
            type_args,
        } = self;
        Tree::node(
            alloc,
            Kind::NewExpr,
            [
                Tree::Range(span),
                Tree::Context(ctxt),
                callee,
                args,
                type_args,
            ],
        )
    }
}

/// `base` with a `?.` in it, as `a?.b` or `a?.b()`.
#[derive(Drop)]
pub struct OptChainExpr<N> {
    pub span: SourceRange,
    /// Whether the `?.` stands at this very member or call.
    pub optional: bool,
    /// An `OptChainBase`.
    pub base: N,
}

impl<'a> OptChainExpr<Part<'a>> {
    /// The fields of a node.
    pub fn of(node: Part<'a>) -> Self
        ensures { ReadsOptChainExpr result (seen node.entry) }
    {
        OptChainExpr {
            span: node.part(0).range(),
            optional: node.part(1).flag(),
            base: node.part(2),
        }
    }
}

impl OptChainExpr<Tree> {
    /// The node of these fields.
    pub fn into_tree(self, alloc: Global) -> Result<Tree, AllocError>
        ensures { IfOk result (λ tree. tree ≡ opt_chain_expr self.span self.optional self.base) }
    {
        let OptChainExpr {
            span,
            optional,
            base,
        } = self;
        Tree::node(
            alloc,
            Kind::OptChainExpr,
            [Tree::Range(span), Tree::Flag(optional), base],
        )
    }
}

/// A call in an optional chain: `callee?.<type_args>(args)`.
#[derive(Drop)]
pub struct OptCall<N> {
    pub span: SourceRange,
    pub ctxt: SyntaxContext,
    /// A `Callee`.
    pub callee: N,
    /// A list of `ExprOrSpread`.
    pub args: N,
    /// A `TsTypeParamInstantiation`, or absent.
    pub type_args: N,
}

impl<'a> OptCall<Part<'a>> {
    /// The fields of a node.
    pub fn of(node: Part<'a>) -> Self
        ensures { ReadsOptCall result (seen node.entry) }
    {
        OptCall {
            span: node.part(0).range(),
            ctxt: node.part(1).context(),
            callee: node.part(2),
            args: node.part(3),
            type_args: node.part(4),
        }
    }
}

impl OptCall<Tree> {
    /// The node of these fields.
    pub fn into_tree(self, alloc: Global) -> Result<Tree, AllocError>
        ensures { IfOk result (λ tree. tree ≡
            opt_call self.span self.ctxt self.callee self.args self.type_args) }
    {
        let OptCall {
            span,
            ctxt,
            callee,
            args,
            type_args,
        } = self;
        Tree::node(
            alloc,
            Kind::OptCall,
            [
                Tree::Range(span),
                Tree::Context(ctxt),
                callee,
                args,
                type_args,
            ],
        )
    }
}
