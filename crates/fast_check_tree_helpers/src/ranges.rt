//! The range of a node in the source text, for all forms.

ghost use Rattle.std.specs.Prelude.{◌≡◌};
ghost use Rattle.fast_check_tree_syntax.specs.Part.{seen};
ghost use Rattle.fast_check_tree_helpers.specs.ranges.Ranges.{range_of_node, without_marks, without_target};

use fast_check_tree_forms_classes::{Class, Function};
use fast_check_tree_forms_expressions::{ClassExpr, FnExpr, PatExpr, TargetPat};
use fast_check_tree_forms_programs::{BindingIdent, ExportDefaultSpecifier, Ident};
use fast_check_tree_forms_statements::{ClassDecl, FnDecl};
use fast_check_tree_syntax::{Kind, Part, SourceRange};

/// The range of a node in the source text: its span. A class declaration or expression has that of its class, a function declaration or
/// expression that of its function, and an identifier as a pattern and a default export specifier that of the identifier. A spread has
/// its dots' range, and any other node without a span `DUMMY_SP`.
pub fn range_of_node(part: Part<'_>) -> SourceRange
    ensures { result ≡ range_of_node (seen part.entry) }
{
    let node = without_marks(part);
    match node.kind() {
        Kind::ClassDecl => Class::of(ClassDecl::of(node).class).span,
        Kind::ClassExpr => Class::of(ClassExpr::of(node).class).span,
        Kind::FnDecl => Function::of(FnDecl::of(node).function).span,
        Kind::FnExpr => Function::of(FnExpr::of(node).function).span,
        Kind::BindingIdent => Ident::of(BindingIdent::of(node).id).span,
        Kind::ExportDefaultSpecifier => Ident::of(ExportDefaultSpecifier::of(node).exported).span,
        _ => node.part(0).range(),
    }
}

/// The node itself, where a `TargetPat` or a `PatExpr` marks it as a pattern.
fn without_marks(part: Part<'_>) -> Part<'_>
    ensures { seen result ≡ without_marks (seen part.entry) }
{
    let pattern = without_target(part);
    match pattern.kind() {
        Kind::PatExpr => PatExpr::of(pattern).expr,
        _ => pattern,
    }
}

/// The pattern, where a `TargetPat` marks it.
fn without_target(part: Part<'_>) -> Part<'_>
    ensures { seen result ≡ without_target (seen part.entry) }
{
    match part.kind() {
        Kind::TargetPat => TargetPat::of(part).pat,
        _ => part,
    }
}
