//! The leaves of a tree: names and numbers, behind which a comment may stand, and texts in which none does.
use fast_check_tree_forms_expressions::{
    JSXElement, JSXFragment, MetaPropExpr, TplElement, TsConstAssertion,
};
use fast_check_tree_forms_programs::{BigInt, Ident, IdentName, Number, PrivateName, Regex, Str};
use fast_check_tree_syntax::{Kind, Part, SourceRange};
use std::alloc::AllocError;

/// A leaf of the tree, from its first byte to the place past its last one.
#[derive(Clone, Copy, PartialEq, Eq)]
pub struct Leaf {
    pub start: usize,
    pub end: usize,
    /// Whether its text may look like a comment, or hold something that does.
    pub is_opaque: bool,
}

fn place(position: u32) -> usize {
    (position as usize).saturating_sub(1)
}

fn of_range(span: SourceRange, is_opaque: bool) -> Leaf {
    Leaf {
        start: place(span.start.0),
        end: place(span.end.0),
        is_opaque,
    }
}

// A name, whose range may take in more than it, as in an index signature.
fn name(span: SourceRange, text: &str) -> Leaf {
    let start = place(span.start.0);
    let own = start.saturating_add(text.len());
    let end = place(span.end.0);
    Leaf {
        start,
        end: if own < end { own } else { end },
        is_opaque: false,
    }
}

// A text of a template, with its delimiters.
fn template_text(element: TplElement<Part<'_>, &str>) -> Leaf {
    let last: usize = if element.tail { 1 } else { 2 };
    Leaf {
        start: place(element.span.start.0).saturating_sub(1),
        end: place(element.span.end.0).saturating_add(last),
        is_opaque: true,
    }
}

// The leaf that a node is, if it is one.
fn leaf_of(part: Part<'_>) -> Option<Leaf> {
    match part.kind() {
        Kind::Ident => {
            let Ident { span, sym, .. } = Ident::of(part);
            Some(name(span, sym))
        }
        Kind::IdentName => {
            let IdentName { span, sym } = IdentName::of(part);
            Some(name(span, sym))
        }
        Kind::PrivateName => Some(of_range(PrivateName::of(part).span, false)),
        Kind::Number => Some(of_range(Number::of(part).span, false)),
        Kind::BigInt => Some(of_range(BigInt::of(part).span, false)),
        Kind::MetaPropExpr => Some(of_range(MetaPropExpr::of(part).span, false)),
        Kind::Str => Some(of_range(Str::of(part).span, true)),
        Kind::Regex => Some(of_range(Regex::of(part).span, true)),
        Kind::JSXElement => Some(of_range(JSXElement::of(part).span, true)),
        Kind::JSXFragment => Some(of_range(JSXFragment::of(part).span, true)),
        Kind::TplElement => Some(template_text(TplElement::of(part))),
        _ => None,
    }
}

/// Pushes the leaves of a tree.
#[cycle(leaves)]
pub fn push_leaves(part: Part<'_>, out: &mut Vec<Leaf>) -> Result<(), AllocError> {
    if let Some(leaf) = leaf_of(part) {
        out.push(leaf)?;
    }
    if part.kind() == Kind::TsConstAssertion {
        let end = place(TsConstAssertion::of(part).span.end.0);
        out.push(Leaf {
            start: end,
            end,
            is_opaque: false,
        })?;
    }
    push_each(part, out)
}

/// Pushes those of the parts of a tree.
#[cycle(leaves)]
fn push_each(part: Part<'_>, out: &mut Vec<Leaf>) -> Result<(), AllocError> {
    for inner in part.parts() {
        push_leaves(inner.read(), out)?;
    }
    Ok(())
}
