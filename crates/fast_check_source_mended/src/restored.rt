//! A skeleton by the words of its source.
use crate::edits::{Edits, edited, range_of};
use crate::statements::name_tree;
use fast_check_source_references::keys::STATIC;
use fast_check_source_walks::Waiting;
use fast_check_tree_forms_programs::{ExportAll, IdentName, ImportDecl, NamedExport, Str};
use fast_check_tree_forms_types::TsImportType;
use fast_check_tree_syntax::{Atom, Kind, Part, Tree};
use std::alloc::{AllocError, Global};

// How the program names a module to itself.
const ITSELF: &str = "./";

// Takes the mark of a private static member away.
fn put_name(edits: &mut Edits, part: Part<'_>) {
    let IdentName { span, sym } = IdentName::of(part);
    if let Some(name) = sym.strip_suffix(STATIC) {
        edits.put(part, name_tree(edits.alloc, span, name));
    }
}

// The text by which a module names its own file.
fn own_source(alloc: Global, source: Part<'_>, own: &str) -> Result<Tree, AllocError> {
    let mut text = String::from_str(alloc, ITSELF)?;
    text.push_str(own)?;
    let value = Atom::from_str(alloc, text.as_str())?;
    let raw = Str::of(source).raw.to_tree(alloc)?;
    let span = range_of(source);
    Str { span, value, raw }.into_tree(alloc)
}

// Has the text by which a module names itself say its file.
fn put_source(edits: &mut Edits, source: Part<'_>, own: &str) {
    if !own.is_empty() && source.kind() == Kind::Str && Str::of(source).value == ITSELF {
        edits.put(source, own_source(edits.alloc, source, own));
    }
}

// What a skeleton says by other words than its source.
fn edits_of(alloc: Global, program: Part<'_>, own: &str) -> Edits {
    let mut edits = Edits::new(alloc);
    let mut waiting = Waiting::new(alloc);
    waiting.push(program);
    for _turn in 0..u64::MAX {
        let Some(next) = waiting.pop() else {
            break;
        };
        match next.kind() {
            Kind::IdentName => put_name(&mut edits, next),
            Kind::ImportDecl => put_source(&mut edits, ImportDecl::of(next).src, own),
            Kind::NamedExport => put_source(&mut edits, NamedExport::of(next).src, own),
            Kind::ExportAll => put_source(&mut edits, ExportAll::of(next).src, own),
            Kind::TsImportType => put_source(&mut edits, TsImportType::of(next).arg, own),
            _ => {}
        }
        waiting.push_parts(next);
    }
    edits.lacks |= waiting.lacks;
    edits
}

/// The skeleton of a module without the marks of the module's tree. Where the module names itself, by its file `own`, the skeleton does so by that name too; a module
/// that does not has none.
pub fn restored_skeleton(alloc: Global, program: Tree, own: &str) -> Result<Tree, AllocError> {
    let edits = edits_of(alloc, program.read(), own);
    edited(alloc, program, &edits)
}
