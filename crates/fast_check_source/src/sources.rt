//! The texts by which a module names others.
use fast_check_source_walks::Waiting;
use fast_check_tree_forms_programs::{
    ExportAll, ExportNamedSpecifier, Ident, ImportDecl, ImportDefaultSpecifier,
    ImportNamedSpecifier, ImportStarAsSpecifier, NamedExport, Str, TsExternalModuleRef,
};
use fast_check_tree_forms_statements::ReturnStmt;
use fast_check_tree_forms_types::TsImportType;
use fast_check_tree_syntax::{Kind, Part};
use std::alloc::{AllocError, Global};
use std::collections::BTreeSet;

/// A text that names a module, and where it stands.
#[derive(Clone, Copy)]
pub struct SourceText<'a> {
    pub text: &'a str,
    pub start: u32,
    /// Where the statement begins that it stands in.
    pub around: u32,
    /// Whether names of the module are exported again.
    pub is_exported: bool,
    /// Whether the module is imported for its effects alone.
    pub is_effect: bool,
}

/// What a module says of others, and of its returns.
#[derive(Drop)]
pub struct Named<'a> {
    pub sources: Vec<SourceText<'a>>,
    /// Whether a body names its return type by the value of its only return. No other returned value is kept.
    pub names_return: bool,
}

// The sources of a module while they are gathered. Where memory runs out one is left out, and they say so.
#[derive(Drop)]
struct Sources<'a> {
    lacks: bool,
    // The names that lists of the module export.
    exported: BTreeSet<&'a str>,
    found: Named<'a>,
}

// The name by which a module calls what an import brings.
fn local_name(specifier: Part<'_>) -> &str {
    let local = match specifier.kind() {
        Kind::ImportNamedSpecifier => ImportNamedSpecifier::of(specifier).local,
        Kind::ImportDefaultSpecifier => ImportDefaultSpecifier::of(specifier).local,
        _ => ImportStarAsSpecifier::of(specifier).local,
    };
    Ident::of(local).sym
}

impl<'a> Sources<'a> {
    fn export(&mut self, specifiers: Part<'a>) {
        for specifier in specifiers.parts() {
            let specifier = specifier.read();
            if specifier.kind() == Kind::ExportNamedSpecifier {
                let name = ExportNamedSpecifier::of(specifier).orig;
                if name.kind() == Kind::Ident
                    && self.exported.insert(Ident::of(name).sym).is_err()
                {
                    self.lacks = true;
                }
            }
        }
    }

    fn push(&mut self, around: Part<'a>, source: Part<'a>, is_exported: bool, is_effect: bool) {
        if source.kind() != Kind::Str {
            return;
        }
        let Str { span, value, .. } = Str::of(source);
        let found = SourceText {
            text: value,
            start: span.start.0,
            around: around.part(0).range().start.0,
            is_exported,
            is_effect,
        };
        if self.found.sources.push(found).is_err() {
            self.lacks = true;
        }
    }

    fn import(&mut self, part: Part<'a>) {
        let ImportDecl {
            specifiers,
            src,
            type_only,
            ..
        } = ImportDecl::of(part);
        let is_effect = !type_only && specifiers.parts().is_empty();
        let mut is_exported = false;
        for specifier in specifiers.parts() {
            let name = local_name(specifier.read());
            is_exported = is_exported || self.exported.contains(&name);
        }
        self.push(part, src, is_exported, is_effect)
    }

    // Notes a returned value that is kept: of one that names no type `this` is.
    fn returned(&mut self, part: Part<'a>) {
        let arg = ReturnStmt::of(part).arg;
        if !arg.is_absent() && arg.kind() != Kind::ThisExpr {
            self.found.names_return = true;
        }
    }

    fn part(&mut self, part: Part<'a>) {
        match part.kind() {
            Kind::ImportDecl => self.import(part),
            Kind::NamedExport => self.push(part, NamedExport::of(part).src, true, false),
            Kind::ExportAll => self.push(part, ExportAll::of(part).src, true, false),
            Kind::TsExternalModuleRef => {
                self.push(part, TsExternalModuleRef::of(part).expr, false, false)
            }
            Kind::TsImportType => self.push(part, TsImportType::of(part).arg, false, false),
            Kind::ReturnStmt => self.returned(part),
            _ => {}
        }
    }
}

/// The texts of a tree, in order, and whether a body names its return type.
pub fn sources_of<'a>(alloc: Global, program: Part<'a>) -> Result<Named<'a>, AllocError> {
    let mut sources = Sources {
        lacks: false,
        exported: BTreeSet::new(alloc),
        found: Named {
            sources: Vec::new(alloc),
            names_return: false,
        },
    };
    for list in program.parts() {
        for item in list.read().parts() {
            if item.read().kind() == Kind::NamedExport {
                sources.export(NamedExport::of(item.read()).specifiers);
            }
        }
    }
    let mut waiting = Waiting::new(alloc);
    waiting.push(program);
    for _turn in 0..u64::MAX {
        let Some(part) = waiting.pop() else {
            break;
        };
        sources.part(part);
        waiting.push_parts(part);
    }
    let Sources { lacks, found, .. } = sources;
    if lacks || waiting.lacks {
        Err(AllocError)
    } else {
        Ok(found)
    }
}
