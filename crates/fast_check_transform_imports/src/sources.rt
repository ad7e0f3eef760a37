//! The sources that a skeleton depends on.
ghost use Rattle.std.specs.Prelude.{◌≡◌, IfOk};
ghost use Rattle.fast_check_tree_syntax.specs.Part.{seen};
ghost use Rattle.fast_check_transform_imports.specs.StaticSources.{as_sources, source_of, item_source, static_sources};

use fast_check_tables_diagnostics::parsed_source::StaticSource;
use fast_check_tree_forms_programs::{ExportAll, ImportDecl, Module, NamedExport, Str};
use fast_check_tree_syntax::{Atom, Kind, Part};
use std::alloc::{AllocError, Global};

/// The source of an import or an export, by its literal; none where it has none.
fn source_of(
    alloc: Global,
    is_export: bool,
    type_only: bool,
    src: Part<'_>,
) -> Result<Option<StaticSource>, AllocError>
    ensures { IfOk result (λ source. as_sources source ≡ source_of is_export type_only (seen src.entry)) }
{
    if src.is_absent() {
        return Ok(None);
    }
    let Str { span, value, .. } = Str::of(src);
    Ok(Some(StaticSource {
        specifier: Atom::from_str(alloc, value)?,
        range: span,
        is_export,
        type_only,
    }))
}

/// The source of an item of a skeleton; none where it has none.
fn item_source(alloc: Global, item: Part<'_>) -> Result<Option<StaticSource>, AllocError>
    ensures { IfOk result (λ source. as_sources source ≡ item_source (seen item.entry)) }
{
    match item.kind() {
        Kind::ImportDecl => {
            let ImportDecl { src, type_only, .. } = ImportDecl::of(item);
            source_of(alloc, false, type_only, src)
        }
        Kind::NamedExport => {
            let NamedExport { src, type_only, .. } = NamedExport::of(item);
            source_of(alloc, true, type_only, src)
        }
        Kind::ExportAll => {
            let ExportAll { src, type_only, .. } = ExportAll::of(item);
            source_of(alloc, true, type_only, src)
        }
        _ => Ok(None),
    }
}

/// The sources of a skeleton: of its imports, and of its exports from other modules, in order.
pub fn static_sources(alloc: Global, program: Part<'_>) -> Result<Vec<StaticSource>, AllocError>
    ensures { IfOk result (λ sources. sources.items ≡ static_sources (seen program.entry)) }
{
    let mut sources = Vec::new(alloc);
    for item in Module::of(program).body.parts() {
        match item_source(alloc, item.read())? {
            None => continue,
            Some(source) => sources.push(source)?,
        }
    }
    Ok(sources)
}
