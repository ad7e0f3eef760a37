//! What stays of imports, and of exports of names, of all and by assignment.
ghost use Rattle.std.specs.Prelude.{◌≡◌, IfOk};
ghost use Rattle.fast_check_tree_syntax.specs.Part.{seen};
ghost use Rattle.fast_check_meaning_signatures.specs.Answers.{faultless};
ghost use Rattle.fast_check_meaning_skeleton.specs.ImportsExports.{answered_source, public_specifiers};
ghost use Rattle.fast_check_meaning_skeleton.specs.declared.rules.ImportExportRule.TheVariants as imports_exports;
ghost use Rattle.fast_check_transform_imports.specs.module_facts.ModuleFacts.{facts_of};
ghost use Rattle.fast_check_transform_imports.specs.module_facts.Kept.{as_list};
ghost use Rattle.fast_check_transform_imports.specs.ImportsExports.{GivesByRule, import_export_answer};
ghost use Rattle.fast_check_transform_imports.specs.Relative.{WhileRelative};

use crate::module_facts::ModuleFacts;
use crate::relative::RelativeSources;
use fast_check_meaning_skeleton::ImportExportRule;
use fast_check_tree_forms_programs::{ExportAll, ImportDecl, NamedExport, Str, TsImportEqualsDecl};
use fast_check_tree_helpers::ranges::range_of_node;
use fast_check_tree_syntax::{Atom, Items, Part, Tree};
use std::alloc::{AllocError, Global};

/// The source of an import or an export: by the text that stands for it, if there is another one. An export of own names
/// has none.
fn answered_source(
    alloc: Global,
    facts: ModuleFacts<'_>,
    src: Part<'_>,
    sources: &mut RelativeSources,
) -> Result<Tree, AllocError>
    ensures { let asked = facts_of facts.entry in
        IfOk result (λ tree. WhileRelative asked sources.old sources.new (tree ≡ answered_source asked (seen src.entry))) }
{
    if src.is_absent() {
        return src.to_tree(alloc);
    }
    let Str { span, value, .. } = Str::of(src);
    match sources.of_text(alloc, facts, value)? {
        Some(value) => {
            let source = Str {
                span,
                value,
                raw: Tree::Absent,
            };
            source.into_tree(alloc)
        }
        None => src.to_tree(alloc),
    }
}

/// The source as it is answered, and the attributes as they are.
fn source_and_attributes(
    alloc: Global,
    facts: ModuleFacts<'_>,
    src: Part<'_>,
    with: Part<'_>,
    sources: &mut RelativeSources,
) -> Result<(Tree, Tree), AllocError>
    ensures source { let asked = facts_of facts.entry in
        IfOk result (λ made. WhileRelative asked sources.old sources.new (made.0 ≡ answered_source asked (seen src.entry))) }
    ensures attributes { IfOk result (λ made. made.1 ≡ seen with.entry) }
{
    let src = answered_source(alloc, facts, src, sources)?;
    let with = with.to_tree(alloc)?;
    Ok((src, with))
}

/// The specifiers of an import or an export that are public, each by its own range.
fn public_specifiers(
    alloc: Global,
    facts: ModuleFacts<'_>,
    specifiers: Part<'_>,
) -> Result<Items<Tree>, AllocError>
    ensures { IfOk result (λ items. items ≡ public_specifiers (facts_of facts.entry) (seen specifiers.entry)) }
{
    let mut items = Items::new(alloc);
    for specifier in specifiers.parts() {
        let specifier = specifier.read();
        if !facts.public_ranges.contains(&range_of_node(specifier)) {
            continue;
        }
        items.push(specifier.to_tree(alloc)?)?;
    }
    Ok(items)
}

/// An import with its public specifiers; none where it has none.
fn transform_import(
    alloc: Global,
    facts: ModuleFacts<'_>,
    item: Part<'_>,
    sources: &mut RelativeSources,
) -> Result<Option<Tree>, AllocError>
    ensures { GivesByRule result (facts_of facts.entry) (seen item.entry) imports_exports.Import sources.old sources.new }
{
    let ImportDecl {
        span,
        specifiers,
        src,
        type_only,
        with,
        phase,
    } = ImportDecl::of(item);
    let specifiers = public_specifiers(alloc, facts, specifiers)?;
    if specifiers.is_empty() {
        return Ok(None);
    }
    let phase = Atom::from_str(alloc, phase)?;
    let (src, with) = source_and_attributes(alloc, facts, src, with, sources)?;
    let import = ImportDecl {
        span,
        specifiers: Tree::list(specifiers),
        src,
        type_only,
        with,
        phase,
    };
    Ok(Some(import.into_tree(alloc)?))
}

/// An export of names with its public specifiers; none where it has none.
fn transform_export_names(
    alloc: Global,
    facts: ModuleFacts<'_>,
    item: Part<'_>,
    sources: &mut RelativeSources,
) -> Result<Option<Tree>, AllocError>
    ensures { GivesByRule result (facts_of facts.entry) (seen item.entry) imports_exports.Export sources.old sources.new }
{
    let NamedExport {
        span,
        specifiers,
        src,
        type_only,
        with,
    } = NamedExport::of(item);
    let specifiers = public_specifiers(alloc, facts, specifiers)?;
    if specifiers.is_empty() {
        return Ok(None);
    }
    let (src, with) = source_and_attributes(alloc, facts, src, with, sources)?;
    let export = NamedExport {
        span,
        specifiers: Tree::list(specifiers),
        src,
        type_only,
        with,
    };
    Ok(Some(export.into_tree(alloc)?))
}

/// `export * from source`; none where it is not public.
fn transform_export_all(
    alloc: Global,
    facts: ModuleFacts<'_>,
    item: Part<'_>,
    sources: &mut RelativeSources,
) -> Result<Option<Tree>, AllocError>
    ensures { GivesByRule result (facts_of facts.entry) (seen item.entry) imports_exports.All sources.old sources.new }
{
    let ExportAll {
        span,
        src,
        type_only,
        with,
    } = ExportAll::of(item);
    if !facts.public_ranges.contains(&span) {
        return Ok(None);
    }
    let (src, with) = source_and_attributes(alloc, facts, src, with, sources)?;
    let export = ExportAll {
        span,
        src,
        type_only,
        with,
    };
    Ok(Some(export.into_tree(alloc)?))
}

/// `import A = B.C` as it is written; none where it is not public.
fn transform_alias(
    alloc: Global,
    facts: ModuleFacts<'_>,
    item: Part<'_>,
) -> Result<Option<Tree>, AllocError>
    ensures { IfOk result (λ tree. import_export_answer (facts_of facts.entry) (seen item.entry) imports_exports.Alias ≡ faultless (as_list tree)) }
{
    if !facts
        .public_ranges
        .contains(&TsImportEqualsDecl::of(item).span)
    {
        return Ok(None);
    }
    Ok(Some(item.to_tree(alloc)?))
}

/// What is public of an import or an export with which this is done; none where nothing is. Nothing can be wrong with it.
pub fn transform_import_export(
    alloc: Global,
    facts: ModuleFacts<'_>,
    item: Part<'_>,
    rule: ImportExportRule,
    sources: &mut RelativeSources,
) -> Result<Option<Tree>, AllocError>
    ensures { GivesByRule result (facts_of facts.entry) (seen item.entry) rule sources.old sources.new }
{
    match rule {
        ImportExportRule::Import => transform_import(alloc, facts, item, sources),
        ImportExportRule::Export => transform_export_names(alloc, facts, item, sources),
        ImportExportRule::All => transform_export_all(alloc, facts, item, sources),
        ImportExportRule::Alias => transform_alias(alloc, facts, item),
    }
}
