//! The namespaces that stand for the properties that assignments declare.
ghost use Rattle.std.specs.Prelude.{◌≡◌, IfOk, OnOk, map};
ghost use Rattle.fast_check_tree_syntax.specs.Shape.{none_range};
ghost use Rattle.fast_check_tree_forms_programs.specs.ModuleDecls.{export_decl};
ghost use Rattle.fast_check_meaning_signatures.specs.Answers.{Adds, answer_of};
ghost use Rattle.fast_check_meaning_expandos.specs.Expandos as expandos;
ghost use Rattle.fast_check_meaning_expandos.specs.Expandos.{conflict_fault, conflict_seen, namespaces_seen};
ghost use Rattle.fast_check_meaning_expandos.specs.FirstPlaces.{HasObjects};
ghost use Rattle.fast_check_meaning_expandos.specs.Merged.{Extends, merged_seen, namespaces, placed_property, with_property};

use crate::properties::ExpandoProperty;
use crate::references::Reference;
use fast_check_meaning_signatures::{Fault, FaultKind};
use fast_check_tree_forms_programs::ExportDecl;
use fast_check_tree_forms_statements::{TsModuleBlock, TsModuleDecl, VarDecl};
use fast_check_tree_helpers::new_ident;
use fast_check_tree_syntax::{Atom, DUMMY_SP, Id, Items, SyntaxContext, Tree, Word};
use std::alloc::{AllocError, Global};
use std::collections::BTreeMap;

/// What stands in the namespace of an object.
#[derive(Drop)]
struct Namespace {
    is_exported: bool,
    conflicts: Items<Reference>,
    declarators: Items<Tree>,
}

/// The namespaces that stand behind the items of a body for its expando properties: one for each object, in the order in which the
/// objects come first. What conflicts of their properties is pushed to the faults.
pub fn keep_namespaces(
    alloc: Global,
    properties: Vec<ExpandoProperty>,
    faults: &mut Vec<Fault>,
) -> Result<Items<Tree>, AllocError>
    ensures { IfOk result (λ items. Adds (answer_of (namespaces_seen properties.items)) items faults.old.items faults.new.items) }
{
    let mut items = Items::new(alloc);
    for (object, namespace) in namespaces_of(alloc, properties)? {
        push_namespace(alloc, object, namespace, &mut items, faults)?;
    }
    Ok(items)
}

/// The namespaces of all objects.
fn namespaces_of(
    alloc: Global,
    properties: Vec<ExpandoProperty>,
) -> Result<Vec<(Id, Namespace)>, AllocError>
    ensures { IfOk result (λ made. made.items ≡ namespaces properties.items) }
{
    let mut places = BTreeMap::new(alloc);
    let mut made = Vec::new(alloc);
    for property in properties {
        place_property(alloc, property, &mut places, &mut made)?;
    }
    Ok(made)
}

/// Puts a property into the namespace of its object, or else into a last one. `places` are the places of the objects.
fn place_property(
    alloc: Global,
    property: ExpandoProperty,
    places: &mut BTreeMap<Id, usize>,
    namespaces: &mut Vec<(Id, Namespace)>,
) -> Result<(), AllocError>
    requires { HasObjects places.old namespaces.old.items }
    ensures places { OnOk result (HasObjects places.new namespaces.new.items) }
    ensures namespaces { OnOk result (namespaces.new.items ≡ placed_property property namespaces.old.items) }
{
    if let Some(place) = places.get(&property.object).copied() {
        return push_property(property, &mut namespaces[place].1);
    }
    let ExpandoProperty {
        object,
        is_exported,
        declarator,
        conflicts,
    } = property;
    let mut declarators = Items::new(alloc);
    declarators.push(declarator)?;
    let namespace = Namespace {
        is_exported,
        conflicts,
        declarators,
    };
    places.insert(object.clone()?, namespaces.len())?;
    namespaces.push((object, namespace))?;
    Ok(())
}

/// Puts a property behind those of a namespace.
fn push_property(property: ExpandoProperty, namespace: &mut Namespace) -> Result<(), AllocError>
    ensures { OnOk result (namespace.new ≡ with_property namespace.old property) }
{
    namespace.is_exported |= property.is_exported;
    namespace.conflicts.append(property.conflicts)?;
    namespace.declarators.push(property.declarator)
}

/// Pushes the namespace of an object, behind what conflicts of its properties.
fn push_namespace(
    alloc: Global,
    object: Id,
    namespace: Namespace,
    items: &mut Items<Tree>,
    faults: &mut Vec<Fault>,
) -> Result<(), AllocError>
    ensures { OnOk result (Extends (answer_of (merged_seen (object, namespace))) items.old items.new faults.old.items faults.new.items) }
{
    let Namespace {
        is_exported,
        conflicts,
        declarators,
    } = namespace;
    push_conflicts(&object, &conflicts, items, faults)?;
    items.push(namespace_item(alloc, is_exported, object.0, declarators)?)
}

/// Pushes what conflicts. No tree stands for it, so that an empty option does.
fn push_conflicts(
    object: &Id,
    conflicts: &Items<Reference>,
    items: &mut Items<Tree>,
    faults: &mut Vec<Fault>,
) -> Result<(), AllocError>
    ensures { OnOk result (Extends (answer_of (map (conflict_seen object.now) conflicts.now)) items.old items.new faults.old.items faults.new.items) }
{
    for reference in conflicts.as_slice() {
        faults.push(conflict(object, reference)?)?;
        items.push(Tree::Absent)?;
    }
    Ok(())
}

/// What is wrong with the mention of a name that the object exports.
fn conflict(object: &Id, reference: &Reference) -> Result<Fault, AllocError>
    ensures { IfOk result (λ fault. fault ≡ conflict_fault object.now reference.now) }
{
    Ok(Fault {
        kind: FaultKind::UnsupportedExpandoProperty {
            object_name: object.0.clone()?,
            reference_name: reference.name.clone()?,
        },
        range: reference.range,
    })
}

/// `namespace name { export var declarators; }`, exported or not.
fn namespace_item(
    alloc: Global,
    is_exported: bool,
    name: Atom,
    declarators: Items<Tree>,
) -> Result<Tree, AllocError>
    ensures { IfOk result (λ tree. tree ≡ expandos.namespace_item is_exported name declarators) }
{
    let decl = namespace_decl(alloc, name, declarators)?;
    if is_exported {
        export_decl(alloc, decl)
    } else {
        Ok(decl)
    }
}

/// `namespace name { export var declarators; }`.
fn namespace_decl(alloc: Global, name: Atom, declarators: Items<Tree>) -> Result<Tree, AllocError>
    ensures { IfOk result (λ tree. tree ≡ expandos.namespace_decl name declarators) }
{
    let variables = exported_variables(alloc, declarators)?;
    let mut items = Items::new(alloc);
    items.push(variables)?;
    let block = TsModuleBlock {
        span: DUMMY_SP,
        body: Tree::list(items),
    };
    let body = block.into_tree(alloc)?;
    let id = new_ident(name).into_tree(alloc)?;
    TsModuleDecl {
        span: DUMMY_SP,
        declare: false,
        global: false,
        namespace: true,
        id,
        body,
    }
    .into_tree(alloc)
}

/// `export var declarators;`.
fn exported_variables(alloc: Global, declarators: Items<Tree>) -> Result<Tree, AllocError>
    ensures { IfOk result (λ tree. tree ≡ expandos.exported_variables declarators) }
{
    let variables = VarDecl {
        span: DUMMY_SP,
        ctxt: SyntaxContext(0),
        kind: Tree::Word(Word::Var),
        declare: false,
        decls: Tree::list(declarators),
    };
    export_decl(alloc, variables.into_tree(alloc)?)
}

/// `export decl`.
fn export_decl(alloc: Global, decl: Tree) -> Result<Tree, AllocError>
    ensures { IfOk result (λ tree. tree ≡ export_decl none_range decl) }
{
    ExportDecl {
        span: DUMMY_SP,
        decl,
    }
    .into_tree(alloc)
}
