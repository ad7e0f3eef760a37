//! The finished tables.
ghost use Rattle.std.specs.Prelude.{◌≡◌, ◌≤◌, IfOk, []};

use crate::builder::{Binds, Declaration, Draft, Flags, MODULE, SymbolNo, Tables, Target};
use fast_check_source_references::dependencies::{Dependencies, Dependency, Space};
use fast_check_source_walks::Waiting;
use fast_check_tables_symbols::{
    ModuleTables, ReferenceNamespace, Symbol, SymbolDecl, SymbolDeclKind, SymbolDecls, SymbolDep,
    SymbolExports, SymbolId, SymbolNode, SymbolNodeDep,
};
use fast_check_tree_forms_programs::{Module, Script};
use fast_check_tree_syntax::{Atom, Id, Kind, Part, Tree};
use std::alloc::{AllocError, Global};
use std::collections::BTreeMap;

fn number(symbol: SymbolNo) -> SymbolId
    ensures { symbol.0 ≤ 4294967295 → result.0 ≡ symbol.0 }
{
    SymbolId(symbol.0.min(4294967295) as u32)
}

fn namespace(space: Space) -> ReferenceNamespace {
    match space {
        Space::Value => ReferenceNamespace::Value,
        Space::Type => ReferenceNamespace::Type_,
        Space::Both => ReferenceNamespace::Both,
    }
}

// References in the order of their places.
fn in_order(
    alloc: Global,
    dependencies: Dependencies,
) -> Result<Vec<(Dependency, Space)>, AllocError> {
    if dependencies.lacks {
        return Err(AllocError);
    }
    let mut by_place: BTreeMap<usize, (Dependency, Space)> = BTreeMap::new(alloc);
    for (key, place) in dependencies.found {
        let _ = by_place.insert(place, key)?;
    }
    let mut made = Vec::new(alloc);
    for (_, key) in by_place {
        made.push(key)?;
    }
    Ok(made)
}

fn copied(dependency: &Dependency) -> Result<Dependency, AllocError> {
    Ok(match dependency {
        Dependency::Name(id) => Dependency::Name(id.clone()?),
        Dependency::Part(id, names) => Dependency::Part(id.clone()?, names.clone()?),
        Dependency::Import(specifier, names) => Dependency::Import(
            specifier.clone()?,
            names.clone()?,
        ),
    })
}

// What the names of a module lead to.
#[derive(Drop)]
struct Bindings {
    by_name: BTreeMap<Id, SymbolNo>,
    // Of each symbol, whether whoever reaches it by its value has its type too.
    classes: Vec<bool>,
}

impl Bindings {
    fn find(&self, id: &Id) -> Option<SymbolNo> {
        self.by_name.get(id).copied()
    }

    fn is_class(&self, symbol: SymbolNo) -> bool {
        match self.classes.get(symbol.0) {
            Some(found) => *found,
            None => false,
        }
    }

    // Dependencies on what has no symbol, as a type parameter, ask for nothing. Those on the value of a class ask for its type too.
    fn pruned(
        &self,
        alloc: Global,
        dependencies: Dependencies,
    ) -> Result<Vec<SymbolNodeDep>, AllocError> {
        let mut kept = Dependencies::new(alloc);
        for (dependency, space) in in_order(alloc, dependencies)? {
            let asked = match &dependency {
                Dependency::Name(id) => match self.find(id) {
                    Some(symbol) if self.is_class(symbol) => Some(Space::Both),
                    Some(_) => Some(space),
                    None => None,
                },
                Dependency::Part(id, _) => match self.find(id) {
                    Some(_) => Some(space),
                    None => None,
                },
                Dependency::Import(_, _) => Some(space),
            };
            if let Some(asked) = asked {
                kept.add(dependency, asked);
            }
        }
        let ordered = in_order(alloc, kept)?;
        let mut made = Vec::with_capacity(alloc, ordered.len())?;
        for (dependency, space) in ordered {
            let dep = match dependency {
                Dependency::Name(id) => SymbolDep::Id(id),
                Dependency::Part(id, names) => SymbolDep::QualifiedId(id, names),
                Dependency::Import(specifier, names) => SymbolDep::ImportType(specifier, names),
            };
            made.push(SymbolNodeDep {
                dep,
                namespace: namespace(space),
            })?;
        }
        Ok(made)
    }
}

fn is_class_itself(draft: &Draft) -> bool {
    draft.declarations.iter().any(|it| match &it.target {
        Target::Definition(flags, _) => flags.is_class,
        _ => false,
    })
}

// Notes that a symbol is an alias of another one.
fn add_alias(
    alloc: Global,
    aliases: &mut BTreeMap<usize, Vec<usize>>,
    target: usize,
    place: usize,
) -> Result<(), AllocError> {
    if let Some(found) = aliases.get_mut(&target) {
        found.push(place)?;
        return Ok(());
    }
    let mut first = Vec::new(alloc);
    first.push(place)?;
    let _ = aliases.insert(target, first)?;
    Ok(())
}

// The aliases of each symbol.
fn aliases_of(
    alloc: Global,
    drafts: &[Draft],
    by_name: &BTreeMap<Id, SymbolNo>,
) -> Result<BTreeMap<usize, Vec<usize>>, AllocError> {
    let mut aliases = BTreeMap::new(alloc);
    for (place, draft) in drafts.iter().enumerate() {
        for declaration in draft.declarations.iter() {
            if let Target::Name(id) = &declaration.target
                && let Some(target) = by_name.get(id).copied()
            {
                add_alias(alloc, &mut aliases, target.0, place)?;
            }
        }
    }
    Ok(aliases)
}

// Marks what waits as classes, with all aliases.
fn mark_classes(
    waiting: &mut Waiting<usize>,
    aliases: &BTreeMap<usize, Vec<usize>>,
    classes: &mut Vec<bool>,
) {
    for _turn in 0..u64::MAX {
        let Some(place) = waiting.pop() else {
            break;
        };
        if let Some(found) = classes.get_mut(place) {
            if *found {
                continue;
            }
            *found = true;
        }
        if let Some(more) = aliases.get(&place) {
            for each in more.iter() {
                waiting.push(*each);
            }
        }
    }
}

// Whether each symbol is a class, whose interface of the same name adds members to it, or an alias of one.
fn classes_of(
    alloc: Global,
    drafts: &[Draft],
    by_name: &BTreeMap<Id, SymbolNo>,
) -> Result<Vec<bool>, AllocError> {
    let aliases = aliases_of(alloc, drafts, by_name)?;
    let mut waiting = Waiting::new(alloc);
    let mut classes = Vec::new(alloc);
    for (place, draft) in drafts.iter().enumerate() {
        classes.push(false)?;
        if is_class_itself(draft) {
            waiting.push(place);
        }
    }
    mark_classes(&mut waiting, &aliases, &mut classes);
    if waiting.lacks {
        Err(AllocError)
    } else {
        Ok(classes)
    }
}

// What the blocks of an enum refer to.
fn blocks_of(alloc: Global, draft: &Draft) -> Result<Dependencies, AllocError> {
    let mut all = Dependencies::new(alloc);
    for declaration in draft.declarations.iter() {
        if let Target::Definition(_, own) = &declaration.target {
            add_copies(alloc, &mut all, own)?;
        }
    }
    Ok(all)
}

// What the blocks of each enum refer to: whoever asks for a member has all of them.
fn enum_dependencies(
    alloc: Global,
    drafts: &[Draft],
) -> Result<BTreeMap<usize, Dependencies>, AllocError> {
    let mut made = BTreeMap::new(alloc);
    for draft in drafts.iter() {
        if let Some(found) = draft.of_enum
            && !made.contains_key(&found.0)
            && let Some(owner) = drafts.get(found.0)
        {
            let _ = made.insert(found.0, blocks_of(alloc, owner)?)?;
        }
    }
    Ok(made)
}

fn add_copies(alloc: Global, all: &mut Dependencies, own: &Dependencies) -> Result<(), AllocError> {
    all.lacks |= own.lacks;
    let mut by_place = BTreeMap::new(alloc);
    for (key, place) in own.found.iter() {
        let _ = by_place.insert(*place, key)?;
    }
    for (_, key) in by_place.iter() {
        all.add(copied(&key.0)?, key.1);
    }
    Ok(())
}

fn copy_of(alloc: Global, own: &Dependencies) -> Result<Dependencies, AllocError> {
    let mut made = Dependencies::new(alloc);
    add_copies(alloc, &mut made, own)?;
    Ok(made)
}

fn node_of(flags: Flags, deps: Vec<SymbolNodeDep>) -> SymbolNode {
    SymbolNode {
        is_class: flags.is_class,
        is_member: flags.is_member,
        is_function: flags.is_function,
        is_ts_namespace: flags.is_ts_namespace,
        is_default_class_expr: flags.is_default_class_expr,
        is_plain_class_decl: flags.is_plain_class_decl,
        has_export_keyword: flags.has_export_keyword,
        deps,
    }
}

fn kind_of(
    alloc: Global,
    target: Target,
    bindings: &Bindings,
    shared: Option<&Dependencies>,
) -> Result<SymbolDeclKind, AllocError> {
    Ok(match target {
        Target::Name(id) => SymbolDeclKind::Target(id),
        Target::Part(id, names) => SymbolDeclKind::QualifiedTarget(id, names),
        Target::File(specifier, name) => SymbolDeclKind::FileRef { specifier, name },
        Target::Definition(flags, own) => {
            let asked = match shared {
                Some(shared) => copy_of(alloc, shared)?,
                None => own,
            };
            SymbolDeclKind::Definition(Some(node_of(flags, bindings.pruned(alloc, asked)?)))
        }
    })
}

fn decl_of(
    alloc: Global,
    declaration: Declaration,
    has_overloads: bool,
    bindings: &Bindings,
    shared: Option<&Dependencies>,
) -> Result<SymbolDecl, AllocError> {
    let Declaration {
        range,
        binds,
        body,
        target,
    } = declaration;
    let kind = kind_of(alloc, target, bindings, shared)?;
    Ok(SymbolDecl {
        range,
        value: binds != Binds::Type,
        type_: binds != Binds::Value,
        has_overloads: body.is_some() && has_overloads,
        has_body: body == Some(true),
        kind,
    })
}

fn decls_of(
    alloc: Global,
    declarations: Vec<Declaration>,
    bindings: &Bindings,
    shared: Option<&Dependencies>,
) -> Result<SymbolDecls, AllocError> {
    let functions = declarations.iter().filter(|it| it.body.is_some()).count();
    let mut decls = Vec::with_capacity(alloc, declarations.len())?;
    for declaration in declarations {
        decls.push(decl_of(alloc, declaration, functions > 1, bindings, shared)?)?;
    }
    SymbolDecls::new(alloc, decls)
}

fn exports_of(alloc: Global, drafted: &[(Atom, SymbolNo)]) -> Result<SymbolExports, AllocError> {
    let mut exports = SymbolExports::new(alloc);
    for (name, symbol) in drafted {
        exports.put(String::from_str(alloc, name.as_str())?, number(*symbol))?;
    }
    Ok(exports)
}

fn numbers_of(alloc: Global, symbols: &[SymbolNo]) -> Result<Vec<SymbolId>, AllocError> {
    let mut numbers = Vec::with_capacity(alloc, symbols.len())?;
    for symbol in symbols {
        numbers.push(number(*symbol))?;
    }
    Ok(numbers)
}

fn finished(
    alloc: Global,
    no: usize,
    draft: Draft,
    bindings: &Bindings,
    shared: Option<&Dependencies>,
) -> Result<Symbol, AllocError> {
    let Draft {
        parent,
        name,
        qualified,
        is_private,
        exports,
        members,
        declarations,
        ..
    } = draft;
    let exports = exports_of(alloc, exports.as_slice())?;
    let members = numbers_of(alloc, members.as_slice())?;
    let decls = decls_of(alloc, declarations, bindings, shared)?;
    Ok(Symbol {
        id: number(SymbolNo(no)),
        parent_id: parent.map(|it| number(it)),
        is_private_member: is_private,
        maybe_name: name,
        qualified_name: qualified,
        exports,
        members,
        decls,
    })
}

fn symbols_of(
    alloc: Global,
    drafts: Vec<Draft>,
    bindings: &Bindings,
) -> Result<Vec<Symbol>, AllocError> {
    let enums = enum_dependencies(alloc, drafts.as_slice())?;
    let mut symbols = Vec::with_capacity(alloc, drafts.len())?;
    for (no, draft) in drafts.into_iter().enumerate() {
        let shared = match draft.of_enum {
            Some(found) => enums.get(&found.0),
            None => None,
        };
        symbols.push(finished(alloc, no, draft, bindings, shared)?)?;
    }
    Ok(symbols)
}

// The symbols of names, in the order in which these were bound.
fn ids_of(
    alloc: Global,
    names: Vec<Id>,
    bindings: &Bindings,
) -> Result<Vec<(Id, SymbolId)>, AllocError> {
    let mut ids = Vec::with_capacity(alloc, names.len())?;
    for id in names {
        if let Some(symbol) = bindings.find(&id) {
            ids.push((id, number(symbol)))?;
        }
    }
    Ok(ids)
}

// The tables of the items of a module, before they are finished.
fn gathered(
    alloc: Global,
    program: Part<'_>,
    is_declaration_file: bool,
) -> Result<Tables, AllocError> {
    let mut tables = Tables::new(alloc)?;
    if program.kind() == Kind::Module {
        tables.items(Module::of(program).body, is_declaration_file);
    } else {
        tables.items(Script::of(program).body, false);
    }
    if tables.lacks {
        Err(AllocError)
    } else {
        Ok(tables)
    }
}

/// The tables of a module, without the names that other modules answer.
pub fn tables_of(
    alloc: Global,
    tree: &Tree,
    is_declaration_file: bool,
) -> Result<ModuleTables, AllocError>
    ensures module_is_first { IfOk result (λ tables. tables.module_symbol.0 ≡ 0) }
    ensures names_of_others_are_left { IfOk result (λ tables. tables.resolved_exports.items ≡ []) }
{
    let Tables {
        drafts,
        by_name,
        names,
        re_exports,
        ..
    } = gathered(alloc, tree.read(), is_declaration_file)?;
    let classes = classes_of(alloc, drafts.as_slice(), &by_name)?;
    let bindings = Bindings { by_name, classes };
    let symbols = symbols_of(alloc, drafts, &bindings)?;
    let swc_ids = ids_of(alloc, names, &bindings)?;
    Ok(ModuleTables {
        symbols,
        module_symbol: number(MODULE),
        swc_ids,
        re_export_all_nodes: re_exports,
        resolved_exports: Vec::new(alloc),
    })
}
