//! What is answered of the modules of packages.
use crate::asked::asked_names;
use crate::follow::Found;
use crate::members::{members_of, pending_of};
use crate::world::{World, world_of};
use anyhow::Result;
use fast_check_build::answers::{ModuleAnswer, PackageAnswer};
use fast_check_build::build_packages;
use fast_check_source_input::{FALLBACK, Input, Parsed};
use fast_check_source_mended::restored_skeleton;
use fast_check_source_packages::resolve::Package;
use fast_check_tables_diagnostics::parsed_source::FastCheckModule;
use fast_check_tables_graph::{AnyModuleInfo, ModuleGraph, RootSymbol};
use fast_check_tables_modules::EsModuleInfo;
use fast_check_tables_modules::diagnostics::FastCheckDiagnostic;
use fast_check_tables_packages::{ListedPackages, PackageNv, WorkspaceMember};
use fast_check_tables_symbols::ModuleTables;
use fast_check_transform_module::TransformOptions;
use fast_check_tree_syntax::Tree;
use std::alloc::{AllocError, Global};
use std::collections::{BTreeMap, BTreeSet, VecDeque};
use url::Url;

// Notes the names that a module answers.
fn put_names(
    alloc: Global,
    world: &World,
    url: &Url,
    resolved: Option<&BTreeMap<String, Url>>,
    names: Vec<(String, Url)>,
    tables: &mut ModuleTables,
) -> Result<(), AllocError> {
    tables.resolved_exports = names;
    let mut nodes = Vec::new(alloc);
    std::mem::swap(&mut nodes, &mut tables.re_export_all_nodes);
    tables.re_export_all_nodes = world.in_order(alloc, url, resolved, nodes)?;
    Ok(())
}

// The names that each of the modules answers. Where an input is printed all of them are told, and else those that a module may be asked for.
fn answered_by(
    alloc: Global,
    world: &World,
    modules: &BTreeMap<Url, Parsed>,
    asks_input: bool,
) -> Result<Vec<Vec<(String, Url)>>, AllocError> {
    if asks_input {
        return world.all_answered(alloc, &None);
    }
    let asked = Some(asked_names(alloc, modules)?);
    world.all_answered(alloc, &asked)
}

// Notes the names that the modules answer.
fn put_all_names(
    alloc: Global,
    modules: &mut BTreeMap<Url, Parsed>,
    resolutions: &BTreeMap<Url, BTreeMap<String, Url>>,
    asks_input: bool,
) -> Result<(), AllocError> {
    let world = world_of(alloc, &*modules, resolutions)?;
    let mut answered = answered_by(alloc, &world, &*modules, asks_input)?.into_iter();
    for (url, module) in modules.iter_mut() {
        let names = match answered.next() {
            Some(names) => names,
            None => Vec::new(alloc),
        };
        put_names(
            alloc,
            &world,
            url,
            resolutions.get(url),
            names,
            &mut module.tables,
        )?;
    }
    Ok(())
}

// The modules with their tables looked at.
fn infos_of(alloc: Global, modules: BTreeMap<Url, Parsed>) -> Result<BTreeMap<Url, AnyModuleInfo>> {
    let mut made = BTreeMap::new(alloc);
    for (url, module) in modules {
        let Parsed { source, tables } = module;
        let info = EsModuleInfo::new(alloc, url.clone()?, source, tables)?;
        let _ = made.insert(url, AnyModuleInfo::Esm(info))?;
    }
    Ok(made)
}

// Has a skeleton stand by the words of its source.
fn restore(alloc: Global, module: &mut FastCheckModule, own_name: &str) -> Result<(), AllocError> {
    let mut program = Tree::Absent;
    std::mem::swap(&mut program, &mut module.program);
    module.program = restored_skeleton(alloc, program, own_name)?;
    Ok(())
}

// Has the skeletons stand by the words of their sources.
fn restore_all(
    alloc: Global,
    answers: &mut Vec<ModuleAnswer>,
    own_names: &BTreeMap<Url, String>,
) -> Result<(), AllocError> {
    for (url, answer) in answers.iter_mut() {
        let own_name = match own_names.get(&*url) {
            Some(own_name) => own_name.as_str(),
            None => "",
        };
        if let Ok(module) = answer {
            restore(alloc, module, own_name)?;
        }
    }
    Ok(())
}

fn no_other_packages(alloc: Global) -> Result<ListedPackages> {
    let fallback = Url::parse(alloc, FALLBACK)?;
    Ok(ListedPackages {
        packages: Vec::new(alloc),
        fallback,
    })
}

/// What is asked of packages, and the names of the files of modules that name themselves.
pub fn input_of(
    alloc: Global,
    packages: &[&Package],
    found: Found,
    asks_input: bool,
) -> Result<(Input, BTreeMap<Url, String>)> {
    let mut found = found;
    put_all_names(alloc, &mut found.modules, &found.resolutions, asks_input)?;
    let members = members_of(alloc, packages)?;
    let pending = pending_of(alloc, packages)?;
    let Found {
        modules,
        graph,
        resolutions,
        own_names,
    } = found;
    let input = Input {
        modules,
        graph,
        resolutions,
        members,
        pending,
    };
    Ok((input, own_names))
}

/// What is answered of packages.
#[derive(Drop)]
pub struct Answered {
    /// The modules with their skeletons; of a package with diagnostics, its first entry point with these.
    pub answers: Vec<ModuleAnswer>,
    /// The entry points that are answered as another one, each list after that one.
    pub same: Vec<(Url, Vec<Url>)>,
}

impl Answered {
    pub fn new(alloc: Global) -> Answered {
        Answered {
            answers: Vec::new(alloc),
            same: Vec::new(alloc),
        }
    }

    // Adds what a package with diagnostics is answered by.
    fn refuse(
        &mut self,
        alloc: Global,
        entrypoints: BTreeSet<Url>,
        diagnostics: Vec<FastCheckDiagnostic>,
    ) -> Result<(), AllocError> {
        let mut others = Vec::new(alloc);
        let mut first = None;
        for entrypoint in entrypoints {
            if first.is_none() {
                first = Some(entrypoint);
            } else {
                others.push(entrypoint)?;
            }
        }
        if let Some(first) = first {
            self.same.push((first.clone()?, others))?;
            self.answers.push((first, Err(diagnostics)))?;
        }
        Ok(())
    }

    // Adds what a package is answered by.
    fn add(&mut self, alloc: Global, made: PackageAnswer) -> Result<(), AllocError> {
        let PackageAnswer {
            entrypoints,
            mut skeletons,
            diagnostics,
        } = made;
        if diagnostics.is_empty() {
            self.answers.append(&mut skeletons)
        } else {
            self.refuse(alloc, entrypoints, diagnostics)
        }
    }
}

// What is answered of packages by the graph of their modules.
fn answers_of(
    alloc: Global,
    graph: &ModuleGraph,
    root: &RootSymbol,
    workspace_members: Vec<WorkspaceMember>,
    pending: VecDeque<PackageNv>,
) -> Result<Answered> {
    let options = TransformOptions {
        workspace_members,
        should_error_on_first_diagnostic: false,
    };
    let provider = no_other_packages(alloc)?;
    let mut answered = Answered::new(alloc);
    for made in build_packages(alloc, &provider, graph, root, pending, &options)? {
        answered.add(alloc, made)?;
    }
    Ok(answered)
}

/// What is answered to it.
pub fn build(alloc: Global, input: Input, own_names: &BTreeMap<Url, String>) -> Result<Answered> {
    let Input {
        modules,
        graph,
        resolutions,
        members,
        pending,
    } = input;
    let infos = infos_of(alloc, modules)?;
    let root = RootSymbol::new(infos, BTreeMap::new(alloc))?;
    let graph = ModuleGraph::from_parts(alloc, graph, resolutions, BTreeMap::new(alloc))?;
    let mut answered = answers_of(alloc, &graph, &root, members, pending)?;
    restore_all(alloc, &mut answered.answers, own_names)?;
    Ok(answered)
}
