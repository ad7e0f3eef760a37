//! Declarations of a declaration file, or of an ambient namespace, are exported without a word where no list of exports stands beside them. Since a list
//! goes from a skeleton, the word is written in here.
use fast_check_source_references::declared::{declaration_of, is_declaration, says_exports};
use fast_check_source_walks::Waiting;
use fast_check_tree_forms_classes::{Class, Function};
use fast_check_tree_forms_programs::{ExportDecl, Module};
use fast_check_tree_forms_statements::{
    ClassDecl, FnDecl, TsEnumDecl, TsInterfaceDecl, TsModuleBlock, TsModuleDecl, TsNamespaceDecl,
    TsTypeAliasDecl, UsingDecl, VarDecl,
};
use fast_check_tree_syntax::{Items, Kind, Part, SourceRange, Tree};
use std::alloc::{AllocError, Global};
use std::collections::BTreeSet;

// Whether a namespace has a name, and is no ambient module.
fn is_named(decl: Part<'_>) -> bool {
    let TsModuleDecl { global, id, .. } = TsModuleDecl::of(decl);
    !global && id.kind() == Kind::Ident
}

fn is_plain(item: Part<'_>) -> bool {
    is_declaration(item) && (item.kind() != Kind::TsModuleDecl || is_named(item))
}

fn span_of(decl: Part<'_>) -> SourceRange {
    match decl.kind() {
        Kind::FnDecl => Function::of(FnDecl::of(decl).function).span,
        Kind::ClassDecl => Class::of(ClassDecl::of(decl).class).span,
        Kind::VarDecl => VarDecl::of(decl).span,
        Kind::UsingDecl => UsingDecl::of(decl).span,
        Kind::TsInterfaceDecl => TsInterfaceDecl::of(decl).span,
        Kind::TsTypeAliasDecl => TsTypeAliasDecl::of(decl).span,
        Kind::TsEnumDecl => TsEnumDecl::of(decl).span,
        _ => TsModuleDecl::of(decl).span,
    }
}

// A body whose items are still to be looked at.
#[derive(Clone, Copy)]
struct Task<'a> {
    body: Part<'a>,
    is_ambient: bool,
}

// Where the declarations begin that get the word.
#[derive(Drop)]
struct Implied<'a> {
    starts: BTreeSet<u32>,
    waiting: Waiting<Task<'a>>,
}

impl<'a> Implied<'a> {
    // The items of a body. Each declaration gets the word if `all` have it.
    fn items(&mut self, task: Task<'a>, all: bool) {
        for item in task.body.parts() {
            let (inner, exported) = declaration_of(item.read());
            if exported.is_none()
                && all
                && is_plain(inner)
                && self.starts.insert(span_of(inner).start.0).is_err()
            {
                self.waiting.lacks = true;
            }
            if inner.kind() == Kind::TsModuleDecl && is_named(inner) {
                let TsModuleDecl { declare, body, .. } = TsModuleDecl::of(inner);
                self.waiting.push(Task {
                    body,
                    is_ambient: task.is_ambient || declare,
                });
            }
        }
    }

    fn run(&mut self) {
        for _turn in 0..u64::MAX {
            let Some(task) = self.waiting.pop() else {
                break;
            };
            match task.body.kind() {
                Kind::TsNamespaceDecl => {
                    let body = TsNamespaceDecl::of(task.body).body;
                    self.waiting.push(Task { body, ..task });
                }
                Kind::TsModuleBlock => {
                    let body = TsModuleBlock::of(task.body).body;
                    let has_one = body
                        .parts()
                        .iter()
                        .any(|it| it.read().kind() == Kind::ExportDecl);
                    let all = task.is_ambient && !says_exports(body) && has_one;
                    self.items(Task { body, ..task }, all);
                }
                _ => {}
            }
        }
    }
}

// Where the declarations of a program begin that get the word.
fn starts_of(
    alloc: Global,
    program: Part<'_>,
    is_declaration_file: bool,
) -> Result<BTreeSet<u32>, AllocError> {
    let mut implied = Implied {
        starts: BTreeSet::new(alloc),
        waiting: Waiting::new(alloc),
    };
    if program.kind() == Kind::Module {
        let task = Task {
            body: Module::of(program).body,
            is_ambient: is_declaration_file,
        };
        implied.items(task, is_declaration_file && !says_exports(task.body));
        implied.run();
    }
    let Implied { starts, waiting } = implied;
    if waiting.lacks {
        Err(AllocError)
    } else {
        Ok(starts)
    }
}

// A copy of a node, behind the word if it is one of the declarations that get it.
fn exported(
    alloc: Global,
    decl: Part<'_>,
    copy: Tree,
    starts: &BTreeSet<u32>,
) -> Result<Tree, AllocError> {
    if !is_declaration(decl) {
        return Ok(copy);
    }
    let span = span_of(decl);
    if starts.contains(&span.start.0) {
        ExportDecl { span, decl: copy }.into_tree(alloc)
    } else {
        Ok(copy)
    }
}

#[cycle(copies)]
#[tactic(auto, using(fast_check_source_walks::proofs::Heights::node_height))]
fn with_words(alloc: Global, tree: &Tree, starts: &BTreeSet<u32>) -> Result<Tree, AllocError> {
    match tree {
        Tree::Node(kind, parts) => {
            let copy = Tree::Node(*kind, all_with_words(alloc, parts.as_slice(), starts)?);
            exported(alloc, tree.read(), copy, starts)
        }
        _ => tree.read().to_tree(alloc),
    }
}

#[cycle(copies)]
#[tactic(auto, using(fast_check_source_walks::proofs::Heights::one_height))]
fn all_with_words(
    alloc: Global,
    trees: &[Tree],
    starts: &BTreeSet<u32>,
) -> Result<Items<Tree>, AllocError> {
    let mut copies = Items::new(alloc);
    for tree in trees {
        copies.push(with_words(alloc, tree, starts)?)?;
    }
    Ok(copies)
}

/// A program with the implied exports written in.
pub fn with_exports(
    alloc: Global,
    program: Tree,
    is_declaration_file: bool,
) -> Result<Tree, AllocError> {
    let starts = starts_of(alloc, program.read(), is_declaration_file)?;
    if starts.is_empty() {
        Ok(program)
    } else {
        with_words(alloc, &program, &starts)
    }
}
