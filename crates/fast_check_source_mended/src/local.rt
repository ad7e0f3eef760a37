//! Types that have a name of a body, which no skeleton could say.
use crate::statements::variables_of;
use fast_check_source_references::declared::{BoundNames, declarators, name_of};
use fast_check_source_walks::Waiting;
use fast_check_tree_forms_programs::Ident;
use fast_check_tree_forms_statements::BlockStmt;
use fast_check_tree_forms_types::{
    TsGetterSignature, TsMethodSignature, TsPropertySignature, TsQualifiedName, TsSetterSignature,
    TsTypeRef,
};
use fast_check_tree_syntax::{Kind, Part};
use std::alloc::{AllocError, Global};
use std::collections::BTreeSet;

// The names that a body declares.
#[derive(Drop)]
struct Declared<'a> {
    all: BTreeSet<&'a str>,
    types: BTreeSet<&'a str>,
    // Those in which types may stand.
    spaces: BTreeSet<&'a str>,
}

// The first of the names of which one is made.
fn first_name(name: Part<'_>) -> &str {
    let mut at = name;
    for _turn in 0..u64::MAX {
        if at.kind() != Kind::TsQualifiedName {
            break;
        }
        at = TsQualifiedName::of(at).left;
    }
    Ident::of(at).sym
}

impl<'a> Declared<'a> {
    fn new(alloc: Global) -> Declared<'a> {
        Declared {
            all: BTreeSet::new(alloc),
            types: BTreeSet::new(alloc),
            spaces: BTreeSet::new(alloc),
        }
    }

    // Notes a name that a kind of statement declares.
    fn declare(&mut self, kind: Kind, name: Part<'a>) -> Result<(), AllocError> {
        if name.kind() != Kind::Ident {
            return Ok(());
        }
        let name = Ident::of(name).sym;
        let _ = self.all.insert(name)?;
        if matches!(
            kind,
            Kind::ClassDecl | Kind::TsInterfaceDecl | Kind::TsTypeAliasDecl | Kind::TsEnumDecl
        ) {
            let _ = self.types.insert(name)?;
        }
        if matches!(kind, Kind::TsEnumDecl | Kind::TsModuleDecl) {
            let _ = self.spaces.insert(name)?;
        }
        Ok(())
    }

    // Notes the names of a variable, or of a list of these.
    fn declare_all(&mut self, alloc: Global, variables: Part<'a>) -> Result<(), AllocError> {
        let mut names = BoundNames::of(alloc, variables);
        for _turn in 0..u64::MAX {
            let Some(name) = names.next() else {
                break;
            };
            self.declare(Kind::VarDecl, name)?;
        }
        if names.lacks() {
            Err(AllocError)
        } else {
            Ok(())
        }
    }

    // Notes the names that a statement declares in the body.
    fn declare_statement(&mut self, alloc: Global, statement: Part<'a>) -> Result<(), AllocError> {
        if let Some(name) = name_of(statement) {
            self.declare(statement.kind(), name)?;
        }
        if let Some(decls) = declarators(statement) {
            self.declare_all(alloc, decls)?;
        }
        for variable in variables_of(alloc, statement)? {
            self.declare_all(alloc, variable.declarator)?;
        }
        Ok(())
    }

    // Whether a part of a type refers to one of them.
    fn has(&self, part: Part<'a>) -> bool {
        match part.kind() {
            Kind::Ident => self.all.contains(&Ident::of(part).sym),
            Kind::TsTypeRef => {
                let name = TsTypeRef::of(part).type_name;
                let names = if name.kind() == Kind::Ident {
                    &self.types
                } else {
                    &self.spaces
                };
                names.contains(&first_name(name))
            }
            _ => false,
        }
    }
}

// The names that a body declares.
fn names_in<'a>(alloc: Global, block: Part<'a>) -> Result<Declared<'a>, AllocError> {
    let mut made = Declared::new(alloc);
    for statement in BlockStmt::of(block).stmts.parts() {
        made.declare_statement(alloc, statement.read())?;
    }
    Ok(made)
}

// Whether a name that stands in a part of a type itself refers to no value.
fn is_no_value(part: Part<'_>) -> bool {
    match part.kind() {
        Kind::TsPropertySignature => !TsPropertySignature::of(part).computed,
        Kind::TsMethodSignature => !TsMethodSignature::of(part).computed,
        Kind::TsGetterSignature => !TsGetterSignature::of(part).computed,
        Kind::TsSetterSignature => !TsSetterSignature::of(part).computed,
        kind => matches!(
            kind,
            Kind::TsTypeRef
                | Kind::TsImportType
                | Kind::TsTypePredicate
                | Kind::TsTypeParam
                | Kind::BindingIdent
        ),
    }
}

// Pushes the parts of a type in which values and types may be named.
fn push_naming<'a>(part: Part<'a>, waiting: &mut Waiting<Part<'a>>) {
    let is_no_value = is_no_value(part);
    for inner in part.parts() {
        let inner = inner.read();
        if !is_no_value || !matches!(inner.kind(), Kind::Ident | Kind::TsQualifiedName) {
            waiting.push(inner);
        }
    }
}

/// Whether a type refers to what a body declares.
pub fn is_local<'a>(
    alloc: Global,
    block: Part<'a>,
    type_ann: Part<'a>,
) -> Result<bool, AllocError> {
    let names = names_in(alloc, block)?;
    let mut waiting = Waiting::new(alloc);
    waiting.push(type_ann);
    let mut is_local = false;
    for _turn in 0..u64::MAX {
        let Some(next) = waiting.pop() else {
            break;
        };
        is_local = is_local || names.has(next);
        push_naming(next, &mut waiting);
    }
    if waiting.lacks {
        Err(AllocError)
    } else {
        Ok(is_local)
    }
}
