//! The numbers of all names of a tree, from the top down.
use crate::binds::{
    bind_body, bind_pattern, bind_statement, bind_statements, bind_type_params, bind_variables,
    bind_vars,
};
use crate::numbers::{Numbered, Numbers, with_numbers};
use crate::scope::{ANY, GroupNo, Meaning, NAMESPACE, ScopeNo, Scopes, TYPE, VALUE, number_of};
use fast_check_source_walks::Waiting;
use fast_check_tree_forms_classes::{Class, Constructor, Function, StaticBlock};
use fast_check_tree_forms_expressions::{ArrowExpr, ClassExpr, FnExpr, GetterProp, SetterProp};
use fast_check_tree_forms_programs::{
    ExportDecl, ExportDefaultDecl, ExportDefaultExpr, Ident, ImportDecl, ImportDefaultSpecifier,
    ImportNamedSpecifier, ImportStarAsSpecifier, Module, TsExportAssignment, TsImportEqualsDecl,
};
use fast_check_tree_forms_statements::{
    BlockStmt, CatchClause, ClassDecl, FnDecl, ForInStmt, ForOfStmt, ForStmt, LabeledStmt,
    SwitchCase, SwitchStmt, TsEnumDecl, TsEnumMember, TsInterfaceDecl, TsModuleBlock, TsModuleDecl,
    TsNamespaceDecl, TsTypeAliasDecl,
};
use fast_check_tree_forms_types::{
    TsCallSignatureDecl, TsConstructSignatureDecl, TsConstructorType, TsFnType, TsTupleElement,
};
use fast_check_tree_syntax::{Atom, Kind, Part, SourceRange, Tree};
use std::alloc::{AllocError, Global};
use std::collections::BTreeMap;

// A part that is still to be visited.
#[derive(Clone, Copy)]
struct Task<'a> {
    part: Part<'a>,
    scope: ScopeNo,
    // Whether it is the body of a function, which stands in the scope of its parameters.
    is_body: bool,
    ambient: bool,
}

/// The scopes that were opened so far, and the numbers that were given. Where memory runs out a part is left out, and one of them says so.
#[derive(Drop)]
pub struct Visit<'a> {
    pub scopes: Scopes,
    pub numbers: Numbers,
    alloc: Global,
    // Whether all that is written here is declared: a file of declarations, or what stands behind `declare`.
    ambient: bool,
    // The scopes of the blocks of namespaces and enums, by where they begin.
    blocks: BTreeMap<u32, ScopeNo>,
    // What is still to be visited, the next part last.
    waiting: Waiting<Task<'a>>,
}

// The declaration that an item is, also behind `export`.
fn declared(item: Part<'_>) -> Part<'_> {
    if item.kind() == Kind::ExportDecl {
        ExportDecl::of(item).decl
    } else {
        item
    }
}

fn is_exported(item: Part<'_>) -> bool {
    match item.kind() {
        Kind::ExportDecl | Kind::ExportDefaultDecl => true,
        Kind::TsImportEqualsDecl => TsImportEqualsDecl::of(item).is_export,
        _ => false,
    }
}

// A block of a namespace or an enum: its name, and where it begins.
fn block_of(decl: Part<'_>) -> Option<(bool, &str, u32)> {
    let (is_enum, id, span) = match decl.kind() {
        Kind::TsEnumDecl => {
            let TsEnumDecl { span, id, .. } = TsEnumDecl::of(decl);
            (true, id, span)
        }
        Kind::TsModuleDecl => {
            let TsModuleDecl { span, id, .. } = TsModuleDecl::of(decl);
            (false, id, span)
        }
        _ => return None,
    };
    if id.kind() == Kind::Ident {
        Some((is_enum, Ident::of(id).sym, span.start.0))
    } else {
        None
    }
}

impl<'a> Visit<'a> {
    fn opened(&mut self, what: Numbered, span: SourceRange, scope: ScopeNo) {
        self.numbers.set(what, span.start.0, number_of(scope));
    }

    // What a block of a namespace or an enum shows to its other blocks.
    fn show(&mut self, scope: ScopeNo, decl: Part<'a>) {
        if decl.kind() == Kind::TsEnumDecl {
            for member in TsEnumDecl::of(decl).members.parts() {
                let name = TsEnumMember::of(member.read()).id;
                if name.kind() == Kind::Ident {
                    self.scopes.show(scope, Ident::of(name).sym, VALUE);
                }
            }
            return;
        }
        let TsModuleDecl { declare, body, .. } = TsModuleDecl::of(decl);
        if body.kind() != Kind::TsModuleBlock {
            return;
        }
        let shown = self.scopes.open(None);
        for item in TsModuleBlock::of(body).body.parts() {
            if self.ambient || declare || is_exported(item.read()) {
                bind_statement(&mut self.scopes, shown, item.read());
                bind_vars(&mut self.scopes, shown, item.read());
            }
        }
        self.scopes.show_all(scope, shown)
    }

    // Opens the scope of a block of a namespace or an enum, beside those of its other blocks.
    fn open_block(
        &mut self,
        groups: &mut BTreeMap<(bool, Atom), GroupNo>,
        scope: ScopeNo,
        decl: Part<'a>,
    ) -> Result<(), AllocError> {
        let Some((is_enum, name, start)) = block_of(decl) else {
            return Ok(());
        };
        let inner = self.scopes.open(Some(scope));
        self.show(inner, decl);
        let _ = self.blocks.insert(start, inner)?;
        let key = (is_enum, Atom::from_str(self.alloc, name)?);
        let group = match groups.get(&key) {
            Some(group) => *group,
            None => {
                let group = self.scopes.group();
                let _ = groups.insert(key, group)?;
                group
            }
        };
        self.scopes.join(group, inner);
        Ok(())
    }

    // Opens the scopes of the blocks of namespaces and enums that stand beside one another.
    fn open_blocks(&mut self, scope: ScopeNo, items: Part<'a>) {
        let mut groups: BTreeMap<(bool, Atom), GroupNo> = BTreeMap::new(self.alloc);
        for item in items.parts() {
            let decl = declared(item.read());
            if self.open_block(&mut groups, scope, decl).is_err() {
                self.scopes.lacks = true;
            }
        }
    }

    // The scope of a block, which is open already where it stands beside others.
    fn block_scope(&mut self, scope: ScopeNo, span: SourceRange) -> ScopeNo {
        match self.blocks.get(&span.start.0) {
            Some(found) => *found,
            None => self.scopes.open(Some(scope)),
        }
    }

    fn push(&mut self, scope: ScopeNo, part: Part<'a>, is_body: bool) {
        if part.kind() != Kind::Leaf {
            let ambient = self.ambient;
            self.waiting.push(Task {
                part,
                scope,
                is_body,
                ambient,
            });
        }
    }

    /// Has a part visited before all that waits so far.
    pub fn later(&mut self, scope: ScopeNo, part: Part<'a>) {
        self.push(scope, part, false)
    }

    // The same of the body of a function.
    fn later_body(&mut self, scope: ScopeNo, body: Part<'a>) {
        self.push(scope, body, true)
    }

    /// Has the parts of a part visited, the first one first.
    pub fn each(&mut self, scope: ScopeNo, part: Part<'a>) {
        for inner in part.parts().iter().rev() {
            self.later(scope, inner.read());
        }
    }

    // Visits what waits.
    fn visit_all(&mut self) {
        for _turn in 0..u64::MAX {
            let Some(task) = self.waiting.pop() else {
                break;
            };
            self.ambient = task.ambient;
            if task.is_body {
                self.body(task.scope, task.part);
            } else {
                self.visit(task.scope, task.part);
            }
        }
    }

    /// Numbers the names of a part that stands in a scope.
    fn visit(&mut self, scope: ScopeNo, part: Part<'a>) {
        match part.kind() {
            Kind::Ident => self.resolve(scope, part, VALUE),
            Kind::BindingIdent => self.binding(scope, part),
            Kind::TsTypeRef
            | Kind::TsTypeQuery
            | Kind::TsImportType
            | Kind::TsConditionalType
            | Kind::TsMappedType
            | Kind::TsTypeParam => self.visit_type(scope, part),
            Kind::TsPropertySignature
            | Kind::TsGetterSignature
            | Kind::TsSetterSignature
            | Kind::TsMethodSignature
            | Kind::TsIndexSignature => self.visit_member(scope, part),
            Kind::TsExprWithTypeArgs => self.heir(scope, part),
            Kind::TsFnType => {
                let TsFnType {
                    params,
                    type_params,
                    type_ann,
                    ..
                } = TsFnType::of(part);
                self.signature(scope, params, type_params, type_ann)
            }
            Kind::TsConstructorType => {
                let TsConstructorType {
                    params,
                    type_params,
                    type_ann,
                    ..
                } = TsConstructorType::of(part);
                self.signature(scope, params, type_params, type_ann)
            }
            Kind::TsCallSignatureDecl => {
                let TsCallSignatureDecl {
                    params,
                    type_params,
                    type_ann,
                    ..
                } = TsCallSignatureDecl::of(part);
                self.signature(scope, params, type_params, type_ann)
            }
            Kind::TsConstructSignatureDecl => {
                let TsConstructSignatureDecl {
                    params,
                    type_params,
                    type_ann,
                    ..
                } = TsConstructSignatureDecl::of(part);
                self.signature(scope, params, type_params, type_ann)
            }
            Kind::TsTupleElement => self.later(scope, TsTupleElement::of(part).ty),
            Kind::BlockStmt => self.block(scope, part),
            Kind::Function
            | Kind::ArrowExpr
            | Kind::Constructor
            | Kind::StaticBlock
            | Kind::GetterProp
            | Kind::SetterProp => { self.function_like(scope, part) }
            Kind::FnDecl
            | Kind::ClassDecl
            | Kind::FnExpr
            | Kind::ClassExpr
            | Kind::TsInterfaceDecl
            | Kind::TsTypeAliasDecl
            | Kind::TsEnumDecl
            | Kind::TsModuleDecl => self.declaration(scope, part),
            Kind::ForStmt
            | Kind::ForInStmt
            | Kind::ForOfStmt
            | Kind::SwitchStmt
            | Kind::CatchClause => { self.statement(scope, part) }
            Kind::LabeledStmt => self.later(scope, LabeledStmt::of(part).body),
            Kind::BreakStmt | Kind::ContinueStmt | Kind::ExportAll | Kind::TsNamespaceExportDecl =>
                {},
            Kind::ImportDecl => self.import(scope, ImportDecl::of(part).specifiers),
            Kind::NamedExport => self.named_export(scope, part),
            Kind::TsImportEqualsDecl => self.import_equals(scope, part),
            Kind::ExportDefaultExpr => self.exported(scope, ExportDefaultExpr::of(part).expr),
            Kind::TsExportAssignment => self.exported(scope, TsExportAssignment::of(part).expr),
            Kind::ExportDefaultDecl => self.default_decl(scope, ExportDefaultDecl::of(part).decl),
            _ => self.each(scope, part),
        }
    }

    fn exported(&mut self, scope: ScopeNo, expr: Part<'a>) {
        if expr.kind() == Kind::Ident {
            self.resolve(scope, expr, ANY)
        } else {
            self.later(scope, expr)
        }
    }

    fn import(&mut self, scope: ScopeNo, specifiers: Part<'a>) {
        for specifier in specifiers.parts() {
            let specifier = specifier.read();
            let local = match specifier.kind() {
                Kind::ImportNamedSpecifier => ImportNamedSpecifier::of(specifier).local,
                Kind::ImportDefaultSpecifier => ImportDefaultSpecifier::of(specifier).local,
                _ => ImportStarAsSpecifier::of(specifier).local,
            };
            self.resolve(scope, local, ANY);
        }
    }

    fn block(&mut self, scope: ScopeNo, block: Part<'a>) {
        let BlockStmt { span, stmts, .. } = BlockStmt::of(block);
        let inner = self.scopes.open(Some(scope));
        bind_statements(&mut self.scopes, inner, stmts);
        self.open_blocks(inner, stmts);
        self.opened(Numbered::Block, span, inner);
        self.later(inner, stmts)
    }

    // The body of a function, in whose scope it stands.
    fn body(&mut self, scope: ScopeNo, body: Part<'a>) {
        if body.kind() != Kind::BlockStmt {
            return self.later(scope, body);
        }
        let BlockStmt { span, stmts, .. } = BlockStmt::of(body);
        bind_body(&mut self.scopes, scope, stmts);
        self.open_blocks(scope, stmts);
        self.opened(Numbered::Block, span, scope);
        self.later(scope, stmts)
    }

    // A function in its scope.
    fn function(&mut self, inner: ScopeNo, function: Part<'a>) {
        let Function {
            span,
            params,
            decorators,
            body,
            type_params,
            return_type,
            ..
        } = Function::of(function);
        bind_type_params(&mut self.scopes, inner, type_params);
        bind_pattern(&mut self.scopes, inner, params);
        self.opened(Numbered::Function, span, inner);
        let outer = self.scopes.parent(inner);
        self.later(inner, return_type);
        self.later(inner, type_params);
        self.later_body(inner, body);
        self.later(outer, decorators);
        self.later(inner, params)
    }

    // What has a scope of its own, as a function has.
    fn function_like(&mut self, scope: ScopeNo, part: Part<'a>) {
        let inner = self.scopes.open(Some(scope));
        match part.kind() {
            Kind::Function => self.function(inner, part),
            Kind::ArrowExpr => {
                let ArrowExpr {
                    span,
                    params,
                    body,
                    type_params,
                    return_type,
                    ..
                } = ArrowExpr::of(part);
                bind_type_params(&mut self.scopes, inner, type_params);
                bind_pattern(&mut self.scopes, inner, params);
                self.opened(Numbered::Arrow, span, inner);
                self.later_body(inner, body);
                self.later(inner, return_type);
                self.later(inner, type_params);
                self.later(inner, params)
            }
            Kind::Constructor => {
                let Constructor {
                    span,
                    params,
                    body,
                    ..
                } = Constructor::of(part);
                bind_pattern(&mut self.scopes, inner, params);
                self.opened(Numbered::Constructor, span, inner);
                self.later_body(inner, body);
                self.later(inner, params)
            }
            Kind::StaticBlock => self.later_body(inner, StaticBlock::of(part).body),
            Kind::GetterProp => {
                let GetterProp {
                    key,
                    type_ann,
                    body,
                    ..
                } = GetterProp::of(part);
                self.later_body(inner, body);
                self.later(inner, type_ann);
                self.later(scope, key)
            }
            _ => {
                let SetterProp {
                    key,
                    param,
                    body,
                    ..
                } = SetterProp::of(part);
                self.later(scope, key);
                bind_pattern(&mut self.scopes, inner, param);
                self.later_body(inner, body);
                self.later(inner, param)
            }
        }
    }

    // A class in its scope.
    fn class(&mut self, inner: ScopeNo, class: Part<'a>) {
        let Class {
            span,
            type_params,
            ..
        } = Class::of(class);
        bind_type_params(&mut self.scopes, inner, type_params);
        self.opened(Numbered::Class, span, inner);
        self.each(inner, class)
    }

    // A declaration behind `export default`, whose name stands in the scope around it.
    fn default_decl(&mut self, scope: ScopeNo, decl: Part<'a>) {
        match decl.kind() {
            Kind::FnExpr => {
                let FnExpr { ident, function } = FnExpr::of(decl);
                self.resolve(scope, ident, VALUE);
                self.later(scope, function)
            }
            Kind::ClassExpr => {
                let ClassExpr { ident, class } = ClassExpr::of(decl);
                self.resolve(scope, ident, VALUE);
                let inner = self.scopes.open(Some(scope));
                self.class(inner, class)
            }
            _ => self.later(scope, decl),
        }
    }

    fn declaration(&mut self, scope: ScopeNo, decl: Part<'a>) {
        match decl.kind() {
            Kind::FnDecl => self.declared_function(scope, decl),
            Kind::ClassDecl => self.declared_class(scope, decl),
            Kind::FnExpr => self.function_value(scope, decl),
            Kind::ClassExpr => self.class_value(scope, decl),
            Kind::TsInterfaceDecl => self.interface(scope, decl),
            Kind::TsTypeAliasDecl => self.alias(scope, decl),
            Kind::TsEnumDecl => self.enumeration(scope, decl),
            _ => self.namespace(scope, decl),
        }
    }

    fn declared_function(&mut self, scope: ScopeNo, decl: Part<'a>) {
        let FnDecl {
            ident,
            function,
            ..
        } = FnDecl::of(decl);
        self.resolve(scope, ident, VALUE);
        self.later(scope, function)
    }

    fn declared_class(&mut self, scope: ScopeNo, decl: Part<'a>) {
        let ClassDecl { ident, class, .. } = ClassDecl::of(decl);
        self.resolve(scope, ident, VALUE);
        let inner = self.scopes.open(Some(scope));
        self.class(inner, class)
    }

    // The scope within a function or a class that is a value, in which its name is bound if it has one.
    fn open_named(&mut self, scope: ScopeNo, ident: Part<'a>, meaning: Meaning) -> ScopeNo {
        let inner = self.scopes.open(Some(scope));
        if ident.kind() == Kind::Ident {
            self.scopes.bind(inner, Ident::of(ident).sym, meaning);
        }
        self.resolve(inner, ident, VALUE);
        inner
    }

    fn function_value(&mut self, scope: ScopeNo, decl: Part<'a>) {
        let FnExpr { ident, function } = FnExpr::of(decl);
        let inner = self.open_named(scope, ident, VALUE);
        self.function(inner, function)
    }

    fn class_value(&mut self, scope: ScopeNo, decl: Part<'a>) {
        let ClassExpr { ident, class } = ClassExpr::of(decl);
        let inner = self.open_named(scope, ident, VALUE.with(TYPE));
        self.class(inner, class)
    }

    // The scope within a type that is declared, in which its type parameters are bound.
    fn open_type(&mut self, scope: ScopeNo, id: Part<'a>, type_params: Part<'a>) -> ScopeNo {
        let inner = self.scopes.open(Some(scope));
        bind_type_params(&mut self.scopes, inner, type_params);
        self.resolve(scope, id, TYPE);
        inner
    }

    fn interface(&mut self, scope: ScopeNo, decl: Part<'a>) {
        let TsInterfaceDecl {
            id,
            type_params,
            extends,
            body,
            ..
        } = TsInterfaceDecl::of(decl);
        let inner = self.open_type(scope, id, type_params);
        self.later(inner, body);
        self.later(inner, extends);
        self.later(inner, type_params)
    }

    fn alias(&mut self, scope: ScopeNo, decl: Part<'a>) {
        let TsTypeAliasDecl {
            id,
            type_params,
            type_ann,
            ..
        } = TsTypeAliasDecl::of(decl);
        let inner = self.open_type(scope, id, type_params);
        self.later(inner, type_ann);
        self.later(inner, type_params)
    }

    fn enumeration(&mut self, scope: ScopeNo, decl: Part<'a>) {
        let TsEnumDecl {
            span,
            id,
            members,
            ..
        } = TsEnumDecl::of(decl);
        self.resolve(scope, id, TYPE);
        let inner = self.block_scope(scope, span);
        for member in members.parts() {
            let name = TsEnumMember::of(member.read()).id;
            if name.kind() == Kind::Ident {
                self.scopes.bind(inner, Ident::of(name).sym, VALUE);
            }
        }
        self.later(inner, members)
    }

    fn namespace(&mut self, scope: ScopeNo, decl: Part<'a>) {
        let TsModuleDecl {
            span,
            declare,
            global,
            id,
            body,
            ..
        } = TsModuleDecl::of(decl);
        if !global {
            self.resolve(scope, id, NAMESPACE);
        }
        if body.is_absent() {
            return;
        }
        let inner = self.block_scope(scope, span);
        let outer = self.ambient;
        self.ambient = outer || declare;
        self.namespace_body(inner, body);
        self.ambient = outer;
    }

    // The names of `a.b.c` but for the first, and the block behind them.
    fn namespace_body(&mut self, scope: ScopeNo, body: Part<'a>) {
        let mut inner = scope;
        let mut at = body;
        for _turn in 0..u64::MAX {
            if at.kind() != Kind::TsNamespaceDecl {
                break;
            }
            let TsNamespaceDecl { id, body, .. } = TsNamespaceDecl::of(at);
            if id.kind() == Kind::Ident {
                self.scopes
                    .bind(inner, Ident::of(id).sym, VALUE.with(NAMESPACE));
            }
            self.resolve(inner, id, NAMESPACE);
            inner = self.scopes.open(Some(inner));
            at = body;
        }
        let items = TsModuleBlock::of(at).body;
        bind_body(&mut self.scopes, inner, items);
        self.open_blocks(inner, items);
        self.later(inner, items)
    }

    fn statement(&mut self, scope: ScopeNo, stmt: Part<'a>) {
        if stmt.kind() == Kind::SwitchStmt {
            let SwitchStmt {
                discriminant,
                cases,
                ..
            } = SwitchStmt::of(stmt);
            self.later(scope, discriminant);
            let inner = self.scopes.open(Some(scope));
            for case in cases.parts() {
                bind_statements(&mut self.scopes, inner, SwitchCase::of(case.read()).cons);
            }
            return self.later(inner, cases);
        }
        let inner = self.scopes.open(Some(scope));
        match stmt.kind() {
            Kind::ForStmt => bind_variables(&mut self.scopes, inner, ForStmt::of(stmt).init, false),
            Kind::ForInStmt => bind_variables(
                &mut self.scopes,
                inner,
                ForInStmt::of(stmt).left,
                false,
            ),
            Kind::ForOfStmt => bind_variables(
                &mut self.scopes,
                inner,
                ForOfStmt::of(stmt).left,
                false,
            ),
            _ => bind_pattern(&mut self.scopes, inner, CatchClause::of(stmt).param),
        }
        self.each(inner, stmt)
    }
}

/// A copy of a file's tree in which each name has the number of its scope: 1 where nothing binds it, and 2 at the top.
/// In a file of declarations, `ambient`, each block of a namespace shows all that it declares to its other blocks.
pub fn with_scopes(alloc: Global, tree: &Tree, ambient: bool) -> Result<Tree, AllocError> {
    let mut visit = Visit {
        scopes: Scopes::new(alloc),
        numbers: Numbers::new(alloc),
        alloc,
        ambient,
        blocks: BTreeMap::new(alloc),
        waiting: Waiting::new(alloc),
    };
    let top = visit.scopes.open(None);
    let body = Module::of(tree.read()).body;
    bind_body(&mut visit.scopes, top, body);
    visit.open_blocks(top, body);
    visit.later(top, body);
    visit.visit_all();
    if visit.scopes.lacks || visit.numbers.lacks || visit.waiting.lacks {
        return Err(AllocError);
    }
    with_numbers(alloc, tree, &visit.numbers, 0)
}
