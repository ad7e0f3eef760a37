//! Declarations.
use crate::builder::{Binds, Declaration, Flags, PLAIN, SymbolNo, Tables, Target};
use crate::items::{Task, Way};
use fast_check_source_references::declared::{declarators, push_bound};
use fast_check_source_references::dependencies::Dependencies;
use fast_check_source_references::functions::type_of_pattern;
use fast_check_source_references::names::text_of;
use fast_check_source_walks::Waiting;
use fast_check_tree_forms_classes::{Class, Function};
use fast_check_tree_forms_expressions::ParenExpr;
use fast_check_tree_forms_statements::{
    ClassDecl, FnDecl, TsEnumDecl, TsEnumMember, TsInterfaceDecl, TsModuleBlock, TsModuleDecl,
    TsNamespaceDecl, TsTypeAliasDecl, UsingDecl, VarDecl, VarDeclarator,
};
use fast_check_tree_syntax::{Atom, Id, Kind, Part, SourceRange, Word};
use std::alloc::AllocError;

fn is_function_value(value: Part<'_>) -> bool {
    let mut at = value;
    for _turn in 0..u64::MAX {
        if at.kind() != Kind::ParenExpr {
            break;
        }
        at = ParenExpr::of(at).expr;
    }
    at.kind() == Kind::ArrowExpr || at.kind() == Kind::FnExpr
}

/// How a declaration stands in its module.
#[derive(Clone, Copy)]
pub struct Setting {
    pub parent: SymbolNo,
    pub is_ambient: bool,
    /// The range of the export that it stands in.
    pub exported: Option<SourceRange>,
}

impl Setting {
    fn flags(self) -> Flags {
        Flags {
            has_export_keyword: self.exported.is_some(),
            ..PLAIN
        }
    }

    fn range(self, own: SourceRange) -> SourceRange {
        match self.exported {
            Some(range) => range,
            None => own,
        }
    }
}

impl Tables {
    // The symbol of a name, or of what stands unnamed behind `export default`.
    fn symbol_or_default(&mut self, ident: Part<'_>, parent: SymbolNo) -> SymbolNo {
        match self.id(ident) {
            Some(id) => self.symbol_of(&id, parent),
            None => self.unnamed_default(parent),
        }
    }

    fn mark_function(&mut self, symbol: SymbolNo) {
        if let Some(draft) = self.drafts.get_mut(symbol.0) {
            draft.is_function = true;
        }
    }

    // A variable of a list.
    fn variable(
        &mut self,
        declarator: Part<'_>,
        id: &Id,
        is_const: bool,
        setting: Setting,
    ) -> SymbolNo {
        let VarDeclarator {
            span,
            name,
            init,
            ..
        } = VarDeclarator::of(declarator);
        let type_ann = type_of_pattern(name);
        let symbol = self.symbol_of(id, setting.parent);
        let mut dependencies = Dependencies::new(self.alloc);
        dependencies.type_or_value(type_ann, init);
        self.define(symbol, span, Binds::Value, setting.flags(), dependencies);
        if type_ann.is_absent() && is_const && is_function_value(init) {
            self.mark_function(symbol);
        }
        symbol
    }

    /// The variables of a list, whose symbols are added to those that were made.
    pub fn variables(
        &mut self,
        decl: Part<'_>,
        setting: Setting,
        made: &mut Vec<SymbolNo>,
    ) -> Result<(), AllocError> {
        let is_const = decl.kind() == Kind::VarDecl && VarDecl::of(decl).kind.has_word(Word::Const);
        let Some(decls) = declarators(decl) else {
            return Ok(());
        };
        for each in decls.parts() {
            let mut names = Vec::new(self.alloc);
            push_bound(self.alloc, VarDeclarator::of(each.read()).name, &mut names)?;
            for id in names.iter() {
                made.push(self.variable(each.read(), id, is_const, setting))?;
            }
        }
        Ok(())
    }

    /// A function. Overloads are told when all of them are known.
    pub fn function(
        &mut self,
        ident: Part<'_>,
        function: Part<'_>,
        range: SourceRange,
        parent: SymbolNo,
        flags: Flags,
    ) -> SymbolNo {
        let symbol = self.symbol_or_default(ident, parent);
        let mut dependencies = Dependencies::new(self.alloc);
        dependencies.function(function);
        let has_body = !Function::of(function).body.is_absent();
        let flags = Flags {
            is_function: true,
            ..flags
        };
        self.lacks |= dependencies.lacks;
        self.declare(
            symbol,
            Declaration {
                range,
                binds: Binds::Value,
                body: Some(has_body),
                target: Target::Definition(flags, dependencies),
            },
        );
        self.mark_function(symbol);
        symbol
    }

    /// A class with its members.
    pub fn class(
        &mut self,
        ident: Part<'_>,
        class: Part<'_>,
        range: SourceRange,
        setting: Setting,
        flags: Flags,
    ) -> SymbolNo {
        let symbol = self.symbol_or_default(ident, setting.parent);
        let Class {
            super_class,
            type_params,
            super_type_params,
            implements,
            ..
        } = Class::of(class);
        let mut dependencies = Dependencies::new(self.alloc);
        dependencies.written(type_params);
        dependencies.value(super_class);
        dependencies.written(super_type_params);
        dependencies.heritage(implements);
        self.class_members(symbol, class, setting.is_ambient, &mut dependencies);
        let flags = Flags {
            is_class: true,
            ..flags
        };
        self.define(symbol, range, Binds::Both, flags, dependencies);
        symbol
    }

    /// An interface with its members.
    pub fn interface(
        &mut self,
        interface: Part<'_>,
        range: SourceRange,
        parent: SymbolNo,
        flags: Flags,
    ) -> SymbolNo {
        let TsInterfaceDecl {
            id,
            type_params,
            extends,
            ..
        } = TsInterfaceDecl::of(interface);
        let symbol = self.symbol_or_default(id, parent);
        let mut dependencies = Dependencies::new(self.alloc);
        dependencies.written(type_params);
        dependencies.heritage(extends);
        self.define(symbol, range, Binds::Type, flags, dependencies);
        self.interface_members(symbol, interface);
        symbol
    }

    fn type_alias(&mut self, alias: Part<'_>, setting: Setting) -> SymbolNo {
        let TsTypeAliasDecl {
            span,
            id,
            type_params,
            type_ann,
            ..
        } = TsTypeAliasDecl::of(alias);
        let symbol = self.symbol_or_default(id, setting.parent);
        let mut dependencies = Dependencies::new(self.alloc);
        dependencies.written(type_params);
        dependencies.written(type_ann);
        self.define(
            symbol,
            setting.range(span),
            Binds::Type,
            setting.flags(),
            dependencies,
        );
        symbol
    }

    fn enum_member(&mut self, owner: SymbolNo, member: Part<'_>) -> Result<(), AllocError> {
        let TsEnumMember { span, id, .. } = TsEnumMember::of(member);
        let name = Atom::from_str(self.alloc, text_of(id))?;
        if self.export_of(owner, &name).is_some() {
            return Ok(());
        }
        let made = self.push_named(owner, name.as_str());
        let nothing = Dependencies::new(self.alloc);
        self.define(made, span, Binds::Both, PLAIN, nothing);
        if let Some(draft) = self.drafts.get_mut(made.0) {
            draft.of_enum = Some(owner);
        }
        self.export(owner, &name, made);
        Ok(())
    }

    // An enum, whose members are exports of it.
    fn enumeration(&mut self, decl: Part<'_>, setting: Setting) -> SymbolNo {
        let TsEnumDecl {
            span,
            id,
            members,
            ..
        } = TsEnumDecl::of(decl);
        let symbol = self.symbol_or_default(id, setting.parent);
        let mut dependencies = Dependencies::new(self.alloc);
        for member in members.parts() {
            dependencies.written(TsEnumMember::of(member.read()).init);
        }
        self.define(
            symbol,
            setting.range(span),
            Binds::Both,
            setting.flags(),
            dependencies,
        );
        for member in members.parts() {
            let done = self.enum_member(symbol, member.read());
            self.note(done);
        }
        symbol
    }

    // A namespace, whose body is still to be looked at.
    fn namespace<'a>(
        &mut self,
        decl: Part<'a>,
        setting: Setting,
        waiting: &mut Waiting<Task<'a>>,
    ) -> Option<SymbolNo> {
        let TsModuleDecl {
            span,
            declare,
            global,
            id,
            body,
            ..
        } = TsModuleDecl::of(decl);
        if global || id.kind() != Kind::Ident || body.is_absent() {
            return None;
        }
        let symbol = self.symbol_or_default(id, setting.parent);
        let flags = Flags {
            is_ts_namespace: true,
            ..setting.flags()
        };
        let nothing = Dependencies::new(self.alloc);
        self.define(symbol, setting.range(span), Binds::Both, flags, nothing);
        waiting.push(Task {
            part: body,
            symbol,
            is_ambient: setting.is_ambient || declare,
            way: Way::Body,
        });
        Some(symbol)
    }

    /// The body of a namespace.
    pub fn namespace_body<'a>(&mut self, task: Task<'a>, waiting: &mut Waiting<Task<'a>>) {
        let Task {
            part: body,
            symbol,
            ..
        } = task;
        if body.kind() != Kind::TsNamespaceDecl {
            waiting.push(Task {
                part: TsModuleBlock::of(body).body,
                way: Way::Items,
                ..task
            });
            return;
        }
        let TsNamespaceDecl { span, id, body, .. } = TsNamespaceDecl::of(body);
        let Some(name) = self.id(id) else {
            return;
        };
        self.join(&name, symbol);
        let inner = self.symbol_of(&name, symbol);
        let flags = Flags {
            is_ts_namespace: true,
            has_export_keyword: true,
            ..PLAIN
        };
        let nothing = Dependencies::new(self.alloc);
        self.define(inner, span, Binds::Both, flags, nothing);
        self.export(symbol, &name.0, inner);
        waiting.push(Task {
            part: body,
            symbol: inner,
            ..task
        });
    }

    fn class_declaration(&mut self, decl: Part<'_>, setting: Setting) -> SymbolNo {
        let ClassDecl {
            ident,
            declare,
            class,
        } = ClassDecl::of(decl);
        let Class {
            span,
            type_params,
            ..
        } = Class::of(class);
        let flags = Flags {
            is_plain_class_decl: type_params.is_absent(),
            ..setting.flags()
        };
        let inner = Setting {
            is_ambient: setting.is_ambient || declare,
            ..setting
        };
        self.class(ident, class, setting.range(span), inner, flags)
    }

    /// A declaration that is no list of variables, with the symbol that it declares.
    pub fn single<'a>(
        &mut self,
        decl: Part<'a>,
        setting: Setting,
        waiting: &mut Waiting<Task<'a>>,
    ) -> Option<SymbolNo> {
        match decl.kind() {
            Kind::FnDecl => {
                let FnDecl {
                    ident,
                    function,
                    ..
                } = FnDecl::of(decl);
                let range = setting.range(Function::of(function).span);
                Some(self.function(ident, function, range, setting.parent, setting.flags()))
            }
            Kind::ClassDecl => Some(self.class_declaration(decl, setting)),
            Kind::TsInterfaceDecl => {
                let range = setting.range(TsInterfaceDecl::of(decl).span);
                Some(self.interface(decl, range, setting.parent, setting.flags()))
            }
            Kind::TsTypeAliasDecl => Some(self.type_alias(decl, setting)),
            Kind::TsEnumDecl => Some(self.enumeration(decl, setting)),
            Kind::TsModuleDecl => self.namespace(decl, setting, waiting),
            _ => None,
        }
    }
}
