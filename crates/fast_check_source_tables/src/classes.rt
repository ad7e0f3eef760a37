//! Members of classes and interfaces. Static ones are exports of their class.
use crate::builder::{Binds, Declaration, Flags, PLAIN, SymbolNo, Tables, Target};
use fast_check_source_references::dependencies::Dependencies;
use fast_check_source_references::keys::{Member, Signature, member_key, member_of, signature_of};
use fast_check_source_references::names::{computed_of, text_of};
use fast_check_tree_forms_classes::{Class, Constructor, TsParamProp};
use fast_check_tree_forms_expressions::AssignPat;
use fast_check_tree_forms_programs::BindingIdent;
use fast_check_tree_forms_statements::{TsInterfaceBody, TsInterfaceDecl};
use fast_check_tree_syntax::{Atom, Kind, Part, Word};
use std::alloc::AllocError;

const MEMBER_FLAGS: Flags = Flags {
    is_member: true,
    ..PLAIN
};

impl Tables {
    fn owner_name(&self, owner: SymbolNo) -> Result<String, AllocError> {
        let text = match self.drafts.get(owner.0) {
            Some(draft) => match &draft.qualified {
                Some(text) => text.as_str(),
                None => "",
            },
            None => "",
        };
        String::from_str(self.alloc, text)
    }

    // A new symbol of a member, which has none by its name yet.
    fn new_member(
        &mut self,
        owner: SymbolNo,
        name: &Atom,
        is_static: bool,
        before: &str,
    ) -> Result<SymbolNo, AllocError> {
        let mut qualified = self.owner_name(owner)?;
        qualified.push_str(before)?;
        qualified.push_str(name.as_str())?;
        let own = String::from_str(self.alloc, name.as_str())?;
        let made = self.push(owner, Some(own), Some(qualified))?;
        if is_static {
            self.export(owner, name, made);
        } else if let Some(draft) = self.drafts.get_mut(owner.0) {
            draft.members.push(made)?;
            let _ = draft.member_names.insert(name.clone()?, made)?;
        }
        Ok(made)
    }

    // The symbol of a member of a name: declarations of one name share it.
    fn named_member(
        &mut self,
        owner: SymbolNo,
        name: &str,
        is_static: bool,
        before: &str,
    ) -> Result<SymbolNo, AllocError> {
        let name = Atom::from_str(self.alloc, name)?;
        let known = if is_static {
            self.export_of(owner, &name)
        } else {
            match self.drafts.get(owner.0) {
                Some(draft) => draft.member_names.get(&name).copied(),
                None => None,
            }
        };
        match known {
            Some(known) => Ok(known),
            None => self.new_member(owner, &name, is_static, before),
        }
    }

    fn unnamed_member(&mut self, owner: SymbolNo) -> Result<SymbolNo, AllocError> {
        let made = self.push(owner, None, None)?;
        if let Some(draft) = self.drafts.get_mut(owner.0) {
            draft.members.push(made)?;
        }
        Ok(made)
    }

    fn member_symbol(
        &mut self,
        owner: SymbolNo,
        name: Option<&str>,
        is_static: bool,
        before: &str,
    ) -> SymbolNo {
        let symbol = match name {
            Some(name) => self.named_member(owner, name, is_static, before),
            None => self.unnamed_member(owner),
        };
        self.made(symbol)
    }

    fn mark_private(&mut self, symbol: SymbolNo) {
        if let Some(draft) = self.drafts.get_mut(symbol.0) {
            draft.is_private = true;
        }
    }

    fn class_member(&mut self, owner: SymbolNo, part: Part<'_>, found: Member<'_>) {
        let before = if found.is_static { "." } else { ".prototype." };
        let symbol = self.member_symbol(owner, member_key(found.key), found.is_static, before);
        if found.is_private {
            self.mark_private(symbol);
        }
        let mut dependencies = Dependencies::new(self.alloc);
        if let Some(expr) = computed_of(found.key) {
            dependencies.value(expr);
        }
        dependencies.class_member(part);
        self.lacks |= dependencies.lacks;
        self.declare(
            symbol,
            Declaration {
                range: found.span,
                binds: Binds::Both,
                body: found.body,
                target: Target::Definition(MEMBER_FLAGS, dependencies),
            },
        );
    }

    fn param_property(&mut self, owner: SymbolNo, part: Part<'_>) {
        let TsParamProp {
            span,
            accessibility,
            param,
            ..
        } = TsParamProp::of(part);
        let pattern = if param.kind() == Kind::AssignPat {
            AssignPat::of(param).left
        } else {
            param
        };
        if pattern.kind() != Kind::BindingIdent {
            return;
        }
        let name = text_of(BindingIdent::of(pattern).id);
        let symbol = self.member_symbol(owner, Some(name), false, ".prototype.");
        if accessibility.has_word(Word::Private) {
            self.mark_private(symbol);
        }
        let mut dependencies = Dependencies::new(self.alloc);
        dependencies.parameter(param);
        self.define(symbol, span, Binds::Both, MEMBER_FLAGS, dependencies);
    }

    /// The members of a class, and the parameter properties of its constructors. A private member of an ambient class stands as it is written,
    /// so its class refers to what it does: the symbols of such members are answered, each at its declaration.
    pub fn class_members(
        &mut self,
        owner: SymbolNo,
        class: Part<'_>,
        is_ambient: bool,
        shared: &mut Dependencies,
    ) {
        for member in Class::of(class).body.parts() {
            let member = member.read();
            if let Some(found) = member_of(member) {
                self.class_member(owner, member, found);
                if found.is_private && is_ambient {
                    if let Some(expr) = computed_of(found.key) {
                        shared.value(expr);
                    }
                    shared.class_member(member);
                }
            }
            if member.kind() == Kind::Constructor {
                for param in Constructor::of(member).params.parts() {
                    if param.read().kind() == Kind::TsParamProp {
                        self.param_property(owner, param.read());
                    }
                }
            }
        }
    }

    /// The members of an interface.
    pub fn interface_members(&mut self, owner: SymbolNo, interface: Part<'_>) {
        let body = TsInterfaceDecl::of(interface).body;
        for member in TsInterfaceBody::of(body).body.parts() {
            let member = member.read();
            let Signature {
                span,
                name,
                computed,
            } = signature_of(member);
            let symbol = self.member_symbol(owner, name, false, ".");
            let mut dependencies = Dependencies::new(self.alloc);
            if let Some(key) = computed {
                dependencies.value(key);
            }
            dependencies.signature_member(member);
            self.define(symbol, span, Binds::Both, MEMBER_FLAGS, dependencies);
        }
    }
}
