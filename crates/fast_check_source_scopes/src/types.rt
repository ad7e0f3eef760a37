//! Names in types, in imports and in exports.
use crate::binds::{bind_inferred, bind_pattern, bind_type_params};
use crate::numbers::Numbered;
use crate::scope::{ANY, Meaning, NAMESPACE, ScopeNo, TYPE, VALUE};
use crate::visit::Visit;
use fast_check_tree_forms_classes::TsIndexSignature;
use fast_check_tree_forms_expressions::MemberExpr;
use fast_check_tree_forms_programs::{
    BindingIdent, ExportNamedSpecifier, Ident, NamedExport, TsImportEqualsDecl,
};
use fast_check_tree_forms_statements::TsExprWithTypeArgs;
use fast_check_tree_forms_types::{
    TsConditionalType, TsGetterSignature, TsImportType, TsMappedType, TsMethodSignature,
    TsPropertySignature, TsQualifiedName, TsSetterSignature, TsTypeParam, TsTypeQuery, TsTypeRef,
};
use fast_check_tree_syntax::{Kind, Part};

impl<'a> Visit<'a> {
    /// Numbers an identifier that is looked up as this.
    pub fn resolve(&mut self, scope: ScopeNo, ident: Part<'a>, meaning: Meaning) {
        if ident.kind() == Kind::Ident {
            let Ident { span, sym, .. } = Ident::of(ident);
            match self.scopes.find(scope, sym, meaning) {
                Ok(number) => self.numbers.set(Numbered::Ident, span.start.0, number),
                Err(_) => self.scopes.lacks = true,
            }
        }
    }

    /// Numbers the first name of a name with dots.
    pub fn entity(&mut self, scope: ScopeNo, name: Part<'a>, meaning: Meaning) {
        let mut at = name;
        let mut meaning = meaning;
        for _turn in 0..u64::MAX {
            if at.kind() != Kind::TsQualifiedName {
                break;
            }
            meaning = if meaning.value {
                VALUE.with(NAMESPACE)
            } else {
                NAMESPACE
            };
            at = TsQualifiedName::of(at).left;
        }
        self.resolve(scope, at, meaning)
    }

    /// A type whose names need more than a look at its parts, if it is one.
    pub fn visit_type(&mut self, scope: ScopeNo, ty: Part<'a>) {
        match ty.kind() {
            Kind::TsTypeRef => {
                let TsTypeRef {
                    type_name,
                    type_params,
                    ..
                } = TsTypeRef::of(ty);
                self.entity(scope, type_name, TYPE);
                self.later(scope, type_params)
            }
            Kind::TsTypeQuery => {
                let TsTypeQuery {
                    expr_name,
                    type_args,
                    ..
                } = TsTypeQuery::of(ty);
                if expr_name.kind() == Kind::TsImportType {
                    self.later(scope, expr_name);
                } else {
                    self.entity(scope, expr_name, VALUE);
                }
                self.later(scope, type_args)
            }
            Kind::TsImportType => self.later(scope, TsImportType::of(ty).type_args),
            Kind::TsConditionalType => self.conditional(scope, ty),
            Kind::TsMappedType => self.mapped(scope, ty),
            Kind::TsTypeParam => {
                let TsTypeParam {
                    name,
                    constraint,
                    default,
                    ..
                } = TsTypeParam::of(ty);
                self.resolve(scope, name, TYPE);
                self.later(scope, default);
                self.later(scope, constraint)
            }
            _ => self.each(scope, ty),
        }
    }

    fn conditional(&mut self, scope: ScopeNo, ty: Part<'a>) {
        let TsConditionalType {
            check_type,
            extends_type,
            true_type,
            false_type,
            ..
        } = TsConditionalType::of(ty);
        self.later(scope, check_type);
        let inner = self.scopes.open(Some(scope));
        bind_inferred(&mut self.scopes, inner, extends_type);
        self.later(scope, false_type);
        self.later(inner, true_type);
        self.later(inner, extends_type)
    }

    fn mapped(&mut self, scope: ScopeNo, ty: Part<'a>) {
        let TsMappedType {
            type_param,
            name_type,
            type_ann,
            ..
        } = TsMappedType::of(ty);
        let inner = self.scopes.open(Some(scope));
        let name = TsTypeParam::of(type_param).name;
        if name.kind() == Kind::Ident {
            self.scopes.bind(inner, Ident::of(name).sym, TYPE);
        }
        self.later(inner, type_ann);
        self.later(inner, name_type);
        self.later(inner, type_param)
    }

    /// A signature or a function type, in a scope of its own.
    pub fn signature(
        &mut self,
        scope: ScopeNo,
        params: Part<'a>,
        type_params: Part<'a>,
        type_ann: Part<'a>,
    ) {
        let inner = self.scopes.open(Some(scope));
        bind_type_params(&mut self.scopes, inner, type_params);
        bind_pattern(&mut self.scopes, inner, params);
        self.later(inner, type_ann);
        self.later(inner, type_params);
        self.later(inner, params)
    }

    fn key(&mut self, scope: ScopeNo, key: Part<'a>, computed: bool) {
        if computed {
            self.later(scope, key)
        }
    }

    /// A member of an interface or an object type, or an index signature.
    pub fn visit_member(&mut self, scope: ScopeNo, member: Part<'a>) {
        match member.kind() {
            Kind::TsPropertySignature => {
                let TsPropertySignature {
                    key,
                    computed,
                    type_ann,
                    ..
                } = TsPropertySignature::of(member);
                self.key(scope, key, computed);
                self.later(scope, type_ann)
            }
            Kind::TsGetterSignature => {
                let TsGetterSignature {
                    key,
                    computed,
                    type_ann,
                    ..
                } = TsGetterSignature::of(member);
                self.key(scope, key, computed);
                self.later(scope, type_ann)
            }
            Kind::TsSetterSignature => {
                let TsSetterSignature {
                    key,
                    computed,
                    params,
                    ..
                } = TsSetterSignature::of(member);
                self.key(scope, key, computed);
                let inner = self.scopes.open(Some(scope));
                bind_pattern(&mut self.scopes, inner, params);
                self.later(inner, params)
            }
            Kind::TsMethodSignature => {
                let TsMethodSignature {
                    key,
                    computed,
                    params,
                    type_ann,
                    type_params,
                    ..
                } = TsMethodSignature::of(member);
                self.key(scope, key, computed);
                self.signature(scope, params, type_params, type_ann)
            }
            _ => {
                let TsIndexSignature {
                    params,
                    type_ann,
                    ..
                } = TsIndexSignature::of(member);
                let inner = self.scopes.open(Some(scope));
                bind_pattern(&mut self.scopes, inner, params);
                self.later(inner, type_ann);
                self.later(inner, params)
            }
        }
    }

    // What an interface extends or a class implements, before its dots.
    fn heritage(&mut self, scope: ScopeNo, name: Part<'a>) {
        let mut at = name;
        let mut meaning = TYPE;
        for _turn in 0..u64::MAX {
            if at.kind() != Kind::MemberExpr {
                break;
            }
            let MemberExpr { obj, prop, .. } = MemberExpr::of(at);
            self.later(scope, prop);
            meaning = NAMESPACE;
            at = obj;
        }
        if at.kind() == Kind::Ident {
            self.resolve(scope, at, meaning)
        } else {
            self.later(scope, at)
        }
    }

    /// `A.B<C>` behind `extends` of an interface or `implements`.
    pub fn heir(&mut self, scope: ScopeNo, part: Part<'a>) {
        let TsExprWithTypeArgs {
            expr,
            type_args,
            ..
        } = TsExprWithTypeArgs::of(part);
        self.heritage(scope, expr);
        self.later(scope, type_args)
    }

    /// The names that are exported from here.
    pub fn named_export(&mut self, scope: ScopeNo, export: Part<'a>) {
        let NamedExport {
            specifiers,
            src,
            ..
        } = NamedExport::of(export);
        if !src.is_absent() {
            return;
        }
        for specifier in specifiers.parts() {
            let specifier = specifier.read();
            if specifier.kind() == Kind::ExportNamedSpecifier {
                self.resolve(scope, ExportNamedSpecifier::of(specifier).orig, ANY);
            }
        }
    }

    /// `import a = b.c`
    pub fn import_equals(&mut self, scope: ScopeNo, import: Part<'a>) {
        let TsImportEqualsDecl { id, module_ref, .. } = TsImportEqualsDecl::of(import);
        self.resolve(scope, id, ANY);
        if module_ref.kind() == Kind::TsExternalModuleRef {
            return;
        }
        self.entity(scope, module_ref, ANY)
    }

    /// A name as a pattern, with its type.
    pub fn binding(&mut self, scope: ScopeNo, part: Part<'a>) {
        let BindingIdent { id, type_ann } = BindingIdent::of(part);
        self.resolve(scope, id, VALUE);
        self.later(scope, type_ann)
    }
}
