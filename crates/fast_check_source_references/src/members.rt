//! What members of classes and interfaces refer to.
use crate::dependencies::Dependencies;
use fast_check_tree_forms_classes::{
    AutoAccessor, ClassMethod, ClassProp, Constructor, TsIndexSignature,
};
use fast_check_tree_forms_types::{
    TsCallSignatureDecl, TsConstructSignatureDecl, TsGetterSignature, TsMethodSignature,
    TsPropertySignature, TsSetterSignature,
};
use fast_check_tree_syntax::{Kind, Part};

impl Dependencies {
    /// What a member of a class refers to.
    pub fn class_member(&mut self, member: Part<'_>) {
        match member.kind() {
            Kind::Constructor => {
                let Constructor { params, body, .. } = Constructor::of(member);
                self.constructor(params, body)
            }
            Kind::ClassMethod => self.function(ClassMethod::of(member).function),
            Kind::ClassProp => {
                let ClassProp {
                    type_ann,
                    value,
                    ..
                } = ClassProp::of(member);
                self.type_or_value(type_ann, value)
            }
            Kind::AutoAccessor => {
                let AutoAccessor {
                    type_ann,
                    value,
                    ..
                } = AutoAccessor::of(member);
                self.type_or_value(type_ann, value)
            }
            Kind::TsIndexSignature => {
                let TsIndexSignature {
                    params,
                    type_ann,
                    ..
                } = TsIndexSignature::of(member);
                self.written(params);
                self.written(type_ann)
            }
            _ => {}
        }
    }

    /// What a member of an interface refers to.
    pub fn signature_member(&mut self, member: Part<'_>) {
        match member.kind() {
            Kind::TsPropertySignature => self.written(TsPropertySignature::of(member).type_ann),
            Kind::TsGetterSignature => self.written(TsGetterSignature::of(member).type_ann),
            Kind::TsSetterSignature => self.written(TsSetterSignature::of(member).params),
            Kind::TsMethodSignature => {
                let TsMethodSignature {
                    params,
                    type_ann,
                    type_params,
                    ..
                } = TsMethodSignature::of(member);
                self.written(type_params);
                self.written(params);
                self.written(type_ann)
            }
            Kind::TsCallSignatureDecl => {
                let TsCallSignatureDecl {
                    params,
                    type_ann,
                    type_params,
                    ..
                } = TsCallSignatureDecl::of(member);
                self.written(type_params);
                self.written(params);
                self.written(type_ann)
            }
            Kind::TsConstructSignatureDecl => {
                let TsConstructSignatureDecl {
                    params,
                    type_ann,
                    type_params,
                    ..
                } = TsConstructSignatureDecl::of(member);
                self.written(type_params);
                self.written(params);
                self.written(type_ann)
            }
            _ => self.class_member(member),
        }
    }
}
