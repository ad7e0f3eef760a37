//! What is read of members of classes and interfaces, beside their types.
use crate::names::{key_name, nothing, text_of};
use fast_check_tree_forms_classes::{
    AutoAccessor, ClassMethod, ClassProp, Constructor, Function, TsIndexSignature,
};
use fast_check_tree_forms_types::{
    TsCallSignatureDecl, TsConstructSignatureDecl, TsGetterSignature, TsMethodSignature,
    TsPropertySignature, TsSetterSignature,
};
use fast_check_tree_syntax::{Kind, Part, SourceRange, Word};

/// What stands behind the name of a private static member beside another private one of that name, since the program takes both for one. No name has a blank.
pub const STATIC: &str = " static";

/// What is read of a member of a class.
#[derive(Clone, Copy)]
pub struct Member<'a> {
    pub span: SourceRange,
    /// Absent where it has none.
    pub key: Part<'a>,
    pub is_static: bool,
    pub is_private: bool,
    pub body: Option<bool>,
}

/// What is read of a member of an interface.
#[derive(Clone, Copy)]
pub struct Signature<'a> {
    pub span: SourceRange,
    pub name: Option<&'a str>,
    /// The key, if it is computed.
    pub computed: Option<Part<'a>>,
}

fn without_mark(name: &str) -> &str {
    match name.strip_suffix(STATIC) {
        Some(name) => name,
        None => name,
    }
}

/// The name of a member, of which only a name that is written as one may have the mark.
pub fn member_key(key: Part<'_>) -> Option<&str> {
    let name = key_name(key)?;
    if key.kind() == Kind::IdentName {
        Some(without_mark(name))
    } else {
        Some(name)
    }
}

/// What is read of a member that has a symbol.
pub fn member_of(member: Part<'_>) -> Option<Member<'_>> {
    match member.kind() {
        Kind::Constructor => {
            let Constructor {
                span,
                key,
                body,
                accessibility,
                ..
            } = Constructor::of(member);
            Some(Member {
                span,
                key,
                is_static: false,
                is_private: accessibility.has_word(Word::Private),
                body: Some(!body.is_absent()),
            })
        }
        Kind::ClassMethod => {
            let ClassMethod {
                span,
                key,
                function,
                kind,
                is_static,
                accessibility,
                ..
            } = ClassMethod::of(member);
            let has_body = !Function::of(function).body.is_absent();
            Some(Member {
                span,
                key,
                is_static,
                is_private: accessibility.has_word(Word::Private),
                body: if kind.has_word(Word::Method) {
                    Some(has_body)
                } else {
                    None
                },
            })
        }
        Kind::ClassProp => {
            let ClassProp {
                span,
                key,
                is_static,
                accessibility,
                ..
            } = ClassProp::of(member);
            Some(Member {
                span,
                key,
                is_static,
                is_private: accessibility.has_word(Word::Private),
                body: None,
            })
        }
        Kind::AutoAccessor => {
            let AutoAccessor {
                span,
                key,
                is_static,
                accessibility,
                ..
            } = AutoAccessor::of(member);
            if key.kind() == Kind::PrivateName {
                return None;
            }
            Some(Member {
                span,
                key,
                is_static,
                is_private: accessibility.has_word(Word::Private),
                body: None,
            })
        }
        Kind::TsIndexSignature => {
            let TsIndexSignature {
                span,
                is_static,
                ..
            } = TsIndexSignature::of(member);
            Some(Member {
                span,
                key: nothing(member),
                is_static,
                is_private: false,
                body: None,
            })
        }
        _ => None,
    }
}

fn keyed<'a>(span: SourceRange, key: Part<'a>, computed: bool) -> Signature<'a> {
    let name = match key.kind() {
        Kind::Str | Kind::Number | Kind::BigInt => Some(text_of(key)),
        Kind::Ident if !computed => Some(text_of(key)),
        _ => None,
    };
    Signature {
        span,
        name,
        computed: if computed { Some(key) } else { None },
    }
}

fn unnamed<'a>(span: SourceRange) -> Signature<'a> {
    Signature {
        span,
        name: None,
        computed: None,
    }
}

/// What is read of a member of an interface.
pub fn signature_of(member: Part<'_>) -> Signature<'_> {
    match member.kind() {
        Kind::TsPropertySignature => {
            let TsPropertySignature {
                span,
                key,
                computed,
                ..
            } = TsPropertySignature::of(member);
            keyed(span, key, computed)
        }
        Kind::TsGetterSignature => {
            let TsGetterSignature {
                span,
                key,
                computed,
                ..
            } = TsGetterSignature::of(member);
            keyed(span, key, computed)
        }
        Kind::TsSetterSignature => {
            let TsSetterSignature {
                span,
                key,
                computed,
                ..
            } = TsSetterSignature::of(member);
            keyed(span, key, computed)
        }
        Kind::TsMethodSignature => {
            let TsMethodSignature {
                span,
                key,
                computed,
                ..
            } = TsMethodSignature::of(member);
            keyed(span, key, computed)
        }
        Kind::TsCallSignatureDecl => unnamed(TsCallSignatureDecl::of(member).span),
        Kind::TsConstructSignatureDecl => unnamed(TsConstructSignatureDecl::of(member).span),
        _ => unnamed(TsIndexSignature::of(member).span),
    }
}
