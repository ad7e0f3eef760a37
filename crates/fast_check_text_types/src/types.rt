//! Types.
use crate::members::members;
use crate::names::template;
use fast_check_text_writer::Printer;
use fast_check_tree_forms_types::{
    TsArrayType, TsConditionalType, TsConstructorType, TsFnType, TsImportType, TsIndexedAccessType,
    TsInferType, TsIntersectionType, TsKeywordType, TsLitType, TsMappedType, TsOptionalType,
    TsParenthesizedType, TsRestType, TsTplLitType, TsTupleElement, TsTupleType, TsTypeLit,
    TsTypeOperator, TsTypeParam, TsTypePredicate, TsTypeQuery, TsTypeRef, TsUnionType,
};
use fast_check_tree_syntax::{Kind, Part, Word};

// Kinds that bind looser than what may stand around them.
const LOOSE: &[Kind] = &[
    Kind::TsFnType,
    Kind::TsConstructorType,
    Kind::TsConditionalType,
];

const LOOSE_OR_UNION: &[Kind] = &[
    Kind::TsFnType,
    Kind::TsConstructorType,
    Kind::TsConditionalType,
    Kind::TsUnionType,
];

const LOOSE_OR_MANY: &[Kind] = &[
    Kind::TsFnType,
    Kind::TsConstructorType,
    Kind::TsConditionalType,
    Kind::TsUnionType,
    Kind::TsIntersectionType,
];

const BEFORE_BRACKETS: &[Kind] = &[
    Kind::TsFnType,
    Kind::TsConstructorType,
    Kind::TsConditionalType,
    Kind::TsUnionType,
    Kind::TsIntersectionType,
    Kind::TsTypeOperator,
    Kind::TsInferType,
];

const BEFORE_QUESTION: &[Kind] = &[
    Kind::TsFnType,
    Kind::TsConstructorType,
    Kind::TsConditionalType,
    Kind::TsUnionType,
    Kind::TsIntersectionType,
    Kind::TsTypeOperator,
    Kind::TsInferType,
    Kind::TsTypeQuery,
];

const KEYWORDS: &[(Word, &str)] = &[
    (Word::TsAnyKeyword, "any"),
    (Word::TsUnknownKeyword, "unknown"),
    (Word::TsNumberKeyword, "number"),
    (Word::TsObjectKeyword, "object"),
    (Word::TsBooleanKeyword, "boolean"),
    (Word::TsBigIntKeyword, "bigint"),
    (Word::TsStringKeyword, "string"),
    (Word::TsSymbolKeyword, "symbol"),
    (Word::TsVoidKeyword, "void"),
    (Word::TsUndefinedKeyword, "undefined"),
    (Word::TsNullKeyword, "null"),
    (Word::TsNeverKeyword, "never"),
    (Word::TsIntrinsicKeyword, "intrinsic"),
    (Word::KeyOf, "keyof "),
    (Word::Unique, "unique "),
    (Word::ReadOnly, "readonly "),
    (Word::Public, "public "),
    (Word::Protected, "protected "),
    (Word::Private, "private "),
    (Word::Getter, "get "),
    (Word::Setter, "set "),
    (Word::Var, "var "),
    (Word::Let, "let "),
    (Word::Const, "const "),
];

/// Prints a word.
pub fn keyword<'a>(out: &mut Printer<'a>, part: Part<'a>) {
    for (word, text) in KEYWORDS {
        out.text_if(part.has_word(*word), *text)
    }
}

// Prints a word of a mapped type, with its sign if it has one.
fn signed<'a>(out: &mut Printer<'a>, sign: Part<'a>, word: &'a str) {
    if sign.is_absent() {
        return;
    }
    out.text_if(sign.text() != "true", sign.text());
    out.text(word)
}

fn mapped<'a>(out: &mut Printer<'a>, part: Part<'a>) {
    let TsMappedType {
        readonly,
        type_param,
        name_type,
        optional,
        type_ann,
        ..
    } = TsMappedType::of(part);
    let param = TsTypeParam::of(type_param);
    out.text("{ ");
    signed(out, readonly, "readonly ");
    out.text("[");
    out.node(param.name);
    out.text(" in ");
    out.node(param.constraint);
    out.prefixed(" as ", name_type);
    out.text("]");
    signed(out, optional, "?");
    out.prefixed(": ", type_ann);
    out.text(" }")
}

// Types with a sign between them. Where they have lines of their own, it stands before the first one too.
fn joined<'a>(out: &mut Printer<'a>, types: Part<'a>, sign: &'a str, looser: &[Kind]) {
    out.open(false);
    out.indent();
    for (place, each) in types.parts().iter().enumerate() {
        out.soft_line(if place > 0 { " " } else { "" });
        if place > 0 {
            out.text(sign);
        } else {
            out.if_broken(sign);
        }
        out.operand(each.read(), looser);
    }
    out.outdent();
    out.close()
}

fn conditional<'a>(out: &mut Printer<'a>, part: Part<'a>) {
    let TsConditionalType {
        check_type,
        extends_type,
        true_type,
        false_type,
        ..
    } = TsConditionalType::of(part);
    out.open(false);
    out.operand(check_type, LOOSE);
    out.text(" extends ");
    out.operand(extends_type, &[Kind::TsConditionalType]);
    out.indent();
    out.soft_line(" ");
    out.prefixed("? ", true_type);
    out.soft_line(" ");
    out.prefixed(": ", false_type);
    out.outdent();
    out.close()
}

fn import_type<'a>(out: &mut Printer<'a>, part: Part<'a>) {
    let TsImportType {
        arg,
        qualifier,
        type_args,
        ..
    } = TsImportType::of(part);
    out.text("import(");
    out.node(arg);
    out.text(")");
    out.prefixed(".", qualifier);
    out.prefixed("", type_args)
}

fn predicate<'a>(out: &mut Printer<'a>, part: Part<'a>) {
    let TsTypePredicate {
        asserts,
        param_name,
        type_ann,
        ..
    } = TsTypePredicate::of(part);
    out.text_if(asserts, "asserts ");
    out.node(param_name);
    out.prefixed(" is ", type_ann)
}

fn function_type<'a>(out: &mut Printer<'a>, part: Part<'a>) {
    let TsFnType {
        params,
        type_params,
        type_ann,
        is_abstract,
        ..
    } = TsFnType::of(part);
    out.text_if(is_abstract, "abstract ");
    out.prefixed("", type_params);
    out.parameters(params, true);
    out.prefixed(" => ", type_ann)
}

fn constructor_type<'a>(out: &mut Printer<'a>, part: Part<'a>) {
    let TsConstructorType {
        params,
        type_params,
        type_ann,
        is_abstract,
        ..
    } = TsConstructorType::of(part);
    out.text_if(is_abstract, "abstract ");
    out.text("new ");
    out.prefixed("", type_params);
    out.parameters(params, true);
    out.prefixed(" => ", type_ann)
}

fn tuple_element<'a>(out: &mut Printer<'a>, part: Part<'a>) {
    let TsTupleElement { label, ty, .. } = TsTupleElement::of(part);
    if !label.is_absent() {
        out.node(label);
        out.text(": ");
    }
    out.node(ty)
}

// Prints a type that is computed from others.
fn computed_type<'a>(out: &mut Printer<'a>, part: Part<'a>) -> bool {
    match part.kind() {
        Kind::TsConditionalType => conditional(out, part),
        Kind::TsInferType => {
            out.text("infer ");
            out.node(TsInferType::of(part).type_param)
        }
        Kind::TsTypeOperator => {
            let TsTypeOperator { op, type_ann, .. } = TsTypeOperator::of(part);
            keyword(out, op);
            out.operand(type_ann, LOOSE_OR_MANY)
        }
        Kind::TsIndexedAccessType => {
            let TsIndexedAccessType {
                obj_type,
                index_type,
                ..
            } = TsIndexedAccessType::of(part);
            out.operand(obj_type, BEFORE_BRACKETS);
            out.text("[");
            out.node(index_type);
            out.text("]")
        }
        Kind::TsMappedType => mapped(out, part),
        Kind::TsTypePredicate => predicate(out, part),
        _ => return false,
    }
    true
}

// Prints a tuple or a part of one, or a list of types.
fn listed_type<'a>(out: &mut Printer<'a>, part: Part<'a>) -> bool {
    match part.kind() {
        Kind::TsTupleType => {
            out.open(false);
            out.text("[");
            out.listed(TsTupleType::of(part).elem_types.parts(), "", ",");
            out.text("]");
            out.close()
        }
        Kind::TsTupleElement => tuple_element(out, part),
        Kind::TsOptionalType => {
            out.operand(TsOptionalType::of(part).type_ann, BEFORE_QUESTION);
            out.text("?")
        }
        Kind::TsRestType => {
            out.text("...");
            out.node(TsRestType::of(part).type_ann)
        }
        Kind::TsUnionType => { joined(out, TsUnionType::of(part).types, "| ", LOOSE) }
        Kind::TsIntersectionType => {
            let types = TsIntersectionType::of(part).types;
            joined(out, types, "& ", LOOSE_OR_UNION)
        }
        _ => return false,
    }
    true
}

// Prints a type that is a name, a literal, or the type of a value.
fn plain_type<'a>(out: &mut Printer<'a>, part: Part<'a>) -> bool {
    match part.kind() {
        Kind::TsKeywordType => keyword(out, TsKeywordType::of(part).kind),
        Kind::TsThisType => out.text("this"),
        Kind::TsTypeRef => {
            let TsTypeRef {
                type_name,
                type_params,
                ..
            } = TsTypeRef::of(part);
            out.node(type_name);
            out.prefixed("", type_params)
        }
        Kind::TsTypeQuery => {
            let TsTypeQuery {
                expr_name,
                type_args,
                ..
            } = TsTypeQuery::of(part);
            out.text("typeof ");
            out.node(expr_name);
            out.prefixed("", type_args)
        }
        Kind::TsImportType => import_type(out, part),
        Kind::TsLitType => out.node(TsLitType::of(part).lit),
        Kind::TsTplLitType => {
            let TsTplLitType { types, quasis, .. } = TsTplLitType::of(part);
            template(out, quasis, types)
        }
        _ => return false,
    }
    true
}

/// Prints a type. Answers false for other nodes.
pub(crate) fn type_of<'a>(out: &mut Printer<'a>, part: Part<'a>) -> bool {
    match part.kind() {
        Kind::TsFnType => function_type(out, part),
        Kind::TsConstructorType => constructor_type(out, part),
        Kind::TsTypeLit => members(out, part, TsTypeLit::of(part).members),
        Kind::TsArrayType => {
            out.operand(TsArrayType::of(part).elem_type, BEFORE_BRACKETS);
            out.text("[]")
        }
        Kind::TsParenthesizedType => {
            out.text("(");
            out.node(TsParenthesizedType::of(part).type_ann);
            out.text(")")
        }
        _ => {
            return plain_type(out, part) || listed_type(out, part) || computed_type(out, part);
        }
    }
    true
}
