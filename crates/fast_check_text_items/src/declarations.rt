//! Declarations but for functions and classes.
use crate::items::{items, needs_list};
use crate::reserved::is_reserved;
use fast_check_text_types::{keyword, member_lines};
use fast_check_text_writer::{Printer, range_of};
use fast_check_tree_forms_expressions::{ObjectLit, TsAsExpr};
use fast_check_tree_forms_programs::BindingIdent;
use fast_check_tree_forms_statements::{
    TsEnumDecl, TsEnumMember, TsInterfaceBody, TsInterfaceDecl, TsModuleBlock, TsModuleDecl,
    TsNamespaceDecl, TsTypeAliasDecl, UsingDecl, VarDecl, VarDeclarator,
};
use fast_check_tree_forms_types::{
    TsKeywordType, TsLitType, TsParenthesizedType, TsTypeAnn, TsTypeOperator,
};
use fast_check_tree_syntax::{Kind, Part, SourcePos, SourceRange, Word};

// Whether a type may be a union by its form.
fn may_be_union(part: Part<'_>) -> bool {
    let mut at = part;
    for _turn in 0..u64::MAX {
        if at.kind() != Kind::TsParenthesizedType {
            break;
        }
        at = TsParenthesizedType::of(at).type_ann;
    }
    match at.kind() {
        Kind::TsKeywordType => TsKeywordType::of(at).kind.has_word(Word::TsBooleanKeyword),
        Kind::TsLitType => TsLitType::of(at).lit.kind() == Kind::TsTplLitType,
        Kind::TsTypeOperator => TsTypeOperator::of(at).op.has_word(Word::KeyOf),
        Kind::TsArrayType
        | Kind::TsTupleType
        | Kind::TsFnType
        | Kind::TsConstructorType
        | Kind::TsTypeLit => false,
        _ => true,
    }
}

// Whether a value is the `{} as never` of a skeleton.
fn is_made(value: Part<'_>) -> bool {
    if value.kind() != Kind::TsAsExpr || range_of(value).start.0 > 0 {
        return false;
    }
    let TsAsExpr { expr, type_ann, .. } = TsAsExpr::of(value);
    let is_never = type_ann.kind() == Kind::TsKeywordType
        && TsKeywordType::of(type_ann)
            .kind
            .has_word(Word::TsNeverKeyword);
    is_never && expr.kind() == Kind::ObjectLit && ObjectLit::of(expr).props.parts().is_empty()
}

// Whether a variable has such a value, and a type of which a compiler would take that value for a part.
fn narrows(name: Part<'_>, value: Part<'_>) -> bool {
    if name.kind() != Kind::BindingIdent || !is_made(value) {
        return false;
    }
    let type_ann = BindingIdent::of(name).type_ann;
    !type_ann.is_absent() && may_be_union(TsTypeAnn::of(type_ann).type_ann)
}

fn declarator<'a>(out: &mut Printer<'a>, part: Part<'a>) {
    let VarDeclarator {
        name,
        init,
        definite,
        ..
    } = VarDeclarator::of(part);
    if definite && name.kind() == Kind::BindingIdent {
        let BindingIdent { id, type_ann } = BindingIdent::of(name);
        out.node(id);
        out.text("!");
        out.prefixed(": ", type_ann);
    } else {
        out.node(name);
    }
    initializer(out, name, init)
}

/// Prints the value of a variable, if it has one.
pub(crate) fn initializer<'a>(out: &mut Printer<'a>, name: Part<'a>, init: Part<'a>) {
    if narrows(name, init) {
        out.text(" = {} as any")
    } else {
        out.prefixed(" = ", init)
    }
}

/// Opens the list of a number of declarators. Several have lines of their own where they are too long for one.
pub(crate) fn begin_declarators(out: &mut Printer<'_>, count: usize) {
    if count > 1 {
        out.open(false);
        out.indent()
    }
}

/// Prints what stands before a declarator.
pub(crate) fn begin_declarator(out: &mut Printer<'_>, is_first: bool) {
    if !is_first {
        out.text(",");
        out.soft_line(" ")
    }
}

/// Closes the list of a number of declarators.
pub(crate) fn end_declarators(out: &mut Printer<'_>, count: usize) {
    if count > 1 {
        out.outdent();
        out.close()
    }
    out.text(";")
}

// Prints the declarators of a statement. Those with reserved names stand elsewhere.
fn declarators<'a>(out: &mut Printer<'a>, decls: Part<'a>) {
    let list = decls.parts();
    let count = list.iter().filter(|each| !is_reserved(each.read())).count();
    let mut is_first = true;
    begin_declarators(out, count);
    for each in list {
        if !is_reserved(each.read()) {
            begin_declarator(out, is_first);
            out.node(each.read());
            is_first = false;
        }
    }
    end_declarators(out, count)
}

fn variables<'a>(out: &mut Printer<'a>, part: Part<'a>) {
    let VarDecl {
        kind,
        declare,
        decls,
        ..
    } = VarDecl::of(part);
    out.text_if(declare, "declare ");
    keyword(out, kind);
    declarators(out, decls)
}

fn using<'a>(out: &mut Printer<'a>, part: Part<'a>) {
    let UsingDecl {
        is_await,
        decls,
        ..
    } = UsingDecl::of(part);
    out.text_if(is_await, "await ");
    out.text("using ");
    declarators(out, decls)
}

fn interface<'a>(out: &mut Printer<'a>, part: Part<'a>) {
    let TsInterfaceDecl {
        id,
        declare,
        type_params,
        extends,
        body,
        ..
    } = TsInterfaceDecl::of(part);
    out.text_if(declare, "declare ");
    out.text("interface ");
    out.node(id);
    out.prefixed("", type_params);
    if !extends.parts().is_empty() {
        out.text(" extends ");
        out.separated(extends.parts(), ", ");
    }
    out.prefixed(" ", body)
}

fn type_alias<'a>(out: &mut Printer<'a>, part: Part<'a>) {
    let TsTypeAliasDecl {
        declare,
        id,
        type_params,
        type_ann,
        ..
    } = TsTypeAliasDecl::of(part);
    out.text_if(declare, "declare ");
    out.text("type ");
    out.node(id);
    out.prefixed("", type_params);
    out.prefixed(" = ", type_ann);
    out.text(";")
}

fn enumeration<'a>(out: &mut Printer<'a>, part: Part<'a>) {
    let TsEnumDecl {
        span,
        declare,
        is_const,
        id,
        members,
    } = TsEnumDecl::of(part);
    out.text_if(declare, "declare ");
    out.text_if(is_const, "const ");
    out.text("enum ");
    out.node(id);
    out.text(" ");
    let range = SourceRange {
        start: SourcePos(0),
        end: span.end,
    };
    out.in_braces(members.parts(), range, ",")
}

// Prints the block of a namespace. An ambient one exports all its declarations, unless it has a list of exports.
fn module_block<'a>(out: &mut Printer<'a>, part: Part<'a>) {
    let TsModuleBlock { span, body } = TsModuleBlock::of(part);
    let list = body.parts();
    if list.is_empty() {
        return out.in_braces(list, span, "");
    }
    out.open_braces(span);
    items(out, list);
    if out.is_ambient() && needs_list(list, false) {
        out.line();
        out.text("export {};");
    }
    out.close_braces(span)
}

fn namespace<'a>(out: &mut Printer<'a>, part: Part<'a>) {
    let TsModuleDecl {
        declare,
        global,
        namespace,
        id,
        body,
        ..
    } = TsModuleDecl::of(part);
    out.text_if(declare, "declare ");
    out.text_if(!global, if namespace { "namespace " } else { "module " });
    out.node(id);
    let mut at = body;
    for _turn in 0..u64::MAX {
        if at.kind() != Kind::TsNamespaceDecl {
            break;
        }
        let TsNamespaceDecl { id, body, .. } = TsNamespaceDecl::of(at);
        out.text(".");
        out.node(id);
        at = body;
    }
    out.text_if(at.is_absent(), ";");
    let outer = out.is_ambient();
    out.ambient(outer || declare);
    out.prefixed(" ", at);
    out.ambient(outer)
}

/// Prints a declaration other than a function or a class. Answers false for other nodes.
pub(crate) fn declaration<'a>(out: &mut Printer<'a>, part: Part<'a>) -> bool {
    match part.kind() {
        Kind::VarDecl => variables(out, part),
        Kind::VarDeclarator => declarator(out, part),
        Kind::UsingDecl => using(out, part),
        Kind::TsInterfaceDecl => interface(out, part),
        Kind::TsInterfaceBody => member_lines(out, part, TsInterfaceBody::of(part).body),
        Kind::TsTypeAliasDecl => type_alias(out, part),
        Kind::TsEnumDecl => enumeration(out, part),
        Kind::TsEnumMember => {
            let TsEnumMember { id, init, .. } = TsEnumMember::of(part);
            out.node(id);
            out.prefixed(" = ", init)
        }
        Kind::TsModuleDecl => namespace(out, part),
        Kind::TsModuleBlock => module_block(out, part),
        _ => return false,
    }
    true
}
