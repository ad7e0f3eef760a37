//! What each form writes, by its kind.
// Written by forms/write.py from forms/forms.txt.
ghost use Rattle.std.specs.Prelude.{◌≡◌, map};
ghost use Rattle.fast_check_syntax_table.specs.Rows.{row};
ghost use Rattle.fast_check_syntax_table.specs.Table.{
  table,
  whole_table,
  decorators_table,
  modifiers_table,
  async_table,
  star_table,
  bare_table,
  head_table,
  definite_table,
  optional_table,
  in_table,
  member_table,
};

use crate::piece::{Piece, Slot};
use crate::{classes, expressions, programs, statements, types};
use fast_check_tree_syntax::Kind;

/// What a node of a kind writes in a way.
pub fn pieces(kind: Kind, slot: Slot) -> &'static [Piece]
    ensures { map row result.now ≡ table kind slot }
{
    match slot {
        Slot::Whole => whole(kind),
        Slot::Decorators => decorators(kind),
        Slot::Modifiers => modifiers(kind),
        Slot::Async => asynchronous(kind),
        Slot::Star => star(kind),
        Slot::Bare => bare(kind),
        Slot::Head => head(kind),
        Slot::Definite => definite(kind),
        Slot::Optional => optional(kind),
        Slot::In => mapped(kind),
        Slot::Member => member(kind),
    }
}

fn whole(kind: Kind) -> &'static [Piece]
    ensures { map row result.now ≡ whole_table kind }
{
    match kind {
        Kind::Ident => &programs::IDENT,
        Kind::IdentName => &programs::IDENT_NAME,
        Kind::BindingIdent => &programs::BINDING_IDENT,
        Kind::PrivateName => &programs::PRIVATE_NAME,
        Kind::Str => &programs::STR,
        Kind::Bool => &programs::BOOL,
        Kind::Null => &programs::NULL,
        Kind::Number => &programs::NUMBER,
        Kind::BigInt => &programs::BIG_INT,
        Kind::Regex => &programs::REGEX,
        Kind::JSXText => &programs::JSX_TEXT,
        Kind::Module => &programs::MODULE,
        Kind::Script => &programs::SCRIPT,
        Kind::ImportDecl => &programs::IMPORT_DECL,
        Kind::ExportDecl => &programs::EXPORT_DECL,
        Kind::NamedExport => &programs::NAMED_EXPORT,
        Kind::ExportDefaultDecl => &programs::EXPORT_DEFAULT_DECL,
        Kind::ExportDefaultExpr => &programs::EXPORT_DEFAULT_EXPR,
        Kind::ExportAll => &programs::EXPORT_ALL,
        Kind::TsImportEqualsDecl => &programs::TS_IMPORT_EQUALS_DECL,
        Kind::TsExportAssignment => &programs::TS_EXPORT_ASSIGNMENT,
        Kind::TsNamespaceExportDecl => &programs::TS_NAMESPACE_EXPORT_DECL,
        Kind::ImportNamedSpecifier => &programs::IMPORT_NAMED_SPECIFIER,
        Kind::ImportDefaultSpecifier => &programs::IMPORT_DEFAULT_SPECIFIER,
        Kind::ImportStarAsSpecifier => &programs::IMPORT_STAR_AS_SPECIFIER,
        Kind::ExportNamespaceSpecifier => &programs::EXPORT_NAMESPACE_SPECIFIER,
        Kind::ExportDefaultSpecifier => &programs::EXPORT_DEFAULT_SPECIFIER,
        Kind::ExportNamedSpecifier => &programs::EXPORT_NAMED_SPECIFIER,
        Kind::TsExternalModuleRef => &programs::TS_EXTERNAL_MODULE_REF,
        Kind::BlockStmt => &statements::BLOCK_STMT,
        Kind::EmptyStmt => &statements::EMPTY_STMT,
        Kind::DebuggerStmt => &statements::DEBUGGER_STMT,
        Kind::WithStmt => &statements::WITH_STMT,
        Kind::ReturnStmt => &statements::RETURN_STMT,
        Kind::LabeledStmt => &statements::LABELED_STMT,
        Kind::BreakStmt => &statements::BREAK_STMT,
        Kind::ContinueStmt => &statements::CONTINUE_STMT,
        Kind::IfStmt => &statements::IF_STMT,
        Kind::SwitchStmt => &statements::SWITCH_STMT,
        Kind::SwitchCase => &statements::SWITCH_CASE,
        Kind::ThrowStmt => &statements::THROW_STMT,
        Kind::TryStmt => &statements::TRY_STMT,
        Kind::CatchClause => &statements::CATCH_CLAUSE,
        Kind::WhileStmt => &statements::WHILE_STMT,
        Kind::DoWhileStmt => &statements::DO_WHILE_STMT,
        Kind::ForStmt => &statements::FOR_STMT,
        Kind::ForInStmt => &statements::FOR_IN_STMT,
        Kind::ForOfStmt => &statements::FOR_OF_STMT,
        Kind::ExprStmt => &statements::EXPR_STMT,
        Kind::ClassDecl => &statements::CLASS_DECL,
        Kind::FnDecl => &statements::FN_DECL,
        Kind::VarDecl => &statements::VAR_DECL,
        Kind::VarDeclarator => &statements::VAR_DECLARATOR,
        Kind::UsingDecl => &statements::USING_DECL,
        Kind::TsInterfaceDecl => &statements::TS_INTERFACE_DECL,
        Kind::TsExprWithTypeArgs => &statements::TS_EXPR_WITH_TYPE_ARGS,
        Kind::TsInterfaceBody => &statements::TS_INTERFACE_BODY,
        Kind::TsTypeAliasDecl => &statements::TS_TYPE_ALIAS_DECL,
        Kind::TsEnumDecl => &statements::TS_ENUM_DECL,
        Kind::TsEnumMember => &statements::TS_ENUM_MEMBER,
        Kind::TsModuleDecl => &statements::TS_MODULE_DECL,
        Kind::TsModuleBlock => &statements::TS_MODULE_BLOCK,
        Kind::TsNamespaceDecl => &statements::TS_NAMESPACE_DECL,
        Kind::ThisExpr => &expressions::THIS_EXPR,
        Kind::ArrayLit => &expressions::ARRAY_LIT,
        Kind::ObjectLit => &expressions::OBJECT_LIT,
        Kind::FnExpr => &expressions::FN_EXPR,
        Kind::UnaryExpr => &expressions::UNARY_EXPR,
        Kind::UpdateExpr => &expressions::UPDATE_EXPR,
        Kind::BinExpr => &expressions::BIN_EXPR,
        Kind::AssignExpr => &expressions::ASSIGN_EXPR,
        Kind::MemberExpr => &expressions::MEMBER_EXPR,
        Kind::SuperPropExpr => &expressions::SUPER_PROP_EXPR,
        Kind::CondExpr => &expressions::COND_EXPR,
        Kind::CallExpr => &expressions::CALL_EXPR,
        Kind::NewExpr => &expressions::NEW_EXPR,
        Kind::SeqExpr => &expressions::SEQ_EXPR,
        Kind::Tpl => &expressions::TPL,
        Kind::TplElement => &expressions::TPL_ELEMENT,
        Kind::TaggedTpl => &expressions::TAGGED_TPL,
        Kind::ArrowExpr => &expressions::ARROW_EXPR,
        Kind::ClassExpr => &expressions::CLASS_EXPR,
        Kind::YieldExpr => &expressions::YIELD_EXPR,
        Kind::MetaPropExpr => &expressions::META_PROP_EXPR,
        Kind::AwaitExpr => &expressions::AWAIT_EXPR,
        Kind::ParenExpr => &expressions::PAREN_EXPR,
        Kind::JSXMember => &expressions::JSX_MEMBER,
        Kind::JSXNamespacedName => &expressions::JSX_NAMESPACED_NAME,
        Kind::JSXEmpty => &expressions::JSX_EMPTY,
        Kind::JSXElement => &expressions::JSX_ELEMENT,
        Kind::JSXFragment => &expressions::JSX_FRAGMENT,
        Kind::TsTypeAssertion => &expressions::TS_TYPE_ASSERTION,
        Kind::TsAsExpr => &expressions::TS_AS_EXPR,
        Kind::TsSatisfiesExpr => &expressions::TS_SATISFIES_EXPR,
        Kind::TsConstAssertion => &expressions::TS_CONST_ASSERTION,
        Kind::TsNonNullExpr => &expressions::TS_NON_NULL_EXPR,
        Kind::TsInstantiation => &expressions::TS_INSTANTIATION,
        Kind::OptChainExpr => &expressions::OPT_CHAIN_EXPR,
        Kind::Invalid => &expressions::INVALID,
        Kind::OptCall => &expressions::OPT_CALL,
        Kind::ExprOrSpread => &expressions::EXPR_OR_SPREAD,
        Kind::SpreadElement => &expressions::SPREAD_ELEMENT,
        Kind::KeyValueProp => &expressions::KEY_VALUE_PROP,
        Kind::AssignProp => &expressions::ASSIGN_PROP,
        Kind::GetterProp => &expressions::GETTER_PROP,
        Kind::SetterProp => &expressions::SETTER_PROP,
        Kind::MethodProp => &expressions::METHOD_PROP,
        Kind::ComputedPropName => &expressions::COMPUTED_PROP_NAME,
        Kind::Super => &expressions::SUPER,
        Kind::Import => &expressions::IMPORT,
        Kind::ArrayPat => &expressions::ARRAY_PAT,
        Kind::RestPat => &expressions::REST_PAT,
        Kind::ObjectPat => &expressions::OBJECT_PAT,
        Kind::AssignPat => &expressions::ASSIGN_PAT,
        Kind::KeyValuePatProp => &expressions::KEY_VALUE_PAT_PROP,
        Kind::AssignPatProp => &expressions::ASSIGN_PAT_PROP,
        Kind::TargetPat => &expressions::TARGET_PAT,
        Kind::PatExpr => &expressions::PAT_EXPR,
        Kind::Function => &classes::FUNCTION,
        Kind::Param => &classes::PARAM,
        Kind::Class => &classes::CLASS,
        Kind::Decorator => &classes::DECORATOR,
        Kind::Constructor => &classes::CONSTRUCTOR,
        Kind::ClassMethod => &classes::CLASS_METHOD,
        Kind::PrivateMethod => &classes::PRIVATE_METHOD,
        Kind::ClassProp => &classes::CLASS_PROP,
        Kind::PrivateProp => &classes::PRIVATE_PROP,
        Kind::TsIndexSignature => &classes::TS_INDEX_SIGNATURE,
        Kind::StaticBlock => &classes::STATIC_BLOCK,
        Kind::AutoAccessor => &classes::AUTO_ACCESSOR,
        Kind::TsParamProp => &classes::TS_PARAM_PROP,
        Kind::TsKeywordType => &types::TS_KEYWORD_TYPE,
        Kind::TsThisType => &types::TS_THIS_TYPE,
        Kind::TsFnType => &types::TS_FN_TYPE,
        Kind::TsConstructorType => &types::TS_CONSTRUCTOR_TYPE,
        Kind::TsTypeRef => &types::TS_TYPE_REF,
        Kind::TsTypeQuery => &types::TS_TYPE_QUERY,
        Kind::TsTypeLit => &types::TS_TYPE_LIT,
        Kind::TsArrayType => &types::TS_ARRAY_TYPE,
        Kind::TsTupleType => &types::TS_TUPLE_TYPE,
        Kind::TsTupleElement => &types::TS_TUPLE_ELEMENT,
        Kind::TsOptionalType => &types::TS_OPTIONAL_TYPE,
        Kind::TsRestType => &types::TS_REST_TYPE,
        Kind::TsParenthesizedType => &types::TS_PARENTHESIZED_TYPE,
        Kind::TsUnionType => &types::TS_UNION_TYPE,
        Kind::TsIntersectionType => &types::TS_INTERSECTION_TYPE,
        Kind::TsConditionalType => &types::TS_CONDITIONAL_TYPE,
        Kind::TsInferType => &types::TS_INFER_TYPE,
        Kind::TsTypeOperator => &types::TS_TYPE_OPERATOR,
        Kind::TsIndexedAccessType => &types::TS_INDEXED_ACCESS_TYPE,
        Kind::TsMappedType => &types::TS_MAPPED_TYPE,
        Kind::TsLitType => &types::TS_LIT_TYPE,
        Kind::TsTplLitType => &types::TS_TPL_LIT_TYPE,
        Kind::TsTypePredicate => &types::TS_TYPE_PREDICATE,
        Kind::TsImportType => &types::TS_IMPORT_TYPE,
        Kind::TsQualifiedName => &types::TS_QUALIFIED_NAME,
        Kind::TsCallSignatureDecl => &types::TS_CALL_SIGNATURE_DECL,
        Kind::TsConstructSignatureDecl => &types::TS_CONSTRUCT_SIGNATURE_DECL,
        Kind::TsPropertySignature => &types::TS_PROPERTY_SIGNATURE,
        Kind::TsGetterSignature => &types::TS_GETTER_SIGNATURE,
        Kind::TsSetterSignature => &types::TS_SETTER_SIGNATURE,
        Kind::TsMethodSignature => &types::TS_METHOD_SIGNATURE,
        Kind::TsTypeParam => &types::TS_TYPE_PARAM,
        Kind::TsTypeParamDecl => &types::TS_TYPE_PARAM_DECL,
        Kind::TsTypeParamInstantiation => &types::TS_TYPE_PARAM_INSTANTIATION,
        Kind::TsTypeAnn => &types::TS_TYPE_ANN,
        _ => &[],
    }
}

fn decorators(kind: Kind) -> &'static [Piece]
    ensures { map row result.now ≡ decorators_table kind }
{
    match kind {
        Kind::ClassDecl => &statements::CLASS_DECL_DECORATORS,
        Kind::ClassExpr => &expressions::CLASS_EXPR_DECORATORS,
        Kind::Function => &classes::FUNCTION_DECORATORS,
        Kind::Class => &classes::CLASS_DECORATORS,
        _ => &[],
    }
}

fn modifiers(kind: Kind) -> &'static [Piece]
    ensures { map row result.now ≡ modifiers_table kind }
{
    match kind {
        Kind::Class => &classes::CLASS_MODIFIERS,
        _ => &[],
    }
}

fn asynchronous(kind: Kind) -> &'static [Piece]
    ensures { map row result.now ≡ async_table kind }
{
    match kind {
        Kind::Function => &classes::FUNCTION_ASYNC,
        _ => &[],
    }
}

fn star(kind: Kind) -> &'static [Piece]
    ensures { map row result.now ≡ star_table kind }
{
    match kind {
        Kind::Function => &classes::FUNCTION_STAR,
        _ => &[],
    }
}

fn bare(kind: Kind) -> &'static [Piece]
    ensures { map row result.now ≡ bare_table kind }
{
    match kind {
        Kind::ClassDecl => &statements::CLASS_DECL_BARE,
        Kind::ClassExpr => &expressions::CLASS_EXPR_BARE,
        _ => whole(kind),
    }
}

fn head(kind: Kind) -> &'static [Piece]
    ensures { map row result.now ≡ head_table kind }
{
    match kind {
        Kind::VarDecl => &statements::VAR_DECL_HEAD,
        Kind::UsingDecl => &statements::USING_DECL_HEAD,
        _ => whole(kind),
    }
}

fn definite(kind: Kind) -> &'static [Piece]
    ensures { map row result.now ≡ definite_table kind }
{
    match kind {
        Kind::BindingIdent => &programs::BINDING_IDENT_DEFINITE,
        _ => whole(kind),
    }
}

fn optional(kind: Kind) -> &'static [Piece]
    ensures { map row result.now ≡ optional_table kind }
{
    match kind {
        Kind::MemberExpr => &expressions::MEMBER_EXPR_OPTIONAL,
        Kind::OptCall => &expressions::OPT_CALL_OPTIONAL,
        _ => whole(kind),
    }
}

fn mapped(kind: Kind) -> &'static [Piece]
    ensures { map row result.now ≡ in_table kind }
{
    match kind {
        Kind::TsTypeParam => &types::TS_TYPE_PARAM_IN,
        _ => whole(kind),
    }
}

fn member(kind: Kind) -> &'static [Piece]
    ensures { map row result.now ≡ member_table kind }
{
    match kind {
        Kind::TsIndexSignature => &classes::TS_INDEX_SIGNATURE_MEMBER,
        _ => whole(kind),
    }
}
