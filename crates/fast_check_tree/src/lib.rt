//! The syntax tree with all that belongs to it: the plain tree, its forms under swc's names, the helpers that make nodes and read the
//! types that values show, and comments.
#![tactic(auto)]

/// The forms, to read a node and to make one, and the choices between them.
pub mod forms {
    // Written by forms/write.py from forms/forms.txt, up to the closing bracket.
    pub use fast_check_tree_forms::ArrayLit;
    pub use fast_check_tree_forms::ArrayPat;
    pub use fast_check_tree_forms::ArrowExpr;
    pub use fast_check_tree_forms::AssignExpr;
    pub use fast_check_tree_forms::AssignPat;
    pub use fast_check_tree_forms::AssignPatProp;
    pub use fast_check_tree_forms::AssignProp;
    pub use fast_check_tree_forms::AssignTarget;
    pub use fast_check_tree_forms::AutoAccessor;
    pub use fast_check_tree_forms::AwaitExpr;
    pub use fast_check_tree_forms::BigInt;
    pub use fast_check_tree_forms::BinExpr;
    pub use fast_check_tree_forms::BindingIdent;
    pub use fast_check_tree_forms::BlockStmt;
    pub use fast_check_tree_forms::BlockStmtOrExpr;
    pub use fast_check_tree_forms::Bool;
    pub use fast_check_tree_forms::BreakStmt;
    pub use fast_check_tree_forms::CallExpr;
    pub use fast_check_tree_forms::Callee;
    pub use fast_check_tree_forms::CatchClause;
    pub use fast_check_tree_forms::Class;
    pub use fast_check_tree_forms::ClassDecl;
    pub use fast_check_tree_forms::ClassExpr;
    pub use fast_check_tree_forms::ClassMember;
    pub use fast_check_tree_forms::ClassMethod;
    pub use fast_check_tree_forms::ClassProp;
    pub use fast_check_tree_forms::ComputedPropName;
    pub use fast_check_tree_forms::CondExpr;
    pub use fast_check_tree_forms::Constructor;
    pub use fast_check_tree_forms::ContinueStmt;
    pub use fast_check_tree_forms::DebuggerStmt;
    pub use fast_check_tree_forms::Decl;
    pub use fast_check_tree_forms::Decorator;
    pub use fast_check_tree_forms::DefaultDecl;
    pub use fast_check_tree_forms::DoWhileStmt;
    pub use fast_check_tree_forms::EmptyStmt;
    pub use fast_check_tree_forms::ExportAll;
    pub use fast_check_tree_forms::ExportDecl;
    pub use fast_check_tree_forms::ExportDefaultDecl;
    pub use fast_check_tree_forms::ExportDefaultExpr;
    pub use fast_check_tree_forms::ExportDefaultSpecifier;
    pub use fast_check_tree_forms::ExportNamedSpecifier;
    pub use fast_check_tree_forms::ExportNamespaceSpecifier;
    pub use fast_check_tree_forms::ExportSpecifier;
    pub use fast_check_tree_forms::Expr;
    pub use fast_check_tree_forms::ExprOrSpread;
    pub use fast_check_tree_forms::ExprStmt;
    pub use fast_check_tree_forms::FnDecl;
    pub use fast_check_tree_forms::FnExpr;
    pub use fast_check_tree_forms::ForHead;
    pub use fast_check_tree_forms::ForInStmt;
    pub use fast_check_tree_forms::ForOfStmt;
    pub use fast_check_tree_forms::ForStmt;
    pub use fast_check_tree_forms::Function;
    pub use fast_check_tree_forms::GetterProp;
    pub use fast_check_tree_forms::Ident;
    pub use fast_check_tree_forms::IdentName;
    pub use fast_check_tree_forms::IfStmt;
    pub use fast_check_tree_forms::Import;
    pub use fast_check_tree_forms::ImportDecl;
    pub use fast_check_tree_forms::ImportDefaultSpecifier;
    pub use fast_check_tree_forms::ImportNamedSpecifier;
    pub use fast_check_tree_forms::ImportSpecifier;
    pub use fast_check_tree_forms::ImportStarAsSpecifier;
    pub use fast_check_tree_forms::Invalid;
    pub use fast_check_tree_forms::JSXElement;
    pub use fast_check_tree_forms::JSXEmpty;
    pub use fast_check_tree_forms::JSXFragment;
    pub use fast_check_tree_forms::JSXMember;
    pub use fast_check_tree_forms::JSXNamespacedName;
    pub use fast_check_tree_forms::JSXText;
    pub use fast_check_tree_forms::Key;
    pub use fast_check_tree_forms::KeyValuePatProp;
    pub use fast_check_tree_forms::KeyValueProp;
    pub use fast_check_tree_forms::LabeledStmt;
    pub use fast_check_tree_forms::Lit;
    pub use fast_check_tree_forms::MemberExpr;
    pub use fast_check_tree_forms::MemberProp;
    pub use fast_check_tree_forms::MetaPropExpr;
    pub use fast_check_tree_forms::MethodProp;
    pub use fast_check_tree_forms::Module;
    pub use fast_check_tree_forms::ModuleDecl;
    pub use fast_check_tree_forms::ModuleExportName;
    pub use fast_check_tree_forms::ModuleItem;
    pub use fast_check_tree_forms::NamedExport;
    pub use fast_check_tree_forms::NewExpr;
    pub use fast_check_tree_forms::Null;
    pub use fast_check_tree_forms::Number;
    pub use fast_check_tree_forms::ObjectLit;
    pub use fast_check_tree_forms::ObjectPat;
    pub use fast_check_tree_forms::ObjectPatProp;
    pub use fast_check_tree_forms::OptCall;
    pub use fast_check_tree_forms::OptChainBase;
    pub use fast_check_tree_forms::OptChainExpr;
    pub use fast_check_tree_forms::Param;
    pub use fast_check_tree_forms::ParamOrTsParamProp;
    pub use fast_check_tree_forms::ParenExpr;
    pub use fast_check_tree_forms::Pat;
    pub use fast_check_tree_forms::PatExpr;
    pub use fast_check_tree_forms::PrivateMethod;
    pub use fast_check_tree_forms::PrivateName;
    pub use fast_check_tree_forms::PrivateProp;
    pub use fast_check_tree_forms::Program;
    pub use fast_check_tree_forms::Prop;
    pub use fast_check_tree_forms::PropName;
    pub use fast_check_tree_forms::PropOrSpread;
    pub use fast_check_tree_forms::Regex;
    pub use fast_check_tree_forms::RestPat;
    pub use fast_check_tree_forms::ReturnStmt;
    pub use fast_check_tree_forms::Script;
    pub use fast_check_tree_forms::SeqExpr;
    pub use fast_check_tree_forms::SetterProp;
    pub use fast_check_tree_forms::SpreadElement;
    pub use fast_check_tree_forms::StaticBlock;
    pub use fast_check_tree_forms::Stmt;
    pub use fast_check_tree_forms::Str;
    pub use fast_check_tree_forms::Super;
    pub use fast_check_tree_forms::SuperPropExpr;
    pub use fast_check_tree_forms::SwitchCase;
    pub use fast_check_tree_forms::SwitchStmt;
    pub use fast_check_tree_forms::TaggedTpl;
    pub use fast_check_tree_forms::TargetPat;
    pub use fast_check_tree_forms::ThisExpr;
    pub use fast_check_tree_forms::ThrowStmt;
    pub use fast_check_tree_forms::Tpl;
    pub use fast_check_tree_forms::TplElement;
    pub use fast_check_tree_forms::TryStmt;
    pub use fast_check_tree_forms::TsArrayType;
    pub use fast_check_tree_forms::TsAsExpr;
    pub use fast_check_tree_forms::TsCallSignatureDecl;
    pub use fast_check_tree_forms::TsConditionalType;
    pub use fast_check_tree_forms::TsConstAssertion;
    pub use fast_check_tree_forms::TsConstructSignatureDecl;
    pub use fast_check_tree_forms::TsConstructorType;
    pub use fast_check_tree_forms::TsEntityName;
    pub use fast_check_tree_forms::TsEnumDecl;
    pub use fast_check_tree_forms::TsEnumMember;
    pub use fast_check_tree_forms::TsEnumMemberId;
    pub use fast_check_tree_forms::TsExportAssignment;
    pub use fast_check_tree_forms::TsExprWithTypeArgs;
    pub use fast_check_tree_forms::TsExternalModuleRef;
    pub use fast_check_tree_forms::TsFnOrConstructorType;
    pub use fast_check_tree_forms::TsFnType;
    pub use fast_check_tree_forms::TsGetterSignature;
    pub use fast_check_tree_forms::TsImportEqualsDecl;
    pub use fast_check_tree_forms::TsImportType;
    pub use fast_check_tree_forms::TsIndexSignature;
    pub use fast_check_tree_forms::TsIndexedAccessType;
    pub use fast_check_tree_forms::TsInferType;
    pub use fast_check_tree_forms::TsInstantiation;
    pub use fast_check_tree_forms::TsInterfaceBody;
    pub use fast_check_tree_forms::TsInterfaceDecl;
    pub use fast_check_tree_forms::TsIntersectionType;
    pub use fast_check_tree_forms::TsKeywordType;
    pub use fast_check_tree_forms::TsLit;
    pub use fast_check_tree_forms::TsLitType;
    pub use fast_check_tree_forms::TsMappedType;
    pub use fast_check_tree_forms::TsMethodSignature;
    pub use fast_check_tree_forms::TsModuleBlock;
    pub use fast_check_tree_forms::TsModuleDecl;
    pub use fast_check_tree_forms::TsModuleName;
    pub use fast_check_tree_forms::TsModuleRef;
    pub use fast_check_tree_forms::TsNamespaceBody;
    pub use fast_check_tree_forms::TsNamespaceDecl;
    pub use fast_check_tree_forms::TsNamespaceExportDecl;
    pub use fast_check_tree_forms::TsNonNullExpr;
    pub use fast_check_tree_forms::TsOptionalType;
    pub use fast_check_tree_forms::TsParamProp;
    pub use fast_check_tree_forms::TsParamPropParam;
    pub use fast_check_tree_forms::TsParenthesizedType;
    pub use fast_check_tree_forms::TsPropertySignature;
    pub use fast_check_tree_forms::TsQualifiedName;
    pub use fast_check_tree_forms::TsRestType;
    pub use fast_check_tree_forms::TsSatisfiesExpr;
    pub use fast_check_tree_forms::TsSetterSignature;
    pub use fast_check_tree_forms::TsThisType;
    pub use fast_check_tree_forms::TsThisTypeOrIdent;
    pub use fast_check_tree_forms::TsTplLitType;
    pub use fast_check_tree_forms::TsTupleElement;
    pub use fast_check_tree_forms::TsTupleType;
    pub use fast_check_tree_forms::TsType;
    pub use fast_check_tree_forms::TsTypeAliasDecl;
    pub use fast_check_tree_forms::TsTypeAnn;
    pub use fast_check_tree_forms::TsTypeAssertion;
    pub use fast_check_tree_forms::TsTypeElement;
    pub use fast_check_tree_forms::TsTypeLit;
    pub use fast_check_tree_forms::TsTypeOperator;
    pub use fast_check_tree_forms::TsTypeParam;
    pub use fast_check_tree_forms::TsTypeParamDecl;
    pub use fast_check_tree_forms::TsTypeParamInstantiation;
    pub use fast_check_tree_forms::TsTypePredicate;
    pub use fast_check_tree_forms::TsTypeQuery;
    pub use fast_check_tree_forms::TsTypeQueryExpr;
    pub use fast_check_tree_forms::TsTypeRef;
    pub use fast_check_tree_forms::TsUnionOrIntersectionType;
    pub use fast_check_tree_forms::TsUnionType;
    pub use fast_check_tree_forms::UnaryExpr;
    pub use fast_check_tree_forms::UpdateExpr;
    pub use fast_check_tree_forms::UsingDecl;
    pub use fast_check_tree_forms::VarDecl;
    pub use fast_check_tree_forms::VarDeclOrExpr;
    pub use fast_check_tree_forms::VarDeclarator;
    pub use fast_check_tree_forms::WhileStmt;
    pub use fast_check_tree_forms::WithStmt;
    pub use fast_check_tree_forms::YieldExpr;
    pub use fast_check_tree_forms::range_of_node;
}

/// New nodes, and the types that values show by themselves.
pub mod helpers {
    pub use fast_check_tree_helpers::{
        DeclMutabilityKind, IdentTypeRef, ParamsOptionalStartIndex, ReturnStatementAnalysis,
        TsKeywordTypeKind, analyze_return_stmts_in_function_body, any_type_ann, is_global,
        is_simple_type, is_void_type, maybe_infer_type, maybe_lit_to_ts_type, never_value,
        new_ident, object_freeze_call_arg, regex_type, shows_type, single_return_arg,
        tpl_to_ts_type, ts_keyword_type, ts_lit_type, ts_readonly, ts_tuple_element, type_ann,
        type_ref,
    };
}

/// Comments by position.
pub mod comments {
    pub use fast_check_tree_comments::{
        Comment, CommentKind, CommentList, CommentMap, Comments, CommentsMut,
    };
}

pub use fast_check_tree_syntax::{
    Atom, DUMMY_SP, Id, Items, Kind, Part, SourcePos, SourceRange, SyntaxContext, Tree, Word,
    clone_tree, same_tree,
};
