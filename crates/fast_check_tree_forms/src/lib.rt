//! The forms of the syntax tree under swc's names: each reads a node by its fields, and makes one; and the choices between them, for `match`.
//!
//! A form reads a node where its `N` is a `Part` and its `T` a `&str`, and makes one where they are a `Tree` and an `Atom`.
//!
//! `of` of a form reads a node by the places of its fields, whatever its kind is. A field that is not there is absent, false, empty or
//! `DUMMY_SP`. `into_tree` fails only if memory runs out.
//!
//! `of` of a choice says which of its forms a node has. It goes by the node's kind, and is `Other` for a kind that the choice has not:
//!
//! ```ignore
//! match Expr::of(node) {
//!     Expr::Bin => walk_operands(BinExpr::of(node)),
//!     Expr::Lit => literal(Lit::of(node)),
//!     _ => {}
//! }
//! ```
//!
//! A choice holds no fields: the form's `of` reads them, and where a choice stands within a choice, as `Lit` within `Expr`, its `of` is asked
//! next. Two variants are marks, nodes of their own round what they hold: `Pat::Expr` stands round `PatExpr::of(node).expr`, and
//! `AssignTarget::Pat` round `TargetPat::of(node).pat`.
#![tactic(auto)]

// Written by forms/write.py from forms/forms.txt, as all that follows.

mod class_choices;
mod expression_choices;
mod name_choices;
mod pattern_choices;
mod program_choices;
mod statement_choices;
mod type_choices;

pub use class_choices::ClassMember;
pub use class_choices::ParamOrTsParamProp;
pub use class_choices::TsParamPropParam;
pub use expression_choices::BlockStmtOrExpr;
pub use expression_choices::Callee;
pub use expression_choices::Expr;
pub use expression_choices::OptChainBase;
pub use fast_check_tree_forms_classes::AutoAccessor;
pub use fast_check_tree_forms_classes::Class;
pub use fast_check_tree_forms_classes::ClassMethod;
pub use fast_check_tree_forms_classes::ClassProp;
pub use fast_check_tree_forms_classes::Constructor;
pub use fast_check_tree_forms_classes::Decorator;
pub use fast_check_tree_forms_classes::Function;
pub use fast_check_tree_forms_classes::Param;
pub use fast_check_tree_forms_classes::PrivateMethod;
pub use fast_check_tree_forms_classes::PrivateProp;
pub use fast_check_tree_forms_classes::StaticBlock;
pub use fast_check_tree_forms_classes::TsIndexSignature;
pub use fast_check_tree_forms_classes::TsParamProp;
pub use fast_check_tree_forms_expressions::ArrayLit;
pub use fast_check_tree_forms_expressions::ArrayPat;
pub use fast_check_tree_forms_expressions::ArrowExpr;
pub use fast_check_tree_forms_expressions::AssignExpr;
pub use fast_check_tree_forms_expressions::AssignPat;
pub use fast_check_tree_forms_expressions::AssignPatProp;
pub use fast_check_tree_forms_expressions::AssignProp;
pub use fast_check_tree_forms_expressions::AwaitExpr;
pub use fast_check_tree_forms_expressions::BinExpr;
pub use fast_check_tree_forms_expressions::CallExpr;
pub use fast_check_tree_forms_expressions::ClassExpr;
pub use fast_check_tree_forms_expressions::ComputedPropName;
pub use fast_check_tree_forms_expressions::CondExpr;
pub use fast_check_tree_forms_expressions::ExprOrSpread;
pub use fast_check_tree_forms_expressions::FnExpr;
pub use fast_check_tree_forms_expressions::GetterProp;
pub use fast_check_tree_forms_expressions::Import;
pub use fast_check_tree_forms_expressions::Invalid;
pub use fast_check_tree_forms_expressions::JSXElement;
pub use fast_check_tree_forms_expressions::JSXEmpty;
pub use fast_check_tree_forms_expressions::JSXFragment;
pub use fast_check_tree_forms_expressions::JSXMember;
pub use fast_check_tree_forms_expressions::JSXNamespacedName;
pub use fast_check_tree_forms_expressions::KeyValuePatProp;
pub use fast_check_tree_forms_expressions::KeyValueProp;
pub use fast_check_tree_forms_expressions::MemberExpr;
pub use fast_check_tree_forms_expressions::MetaPropExpr;
pub use fast_check_tree_forms_expressions::MethodProp;
pub use fast_check_tree_forms_expressions::NewExpr;
pub use fast_check_tree_forms_expressions::ObjectLit;
pub use fast_check_tree_forms_expressions::ObjectPat;
pub use fast_check_tree_forms_expressions::OptCall;
pub use fast_check_tree_forms_expressions::OptChainExpr;
pub use fast_check_tree_forms_expressions::ParenExpr;
pub use fast_check_tree_forms_expressions::PatExpr;
pub use fast_check_tree_forms_expressions::RestPat;
pub use fast_check_tree_forms_expressions::SeqExpr;
pub use fast_check_tree_forms_expressions::SetterProp;
pub use fast_check_tree_forms_expressions::SpreadElement;
pub use fast_check_tree_forms_expressions::Super;
pub use fast_check_tree_forms_expressions::SuperPropExpr;
pub use fast_check_tree_forms_expressions::TaggedTpl;
pub use fast_check_tree_forms_expressions::TargetPat;
pub use fast_check_tree_forms_expressions::ThisExpr;
pub use fast_check_tree_forms_expressions::Tpl;
pub use fast_check_tree_forms_expressions::TplElement;
pub use fast_check_tree_forms_expressions::TsAsExpr;
pub use fast_check_tree_forms_expressions::TsConstAssertion;
pub use fast_check_tree_forms_expressions::TsInstantiation;
pub use fast_check_tree_forms_expressions::TsNonNullExpr;
pub use fast_check_tree_forms_expressions::TsSatisfiesExpr;
pub use fast_check_tree_forms_expressions::TsTypeAssertion;
pub use fast_check_tree_forms_expressions::UnaryExpr;
pub use fast_check_tree_forms_expressions::UpdateExpr;
pub use fast_check_tree_forms_expressions::YieldExpr;
pub use fast_check_tree_forms_programs::BigInt;
pub use fast_check_tree_forms_programs::BindingIdent;
pub use fast_check_tree_forms_programs::Bool;
pub use fast_check_tree_forms_programs::ExportAll;
pub use fast_check_tree_forms_programs::ExportDecl;
pub use fast_check_tree_forms_programs::ExportDefaultDecl;
pub use fast_check_tree_forms_programs::ExportDefaultExpr;
pub use fast_check_tree_forms_programs::ExportDefaultSpecifier;
pub use fast_check_tree_forms_programs::ExportNamedSpecifier;
pub use fast_check_tree_forms_programs::ExportNamespaceSpecifier;
pub use fast_check_tree_forms_programs::Ident;
pub use fast_check_tree_forms_programs::IdentName;
pub use fast_check_tree_forms_programs::ImportDecl;
pub use fast_check_tree_forms_programs::ImportDefaultSpecifier;
pub use fast_check_tree_forms_programs::ImportNamedSpecifier;
pub use fast_check_tree_forms_programs::ImportStarAsSpecifier;
pub use fast_check_tree_forms_programs::JSXText;
pub use fast_check_tree_forms_programs::Module;
pub use fast_check_tree_forms_programs::NamedExport;
pub use fast_check_tree_forms_programs::Null;
pub use fast_check_tree_forms_programs::Number;
pub use fast_check_tree_forms_programs::PrivateName;
pub use fast_check_tree_forms_programs::Regex;
pub use fast_check_tree_forms_programs::Script;
pub use fast_check_tree_forms_programs::Str;
pub use fast_check_tree_forms_programs::TsExportAssignment;
pub use fast_check_tree_forms_programs::TsExternalModuleRef;
pub use fast_check_tree_forms_programs::TsImportEqualsDecl;
pub use fast_check_tree_forms_programs::TsNamespaceExportDecl;
pub use fast_check_tree_forms_statements::BlockStmt;
pub use fast_check_tree_forms_statements::BreakStmt;
pub use fast_check_tree_forms_statements::CatchClause;
pub use fast_check_tree_forms_statements::ClassDecl;
pub use fast_check_tree_forms_statements::ContinueStmt;
pub use fast_check_tree_forms_statements::DebuggerStmt;
pub use fast_check_tree_forms_statements::DoWhileStmt;
pub use fast_check_tree_forms_statements::EmptyStmt;
pub use fast_check_tree_forms_statements::ExprStmt;
pub use fast_check_tree_forms_statements::FnDecl;
pub use fast_check_tree_forms_statements::ForInStmt;
pub use fast_check_tree_forms_statements::ForOfStmt;
pub use fast_check_tree_forms_statements::ForStmt;
pub use fast_check_tree_forms_statements::IfStmt;
pub use fast_check_tree_forms_statements::LabeledStmt;
pub use fast_check_tree_forms_statements::ReturnStmt;
pub use fast_check_tree_forms_statements::SwitchCase;
pub use fast_check_tree_forms_statements::SwitchStmt;
pub use fast_check_tree_forms_statements::ThrowStmt;
pub use fast_check_tree_forms_statements::TryStmt;
pub use fast_check_tree_forms_statements::TsEnumDecl;
pub use fast_check_tree_forms_statements::TsEnumMember;
pub use fast_check_tree_forms_statements::TsExprWithTypeArgs;
pub use fast_check_tree_forms_statements::TsInterfaceBody;
pub use fast_check_tree_forms_statements::TsInterfaceDecl;
pub use fast_check_tree_forms_statements::TsModuleBlock;
pub use fast_check_tree_forms_statements::TsModuleDecl;
pub use fast_check_tree_forms_statements::TsNamespaceDecl;
pub use fast_check_tree_forms_statements::TsTypeAliasDecl;
pub use fast_check_tree_forms_statements::UsingDecl;
pub use fast_check_tree_forms_statements::VarDecl;
pub use fast_check_tree_forms_statements::VarDeclarator;
pub use fast_check_tree_forms_statements::WhileStmt;
pub use fast_check_tree_forms_statements::WithStmt;
pub use fast_check_tree_forms_types::TsArrayType;
pub use fast_check_tree_forms_types::TsCallSignatureDecl;
pub use fast_check_tree_forms_types::TsConditionalType;
pub use fast_check_tree_forms_types::TsConstructSignatureDecl;
pub use fast_check_tree_forms_types::TsConstructorType;
pub use fast_check_tree_forms_types::TsFnType;
pub use fast_check_tree_forms_types::TsGetterSignature;
pub use fast_check_tree_forms_types::TsImportType;
pub use fast_check_tree_forms_types::TsIndexedAccessType;
pub use fast_check_tree_forms_types::TsInferType;
pub use fast_check_tree_forms_types::TsIntersectionType;
pub use fast_check_tree_forms_types::TsKeywordType;
pub use fast_check_tree_forms_types::TsLitType;
pub use fast_check_tree_forms_types::TsMappedType;
pub use fast_check_tree_forms_types::TsMethodSignature;
pub use fast_check_tree_forms_types::TsOptionalType;
pub use fast_check_tree_forms_types::TsParenthesizedType;
pub use fast_check_tree_forms_types::TsPropertySignature;
pub use fast_check_tree_forms_types::TsQualifiedName;
pub use fast_check_tree_forms_types::TsRestType;
pub use fast_check_tree_forms_types::TsSetterSignature;
pub use fast_check_tree_forms_types::TsThisType;
pub use fast_check_tree_forms_types::TsTplLitType;
pub use fast_check_tree_forms_types::TsTupleElement;
pub use fast_check_tree_forms_types::TsTupleType;
pub use fast_check_tree_forms_types::TsTypeAnn;
pub use fast_check_tree_forms_types::TsTypeLit;
pub use fast_check_tree_forms_types::TsTypeOperator;
pub use fast_check_tree_forms_types::TsTypeParam;
pub use fast_check_tree_forms_types::TsTypeParamDecl;
pub use fast_check_tree_forms_types::TsTypeParamInstantiation;
pub use fast_check_tree_forms_types::TsTypePredicate;
pub use fast_check_tree_forms_types::TsTypeQuery;
pub use fast_check_tree_forms_types::TsTypeRef;
pub use fast_check_tree_forms_types::TsUnionType;
pub use fast_check_tree_helpers::ranges::range_of_node;
pub use name_choices::Key;
pub use name_choices::Lit;
pub use name_choices::MemberProp;
pub use name_choices::ModuleExportName;
pub use name_choices::PropName;
pub use name_choices::TsEnumMemberId;
pub use name_choices::TsModuleName;
pub use pattern_choices::AssignTarget;
pub use pattern_choices::ObjectPatProp;
pub use pattern_choices::Pat;
pub use pattern_choices::Prop;
pub use pattern_choices::PropOrSpread;
pub use program_choices::DefaultDecl;
pub use program_choices::ExportSpecifier;
pub use program_choices::ImportSpecifier;
pub use program_choices::ModuleDecl;
pub use program_choices::ModuleItem;
pub use program_choices::Program;
pub use program_choices::TsModuleRef;
pub use statement_choices::Decl;
pub use statement_choices::ForHead;
pub use statement_choices::Stmt;
pub use statement_choices::TsNamespaceBody;
pub use statement_choices::VarDeclOrExpr;
pub use type_choices::TsEntityName;
pub use type_choices::TsFnOrConstructorType;
pub use type_choices::TsLit;
pub use type_choices::TsThisTypeOrIdent;
pub use type_choices::TsType;
pub use type_choices::TsTypeElement;
pub use type_choices::TsTypeQueryExpr;
pub use type_choices::TsUnionOrIntersectionType;
