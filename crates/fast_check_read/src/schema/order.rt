//! The order in which the fields of a form are written: that of their names.

ghost use Rattle.std.specs.Prelude.{◌≡◌};
ghost use Rattle.fast_check_read.specs.schema.Order.{written_places};

use fast_check_tree_syntax::Kind;

/// The places of a form's fields in the order in which they are written, which is that of their names' bytes. A kind that
/// is no form (a leaf, a list, a mark) has none.
pub fn written_order(kind: Kind) -> &'static [usize]
    ensures { result.now ≡ written_places kind }
{
    WRITTEN_ORDERS[kind as usize]
}

/// The order of each kind, in the order of the kinds.
static WRITTEN_ORDERS: [&[usize]; 168] = [
    // Written by forms/write.py from forms/forms.txt, up to the closing bracket.
    &[], // Leaf
    &[], // List
    &[1, 3, 0, 2], // Ident
    &[0, 1], // IdentName
    &[0, 1], // BindingIdent
    &[1, 0], // PrivateName
    &[2, 0, 1], // Str
    &[0, 1], // Bool
    &[0], // Null
    &[1, 0], // Number
    &[1, 0], // BigInt
    &[1, 2, 0], // Regex
    &[1, 0], // JSXText
    &[1, 2, 0], // Module
    &[1, 2, 0], // Script
    &[5, 0, 1, 2, 3, 4], // ImportDecl
    &[1, 0], // ExportDecl
    &[0, 1, 2, 3, 4], // NamedExport
    &[1, 0], // ExportDefaultDecl
    &[1, 0], // ExportDefaultExpr
    &[0, 1, 2, 3], // ExportAll
    &[3, 1, 2, 4, 0], // TsImportEqualsDecl
    &[1, 0], // TsExportAssignment
    &[1, 0], // TsNamespaceExportDecl
    &[2, 3, 1, 0], // ImportNamedSpecifier
    &[1, 0], // ImportDefaultSpecifier
    &[1, 0], // ImportStarAsSpecifier
    &[1, 0], // ExportNamespaceSpecifier
    &[0], // ExportDefaultSpecifier
    &[2, 3, 1, 0], // ExportNamedSpecifier
    &[1, 0], // TsExternalModuleRef
    &[1, 0, 2], // BlockStmt
    &[0], // EmptyStmt
    &[0], // DebuggerStmt
    &[2, 1, 0], // WithStmt
    &[1, 0], // ReturnStmt
    &[2, 1, 0], // LabeledStmt
    &[1, 0], // BreakStmt
    &[1, 0], // ContinueStmt
    &[3, 2, 0, 1], // IfStmt
    &[2, 1, 0], // SwitchStmt
    &[2, 0, 1], // SwitchCase
    &[1, 0], // ThrowStmt
    &[1, 3, 2, 0], // TryStmt
    &[2, 1, 0], // CatchClause
    &[2, 0, 1], // WhileStmt
    &[2, 0, 1], // DoWhileStmt
    &[4, 1, 0, 2, 3], // ForStmt
    &[3, 1, 2, 0], // ForInStmt
    &[4, 1, 2, 3, 0], // ForOfStmt
    &[1, 0], // ExprStmt
    &[2, 1, 0], // ClassDecl
    &[1, 2, 0], // FnDecl
    &[1, 3, 4, 2, 0], // VarDecl
    &[3, 2, 1, 0], // VarDeclarator
    &[2, 1, 0], // UsingDecl
    &[5, 2, 4, 1, 0, 3], // TsInterfaceDecl
    &[1, 0, 2], // TsExprWithTypeArgs
    &[1, 0], // TsInterfaceBody
    &[1, 2, 0, 4, 3], // TsTypeAliasDecl
    &[1, 3, 2, 4, 0], // TsEnumDecl
    &[1, 2, 0], // TsEnumMember
    &[5, 1, 2, 4, 3, 0], // TsModuleDecl
    &[1, 0], // TsModuleBlock
    &[4, 1, 2, 3, 0], // TsNamespaceDecl
    &[0], // ThisExpr
    &[1, 0], // ArrayLit
    &[1, 0], // ObjectLit
    &[1, 0], // FnExpr
    &[2, 1, 0], // UnaryExpr
    &[3, 1, 2, 0], // UpdateExpr
    &[2, 1, 3, 0], // BinExpr
    &[2, 1, 3, 0], // AssignExpr
    &[1, 2, 0], // MemberExpr
    &[1, 0], // SuperPropExpr
    &[3, 2, 0, 1], // CondExpr
    &[3, 2, 1, 0, 4], // CallExpr
    &[3, 2, 1, 0, 4], // NewExpr
    &[1, 0], // SeqExpr
    &[1, 2, 0], // Tpl
    &[2, 3, 0, 1], // TplElement
    &[1, 0, 2, 4, 3], // TaggedTpl
    &[3, 1, 4, 5, 2, 7, 0, 6], // ArrowExpr
    &[1, 0], // ClassExpr
    &[1, 2, 0], // YieldExpr
    &[1, 0], // MetaPropExpr
    &[1, 0], // AwaitExpr
    &[1, 0], // ParenExpr
    &[1, 0], // JSXMember
    &[1, 0], // JSXNamespacedName
    &[1, 0], // JSXEmpty
    &[1, 0], // JSXElement
    &[1, 0], // JSXFragment
    &[1, 0, 2], // TsTypeAssertion
    &[1, 0, 2], // TsAsExpr
    &[1, 0, 2], // TsSatisfiesExpr
    &[1, 0], // TsConstAssertion
    &[1, 0], // TsNonNullExpr
    &[1, 0, 2], // TsInstantiation
    &[2, 1, 0], // OptChainExpr
    &[0], // Invalid
    &[3, 2, 1, 0, 4], // OptCall
    &[1, 0], // ExprOrSpread
    &[0, 1], // SpreadElement
    &[0, 1], // KeyValueProp
    &[1, 0, 2], // AssignProp
    &[3, 1, 0, 2], // GetterProp
    &[3, 1, 2, 0], // SetterProp
    &[1, 0], // MethodProp
    &[1, 0], // ComputedPropName
    &[0], // Super
    &[1, 0], // Import
    &[1, 2, 0, 3], // ArrayPat
    &[2, 1, 0, 3], // RestPat
    &[2, 1, 0, 3], // ObjectPat
    &[1, 2, 0], // AssignPat
    &[0, 1], // KeyValuePatProp
    &[1, 0, 2], // AssignPatProp
    &[4, 3, 2, 6, 5, 1, 8, 0, 7], // Function
    &[1, 2, 0], // Param
    &[3, 1, 2, 8, 5, 0, 4, 7, 6], // Class
    &[1, 0], // Decorator
    &[5, 4, 1, 6, 2, 3, 0], // Constructor
    &[5, 2, 6, 7, 8, 4, 1, 3, 0], // ClassMethod
    &[5, 2, 6, 7, 8, 4, 1, 3, 0], // PrivateMethod
    &[6, 11, 5, 12, 7, 8, 9, 4, 1, 10, 0, 3, 2], // ClassProp
    &[7, 1, 6, 11, 8, 9, 5, 2, 10, 0, 4, 3], // PrivateProp
    &[4, 1, 3, 0, 2], // TsIndexSignature
    &[1, 0], // StaticBlock
    &[6, 5, 9, 7, 8, 4, 1, 0, 3, 2], // AutoAccessor
    &[2, 1, 3, 5, 4, 0], // TsParamProp
    &[1, 0], // TsKeywordType
    &[0], // TsThisType
    &[4, 1, 0, 3, 2], // TsFnType
    &[4, 1, 0, 3, 2], // TsConstructorType
    &[0, 1, 2], // TsTypeRef
    &[1, 0, 2], // TsTypeQuery
    &[1, 0], // TsTypeLit
    &[1, 0], // TsArrayType
    &[1, 0], // TsTupleType
    &[1, 0, 2], // TsTupleElement
    &[0, 1], // TsOptionalType
    &[0, 1], // TsRestType
    &[0, 1], // TsParenthesizedType
    &[0, 1], // TsUnionType
    &[0, 1], // TsIntersectionType
    &[1, 2, 4, 0, 3], // TsConditionalType
    &[0, 1], // TsInferType
    &[1, 0, 2], // TsTypeOperator
    &[3, 2, 1, 0], // TsIndexedAccessType
    &[3, 4, 1, 0, 5, 2], // TsMappedType
    &[1, 0], // TsLitType
    &[2, 0, 1], // TsTplLitType
    &[1, 2, 0, 3], // TsTypePredicate
    &[1, 2, 0, 3], // TsImportType
    &[1, 2, 0], // TsQualifiedName
    &[1, 0, 2, 3], // TsCallSignatureDecl
    &[1, 0, 2, 3], // TsConstructSignatureDecl
    &[2, 1, 4, 3, 0, 5], // TsPropertySignature
    &[2, 1, 0, 3], // TsGetterSignature
    &[2, 1, 3, 0], // TsSetterSignature
    &[2, 1, 3, 4, 0, 5, 6], // TsMethodSignature
    &[5, 6, 4, 2, 3, 1, 0], // TsTypeParam
    &[1, 0], // TsTypeParamDecl
    &[1, 0], // TsTypeParamInstantiation
    &[0, 1], // TsTypeAnn
    &[], // TargetPat
    &[], // PatExpr
];
