//! What the tables of the tree's JSON are made of: choices, lists of words, forms and their fields.
use fast_check_tree_syntax::{Kind, Word};

/// An enum of the tree whose variants have content. In JSON it is an object of one key, the variant's name.
#[derive(Clone, Copy, PartialEq, Eq, Debug)]
pub enum Choice {
    // Written by forms/write.py from forms/forms.txt, up to the closing bracket.
    Lit,
    Program,
    ModuleItem,
    ModuleDecl,
    ImportSpecifier,
    ExportSpecifier,
    ModuleExportName,
    DefaultDecl,
    TsModuleRef,
    Stmt,
    VarDeclOrExpr,
    ForHead,
    Decl,
    TsEnumMemberId,
    TsModuleName,
    TsNamespaceBody,
    Expr,
    BlockStmtOrExpr,
    OptChainBase,
    PropOrSpread,
    Prop,
    PropName,
    MemberProp,
    Callee,
    AssignTarget,
    Pat,
    ObjectPatProp,
    ClassMember,
    Key,
    ParamOrTsParamProp,
    TsParamPropParam,
    TsType,
    TsFnOrConstructorType,
    TsTypeQueryExpr,
    TsUnionOrIntersectionType,
    TsLit,
    TsThisTypeOrIdent,
    TsEntityName,
    TsTypeElement,
}

/// An enum of the tree whose variants have no content. In JSON it is a text, the variant's name.
#[derive(Clone, Copy, PartialEq, Eq, Debug)]
pub enum Words {
    // Written by forms/write.py from forms/forms.txt, up to the closing bracket.
    VarDeclKind,
    MethodKind,
    Accessibility,
    TsKeywordTypeKind,
    TsTypeOperatorOp,
}

/// What stands at a place of the tree.
#[derive(Clone, Copy, PartialEq, Eq, Debug)]
pub enum Form {
    Flag,
    /// The number of a scope (swc's `ctxt`).
    Context,
    Text,
    /// A part of the source text (swc's `span`).
    Range,
    Word(Words),
    Struct(Kind),
    Choice(Choice),
    /// A choice that the tree keeps under a node of this kind, a mark (`marked`), since without it two variants would hold equal trees.
    Marked(Kind),
}

/// How often a field's form stands.
#[derive(Clone, Copy, PartialEq, Eq, Debug)]
pub enum Count {
    One,
    Option,
    List,
    ListOfOptions,
    OptionOfList,
}

/// A field of a form: its name, what stands there, and how often. (The rows are tuples, since contracts can name a table of tuples.)
pub type Field = (&'static str, Form, Count);

/// A variant of a choice: its name and its content.
pub type Variant = (&'static str, Form);

/// A word with its text.
pub type Named = (&'static str, Word);

/// The range that a node stands for, the first field of most forms.
pub const SPAN: Field = ("span", Form::Range, Count::One);
