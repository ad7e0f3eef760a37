//! New nodes: identifiers, keyword types, literal types, references to types and annotations.
ghost use Rattle.std.specs.Prelude.{◌≡◌, IfOk};
ghost use Rattle.fast_check_tree_syntax.specs.Part.{seen};
ghost use Rattle.fast_check_tree_forms_programs.specs.Names.{ident};
ghost use Rattle.fast_check_tree_forms_types.specs.Types as types;
ghost use Rattle.fast_check_tree_helpers.specs.Builders as build;
ghost use Rattle.fast_check_tree_helpers.specs.Keywords.{word_of};

use crate::keywords::TsKeywordTypeKind;
use fast_check_tree_forms_expressions::{ObjectLit, TsAsExpr};
use fast_check_tree_forms_programs::Ident;
use fast_check_tree_forms_types::{
    TsKeywordType, TsLitType, TsTupleElement, TsTypeAnn, TsTypeOperator, TsTypeRef,
};
use fast_check_tree_syntax::{
    Atom, DUMMY_SP, Items, Kind, Part, SourceRange, SyntaxContext, Tree, Word,
};
use std::alloc::{AllocError, Global};

/// A reference to a type by one identifier, as `RegExp`.
#[derive(Drop)]
pub struct IdentTypeRef {
    pub span: SourceRange,
    pub type_name: Ident<Atom>,
}

impl IdentTypeRef {
    ghost use Rattle.fast_check_tree_helpers.specs.Builders.{ident_type_ref};

    /// The node of these fields, a `TsTypeRef`.
    pub fn into_tree(self, alloc: Global) -> Result<Tree, AllocError>
        ensures { IfOk result (λ tree. tree ≡ ident_type_ref self) }
    {
        TsTypeRef {
            span: self.span,
            type_name: self.type_name.into_tree(alloc)?,
            type_params: Tree::Absent,
        }
        .into_tree(alloc)
    }
}

/// The identifier of this name. It takes no memory.
pub fn new_ident(name: Atom) -> Ident<Atom>
    ensures { ident result.span result.ctxt result.sym result.optional ≡ build.new_ident name }
{
    Ident {
        span: DUMMY_SP,
        ctxt: SyntaxContext(0),
        sym: name,
        optional: false,
    }
}

/// The type of a keyword, as `string`. It takes no memory.
pub fn ts_keyword_type(kind: TsKeywordTypeKind) -> TsKeywordType<Tree>
    ensures { types.ts_keyword_type result.span result.kind ≡ build.ts_keyword_type (word_of kind) }
{
    TsKeywordType {
        span: DUMMY_SP,
        kind: Tree::Word(kind.word()),
    }
}

/// The type of a literal, as `"a"`. It takes no memory.
pub fn ts_lit_type(lit: Tree) -> TsLitType<Tree>
    ensures { types.ts_lit_type result.span result.lit ≡ build.ts_lit_type lit }
{
    TsLitType {
        span: DUMMY_SP,
        lit,
    }
}

/// A reference to a type by its name. It takes no memory.
pub fn type_ref(name: Atom) -> IdentTypeRef
    ensures { build.ident_type_ref result ≡ build.type_ref name }
{
    IdentTypeRef {
        span: DUMMY_SP,
        type_name: new_ident(name),
    }
}

/// `RegExp`, the type of regular expressions.
pub fn regex_type(alloc: Global) -> Result<Tree, AllocError>
    ensures { IfOk result (λ tree. tree ≡ build.regex_type) }
{
    type_ref(Atom::from_str(alloc, "RegExp")?).into_tree(alloc)
}

/// The annotation `: ty`.
pub fn type_ann(alloc: Global, ty: Tree) -> Result<Tree, AllocError>
    ensures { IfOk result (λ tree. tree ≡ build.type_ann ty) }
{
    TsTypeAnn {
        span: DUMMY_SP,
        type_ann: ty,
    }
    .into_tree(alloc)
}

/// The annotation `: any`.
pub fn any_type_ann(alloc: Global) -> Result<Tree, AllocError>
    ensures { IfOk result (λ tree. tree ≡ build.any_type_ann) }
{
    type_ann(
        alloc,
        ts_keyword_type(TsKeywordTypeKind::TsAnyKeyword).into_tree(alloc)?,
    )
}

/// The type `readonly ty`.
pub fn ts_readonly(alloc: Global, ty: Tree) -> Result<Tree, AllocError>
    ensures { IfOk result (λ tree. tree ≡ build.ts_readonly ty) }
{
    TsTypeOperator {
        span: DUMMY_SP,
        op: Tree::Word(Word::ReadOnly),
        type_ann: ty,
    }
    .into_tree(alloc)
}

/// The type `unique symbol`.
pub(crate) fn unique_symbol(alloc: Global) -> Result<Tree, AllocError>
    ensures { IfOk result (λ tree. tree ≡ build.unique_symbol) }
{
    TsTypeOperator {
        span: DUMMY_SP,
        op: Tree::Word(Word::Unique),
        type_ann: type_ref(Atom::from_str(alloc, "symbol")?).into_tree(alloc)?,
    }
    .into_tree(alloc)
}

/// A type in a tuple, without label.
pub fn ts_tuple_element(alloc: Global, ty: Tree) -> Result<Tree, AllocError>
    ensures { IfOk result (λ tree. tree ≡ build.ts_tuple_element ty) }
{
    TsTupleElement {
        span: DUMMY_SP,
        label: Tree::Absent,
        ty,
    }
    .into_tree(alloc)
}

/// Whether a type is the keyword `void`. It takes no memory.
pub fn is_void_type(ty: Part<'_>) -> bool
    ensures { result ≡ build.is_void_type (seen ty.entry) }
{
    ty.kind() == Kind::TsKeywordType && TsKeywordType::of(ty).kind.has_word(Word::TsVoidKeyword)
}

/// `{} as never`, the value of what has a type.
pub fn never_value(alloc: Global) -> Result<Tree, AllocError>
    ensures { IfOk result (λ tree. tree ≡ build.never_value) }
{
    let object = ObjectLit {
        span: DUMMY_SP,
        props: Tree::list(Items::new(alloc)),
    };
    TsAsExpr {
        span: DUMMY_SP,
        expr: object.into_tree(alloc)?,
        type_ann: ts_keyword_type(TsKeywordTypeKind::TsNeverKeyword).into_tree(alloc)?,
    }
    .into_tree(alloc)
}
