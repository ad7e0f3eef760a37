//! The properties that stand in a class: declared ones, those with a value, and `#private!: unknown`.
ghost use Rattle.std.specs.Prelude.{◌≡◌, IfOk, codes, if◌then◌else◌};
ghost use Rattle.fast_check_tree_syntax.specs.Part.{seen};
ghost use Rattle.fast_check_tree_syntax.specs.Shape.{none_range, ◌is◌, kind_of};
ghost use Rattle.fast_check_tree_syntax.specs.declared.kind.Kind.TheVariants as kinds;
ghost use Rattle.fast_check_tree_forms_expressions.specs.Patterns.{AssignPat-right};
ghost use Rattle.fast_check_tree_forms_programs.specs.Names.{Ident-span, Ident-sym};
ghost use Rattle.fast_check_tree_forms_programs.specs.Names as names;
ghost use Rattle.fast_check_tree_helpers.specs.Builders as builders;
ghost use Rattle.fast_check_tree_syntax.specs.declared.kind.Word.TheVariants.{TsUnknownKeyword};
ghost use Rattle.fast_check_meaning_signatures.specs.Answers.{declared_property, valued_property};
ghost use Rattle.fast_check_meaning_signatures.specs.Classes as classes;
ghost use Rattle.fast_check_meaning_signatures.specs.NewNodes as new;
ghost use Rattle.fast_check_meaning_signatures.specs.Typing.{type_of};
ghost use Rattle.fast_check_transform_classes.specs.class_nodes.Heads.{head_of};

use crate::class_nodes::copies::two_trees;
use crate::class_nodes::keys::is_private;
use fast_check_transform_expressions::nodes::Typing;
use fast_check_tree_forms_classes::{
    AutoAccessor, ClassMethod, ClassProp, PrivateProp, TsParamProp,
};
use fast_check_tree_forms_expressions::AssignPat;
use fast_check_tree_forms_programs::{BindingIdent, Ident, PrivateName};
use fast_check_tree_helpers::{DeclMutabilityKind, TsKeywordTypeKind, ts_keyword_type, type_ann};
use fast_check_tree_syntax::{
    Atom, DUMMY_SP, Items, Kind, Part, SourceRange, SyntaxContext, Tree, Word,
};
use std::alloc::{AllocError, Global};

/// A property of a class, but for its type and its value, and for `declare` and `!`, which go by these.
#[derive(Drop)]
pub struct PropertyHead {
    pub span: SourceRange,
    /// A `PropName`.
    pub key: Tree,
    pub is_static: bool,
    /// The word `Public`, `Protected` or `Private`, or absent.
    pub accessibility: Tree,
    pub is_abstract: bool,
    /// Whether a `?` stands behind the key.
    pub is_optional: bool,
    pub is_override: bool,
    pub readonly: bool,
}

impl PropertyHead {
    /// `declare key: type;`: a property of this type, a `TsTypeAnn`, without a value. It overrides nothing.
    pub fn declared(self, alloc: Global, type_ann: Tree) -> Result<Tree, AllocError>
        ensures { IfOk result (λ tree. tree ≡ declared_property (head_of self) type_ann) }
    {
        ClassProp {
            span: self.span,
            key: self.key,
            value: Tree::Absent,
            type_ann,
            is_static: self.is_static,
            decorators: Tree::list(Items::new(alloc)),
            accessibility: self.accessibility,
            is_abstract: self.is_abstract,
            is_optional: self.is_optional,
            is_override: false,
            readonly: self.readonly,
            declare: true,
            definite: false,
        }
        .into_tree(alloc)
    }

    /// `key = value;`: a property without type, which its value gives.
    pub fn valued(self, alloc: Global, value: Tree) -> Result<Tree, AllocError>
        ensures { IfOk result (λ tree. tree ≡ valued_property (head_of self) value) }
    {
        ClassProp {
            span: self.span,
            key: self.key,
            value,
            type_ann: Tree::Absent,
            is_static: self.is_static,
            decorators: Tree::list(Items::new(alloc)),
            accessibility: self.accessibility,
            is_abstract: self.is_abstract,
            is_optional: self.is_optional,
            is_override: self.is_override,
            readonly: self.readonly,
            declare: false,
            definite: false,
        }
        .into_tree(alloc)
    }
}

/// The head of a property.
pub fn property_head(alloc: Global, member: Part<'_>) -> Result<PropertyHead, AllocError>
    ensures { IfOk result (λ head. head_of head ≡ classes.property_head (seen member.entry)) }
{
    let prop = ClassProp::of(member);
    let (key, accessibility) = two_trees(alloc, prop.key, prop.accessibility)?;
    Ok(PropertyHead {
        span: prop.span,
        key,
        is_static: prop.is_static,
        accessibility,
        is_abstract: prop.is_abstract,
        is_optional: prop.is_optional,
        is_override: prop.is_override,
        readonly: prop.readonly,
    })
}

/// The head of the property that an accessor becomes: it keeps `static` and the accessibility alone.
pub fn accessor_head(alloc: Global, member: Part<'_>) -> Result<PropertyHead, AllocError>
    ensures { IfOk result (λ head. head_of head ≡ classes.accessor_head (seen member.entry)) }
{
    let accessor = AutoAccessor::of(member);
    let (key, accessibility) = two_trees(alloc, accessor.key, accessor.accessibility)?;
    Ok(PropertyHead {
        span: accessor.span,
        key,
        is_static: accessor.is_static,
        accessibility,
        is_abstract: false,
        is_optional: false,
        is_override: false,
        readonly: false,
    })
}

/// The head of the property that a private method becomes: it keeps `abstract` and `?` too.
pub fn private_method_head(alloc: Global, member: Part<'_>) -> Result<PropertyHead, AllocError>
    ensures { IfOk result (λ head. head_of head ≡ classes.private_method_head (seen member.entry)) }
{
    let method = ClassMethod::of(member);
    let (key, accessibility) = two_trees(alloc, method.key, method.accessibility)?;
    Ok(PropertyHead {
        span: method.span,
        key,
        is_static: method.is_static,
        accessibility,
        is_abstract: method.is_abstract,
        is_optional: method.is_optional,
        is_override: false,
        readonly: false,
    })
}

/// `#private`.
fn private_name(alloc: Global) -> Result<Tree, AllocError>
    ensures { IfOk result (λ tree. tree ≡ names.private_name none_range (codes "private")) }
{
    let name = Atom::from_str(alloc, "private")?;
    PrivateName {
        span: DUMMY_SP,
        name,
    }
    .into_tree(alloc)
}

/// `: unknown`.
fn unknown_type_ann(alloc: Global) -> Result<Tree, AllocError>
    ensures { IfOk result (λ tree. tree ≡ builders.type_ann (builders.ts_keyword_type TsUnknownKeyword)) }
{
    let unknown = ts_keyword_type(TsKeywordTypeKind::TsUnknownKeyword).into_tree(alloc)?;
    type_ann(alloc, unknown)
}

/// `#private!: unknown`, which says that a class has hash names of its own.
pub fn hash_private(alloc: Global) -> Result<Tree, AllocError>
    ensures { IfOk result (λ tree. tree ≡ new.hash_private) }
{
    let key = private_name(alloc)?;
    let type_ann = unknown_type_ann(alloc)?;
    PrivateProp {
        span: DUMMY_SP,
        ctxt: SyntaxContext(0),
        key,
        value: Tree::Absent,
        type_ann,
        is_static: false,
        decorators: Tree::list(Items::new(alloc)),
        accessibility: Tree::Absent,
        is_optional: false,
        is_override: false,
        readonly: false,
        definite: true,
    }
    .into_tree(alloc)
}

/// What a parameter property names, its default aside: an identifier with its type, or a pattern.
pub fn param_target<'a>(param: Part<'a>) -> Part<'a>
    ensures { seen result ≡ classes.param_target (seen param.entry) }
{
    let pat = TsParamProp::of(param).param;
    if pat.kind() == Kind::AssignPat {
        AssignPat::of(pat).left
    } else {
        pat
    }
}

/// Whether a parameter property takes its value apart, so that it can't be a property.
pub fn takes_apart(param: Part<'_>) -> bool
    ensures { result ≡ classes.takes_apart (seen param.entry) }
{
    param_target(param).kind() != Kind::BindingIdent
}

/// The accessibility of a parameter property; `public` goes.
fn shown_accessibility(alloc: Global, accessibility: Part<'_>) -> Result<Tree, AllocError>
    ensures { IfOk result (λ tree. tree ≡ classes.shown_accessibility (seen accessibility.entry)) }
{
    if accessibility.has_word(Word::Public) {
        return Ok(Tree::Absent);
    }
    accessibility.to_tree(alloc)
}

/// An identifier as a key.
fn name_key(alloc: Global, id: Part<'_>) -> Result<Tree, AllocError>
    ensures { IfOk result (λ tree. tree ≡ new.ident_name (Ident-span (seen id.entry)) (Ident-sym (seen id.entry))) }
{
    let Ident { span, sym, .. } = Ident::of(id);
    let sym = Atom::from_str(alloc, sym)?;
    Tree::node(alloc, Kind::IdentName, [Tree::Range(span), Tree::Text(sym)])
}

/// The head of the property that a parameter property declares: it keeps `readonly`, private or protected, and the `?` of an
/// identifier.
fn param_property_head(alloc: Global, param: Part<'_>) -> Result<PropertyHead, AllocError>
    ensures { IfOk result (λ head. head_of head ≡ classes.param_property_head (seen param.entry)) }
{
    let TsParamProp {
        span,
        accessibility,
        readonly,
        param: pat,
        ..
    } = TsParamProp::of(param);
    let id = BindingIdent::of(param_target(param)).id;
    let is_optional = pat.kind() == Kind::BindingIdent && Ident::of(id).optional;
    let key = name_key(alloc, id)?;
    let accessibility = shown_accessibility(alloc, accessibility)?;
    Ok(PropertyHead {
        span,
        key,
        is_static: false,
        accessibility,
        is_abstract: false,
        is_optional,
        is_override: false,
        readonly,
    })
}

/// What a property is inferred as: a `readonly` one keeps its value.
pub fn mutability_of_property(readonly: bool) -> DeclMutabilityKind
    ensures { result ≡ classes.mutability_of_property readonly }
{
    if readonly {
        DeclMutabilityKind::Const
    } else {
        DeclMutabilityKind::Mutable
    }
}

/// The default of a parameter, or else this part.
fn default_or<'a>(pat: Part<'a>, other: Part<'a>) -> Part<'a>
    ensures { seen result ≡ (if kind_of (seen pat.entry) is kinds.AssignPat then AssignPat-right (seen pat.entry) else seen other.entry) }
{
    if pat.kind() == Kind::AssignPat {
        AssignPat::of(pat).right
    } else {
        other
    }
}

/// The type of a parameter property, as `: type`, if it is private, or if what is written or the default gives it. `unresolved`
/// is the scope number of the names that nothing in the module binds.
fn param_property_type(
    alloc: Global,
    unresolved: SyntaxContext,
    param: Part<'_>,
) -> Result<Option<Tree>, AllocError>
    ensures { IfOk result (λ ty. ty ≡ type_of unresolved (classes.param_typing (seen param.entry))) }
{
    let prop = TsParamProp::of(param);
    let absent = Tree::Absent;
    Typing {
        is_private: is_private(prop.accessibility),
        type_ann: BindingIdent::of(param_target(param)).type_ann,
        value: default_or(prop.param, absent.read()),
        mutability: mutability_of_property(prop.readonly),
    }
    .type_of(alloc, unresolved)
}

/// `declare name: type;` for a parameter property.
pub fn param_property(
    alloc: Global,
    unresolved: SyntaxContext,
    param: Part<'_>,
) -> Result<Tree, AllocError>
    ensures { IfOk result (λ tree. tree ≡ classes.param_property unresolved (seen param.entry)) }
{
    let type_ann = param_property_type(alloc, unresolved, param)?.unwrap_or(Tree::Absent);
    let head = param_property_head(alloc, param)?;
    head.declared(alloc, type_ann)
}
