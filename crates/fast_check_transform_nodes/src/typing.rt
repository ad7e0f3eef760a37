//! The type of a declaration, by what gives it.
ghost use Rattle.std.specs.Prelude.{◌≡◌, IfOk};

use fast_check_tree_helpers::{DeclMutabilityKind, any_type_ann, maybe_infer_type, type_ann};
use fast_check_tree_syntax::{Part, SyntaxContext, Tree};
use std::alloc::{AllocError, Global};

/// What gives the type of a declaration: of a variable, a property, an accessor, a parameter with a default, or a property
/// that a parameter declares.
#[derive(Clone, Copy)]
pub struct Typing<'a> {
    pub is_private: bool,
    /// The written type, a `TsTypeAnn`, or absent.
    pub type_ann: Part<'a>,
    /// The value, or absent.
    pub value: Part<'a>,
    pub mutability: DeclMutabilityKind,
}

impl<'a> Typing<'a> {
    ghost use Rattle.fast_check_meaning_signatures.specs.Typing.{type_of};
    ghost use Rattle.fast_check_transform_nodes.specs.Typed.{typing_of};

    /// The type, as `: type`: any type if the declaration is private, else the written one, or the one that the value shows, if
    /// it shows one. `unresolved` is the scope number of the names that nothing in the module binds.
    pub fn type_of(
        self,
        alloc: Global,
        unresolved: SyntaxContext,
    ) -> Result<Option<Tree>, AllocError>
        ensures { IfOk result (λ ty. ty ≡ type_of unresolved (typing_of self.entry)) }
    {
        if self.is_private {
            return Ok(Some(any_type_ann(alloc)?));
        }
        if !self.type_ann.is_absent() {
            return Ok(Some(self.type_ann.to_tree(alloc)?));
        }
        match maybe_infer_type(alloc, self.value, self.mutability, unresolved)? {
            Some(ty) => Ok(Some(type_ann(alloc, ty)?)),
            None => Ok(None),
        }
    }
}
