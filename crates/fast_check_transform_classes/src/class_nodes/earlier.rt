//! Which members of a class stay: of the private methods of a name the first, and no body of overloads.
ghost use Rattle.std.specs.Prelude.{◌≡◌, IfOk, List, map, []};
ghost use Rattle.fast_check_tree_syntax.specs.Part.{seen};
ghost use Rattle.fast_check_tree_syntax.specs.declared.tree.Tree.{Tree};
ghost use Rattle.fast_check_meaning_signatures.specs.Members.{kept_members};
ghost use Rattle.fast_check_transform_classes.specs.class_nodes.Known.{property_stays, accessor_stays, Knows, IsNext, IsConstructor, IsMethod};

use crate::class_nodes::keys::{is_computed, is_private, key_text};
use fast_check_tree_forms_classes::{AutoAccessor, ClassMethod, ClassProp, Constructor};
use fast_check_tree_syntax::{Kind, Part, Tree};
use std::alloc::{AllocError, Global};
use std::collections::BTreeSet;

/// What the members of a class so far decide of the next.
#[derive(Drop)]
pub struct Earlier<'a> {
    /// The names of the private methods, getters and setters.
    private_methods: BTreeSet<&'a str>,
    /// Whether a private constructor with a body is among them.
    has_private_implementation: bool,
}

impl<'a> Earlier<'a> {
    /// Before the first member.
    pub fn new(alloc: Global) -> Self
        ensures { Knows result [] }
    {
        Earlier {
            private_methods: BTreeSet::new(alloc),
            has_private_implementation: false,
        }
    }

    /// Whether a member stays behind these. It is one of them from then on.
    pub fn stays(&mut self, member: Part<'a>) -> Result<bool, AllocError>
        ensures { IfOk result (λ stays. IsNext self.old self.new (seen member.entry) stays) }
    {
        match member.kind() {
            Kind::Constructor => Ok(self.constructor_stays(member)),
            Kind::ClassMethod => self.method_stays(member),
            Kind::ClassProp => Ok(property_stays(member)),
            Kind::AutoAccessor => Ok(accessor_stays(member)),
            Kind::TsIndexSignature => Ok(true),
            _ => Ok(false),
        }
    }

    /// Whether a constructor stays: of the private ones the first with a body.
    fn constructor_stays(&mut self, member: Part<'a>) -> bool
        ensures { IsConstructor (seen member.entry) → IsNext self.old self.new (seen member.entry) result }
    {
        let Constructor {
            body,
            accessibility,
            ..
        } = Constructor::of(member);
        if !is_private(accessibility) {
            return true;
        }
        let has_body = !body.is_absent();
        let stays = has_body && !self.has_private_implementation;
        self.has_private_implementation = has_body || self.has_private_implementation;
        stays
    }

    /// Whether a method, a getter or a setter stays: of the private ones of a name the first.
    fn method_stays(&mut self, member: Part<'a>) -> Result<bool, AllocError>
        ensures { IsMethod (seen member.entry) → IfOk result (λ stays. IsNext self.old self.new (seen member.entry) stays) }
    {
        let ClassMethod {
            key,
            accessibility,
            ..
        } = ClassMethod::of(member);
        if !is_private(accessibility) {
            return Ok(true);
        }
        if is_computed(key) {
            return Ok(false);
        }
        Ok(self.private_methods.insert(key_text(key))?)
    }
}

/// Whether a property stays: a private one with a computed key goes.
fn property_stays(member: Part<'_>) -> bool
    ensures { result ≡ property_stays (seen member.entry) }
{
    let ClassProp {
        key,
        accessibility,
        ..
    } = ClassProp::of(member);
    !(is_private(accessibility) && is_computed(key))
}

/// Whether an accessor stays: one with a hash name goes, and a private one with a computed key.
fn accessor_stays(member: Part<'_>) -> bool
    ensures { result ≡ accessor_stays (seen member.entry) }
{
    let AutoAccessor {
        key,
        accessibility,
        ..
    } = AutoAccessor::of(member);
    key.kind() != Kind::PrivateName && !(is_private(accessibility) && is_computed(key))
}

/// The members of a class that stay, in order.
pub fn kept_members<'a>(alloc: Global, members: &'a [Tree]) -> Result<Vec<Part<'a>>, AllocError>
    ensures { IfOk result (λ kept. map seen kept.items ≡ kept_members members.now) }
{
    let mut earlier = Earlier::new(alloc);
    let mut kept = Vec::new(alloc);
    for member in members {
        let member = member.read();
        if earlier.stays(member)? {
            kept.push(member)?;
        }
    }
    Ok(kept)
}
