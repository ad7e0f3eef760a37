//! What a value mentions of the names that its object exports.
ghost use Rattle.std.specs.Prelude.{◌≡◌, ◌++◌, flat_map, IfOk, OnOk};
ghost use Rattle.std.specs.Option.{option_copied};
ghost use Rattle.fast_check_tree_syntax.specs.Part.{seen};
ghost use Rattle.fast_check_tree_syntax.specs.Shape.{parts};
ghost use Rattle.fast_check_meaning_expandos.specs.FirstPlaces.{HasNames, placed_reference};
ghost use Rattle.fast_check_meaning_expandos.specs.Objects.{exports_name};
ghost use Rattle.fast_check_meaning_expandos.specs.References.{conflicts, is_reference, own_reference, last_ranges, once_a_name, references};

use fast_check_tables_symbols::Symbol;
use fast_check_tree_forms_programs::Ident;
use fast_check_tree_syntax::{Atom, Items, Kind, Part, SourceRange, SyntaxContext};
use std::alloc::{AllocError, Global};
use std::collections::BTreeMap;

/// A name that a value mentions.
#[derive(Drop)]
pub struct Reference {
    pub name: Atom,
    /// Where it is mentioned.
    pub range: SourceRange,
}

/// What the value of an expando property mentions of the names that its object exports, once a name: at the place of the first
/// mention, with the range of the last. `scope` is the scope number of the object, and `symbol` its symbol.
pub fn conflicts(
    alloc: Global,
    scope: SyntaxContext,
    symbol: Option<&Symbol>,
    value: Part<'_>,
) -> Result<Items<Reference>, AllocError>
    ensures { IfOk result (λ found. found ≡ conflicts scope (exports_name (option_copied symbol.entry)) (seen value.entry)) }
{
    let mut found = Vec::new(alloc);
    push_references(alloc, scope, symbol, value, &mut found)?;
    once_a_name(alloc, found)
}

/// References once a name.
fn once_a_name(alloc: Global, references: Vec<Reference>) -> Result<Items<Reference>, AllocError>
    ensures { IfOk result (λ once. once ≡ once_a_name references.items) }
{
    let mut once = Items::new(alloc);
    for (name, range) in last_ranges(alloc, references)? {
        once.push(Reference { name, range })?;
    }
    Ok(once)
}

/// The range of the last reference of each name, at the place of the first.
fn last_ranges(
    alloc: Global,
    references: Vec<Reference>,
) -> Result<Vec<(Atom, SourceRange)>, AllocError>
    ensures { IfOk result (λ ranges. ranges.items ≡ last_ranges references.items) }
{
    let mut places = BTreeMap::new(alloc);
    let mut ranges = Vec::new(alloc);
    for reference in references {
        place_reference(reference, &mut places, &mut ranges)?;
    }
    Ok(ranges)
}

/// Puts the range of a reference at the place of its name, or else at a last one. `places` are the places of the names.
fn place_reference(
    reference: Reference,
    places: &mut BTreeMap<Atom, usize>,
    ranges: &mut Vec<(Atom, SourceRange)>,
) -> Result<(), AllocError>
    requires { HasNames places.old ranges.old.items }
    ensures places { OnOk result (HasNames places.new ranges.new.items) }
    ensures ranges { OnOk result (ranges.new.items ≡ placed_reference reference ranges.old.items) }
{
    let Reference { name, range } = reference;
    if let Some(place) = places.get(&name).copied() {
        ranges[place].1 = range;
        return Ok(());
    }
    places.insert(name.clone()?, ranges.len())?;
    ranges.push((name, range))?;
    Ok(())
}

/// Pushes the references of a tree.
#[cycle(references)]
#[tactic(auto, using(crate::proofs::ReferencesOut::references_out, std::proofs::Common::append_assoc))]
fn push_references(
    alloc: Global,
    scope: SyntaxContext,
    symbol: Option<&Symbol>,
    part: Part<'_>,
    out: &mut Vec<Reference>,
) -> Result<(), AllocError>
    ensures { OnOk result (out.new.items ≡ out.old.items ++ references scope (exports_name (option_copied symbol.entry)) (seen part.entry)) }
{
    push_own(alloc, scope, symbol, part, out)?;
    push_each(alloc, scope, symbol, part, out)
}

/// Pushes those of the parts of a tree.
#[cycle(references)]
#[tactic(auto, using(fast_check_tree_syntax::specs::Height::height_read))]
fn push_each(
    alloc: Global,
    scope: SyntaxContext,
    symbol: Option<&Symbol>,
    part: Part<'_>,
    out: &mut Vec<Reference>,
) -> Result<(), AllocError>
    ensures { OnOk result (out.new.items ≡ out.old.items ++
        flat_map (references scope (exports_name (option_copied symbol.entry))) (parts (seen part.entry))) }
{
    for inner in part.parts() {
        push_references(alloc, scope, symbol, inner.read(), out)?;
    }
    Ok(())
}

/// Pushes the identifier, if it is a reference.
fn push_own(
    alloc: Global,
    scope: SyntaxContext,
    symbol: Option<&Symbol>,
    part: Part<'_>,
    out: &mut Vec<Reference>,
) -> Result<(), AllocError>
    ensures { OnOk result (out.new.items ≡ out.old.items ++ own_reference scope (exports_name (option_copied symbol.entry)) (seen part.entry)) }
{
    if !is_reference(scope, symbol, part) {
        return Ok(());
    }
    let Ident { span, sym, .. } = Ident::of(part);
    let name = Atom::from_str(alloc, sym)?;
    out.push(Reference { name, range: span })?;
    Ok(())
}

/// Whether a part is an identifier of a scope, by a name that a symbol exports.
fn is_reference(scope: SyntaxContext, symbol: Option<&Symbol>, part: Part<'_>) -> bool
    ensures { result ≡ is_reference scope (exports_name (option_copied symbol.entry)) (seen part.entry) }
{
    if part.kind() != Kind::Ident {
        return false;
    }
    let Ident { ctxt, sym, .. } = Ident::of(part);
    ctxt == scope && exports_name(symbol, sym)
}

/// Whether a symbol, if there is one, exports a name.
pub fn exports_name(symbol: Option<&Symbol>, name: &str) -> bool
    ensures { result ≡ exports_name (option_copied symbol.entry) name.now }
{
    match symbol {
        Some(symbol) => symbol.exports.get(name).is_some(),
        None => false,
    }
}
