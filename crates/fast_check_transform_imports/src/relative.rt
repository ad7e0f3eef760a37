//! The texts that stand for the sources of a module, from one import to the next.
ghost use Rattle.std.specs.Prelude.{◌≡◌, IfOk, OnOk};
ghost use Rattle.fast_check_meaning_skeleton.specs.ModuleFacts.{ModuleFacts as Asked};
ghost use Rattle.fast_check_transform_imports.specs.module_facts.ModuleFacts.{facts_of};
ghost use Rattle.fast_check_transform_imports.specs.Relative.{AreRelative, WhileRelative};

use crate::module_facts::{ModuleFacts, relative_source};
use fast_check_tree_syntax::Atom;
use std::alloc::{AllocError, Global};
use std::collections::BTreeMap;

/// From this length on the URL of a module is long.
const LONG: usize = 1_000;

/// What stands for a source text of a module, if anything does.
fn relative_text(
    alloc: Global,
    facts: ModuleFacts<'_>,
    text: &str,
) -> Result<Option<Atom>, AllocError>
    ensures { IfOk result (λ other. other ≡ (facts_of facts.entry).relative text.now) }
{
    let referrer = facts.es_module_info.specifier();
    match relative_source(alloc, facts.resolutions, referrer, text)? {
        Some(other) => Ok(Some(Atom::from_str(alloc, &other)?)),
        None => Ok(None),
    }
}

/// The same text again, which shares its bytes.
fn shared(text: &Option<Atom>) -> Result<Option<Atom>, AllocError>
    ensures { IfOk result (λ copy. copy ≡ text.now) }
{
    match text {
        Some(text) => Ok(Some(text.clone()?)),
        None => Ok(None),
    }
}

/// What stands for the source texts of one module, as far as they were asked for. It is kept where the URL of the module is long, since to find it
/// is to go along that URL.
#[derive(Drop)]
pub struct RelativeSources {
    by_text: BTreeMap<String, Option<Atom>>,
}

impl RelativeSources {
    /// Nothing was asked for. It takes no memory.
    pub fn new(alloc: Global) -> RelativeSources
        ensures { (facts : Asked) → AreRelative facts result }
    {
        RelativeSources {
            by_text: BTreeMap::new(alloc),
        }
    }

    /// Keeps what stands for a text.
    fn keep(&mut self, alloc: Global, text: &str, other: Option<Atom>) -> Result<(), AllocError>
        ensures { OnOk result ((facts : Asked) → other ≡ facts.relative text.now → AreRelative facts self.old → AreRelative facts self.new) }
    {
        let text = String::from_str(alloc, text)?;
        self.by_text.insert(text, other)?;
        Ok(())
    }

    /// What stands for a text, if anything does: it is found once for each text, where the URL of the module is long.
    pub fn of_text(
        &mut self,
        alloc: Global,
        facts: ModuleFacts<'_>,
        text: &str,
    ) -> Result<Option<Atom>, AllocError>
        ensures { let asked = facts_of facts.entry in IfOk result (λ other. WhileRelative asked self.old self.new (other ≡ asked.relative text.now)) }
    {
        if facts.es_module_info.specifier().as_str().len() < LONG {
            return relative_text(alloc, facts, text);
        }
        if let Some(other) = self.by_text.get(text) {
            return shared(other);
        }
        let other = relative_text(alloc, facts, text)?;
        let copy = shared(&other)?;
        self.keep(alloc, text, copy)?;
        Ok(other)
    }
}
