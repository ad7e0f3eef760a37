//! What export texts are joined to.
ghost use Rattle.std.specs.Prelude.{◌≡◌, ◌++◌, ◌∷◌, [], List, ℕ, Some, None, false, map, fold, is_none, option_to_list, OnOk, IfOk, IfErr, string_bytes};
ghost use Rattle.fast_check_tables_packages.specs.Package.{nv_of};
ghost use Rattle.fast_check_finder_ranges.specs.entries.Entries.{joined, all_joined, first_refused, put_url, in_order, entrance_by, entered};
ghost use Rattle.fast_check_finder_ranges.specs.entries.Entries.{Diagnoses, DiagnosesRefused};
ghost use Rattle.fast_check_finder_ranges.specs.entries.Joined.{AreJoined};

use fast_check_tables_packages::{BuildFault, PackageNv};
use indexmap::IndexMap;
use std::alloc::{AllocError, Global};
use std::collections::BTreeSet;
use std::rc::Rc;
use url::{ParseError, Url};

/// What an export text is joined to, None where it does not join.
fn join_text(base: &Url, text: &str) -> Result<Option<Url>, AllocError>
    ensures { IfOk result (λ url. url ≡ joined base.now text.now) }
{
    match base.join(text) {
        Ok(url) => Ok(Some(url)),
        Err(ParseError::OutOfMemory | ParseError::Overflow) => Err(AllocError),
        Err(_) => Ok(None),
    }
}

/// The fault of a package with an export text that does not join.
fn invalid_export(alloc: Global, nv: &PackageNv, text: &str) -> Result<BuildFault, AllocError>
    ensures { IfOk result (Diagnoses (nv_of nv.now) (Some text.now)) }
{
    let package = nv.clone()?;
    let export = String::from_str(alloc, text)?;
    Ok(BuildFault::InvalidExport { package, export })
}

/// Adds what a text is joined to, or refuses it.
fn push_joined(
    alloc: Global,
    nv: &PackageNv,
    base: &Url,
    text: &str,
    urls: &mut BTreeSet<Url>,
) -> Result<(), BuildFault>
    ensures joins { OnOk result (is_none (joined base.now text.now) ≡ false) }
    ensures put { OnOk result (urls.new.keys ≡ fold put_url urls.old.keys (option_to_list (joined base.now text.now))) }
    ensures refused { IfErr result (Diagnoses (nv_of nv.now) (first_refused base.now (text.now ∷ []))) }
{
    match join_text(base, text)? {
        None => Err(invalid_export(alloc, nv, text)?),
        Some(url) => {
            urls.insert(url)?;
            Ok(())
        }
    }
}

/// Adds what one more text is joined to, or refuses it. A text that was joined is not joined again, since many may be equal and the base long.
fn push_once<'a>(
    alloc: Global,
    nv: &PackageNv,
    base: &Url,
    text: &'a str,
    texts: &mut BTreeSet<&'a str>,
    urls: &mut BTreeSet<Url>,
) -> Result<(), BuildFault>
    ensures joined { OnOk result ((done : List (List ℕ)) → AreJoined base.now done texts.old urls.old
        → AreJoined base.now (done ++ text.entry.now ∷ []) texts.new urls.new) }
    ensures refused { IfErr result (Diagnoses (nv_of nv.now) (first_refused base.now (text.entry.now ∷ []))) }
{
    if texts.contains(text) {
        return Ok(());
    }
    push_joined(alloc, nv, base, text, urls)?;
    texts.insert(text)?;
    Ok(())
}

/// What the export texts of a package are joined to, in order and each once. The first one that does not join is refused.
fn join_all(
    alloc: Global,
    nv: &PackageNv,
    base: &Url,
    exports: &[String],
) -> Result<BTreeSet<Url>, BuildFault>
    ensures all { OnOk result (first_refused base.now (map string_bytes exports.now) ≡ None) }
    ensures joined { IfOk result (λ urls. urls.keys ≡ in_order (all_joined base.now (map string_bytes exports.now))) }
    ensures refused { IfErr result (Diagnoses (nv_of nv.now) (first_refused base.now (map string_bytes exports.now))) }
{
    let mut texts = BTreeSet::new(alloc);
    let mut urls = BTreeSet::new(alloc);
    for text in exports {
        push_once(alloc, nv, base, text.as_str(), &mut texts, &mut urls)?;
    }
    Ok(urls)
}

/// What the exports of a package are joined to.
pub fn join_exports(
    alloc: Global,
    nv: &PackageNv,
    base: &Url,
    exports: &IndexMap<String, String>,
) -> Result<Rc<BTreeSet<Url>>, BuildFault>
    ensures entered { IfOk result (λ urls. entrance_by base.now (Some exports.now.entries) ≡ entered urls.value.keys) }
    ensures refused { IfErr result (DiagnosesRefused (nv_of nv.now) (entrance_by base.now (Some exports.now.entries))) }
{
    let urls = join_all(alloc, nv, base, exports.values().as_slice())?;
    Ok(Rc::new(alloc, urls)?)
}
