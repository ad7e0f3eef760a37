//! The hash that the example's caches keep the item of a package under. It takes no memory.

ghost use Rattle.std.specs.Prelude.{◌≡◌, fold, map};
ghost use Rattle.url.specs.Parts.{serialize};
ghost use Rattle.fast_check_tables_packages.specs.Package.{nv_of};
ghost use Rattle.fast_check_cases_cache.specs.Hash.{hash_more, hash_text, hash_package};

use fast_check_tables_packages::PackageNv;
use std::collections::BTreeSet;
use url::Url;

/// A hash with one number more.
fn more(hash: u64, number: u64) -> u64
    ensures { result ≡ hash_more hash number }
{
    hash.wrapping_mul(1_099_511_628_211).wrapping_add(number)
}

/// A hash with a text more: its bytes, and 255, which no text has.
fn text(hash: u64, text: &str) -> u64
    ensures { result ≡ hash_text hash text.now }
{
    let mut hash = hash;
    for byte in text.as_bytes() {
        hash = more(hash, u64::from(*byte));
    }
    more(hash, 255)
}

/// The hash of a seed, a package and its entry points.
pub fn package_hash(seed: &str, package_nv: &PackageNv, entrypoints: &BTreeSet<Url>) -> u64
    ensures { result ≡ hash_package seed.now (nv_of package_nv.now) (map serialize entrypoints.now.keys) }
{
    let version = &package_nv.version;
    let named = text(
        text(14_695_981_039_346_656_037, seed),
        package_nv.name.as_str(),
    );
    let numbered = more(
        more(more(named, version.major), version.minor),
        version.patch,
    );
    let mut hash = text(text(numbered, version.pre.as_str()), version.build.as_str());
    for url in entrypoints {
        hash = text(hash, url.as_str());
    }
    hash
}
