//! Under which keys caches are asked, and what they answer.

ghost use Rattle.std.specs.Prelude.{◌≡◌, map};
ghost use Rattle.url.specs.Parts.{serialize};
ghost use Rattle.fast_check_tables_packages.specs.Package.{nv_of};

use crate::memory::{MemoryCache, SeededCache};
use crate::said_answers::kind_of;
use fast_check_cases::Said;
use fast_check_tables_cache::{
    FastCheckCache, FastCheckCacheItem, FastCheckCacheKey, FastCheckCacheModuleItem,
    FastCheckCacheModuleItemDiagnostic, FastCheckCacheModuleItemInfo, HASH_SEED,
};
use fast_check_tables_diagnostics::parsed_source::ModuleInfo;
use fast_check_tables_packages::PackageNv;
use fast_check_tree_comments::Comments;
use fast_check_tree_syntax::{Atom, Tree};
use semver::Version;
use std::alloc::{AllocError, Global};
use std::collections::BTreeSet;
use std::io;
use url::Url;

/// The key of a package: the hash of it and of its entry points under the seed of the cache.
fn key_of(
    cache: &dyn FastCheckCache,
    package_nv: &PackageNv,
    entrypoints: &BTreeSet<Url>,
) -> FastCheckCacheKey
    ensures { result ≡ hash_of cache.now (seed_text cache.now) (nv_of package_nv.now) (map serialize entrypoints.now.keys) }
{
    let seed = cache.hash_seed();
    FastCheckCacheKey::build(cache.key_hash(seed, package_nv, entrypoints))
}

fn package(alloc: Global, name: &str, said: &mut Said) -> PackageNv {
    PackageNv {
        name: said.copy(alloc, name),
        version: Version::new(1, 20, 300),
    }
}

fn add_url(alloc: Global, urls: &mut BTreeSet<Url>, text: &str, said: &mut Said) {
    match Url::parse(alloc, text) {
        Ok(url) => {
            if urls.insert(url).is_err() {
                said.lack();
            }
        }
        Err(_) => said.lack(),
    }
}

fn entrypoints(alloc: Global, said: &mut Said) -> BTreeSet<Url> {
    let mut urls = BTreeSet::new(alloc);
    add_url(alloc, &mut urls, "https://host.example/hello/more.ts", said);
    add_url(alloc, &mut urls, "https://host.example/hello/mod.ts", said);
    urls
}

/// A module whose skeleton is a text, which stands for a tree.
fn skeleton(alloc: Global, source_hash: u64) -> Result<FastCheckCacheModuleItem, AllocError> {
    let text = Atom::from_str(alloc, "export {};")?;
    Ok(FastCheckCacheModuleItem::Info(FastCheckCacheModuleItemInfo {
        source_hash,
        module_info: ModuleInfo {
            sources: Vec::new(alloc),
        },
        program: Tree::Text(text),
        comments: Comments::new(alloc),
    }))
}

fn diagnostic(source_hash: u64) -> FastCheckCacheModuleItem {
    FastCheckCacheModuleItem::Diagnostic(FastCheckCacheModuleItemDiagnostic { source_hash })
}

fn dependencies(alloc: Global, said: &mut Said) -> BTreeSet<PackageNv> {
    let nv = package(alloc, "@example/world", said);
    let mut dependencies = BTreeSet::new(alloc);
    if dependencies.insert(nv).is_err() {
        said.lack();
    }
    dependencies
}

/// A list of one module.
fn modules(
    alloc: Global,
    module: FastCheckCacheModuleItem,
    said: &mut Said,
) -> Vec<(Url, FastCheckCacheModuleItem)> {
    let mut modules = Vec::new(alloc);
    match Url::parse(alloc, "https://host.example/hello/mod.ts") {
        Ok(specifier) => {
            if modules.push((specifier, module)).is_err() {
                said.lack();
            }
        }
        Err(_) => said.lack(),
    }
    modules
}

/// The item of a package that depends on another, with this as its module.
fn item(alloc: Global, module: FastCheckCacheModuleItem, said: &mut Said) -> FastCheckCacheItem {
    let dependencies = dependencies(alloc, said);
    let modules = modules(alloc, module, said);
    FastCheckCacheItem {
        dependencies,
        modules,
    }
}

/// Says on which packages an item depends.
fn say_dependencies(alloc: Global, item: &FastCheckCacheItem, said: &mut Said) {
    for dependency in &item.dependencies {
        said.say_made(format!(in alloc; "    depends on {dependency}\n"));
    }
}

/// Says the modules of an item.
fn say_modules(alloc: Global, item: &FastCheckCacheItem, said: &mut Said) {
    for (specifier, module) in item.modules.as_slice() {
        said.say_made(format!(in alloc;
            "    {} has a {} of the source {}\n",
            specifier.as_str(),
            kind_of(module),
            module.source_hash()
        ));
    }
}

/// Says what was found under a key.
fn say_found(alloc: Global, found: &Option<FastCheckCacheItem>, said: &mut Said) {
    match found {
        Some(item) => {
            say_dependencies(alloc, item, said);
            say_modules(alloc, item, said);
        }
        None => said.say("    nothing\n"),
    }
}

/// Says what is found under a key.
fn say_item_at(alloc: Global, cache: &dyn FastCheckCache, key: FastCheckCacheKey, said: &mut Said) {
    match cache.get(key) {
        Ok(found) => say_found(alloc, &found, said),
        Err(_) => said.lack(),
    }
}

/// Says the seed that a cache gives, and the key of a package under it, with what the hashes are under two seeds.
fn say_key(
    alloc: Global,
    cache: &dyn FastCheckCache,
    nv: &PackageNv,
    entrypoints: &BTreeSet<Url>,
    said: &mut Said,
) -> FastCheckCacheKey {
    let key = key_of(cache, nv, entrypoints);
    said.say_made(format!(in alloc;
        "  {nv} under the seed {}: {}\n",
        cache.hash_seed(),
        key.as_u64()
    ));
    for seed in [HASH_SEED, "example 1"] {
        let is_key = cache.key_hash(seed, nv, entrypoints) == key.as_u64();
        said.say_path("    is the hash under ", seed, ": ");
        said.say_flag(is_key);
        said.say("\n");
    }
    key
}

/// Says the key of the package of this name.
fn say_key_of(
    alloc: Global,
    cache: &dyn FastCheckCache,
    name: &str,
    said: &mut Said,
) -> FastCheckCacheKey {
    let nv = package(alloc, name, said);
    let entrypoints = entrypoints(alloc, said);
    say_key(alloc, cache, &nv, &entrypoints, said)
}

/// Says what is found under a key, and whether it is this item.
fn say_compared(
    alloc: Global,
    found: &Option<FastCheckCacheItem>,
    wanted: &FastCheckCacheItem,
    said: &mut Said,
) {
    say_found(alloc, found, said);
    said.say("    is what was set: ");
    match found {
        Some(item) => said.say_flag(item == wanted),
        None => said.say_flag(false),
    }
    said.say("\n");
}

/// Sets an item, of which this is a copy, and says what is found then.
fn say_set(
    alloc: Global,
    cache: &mut dyn FastCheckCache,
    key: FastCheckCacheKey,
    item: FastCheckCacheItem,
    copy: &FastCheckCacheItem,
    said: &mut Said,
) {
    said.note(cache.set(key, item));
    match cache.get(key) {
        Ok(found) => say_compared(alloc, &found, copy, said),
        Err(_) => said.lack(),
    }
}

/// Sets a copy of an item, and says what is found then.
fn say_first_set(
    alloc: Global,
    cache: &mut dyn FastCheckCache,
    key: FastCheckCacheKey,
    item: &FastCheckCacheItem,
    said: &mut Said,
) {
    match item.clone() {
        Ok(copy) => say_set(alloc, cache, key, copy, item, said),
        Err(_) => said.lack(),
    }
}

/// Sets an item with a skeleton, and says what is found then.
fn say_skeleton_set(
    alloc: Global,
    cache: &mut dyn FastCheckCache,
    key: FastCheckCacheKey,
    said: &mut Said,
) {
    match skeleton(alloc, 7) {
        Ok(module) => {
            let item = item(alloc, module, said);
            say_first_set(alloc, cache, key, &item, said);
        }
        Err(_) => said.lack(),
    }
}

/// Sets an item with a diagnostic, and says what is found then.
fn say_diagnostic_set(
    alloc: Global,
    cache: &mut dyn FastCheckCache,
    key: FastCheckCacheKey,
    said: &mut Said,
) {
    let item = item(alloc, diagnostic(8), said);
    said.note(cache.set(key, item));
    say_item_at(alloc, &*cache, key, said);
}

/// Sets two items under one key in turn, and says what is found under this key and another one.
fn say_items(alloc: Global, cache: &mut dyn FastCheckCache, said: &mut Said) {
    let key = say_key_of(alloc, &*cache, "@example/hello", said);
    let other = say_key_of(alloc, &*cache, "@example/world", said);
    said.say("  before a set\n");
    say_item_at(alloc, &*cache, key, said);
    said.say("  after a set\n");
    say_skeleton_set(alloc, cache, key, said);
    said.say("  after another set under the key\n");
    say_diagnostic_set(alloc, cache, key, said);
    said.say("  under another key\n");
    say_item_at(alloc, &*cache, other, said);
}

fn say_caches(alloc: Global, said: &mut Said) {
    said.say("a cache with the seed of the rules\n");
    say_items(alloc, &mut MemoryCache::new(alloc), said);
    said.say("a cache with a seed of its own\n");
    say_items(alloc, &mut SeededCache::new(alloc, "example 1"), said);
}

/// Shows a cache with the seed of the rules, and one with a seed of its own.
pub fn run_cache_cases(rt: &HostRuntime) -> io::Result<()> {
    let mut said = Said::new(rt.alloc());
    say_caches(rt.alloc(), &mut said);
    print!(rt; "{}", said.text().unwrap_or("out of memory\n"))
}
