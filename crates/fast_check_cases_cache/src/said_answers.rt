//! The answers of a build and the items that it sets, as text.

use fast_check_build::answers::ModuleAnswer;
use fast_check_cases::Said;
use fast_check_tables_cache::{FastCheckCacheItem, FastCheckCacheModuleItem};
use fast_check_tables_diagnostics::parsed_source::FastCheckModule;
use fast_check_tables_diagnostics::{Diagnostic, FastCheckDiagnostic};
use std::alloc::Global;
use url::Url;

fn say_codes(diagnostics: &[FastCheckDiagnostic], said: &mut Said) {
    for diagnostic in diagnostics {
        said.say_path(" ", diagnostic.code(), " of ");
        said.say(diagnostic.specifier().as_str());
    }
}

/// Whether a module is answered by this skeleton.
fn is_answered(answers: &[ModuleAnswer], specifier: &Url, made: &FastCheckModule) -> bool {
    answers.iter().any(|(url, answer)| match answer {
        Ok(module) => url == specifier && module == made,
        Err(_) => false,
    })
}

/// Says whether a copy of a skeleton is that of a build without a cache.
fn say_skeleton(plain: &[ModuleAnswer], specifier: &Url, made: &FastCheckModule, said: &mut Said) {
    match made.clone() {
        Ok(copy) => {
            if is_answered(plain, specifier, &copy) {
                said.say(" the skeleton");
            } else {
                said.say(" another skeleton");
            }
        }
        Err(_) => said.lack(),
    }
}

fn say_answer(answer: &ModuleAnswer, plain: &[ModuleAnswer], said: &mut Said) {
    let (specifier, made) = answer;
    said.say_path("\n    answers ", specifier.as_str(), ":");
    match made {
        Ok(made) => say_skeleton(plain, specifier, made, said),
        Err(diagnostics) => say_codes(diagnostics.as_slice(), said),
    }
}

/// Says what is answered, and whether each skeleton is that of a build without a cache.
pub fn say_answers(answers: &[ModuleAnswer], plain: &[ModuleAnswer], said: &mut Said) {
    for answer in answers {
        say_answer(answer, plain, said);
    }
}

/// Whether a module of an item is cached as a skeleton or as a diagnostic.
pub fn kind_of(module: &FastCheckCacheModuleItem) -> &'static str {
    match module {
        FastCheckCacheModuleItem::Info(_) => "skeleton",
        FastCheckCacheModuleItem::Diagnostic(_) => "diagnostic",
    }
}

fn say_modules(alloc: Global, modules: &[(Url, FastCheckCacheModuleItem)], said: &mut Said) {
    for (specifier, module) in modules {
        said.say_made(format!(in alloc;
            " {} {} of {}",
            kind_of(module),
            module.source_hash(),
            specifier.as_str()
        ));
    }
}

/// Says that an item is set under a key.
pub fn say_item(alloc: Global, key: u64, item: &FastCheckCacheItem, said: &mut Said) {
    said.say_made(format!(in alloc; "\n    sets {key}:"));
    for dependency in &item.dependencies {
        said.say_made(format!(in alloc; " needs {dependency}"));
    }
    say_modules(alloc, item.modules.as_slice(), said);
}
