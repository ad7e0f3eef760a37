//! Answers by what a cache has.
ghost use Rattle.std.specs.List.{AllZip};
ghost use Rattle.std.specs.Prelude.{IfOk};
ghost use Rattle.fast_check_build_answers.specs.PackageAnswer.{IsUsedAnswer};

use crate::answer::ModuleAnswer;
use fast_check_tables_cache::FastCheckCacheModuleItem;
use fast_check_tables_diagnostics::parsed_source::FastCheckModule;
use fast_check_tables_modules::diagnostics::FastCheckDiagnostic;
use std::alloc::{AllocError, Global};
use url::Url;

/// A module, answered by its cached skeleton, or else by `Cached`.
fn used_answer(
    alloc: Global,
    specifier: Url,
    kept: FastCheckCacheModuleItem,
) -> Result<ModuleAnswer, AllocError>
    ensures { IfOk result (IsUsedAnswer (specifier, kept)) }
{
    match kept {
        FastCheckCacheModuleItem::Info(info) => {
            let made = FastCheckModule {
                module_info: info.module_info,
                program: info.program,
                comments: info.comments,
            };
            Ok((specifier, Ok(made)))
        }
        FastCheckCacheModuleItem::Diagnostic(_) => {
            let cached = FastCheckDiagnostic::Cached {
                specifier: specifier.clone()?,
            };
            Ok((specifier, Err(vec![in alloc; cached]?)))
        }
    }
}

/// The cached modules of a package, each answered by what is cached of it, in their order.
pub(crate) fn used_answers(
    alloc: Global,
    items: Vec<(Url, FastCheckCacheModuleItem)>,
) -> Result<Vec<ModuleAnswer>, AllocError>
    ensures { IfOk result (λ answers. AllZip IsUsedAnswer items.items answers.items) }
{
    let mut answers = Vec::new(alloc);
    for (specifier, kept) in items {
        answers.push(used_answer(alloc, specifier, kept)?)?;
    }
    Ok(answers)
}
