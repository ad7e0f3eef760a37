//! What a reader is shown of each of the faults that leave a module without skeleton.
ghost use Rattle.std.specs.Prelude.{◌≡◌, IfOk, map, option_map};
ghost use Rattle.std.specs.Option.{option_copied};
ghost use Rattle.std.specs.String.{string_bytes};
ghost use Rattle.fast_check_tables_diagnostics.specs.Diagnostic.{hint_of_return_type, info_of_return_type};

use crate::diagnostics::{
    Diagnostic, DiagnosticLevel, DiagnosticLocation, DiagnosticSnippet, FastCheckDiagnostic, texts,
};
use std::alloc::{AllocError, Global};

/// Where the pages that explain the kinds of diagnostics stand: their names follow.
const DOCS_URL: &str = "https://jsr.io/go/slow-type-";

impl Diagnostic for FastCheckDiagnostic {
    ghost use Rattle.fast_check_tables_diagnostics.specs.Diagnostic.{view_of};

    ghost view = { view_of };

    fn level(&self) -> DiagnosticLevel {
        match self {
            Self::UnsupportedJavaScriptEntrypoint { .. } => DiagnosticLevel::Warning,
            _ => DiagnosticLevel::Error,
        }
    }

    fn code(&self) -> &'static str {
        self.texts().code
    }

    fn message(&self, alloc: Global) -> Result<String, AllocError> {
        self.to_string(alloc)
    }

    fn location(&self) -> DiagnosticLocation<'_> {
        match self.range() {
            Some(range) => DiagnosticLocation::ModulePosition {
                specifier: self.specifier(),
                text_info: &range.text_info,
                source_pos: range.range.start,
            },
            None => DiagnosticLocation::Module {
                specifier: self.specifier(),
            },
        }
    }

    fn snippet(&self) -> Option<DiagnosticSnippet<'_>> {
        let range = self.range()?;
        Some(DiagnosticSnippet {
            source: &range.text_info,
            range: range.range,
            description: self.range_description(),
        })
    }

    fn hint(&self, alloc: Global) -> Result<Option<String>, AllocError> {
        match self {
            Self::MissingExplicitReturnType {
                is_definitely_void_or_never,
                is_async,
                ..
            } => {
                let hint = return_type_hint(*is_definitely_void_or_never, *is_async);
                optional(alloc, Some(hint))
            }
            // Written by forms/write.py from forms/diagnostics.txt, up to the default.
            Self::UnsupportedExpandoProperty { reference_name, .. } => {
                let hint = format!(in alloc;
                    "rename '{reference_name}' to something else to avoid conflicts or create a temporary variable with a different name to use in the expando property reference"
                )?;
                Ok(Some(hint))
            }
            _ => optional(alloc, self.texts().hint),
        }
    }

    fn snippet_fixed(&self) -> Option<DiagnosticSnippet<'_>> {
        None
    }

    fn info(&self, alloc: Global) -> Result<Vec<String>, AllocError> {
        match self {
            Self::MissingExplicitReturnType {
                is_definitely_void_or_never,
                is_async,
                ..
            } => return_type_info(alloc, *is_definitely_void_or_never, *is_async),
            _ => lines(alloc, self.texts().info),
        }
    }

    fn docs_url(&self, alloc: Global) -> Result<Option<String>, AllocError> {
        let code = self.code();
        Ok(Some(format!(in alloc; "{DOCS_URL}{code}")?))
    }
}

/// What can be done about a function without return type.
fn return_type_hint(is_definitely_void_or_never: bool, is_async: bool) -> &'static str
    ensures { result.now ≡ hint_of_return_type is_definitely_void_or_never is_async }
{
    if is_definitely_void_or_never {
        texts::RETURN_NOTHING
    } else if is_async {
        texts::RETURN_PROMISE
    } else {
        texts::RETURN_TYPE
    }
}

/// The lines that say more of a function without return type.
fn return_type_info(
    alloc: Global,
    is_definitely_void_or_never: bool,
    is_async: bool,
) -> Result<Vec<String>, AllocError>
    ensures { IfOk result (λ lines. map string_bytes lines.items ≡ info_of_return_type is_definitely_void_or_never is_async) }
{
    if !is_definitely_void_or_never {
        return lines(alloc, &[texts::NEEDS_RETURN_TYPE]);
    }
    let offered = if is_async {
        texts::PROMISE_RETURNED
    } else {
        texts::NOTHING_RETURNED
    };
    lines(
        alloc,
        &[texts::NEEDS_RETURN_TYPE, offered, texts::NO_RETURNS],
    )
}

fn optional(alloc: Global, text: Option<&str>) -> Result<Option<String>, AllocError>
    ensures { IfOk result (λ owned. option_map string_bytes owned ≡ option_copied text.entry) }
{
    match text {
        Some(text) => Ok(Some(String::from_str(alloc, text)?)),
        None => Ok(None),
    }
}

fn lines(alloc: Global, texts: &[&str]) -> Result<Vec<String>, AllocError>
    ensures { IfOk result (λ lines. map string_bytes lines.items ≡ map (λ text. text.now) texts.now) }
{
    let mut lines = Vec::with_capacity(alloc, texts.len())?;
    for text in texts {
        lines.push(String::from_str(alloc, text)?)?;
    }
    Ok(lines)
}
