//! What a reader is shown of a fault, whatever kind of fault it is.
ghost use Rattle.std.specs.Prelude.{◌≡◌, IfOk, IfSome, map, option_map};
ghost use Rattle.std.specs.Option.{option_copied};
ghost use Rattle.std.specs.String.{string_bytes};
ghost use Rattle.fast_check_tables_diagnostics.specs.DiagnosticView.{DiagnosticView, location_of, snippet_of};

use fast_check_tree_syntax::{SourcePos, SourceRange};
use std::alloc::{AllocError, Global};
use std::rc::RcStr;
use url::Url;

/// How grave a diagnostic is.
#[derive(Clone, Copy, Debug, PartialEq, Eq)]
pub enum DiagnosticLevel {
    Error,
    Warning,
}

/// Where a diagnostic stands.
#[derive(Clone, Copy, Debug)]
pub enum DiagnosticLocation<'a> {
    /// At a position of a module's source text.
    ModulePosition {
        specifier: &'a Url,
        /// The module's source text.
        text_info: &'a RcStr,
        source_pos: SourcePos,
    },
    /// At a module as a whole.
    Module {
        specifier: &'a Url,
    },
}

/// A part of a module's source text that a reader is shown.
#[derive(Clone, Copy, Debug)]
pub struct DiagnosticSnippet<'a> {
    /// The module's source text.
    pub source: &'a RcStr,
    /// The part that is shown.
    pub range: SourceRange,
    /// What that part is to the reader.
    pub description: Option<&'a str>,
}

/// A fault as it is shown to a reader. It is lent as `&dyn Diagnostic`.
pub trait Diagnostic {
    ghost view: { Self → DiagnosticView };

    /// How grave it is.
    fn level(&self) -> DiagnosticLevel
        ensures { result ≡ (view self.now).level };

    /// The name of its kind, in lower case with hyphens.
    fn code(&self) -> &'static str
        ensures { result.now ≡ (view self.now).code };

    /// What is wrong.
    fn message(&self, alloc: Global) -> Result<String, AllocError>
        ensures { IfOk result (λ text. string_bytes text ≡ (view self.now).message) };

    /// Where it stands.
    fn location(&self) -> DiagnosticLocation<'_>
        ensures { location_of result ≡ (view self.now).location };

    /// The source text that it speaks of, if it speaks of a part of one.
    fn snippet(&self) -> Option<DiagnosticSnippet<'_>>
        ensures { option_map snippet_of result ≡ (view self.now).snippet };

    /// What can be done about it.
    fn hint(&self, alloc: Global) -> Result<Option<String>, AllocError>
        ensures { IfOk result (λ text. option_map string_bytes text ≡ (view self.now).hint) };

    /// The source text as it can be mended.
    fn snippet_fixed(&self) -> Option<DiagnosticSnippet<'_>>
        ensures { option_map snippet_of result ≡ (view self.now).snippet_fixed };

    /// Lines that say more.
    fn info(&self, alloc: Global) -> Result<Vec<String>, AllocError>
        ensures { IfOk result (λ lines. map string_bytes lines.items ≡ (view self.now).info) };

    /// A page that explains it.
    fn docs_url(&self, alloc: Global) -> Result<Option<String>, AllocError>
        ensures { IfOk result (λ text. option_map string_bytes text ≡ (view self.now).docs_url) };
}
