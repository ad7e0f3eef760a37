//! The texts of a diagnostic.

use fast_check_cases::Said;
use fast_check_tables_diagnostics::{Diagnostic, DiagnosticLocation, FastCheckDiagnostic};
use std::alloc::Global;

fn say_location(alloc: Global, diagnostic: &dyn Diagnostic, said: &mut Said) {
    match diagnostic.location() {
        DiagnosticLocation::ModulePosition {
            specifier,
            text_info,
            source_pos,
        } => said.say_made(format!(in alloc;
            "{} of {specifier}, which has {} bytes",
            source_pos.0,
            text_info.as_str().len()
        )),
        DiagnosticLocation::Module { specifier } => said.say(specifier.as_str()),
    }
}

fn say_snippet(alloc: Global, diagnostic: &dyn Diagnostic, said: &mut Said) {
    match diagnostic.snippet() {
        None => said.say("none"),
        Some(snippet) => said.say_made(format!(in alloc;
            "{} to {} of {} bytes: {:?}",
            snippet.range.start.0,
            snippet.range.end.0,
            snippet.source.as_str().len(),
            snippet.description
        )),
    }
}

/// Says the place of a diagnostic and the text that is shown of it, the answers of its other calls, and its printed form.
pub fn say_diagnostic(alloc: Global, diagnostic: &FastCheckDiagnostic, said: &mut Said) {
    said.say("\n      location: ");
    say_location(alloc, diagnostic, said);
    said.say("\n      snippet: ");
    say_snippet(alloc, diagnostic, said);
    said.say_made(format!(in alloc;
        "\n      description: {:?}, mended: ",
        diagnostic.range_description()
    ));
    said.say_flag(diagnostic.snippet_fixed().is_some());
    said.say_made(format!(in alloc; "\n      prints as: {diagnostic}"));
}
