//! Diagnostics, as JSON.

ghost use Rattle.std.specs.Prelude.{◌≡◌, OnOk, option_map, map};
ghost use Rattle.std.specs.Option.{option_copied};
ghost use Rattle.std.specs.String.{string_bytes};
ghost use Rattle.serde_json.specs.Data.{string, array};
ghost use Rattle.serde_json.specs.View.{items_of};
ghost use Rattle.fast_check_print.specs.Writing.{Adds, WritesData};
ghost use Rattle.fast_check_tables_diagnostics.specs.Diagnostic.{view_of};
ghost use Rattle.fast_check_print.specs.Diagnostics.{diagnostic_data, diagnostics_array, text_or_null, place_or_null, level_text, named, advice};

use crate::pieces::print_range;
use fast_check_tables_diagnostics::{
    Diagnostic, DiagnosticLevel, FastCheckDiagnostic, FastCheckDiagnosticRange,
};
use json::Writer;
use std::alloc::{AllocError, Global};

/// Diagnostics, in their order, as an array.
pub fn print_diagnostics(
    alloc: Global,
    out: &mut Writer,
    diagnostics: &[FastCheckDiagnostic],
) -> Result<(), AllocError>
    ensures { OnOk result (WritesData (diagnostics_array diagnostics.now) out.old out.new) }
{
    out.begin_array()?;
    for diagnostic in diagnostics {
        print_diagnostic(alloc, out, diagnostic)?;
    }
    out.end_array()
}

fn print_diagnostic(
    alloc: Global,
    out: &mut Writer,
    diagnostic: &FastCheckDiagnostic,
) -> Result<(), AllocError>
    ensures { OnOk result (WritesData (diagnostic_data diagnostic.now) out.old out.new) }
{
    out.begin_object()?;
    print_text(out, "code", diagnostic.code())?;
    print_advice(alloc, out, diagnostic)?;
    print_text(out, "level", level_text(diagnostic.level()))?;
    print_text(out, "message", diagnostic.message(alloc)?.as_str())?;
    out.key("range")?;
    print_place(out, diagnostic.range())?;
    print_text(out, "specifier", diagnostic.specifier().as_str())?;
    out.end_object()
}

/// A member that is a text.
fn print_text(out: &mut Writer, name: &str, text: &str) -> Result<(), AllocError>
    ensures { OnOk result (Adds (named name.now (string text.now)) out.old out.new) }
{
    out.key(name)?;
    out.string(text)
}

/// The members that say more than the message: the page, the hint and the lines.
fn print_advice(
    alloc: Global,
    out: &mut Writer,
    diagnostic: &FastCheckDiagnostic,
) -> Result<(), AllocError>
    ensures { OnOk result (Adds (advice (view_of diagnostic.now)) out.old out.new) }
{
    out.key("docs_url")?;
    print_optional(out, diagnostic.docs_url(alloc)?)?;
    out.key("hint")?;
    print_optional(out, diagnostic.hint(alloc)?)?;
    out.key("info")?;
    print_lines(out, diagnostic.info(alloc)?)
}

fn level_text(level: DiagnosticLevel) -> &'static str
    ensures { result.now ≡ level_text level }
{
    match level {
        DiagnosticLevel::Error => "Error",
        DiagnosticLevel::Warning => "Warning",
    }
}

/// The range of a place, or null where there is none.
fn print_place(out: &mut Writer, place: Option<&FastCheckDiagnosticRange>) -> Result<(), AllocError>
    ensures { OnOk result (WritesData (place_or_null (option_copied place.entry)) out.old out.new) }
{
    match place {
        Some(place) => print_range(out, place.range),
        None => out.null(),
    }
}

/// A text, or null where there is none.
fn print_optional(out: &mut Writer, text: Option<String>) -> Result<(), AllocError>
    ensures { OnOk result (WritesData (text_or_null (option_map string_bytes text)) out.old out.new) }
{
    match text {
        Some(text) => out.string(text.as_str()),
        None => out.null(),
    }
}

/// Texts, as an array.
fn print_lines(out: &mut Writer, lines: Vec<String>) -> Result<(), AllocError>
    ensures { OnOk result (WritesData (array (items_of (map string (map string_bytes lines.items)))) out.old out.new) }
{
    out.begin_array()?;
    for line in lines.as_slice() {
        out.string(line.as_str())?;
    }
    out.end_array()
}
