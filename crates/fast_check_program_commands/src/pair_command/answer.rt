//! The line that `pair` answers.

ghost use Rattle.std.specs.Prelude.{◌≡◌, IfOk, OnOk};
ghost use Rattle.fast_check_print.specs.Writing.{WritesData};
ghost use Rattle.fast_check_program_transform.specs.Line.{line_of_data};
ghost use Rattle.fast_check_program_commands.specs.pair_command.Line.{answers_data};

use fast_check_print::print_answer;
use fast_check_tables_diagnostics::parsed_source::FastCheckModule;
use fast_check_tables_modules::diagnostics::FastCheckDiagnostic;
use json::Writer;
use std::alloc::{AllocError, Global};

/// The answers to both modules, the first one's first, as a line of compact JSON: `[{"Ok": module}, {"Err": [diagnostic, ..]}]`.
pub fn line_of_answers(
    alloc: Global,
    first: &Result<FastCheckModule, Vec<FastCheckDiagnostic>>,
    second: &Result<FastCheckModule, Vec<FastCheckDiagnostic>>,
) -> Result<Vec<u8>, AllocError>
    ensures { IfOk result (λ line. line.items ≡ line_of_data (answers_data first.now second.now)) }
{
    let mut out = Writer::new(Vec::new(alloc));
    write_both(alloc, &mut out, first, second)?;
    let mut line = out.into_inner();
    line.push(b'\n')?;
    Ok(line)
}

/// Both answers as an array of two.
fn write_both(
    alloc: Global,
    out: &mut Writer,
    first: &Result<FastCheckModule, Vec<FastCheckDiagnostic>>,
    second: &Result<FastCheckModule, Vec<FastCheckDiagnostic>>,
) -> Result<(), AllocError>
    ensures { OnOk result (WritesData (answers_data first.now second.now) out.old out.new) }
{
    out.begin_array()?;
    print_answer(alloc, out, first)?;
    print_answer(alloc, out, second)?;
    out.end_array()
}
