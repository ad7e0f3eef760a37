//! The line that the program answers.

ghost use Rattle.std.specs.Prelude.{◌≡◌, IfOk};
ghost use Rattle.fast_check_print.specs.Answer.{answer_data};
ghost use Rattle.fast_check_program_transform.specs.Line.{line_of_data};

use fast_check_print::print_answer;
use fast_check_tables_diagnostics::parsed_source::FastCheckModule;
use fast_check_tables_modules::diagnostics::FastCheckDiagnostic;
use json::Writer;
use std::alloc::{AllocError, Global};

/// `{"Ok": module}`, or `{"Err": [diagnostic, ..]}`, as a line of compact JSON.
pub fn line_of(
    alloc: Global,
    answer: &Result<FastCheckModule, Vec<FastCheckDiagnostic>>,
) -> Result<Vec<u8>, AllocError>
    ensures { IfOk result (λ line. line.items ≡ line_of_data (answer_data answer.now)) }
{
    let mut out = Writer::new(Vec::new(alloc));
    print_answer(alloc, &mut out, answer)?;
    let mut line = out.into_inner();
    line.push(b'\n')?;
    Ok(line)
}
