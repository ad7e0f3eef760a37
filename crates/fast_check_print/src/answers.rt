//! The answers of `build`, as JSON.

ghost use Rattle.std.specs.Prelude.{OnOk};
ghost use Rattle.fast_check_print.specs.Writing.{WritesData};
ghost use Rattle.fast_check_print.specs.Answers.{answers_data, entry_data};

use crate::answer::print_answer;
use fast_check_tables_diagnostics::FastCheckDiagnostic;
use fast_check_tables_diagnostics::parsed_source::{FastCheckModule, ModuleSpecifier};
use json::Writer;
use std::alloc::{AllocError, Global};

/// The answers in their order, as an array of pairs: a specifier, and what `print_answer` writes. Each is dropped when it is written.
pub fn print_answers(
    alloc: Global,
    out: &mut Writer,
    answers: Vec<
        (
            ModuleSpecifier,
            Result<FastCheckModule, Vec<FastCheckDiagnostic>>,
        ),
    >,
) -> Result<(), AllocError>
    ensures { OnOk result (WritesData (answers_data answers.items) out.old out.new) }
{
    out.begin_array()?;
    for (specifier, answer) in answers {
        print_entry(alloc, out, &specifier, &answer)?;
    }
    out.end_array()
}

/// A specifier with its answer, as an array of two.
fn print_entry(
    alloc: Global,
    out: &mut Writer,
    specifier: &ModuleSpecifier,
    answer: &Result<FastCheckModule, Vec<FastCheckDiagnostic>>,
) -> Result<(), AllocError>
    ensures { OnOk result (WritesData (entry_data (specifier.now, answer.now)) out.old out.new) }
{
    out.begin_array()?;
    out.string(specifier.as_str())?;
    print_answer(alloc, out, answer)?;
    out.end_array()
}
