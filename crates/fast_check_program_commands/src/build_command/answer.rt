//! The line that `build` answers, and its status.

ghost use Rattle.std.specs.Prelude.{◌≡◌, IfOk};
ghost use Rattle.std.specs.List.{list_any};
ghost use Rattle.fast_check_program_commands.specs.build_command.Line.{line_of, status_of, has_diagnostics, IsLineOf};

use fast_check_build::answers::ModuleAnswer;
use fast_check_print::print_answers;
use fast_check_program_requests::Answer;
use json::Writer;
use std::alloc::{AllocError, Global};

/// The answers in their order, as a line of compact JSON: `[["file:///a.ts", {"Ok": module}], ..]`. Each is dropped when it is written.
fn line_of_answers(alloc: Global, answers: Vec<ModuleAnswer>) -> Result<Vec<u8>, AllocError>
    ensures { IfOk result (λ line. line.items ≡ line_of answers.items) }
{
    let mut out = Writer::new(Vec::new(alloc));
    print_answers(alloc, &mut out, answers)?;
    let mut line = out.into_inner();
    line.push(b'\n')?;
    Ok(line)
}

/// Whether it is diagnostics.
fn has_diagnostics(answer: &ModuleAnswer) -> bool
    ensures { result ≡ has_diagnostics answer.now }
{
    answer.1.is_err()
}

/// Whether one of them is diagnostics.
fn any_has_diagnostics(answers: &[ModuleAnswer]) -> bool
    ensures { result ≡ list_any has_diagnostics answers.now }
{
    answers.iter().any(|answer| has_diagnostics(answer))
}

/// The line of the answers, with its status.
pub fn answer_of(alloc: Global, answers: Vec<ModuleAnswer>) -> Result<Answer, AllocError>
    ensures { IfOk result (λ answer. IsLineOf answers.items answer.line.items answer.status) }
{
    let status = if any_has_diagnostics(answers.as_slice()) {
        1
    } else {
        0
    };
    let line = line_of_answers(alloc, answers)?;
    Ok(Answer { line, status })
}
