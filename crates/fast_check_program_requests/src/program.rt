//! A run of a program: its words, its file, and the streams.

ghost use Rattle.std.specs.Prelude.{◌≡◌, ◌<◌, ◌≤◌, map, option_map, None, IfOk, IfErr, ◌⊎◌};
ghost use Rattle.std.specs.String.{string_bytes};
ghost use Rattle.fast_check_program_requests.specs.Call.{called};
ghost use Rattle.fast_check_program_requests.specs.Refusal.{WritesRefusal};
ghost use Rattle.fast_check_program_requests.specs.Run.{RefusesCall, AnswersCall, IsAnswered, IsRefusedAnswer};

use crate::command::{Answer, Command};
use crate::ending::Ending;
use crate::input::read_bytes;
use crate::lines::LineWriter;
use crate::refusal::Refusal;
use std::alloc::Global;
use std::io::Read;

/// Runs a program of these commands with these words on an input, which is none where its file does not open. The status is 0
/// where all modules have skeletons, 1 where there are diagnostics, each with one line of JSON to `out`; 2 where the words or the
/// input are refused, 3 where memory ran out, and 4 where `out` does not take its line, each with one line to `err`.
pub fn run_commands<C: Command, R: Read + Drop, O: LineWriter, E: LineWriter>(
    alloc: Global,
    words: &[String],
    input: Option<R>,
    out: &mut O,
    err: &mut E,
) -> Ending
    ensures usage { called C.named (map string_bytes words.now) ≡ None →
        WritesRefusal E.takes Refusal.Usage err.old err.new result × (out.new ≡ out.old) }
    ensures answer { result.status < 2 →
        IsAnswered C.named C.Answers O.takes (map string_bytes words.now) (option_map R.remaining input) out.old out.new result
        × (err.new ≡ err.old) }
    ensures refusal { 2 ≤ result.status → (refusal : Refusal) × WritesRefusal E.takes refusal err.old err.new result
        × ((RefusesCall C.named C.Refuses (map string_bytes words.now) (option_map R.remaining input) refusal × (out.new ≡ out.old))
        ⊎ ((refusal ≡ Refusal.Unwritable)
        × IsRefusedAnswer C.named C.Answers O.takes (map string_bytes words.now) (option_map R.remaining input) out.old out.new)) }
{
    match respond::<C, R>(alloc, words, input) {
        Ok(answer) => {
            if out.write_line(answer.line.as_slice()) {
                return Ending {
                    status: answer.status,
                    is_written: true,
                };
            }
            Refusal::Unwritable.write_line(err)
        }
        Err(refusal) => refusal.write_line(err),
    }
}

/// The answer to the words and the file, or why they are refused.
fn respond<C: Command, R: Read + Drop>(
    alloc: Global,
    words: &[String],
    input: Option<R>,
) -> Result<Answer, Refusal>
    ensures answer { IfOk result (λ answer.
        AnswersCall C.named C.Answers (map string_bytes words.now) (option_map R.remaining input) answer.line.items answer.status) }
    ensures refusal { IfErr result (RefusesCall C.named C.Refuses (map string_bytes words.now) (option_map R.remaining input)) }
{
    match called::<C>(words) {
        Some(command) => command.answer(alloc, read_bytes(alloc, input)?),
        None => Err(Refusal::Usage),
    }
}

/// The command that the words name, where one file stands behind it.
fn called<C: Command>(words: &[String]) -> Option<C>
    ensures { result ≡ called C.named (map string_bytes words.now) }
{
    match words {
        [name, _] => C::of_name(name.as_str()),
        _ => None,
    }
}
