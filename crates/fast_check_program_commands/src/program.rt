//! A run of the program.

ghost use Rattle.std.specs.Prelude.{◌≡◌, ◌<◌, ◌≤◌, map, option_map, None, ◌⊎◌};
ghost use Rattle.std.specs.String.{string_bytes};
ghost use Rattle.fast_check_program_requests.specs.declared.ending.Ending.{Ending};
ghost use Rattle.fast_check_program_requests.specs.Refusal.{WritesRefusal};
ghost use Rattle.fast_check_program_commands.specs.Commands.{called, RefusesCall, IsAnswered, IsRefusedAnswer};

use crate::command::AnyCommand;
use fast_check_program_requests::{LineWriter, Refusal, run_commands};
use std::alloc::Global;
use std::io::Read;

/// Runs the program with these words on an input, which is none where its file does not open, and answers the status: 0 where all modules
/// have skeletons, 1 where there are diagnostics, each with one line of JSON to `out`; 2 where the words or the input are refused, 3
/// where memory ran out, and 4 where `out` does not take its line, each with one line to `err`. Whether a line was taken is what
/// `run_commands` answers beside the status.
pub fn run<R: Read + Drop, O: LineWriter, E: LineWriter>(
    alloc: Global,
    words: &[String],
    input: Option<R>,
    out: &mut O,
    err: &mut E,
) -> u8
    ensures usage { called (map string_bytes words.now) ≡ None → (ending : Ending) × (ending.status ≡ result)
        × WritesRefusal E.takes Refusal.Usage err.old err.new ending × (out.new ≡ out.old) }
    ensures answer { result < 2 → (ending : Ending) × (ending.status ≡ result)
        × IsAnswered O.takes (map string_bytes words.now) (option_map R.remaining input) out.old out.new ending × (err.new ≡ err.old) }
    ensures refusal { 2 ≤ result → (ending : Ending) × (ending.status ≡ result)
        × ((refusal : Refusal) × WritesRefusal E.takes refusal err.old err.new ending
        × ((RefusesCall (map string_bytes words.now) (option_map R.remaining input) refusal × (out.new ≡ out.old))
        ⊎ ((refusal ≡ Refusal.Unwritable)
        × IsRefusedAnswer O.takes (map string_bytes words.now) (option_map R.remaining input) out.old out.new))) }
{
    run_commands::<AnyCommand, R, O, E>(alloc, words, input, out, err).status
}
