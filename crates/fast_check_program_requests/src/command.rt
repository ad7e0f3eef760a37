//! The commands of a program.

ghost use Rattle.std.specs.Prelude.{◌≡◌, ◌<◌, ℕ, List, Option, IfOk, IfErr};
ghost use Rattle.fast_check_program_requests.specs.declared.refusal.Refusal.{Refusal};
ghost use Rattle.fast_check_program_requests.specs.Run.{IsOfBytes};

use crate::refusal::Refusal;
use std::alloc::Global;

/// A line for standard output, and the status that goes with it: 0 where all modules have skeletons, 1 where there are
/// diagnostics.
#[derive(Drop)]
pub struct Answer {
    pub line: Vec<u8>,
    pub status: u8,
}

/// A command of a program, by what it answers to the bytes of a file. `run` is one for all programs.
pub trait Command: Copy {
    // The command of a name.
    ghost named: { List ℕ → Option Self };

    // A line with its status that answers these bytes.
    ghost Answers: { Self → List ℕ → List ℕ → ℕ → Type 0 };

    // Why these bytes have no answer.
    ghost Refuses: { Self → List ℕ → Refusal → Type 0 };

    /// The command of this name, if there is one.
    fn of_name(name: &str) -> Option<Self>
        ensures { result ≡ named name.now };

    /// The answer to the bytes of a file, or why they are refused.
    fn answer(self, alloc: Global, bytes: Vec<u8>) -> Result<Answer, Refusal>
        ensures answer { IfOk result (λ answer. Answers self bytes.items answer.line.items answer.status) }
        ensures status { IfOk result (λ answer. answer.status < 2) }
        ensures refusal { IfErr result (Refuses self bytes.items) }
        ensures of_bytes { IfErr result IsOfBytes };
}
