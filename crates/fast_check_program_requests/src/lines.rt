//! Streams that take lines.

ghost use Rattle.std.specs.Prelude.{◌≡◌, ◌==◌, ◌++◌, ℕ, Bool, List, length};
ghost use Rattle.std.specs.Io.KnownBytes.{Appends};

use std::io::{ErrorKind, Write};

/// A stream that takes a line whole, or a front of it and refuses the rest. What is said of its calls is known from calls alone, so a
/// contract that speaks of a line that was refused says that it was tried.
pub trait LineWriter {
    // What a call does: the stream before it, the line, whether it was taken, and the stream after it.
    ghost takes: { Self → List ℕ → Bool → Self → Type 0 };

    /// Writes a line, and answers whether it was taken.
    fn write_line(&mut self, line: &[u8]) -> bool
        ensures { takes self.old line.now result self.new };
}

/// A writer as a stream of lines. Where its contents are known, a line that is taken stands there, and of one that is refused a front
/// that is not the whole line.
#[derive(Drop)]
pub struct Lines<W> {
    pub writer: W,
}

impl<W: Write> LineWriter for Lines<W> {
    ghost takes = { λ before line taken after. (done rest : List ℕ) × (line ≡ done ++ rest) × (taken ≡ (length rest == 0))
        × Appends (W.contents before.writer) (W.contents after.writer) done };

    fn write_line(&mut self, line: &[u8]) -> bool {
        write_front(&mut self.writer, line) == 0
    }
}

/// How often a write of one line is tried again that a signal interrupted.
const TRIES: usize = 100;

/// Writes bytes until the writer takes no more of them, and answers how many it did not take.
fn write_front<W: Write>(writer: &mut W, line: &[u8]) -> usize
    ensures { (done rest : List ℕ) × (line.now ≡ done ++ rest) × (result ≡ length rest)
        × Appends (W.contents writer.old) (W.contents writer.new) done }
{
    let mut rest = line;
    let mut tries = TRIES;
    'writes: while !rest.is_empty() {
        match writer.write(rest) {
            Ok(taken) if taken > 0 => rest = &rest[taken..],
            Err(error) if tries > 0 && error.kind() == ErrorKind::Interrupted => tries -= 1,
            _ => return rest.len(),
        }
    }
    0
}
