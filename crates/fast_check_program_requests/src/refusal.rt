//! Why the program has no answer, and what it says then.

ghost use Rattle.std.specs.Prelude.{◌≡◌};
ghost use Rattle.fast_check_program_requests.specs.Refusal.{line_of, line_of_fault, status_of, WritesRefusal};

use crate::ending::Ending;
use crate::lines::LineWriter;
use fast_check_read::{InputFault, ReadError};
use fast_check_tables_modules::TableFault;
use std::alloc::{AllocError, AllocFailed};

/// Why the program has no answer.
#[derive(Clone, Copy, Debug, PartialEq, Eq)]
pub enum Refusal {
    /// The words are not a command and a file.
    Usage,
    /// The file does not open, or reading it fails.
    Unreadable,
    /// The file's bytes are not UTF-8, or not JSON.
    NotJson,
    /// The JSON is not of the command's form.
    BadForm,
    /// The tables of a module have a fault.
    TableFault(TableFault),
    /// A range is public that no module with these tables admits.
    RangesNotAdmitted,
    /// An export text of a package does not join to the package's URL.
    InvalidExport,
    /// The answer cannot be written.
    Unwritable,
    OutOfMemory,
}

impl Refusal {
    /// The line that is written to standard error.
    pub fn line(self) -> &'static str
        ensures { result.now ≡ line_of self }
    {
        match self {
            Refusal::Usage => "usage: fast-check (build|transform|pair) FILE\n",
            Refusal::Unreadable => "error: input refused: unreadable\n",
            Refusal::NotJson => "error: input refused: not-json\n",
            Refusal::BadForm => "error: input refused: bad-form\n",
            Refusal::TableFault(fault) => line_of_fault(fault),
            Refusal::RangesNotAdmitted => "error: input refused: ranges-not-admitted\n",
            Refusal::InvalidExport => "error: input refused: invalid-export\n",
            Refusal::Unwritable => "error: output refused\n",
            Refusal::OutOfMemory => "error: out of memory\n",
        }
    }

    /// The status that the program ends with.
    pub fn status(self) -> u8
        ensures { result ≡ status_of self }
    {
        match self {
            Refusal::OutOfMemory | Refusal::TableFault(TableFault::OutOfMemory) => 3,
            Refusal::Unwritable => 4,
            _ => 2,
        }
    }

    /// Writes the line, and answers the status, with whether the line was taken. A line that is not taken changes no status.
    pub fn write_line<E: LineWriter>(self, err: &mut E) -> Ending
        ensures { WritesRefusal E.takes self err.old err.new result }
    {
        Ending {
            status: self.status(),
            is_written: err.write_line(self.line().as_bytes()),
        }
    }
}

/// The line of a fault of tables, by its number.
fn line_of_fault(fault: TableFault) -> &'static str
    ensures { result.now ≡ line_of_fault fault }
{
    match fault {
        TableFault::MissingSymbol => "error: input refused: table-fault 1\n",
        TableFault::SymbolWithoutDecl => "error: input refused: table-fault 2\n",
        TableFault::ModuleNotUnderOwnName => "error: input refused: table-fault 3\n",
        TableFault::ExpandoWithoutSymbol => "error: input refused: table-fault 4\n",
        TableFault::OutOfMemory => "error: out of memory\n",
    }
}

impl From<InputFault> for Refusal {
    ghost use Rattle.fast_check_program_requests.specs.Refusal.{refusal_of_fault};

    ghost from_gives = { λ fault refusal. refusal ≡ refusal_of_fault fault };

    fn from(fault: InputFault) -> Refusal {
        match fault {
            InputFault::NotJson => Refusal::NotJson,
            InputFault::OutOfMemory => Refusal::OutOfMemory,
        }
    }
}

impl From<ReadError> for Refusal {
    ghost use Rattle.fast_check_program_requests.specs.Refusal.{refusal_of_error};

    ghost from_gives = { λ error refusal. refusal ≡ refusal_of_error error };

    fn from(error: ReadError) -> Refusal {
        match error {
            ReadError::BadForm => Refusal::BadForm,
            ReadError::OutOfMemory => Refusal::OutOfMemory,
        }
    }
}

impl From<TableFault> for Refusal {
    ghost use Rattle.fast_check_program_requests.specs.declared.refusal.Refusal.TheVariants as refusals;

    ghost from_gives = { λ fault refusal. refusal ≡ refusals.TableFault fault };

    fn from(fault: TableFault) -> Refusal {
        Refusal::TableFault(fault)
    }
}

impl From<AllocError> for Refusal {
    ghost use Rattle.fast_check_program_requests.specs.declared.refusal.Refusal.TheVariants.{OutOfMemory};

    ghost from_gives = { λ _ refusal. refusal ≡ OutOfMemory };

    fn from(_error: AllocError) -> Refusal {
        Refusal::OutOfMemory
    }
}

impl<T: Drop> From<AllocFailed<T>> for Refusal {
    ghost use Rattle.fast_check_program_requests.specs.declared.refusal.Refusal.TheVariants.{OutOfMemory};

    ghost from_gives = { λ _ refusal. refusal ≡ OutOfMemory };

    fn from(_error: AllocFailed<T>) -> Refusal {
        Refusal::OutOfMemory
    }
}
