//! What is wrong with tables.
use std::alloc::{AllocError, AllocFailed};

/// What is wrong with tables that were handed in, in order: of several faults the first is reported.
#[derive(Clone, Copy, Debug, PartialEq, Eq, Drop, thiserror::Error)]
pub enum TableFault {
    /// A symbol id is mentioned, and no symbol has it.
    #[error("table-fault 1")]
    MissingSymbol,
    /// A symbol without declaration is not the module's, or is a private member.
    #[error("table-fault 2")]
    SymbolWithoutDecl,
    /// A module stands under another name than its own.
    #[error("table-fault 3")]
    ModuleNotUnderOwnName,
    /// An expando statement's range is one of the tables', and its object has no symbol.
    #[error("table-fault 4")]
    ExpandoWithoutSymbol,
    /// Memory ran out.
    #[error("out of memory")]
    OutOfMemory,
}

impl From<AllocError> for TableFault {
    ghost use Rattle.std.specs.Prelude.{◌≡◌};
    ghost use Rattle.fast_check_tables_symbols.specs.declared.fault.TableFault.TheVariants.{OutOfMemory};

    ghost from_gives = { λ _ fault. fault ≡ OutOfMemory };

    fn from(_error: AllocError) -> TableFault {
        TableFault::OutOfMemory
    }
}

impl<T: Drop> From<AllocFailed<T>> for TableFault {
    ghost use Rattle.std.specs.Prelude.{◌≡◌};
    ghost use Rattle.fast_check_tables_symbols.specs.declared.fault.TableFault.TheVariants.{OutOfMemory};

    ghost from_gives = { λ _ fault. fault ≡ OutOfMemory };

    fn from(_error: AllocFailed<T>) -> TableFault {
        TableFault::OutOfMemory
    }
}
