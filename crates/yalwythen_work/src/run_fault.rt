// Why a run has no report.
ghost use Rattle.std.specs.Prelude.{◌≡◌};

use std::alloc::{AllocError, AllocFailed};
use thiserror::Error;
use txc_table::TableFault;
use txc_txn::Report;

/// Why a run of workers has no report.
#[derive(Debug, PartialEq, Eq, Drop, Error)]
pub enum RunFault {
    /// There are more workers than a table has seats.
    #[error("too many workers")]
    TooManyWorkers,
    /// No table can be made of these channels for this number of workers.
    #[error("no table: {0}")]
    Table(TableFault),
    /// A thread could not be started.
    #[error("no thread")]
    NoThread,
    /// An act of a receipt is not the log entry at its place in the report. This is never returned. It exists for
    /// callers that name it.
    #[error("torn at seat {seat} chan {chan} place {place}")]
    Torn {
        /// The number of the seat.
        seat: u16,
        /// The number of the channel.
        chan: u16,
        /// The act's index in the channel's log.
        place: usize,
        /// All channels and all receipts.
        report: Report,
    },
    /// Allocation failed.
    #[error("no memory")]
    NoMemory,
}

impl From<AllocError> for RunFault {
    ghost use Rattle.yalwythen_work.specs.declared.run_fault.RunFault.TheVariants.{NoMemory};

    ghost from_gives = { λ _ fault. fault ≡ NoMemory };

    fn from(_refused: AllocError) -> RunFault {
        RunFault::NoMemory
    }
}

impl<T: Drop> From<AllocFailed<T>> for RunFault {
    ghost use Rattle.yalwythen_work.specs.declared.run_fault.RunFault.TheVariants.{NoMemory};

    ghost from_gives = { λ _ fault. fault ≡ NoMemory };

    fn from(_refused: AllocFailed<T>) -> RunFault {
        RunFault::NoMemory
    }
}
