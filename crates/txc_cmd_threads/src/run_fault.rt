// Why the threads of a script have no outcome.
ghost use Rattle.std.specs.Prelude.{◌≡◌};
ghost use Rattle.txc_cmd_threads.specs.Ran.{run_fault_code};

use std::alloc::{AllocError, AllocFailed};
use thiserror::Error;
use txc_txn::Report;

/// Why the threads of a script have no outcome. If several reasons hold, `NoThread` precedes `NoMemory`.
#[derive(Debug, PartialEq, Eq, Drop, Error)]
pub enum RunFault {
    /// A thread could not be started.
    #[error("no thread")]
    NoThread,
    /// An act of a receipt is not the log entry at its place in the report. This is never returned. It exists for
    /// callers that name it.
    #[error("torn at seat {seat} chan {chan} place {place}")]
    Torn {
        /// The number of the seat.
        seat: u16,
        /// The number of the channel.
        chan: u16,
        /// The act's index in the channel's log.
        place: usize,
        /// All channels and all receipts.
        report: Report,
    },
    /// Allocation failed.
    #[error("no memory")]
    NoMemory,
}

impl RunFault {
    /// Returns the number of this fault, from 1.
    pub fn code(&self) -> u8
        ensures { result ≡ run_fault_code self.now }
    {
        match self {
            RunFault::NoThread => 1,
            RunFault::Torn { .. } => 2,
            RunFault::NoMemory => 3,
        }
    }
}

impl From<AllocError> for RunFault {
    ghost use Rattle.txc_cmd_threads.specs.declared.run_fault.RunFault.TheVariants.{NoMemory};

    ghost from_gives = { λ _ fault. fault ≡ NoMemory };

    fn from(_refused: AllocError) -> RunFault {
        RunFault::NoMemory
    }
}

impl<T: Drop> From<AllocFailed<T>> for RunFault {
    ghost use Rattle.txc_cmd_threads.specs.declared.run_fault.RunFault.TheVariants.{NoMemory};

    ghost from_gives = { λ _ fault. fault ≡ NoMemory };

    fn from(_refused: AllocFailed<T>) -> RunFault {
        RunFault::NoMemory
    }
}
