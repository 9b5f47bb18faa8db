// Why a channel cannot be made.
ghost use Rattle.std.specs.Prelude.{◌≡◌};
ghost use Rattle.txc_chan.specs.Fault.{chan_fault_code};

use std::alloc::{AllocError, AllocFailed};
use thiserror::Error;

/// Why a channel cannot be made, in the order of the checks.
#[derive(Debug, Clone, Copy, PartialEq, Eq, Error)]
pub enum ChanFault {
    /// The bound is over 65,535.
    #[error("bound too large")]
    BoundTooLarge,
    /// More than 64 readers are declared.
    #[error("too many readers")]
    TooManyReaders,
    /// Allocation failed.
    #[error("no memory")]
    NoMemory,
}

impl ChanFault {
    /// Returns the number of this fault, from 1.
    pub fn code(&self) -> u8
        ensures { result ≡ chan_fault_code self.now }
    {
        match self {
            ChanFault::BoundTooLarge => 1,
            ChanFault::TooManyReaders => 2,
            ChanFault::NoMemory => 3,
        }
    }
}

impl From<AllocError> for ChanFault {
    ghost use Rattle.txc_chan.specs.declared.fault.ChanFault.TheVariants.{NoMemory};

    ghost from_gives = { λ _ fault. fault ≡ NoMemory };

    fn from(_refused: AllocError) -> ChanFault {
        ChanFault::NoMemory
    }
}

impl<T: Drop> From<AllocFailed<T>> for ChanFault {
    ghost use Rattle.txc_chan.specs.declared.fault.ChanFault.TheVariants.{NoMemory};

    ghost from_gives = { λ _ fault. fault ≡ NoMemory };

    fn from(_refused: AllocFailed<T>) -> ChanFault {
        ChanFault::NoMemory
    }
}
