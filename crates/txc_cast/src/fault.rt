// The errors of a broadcast list.
ghost use Rattle.std.specs.Prelude.{◌≡◌};
ghost use Rattle.txc_cast.specs.Fault.{cast_fault_code};

use std::alloc::AllocError;
use thiserror::Error;

/// Why a call of a broadcast list failed. The errors are checked in this order.
#[derive(Debug, Clone, Copy, PartialEq, Eq, Error)]
pub enum CastFault {
    /// There is no reader with this number.
    #[error("there is no such reader")]
    NoReader,
    /// There would be more than `MAX_READERS` readers.
    #[error("there are too many readers")]
    TooManyReaders,
    /// Allocation failed.
    #[error("no memory")]
    NoMemory,
}

impl CastFault {
    /// Returns the number of this error, from 1.
    pub fn code(&self) -> u8
        ensures { result ≡ cast_fault_code self.now }
    {
        match self {
            CastFault::NoReader => 1,
            CastFault::TooManyReaders => 2,
            CastFault::NoMemory => 3,
        }
    }
}

impl From<AllocError> for CastFault {
    ghost use Rattle.std.specs.Prelude.{◌≡◌};
    ghost use Rattle.txc_cast.specs.declared.fault.CastFault.TheVariants.{NoMemory};

    ghost from_gives = { λ _ fault. fault ≡ NoMemory };

    fn from(_refused: AllocError) -> CastFault {
        CastFault::NoMemory
    }
}
