// The reasons that a table cannot be made.
ghost use Rattle.std.specs.Prelude.{◌≡◌};
ghost use Rattle.txc_table_report.specs.Refusal.{table_fault_code};

use std::alloc::AllocError;
use thiserror::Error;

/// The reason that a table cannot be made. The variants are in the order in which they are tested.
#[derive(Debug, Clone, Copy, PartialEq, Eq, Error)]
pub enum TableFault {
    /// More channels are declared than the limits allow.
    #[error("too many channels")]
    TooManyChannels,
    /// The number of seats is 0 or greater than the limits allow.
    #[error("bad seat count")]
    BadSeatCount,
    /// The bound of a channel is greater than 65,535.
    #[error("bound too large")]
    BoundTooLarge,
    /// A channel is declared with more than 64 readers.
    #[error("too many readers")]
    TooManyReaders,
    /// Allocation failed.
    #[error("no memory")]
    NoMemory,
}

impl TableFault {
    /// Returns the number of this fault, from 1.
    pub fn code(&self) -> u8
        ensures { result ≡ table_fault_code self.now }
    {
        match self {
            TableFault::TooManyChannels => 1,
            TableFault::BadSeatCount => 2,
            TableFault::BoundTooLarge => 3,
            TableFault::TooManyReaders => 4,
            TableFault::NoMemory => 5,
        }
    }
}

impl From<AllocError> for TableFault {
    ghost use Rattle.std.specs.Prelude.{◌≡◌};
    ghost use Rattle.txc_table_report.specs.declared.fault.TableFault.TheVariants.{NoMemory};

    ghost from_gives = { λ _ fault. fault ≡ NoMemory };

    fn from(_: AllocError) -> TableFault {
        TableFault::NoMemory
    }
}
