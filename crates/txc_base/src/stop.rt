// Why a transaction aborts.
ghost use Rattle.std.specs.Prelude.{◌≡◌};
ghost use Rattle.txc_base.specs.Stop.{stop_code};
ghost use Rattle.txc_base.specs.Text.{stop_text};

use std::alloc::{AllocError, AllocFailed};
use std::error::Error;
use std::fmt;

/// Why a transaction aborts. No alternative catches the abort, and the transaction has no effect.
#[derive(Debug, Clone, Copy, PartialEq, Eq)]
pub enum Stop {
    /// The channel has no reader with this number.
    NoReader,
    /// The body of an item is that of the last item read or peeked, and there is none.
    NothingRead,
    /// The channel has `MAX_READERS` readers already.
    TooManyReaders,
    /// A serial or a stamp is `GREATEST_NUMBER` and cannot be raised.
    Worn,
    /// Allocation failed.
    NoMemory,
}

impl Stop {
    /// Returns the number of this stop, from 1.
    pub fn code(&self) -> u8
        ensures { result ≡ stop_code self.now }
    {
        match self {
            Stop::NoReader => 1,
            Stop::NothingRead => 2,
            Stop::TooManyReaders => 3,
            Stop::Worn => 4,
            Stop::NoMemory => 5,
        }
    }
}

impl fmt::Display for Stop {
    ghost use Rattle.std.specs.Prelude.{Some};

    ghost output = { λ stop. Some (stop_text stop) };

    fn fmt<W: fmt::Write>(&self, f: &mut fmt::Formatter<W>) -> fmt::Result {
        f.write_str(match self {
            Stop::NoReader => "no-reader",
            Stop::NothingRead => "nothing-read",
            Stop::TooManyReaders => "too-many-readers",
            Stop::Worn => "worn",
            Stop::NoMemory => "no memory",
        })
    }
}

impl Error for Stop {}

impl From<AllocError> for Stop {
    ghost use Rattle.txc_base.specs.declared.stop.Stop.TheVariants.{NoMemory};

    ghost from_gives = { λ _ stop. stop ≡ NoMemory };

    fn from(_refused: AllocError) -> Stop {
        Stop::NoMemory
    }
}

impl<T: Drop> From<AllocFailed<T>> for Stop {
    ghost use Rattle.txc_base.specs.declared.stop.Stop.TheVariants.{NoMemory};

    ghost from_gives = { λ _ stop. stop ≡ NoMemory };

    fn from(_refused: AllocFailed<T>) -> Stop {
        Stop::NoMemory
    }
}
