// Why steps are not a transaction.
ghost use Rattle.std.specs.Prelude.{◌≡◌};
ghost use Rattle.txc_txn_check.specs.Fault.{txn_fault_code};

use std::error::Error;
use std::fmt;

/// Why steps are not a transaction.
#[derive(Debug, Clone, Copy, PartialEq, Eq)]
pub enum TxnFault {
    /// The channel of an operation doesn't exist.
    NoChannel,
    /// The channel's kind doesn't have the operation.
    NotForKind,
    /// The operation names a reader of a queue other than 0.
    NoReader,
    /// The operations are on more than 4 channels.
    TooManyChannels,
    /// Alternatives are nested more than 8 deep.
    TooDeep,
    /// There are more than 64 operations, in all branches together.
    TooLong,
    /// Allocation failed. A check does not allocate, so it never returns this fault.
    NoMemory,
}

impl TxnFault {
    /// Returns the number of this fault, from 1.
    pub fn code(&self) -> u8
        ensures { result ≡ txn_fault_code self.now }
    {
        match self {
            TxnFault::NoChannel => 1,
            TxnFault::NotForKind => 2,
            TxnFault::NoReader => 3,
            TxnFault::TooManyChannels => 4,
            TxnFault::TooDeep => 5,
            TxnFault::TooLong => 6,
            TxnFault::NoMemory => 7,
        }
    }
}

// No other place defines these texts: the program writes the line of a fault with them.
impl fmt::Display for TxnFault {
    ghost use Rattle.std.specs.Prelude.{Some};
    ghost use Rattle.txc_txn_check.specs.Fault.{txn_fault_text};

    ghost output = { λ fault. Some (txn_fault_text fault) };

    fn fmt<W: fmt::Write>(&self, f: &mut fmt::Formatter<W>) -> fmt::Result {
        match self {
            TxnFault::NoChannel => f.write_str("no channel"),
            TxnFault::NotForKind => f.write_str("not for kind"),
            TxnFault::NoReader => f.write_str("no reader"),
            TxnFault::TooManyChannels => f.write_str("too many channels"),
            TxnFault::TooDeep => f.write_str("too deep"),
            TxnFault::TooLong => f.write_str("too long"),
            TxnFault::NoMemory => f.write_str("no memory"),
        }
    }
}

impl Error for TxnFault {}
