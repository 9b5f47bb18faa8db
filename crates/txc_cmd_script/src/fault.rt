// Why a script is rejected.
ghost use Rattle.std.specs.Prelude.{◌≡◌};
ghost use Rattle.txc_cmd_script.specs.Fault.{script_fault_code};

use std::alloc::{AllocError, AllocFailed};
use std::error::Error;
use std::fmt;
use txc_txn_check::TxnFault;

/// Why a script is rejected: the first fault, in the order in which they are tested. Channels, seats and transactions
/// are numbered from 0.
#[derive(Debug, Clone, Copy, PartialEq, Eq)]
pub enum ScriptFault {
    /// The reader failed.
    ReadFailed,
    /// The script has more than 1,048,576 bytes.
    TooLarge,
    /// The text is not JSON.
    NotJson,
    /// The tree does not have the shape of a script.
    Shape,
    /// The script has another version.
    Version,
    /// There are more than 8 channels.
    TooManyChannels,
    /// There is no seat, or there are more than 16.
    BadSeatCount,
    /// A channel's bound is over 65,535.
    BoundTooLarge {
        chan: usize,
    },
    /// A channel has more than 64 readers.
    TooManyReaders {
        chan: usize,
    },
    /// A transaction has a step that is not an operation.
    UnknownOp {
        seat: usize,
        txn: usize,
    },
    /// A transaction exceeds a limit, or does not fit the channels.
    Txn {
        seat: usize,
        txn: usize,
        fault: TxnFault,
    },
    /// Allocation failed.
    NoMemory,
}

impl ScriptFault {
    /// Returns the number of this fault, from 1.
    pub fn code(&self) -> u8
        ensures { result ≡ script_fault_code self.now }
    {
        match self {
            ScriptFault::ReadFailed => 1,
            ScriptFault::TooLarge => 2,
            ScriptFault::NotJson => 3,
            ScriptFault::Shape => 4,
            ScriptFault::Version => 5,
            ScriptFault::TooManyChannels => 6,
            ScriptFault::BadSeatCount => 7,
            ScriptFault::BoundTooLarge { chan: _ } => 8,
            ScriptFault::TooManyReaders { chan: _ } => 9,
            ScriptFault::UnknownOp { seat: _, txn: _ } => 10,
            ScriptFault::Txn {
                seat: _,
                txn: _,
                fault: _,
            } => 11,
            ScriptFault::NoMemory => 12,
        }
    }
}

// The program prints this text after `fault: `.
impl fmt::Display for ScriptFault {
    ghost use Rattle.std.specs.Prelude.{Some};
    ghost use Rattle.txc_cmd_script.specs.Fault.{script_fault_text};

    ghost output = { λ fault. Some (script_fault_text fault) };

    fn fmt<W: fmt::Write>(&self, f: &mut fmt::Formatter<W>) -> fmt::Result {
        match self {
            ScriptFault::ReadFailed => f.write_str("read failed"),
            ScriptFault::TooLarge => f.write_str("script too large"),
            ScriptFault::NotJson => f.write_str("not JSON"),
            ScriptFault::Shape => f.write_str("shape"),
            ScriptFault::Version => f.write_str("version"),
            ScriptFault::TooManyChannels => f.write_str("too many channels"),
            ScriptFault::BadSeatCount => f.write_str("bad seat count"),
            ScriptFault::BoundTooLarge { chan } => write!(f, "channel {chan}: bound too large"),
            ScriptFault::TooManyReaders { chan } => write!(f, "channel {chan}: too many readers"),
            ScriptFault::UnknownOp { seat, txn } => {
                write!(f, "seat {seat} txn {txn}: unknown operation")
            }
            ScriptFault::Txn { seat, txn, fault } => write!(f, "seat {seat} txn {txn}: {fault}"),
            ScriptFault::NoMemory => f.write_str("no memory"),
        }
    }
}

impl Error for ScriptFault {}

impl From<AllocError> for ScriptFault {
    ghost use Rattle.txc_cmd_script.specs.declared.fault.ScriptFault.TheVariants.{NoMemory};

    ghost from_gives = { λ _ fault. fault ≡ NoMemory };

    fn from(_refused: AllocError) -> ScriptFault {
        ScriptFault::NoMemory
    }
}

impl<T: Drop> From<AllocFailed<T>> for ScriptFault {
    ghost use Rattle.txc_cmd_script.specs.declared.fault.ScriptFault.TheVariants.{NoMemory};

    ghost from_gives = { λ _ fault. fault ≡ NoMemory };

    fn from(_refused: AllocFailed<T>) -> ScriptFault {
        ScriptFault::NoMemory
    }
}
