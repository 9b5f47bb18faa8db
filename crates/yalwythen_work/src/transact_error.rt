// Why a worker cannot continue.
ghost use Rattle.std.specs.Prelude.{◌≡◌};

use std::alloc::{AllocError, AllocFailed};
use thiserror::Error;
use txc_base::{Cause, Stop};
use txc_txn_check::TxnFault;

/// Why a worker's transaction did not commit. A worker usually returns the error and so ends.
#[derive(Debug, Clone, Copy, PartialEq, Eq, Error)]
pub enum TransactError {
    /// The steps are not a transaction of this table.
    #[error("unfit: {0}")]
    Unfit(TxnFault),
    /// The session has no such prepared transaction: it was prepared at another session.
    #[error("unprepared")]
    Unprepared,
    /// Deadlock: every worker that had not ended was waiting with no deadline.
    #[error("stalled: {0}")]
    Stalled(Cause),
    /// The transaction aborted, or allocation failed.
    #[error("stopped: {0}")]
    Stopped(Stop),
}

impl From<TxnFault> for TransactError {
    ghost use Rattle.yalwythen_work.specs.declared.transact_error.TransactError.TheVariants.{Unfit};

    ghost from_gives = { λ fault error. error ≡ Unfit fault };

    fn from(fault: TxnFault) -> TransactError {
        TransactError::Unfit(fault)
    }
}

impl From<Stop> for TransactError {
    ghost use Rattle.yalwythen_work.specs.declared.transact_error.TransactError.TheVariants.{Stopped};

    ghost from_gives = { λ stop error. error ≡ Stopped stop };

    fn from(stop: Stop) -> TransactError {
        TransactError::Stopped(stop)
    }
}

impl From<AllocError> for TransactError {
    ghost use Rattle.txc_base.specs.declared.stop.Stop.TheVariants.{NoMemory};
    ghost use Rattle.yalwythen_work.specs.declared.transact_error.TransactError.TheVariants.{Stopped};

    ghost from_gives = { λ _ error. error ≡ Stopped NoMemory };

    fn from(_refused: AllocError) -> TransactError {
        TransactError::Stopped(Stop::NoMemory)
    }
}

impl<T: Drop> From<AllocFailed<T>> for TransactError {
    ghost use Rattle.txc_base.specs.declared.stop.Stop.TheVariants.{NoMemory};
    ghost use Rattle.yalwythen_work.specs.declared.transact_error.TransactError.TheVariants.{Stopped};

    ghost from_gives = { λ _ error. error ≡ Stopped NoMemory };

    fn from(_refused: AllocFailed<T>) -> TransactError {
        TransactError::Stopped(Stop::NoMemory)
    }
}
