// The result of a write to a typed channel.
ghost use Rattle.std.specs.Prelude.{◌≡◌, Some};
ghost use Rattle.txc_base.specs.declared.stop.Stop.TheVariants.{NoMemory};
ghost use Rattle.yalwythen_work.specs.declared.transact_error.TransactError.TheVariants.{Stopped};

use crate::transact_error::TransactError;
use thiserror::Error;
use txc_base::Stop;

/// The result of a write of a value to a typed channel.
#[derive(Debug, Drop)]
#[must_use]
pub enum SendOutcome<V> {
    /// The value is in the channel.
    Written,
    /// The channel was closed. It holds the value, or `None` only if another thread took the value by its key in the
    /// meantime.
    Closed(Option<V>),
}

/// A value that was not sent, because the transaction that writes it did not commit.
#[derive(Debug, Drop, Error)]
#[error("not sent: {error}")]
pub struct SendError<V> {
    /// The value, or `None` only if another thread took it by its key in the meantime.
    pub value: Option<V>,
    /// Why the transaction did not commit.
    pub error: TransactError,
}

impl<V> SendError<V> {
    /// Makes the error that returns this value after an allocation failed.
    pub(crate) fn without_memory(value: V) -> SendError<V>
        ensures value { result.value ≡ Some value }
        ensures error { result.error ≡ Stopped NoMemory }
    {
        SendError {
            value: Some(value),
            error: TransactError::Stopped(Stop::NoMemory),
        }
    }
}

impl<V: Drop> From<SendError<V>> for TransactError {
    ghost from_gives = { λ unsent error. error ≡ unsent.error };

    fn from(unsent: SendError<V>) -> TransactError {
        let SendError { value: _, error } = unsent;
        error
    }
}
