// The errors of a queue.
ghost use Rattle.std.specs.Prelude.{◌≡◌};
ghost use Rattle.txc_queue.specs.declared.queue_fault.QueueFault.TheVariants.{NoMemory};
ghost use Rattle.txc_queue.specs.QueueFault.{queue_fault_code};

use std::alloc::{AllocError, AllocFailed};
use thiserror::Error;

/// Why a call of a queue failed. Only `BoundQueue::write` and `BoundQueue::put_back` return `Full`.
#[derive(Debug, Clone, Copy, PartialEq, Eq, Error)]
pub enum QueueFault {
    /// The queue holds its bound or more.
    #[error("the queue is full")]
    Full,
    /// Allocation failed.
    #[error("no memory")]
    NoMemory,
}

impl QueueFault {
    /// Returns the number of this error, from 1.
    pub fn code(&self) -> u8
        ensures { result ≡ queue_fault_code self.now }
    {
        match self {
            QueueFault::Full => 1,
            QueueFault::NoMemory => 2,
        }
    }
}

impl From<AllocError> for QueueFault {
    ghost from_gives = { λ _ fault. fault ≡ NoMemory };

    fn from(_error: AllocError) -> QueueFault {
        QueueFault::NoMemory
    }
}

impl<T: Drop> From<AllocFailed<T>> for QueueFault {
    ghost from_gives = { λ _ fault. fault ≡ NoMemory };

    fn from(_error: AllocFailed<T>) -> QueueFault {
        QueueFault::NoMemory
    }
}
